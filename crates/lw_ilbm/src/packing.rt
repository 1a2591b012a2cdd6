//! ByteRun1: rows of bytes as codes, and back.

ghost use Rattle.std.specs.Prelude.{◌≡◌, ◌+◌, ◌≤◌, ◌<◌, ◌^◌, ◌++◌, slice_index, min, length, take, drop, OnOk, IfOk, IsOkAnd};
ghost use Rattle.lw_ilbm.specs.Packing.{equal_bytes, has_three_equal, bytes_before_three, code_limit, packed, unpacked};

use std::alloc::{AllocError, Global};

/// How many bytes a code takes at most.
const CODE_LIMIT: usize = 128;

/// Writes the codes of a row.
pub(crate) fn push_packed(out: &mut Vec<u8>, row: &[u8]) -> Result<(), AllocError>
    ensures { OnOk result (out.new.items ≡ out.old.items ++ packed row.now) }
{
    let mut place = 0;
    while place < row.len() {
        place += push_code(out, &row[place..])?;
    }
    Ok(())
}

/// Writes the first code of the bytes, of which there is one at least, and answers how many of them it takes.
fn push_code(out: &mut Vec<u8>, bytes: &[u8]) -> Result<usize, AllocError>
    requires { 0 < length bytes.now }
    ensures some { IfOk result (λ count. 0 < count) }
    ensures inside { IfOk result (λ count. count ≤ length bytes.now) }
    ensures code { IfOk result (λ count. out.new.items ++ packed (drop count bytes.now) ≡ out.old.items ++ packed bytes.now) }
{
    if has_three_equal(bytes) {
        let count = equal_bytes(bytes);
        out.push((257 - count) as u8)?;
        out.push(bytes[0])?;
        Ok(count)
    } else {
        let count = bytes_before_three(bytes);
        out.push((count - 1) as u8)?;
        out.extend_from_slice(&bytes[..count])?;
        Ok(count)
    }
}

/// Three equal bytes come first.
fn has_three_equal(bytes: &[u8]) -> bool
    ensures { result ≡ has_three_equal bytes.now }
{
    bytes.len() >= 3 && bytes[1] == bytes[0] && bytes[2] == bytes[0]
}

/// How many of the bytes from the first on are equal to it, at most as many as a code takes.
fn equal_bytes(bytes: &[u8]) -> usize
    requires { 0 < length bytes.now }
    ensures { result ≡ min code_limit (equal_bytes (slice_index bytes.now 0) bytes.now) }
{
    let mut count = 1;
    while count < CODE_LIMIT && count < bytes.len() && bytes[count] == bytes[0] {
        count += 1;
    }
    count
}

/// How many bytes stand before the next three equal ones or the end, at most as many as a code takes.
fn bytes_before_three(bytes: &[u8]) -> usize
    ensures { result ≡ min code_limit (bytes_before_three bytes.now) }
{
    let mut count = 0;
    while count < CODE_LIMIT && count < bytes.len() && !has_three_equal(&bytes[count..]) {
        count += 1;
    }
    count
}

/// The first bytes that codes stand for, `count` of them, or all where they are fewer.
pub(crate) fn unpacked(alloc: Global, codes: &[u8], count: usize) -> Result<Vec<u8>, AllocError>
    requires { count < 2 ^ 32 }
    ensures { IfOk result (λ bytes. bytes.items ≡ take count (unpacked codes.now)) }
{
    let mut out = Vec::new(alloc);
    let mut place = 0;
    while place < codes.len() && out.len() < count {
        place += push_unpacked(&mut out, &codes[place..])?;
    }
    out.truncate(count);
    Ok(out)
}

/// Writes the bytes that the first code stands for, of which there is one at least, and answers how many bytes the code and what
/// follows it are.
fn push_unpacked(out: &mut Vec<u8>, codes: &[u8]) -> Result<usize, AllocError>
    requires { 0 < length codes.now }
    ensures some { IfOk result (λ count. 0 < count) }
    ensures inside { IfOk result (λ count. count ≤ length codes.now) }
    ensures bytes { IfOk result (λ count. out.new.items ++ unpacked (drop count codes.now)
        ≡ out.old.items ++ unpacked codes.now) }
{
    let code = codes[0] as usize;
    let rest = &codes[1..];
    if code < 128 {
        let count = rest.len().min(code + 1);
        out.extend_from_slice(&rest[..count])?;
        Ok(count + 1)
    } else if code == 128 || rest.is_empty() {
        Ok(1)
    } else {
        out.resize(out.len() + (257 - code), rest[0])?;
        Ok(2)
    }
}
