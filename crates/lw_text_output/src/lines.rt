//! Lines, words, numbers and names of the report.

ghost use Rattle.std.specs.Prelude.{◌≡◌, ◌<◌, ◌++◌, ◌∷◌, [], OnOk, OnErr};
ghost use Rattle.std.specs.List.{slice_index_or};
ghost use Rattle.std.specs.Fmt.{decimal, signed_decimal};
ghost use Rattle.lw_calls.specs.Written.{line_of, spaced, spaced_signed, hex_digit, hex_byte};
ghost use Rattle.lw_text_output.specs.Words.{Keeps};

use lw_calls::Text;
use std::alloc::{AllocError, Global};

/// Ends a line.
pub fn end_line(out: &mut Vec<u8>) -> Result<(), AllocError>
    ensures ok { OnOk result (out.new.items ≡ out.old.items ++ 10 ∷ []) }
    ensures err { OnErr result (Keeps out.old.items out.new.items) }
{
    out.push(b'\n')?;
    Ok(())
}

/// Writes a line of these bytes.
pub fn push_line(out: &mut Vec<u8>, bytes: &[u8]) -> Result<(), AllocError>
    ensures ok { OnOk result (out.new.items ≡ out.old.items ++ line_of bytes.now) }
    ensures err { OnErr result (Keeps out.old.items out.new.items) }
{
    out.extend_from_slice(bytes)?;
    end_line(out)
}

/// Writes a number in decimal digits.
pub fn push_decimal(alloc: Global, out: &mut Vec<u8>, number: usize) -> Result<(), AllocError>
    ensures ok { OnOk result (out.new.items ≡ out.old.items ++ decimal number) }
    ensures err { OnErr result (Keeps out.old.items out.new.items) }
{
    let digits = number.to_string(alloc)?;
    out.extend_from_slice(digits.as_bytes())
}

/// Writes a space and a number in decimal digits.
pub fn push_spaced(alloc: Global, out: &mut Vec<u8>, number: usize) -> Result<(), AllocError>
    ensures ok { OnOk result (out.new.items ≡ out.old.items ++ spaced number) }
    ensures err { OnErr result (Keeps out.old.items out.new.items) }
{
    out.push(b' ')?;
    push_decimal(alloc, out, number)
}

/// Writes a signed number in decimal digits.
pub fn push_signed(alloc: Global, out: &mut Vec<u8>, number: i64) -> Result<(), AllocError>
    ensures ok { OnOk result (out.new.items ≡ out.old.items ++ signed_decimal number) }
    ensures err { OnErr result (Keeps out.old.items out.new.items) }
{
    let digits = number.to_string(alloc)?;
    out.extend_from_slice(digits.as_bytes())
}

/// Writes a space and a signed number in decimal digits.
pub fn push_spaced_signed(alloc: Global, out: &mut Vec<u8>, number: i64) -> Result<(), AllocError>
    ensures ok { OnOk result (out.new.items ≡ out.old.items ++ spaced_signed number) }
    ensures err { OnErr result (Keeps out.old.items out.new.items) }
{
    out.push(b' ')?;
    push_signed(alloc, out, number)
}

/// Writes a space and a word.
pub fn push_word(out: &mut Vec<u8>, word: &[u8]) -> Result<(), AllocError>
    ensures ok { OnOk result (out.new.items ≡ out.old.items ++ 32 ∷ word.now) }
    ensures err { OnErr result (Keeps out.old.items out.new.items) }
{
    out.push(b' ')?;
    out.extend_from_slice(word)
}

/// Writes a line of a word and a number.
pub fn push_numbered_line(
    alloc: Global,
    out: &mut Vec<u8>,
    word: &[u8],
    number: usize,
) -> Result<(), AllocError>
    ensures ok { OnOk result (out.new.items ≡ out.old.items ++ line_of (word.now ++ spaced number)) }
    ensures err { OnErr result (Keeps out.old.items out.new.items) }
{
    out.extend_from_slice(word)?;
    push_spaced(alloc, out, number)?;
    end_line(out)
}

/// The lower-case hexadecimal digit of a number below 16.
fn lower_case_digit(number: u8) -> u8
    requires { number < 16 }
    ensures { result ≡ hex_digit number }
{
    if number < 10 {
        b'0' + number
    } else {
        b'a' + (number - 10)
    }
}

/// Writes a byte in two lower-case hexadecimal digits.
pub fn push_hex_byte(out: &mut Vec<u8>, byte: u8) -> Result<(), AllocError>
    ensures ok { OnOk result (out.new.items ≡ out.old.items ++ hex_byte byte) }
    ensures err { OnErr result (Keeps out.old.items out.new.items) }
{
    out.push(lower_case_digit(byte / 16))?;
    out.push(lower_case_digit(byte % 16))?;
    Ok(())
}

/// The name of this number, and no byte where there is none.
pub fn name_of(names: &[Text], number: usize) -> &[u8]
    ensures { result.now ≡ slice_index_or names.now number [] }
{
    match names.get(number) {
        Some(name) => name.bytes(),
        None => b"",
    }
}
