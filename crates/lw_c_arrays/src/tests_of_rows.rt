// Whether the bits that a call names lie in a row, and rows in an array.

ghost use Rattle.std.specs.Prelude.{◌≡◌, ◌+◌, ◌*◌, ◌^◌, ◌<◌, ◌&&◌, nat_le};

// Whether so many bits from `from` on lie in a row of so many bytes.
pub(crate) fn lie_in(bytes: usize, from: u32, count: u32) -> bool
    ensures { result ≡ nat_le (from + count) (8 * bytes) }
{
    let bits = u64::from(from) + u64::from(count);
    bits.div_ceil(8) <= bytes as u64
}

// Whether an array of so many bytes has so many rows after the first `before`, each of so many bytes.
pub(crate) fn has_rows(bytes: usize, step: u32, before: u32, rows: u32) -> bool
    ensures { result ≡ nat_le ((before + rows) * step) bytes }
{
    let all = u64::from(before) + u64::from(rows);
    match all.checked_mul(u64::from(step)) {
        Some(count) => count <= bytes as u64,
        None => false,
    }
}
