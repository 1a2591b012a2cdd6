ghost use Rattle.std.specs.Prelude.{◌≡◌, Bool, true, false, cond, ◌≤◌, ◌<◌, ◌+◌, ◌⊎◌, ℤ, ◌<ℤ◌, length, vec_len, IfOk, OnOk};
ghost use Rattle.lw_region.specs.Bands.{covers};
ghost use Rattle.lw_region.specs.Banded.{IsCanonical};
ghost use Rattle.lw_region.specs.Operations.{holds};
ghost use Rattle.lw_region.specs.Rows.{first_length, next_row, with_rest};

use crate::band::{begun_band, first_length, first_row, from_row, join_bands, next_row};
use crate::operation::Operation;
use crate::rect::Rect;
use crate::row::{append_row, copy_row};
use std::alloc::{AllocError, Global};

// Whether both have a rectangle left.
fn are_both_left(a: &[Rect], b: &[Rect]) -> bool
    ensures none { result ≡ false → (length a.now ≡ 0) ⊎ (length b.now ≡ 0) }
    ensures some { result ≡ true → 0 < length a.now + length b.now }
{
    !a.is_empty() && !b.is_empty()
}

// Adds what is left of one operand from row `row` on, where the operation keeps it: its first band, of `count`
// rectangles, is joined to the last one where it goes on, and the others are copied as they are.
fn append_rest(
    is_kept: bool,
    rects: &[Rect],
    count: usize,
    row: i32,
    last: usize,
    out: &mut Vec<Rect>,
) -> Result<(), AllocError>
    requires count { count ≡ first_length rects.now }
    requires inside { count ≤ length rects.now }
    requires order { 0 < length rects.now → last ≤ vec_len out.old }
    requires rows { 0 < length rects.now → row <ℤ next_row rects.now row }
    ensures { OnOk result (out.new.items ≡ cond is_kept (with_rest rects.now row last out.old.items) out.old.items) }
{
    let Some((first, _)) = rects.split_first() else {
        return Ok(());
    };
    if !is_kept {
        return Ok(());
    }
    out.reserve(rects.len())?;
    let start = out.len();
    let bottom = first.max_y();
    let top = row.max(i32::from(first.min_y())) as i16;
    copy_row(&rects[..count], top, bottom, out);
    join_bands(out, last, start);
    out.extend_from_slice(&rects[count..])
}

// The canonical list of the pixels for which the operation holds on two regions: one sweep down the rows at which
// a band begins or is over. What is made of the rows in between is joined to the band above where it goes on.
pub(crate) fn sweep(
    alloc: Global,
    operation: Operation,
    a: &[Rect],
    b: &[Rect],
) -> Result<Vec<Rect>, AllocError>
    requires canonical_a { IsCanonical a.now }
    requires canonical_b { IsCanonical b.now }
    ensures canonical { IfOk result (λ made. IsCanonical made.items) }
    ensures pixels { IfOk result
        (λ made. (x y : ℤ) → covers made.items x y ≡ holds operation (covers a.now x y) (covers b.now x y)) }
{
    let mut out = Vec::with_capacity(alloc, a.len() + b.len())?;
    let mut left_a = a;
    let mut left_b = b;
    let mut count_a = first_length(a);
    let mut count_b = first_length(b);
    let mut row = first_row(a).min(first_row(b));
    let mut last = 0;
    while are_both_left(left_a, left_b) {
        let next = next_row(left_a, row).min(next_row(left_b, row));
        let start = out.len();
        let band_a = begun_band(left_a, count_a, row);
        let band_b = begun_band(left_b, count_b, row);
        append_row(
            operation,
            band_a,
            band_b,
            row as i16,
            (next - 1) as i16,
            &mut out,
        )?;
        last = join_bands(&mut out, last, start);
        (left_a, count_a) = from_row(left_a, count_a, next);
        (left_b, count_b) = from_row(left_b, count_b, next);
        row = next;
    }
    let keeps_a = operation.holds(true, false);
    let keeps_b = operation.holds(false, true);
    append_rest(keeps_a, left_a, count_a, row, last, &mut out)?;
    append_rest(keeps_b, left_b, count_b, row, last, &mut out)?;
    Ok(out)
}
