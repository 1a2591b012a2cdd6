ghost use Rattle.std.specs.Prelude.{◌≡◌, ◌≤◌, cond, map, length, take, drop, ◌++◌, pos, negsuc, ◌≤ℤ◌, vec_len};
ghost use Rattle.std.specs.List.{between};
ghost use Rattle.lw_region.specs.Rows.{band_length, first_length, first_row, next_row, begun_band, from_row, same_columns};
ghost use Rattle.lw_region.specs.Rows.{joined_bottom, down_to, joined_rects, last_place};

use crate::rect::Rect;

// The row after the last one of the range.
const END: i32 = 32768;

#[tactic(auto, using(std::proofs::lemmas::Int::ints), unfolding(crate::specs::Rows::first_row))]
pub(crate) fn first_row(rects: &[Rect]) -> i32
    ensures value { result ≡ first_row rects.now }
    ensures least { negsuc 32767 ≤ℤ result }
    ensures most { result ≤ℤ pos 32768 }
{
    match rects.split_first() {
        None => END,
        Some((rect, _)) => i32::from(rect.min_y()),
    }
}

#[tactic(auto, using(std::proofs::lemmas::Int::ints), unfolding(crate::specs::Rows::next_row))]
pub(crate) fn next_row(rects: &[Rect], row: i32) -> i32
    ensures value { result ≡ next_row rects.now row }
    ensures most { result ≤ℤ pos 32768 }
{
    match rects.split_first() {
        None => END,
        Some((rect, _)) => {
            let min_y = i32::from(rect.min_y());
            if row < min_y {
                min_y
            } else {
                i32::from(rect.max_y()) + 1
            }
        }
    }
}

// How many rectangles the list begins with that have this top row.
fn band_length(top: i16, rects: &[Rect]) -> usize
    ensures value { result ≡ band_length top rects.now }
    ensures most { result ≤ length rects.now }
{
    for (i, rect) in rects.iter().enumerate() {
        if rect.min_y() != top {
            return i;
        }
    }
    rects.len()
}

// How many rectangles the first band has.
#[tactic(auto, unfolding(crate::specs::Rows::first_length))]
pub(crate) fn first_length(rects: &[Rect]) -> usize
    ensures value { result ≡ first_length rects.now }
    ensures most { result ≤ length rects.now }
{
    match rects.split_first() {
        None => 0,
        Some((rect, _)) => band_length(rect.min_y(), rects),
    }
}

// The first band, where it has begun at row `row`; `count` is how many rectangles it has.
#[tactic(auto, using(std::proofs::lemmas::Int::ints), unfolding(crate::specs::Rows::begun_band, crate::specs::Rows::first_length))]
pub(crate) fn begun_band(rects: &[Rect], count: usize, row: i32) -> &[Rect]
    requires count { count ≡ first_length rects.now }
    requires inside { count ≤ length rects.now }
    ensures { result.now ≡ begun_band rects.now row }
{
    match rects.split_first() {
        None => rects,
        Some((rect, _)) => {
            if i32::from(rect.min_y()) <= row {
                &rects[..count]
            } else {
                &rects[..0]
            }
        }
    }
}

// The rectangles without the first band, where that ends before row `row`, and how many rectangles the first band
// of these has; `count` is how many the first band has.
#[tactic(auto, using(std::proofs::lemmas::Int::ints), unfolding(crate::specs::Rows::from_row, crate::specs::Rows::first_length))]
pub(crate) fn from_row(rects: &[Rect], count: usize, row: i32) -> (&[Rect], usize)
    requires count { count ≡ first_length rects.now }
    requires inside { count ≤ length rects.now }
    ensures left { result.0.now ≡ from_row rects.now row }
    ensures count { result.1 ≡ first_length result.0.now }
    ensures inside { result.1 ≤ length result.0.now }
{
    match rects.split_first() {
        None => (rects, count),
        Some((rect, _)) => {
            if i32::from(rect.max_y()) < row {
                let left = &rects[count..];
                (left, first_length(left))
            } else {
                (rects, count)
            }
        }
    }
}

fn has_same_columns(upper: &[Rect], lower: &[Rect]) -> bool
    ensures { result ≡ same_columns upper.now lower.now }
{
    let mut uppers = upper;
    let mut lowers = lower;
    while let Some((r, rs)) = uppers.split_first() {
        let Some((s, ss)) = lowers.split_first() else {
            return false;
        };
        if r.min_x() != s.min_x() || r.max_x() != s.max_x() {
            return false;
        }
        uppers = rs;
        lowers = ss;
    }
    lowers.is_empty()
}

// The bottom row of the lower band, where it goes on right below the upper one with the same columns.
#[tactic(auto, using(std::proofs::lemmas::Int::ints), unfolding(crate::specs::Rows::joined_bottom))]
fn joined_bottom(upper: &[Rect], lower: &[Rect]) -> Option<i16>
    ensures { result ≡ joined_bottom upper.now lower.now }
{
    let (q, _) = upper.split_first()?;
    let (r, _) = lower.split_first()?;
    if i32::from(q.max_y()) + 1 == i32::from(r.min_y()) && has_same_columns(upper, lower) {
        return Some(r.max_y());
    }
    None
}

fn stretch(rects: &mut [Rect], bottom: i16)
    ensures { rects.new ≡ map (λ r. down_to r bottom) rects.old }
{
    for rect in rects.iter_mut() {
        *rect = rect.down_to(bottom);
    }
}

// Lets the rectangles from `from` on reach down to row `bottom`.
fn stretch_from(rects: &mut Vec<Rect>, from: usize, bottom: i16)
    requires { from ≤ vec_len rects.old }
    ensures items { rects.new.items ≡ take from rects.old.items ++ map (λ r. down_to r bottom) (drop from rects.old.items) }
    ensures len { vec_len rects.new ≡ vec_len rects.old }
{
    let band = &mut rects.as_mut_slice()[from..];
    stretch(band, bottom);
}

// Joins the band from `start` on with the last one, from `last` to `start`, where it goes on right below that
// with the same columns; where the last band begins then.
pub(crate) fn join_bands(rects: &mut Vec<Rect>, last: usize, start: usize) -> usize
    requires order { last ≤ start }
    requires inside { start ≤ vec_len rects.old }
    ensures joined { rects.new.items
        ≡ joined_rects
        (joined_bottom (between last start rects.old.items) (drop start rects.old.items)) rects.old.items last start }
    ensures place { result
        ≡ last_place (joined_bottom (between last start rects.old.items)
        (drop start rects.old.items)) rects.old.items last start }
{
    let all = rects.as_slice();
    let bottom = joined_bottom(&all[last..start], &all[start..]);
    match bottom {
        Some(bottom) => {
            rects.truncate(start);
            stretch_from(rects, last, bottom);
            last
        }
        None => { if start < rects.len() { start } else { last } }
    }
}
