//! The calls that a task draws by its word.
ghost use Rattle.std.specs.Prelude.{◌≡◌, ◌<◌, ◌≤◌, ◌+◌, ◌++◌, pos, ◌≤ℤ◌, OnOk};
ghost use Rattle.lw_gen.specs.Generator.{stirred, picked, fill_after, pen_after, read_after, chosen_after, call_after};
ghost use Rattle.lw_gen.specs.Generator.{calls_from};

use lw_calls::Call;
use lw_region::Rect;
use std::alloc::AllocError;

// How many rows a picked place may have.
const ROWS: u32 = 192;

// How many columns or rows a fill may have.
const FILL: u32 = 16;

/// The word that a pick makes of this one.
#[tactic(auto, unfolding(crate::specs::Generator::stirred))]
fn stirred(word: u32) -> u32
    ensures { result ≡ stirred word }
{
    ((u64::from(word) * 1_103_515_245 + 12_345) % 2_147_483_648) as u32
}

/// What a pick of a number below `count` answers, by the word that it made.
#[tactic(auto, unfolding(crate::specs::Generator::picked))]
fn picked(count: u32, word: u32) -> u32
    requires { 0 < count }
    ensures value { result ≡ picked count word }
    ensures below { result < count }
{
    (word / 65_536) % count
}

/// A number below 1000 as a coordinate.
fn coordinate(number: u32) -> i16
    requires { number < 1000 }
    ensures { result ≡ pos number }
{
    number as i16
}

/// The rectangle with these bounds.
fn rect_between(min_x: i16, min_y: i16, max_x: i16, max_y: i16) -> Rect
    requires columns { min_x ≤ℤ max_x }
    requires rows { min_y ≤ℤ max_y }
    ensures { result ≡ record { min_x = min_x; min_y = min_y; max_x = max_x; max_y = max_y } }
{
    match Rect::new(min_x, min_y, max_x, max_y) {
        Some(rect) => rect,
        None => unreachable!(),
    }
}

/// The rectangle with this corner that goes on by so many columns and rows.
fn rect_from(x: u32, y: u32, columns: u32, rows: u32) -> Rect
    requires left { x < 640 }
    requires upper { y < 640 }
    requires columns { columns < 16 }
    requires rows { rows < 16 }
    ensures { result ≡ record { min_x = pos x; min_y = pos y; max_x = pos (x + columns); max_y = pos (y + rows) } }
{
    rect_between(
        coordinate(x),
        coordinate(y),
        coordinate(x + columns),
        coordinate(y + rows),
    )
}

/// A fill on a layer in a band of so many columns, and the word after it.
fn fill_after(slot: u32, columns: u32, word: u32) -> (Call, u32)
    requires some { 0 < columns }
    requires few { columns ≤ 640 }
    ensures { result ≡ fill_after slot columns word }
{
    let left = stirred(word);
    let upper = stirred(left);
    let right = stirred(upper);
    let lower = stirred(right);
    let x = picked(columns, left);
    let y = picked(ROWS, upper);
    let rect = rect_from(x, y, picked(FILL, right), picked(FILL, lower));
    (Call::Fill { slot, rect }, lower)
}

/// A change of pen A, and the word after it.
fn pen_after(slot: u32, word: u32) -> (Call, u32)
    ensures { result ≡ pen_after slot word }
{
    let next = stirred(word);
    let pen = picked(4, next) as u8;
    (Call::SetA { slot, pen }, next)
}

/// A look at a pen of a layer in a band of so many columns, and the word after it.
fn read_after(slot: u32, columns: u32, word: u32) -> (Call, u32)
    requires some { 0 < columns }
    requires few { columns ≤ 640 }
    ensures { result ≡ read_after slot columns word }
{
    let column = stirred(word);
    let row = stirred(column);
    let x = picked(columns, column) as i32;
    let y = picked(ROWS, row) as i32;
    (Call::ReadPixel { slot, x, y }, row)
}

/// The call of a choice below 4 on a layer in a band of so many columns, and the word after it.
fn chosen_after(choice: u32, slot: u32, columns: u32, word: u32) -> (Call, u32)
    requires choice { choice < 4 }
    requires some { 0 < columns }
    requires few { columns ≤ 640 }
    ensures { result ≡ chosen_after choice slot columns word }
{
    match choice {
        0 => fill_after(slot, columns, word),
        1 => pen_after(slot, word),
        2 => (Call::ToFront { slot }, word),
        _ => read_after(slot, columns, word),
    }
}

/// The call that a word gives on one of the three layers from slot `first` on, in a band of so many columns, and the next word.
fn call_after(first: u32, columns: u32, word: u32) -> (Call, u32)
    requires first { first ≤ 45 }
    requires some { 0 < columns }
    requires few { columns ≤ 640 }
    ensures { result ≡ call_after first columns word }
{
    let layer = stirred(word);
    let choice = stirred(layer);
    let slot = first + picked(3, layer);
    chosen_after(picked(4, choice), slot, columns, choice)
}

/// Adds so many calls that are drawn from this word on.
pub fn push_calls(
    calls: &mut Vec<Call>,
    count: u32,
    first: u32,
    columns: u32,
    word: u32,
) -> Result<(), AllocError>
    requires first { first ≤ 45 }
    requires some { 0 < columns }
    requires few { columns ≤ 640 }
    ensures { OnOk result (calls.new.items ≡ calls.old.items ++ calls_from count first columns word) }
{
    let mut word = word;
    for _ in 0..count {
        let (call, next) = call_after(first, columns, word);
        calls.push(call)?;
        word = next;
    }
    Ok(())
}
