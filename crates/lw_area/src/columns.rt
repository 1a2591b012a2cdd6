//! The columns at which the half rows of the edges begin.
ghost use Rattle.std.specs.Prelude.{◌≡◌, ◌+◌, ◌-◌, ◌*◌, ◌/◌, ◌≤◌, ◌<◌, ℤ, pos, negsuc, ◌-ℤ◌, ◌≤ℤ◌, int_lt, int_le, length, OnOk};
ghost use Rattle.std.specs.List.{All, prefix_len};
ghost use Rattle.lw_region.specs.Order.{IsInOrder};
ghost use Rattle.lw_area.specs.Rows.{Crosses, is_passed, IsColumn, toggled, AreColumns};

use crate::slab::Edge;
use std::alloc::AllocError;

/// The first column, none left of where an edge is that went `done` of its `height` rows from one column to another one.
fn meeting_column(upper_x: u32, lower_x: u32, done: u32, height: u32) -> u32
    requires inside { done < height }
    requires height { height ≤ 6143 }
    requires upper { upper_x ≤ 6143 }
    requires lower { lower_x ≤ 6143 }
    ensures value { result ≡ (((height - done) * upper_x + done * lower_x) + (height - 1)) / height }
    ensures most { result ≤ 6143 }
{
    let sum = (height - done) * upper_x + done * lower_x;
    (sum + (height - 1)) / height
}

/// How far it is from one number to a greater one.
fn distance(from: i32, to: i32) -> u32
    requires low { negsuc 2047 ≤ℤ from }
    requires order { from ≤ℤ to }
    requires high { to ≤ℤ pos 4095 }
    ensures { pos result ≡ to -ℤ from }
{
    (to - from) as u32
}

/// The column from which on the edge is left of the pixels of a row that it crosses.
fn first_column(edge: &Edge, row: i32) -> i32
    requires { Crosses row edge.now }
    ensures value { (x : ℤ) → is_passed x row edge.now ≡ int_le result x }
    ensures range { IsColumn result }
{
    let upper_x = distance(-2048, edge.upper.x);
    let lower_x = distance(-2048, edge.lower.x);
    let done = distance(edge.upper.y, row);
    let height = distance(edge.upper.y, edge.lower.y);
    let column = meeting_column(upper_x, lower_x, done, height);
    column as i32 - 2048
}

/// How many columns are left of this one.
fn place_of(columns: &[i32], column: i32) -> usize
    ensures value { result ≡ prefix_len (λ c. int_lt c column) columns.now }
    ensures most { result ≤ length columns.now }
{
    for (i, other) in columns.iter().enumerate() {
        if *other >= column {
            return i;
        }
    }
    columns.len()
}

/// Takes one more half row to those of a row, which begins at this column. Two from one column on cancel out.
fn toggle(columns: &mut Vec<i32>, column: i32) -> Result<(), AllocError>
    ensures { OnOk result (columns.new.items ≡ toggled column columns.old.items) }
{
    let place = place_of(columns.as_slice(), column);
    if place < columns.len() && columns[place] == column {
        columns.remove(place);
        return Ok(());
    }
    columns.insert(place, column)?;
    Ok(())
}

/// The columns at which the half rows of these edges begin, without those that cancel out.
pub(crate) fn put_columns(
    edges: &[Edge],
    row: i32,
    columns: &mut Vec<i32>,
) -> Result<(), AllocError>
    requires { All (Crosses row) edges.now }
    ensures { OnOk result (AreColumns edges.now row columns.new.items) }
{
    columns.clear();
    for edge in edges {
        toggle(columns, first_column(edge, row))?;
    }
    Ok(())
}
