//! The runs of a row: what a pattern leaves of the columns in which an odd number of half rows overlap.
ghost use Rattle.std.specs.Prelude.{◌≡◌, true, false, ◌&&◌, ◌%◌, ℤ, pos, negsuc, ◌+ℤ◌, ◌≤ℤ◌, ◌<ℤ◌, int_lt, length, [], ◌∷◌};
ghost use Rattle.std.specs.Prelude.{◌++◌, IfOk, OnOk};
ghost use Rattle.std.specs.List.{All};
ghost use Rattle.lw_region.specs.Order.{IsInOrder};
ghost use Rattle.lw_region.specs.Bands.{Run};
ghost use Rattle.lw_region.specs.Banded.{in_runs, AreRuns};
ghost use Rattle.lw_area.specs.Polygons.{holds_of_odd};
ghost use Rattle.lw_area.specs.Patterns.{word_has};
ghost use Rattle.lw_area.specs.Rows.{Crosses, is_passed, HaveColumns, odd_columns, GoOn, AreRunsOf};

use crate::columns::put_columns;
use crate::pattern::has;
use crate::slab::Edge;
use std::alloc::{AllocError, Global};
use std::marker::Model;

/// A run of a row: the columns `first` to `last`, both inclusive.
#[derive(Clone, Copy, Debug, PartialEq, Eq)]
pub(crate) struct Span {
    first: i16,
    last: i16,
}

impl Model for Span {
    ghost use Rattle.lw_region.specs.Bands.{Run};

    ghost Value = { Run };

    ghost view = { λ s. record { first = s.first; last = s.last } };

    ghost inverse = { λ r. record { first = r.first; last = r.last } };
}

impl Span {
    pub(crate) fn first(&self) -> i16
        ensures { result ≡ self.now.first }
    {
        self.first
    }

    pub(crate) fn last(&self) -> i16
        ensures { result ≡ self.now.last }
    {
        self.last
    }
}

/// The column after the last one of those from `first` to `last` whose bits are 1 without a gap.
fn end_of_ones(word: u16, first: i32, last: i32) -> i32
    requires low { negsuc 2047 ≤ℤ first }
    requires order { first ≤ℤ last }
    requires high { last ≤ℤ pos 4095 }
    requires one { word_has word first ≡ true }
    ensures least { first <ℤ result }
    ensures most { result ≤ℤ (last +ℤ pos 1) }
    ensures ones { (x : ℤ) → first ≤ℤ x → x <ℤ result → word_has word x ≡ true }
    ensures ended { result ≤ℤ last → word_has word result ≡ false }
{
    let mut end = first + 1;
    while end <= last && has(word, end) {
        end += 1;
    }
    end
}

/// Adds a run.
fn push_run(runs: &mut Vec<Span>, first: i32, last: i32) -> Result<(), AllocError>
    requires low { negsuc 2047 ≤ℤ first }
    requires order { first ≤ℤ last }
    requires high { last ≤ℤ pos 4095 }
    ensures { OnOk result (runs.new.items ≡ runs.old.items ++ record { first = first; last = last } ∷ []) }
{
    runs.push(Span {
        first: first as i16,
        last: last as i16,
    })?;
    Ok(())
}

/// Adds the runs of those of the columns `first` to `last` whose bits are 1.
fn push_ones(runs: &mut Vec<Span>, word: u16, first: i32, last: i32) -> Result<(), AllocError>
    requires low { negsuc 2047 ≤ℤ first }
    requires order { first ≤ℤ last }
    requires high { last ≤ℤ pos 4095 }
    ensures { OnOk result (GoOn word first last runs.old.items runs.new.items) }
{
    let mut column = first;
    while column <= last {
        if !has(word, column) {
            column += 1;
            continue;
        }
        let end = end_of_ones(word, column, last);
        push_run(runs, column, end - 1)?;
        column = end + 1;
    }
    Ok(())
}

/// Adds the same runs, in one step where each bit is 1.
fn push_part(runs: &mut Vec<Span>, word: u16, first: i32, last: i32) -> Result<(), AllocError>
    requires low { negsuc 2047 ≤ℤ first }
    requires order { first ≤ℤ last }
    requires high { last ≤ℤ pos 4095 }
    ensures { OnOk result (GoOn word first last runs.old.items runs.new.items) }
{
    if word == 0xffff {
        push_run(runs, first, last)?;
        return Ok(());
    }
    push_ones(runs, word, first, last)?;
    Ok(())
}

/// The runs of a row that these edges cross, and whose bits are 1.
pub(crate) fn row_runs(
    alloc: Global,
    edges: &[Edge],
    row: i32,
    word: u16,
    columns: &mut Vec<i32>,
) -> Result<Vec<Span>, AllocError>
    requires crosses { All (Crosses row) edges.now }
    requires closed { holds_of_odd (is_passed (pos 4095) row) edges.now ≡ false }
    ensures { IfOk result (λ runs. AreRunsOf word row edges.now runs.items) }
{
    put_columns(edges, row, columns)?;
    runs_of(alloc, columns.as_slice(), word)
}

/// The runs of the columns in which an odd number of half rows overlap, and whose bits are 1.
pub(crate) fn runs_of(alloc: Global, columns: &[i32], word: u16) -> Result<Vec<Span>, AllocError>
    requires rising { IsInOrder int_lt columns.now }
    requires range { HaveColumns columns.now }
    requires pairs { length columns.now % 2 ≡ 0 }
    ensures runs { IfOk result (λ runs. AreRuns runs.items) }
    ensures has { IfOk result (λ runs. (x : ℤ) → in_runs runs.items x ≡ (odd_columns columns.now x && word_has word x)) }
{
    let mut runs = Vec::new(alloc);
    let mut left = columns;
    while let Some((first, others)) = left.split_first() {
        let Some((behind, rest)) = others.split_first() else {
            return Ok(runs);
        };
        push_part(&mut runs, word, *first, *behind - 1)?;
        left = rest;
    }
    Ok(runs)
}
