//! Bands of rows from the lowest up, each with its runs.
ghost use Rattle.std.specs.Prelude.{◌≡◌, ◌+◌, ◌≤◌, Bool, ◌&&◌, if◌then◌else◌, [], ◌∷◌, ◌++◌, reverse, ℤ, pos, ◌+ℤ◌, ◌≤ℤ◌, ◌<◌};
ghost use Rattle.std.specs.Prelude.{◌^◌, IfOk, OnOk};
ghost use Rattle.std.specs.Ordering.{int_eq};
ghost use Rattle.lw_region.specs.Bands.{Run, Band, same_runs, band_rectangles};
ghost use Rattle.lw_region.specs.Banded.{AreRuns, IsBand, AreBands, flat};
ghost use Rattle.lw_area.specs.Rows.{IsPut, IsRowPut};

use crate::runs::Span;
use lw_region::Rect;
use std::alloc::{AllocError, Global};
use std::marker::Model;

/// A band: the rows `top` to `bottom`, both inclusive, each with the same runs.
#[derive(Debug, Drop)]
pub(crate) struct Stripe {
    top: i16,
    bottom: i16,
    runs: Vec<Span>,
}

impl Model for Stripe {
    ghost use Rattle.lw_region.specs.Bands.{Band};

    ghost Value = { Band };

    ghost view = { λ s. record { top = s.top; bottom = s.bottom; runs = s.runs.items } };
}

fn are_same(runs: &[Span], others: &[Span]) -> bool
    ensures { result ≡ same_runs runs.now others.now }
{
    let mut left = runs;
    let mut right = others;
    while let Some((r, rs)) = left.split_first() {
        let Some((s, ss)) = right.split_first() else {
            return false;
        };
        if r.first() != s.first() || r.last() != s.last() {
            return false;
        }
        left = rs;
        right = ss;
    }
    right.is_empty()
}

impl Stripe {
    /// Whether the row is right above the band and has its runs.
    #[tactic(auto, using(std::proofs::lemmas::Int::ints))]
    fn goes_up_to(&self, row: i16, runs: &[Span]) -> bool
        ensures { result ≡ (int_eq (row +ℤ pos 1) self.now.top && same_runs runs.now self.now.runs) }
    {
        i32::from(row) + 1 == i32::from(self.top) && are_same(runs, self.runs.as_slice())
    }
}

/// The band of these rows with these runs.
fn stripe_of(top: i16, bottom: i16, runs: Vec<Span>) -> Stripe
    ensures { result ≡ record { top = top; bottom = bottom; runs = runs.items } }
{
    Stripe { top, bottom, runs }
}

/// The band from this row on.
fn raised(stripe: Stripe, row: i16) -> Stripe
    ensures { result ≡ record { top = row; bottom = stripe.bottom; runs = stripe.runs } }
{
    Stripe { top: row, ..stripe }
}

/// Puts a row on top of bands that are kept from the lowest up, and says whether it is a band of its own.
pub(crate) fn put_row(
    stripes: &mut Vec<Stripe>,
    row: i16,
    runs: Vec<Span>,
) -> Result<bool, AllocError>
    ensures { IfOk result (λ is_new. IsPut row runs.items is_new stripes.old.items stripes.new.items) }
{
    let Some(below) = stripes.pop() else {
        stripes.push(stripe_of(row, row, runs))?;
        return Ok(true);
    };
    if below.goes_up_to(row, runs.as_slice()) {
        stripes.push(raised(below, row))?;
        return Ok(false);
    }
    stripes.push(below)?;
    stripes.push(stripe_of(row, row, runs))?;
    Ok(true)
}

/// Puts a row there if it has runs, and says how many rectangles come with it.
pub(crate) fn put_runs(
    stripes: &mut Vec<Stripe>,
    row: i16,
    runs: Vec<Span>,
) -> Result<usize, AllocError>
    ensures put { IfOk result (λ more. IsRowPut row runs.items more stripes.old.items stripes.new.items) }
    ensures small { IfOk result (λ more. more < 2 ^ 63) }
{
    if runs.is_empty() {
        return Ok(0);
    }
    let more = runs.len();
    if put_row(stripes, row, runs)? {
        return Ok(more);
    }
    Ok(0)
}

/// The rectangle with these bounds.
fn rect_of(min_x: i16, min_y: i16, max_x: i16, max_y: i16) -> Rect
    requires columns { min_x ≤ℤ max_x }
    requires rows { min_y ≤ℤ max_y }
    ensures { result ≡ record { min_x = min_x; min_y = min_y; max_x = max_x; max_y = max_y } }
{
    match Rect::new(min_x, min_y, max_x, max_y) {
        Some(rect) => rect,
        None => unreachable!(),
    }
}

/// Adds the rectangles of these runs in the rows `top` to `bottom`.
fn push_rects(rects: &mut Vec<Rect>, runs: &[Span], top: i16, bottom: i16) -> Result<(), AllocError>
    requires rows { top ≤ℤ bottom }
    requires runs { AreRuns runs.now }
    ensures { OnOk result
        (rects.new.items ≡ rects.old.items ++ band_rectangles (record { top = top; bottom = bottom; runs = runs.now })) }
{
    for run in runs {
        rects.push(rect_of(run.first(), top, run.last(), bottom))?;
    }
    Ok(())
}

impl Stripe {
    /// Adds the band's rectangles.
    fn push_to(&self, rects: &mut Vec<Rect>) -> Result<(), AllocError>
        requires { IsBand self.now }
        ensures { OnOk result (rects.new.items ≡ rects.old.items ++ band_rectangles self.now) }
    {
        push_rects(rects, self.runs.as_slice(), self.top, self.bottom)?;
        Ok(())
    }
}

/// The rectangles of bands that are kept from the lowest up.
pub(crate) fn rects_of(alloc: Global, stripes: Vec<Stripe>) -> Result<Vec<Rect>, AllocError>
    requires { AreBands (reverse stripes.items) }
    ensures { IfOk result (λ rects. rects.items ≡ flat (reverse stripes.items)) }
{
    let mut rects = Vec::new(alloc);
    let mut left = stripes;
    while let Some(stripe) = left.pop() {
        stripe.push_to(&mut rects)?;
    }
    Ok(rects)
}
