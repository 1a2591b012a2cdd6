ghost use Rattle.std.specs.Prelude.{◌≡◌, ℕ, ◌<◌, [], length, replicate, slice_set, if◌then◌else◌, IfOk, OnOk, OnErr};
ghost use Rattle.std.specs.List.{slice_index_or};
ghost use Rattle.lw_region.specs.Pixels.{pixels_of};
ghost use Rattle.lw_region.specs.Bands.{bands};
ghost use Rattle.lw_machine.specs.Registers.{rect_result, pair_result};
ghost use Rattle.lw_layer_calls.specs.Registers.{set_in, with_set, set_reply, is_short};

use lw_calls::{PairOp, RectOp, Reply};
use lw_region::{Rect, Region, and_region, or_region, xor_region};
use std::alloc::{AllocError, Global};
use std::marker::Model;

/// How many rectangles the canonical list of a register may have.
const RECT_LIMIT: usize = 128;

/// A task's eight region registers (the manual's Layers Library chapter: regions; the registers are this project's
/// own). Contracts see the list of their canonical lists of rectangles.
#[derive(Debug, Drop)]
pub struct Regs {
    regions: [Region; 8],
}

impl Model for Regs {
    ghost use Rattle.std.specs.Prelude.{◌≡◌, List, length};
    ghost use Rattle.lw_region.specs.Rectangle.{Rectangle};

    ghost Value = { List (List Rectangle) };

    ghost view = { λ r. r.regions };

    ghost invariant = { λ r. length r.regions ≡ 8 };
}

impl Regs {
    /// Eight empty registers. They take no memory yet.
    pub fn new(alloc: Global) -> Regs
        ensures { result ≡ replicate 8 [] }
    {
        Regs {
            regions: [
                Region::new(alloc),
                Region::new(alloc),
                Region::new(alloc),
                Region::new(alloc),
                Region::new(alloc),
                Region::new(alloc),
                Region::new(alloc),
                Region::new(alloc),
            ],
        }
    }

    /// The region in a register, 0 to 7.
    pub fn region(&self, reg: u32) -> &Region
        requires { reg < 8 }
        ensures value { result.now ≡ slice_index_or self.now reg [] }
        ensures eight { length self.now ≡ 8 }
    {
        &self.regions[reg as usize]
    }

    /// Joins a rectangle to a register, unless that would have more than 128 rectangles: this is refused. After a
    /// refusal and after an error all registers are as before.
    pub(crate) fn join_rect(
        &mut self,
        alloc: Global,
        op: RectOp,
        reg: u32,
        rect: &Rect,
    ) -> Result<Reply, AllocError>
        requires { reg < 8 }
        ensures reply { IfOk result (λ r. r ≡ set_reply (rect_result op (set_in self.old reg) rect.now)) }
        ensures regions { OnOk result (self.new ≡ with_set self.old reg (rect_result op (set_in self.old reg) rect.now)) }
        ensures err { OnErr result (self.new ≡ self.old) }
        ensures before { length self.old ≡ 8 }
        ensures eight { length self.new ≡ 8 }
    {
        let joined = joined_with_rect(alloc, op, self.region(reg), rect)?;
        Ok(self.put(reg, joined))
    }

    /// Joins the register `source` to the register `into`, unless that would have more than 128 rectangles: this is
    /// refused. After a refusal and after an error all registers are as before.
    pub(crate) fn join_pair(
        &mut self,
        alloc: Global,
        op: PairOp,
        source: u32,
        into: u32,
    ) -> Result<Reply, AllocError>
        requires source { source < 8 }
        requires into { into < 8 }
        ensures reply { IfOk result (λ r. r ≡ set_reply (pair_result op (set_in self.old source) (set_in self.old into))) }
        ensures regions { OnOk result (self.new
            ≡ with_set self.old into (pair_result op (set_in self.old source) (set_in self.old into))) }
        ensures err { OnErr result (self.new ≡ self.old) }
        ensures before { length self.old ≡ 8 }
        ensures eight { length self.new ≡ 8 }
    {
        let joined = joined_with_region(alloc, op, self.region(source), self.region(into))?;
        Ok(self.put(into, joined))
    }

    /// Empties a register.
    pub(crate) fn clear(&mut self, reg: u32)
        requires { reg < 8 }
        ensures regions { self.new ≡ slice_set self.old reg [] }
        ensures before { length self.old ≡ 8 }
        ensures eight { length self.new ≡ 8 }
    {
        self.regions[reg as usize].clear();
    }

    // Puts a region into a register, unless it has too many rectangles.
    fn put(&mut self, reg: u32, region: Region) -> Reply
        requires { reg < 8 }
        ensures reply { result ≡ (if is_short region then Reply.Done else Reply.TooManyRects) }
        ensures regions { self.new ≡ (if is_short region then slice_set self.old reg region else self.old) }
    {
        if region.rects().len() > RECT_LIMIT {
            return Reply::TooManyRects;
        }
        self.regions[reg as usize] = region;
        Reply::Done
    }
}

// The region with a rectangle joined to it.
fn joined_with_rect(
    alloc: Global,
    op: RectOp,
    region: &Region,
    rect: &Rect,
) -> Result<Region, AllocError>
    ensures { IfOk result (λ made. made ≡ bands (rect_result op (pixels_of region.now) rect.now)) }
{
    let mut made = region.copy(alloc)?;
    match op {
        RectOp::Or => made.or_rect(alloc, rect)?,
        RectOp::And => made.and_rect(alloc, rect)?,
        RectOp::Xor => made.xor_rect(alloc, rect)?,
        RectOp::Clear => made.clear_rect(alloc, rect)?,
    }
    Ok(made)
}

// The region `into` with the region `source` joined to it.
fn joined_with_region(
    alloc: Global,
    op: PairOp,
    source: &Region,
    into: &Region,
) -> Result<Region, AllocError>
    ensures { IfOk result (λ made. made ≡ bands (pair_result op (pixels_of source.now) (pixels_of into.now))) }
{
    let mut made = into.copy(alloc)?;
    match op {
        PairOp::Or => or_region(alloc, source, &mut made)?,
        PairOp::And => and_region(alloc, source, &mut made)?,
        PairOp::Xor => xor_region(alloc, source, &mut made)?,
    }
    Ok(made)
}

// Registers may go to another thread, and threads may share them: the bounds ask for the proofs.
fn cross_threads() {
    crosses::<Regs>();
    is_shared::<Regs>();
}

fn crosses<T: Send>() {}

fn is_shared<T: Sync>() {}
