ghost use Rattle.std.specs.Prelude.{◌≡◌, ◌==◌, ◌-◌, ◌+◌, ◌≤◌, cond, [], ◌∷◌, ◌++◌, reverse, length, IfOk, OnOk, None};
ghost use Rattle.lw_region.specs.Rectangle.{Rectangle};
ghost use Rattle.lw_calls.specs.Limits.{IsWithinLimits};
ghost use Rattle.lw_strips.specs.Strips.{strip_of};
ghost use Rattle.lw_strips.specs.Laying.{screen, LiesIn};
ghost use Rattle.lw_strips.specs.Pools.{copies, copies_in};
ghost use Rattle.lw_arrange.specs.Exchanged.{HasPieces};

use crate::arrangement::Arrangement;
use lw_calls::Sizes;
use lw_region::Rect;
use lw_strips::{Piece, Pool, Strip};
use std::alloc::{AllocError, Global};

/// The pieces of the screen that an owner loses and gains in an arrangement. A piece on its way has no memory, since who gains it
/// has pens of its own for it.
#[derive(Debug, Drop)]
pub struct Exchange {
    /// A strip of pen 0 for each piece that it loses, until it gives them up.
    pub lost: Vec<Strip>,
    /// The rectangle of each piece that it gains.
    pub gained: Vec<Rect>,
}

impl Exchange {
    /// Nothing is lost and nothing gained. It takes no memory.
    pub fn none(alloc: Global) -> Exchange
        ensures lost { result.lost.items ≡ [] }
        ensures gained { result.gained.items ≡ [] }
    {
        Exchange {
            lost: Vec::new(alloc),
            gained: Vec::new(alloc),
        }
    }

    /// Puts the strips of all pieces that are lost into the pool, which has room for them.
    pub fn give_up(&mut self, pool: &mut Pool)
        requires { length self.old.lost.items ≤ pool.old.spare }
        ensures pool { pool.new ≡ record {
          strips = pool.old.strips ++ reverse self.old.lost.items;
          spare = pool.old.spare - length self.old.lost.items;
        } }
        ensures given { self.new.lost.items ≡ [] }
        ensures gained { self.new.gained ≡ self.old.gained }
    {
        pool.give_all(&mut self.lost);
    }

    /// Takes a strip for each piece that is gained out of the pool, which has them.
    pub fn claim(&self, pool: &mut Pool)
        requires { (r : Rectangle) → copies r self.now.gained.items ≤ copies_in r pool.old.strips }
        ensures { (r : Rectangle) → copies_in r pool.old.strips ≡ copies_in r pool.new.strips + copies r self.now.gained.items }
    {
        pool.claim_all(&self.gained);
    }
}

/// What an owner gives up and gets in the arrangement. It fails only when out of memory.
pub(crate) fn exchange_of(
    alloc: Global,
    owner: u32,
    arrangement: &Arrangement,
) -> Result<Exchange, AllocError>
    ensures { IfOk result (λ made. HasPieces owner arrangement.now.stack.sizes.depth arrangement.now.pieces
        made.lost.items made.gained.items) }
{
    let sizes = arrangement.sizes();
    let pieces = arrangement.pieces();
    let mut made = Exchange::none(alloc);
    for piece in pieces {
        lose(owner, piece, sizes, &mut made.lost)?;
        gain(owner, piece, &mut made.gained)?;
    }
    Ok(made)
}

// Adds a strip for a piece of a screen of these sizes, if the owner loses it.
fn lose(owner: u32, piece: &Piece, sizes: &Sizes, lost: &mut Vec<Strip>) -> Result<(), AllocError>
    requires sizes { IsWithinLimits sizes.now }
    requires inside { LiesIn piece.now.rect (screen sizes.now.width sizes.now.height) }
    ensures { OnOk result (lost.new.items
        ≡ lost.old.items ++ cond (piece.now.from == owner) (strip_of piece.now.rect sizes.now.depth None ∷ []) []) }
{
    // Reading this tells the proof that the rectangle is ordered.
    let _ = piece.rect.min_x();
    if piece.from == owner {
        lost.push(Strip::blank(piece.rect, sizes.depth))?;
    }
    Ok(())
}

// Adds the rectangle of a piece, if the owner gains it.
fn gain(owner: u32, piece: &Piece, gained: &mut Vec<Rect>) -> Result<(), AllocError>
    ensures { OnOk result (gained.new.items ≡ gained.old.items ++ cond (piece.now.to == owner) (piece.now.rect ∷ []) []) }
{
    if piece.to == owner {
        gained.push(piece.rect)?;
    }
    Ok(())
}
