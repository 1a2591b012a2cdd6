// The bits of a hook's tile, plane by plane.

ghost use Rattle.std.specs.Prelude.{◌≡◌, ℕ, ◌-◌, ◌<◌};
ghost use Rattle.std.specs.Int.{bit_at};
ghost use Rattle.std.specs.List.{slice_index_or};
ghost use Rattle.lw_hook_fill.specs.Filling.{IsTileOf};

use lw_backfill::{Backfill, row_of};

// The tile in which the hook is, in bits: for each of its rows a byte for each plane. A byte has a bit for each of the eight
// columns, the leftmost in its most significant bit.
pub(crate) fn tile_bits<B: Backfill>(held: &B) -> [[u8; 8]; 8]
    ensures { IsTileOf (B.hook held.now) result }
{
    [
        plane_bytes(&row_of(held, 0)),
        plane_bytes(&row_of(held, 1)),
        plane_bytes(&row_of(held, 2)),
        plane_bytes(&row_of(held, 3)),
        plane_bytes(&row_of(held, 4)),
        plane_bytes(&row_of(held, 5)),
        plane_bytes(&row_of(held, 6)),
        plane_bytes(&row_of(held, 7)),
    ]
}

// The bits of eight pens side by side, a byte for each plane.
fn plane_bytes(pens: &[u8; 8]) -> [u8; 8]
    ensures { (p i : ℕ) → p < 8 → i < 8 →
        bit_at (slice_index_or result p 0) (7 - i) ≡ bit_at (slice_index_or pens.now i 0) p }
{
    [
        plane_byte(pens, 0),
        plane_byte(pens, 1),
        plane_byte(pens, 2),
        plane_byte(pens, 3),
        plane_byte(pens, 4),
        plane_byte(pens, 5),
        plane_byte(pens, 6),
        plane_byte(pens, 7),
    ]
}

// The same in one plane.
fn plane_byte(pens: &[u8; 8], plane: u32) -> u8
    requires { plane < 8 }
    ensures { (i : ℕ) → i < 8 → bit_at result (7 - i) ≡ bit_at (slice_index_or pens.now i 0) plane }
{
    let mut byte = 0;
    for place in 0..8_u32 {
        byte += pen_bit(pens[7 - place as usize], plane) << place;
    }
    byte
}

// The bit of a pen in a plane.
#[tactic(auto, using(std::proofs::lemmas::Nat::Bits::shr_and_one))]
fn pen_bit(pen: u8, plane: u32) -> u8
    requires { plane < 8 }
    ensures { result ≡ bit_at pen plane }
{
    (pen >> plane) & 1
}
