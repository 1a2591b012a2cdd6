// Filling blocks with a pen, or inverting them.

ghost use Rattle.std.specs.Prelude.{◌≡◌, ℕ, ◌+◌, ◌*◌, ◌<◌, ◌≤◌, ◌==◌, ◌&&◌, nat_lt, true, if◌then◌else◌, length};
ghost use Rattle.std.specs.Int.{bit_at};
ghost use Rattle.lw_planes.specs.Row.{row_bit};
ghost use Rattle.lw_kernels.specs.Kernel.{is_named, place_in};
ghost use Rattle.lw_machine.specs.Paint.{candidate_bit};
ghost use Rattle.lw_layer.specs.Drafts.{raster_of};
ghost use Rattle.lw_draw.specs.Drawn.{in_mask, painted_bit};

use crate::blocks::Block;
use crate::painter::Painter;
use lw_kernels::{fill, fill_rows, flip, flip_rows};
use lw_layer::{Layer, Raster, Run};

// Paints in the foreground: gives pixels the raster state's pen A, or inverts them under COMPLEMENT, in the planes of its mask.
#[derive(Clone, Copy)]
pub(crate) struct Filler {
    pub raster: Raster,
}

impl Painter for Filler {
    ghost planes = { λ f. in_mask (raster_of f.raster) };

    ghost reaches = { λ f i j. true };

    ghost bit = { λ f. painted_bit (raster_of f.raster) };

    fn has_plane(&self, plane: u32) -> bool {
        has_bit(self.raster.mask, plane)
    }

    fn paint_plane(&self, layer: &mut Layer, plane: u32, block: Block) {
        let run = block.run;
        let step = layer.step(run.buffer);
        let bytes = layer.lines_mut(plane, run.buffer, run.line, block.rows);
        paint_lines(bytes, step, plane, block, self.raster);
    }
}

// Paints a block's bits in its lines of one plane, which are `step` bytes each.
fn paint_lines(bytes: &mut [u8], step: usize, plane: u32, block: Block, raster: Raster)
    requires plane { plane < 8 }
    requires inside { block.run.bit + block.run.len ≤ 8 * step }
    requires all { block.rows * step ≤ length bytes.old }
    ensures { (y x : ℕ) → x < 8 * step → row_bit bytes.new (place_in step y x) ≡
        (if nat_lt y block.rows && is_named block.run.bit block.run.len x
        then candidate_bit (raster_of raster) true plane (row_bit bytes.old (place_in step y x))
        else row_bit bytes.old (place_in step y x)) }
{
    let run = block.run;
    if block.rows == 1 {
        paint_line(bytes, plane, run, raster);
    } else if has_bit(raster.mode, 1) {
        flip_rows(bytes, step, block.rows, run.bit, run.len);
    } else {
        fill_rows(
            bytes,
            step,
            block.rows,
            run.bit,
            run.len,
            has_bit(raster.a, plane),
        );
    }
}

// The same of a run, in the first of the lines.
fn paint_line(bytes: &mut [u8], plane: u32, run: Run, raster: Raster)
    requires plane { plane < 8 }
    requires inside { run.bit + run.len ≤ 8 * length bytes.old }
    ensures { (x : ℕ) → row_bit bytes.new x ≡ (if is_named run.bit run.len x
        then candidate_bit (raster_of raster) true plane (row_bit bytes.old x)
        else row_bit bytes.old x) }
{
    if has_bit(raster.mode, 1) {
        flip(bytes, run.bit, run.len);
    } else {
        fill(bytes, run.bit, run.len, has_bit(raster.a, plane));
    }
}

/// The byte has this bit, 0 to 7 from its least.
#[tactic(auto, using(std::proofs::lemmas::Nat::Bits::shr_and_one))]
pub fn has_bit(byte: u8, place: u32) -> bool
    requires { place < 8 }
    ensures { result ≡ (bit_at byte place == 1) }
{
    (byte >> place) & 1 == 1
}
