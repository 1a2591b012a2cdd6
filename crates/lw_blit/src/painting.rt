// Painting a row of a layer from rows that were read.

ghost use Rattle.std.specs.Prelude.{◌≡◌, ℕ, ◌==◌, ◌+◌, ◌<◌, ◌≤◌, ◌&&◌, nat_le, nat_lt};
ghost use Rattle.std.specs.Int.{bit_at};
ghost use Rattle.lw_planes.specs.Minterm.{minterm_bit};
ghost use Rattle.lw_layer.specs.View.{draws};
ghost use Rattle.lw_draw.specs.Blocks.{IsBlock, in_block};
ghost use Rattle.lw_draw.specs.Drawn.{drawn};
ghost use Rattle.lw_blit.specs.Blitting.{from_rows, masked};

use crate::sources::{MOST, SourceRows};
use lw_draw::{Block, Painter, Places, combine_block, has_bit, paint_rows};
use lw_kernels::combine;
use lw_layer::Layer;

// Gives the drawable pixels of some columns of a row the minterm's values of their sources and of their own bits. The sources go
// to the columns from the first on.
pub(crate) fn paint_row(
    layer: &mut Layer,
    y: u32,
    columns: Places,
    rows: &SourceRows,
    mask: u8,
    minterm: u8,
)
    requires row { y < 65536 }
    requires right { columns.end ≤ 2048 }
    ensures { layer.new
        ≡ drawn (masked mask layer.old y (y + 1) columns.from columns.end) (from_rows minterm rows.now columns.from) layer.old }
{
    let one = Places {
        from: y,
        end: y + 1,
    };
    let blit = RowBlit {
        rows,
        y,
        first: columns.from,
        mask,
        minterm,
    };
    paint_rows(layer, one, columns, &blit);
}

// Paints a row with rows that were read, in the planes of a mask.
#[derive(Clone, Copy)]
struct RowBlit<'a> {
    rows: &'a SourceRows,
    y: u32,
    // The column to which the first source goes.
    first: u32,
    mask: u8,
    minterm: u8,
}

impl Painter for RowBlit<'_> {
    ghost planes = { λ s p. bit_at s.mask p == 1 };

    ghost reaches = { λ s i j. j == s.y && (nat_le s.first i && nat_lt i 2048) };

    ghost bit = { λ s. from_rows s.minterm s.rows.now s.first };

    fn has_plane(&self, plane: u32) -> bool {
        has_bit(self.mask, plane)
    }

    fn paint_plane(&self, layer: &mut Layer, plane: u32, block: Block) {
        blit_row(self.rows, layer, plane, block, self.first, self.minterm);
    }
}

// Blits one plane of a block of one row, with the sources from this column on.
fn blit_row(rows: &SourceRows, layer: &mut Layer, plane: u32, block: Block, first: u32, minterm: u8)
    requires plane { plane < layer.old.layer.bits.depth }
    requires block { IsBlock layer.old (λ i j. draws layer.old i j) block }
    requires one { block.rows ≡ 1 }
    requires starts { first ≤ block.x }
    requires right { block.x + block.run.len ≤ 2048 }
    ensures { layer.new ≡ drawn (λ p i j. p == plane && in_block block i j) (from_rows minterm rows.now first) layer.old }
{
    // Reading this tells the proof that the layer has at most eight planes.
    let _ = layer.depth();
    let bits = &rows.bits[plane as usize];
    let bit = block.x - first;
    if rows.all {
        combine_block(layer, plane, block, bits, MOST, bit, minterm);
    } else {
        let set = where_set(minterm);
        combine_block(layer, plane, block, bits, MOST, bit, set);
        // What is left are the pixels with a source that lack the bit.
        let mut unset = rows.kept;
        combine(&mut unset, bit, bits, bit, block.run.len, 0x20);
        let clear = where_clear(minterm);
        combine_block(layer, plane, block, &unset, MOST, bit, clear);
    }
}

// The minterm whose value, where B is set, is the given one's, and where it isn't the old bit.
fn where_set(minterm: u8) -> u8
    ensures set { (c : ℕ) → c < 2 → minterm_bit result 1 c ≡ minterm_bit minterm 1 c }
    ensures clear { (c : ℕ) → c < 2 → minterm_bit result 0 c ≡ c }
{
    (minterm & 0xc0) | 0x20
}

// The minterm whose value, where B is set, is the given one's where it isn't, and elsewhere the old bit.
fn where_clear(minterm: u8) -> u8
    ensures set { (c : ℕ) → c < 2 → minterm_bit result 1 c ≡ minterm_bit minterm 0 c }
    ensures clear { (c : ℕ) → c < 2 → minterm_bit result 0 c ≡ c }
{
    ((minterm << 2) & 0xc0) | 0x20
}
