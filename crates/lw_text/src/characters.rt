ghost use Rattle.std.specs.Prelude.{◌≡◌, ℕ, ◌+◌, ◌*◌, ◌<◌, ◌≤◌, not, ◌&&◌, true, if◌then◌else◌, length, ℤ, pos, ◌+ℤ◌, ◌-ℤ◌};
ghost use Rattle.std.specs.Prelude.{◌≤ℤ◌, int_le};
ghost use Rattle.lw_kernels.specs.Kernel.{is_between};
ghost use Rattle.lw_machine.specs.Shapes.{draw_text};
ghost use Rattle.lw_layer.specs.View.{shows, with_layer};
ghost use Rattle.lw_layer.specs.Drafts.{raster_of};
ghost use Rattle.lw_draw.specs.Drawn.{in_rows};
ghost use Rattle.lw_text.specs.Letters.{text_before};
ghost use Rattle.lw_text.specs.Templates.{stamped, text_has};

use crate::glyphs::{align_rows, glyph_rows};
use crate::template::Template;
use lw_calls::{Assets, Text};
use lw_draw::{Overlay, Places, edge, paint_rows};
use lw_kernels::Corner;
use lw_layer::{Layer, Raster};

// As many bytes as a row of a layer can show characters of, one of them in part at each end: a layer has at most 2048 columns.
pub(crate) const MOST: usize = 257;

// The eight rows of characters' cells, so many bytes apart.
const BYTES: usize = 8 * MOST;

// From column -32768 on so many characters reach past each column of a layer.
const REACH: usize = 8191;

/// Paints one cell of 8 by 8 pixels for each character, from the cursor's column on and in its rows y - 6 to y + 1, with the
/// glyphs that the script handed in, in the layer's pens, mode and mask, and moves the cursor past them (`Text`). False exactly
/// where the cursor's column would pass 32767, and then nothing changes. No memory is taken.
pub fn letters(layer: &mut Layer, assets: &Assets, text: &Text) -> bool
    ensures answer { result ≡ int_le (layer.old.layer.raster.cursor_x +ℤ pos (8 * length text.now)) (pos 32767) }
    ensures layer { layer.new ≡ (if result
        then with_layer (λ l. draw_text assets.now.glyphs (λ x y. shows layer.old x y) text.now l) layer.old
        else layer.old) }
{
    let raster = layer.raster();
    let text = text.bytes();
    if !fits(raster.x, text.len()) {
        return false;
    }
    paint_text(layer, &assets.glyphs, text, raster, layer.width());
    layer.set_raster(Raster {
        a: raster.a,
        b: raster.b,
        mode: raster.mode,
        mask: raster.mask,
        x: (i32::from(raster.x) + 8 * text.len() as i32) as i16,
        y: raster.y,
    });
    true
}

/// Paints the same pixels as `letters`, but in the layer's columns before `end` alone, and leaves the cursor. No memory is taken.
pub fn letters_before(layer: &mut Layer, assets: &Assets, text: &Text, end: u32)
    ensures { layer.new ≡ with_layer
        (λ l. text_before assets.now.glyphs (λ x y. shows layer.old x y) text.now end l)
        layer.old }
{
    let raster = layer.raster();
    paint_text(layer, &assets.glyphs, text.bytes(), raster, end);
}

// The cursor can move past so many characters.
fn fits(x: i16, count: usize) -> bool
    ensures { result ≡ int_le (x +ℤ pos (8 * count)) (pos 32767) }
{
    count <= (i32::from(i16::MAX) - i32::from(x)) as usize / 8
}

// Paints the characters in the columns before one, and leaves the cursor.
fn paint_text(layer: &mut Layer, glyphs: &[[u8; 8]; 95], text: &[u8], raster: Raster, end: u32)
    requires raster { raster_of raster ≡ layer.old.layer.raster }
    ensures { layer.new ≡ with_layer
        (λ l. text_before glyphs.now (λ x y. shows layer.old x y) text.now end l)
        layer.old }
{
    let left = i32::from(raster.x);
    let top = i32::from(raster.y) - 6;
    let right = left + 8 * text.len().min(REACH) as i32;
    let columns = places(left, right, layer.width().min(end));
    let rows = places(top, top + 8, layer.height());
    letter_rows(layer, rows, columns, glyphs, text, raster);
}

// Of the places from one on and before another, those from 0 on and before the extent.
fn places(from: i32, end: i32, extent: u32) -> Places
    requires { extent ≤ 2048 }
    ensures inside { result.end ≤ extent }
    ensures has { (u : ℕ) → u < extent → (int_le from (pos u) && not (int_le end (pos u))) ≡
        is_between result.from result.end u }
{
    let from = edge(from, extent);
    let end = edge(end, extent);
    Places {
        from,
        end: end.max(from),
    }
}

// Paints some rows and columns of the characters. Their glyphs are put side by side from the first one on that reaches these
// columns, and painted as a template.
fn letter_rows(
    layer: &mut Layer,
    rows: Places,
    columns: Places,
    glyphs: &[[u8; 8]; 95],
    text: &[u8],
    raster: Raster,
)
    requires bottom { rows.end < 65536 }
    requires right { columns.end ≤ 2048 }
    requires starts { columns.from < columns.end → raster.x ≤ℤ pos columns.from }
    requires upper { rows.from < rows.end → raster.y ≤ℤ pos (rows.from + 6) }
    requires lower { rows.from < rows.end → pos rows.end ≤ℤ (raster.y +ℤ pos 2) }
    ensures { layer.new ≡ stamped (raster_of raster)
        (text_has glyphs.now text.now (raster_of raster))
        (λ i j. in_rows layer.old rows.from rows.end columns.from columns.end i j)
        layer.old }
{
    let before = columns_before(columns.from, raster.x);
    let wide = columns.end - columns.from;
    let count = (before % 8 + wide).div_ceil(8) as usize;
    let mut bits = [0; BYTES];
    glyph_rows(&mut bits, glyphs, text, (before / 8) as usize, count);
    let source = Corner {
        row: row_in_cells(rows.from, raster.y),
        bit: before % 8,
    };
    let bit = columns.from % 8;
    align_rows(&mut bits, source, bit, rows.end - rows.from, wide);
    let overlay = Overlay {
        step: MOST,
        bit,
        column: columns.from,
        row: rows.from,
    };
    let template = Template {
        bits: &bits,
        overlay,
        raster,
    };
    paint_rows(layer, rows, columns, &template);
}

// Which row of the characters' cells, 0 to 7, a row of the layer is, with the cursor in this row.
fn row_in_cells(y: u32, cursor: i16) -> u32
    requires { y < 65536 }
    ensures inside { result < 8 }
    ensures value { cursor ≤ℤ pos (y + 6) → pos y ≤ℤ (cursor +ℤ pos 1) → pos y -ℤ (cursor -ℤ pos 6) ≡ pos result }
{
    (y as i32 + 6 - i32::from(cursor)).clamp(0, 7) as u32
}

// How many columns of the characters' cells are left of a column, with the cursor in this column.
fn columns_before(column: u32, cursor: i16) -> u32
    requires { column < 65536 }
    ensures near { result < 131072 }
    ensures value { cursor ≤ℤ pos column → pos column -ℤ cursor ≡ pos result }
{
    (column as i32 - i32::from(cursor)).max(0) as u32
}
