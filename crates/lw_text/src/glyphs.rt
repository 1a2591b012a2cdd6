// The rows of glyphs side by side, as a text has them.

ghost use Rattle.std.specs.Prelude.{◌≡◌, ℕ, ◌+◌, ◌*◌, ◌^◌, ◌<◌, ◌≤◌, length, slice_index};
ghost use Rattle.std.specs.List.{slice_index_or};
ghost use Rattle.lw_planes.specs.Row.{row_bit};
ghost use Rattle.lw_kernels.specs.Kernel.{place_in};
ghost use Rattle.lw_text.specs.Templates.{glyph_bits};

use crate::characters::MOST;
use lw_kernels::{COPY_MINTERM, Corner, combine_rows_within};

// Puts the glyphs of some of a text's characters side by side, from the character `first` on, into eight rows of bytes, MOST
// apart. After the text they are empty.
pub(crate) fn glyph_rows(
    bytes: &mut [u8],
    glyphs: &[[u8; 8]; 95],
    text: &[u8],
    first: usize,
    count: usize,
)
    requires long { 2056 ≤ length bytes.old }
    requires few { count ≤ 257 }
    requires near { first < 2 ^ 32 }
    ensures long { length bytes.new ≡ length bytes.old }
    ensures each { (k n : ℕ) → k < 8 → n < count → slice_index bytes.new (k * 257 + n) ≡
        glyph_bits glyphs.now (slice_index_or text.now (first + n) 0) k }
{
    for place in 0..count {
        let glyph = glyph_of(glyphs, code_at(text, first + place));
        put_glyph(bytes, place, glyph);
    }
}

// Puts a glyph's bytes one below another, from the byte `at` on.
fn put_glyph(bytes: &mut [u8], at: usize, glyph: [u8; 8])
    requires long { 2056 ≤ length bytes.old }
    requires inside { at < 257 }
    ensures long { length bytes.new ≡ length bytes.old }
    ensures each { (k : ℕ) → k < 8 → slice_index bytes.new (k * 257 + at) ≡ slice_index glyph k }
    ensures before { (k n : ℕ) → n < at → slice_index bytes.new (k * 257 + n) ≡ slice_index bytes.old (k * 257 + n) }
{
    for row in 0..8 {
        bytes[row * MOST + at] = glyph[row];
    }
}

// Moves a block of rows of bits to the first rows and to bit `bit` of each. A bit that lies as its pixel does in the bytes of a
// layer needs no shift, so rows that are moved so once aren't shifted again for each plane.
pub(crate) fn align_rows(bytes: &mut [u8], source: Corner, bit: u32, rows: u32, count: u32)
    requires long { 2056 ≤ length bytes.old }
    requires low { source.row + rows ≤ 8 }
    requires inside { bit + count ≤ 2056 }
    requires source_inside { source.bit + count ≤ 2056 }
    ensures long { length bytes.new ≡ length bytes.old }
    ensures bits { (k n : ℕ) → k < rows → n < count → row_bit bytes.new (place_in 257 k (bit + n)) ≡
        row_bit bytes.old (place_in 257 (source.row + k) (source.bit + n)) }
{
    if source.row > 0 || source.bit != bit {
        let to = Corner { row: 0, bit };
        combine_rows_within(bytes, MOST, to, source, rows, count, COPY_MINTERM);
    }
}

// A text's code; 0, which has no glyph, after the text.
fn code_at(text: &[u8], place: usize) -> u8
    ensures { result ≡ slice_index_or text.now place 0 }
{
    match text.get(place) {
        Some(code) => *code,
        None => 0,
    }
}

// A code's glyph; the empty one for a code that has none.
#[tactic(auto, unfolding(crate::specs::Templates::glyph_bits))]
fn glyph_of(glyphs: &[[u8; 8]; 95], code: u8) -> [u8; 8]
    ensures { (k : ℕ) → k < 8 → slice_index result k ≡ glyph_bits glyphs.now code k }
{
    match code {
        0x20..=0x7e => glyphs[(code - 0x20) as usize],
        _ => [0; 8],
    }
}
