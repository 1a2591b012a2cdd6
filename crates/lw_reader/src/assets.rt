//! Glyphs and bitmaps added to those that were read.
ghost use Rattle.std.specs.Prelude.{◌≡◌, ◌<◌, ◌≤◌, pos, false, IsTrue, OnOk, List, ◌∷◌, ◌++◌, length, bytes_eq};
ghost use Rattle.std.specs.List.{list_any};
ghost use Rattle.lw_region.specs.Rectangle.{within};
ghost use Rattle.lw_planes.specs.Bitmap.{row_bytes};
ghost use Rattle.lw_grammar.specs.Statements.{Statement as StatementValue, GlyphLine, BitmapLine, RowLine, PatternLine};
ghost use Rattle.lw_words.specs.Cuts.{targets};
ghost use Rattle.lw_words.specs.Digits.{decoded};
ghost use Rattle.lw_reader.specs.Represents.{AssetsRepresent, IsBitmapBegun};

use crate::state::AssetsRead;
use lw_area::Pattern;
use lw_planes::Planes;
use lw_statements::count;
use lw_words::Digits;
use std::alloc::{AllocError, Global};
use std::mem;

/// The eight rows of a glyph that digits spell.
fn glyph_of(digits: &Digits<'_>) -> [u8; 8]
    requires { length (decoded digits.now.digits.now) ≡ 8 }
    ensures { result ≡ decoded digits.now.digits.now }
{
    let mut rows = [0; 8];
    for (place, row) in rows.iter_mut().enumerate() {
        *row = digits.byte(place);
    }
    rows
}

/// Puts the bytes that digits spell after these.
fn push_bytes(bytes: &mut Vec<u8>, digits: &Digits<'_>) -> Result<(), AllocError>
    ensures { OnOk result (bytes.new.items ≡ bytes.old.items ++ decoded digits.now.digits.now) }
{
    for place in 0..digits.count() {
        bytes.push(digits.byte(place))?;
    }
    Ok(())
}

impl<'a> AssetsRead<'a> {
    /// Adds the glyph of a code from 0x20 to 0x7e.
    pub fn add_glyph(&mut self, code: u8, digits: &Digits<'a>)
        requires code { (32 ≤ code) × (code ≤ 126) }
        requires rows { length (decoded digits.now.digits.now) ≡ 8 }
        requires due { self.old.due ≡ 0 }
        ensures { (above : List StatementValue) → AssetsRepresent self.old above
            → AssetsRepresent self.new (GlyphLine code (decoded digits.now.digits.now) ∷ above) }
    {
        self.has_glyph[code as usize] = true;
        self.glyphs[code as usize - 32] = glyph_of(digits);
    }

    /// Adds a pattern.
    pub fn add_pattern(&mut self, name: &'a [u8], pattern: &Pattern) -> Result<(), AllocError>
        requires new { list_any (bytes_eq name.now) (targets self.old.pattern_names.keys) ≡ false }
        requires due { self.old.due ≡ 0 }
        ensures { (above : List StatementValue) → AssetsRepresent self.old above
            → OnOk result (AssetsRepresent self.new (PatternLine name.entry.now pattern.now ∷ above)) }
    {
        let pattern = Pattern::new(pattern.words()).unwrap();
        self.pattern_names.insert(name)?;
        self.patterns.push(pattern)?;
        Ok(())
    }

    /// Adds a bitmap, whose rows are then due.
    #[tactic(auto, using(std::proofs::lemmas::Int::ints), unfolding(lw_region::specs::Rectangle::within))]
    pub fn add_bitmap(
        &mut self,
        alloc: Global,
        name: &'a [u8],
        width: i64,
        height: i64,
        depth: i64,
    ) -> Result<(), AllocError>
        requires width { IsTrue (within (pos 1) width (pos 1024)) }
        requires height { IsTrue (within (pos 1) height (pos 1024)) }
        requires depth { IsTrue (within (pos 1) depth (pos 8)) }
        requires due { self.old.due ≡ 0 }
        requires new { list_any (bytes_eq name.now) (targets self.old.names.keys) ≡ false }
        ensures { (above : List StatementValue) → AssetsRepresent self.old above
            → OnOk result (AssetsRepresent self.new (BitmapLine name.entry.now width height depth ∷ above)) }
    {
        self.names.insert(name)?;
        self.width = count(width);
        self.height = count(height);
        self.depth = count(depth);
        self.due = self.depth * self.height;
        self.rows = Vec::new(alloc);
        Ok(())
    }

    /// Adds a row of the nearest bitmap, of which some are due.
    pub fn add_row(&mut self, alloc: Global, digits: &Digits<'a>) -> Result<(), AllocError>
        requires due { 0 < self.old.due }
        requires begun { IsBitmapBegun self.old }
        requires long { length (decoded digits.now.digits.now) ≡ row_bytes self.old.width }
        ensures { (above : List StatementValue) → AssetsRepresent self.old above
            → OnOk result (AssetsRepresent self.new (RowLine (decoded digits.now.digits.now) ∷ above)) }
    {
        push_bytes(&mut self.rows, digits)?;
        self.due -= 1;
        if self.due == 0 {
            let rows = mem::replace(&mut self.rows, Vec::new(alloc));
            let planes = Planes::from_bytes(self.width, self.height, self.depth, rows);
            self.bitmaps.push(planes)?;
        }
        Ok(())
    }
}
