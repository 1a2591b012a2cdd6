use lw_planes::Planes;
use std::marker::Model;

/// What a script hands in: glyphs and bitmaps (Graphics Primitives: text, bitmaps). Contracts see the glyphs' rows and
/// the bitmaps' pens.
#[derive(Debug, Drop)]
pub struct Assets {
    /// The glyphs of the codes 0x20 to 0x7e in their order: 8 rows from the top, of which the most significant bit is the
    /// leftmost pixel.
    pub glyphs: [[u8; 8]; 95],
    /// The bitmaps by number.
    pub bitmaps: Vec<Planes>,
}

impl Model for Assets {
    ghost use Rattle.lw_calls.specs.Assets.{Assets as AssetsView};

    ghost Value = { AssetsView };

    ghost view = { λ a. record { glyphs = a.glyphs; bitmaps = a.bitmaps.items } };
}
