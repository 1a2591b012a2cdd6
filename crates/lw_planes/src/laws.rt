ghost use Rattle.std.specs.Prelude.{◌≡◌, ℕ, ◌<◌, List, length};
ghost use Rattle.lw_planes.specs.Bitmap.{Bitmap, IsBitmap, row_bytes};
ghost use Rattle.lw_planes.specs.Laws.{TableHasItsValues, PenHasItsBits, BitmapIsItsPens, PlaneRowHasItsBits};
ghost use Rattle.lw_planes.specs.Laws.{RowWriteChangesItsRow};

/// A table has its values: the law of tables by column and row on which the pens of every bitmap stand.
pub fn table_has_its_values()
    ensures { (w h : ℕ) (f : ℕ → ℕ → ℕ) (d : ℕ) → TableHasItsValues w h f d }
{}

/// A pen of some planes and its bits in them determine each other (the manual's Graphics Primitives
/// chapter: a pixel's pen has one bit in each bit plane).
pub fn pen_has_its_bits()
    ensures { (n : ℕ) → PenHasItsBits n }
{}

/// A bitmap is the table of its pens: bitmaps of one size with equal pens are equal.
pub fn bitmap_is_its_pens()
    ensures { (b : Bitmap) → IsBitmap b → BitmapIsItsPens b }
{}

/// A row of a bit plane has bit `k` of each pen in its place, the leftmost pixel in the most
/// significant bit of the first byte, and zeros in the padding to whole 16-bit words (the manual's
/// Graphics Primitives chapter).
pub fn plane_row_has_its_bits()
    ensures { (b : Bitmap) (k y : ℕ) → PlaneRowHasItsBits b k y }
{}

/// A row of a bit plane that is written back changes that plane's bits of that row's pixels alone (this
/// project's own form of drawing into a plane).
pub fn row_write_changes_its_row()
    ensures { (b : Bitmap) (k y : ℕ) (row : List ℕ) → k < b.depth → y < b.height →
        length row ≡ row_bytes b.width → RowWriteChangesItsRow b k y row }
{}
