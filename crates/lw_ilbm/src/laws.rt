ghost use Rattle.lw_ilbm.specs.Laws.{PackedRowsUnpack, PicturesReadBack};
ghost use Rattle.std.specs.Prelude.{ℕ, List};
ghost use Rattle.lw_planes.specs.Bitmap.{Bitmap};
ghost use Rattle.lw_planes.specs.Sizes.{IsPlanes};

/// A packed row stands for the row, whatever codes follow.
pub fn packed_rows_unpack()
    ensures { (row codes : List ℕ) → PackedRowsUnpack row codes }
{}

/// The file of a bitmap gives this bitmap again.
pub fn pictures_read_back()
    ensures { (b : Bitmap) → IsPlanes b → PicturesReadBack b }
{}
