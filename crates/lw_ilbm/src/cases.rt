//! Worked cases of files and of packing, as theorems over the definitions alone.
#![tactic(auto, unfolding(crate::proofs::Computing::computing))]

ghost use Rattle.std.specs.Prelude.{◌≡◌, [], ◌∷◌, Ok, Err, take};
ghost use Rattle.lw_ilbm.specs.Packing.{packed, unpacked};
ghost use Rattle.lw_ilbm.specs.Pictures.{encoded};
ghost use Rattle.lw_ilbm.specs.Reading.{picture_of};
ghost use Rattle.lw_ilbm.specs.Cases.{small_picture, small_file, cut_body};

/// A picture of 16 columns, 4 rows and one plane, its file, and two faults of it.
pub fn small_pictures()
    ensures written { encoded small_picture ≡ small_file }
    ensures read { picture_of 1024 small_file ≡ Ok small_picture }
    ensures cut { picture_of 1024 (take 59 small_file) ≡ Err 40 }
    ensures short { picture_of 1024 cut_body ≡ Err 59 }
{}

/// Three equal bytes and more are a repeat, and what is left over of 128 begins anew.
pub fn rows_are_packed()
    ensures row { packed (0 ∷ 0 ∷ 0 ∷ 0 ∷ 18 ∷ 52 ∷ []) ≡ 253 ∷ 0 ∷ 1 ∷ 18 ∷ 52 ∷ [] }
    ensures two { packed (7 ∷ 7 ∷ 9 ∷ 9 ∷ 9 ∷ 7 ∷ 7 ∷ []) ≡ 1 ∷ 7 ∷ 7 ∷ 254 ∷ 9 ∷ 1 ∷ 7 ∷ 7 ∷ [] }
{}
