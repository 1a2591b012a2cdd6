//! Worked cases of shows and their texts, as theorems over the definitions alone.
#![tactic(auto, unfolding(crate::proofs::Computing::computing))]

ghost use Rattle.std.specs.Prelude.{◌≡◌, ◌++◌, codes};
ghost use Rattle.lw_screens.specs.Cases.{text};
ghost use Rattle.lw_display.specs.ShowCases.{shown, two_scenes, two_noted, two_scenes_text, two_dragged_text, two_behind_text};

/// Two screens, of which the later one covers the lower half of the earlier one; then it is dragged by a row, or put behind.
pub fn two_scenes_are_shown()
    ensures opened { shown two_scenes ≡ two_scenes_text }
    ensures noted { shown two_noted ≡ two_scenes_text }
    ensures dragged { shown (two_scenes ++ text (codes "drag b 1/")) ≡ two_dragged_text }
    ensures behind { shown (two_scenes ++ text (codes "toback b/")) ≡ two_behind_text }
{}
