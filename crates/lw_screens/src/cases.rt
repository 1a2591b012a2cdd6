//! Worked cases of displays, as theorems over the definitions alone.
#![tactic(auto, unfolding(crate::proofs::Computing::computing))]

ghost use Rattle.std.specs.Prelude.{◌≡◌, pos, negsuc};
ghost use Rattle.lw_screens.specs.Display.{dragged, after};
ghost use Rattle.lw_screens.specs.Cases.{two_screens, two_screens_text, two_opened, two_dragged, two_behind};
ghost use Rattle.lw_screens.specs.Cases.{small_screens, small_screens_text, small_opened, small_dragged, small_behind};
ghost use Rattle.lw_screens.specs.Cases.{small_hidden, small_before};
ghost use Rattle.lw_screens.specs.declared.act.Act.TheVariants.{Drag, ToFront, ToBack};

/// Two screens, of which the later one covers the lower half of the earlier one; then it is dragged by a row, or put behind.
pub fn two_screens()
    ensures opened { two_screens_text two_screens ≡ two_opened }
    ensures dragged { two_screens_text (after (Drag 1 (pos 1)) two_screens) ≡ two_dragged }
    ensures behind { two_screens_text (after (ToBack 1) two_screens) ≡ two_behind }
{}

/// Rows that no screen owns are blank, and so are the columns past a screen; a display has the planes of the deepest one.
pub fn small_screens()
    ensures opened { small_screens_text small_screens ≡ small_opened }
    ensures dragged { small_screens_text (after (Drag 1 (negsuc 0)) small_screens) ≡ small_dragged }
    ensures behind { small_screens_text (after (ToBack 1) (after (Drag 1 (negsuc 0)) small_screens)) ≡ small_behind }
    ensures hidden { small_screens_text (after (Drag 1 (negsuc 1)) small_screens) ≡ small_hidden }
    ensures before { small_screens_text (after (ToFront 0) (after (Drag 1 (negsuc 1)) small_screens)) ≡ small_before }
{}

/// A screen's top row stays on the display, however far it is dragged.
pub fn drags_stay_on_the_display()
    ensures up { dragged 5 1 (negsuc 99) ≡ 0 }
    ensures down { dragged 5 1 (pos 100) ≡ 4 }
    ensures least { dragged 5 1 (negsuc 0) ≡ 0 }
    ensures most { dragged 5 1 (pos 3) ≡ 4 }
{}
