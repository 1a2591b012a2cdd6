//! Where lines and letters go from the cursor.
#![tactic(auto, unfolding(crate::proofs::Computing::computing))]

ghost use Rattle.std.specs.Prelude.{◌≡◌, []};
ghost use Rattle.lw_calls.specs.Entries.{only_order};
ghost use Rattle.lw_machine.specs.Report.{run_report};
ghost use Rattle.lw_cases.specs.Strokes.{lines_by_one_more, lines_by_one_more_report, letters_moved, letters_moved_report};
ghost use Rattle.lw_cases.specs.Strokes.{code_below_blank, code_below_blank_report, updated_strokes, updated_strokes_report};
ghost use Rattle.lw_cases.specs.Strokes.{line_of_no_length, line_of_no_length_report};

/// A line has one pixel at each step of its longer axis, if it is longer by one alone.
pub fn line_goes_by_its_longer_axis()
    ensures { run_report lines_by_one_more [] (only_order lines_by_one_more) ≡ lines_by_one_more_report }
{}

/// A line to its own beginning is one pixel.
pub fn line_of_no_length_is_a_pixel()
    ensures { run_report line_of_no_length [] (only_order line_of_no_length) ≡ line_of_no_length_report }
{}

/// Letters move the cursor past the last one.
pub fn letters_move_the_cursor_past_them()
    ensures { run_report letters_moved [] (only_order letters_moved) ≡ letters_moved_report }
{}

/// A code below that of the blank has the empty glyph, and not the blank's.
pub fn code_below_the_blank_is_empty()
    ensures { run_report code_below_blank [] (only_order code_below_blank) ≡ code_below_blank_report }
{}

/// Lines and letters stay in the clip region, and within an update in the damage.
pub fn strokes_stay_in_clip_and_damage()
    ensures { run_report updated_strokes [] (only_order updated_strokes) ≡ updated_strokes_report }
{}
