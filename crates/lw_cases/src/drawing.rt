//! What drawing calls paint.
#![tactic(auto, unfolding(crate::proofs::Computing::computing))]

ghost use Rattle.std.specs.Prelude.{◌≡◌, []};
ghost use Rattle.lw_calls.specs.Entries.{only_order};
ghost use Rattle.lw_machine.specs.Report.{run_report};
ghost use Rattle.lw_cases.specs.Drawing.{first_fill, first_fill_report, padded_row, padded_row_report, fill_outside};
ghost use Rattle.lw_cases.specs.Drawing.{fill_outside_report, line_drawn, line_drawn_report, line_complemented};
ghost use Rattle.lw_cases.specs.Drawing.{line_complemented_report, line_complemented_twice, line_complemented_twice_report};
ghost use Rattle.lw_cases.specs.Drawing.{inverse_text, inverse_text_report, blit_right, blit_right_report, blit_left};
ghost use Rattle.lw_cases.specs.Drawing.{blit_left_report, blit_away, blit_away_report};

/// A fill of two by two pixels on a layer of eight by four.
pub fn fill_paints_its_rectangle()
    ensures { run_report first_fill [] (only_order first_fill) ≡ first_fill_report }
{}

/// A row of 17 pixels is padded with zeros to 32 bits.
pub fn row_is_padded()
    ensures { run_report padded_row [] (only_order padded_row) ≡ padded_row_report }
{}

/// A fill outside the layer changes nothing, and answers `ok`.
pub fn fill_outside_paints_nothing()
    ensures { run_report fill_outside [] (only_order fill_outside) ≡ fill_outside_report }
{}

/// A line back from its end takes another pixel in the middle, and twice the same line in COMPLEMENT changes nothing.
pub fn line_back_takes_other_pixels()
    ensures line_drawn { run_report line_drawn [] (only_order line_drawn) ≡ line_drawn_report }
    ensures line_complemented { run_report line_complemented [] (only_order line_complemented) ≡ line_complemented_report }
    ensures line_complemented_twice { run_report line_complemented_twice [] (only_order line_complemented_twice)
        ≡ line_complemented_twice_report }
{}

/// A letter, and beside it the same letter under INVERSVID.
pub fn inverse_text_swaps_pens()
    ensures { run_report inverse_text [] (only_order inverse_text) ≡ inverse_text_report }
{}

/// A blit of a layer onto itself takes its sources from before the call, in whichever direction it goes.
pub fn blit_reads_before_it_writes()
    ensures blit_right { run_report blit_right [] (only_order blit_right) ≡ blit_right_report }
    ensures blit_left { run_report blit_left [] (only_order blit_left) ≡ blit_left_report }
    ensures blit_away { run_report blit_away [] (only_order blit_away) ≡ blit_away_report }
{}
