//! What masks and modes make of fills and letters.
#![tactic(auto, unfolding(crate::proofs::Computing::computing))]

ghost use Rattle.std.specs.Prelude.{◌≡◌, []};
ghost use Rattle.lw_calls.specs.Entries.{only_order};
ghost use Rattle.lw_machine.specs.Report.{run_report};
ghost use Rattle.lw_cases.specs.Modes.{masked_fills, masked_fills_report, masked_raster, masked_raster_report, letters_jam1};
ghost use Rattle.lw_cases.specs.Modes.{letters_jam1_report, letters_complemented, letters_complemented_report};
ghost use Rattle.lw_cases.specs.Modes.{letters_at_edges, letters_at_edges_report, codes_without_glyph};
ghost use Rattle.lw_cases.specs.Modes.{codes_without_glyph_report, letters_far_off, letters_far_off_report, inverse_shapes};
ghost use Rattle.lw_cases.specs.Modes.{inverse_shapes_report, masked_shapes, masked_shapes_report, pixels_complemented};
ghost use Rattle.lw_cases.specs.Modes.{pixels_complemented_report, read_while_masked, read_while_masked_report};
ghost use Rattle.lw_cases.specs.Modes.{codes_round_the_last, codes_round_the_last_report};

/// The planes that a mask hasn't got stay as they are, in any mode.
pub fn mask_keeps_planes()
    ensures fills { run_report masked_fills [] (only_order masked_fills) ≡ masked_fills_report }
    ensures raster { run_report masked_raster [] (only_order masked_raster) ≡ masked_raster_report }
    ensures shapes { run_report masked_shapes [] (only_order masked_shapes) ≡ masked_shapes_report }
{}

/// A pixel is read in all planes, whatever the mask.
pub fn pixel_is_read_in_all_planes()
    ensures { run_report read_while_masked [] (only_order read_while_masked) ≡ read_while_masked_report }
{}

/// COMPLEMENT turns a pixel each time it is written.
pub fn written_pixel_is_complemented()
    ensures { run_report pixels_complemented [] (only_order pixels_complemented) ≡ pixels_complemented_report }
{}

/// JAM1 leaves what isn't the letter, COMPLEMENT turns the letter alone, also with JAM2, and INVERSVID swaps the two.
pub fn modes_paint_letters()
    ensures jam1 { run_report letters_jam1 [] (only_order letters_jam1) ≡ letters_jam1_report }
    ensures complemented { run_report letters_complemented [] (only_order letters_complemented) ≡ letters_complemented_report }
{}

/// Letters are cut at the layer's edges.
pub fn letters_are_cut_at_edges()
    ensures { run_report letters_at_edges [] (only_order letters_at_edges) ≡ letters_at_edges_report }
{}

/// What has no glyph has the empty one.
pub fn no_glyph_is_empty()
    ensures given_none { run_report codes_without_glyph [] (only_order codes_without_glyph) ≡ codes_without_glyph_report }
    ensures past_the_last { run_report codes_round_the_last [] (only_order codes_round_the_last) ≡ codes_round_the_last_report }
{}

/// Letters end at the last coordinate.
pub fn letters_end_at_the_last_coordinate()
    ensures { run_report letters_far_off [] (only_order letters_far_off) ≡ letters_far_off_report }
{}

/// A fill, a line and a pixel take no notice of INVERSVID.
pub fn inversvid_is_for_letters()
    ensures { run_report inverse_shapes [] (only_order inverse_shapes) ≡ inverse_shapes_report }
{}
