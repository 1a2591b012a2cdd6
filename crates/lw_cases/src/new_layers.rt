//! How a new layer paints, and which pens it may have.
#![tactic(auto, unfolding(crate::proofs::Computing::computing))]

ghost use Rattle.std.specs.Prelude.{◌≡◌, []};
ghost use Rattle.lw_calls.specs.Entries.{only_order};
ghost use Rattle.lw_machine.specs.Report.{run_report};
ghost use Rattle.lw_cases.specs.NewLayers.{new_layer_drawn, new_layer_drawn_report, third_pen, pens_read, pens_read_report};

/// A new layer paints pen 1 on pen 0, in the mode JAM2, in all planes, from its corner.
pub fn new_layer_paints_in_all_planes_from_its_corner()
    ensures { run_report new_layer_drawn [] (only_order new_layer_drawn) ≡ new_layer_drawn_report }
{}

/// Whatever sets a pen, the layer has it modulo the number of the screen's pens.
pub fn pens_are_cut_to_the_planes()
    ensures { run_report pens_read third_pen (only_order pens_read) ≡ pens_read_report }
{}
