//! What the machine's definitions make of scripts with areas.
#![tactic(auto, unfolding(lw_cases::proofs::Computing::computing))]

ghost use Rattle.std.specs.Prelude.{◌≡◌, []};
ghost use Rattle.lw_calls.specs.Entries.{only_order};
ghost use Rattle.lw_machine.specs.Report.{run_report};
ghost use Rattle.lw_script_cases.specs.AreaScripts.{triangle, triangle_report, square, square_report, empty_plan, empty_report};
ghost use Rattle.lw_script_cases.specs.AreaScripts.{checkered, checkered_report};

/// The fills leave the area's pixels.
pub fn areas_are_painted()
    ensures triangle { run_report triangle [] (only_order triangle) ≡ triangle_report }
    ensures square { run_report square [] (only_order square) ≡ square_report }
    ensures empty { run_report empty_plan [] (only_order empty_plan) ≡ empty_report }
    ensures pattern { run_report checkered [] (only_order checkered) ≡ checkered_report }
{}
