//! Canonical texts of plans.
#![tactic(auto, unfolding(crate::proofs::Computing::computing, lw_canonical::specs::Canonical::canonical_text, lw_planes::specs::Row::row_bit, lw_planes::specs::Storage::bit_place))]

ghost use Rattle.std.specs.Prelude.{◌≡◌};
ghost use Rattle.lw_canonical.specs.Canonical.{canonical_text};
ghost use Rattle.lw_cases.specs.Drawing.{first_fill};
ghost use Rattle.lw_cases.specs.Versions.{hook_replaced};
ghost use Rattle.lw_script_cases.specs.WholeScripts.{first_fill_script};
ghost use Rattle.lw_script_cases.specs.CanonicalTexts.{three_tasks, three_tasks_text, all_asked, all_asked_text, further_calls};
ghost use Rattle.lw_script_cases.specs.CanonicalTexts.{further_calls_text};
ghost use Rattle.lw_script_cases.specs.VersionLines.{hook_replaced_script};
ghost use Rattle.lw_script_cases.specs.AreaScripts.{triangle, triangle_text};
ghost use Rattle.lw_script_cases.specs.GzzScripts.{filled, filled_script, boxed, boxed_script, all_lines, all_lines_script};
ghost use Rattle.lw_script_cases.specs.GzzScripts.{beside_pairs, beside_pairs_text};

/// The first fill's canonical text is its script.
pub fn first_fill_is_canonical()
    ensures { canonical_text first_fill ≡ first_fill_script }
{}

/// Glyphs, a bitmap and three tasks stand in their order, with the lines of their groups.
pub fn groups_stand_around_their_calls()
    ensures { canonical_text three_tasks ≡ three_tasks_text }
{}

/// Optional words stand in the order of their forms.
pub fn optional_words_stand_in_order()
    ensures { canonical_text all_asked ≡ all_asked_text }
{}

/// Each further call has its words in their order.
pub fn calls_have_their_words()
    ensures { canonical_text further_calls ≡ further_calls_text }
{}

/// The canonical text of a plan of version 2 begins with that.
pub fn version_2_stands_first()
    ensures { canonical_text hook_replaced ≡ hook_replaced_script }
{}

/// The canonical text of a script with an area has its fills.
pub fn fills_stand_for_areas()
    ensures { canonical_text triangle ≡ triangle_text }
{}

/// The canonical text of a script with windows of two layers is that script; a group that stands for no word of one of them, as
/// one of the inner layer first or with a call more, has its calls.
pub fn windows_of_two_have_lines()
    ensures filled { canonical_text filled ≡ filled_script }
    ensures boxed { canonical_text boxed ≡ boxed_script }
    ensures all { canonical_text all_lines ≡ all_lines_script }
    ensures beside { canonical_text beside_pairs ≡ beside_pairs_text }
{}
