//! What of a simple layer's history changes its damage, and what doesn't.
#![tactic(auto, unfolding(crate::proofs::Computing::computing))]

ghost use Rattle.std.specs.Prelude.{[]};
ghost use Rattle.lw_region.specs.Pixels.{rectangle_pixels};
ghost use Rattle.lw_calls.specs.Entries.{only_order};
ghost use Rattle.lw_cases.specs.Plans.{rect};
ghost use Rattle.lw_cases.specs.Frames.{frame_uncovered};
ghost use Rattle.lw_cases.specs.Histories.{HasDamageByHistory};
ghost use Rattle.lw_cases.specs.OwnDamage.{damage_beside, damage_beside_order};

/// Of a layer that is damaged, and then scrolled within a clip region, where its last pixel takes pen B: neither its pixels
/// off the region, nor what is done with another layer, nor a refused refresh change the damage.
pub fn damage_is_the_history_of_its_own_drawable_pixels()
    ensures window { HasDamageByHistory damage_beside [] damage_beside_order 0 (rectangle_pixels (rect 2 0 3 0)) }
    ensures other { HasDamageByHistory damage_beside [] damage_beside_order 1 [] }
{}

/// A frame that is uncovered isn't damaged, and the inner pixel beside it is.
pub fn damage_of_a_frame_is_its_history()
    ensures { HasDamageByHistory frame_uncovered [] (only_order frame_uncovered) 0 (rectangle_pixels (rect 4 11 4 11)) }
{}
