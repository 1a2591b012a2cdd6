//! Which parts of a desk a call touches.
#![tactic(auto, unfolding(crate::proofs::Computing::computing))]

ghost use Rattle.std.specs.Prelude.{◌≡◌, ◌∷◌, [], true, false, map, replicate, pos};
ghost use Rattle.lw_calls.specs.declared.call.Call.TheVariants.{SetHook, Which, Blit};
ghost use Rattle.lw_calls.specs.declared.touch.Slots.TheVariants.{Nothing, One, All};
ghost use Rattle.lw_calls.specs.Touches.{touch_of};
ghost use Rattle.lw_cases.specs.CallTables.{one_pixel, on_one_layer, arrangements};
ghost use Rattle.lw_cases.specs.Touching.{touched_on, touch, region_calls, roles_touched};

/// Each call touches its task's registers. A region call touches no more, a call on a layer that layer, a look LayerInfo, an
/// arrangement or a change of a hook LayerInfo and all layers, and a blit between two layers both.
pub fn calls_touch_the_parts_of_their_class()
    ensures regions { map (touch_of 3) region_calls ≡ replicate 3 (touch false Nothing) }
    ensures one { touched_on on_one_layer ≡ replicate 21 (touch false (One 5)) }
    ensures look { touch_of 3 (Which (pos 5) (pos 5)) ≡ touch true Nothing }
    ensures all { touched_on arrangements ≡ replicate 10 (touch true All) }
    ensures hook { touch_of 3 (SetHook 5 5) ≡ touch true All }
    ensures two { roles_touched (Blit 5 6 one_pixel) ≡ true ∷ false ∷ false ∷ true ∷ true ∷ false ∷ false ∷ [] }
{}
