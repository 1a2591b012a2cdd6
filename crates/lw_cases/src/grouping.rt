//! Which calls may stand in which group.
#![tactic(auto, unfolding(crate::proofs::Computing::computing))]

ghost use Rattle.std.specs.Prelude.{◌≡◌, ◌∷◌, [], true, false, pos};
ghost use Rattle.std.specs.List.{list_all};
ghost use Rattle.lw_calls.specs.declared.make.Kind.TheVariants.{Smart};
ghost use Rattle.lw_calls.specs.declared.call.Call.TheVariants.{RegClear, Close, ToFront, Activate, SetHook, Which, ReadPixel};
ghost use Rattle.lw_calls.specs.declared.call.Call.TheVariants.{Clip, BeginRefresh, EndRefresh};
ghost use Rattle.lw_calls.specs.declared.group.Hold.TheVariants.{Slot, All};
ghost use Rattle.lw_calls.specs.Orders.{is_legal};
ghost use Rattle.lw_calls.specs.Plan.{groups_fit};
ghost use Rattle.lw_cases.specs.Fitting.{fits_its_sizes};
ghost use Rattle.lw_cases.specs.Plans.{create, blit_across};
ghost use Rattle.lw_cases.specs.Sharing.{served_by_another, served_by_another_order, drawn_by_another, drawn_by_another_order};
ghost use Rattle.lw_cases.specs.Sharing.{opened_by_the_second, opened_by_the_second_order};
ghost use Rattle.lw_cases.specs.OwnDamage.{damage_beside, damage_beside_order};
ghost use Rattle.lw_cases.specs.Grouping.{fit_as, lock_from, hold_from, fill_first, three_fills, arrangement_plans};

/// Within a lock stand calls on its layer, a blit within the layer too: no calls on another layer or on two, none on all
/// layers or on registers, no look, and neither the beginning of an update nor an end.
pub fn lock_has_calls_on_its_layer_alone()
    ensures fits { fit_as (Slot 0) (fill_first 0 ∷ blit_across 0 0 0 1 1 192 ∷ ReadPixel 0 (pos 0) (pos 0) ∷ Clip 0 0 ∷ [])
        ≡ true }
    ensures other_layer { fit_as (Slot 0) (fill_first 0 ∷ fill_first 1 ∷ []) ≡ false }
    ensures source { fit_as (Slot 0) (fill_first 0 ∷ blit_across 0 0 1 0 1 192 ∷ []) ≡ false }
    ensures target { fit_as (Slot 0) (fill_first 0 ∷ blit_across 1 0 0 0 1 192 ∷ []) ≡ false }
    ensures arrangement { fit_as (Slot 0) (fill_first 0 ∷ ToFront 0 ∷ []) ≡ false }
    ensures hook { fit_as (Slot 0) (fill_first 0 ∷ SetHook 0 0 ∷ []) ≡ false }
    ensures registers { fit_as (Slot 0) (fill_first 0 ∷ RegClear 0 ∷ []) ≡ false }
    ensures look { fit_as (Slot 0) (fill_first 0 ∷ Which (pos 0) (pos 0) ∷ []) ≡ false }
    ensures beginning { fit_as (Slot 0) (fill_first 0 ∷ BeginRefresh 0 ∷ []) ≡ false }
    ensures end { fit_as (Slot 0) (fill_first 0 ∷ EndRefresh 0 true ∷ []) ≡ false }
    ensures end_in_part { fit_as (Slot 0) (EndRefresh 0 false ∷ fill_first 0 ∷ []) ≡ false }
{}

/// An update stands from its beginning to its one end, both of its own layer, as do all calls between them.
pub fn update_has_its_beginning_and_its_end()
    ensures fits { fit_as (Slot 0) (BeginRefresh 0 ∷ fill_first 0 ∷ EndRefresh 0 true ∷ []) ≡ true }
    ensures empty { fit_as (Slot 0) (BeginRefresh 0 ∷ EndRefresh 0 false ∷ []) ≡ true }
    ensures no_end { fit_as (Slot 0) (BeginRefresh 0 ∷ fill_first 0 ∷ []) ≡ false }
    ensures beginning_alone { fit_as (Slot 0) (BeginRefresh 0 ∷ []) ≡ false }
    ensures end_alone { fit_as (Slot 0) (EndRefresh 0 true ∷ []) ≡ false }
    ensures second_beginning { fit_as (Slot 0) (BeginRefresh 0 ∷ BeginRefresh 0 ∷ EndRefresh 0 true ∷ []) ≡ false }
    ensures fills_alone { fit_as (Slot 0) (BeginRefresh 0 ∷ fill_first 0 ∷ fill_first 0 ∷ []) ≡ false }
    ensures second_end { fit_as (Slot 0) (BeginRefresh 0 ∷ EndRefresh 0 true ∷ EndRefresh 0 true ∷ []) ≡ false }
    ensures later_call { fit_as (Slot 0) (BeginRefresh 0 ∷ EndRefresh 0 true ∷ fill_first 0 ∷ []) ≡ false }
    ensures other_beginning { fit_as (Slot 0) (BeginRefresh 1 ∷ EndRefresh 0 true ∷ []) ≡ false }
    ensures other_end { fit_as (Slot 0) (BeginRefresh 0 ∷ EndRefresh 1 true ∷ []) ≡ false }
    ensures other_layer { fit_as (Slot 0) (BeginRefresh 0 ∷ fill_first 1 ∷ EndRefresh 0 true ∷ []) ≡ false }
{}

/// Within a hold stand arrangements and changes of hooks alone.
pub fn hold_has_calls_on_all_layers_alone()
    ensures fits { fit_as All (create 0 Smart 0 0 3 0 ∷ ToFront 0 ∷ Activate 0 ∷ Close 0 ∷ []) ≡ true }
    ensures hooks { fit_as All (SetHook 0 0 ∷ create 1 Smart 0 0 3 0 ∷ SetHook 1 1 ∷ []) ≡ true }
    ensures fill { fit_as All (ToFront 0 ∷ fill_first 0 ∷ []) ≡ false }
    ensures blit { fit_as All (ToFront 0 ∷ blit_across 0 0 1 0 1 192 ∷ []) ≡ false }
    ensures registers { fit_as All (ToFront 0 ∷ RegClear 0 ∷ []) ≡ false }
    ensures look { fit_as All (Which (pos 0) (pos 0) ∷ ToFront 0 ∷ []) ≡ false }
    ensures update { fit_as All (BeginRefresh 0 ∷ EndRefresh 0 true ∷ []) ≡ false }
{}

/// Groups stand one after another, each of calls that there are, and no call in two of them.
pub fn groups_stand_apart()
    ensures fit { groups_fit three_fills (lock_from 0 1 ∷ lock_from 2 2 ∷ []) ≡ true }
    ensures common_call { groups_fit three_fills (lock_from 0 1 ∷ lock_from 1 2 ∷ []) ≡ false }
    ensures within { groups_fit three_fills (lock_from 0 2 ∷ lock_from 1 1 ∷ []) ≡ false }
    ensures falling { groups_fit three_fills (lock_from 2 2 ∷ lock_from 0 1 ∷ []) ≡ false }
    ensures twice { groups_fit three_fills (lock_from 1 1 ∷ lock_from 1 1 ∷ []) ≡ false }
    ensures past_the_last { groups_fit three_fills (lock_from 0 1 ∷ lock_from 2 3 ∷ []) ≡ false }
    ensures no_call { groups_fit three_fills (lock_from 2 1 ∷ []) ≡ false }
    ensures no_arrangement { groups_fit (ToFront 0 ∷ ToFront 0 ∷ []) (hold_from 1 0 ∷ []) ≡ false }
    ensures first_unfit { groups_fit (ToFront 0 ∷ fill_first 0 ∷ []) (lock_from 0 0 ∷ lock_from 1 1 ∷ []) ≡ false }
    ensures last_unfit { groups_fit (fill_first 0 ∷ ToFront 0 ∷ []) (lock_from 0 0 ∷ lock_from 1 1 ∷ []) ≡ false }
    ensures calls_beside { groups_fit (ToFront 0 ∷ fill_first 0 ∷ ToFront 0 ∷ []) (lock_from 1 1 ∷ []) ≡ true }
{}

/// The worked plans of arrangements and damage are plans that a script can spell, and the orders of two tasks legal ones.
pub fn arrangement_plans_fit()
    ensures fit { list_all fits_its_sizes arrangement_plans ≡ true }
    ensures served { is_legal served_by_another served_by_another_order ≡ true }
    ensures drawn { is_legal drawn_by_another drawn_by_another_order ≡ true }
    ensures opened { is_legal opened_by_the_second opened_by_the_second_order ≡ true }
    ensures damaged { is_legal damage_beside damage_beside_order ≡ true }
{}
