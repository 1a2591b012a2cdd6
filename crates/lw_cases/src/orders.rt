//! What the definitions say of orders of two tasks, and the reports after legal ones.
#![tactic(auto, unfolding(crate::proofs::Computing::computing))]

ghost use Rattle.std.specs.Prelude.{◌≡◌, ◌∷◌, true, false, [], codes};
ghost use Rattle.lw_calls.specs.declared.operation.PairOp.TheVariants.{Or as OrPair};
ghost use Rattle.lw_calls.specs.declared.call.Call.TheVariants.{RegPair, RegClear, Close, Activate, Clip};
ghost use Rattle.lw_calls.specs.Orders.{is_legal, IsBadPlace};
ghost use Rattle.lw_calls.specs.Entries.{entries};
ghost use Rattle.lw_machine.specs.Report.{run_report};
ghost use Rattle.lw_cases.specs.Orders.{two_layers, first_begins, first_begins_entries, second_begins, second_begins_entries};
ghost use Rattle.lw_cases.specs.Orders.{two_layers_report, locked_fills, within_the_lock, cut_short, before_all};
ghost use Rattle.lw_cases.specs.Orders.{before_all_entries, before_all_report, after_all, after_all_entries, after_all_report};
ghost use Rattle.lw_cases.specs.Orders.{beside_a_hold, beside_a_lock, beside_two_locks, within_the_hold, before_the_hold};
ghost use Rattle.lw_cases.specs.Orders.{after_the_hold, region_call, look, blit_of, within_the_hold_report};
ghost use Rattle.lw_cases.specs.Plans.{fill};

/// Two tasks that each draw into a layer of their own: of the report, the second line alone depends on the order.
pub fn order_of_two_layers_shows_in_one_line()
    ensures first_is_legal { is_legal two_layers first_begins ≡ true }
    ensures second_is_legal { is_legal two_layers second_begins ≡ true }
    ensures first_steps { entries two_layers [] first_begins ≡ first_begins_entries }
    ensures second_steps { entries two_layers [] second_begins ≡ second_begins_entries }
    ensures first_report { run_report two_layers [] first_begins ≡ two_layers_report (codes "0 1 0 1") }
    ensures second_report { run_report two_layers [] second_begins ≡ two_layers_report (codes "1 0 1 0") }
{}

/// A legal order has all calls of each task, and no more.
pub fn order_has_the_calls_of_each_task()
    ensures first_short { is_legal two_layers (0 ∷ 1 ∷ 1 ∷ []) ≡ false }
    ensures second_short { is_legal two_layers (0 ∷ 1 ∷ 0 ∷ []) ≡ false }
    ensures one_more { is_legal two_layers (0 ∷ 1 ∷ 0 ∷ 1 ∷ 1 ∷ []) ≡ false }
    ensures unknown_task { is_legal two_layers (0 ∷ 1 ∷ 0 ∷ 1 ∷ 2 ∷ []) ≡ false }
{}

/// No other task's call on a layer comes within its lock, and an order has all calls.
pub fn lock_keeps_others_off()
    ensures within { IsBadPlace locked_fills within_the_lock 2 }
    ensures short { IsBadPlace locked_fills cut_short 2 }
{}

/// Before the layer is created, and after the lock, another task's call may come.
pub fn orders_round_a_lock_are_legal()
    ensures before_is_legal { is_legal locked_fills before_all ≡ true }
    ensures after_is_legal { is_legal locked_fills after_all ≡ true }
    ensures before_steps { entries locked_fills [] before_all ≡ before_all_entries }
    ensures after_steps { entries locked_fills [] after_all ≡ after_all_entries }
    ensures before_report { run_report locked_fills [] before_all ≡ before_all_report }
    ensures after_report { run_report locked_fills [] after_all ≡ after_all_report }
{}

/// A hold of all layers keeps looks and calls on layers off, and lets calls on registers come.
pub fn hold_lets_region_calls_come()
    ensures region_within { is_legal (beside_a_hold region_call) within_the_hold ≡ true }
    ensures region_report { run_report (beside_a_hold region_call) [] within_the_hold ≡ within_the_hold_report }
    ensures look_within { is_legal (beside_a_hold look) within_the_hold ≡ false }
    ensures look_before { is_legal (beside_a_hold look) before_the_hold ≡ true }
    ensures look_after { is_legal (beside_a_hold look) after_the_hold ≡ true }
    ensures fill_within { is_legal (beside_a_hold (fill 1 0 0 0 0)) within_the_hold ≡ false }
    ensures blit_within { is_legal (beside_a_hold (blit_of 0 1)) within_the_hold ≡ false }
    ensures pair_within { is_legal (beside_a_hold (RegPair OrPair 0 1)) within_the_hold ≡ true }
    ensures clear_within { is_legal (beside_a_hold (RegClear 0)) within_the_hold ≡ true }
{}

/// A lock on a layer lets looks, calls on registers and on another layer come, and keeps off what touches its layer, which
/// each arrangement does.
pub fn lock_keeps_its_layer_alone()
    ensures look { is_legal (beside_a_lock look) within_the_lock ≡ true }
    ensures region { is_legal (beside_a_lock region_call) within_the_lock ≡ true }
    ensures other_fill { is_legal (beside_a_lock (fill 1 0 0 0 0)) within_the_lock ≡ true }
    ensures clip { is_legal (beside_a_lock (Clip 0 0)) within_the_lock ≡ false }
    ensures source { is_legal (beside_a_lock (blit_of 0 1)) within_the_lock ≡ false }
    ensures target { is_legal (beside_a_lock (blit_of 1 0)) within_the_lock ≡ false }
    ensures close { is_legal (beside_a_lock (Close 1)) within_the_lock ≡ false }
    ensures activate { is_legal (beside_a_lock (Activate 1)) within_the_lock ≡ false }
{}

/// A lock for one call holds against nobody.
pub fn lock_of_one_call_keeps_nobody_off()
    ensures { is_legal (beside_two_locks (fill 0 2 0 2 0)) within_the_lock ≡ true }
{}
