//! Which numbers a call may have: each at its bounds fits, and one past them doesn't.
#![tactic(auto, unfolding(crate::proofs::Computing::computing))]

ghost use Rattle.std.specs.Prelude.{◌≡◌, ◌∷◌, ◌++◌, [], true, false, Some};
ghost use Rattle.lw_calls.specs.declared.make.Kind.TheVariants.{Simple, Smart};
ghost use Rattle.lw_calls.specs.declared.call.Call.TheVariants.{OpenWindow, SetHook, SetMode, Put};
ghost use Rattle.lw_calls.specs.Limits.{call_fits};
ghost use Rattle.lw_cases.specs.Plans.{box};
ghost use Rattle.lw_cases.specs.CallTables.{one_pixel, own_pixel, layer_of, window_of, on_one_layer, arrangements};
ghost use Rattle.lw_cases.specs.CallTables.{beside_slot_0, at_a_pair, of_a_size, made_of_a_size, in_a_rectangle, with_a_byte};
ghost use Rattle.lw_cases.specs.CallTables.{with_a_register, with_a_minterm, with_a_hook, with_own_bitmap};
ghost use Rattle.lw_cases.specs.CallTables.{with_a_bitmap_of_none};
ghost use Rattle.lw_cases.specs.CallLimits.{few_of_each, all_fit, some_fits, calls_with, calls_with_pairs, pairs_at_bounds};
ghost use Rattle.lw_cases.specs.CallLimits.{pairs_past_bounds, sizes_at_bounds, sizes_past_bounds, made_sizes_at_bounds};
ghost use Rattle.lw_cases.specs.CallLimits.{made_sizes_past_bounds, own_sizes_at_bounds, own_sizes_past_bounds};
ghost use Rattle.lw_cases.specs.CallLimits.{rectangles_at_bounds, rectangles_past_bounds, minterms, no_minterms};

/// A call names slots, bitmaps and hooks that there are: of two slots, three bitmaps and five hooks the last ones.
pub fn calls_name_what_there_is()
    ensures slots { all_fit (calls_with (on_one_layer ++ arrangements ++ beside_slot_0) (0 ∷ 1 ∷ [])) ≡ true }
    ensures no_slot { some_fits (calls_with (on_one_layer ++ arrangements ++ beside_slot_0) (2 ∷ [])) ≡ false }
    ensures bitmap { all_fit (Put 2 1 one_pixel ∷ []) ≡ true }
    ensures no_bitmap { some_fits (Put 3 1 one_pixel ∷ []) ≡ false }
    ensures hooks { all_fit (calls_with with_a_hook (0 ∷ 4 ∷ [])) ≡ true }
    ensures no_hook { some_fits (calls_with with_a_hook (5 ∷ [])) ≡ false }
{}

/// A hook is changed in the versions 2 and 3 alone, of a layer that there is, for a hook that there is.
pub fn hooks_are_changed_from_version_2_on()
    ensures first { call_fits few_of_each (SetHook 0 0) ≡ false }
    ensures second { call_fits (record few_of_each { version = 2 }) (SetHook 1 4) ≡ true }
    ensures third { call_fits (record few_of_each { version = 3 }) (SetHook 1 4) ≡ true }
    ensures no_slot { call_fits (record few_of_each { version = 2 }) (SetHook 2 0) ≡ false }
    ensures no_hook { call_fits (record few_of_each { version = 2 }) (SetHook 0 5) ≡ false }
{}

/// Coordinates and steps are -32768 to 32767.
pub fn coordinates_have_bounds()
    ensures at { all_fit (calls_with_pairs at_a_pair pairs_at_bounds) ≡ true }
    ensures past { some_fits (calls_with_pairs at_a_pair pairs_past_bounds) ≡ false }
{}

/// A rectangle has coordinates for bounds, and no maximum below its minimum.
pub fn rectangles_have_bounds()
    ensures at { all_fit (calls_with in_a_rectangle rectangles_at_bounds) ≡ true }
    ensures past { some_fits (calls_with in_a_rectangle rectangles_past_bounds) ≡ false }
{}

/// A box or a blit is 1 to 32767 wide and high, and a new layer 1 to 65536.
pub fn sizes_have_bounds()
    ensures at { all_fit (calls_with_pairs of_a_size sizes_at_bounds) ≡ true }
    ensures past { some_fits (calls_with_pairs of_a_size sizes_past_bounds) ≡ false }
    ensures made_at { all_fit (calls_with_pairs made_of_a_size made_sizes_at_bounds) ≡ true }
    ensures made_past { some_fits (calls_with_pairs made_of_a_size made_sizes_past_bounds) ≡ false }
{}

/// A pen or a mask is 0 to 255, a mode 0 to 7, a register 0 to 7, and a minterm one of sixteen bytes.
pub fn small_numbers_have_bounds()
    ensures bytes { all_fit (calls_with with_a_byte (0 ∷ 255 ∷ [])) ≡ true }
    ensures no_byte { some_fits (calls_with with_a_byte (256 ∷ [])) ≡ false }
    ensures modes { all_fit (SetMode 0 0 ∷ SetMode 0 7 ∷ []) ≡ true }
    ensures no_mode { some_fits (SetMode 0 8 ∷ []) ≡ false }
    ensures registers { all_fit (calls_with with_a_register (0 ∷ 7 ∷ [])) ≡ true }
    ensures no_register { some_fits (calls_with with_a_register (8 ∷ [])) ≡ false }
    ensures minterms { all_fit (calls_with with_a_minterm minterms) ≡ true }
    ensures no_minterm { some_fits (calls_with with_a_minterm no_minterms) ≡ false }
{}

/// A super-bitmap layer has a bitmap of 1 to 2048 by 1 to 2048 pixels and no hook, and no other layer has one.
pub fn bitmaps_of_layers_have_bounds()
    ensures at { all_fit (calls_with_pairs with_own_bitmap own_sizes_at_bounds) ≡ true }
    ensures past { some_fits (calls_with_pairs with_own_bitmap own_sizes_past_bounds) ≡ false }
    ensures none { some_fits (calls_with_pairs with_a_bitmap_of_none ((1, 0) ∷ (0, 1) ∷ (1, 1) ∷ [])) ≡ false }
    ensures no_hook { some_fits (layer_of (record own_pixel { hook = Some 0 }) ∷
        window_of (record own_pixel { hook = Some 0 }) ∷ []) ≡ false }
{}

/// A window has a set of five classes of messages, and a frame unless it is a super-bitmap layer.
pub fn windows_have_bounds()
    ensures at { all_fit (OpenWindow 0 (box Smart 0 0 9 14) true false 31 [] ∷
        OpenWindow 1 (box Simple 0 0 9 14) true true 0 [] ∷ OpenWindow 0 own_pixel false false 31 [] ∷ []) ≡ true }
    ensures classes { some_fits (OpenWindow 0 (box Smart 0 0 9 14) true false 32 [] ∷
        OpenWindow 0 own_pixel false false 32 [] ∷ []) ≡ false }
    ensures framed { some_fits (OpenWindow 0 own_pixel true false 0 [] ∷ []) ≡ false }
{}
