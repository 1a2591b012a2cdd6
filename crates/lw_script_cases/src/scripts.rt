//! First bad lines of whole scripts with their first reasons, and scripts without one.

ghost use Rattle.lw_grammar.specs.declared.reason.Reason.TheVariants.{LineTooLong, BadByte, Spacing, Quote, UnknownWord};
ghost use Rattle.lw_grammar.specs.declared.reason.Reason.TheVariants.{Misplaced, Form as FormReason, Range, NoName, DoubleName};
ghost use Rattle.lw_grammar.specs.declared.reason.Reason.TheVariants.{Group, TooMany, NoHook, Padding, Missing};
ghost use Rattle.lw_grammar.specs.Lines.{lines};
ghost use Rattle.lw_grammar.specs.Script.{SpellsInput, IsFirstBadIn};
ghost use Rattle.lw_script_cases.specs.WholeScripts.{IsSpelled, alone, with_order, with_report};
ghost use Rattle.lw_script_cases.specs.WholeScripts.{first_fill_script, first_fill_input, all_parts, hook_0_of_none, simple_layer};
ghost use Rattle.lw_script_cases.specs.WholeScripts.{comment_in_task, two_spaces, word_after_end, task_missing, line_feed};
ghost use Rattle.lw_script_cases.specs.WholeScripts.{empty, carriage_return, one_space, long_comment, line_of_512, line_of_513};
ghost use Rattle.lw_script_cases.specs.WholeScripts.{second_task, second_task_apart, task_in_task, text_with_spaces};
ghost use Rattle.lw_script_cases.specs.WholeScripts.{text_then_space, text_then_word, space_before_text, spaces_before_quote};
ghost use Rattle.lw_script_cases.specs.WholeScripts.{quote_in_word, quote_alone, space_at_end, text_as_verb, empty_text};
ghost use Rattle.lw_script_cases.specs.WholeScripts.{text_as_row, row, row_too_short, row_of_32, padding_bit, rows_apart};
ghost use Rattle.lw_script_cases.specs.WholeScripts.{rows_missing, row_in_capitals, bitmap_again, bitmap_of_9_planes};
ghost use Rattle.lw_script_cases.specs.WholeScripts.{bitmap_without_columns, glyph_in_capitals, glyph_of_7f, glyph_again};
ghost use Rattle.lw_script_cases.specs.WholeScripts.{glyph_too_short, order_in_plain, order_before_task, order_in_task};
ghost use Rattle.lw_script_cases.specs.WholeScripts.{order_again, order_missing, numbers_64, numbers_65, number_16};
ghost use Rattle.lw_script_cases.specs.WholeScripts.{number_below_0, no_numbers, order_in_audited, report, report_missing};
ghost use Rattle.lw_script_cases.specs.WholeScripts.{report_in_task, unlock_between, endrefresh_between, form_before_range};
ghost use Rattle.lw_script_cases.specs.WholeScripts.{number_too_large, number_of_101_digits, maximum_below_minimum};
ghost use Rattle.lw_script_cases.specs.WholeScripts.{leading_zero, minus_zero, negative_number, hook_above_32_bits};
ghost use Rattle.lw_script_cases.specs.WholeScripts.{hook_below_0, hook_2_of_2, hook_1_of_2, hook_of_super, super_backdrop};
ghost use Rattle.lw_script_cases.specs.WholeScripts.{super_of_2049, hook_before_backdrop, open_with_all, open_out_of_order};
ghost use Rattle.lw_script_cases.specs.WholeScripts.{set_out_of_order, set_with_one_twice, super_borderless, super_with_set};
ghost use Rattle.lw_script_cases.specs.WholeScripts.{open_of_no_columns, bitmap_unknown, minterm_c1, minterm_in_capitals};
ghost use Rattle.lw_script_cases.specs.WholeScripts.{put_of_a_bitmap, put_of_no_columns, lock_of_nothing, lock_of_a_fill};
ghost use Rattle.lw_script_cases.specs.WholeScripts.{lock_of_another, lock_in_lock, hold_in_lock, end_in_lock, end_with_a_word};
ghost use Rattle.lw_script_cases.specs.WholeScripts.{unlock_of_another, unlock_alone, which_in_lock, region_in_lock};
ghost use Rattle.lw_script_cases.specs.WholeScripts.{blit_in_lock, blit_of_two_in_lock, refresh_in_lock, endrefresh_in_lock};
ghost use Rattle.lw_script_cases.specs.WholeScripts.{endrefresh_alone, endrefresh_fully, update_of_a_fill, update_of_nothing};
ghost use Rattle.lw_script_cases.specs.WholeScripts.{update_in_update, update_without_end, create_in_lock, hold_of_a_create};
ghost use Rattle.lw_script_cases.specs.WholeScripts.{hold_of_nothing, fill_in_hold, which_in_hold, move_in_hold, release_alone};
ghost use Rattle.lw_script_cases.specs.WholeScripts.{creations, arrangements, arrangements_in_hold, look_and_scroll};
ghost use Rattle.lw_script_cases.specs.WholeScripts.{scroll_in_lock, raster_changes, drawing, drawing_in_lock};
ghost use Rattle.lw_script_cases.specs.WholeScripts.{layer_named_front, name_of_16, name_of_17, name_with_underscore};
ghost use Rattle.lw_script_cases.specs.WholeScripts.{name_from_a_digit, screen_of_1025, screen_again, task_before_screen};
ghost use Rattle.lw_script_cases.specs.WholeScripts.{end_before_task, end_missing, two_tasks, task_again, verb_in_capitals};
ghost use Rattle.lw_script_cases.specs.WholeScripts.{mode_8, mask_256, mask_255, register_8, regions_joined, names_64};
ghost use Rattle.lw_script_cases.specs.WholeScripts.{names_65, names_65_by_blit, unlock_before_65, supers_16, supers_17};
ghost use Rattle.lw_script_cases.specs.WholeScripts.{bitmaps_17, tasks_17, screened, plus_sign, zeros_before_7};
ghost use Rattle.lw_script_cases.specs.WholeScripts.{maximum_of_5_below_9, maximum_of_40000, zero_apart, text_before_a_word};
ghost use Rattle.lw_script_cases.specs.WholeScripts.{unknown_verb, glyph_in_task, blit_by_c1, put_without_bitmap};
ghost use Rattle.lw_script_cases.specs.WholeScripts.{unlock_at_once, hook_6, lock_and_unlock};
ghost use Rattle.lw_script_cases.specs.CanonicalTexts.{three_tasks_text, three_tasks_input};

/// The script of the first fill spells its plan.
pub fn first_fill_is_spelled()
    ensures { SpellsInput (alone 0) first_fill_script first_fill_input }
{}

/// The canonical text of three tasks is a script alone that spells their plan.
pub fn three_tasks_are_spelled()
    ensures { SpellsInput (alone 6) three_tasks_text three_tasks_input }
{}

/// Lines, words and texts.
pub fn lines_and_words()
    ensures line_feed { IsFirstBadIn (alone 0) (lines line_feed) 2 Missing }
    ensures empty { IsFirstBadIn (alone 0) (lines empty) 1 Missing }
    ensures carriage_return { IsFirstBadIn (alone 0) (lines carriage_return) 1 BadByte }
    ensures one_space { IsFirstBadIn (alone 0) (lines one_space) 1 Spacing }
    ensures long_comment { IsSpelled (alone 0) long_comment }
    ensures comment_in_task { IsFirstBadIn (alone 0) (lines comment_in_task) 4 Missing }
    ensures line_of_512 { IsFirstBadIn (alone 0) (lines line_of_512) 3 UnknownWord }
    ensures line_of_513 { IsFirstBadIn (alone 0) (lines line_of_513) 3 LineTooLong }
    ensures second_task { IsFirstBadIn (alone 0) (lines second_task) 4 FormReason }
    ensures second_task_apart { IsFirstBadIn (alone 0) (lines second_task_apart) 4 Spacing }
    ensures word_after_end { IsFirstBadIn (alone 0) (lines word_after_end) 4 UnknownWord }
    ensures task_in_task { IsFirstBadIn (alone 0) (lines task_in_task) 3 Misplaced }
    ensures text_with_spaces { IsFirstBadIn (alone 0) (lines text_with_spaces) 4 Quote }
    ensures text_then_space { IsFirstBadIn (alone 0) (lines text_then_space) 4 Quote }
    ensures text_then_word { IsFirstBadIn (alone 0) (lines text_then_word) 4 Quote }
    ensures space_before_text { IsFirstBadIn (alone 0) (lines space_before_text) 4 Spacing }
    ensures spaces_before_quote { IsFirstBadIn (alone 0) (lines spaces_before_quote) 4 Spacing }
    ensures quote_in_word { IsFirstBadIn (alone 0) (lines quote_in_word) 4 Quote }
    ensures quote_alone { IsFirstBadIn (alone 0) (lines quote_alone) 4 Quote }
    ensures two_spaces { IsFirstBadIn (alone 0) (lines two_spaces) 4 Spacing }
    ensures space_at_end { IsFirstBadIn (alone 0) (lines space_at_end) 4 Spacing }
    ensures text_as_verb { IsFirstBadIn (alone 0) (lines text_as_verb) 4 UnknownWord }
    ensures empty_text { IsSpelled (alone 0) empty_text }
    ensures text_as_row { IsFirstBadIn (alone 0) (lines text_as_row) 3 FormReason }
{}

/// Bitmaps, their rows, and glyphs.
pub fn rows_and_glyphs()
    ensures row { IsSpelled (alone 0) row }
    ensures row_too_short { IsFirstBadIn (alone 0) (lines row_too_short) 3 FormReason }
    ensures row_of_32 { IsSpelled (alone 0) row_of_32 }
    ensures padding_bit { IsFirstBadIn (alone 0) (lines padding_bit) 3 Padding }
    ensures rows_apart { IsFirstBadIn (alone 0) (lines rows_apart) 8 FormReason }
    ensures rows_missing { IsFirstBadIn (alone 0) (lines rows_missing) 4 Missing }
    ensures row_in_capitals { IsFirstBadIn (alone 0) (lines row_in_capitals) 3 FormReason }
    ensures bitmap_again { IsFirstBadIn (alone 0) (lines bitmap_again) 4 DoubleName }
    ensures bitmap_of_9_planes { IsFirstBadIn (alone 0) (lines bitmap_of_9_planes) 2 Range }
    ensures bitmap_without_columns { IsFirstBadIn (alone 0) (lines bitmap_without_columns) 2 Range }
    ensures glyph_in_capitals { IsFirstBadIn (alone 0) (lines glyph_in_capitals) 2 FormReason }
    ensures glyph_of_7f { IsFirstBadIn (alone 0) (lines glyph_of_7f) 2 Range }
    ensures glyph_again { IsFirstBadIn (alone 0) (lines glyph_again) 3 DoubleName }
    ensures glyph_too_short { IsFirstBadIn (alone 0) (lines glyph_too_short) 2 FormReason }
{}

/// Orders and reports.
pub fn orders_and_reports()
    ensures order_in_plain { IsFirstBadIn (alone 0) (lines order_in_plain) 4 Misplaced }
    ensures order_before_task { IsFirstBadIn (with_order 0) (lines order_before_task) 2 Misplaced }
    ensures order_in_task { IsFirstBadIn (with_order 0) (lines order_in_task) 3 Misplaced }
    ensures order_again { IsFirstBadIn (with_order 0) (lines order_again) 5 FormReason }
    ensures order_missing { IsFirstBadIn (with_order 0) (lines order_missing) 4 Missing }
    ensures numbers_64 { IsSpelled (with_order 0) numbers_64 }
    ensures numbers_65 { IsFirstBadIn (with_order 0) (lines numbers_65) 5 FormReason }
    ensures number_16 { IsFirstBadIn (with_order 0) (lines number_16) 5 Range }
    ensures number_below_0 { IsFirstBadIn (with_order 0) (lines number_below_0) 5 Range }
    ensures no_numbers { IsSpelled (with_order 0) no_numbers }
    ensures order_in_audited { IsFirstBadIn (with_report 0) (lines order_in_audited) 4 Misplaced }
    ensures report { IsSpelled (with_report 0) report }
    ensures report_missing { IsFirstBadIn (with_report 0) (lines report_missing) 4 Missing }
    ensures report_in_task { IsFirstBadIn (with_report 0) (lines report_in_task) 3 Misplaced }
    ensures unlock_between { IsFirstBadIn (alone 0) (lines unlock_between) 4 Misplaced }
    ensures endrefresh_between { IsFirstBadIn (alone 0) (lines endrefresh_between) 4 Misplaced }
{}

/// Numbers and their ranges.
pub fn numbers_and_ranges()
    ensures form_before_range { IsFirstBadIn (alone 0) (lines form_before_range) 4 FormReason }
    ensures number_too_large { IsFirstBadIn (alone 0) (lines number_too_large) 4 Range }
    ensures number_of_101_digits { IsFirstBadIn (alone 0) (lines number_of_101_digits) 4 Range }
    ensures maximum_below_minimum { IsFirstBadIn (alone 0) (lines maximum_below_minimum) 4 Range }
    ensures leading_zero { IsFirstBadIn (alone 0) (lines leading_zero) 4 FormReason }
    ensures minus_zero { IsFirstBadIn (alone 0) (lines minus_zero) 4 FormReason }
    ensures negative_number { IsSpelled (alone 0) negative_number }
{}

/// Layers and windows with their optional words, and hooks.
pub fn layers_and_windows()
    ensures hook_above_32_bits { IsFirstBadIn (alone 2) (lines hook_above_32_bits) 3 Range }
    ensures hook_below_0 { IsFirstBadIn (alone 2) (lines hook_below_0) 3 Range }
    ensures hook_0_of_none { IsFirstBadIn (alone 0) (lines hook_0_of_none) 3 NoHook }
    ensures simple_layer { IsSpelled (alone 0) simple_layer }
    ensures hook_2_of_2 { IsFirstBadIn (alone 2) (lines hook_2_of_2) 3 NoHook }
    ensures hook_1_of_2 { IsSpelled (alone 2) hook_1_of_2 }
    ensures hook_of_super { IsFirstBadIn (alone 2) (lines hook_of_super) 3 FormReason }
    ensures super_backdrop { IsSpelled (alone 2) super_backdrop }
    ensures super_of_2049 { IsFirstBadIn (alone 2) (lines super_of_2049) 3 Range }
    ensures hook_before_backdrop { IsFirstBadIn (alone 2) (lines hook_before_backdrop) 3 FormReason }
    ensures open_with_all { IsSpelled (alone 2) open_with_all }
    ensures open_out_of_order { IsFirstBadIn (alone 2) (lines open_out_of_order) 3 FormReason }
    ensures set_out_of_order { IsFirstBadIn (alone 2) (lines set_out_of_order) 3 FormReason }
    ensures set_with_one_twice { IsFirstBadIn (alone 2) (lines set_with_one_twice) 3 FormReason }
    ensures super_borderless { IsFirstBadIn (alone 2) (lines super_borderless) 3 FormReason }
    ensures super_with_set { IsSpelled (alone 2) super_with_set }
    ensures open_of_no_columns { IsFirstBadIn (alone 2) (lines open_of_no_columns) 3 Range }
{}

/// Bitmaps that a call names.
pub fn bitmaps_and_minterms()
    ensures bitmap_unknown { IsFirstBadIn (alone 0) (lines bitmap_unknown) 4 NoName }
    ensures minterm_c1 { IsFirstBadIn (alone 0) (lines minterm_c1) 4 FormReason }
    ensures minterm_in_capitals { IsFirstBadIn (alone 0) (lines minterm_in_capitals) 4 FormReason }
    ensures put_of_a_bitmap { IsSpelled (alone 0) put_of_a_bitmap }
    ensures put_of_no_columns { IsFirstBadIn (alone 0) (lines put_of_no_columns) 5 Range }
{}

/// Groups of calls.
pub fn groups_of_calls()
    ensures lock_of_nothing { IsFirstBadIn (alone 0) (lines lock_of_nothing) 5 Group }
    ensures lock_of_a_fill { IsSpelled (alone 0) lock_of_a_fill }
    ensures lock_of_another { IsFirstBadIn (alone 0) (lines lock_of_another) 5 Group }
    ensures lock_in_lock { IsFirstBadIn (alone 0) (lines lock_in_lock) 5 Group }
    ensures hold_in_lock { IsFirstBadIn (alone 0) (lines hold_in_lock) 5 Group }
    ensures end_in_lock { IsFirstBadIn (alone 0) (lines end_in_lock) 6 Group }
    ensures end_with_a_word { IsFirstBadIn (alone 0) (lines end_with_a_word) 6 FormReason }
    ensures unlock_of_another { IsFirstBadIn (alone 0) (lines unlock_of_another) 6 Group }
    ensures unlock_alone { IsFirstBadIn (alone 0) (lines unlock_alone) 4 Group }
    ensures which_in_lock { IsFirstBadIn (alone 0) (lines which_in_lock) 5 Group }
    ensures region_in_lock { IsFirstBadIn (alone 0) (lines region_in_lock) 5 Group }
    ensures blit_in_lock { IsSpelled (alone 0) blit_in_lock }
    ensures blit_of_two_in_lock { IsFirstBadIn (alone 0) (lines blit_of_two_in_lock) 5 Group }
    ensures refresh_in_lock { IsFirstBadIn (alone 0) (lines refresh_in_lock) 5 Group }
    ensures endrefresh_in_lock { IsFirstBadIn (alone 0) (lines endrefresh_in_lock) 5 Group }
    ensures endrefresh_alone { IsFirstBadIn (alone 0) (lines endrefresh_alone) 4 Group }
    ensures endrefresh_fully { IsFirstBadIn (alone 0) (lines endrefresh_fully) 4 FormReason }
    ensures update_of_a_fill { IsSpelled (alone 0) update_of_a_fill }
    ensures update_of_nothing { IsSpelled (alone 0) update_of_nothing }
    ensures update_in_update { IsFirstBadIn (alone 0) (lines update_in_update) 5 Group }
    ensures update_without_end { IsFirstBadIn (alone 0) (lines update_without_end) 6 Group }
    ensures create_in_lock { IsFirstBadIn (alone 0) (lines create_in_lock) 5 Group }
    ensures hold_of_a_create { IsSpelled (alone 0) hold_of_a_create }
    ensures hold_of_nothing { IsFirstBadIn (alone 0) (lines hold_of_nothing) 5 Group }
    ensures fill_in_hold { IsFirstBadIn (alone 0) (lines fill_in_hold) 5 Group }
    ensures which_in_hold { IsFirstBadIn (alone 0) (lines which_in_hold) 5 Group }
    ensures move_in_hold { IsSpelled (alone 0) move_in_hold }
    ensures release_alone { IsFirstBadIn (alone 0) (lines release_alone) 4 Group }
{}

/// Layers of each kind and place, each arrangement of one, alone and in a hold, the look at a place, and the scroll of a layer.
pub fn layers_are_arranged()
    ensures creations { IsSpelled (alone 0) creations }
    ensures arrangements { IsSpelled (alone 0) arrangements }
    ensures arrangements_in_hold { IsSpelled (alone 0) arrangements_in_hold }
    ensures look_and_scroll { IsSpelled (alone 0) look_and_scroll }
    ensures scroll_in_lock { IsSpelled (alone 0) scroll_in_lock }
{}

/// Pens, modes, masks and cursors, and the calls that draw with them or read a pixel, alone and in a lock, each number at both
/// ends of its range.
pub fn layers_are_drawn_on()
    ensures raster_changes { IsSpelled (alone 0) raster_changes }
    ensures drawing { IsSpelled (alone 0) drawing }
    ensures drawing_in_lock { IsSpelled (alone 0) drawing_in_lock }
{}

/// Names, and the parts of a script.
pub fn names_and_parts()
    ensures layer_named_front { IsSpelled (alone 0) layer_named_front }
    ensures name_of_16 { IsSpelled (alone 0) name_of_16 }
    ensures name_of_17 { IsFirstBadIn (alone 0) (lines name_of_17) 3 FormReason }
    ensures name_with_underscore { IsSpelled (alone 0) name_with_underscore }
    ensures name_from_a_digit { IsFirstBadIn (alone 0) (lines name_from_a_digit) 3 FormReason }
    ensures screen_of_1025 { IsFirstBadIn (alone 0) (lines screen_of_1025) 1 Range }
    ensures screen_again { IsFirstBadIn (alone 0) (lines screen_again) 2 Misplaced }
    ensures task_before_screen { IsFirstBadIn (alone 0) (lines task_before_screen) 1 Misplaced }
    ensures end_before_task { IsFirstBadIn (alone 0) (lines end_before_task) 2 Misplaced }
    ensures all_parts { IsSpelled (alone 0) all_parts }
    ensures task_missing { IsFirstBadIn (alone 0) (lines task_missing) 2 Missing }
    ensures end_missing { IsFirstBadIn (alone 0) (lines end_missing) 3 Missing }
    ensures two_tasks { IsSpelled (with_order 0) two_tasks }
    ensures task_again { IsFirstBadIn (with_order 0) (lines task_again) 4 DoubleName }
    ensures verb_in_capitals { IsFirstBadIn (alone 0) (lines verb_in_capitals) 3 UnknownWord }
{}

/// Ranges of small numbers, and limits of counts.
pub fn limits_of_counts()
    ensures mode_8 { IsFirstBadIn (alone 0) (lines mode_8) 4 Range }
    ensures mask_256 { IsFirstBadIn (alone 0) (lines mask_256) 4 Range }
    ensures mask_255 { IsSpelled (alone 0) mask_255 }
    ensures register_8 { IsFirstBadIn (alone 0) (lines register_8) 4 Range }
    ensures regions_joined { IsFirstBadIn (alone 0) (lines regions_joined) 5 Missing }
    ensures names_64 { IsSpelled (alone 0) names_64 }
    ensures names_65 { IsFirstBadIn (alone 0) (lines names_65) 67 TooMany }
    ensures names_65_by_blit { IsFirstBadIn (alone 0) (lines names_65_by_blit) 67 TooMany }
    ensures unlock_before_65 { IsFirstBadIn (alone 0) (lines unlock_before_65) 67 Group }
    ensures supers_16 { IsSpelled (alone 0) supers_16 }
    ensures supers_17 { IsFirstBadIn (alone 0) (lines supers_17) 19 TooMany }
    ensures bitmaps_17 { IsFirstBadIn (alone 0) (lines bitmaps_17) 34 TooMany }
    ensures tasks_17 { IsFirstBadIn (with_order 0) (lines tasks_17) 34 TooMany }
{}

/// A task whose third or fourth line is refused, and inputs without a task.
pub fn stated_refusals()
    ensures plus_sign { IsFirstBadIn (alone 0) (lines plus_sign) 3 FormReason }
    ensures zeros_before_7 { IsFirstBadIn (alone 0) (lines zeros_before_7) 3 FormReason }
    ensures maximum_of_5_below_9 { IsFirstBadIn (alone 0) (lines maximum_of_5_below_9) 3 Range }
    ensures maximum_of_40000 { IsFirstBadIn (alone 0) (lines maximum_of_40000) 3 Range }
    ensures zero_apart { IsFirstBadIn (alone 0) (lines zero_apart) 3 Spacing }
    ensures text_before_a_word { IsFirstBadIn (alone 0) (lines text_before_a_word) 3 Quote }
    ensures unknown_verb { IsFirstBadIn (alone 0) (lines unknown_verb) 3 UnknownWord }
    ensures glyph_in_task { IsFirstBadIn (alone 0) (lines glyph_in_task) 3 Misplaced }
    ensures blit_by_c1 { IsFirstBadIn (alone 0) (lines blit_by_c1) 3 FormReason }
    ensures put_without_bitmap { IsFirstBadIn (alone 0) (lines put_without_bitmap) 3 NoName }
    ensures unlock_at_once { IsFirstBadIn (alone 0) (lines unlock_at_once) 3 Group }
    ensures hook_6 { IsFirstBadIn (alone 0) (lines hook_6) 3 NoHook }
    ensures lock_and_unlock { IsFirstBadIn (alone 0) (lines lock_and_unlock) 4 Group }
    ensures hook_6_of_6 { IsFirstBadIn (alone 6) (lines hook_6) 3 NoHook }
    ensures task_missing { IsFirstBadIn (alone 0) (lines screened) 2 Missing }
    ensures screen_missing { IsFirstBadIn (alone 0) (lines empty) 1 Missing }
{}
