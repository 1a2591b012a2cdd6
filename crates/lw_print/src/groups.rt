//! The lines that begin and end groups.

ghost use Rattle.std.specs.Prelude.{◌≡◌, ◌++◌, ◌≤◌, ◌<◌, true, length, IfOk, OnOk, Option};
ghost use Rattle.lw_calls.specs.Plan.{groups_fit, group_calls};
ghost use Rattle.lw_canonical.specs.Canonical.{is_update, word_for, opening_lines, closing_lines};
ghost use Rattle.lw_print.specs.Behind.{text_of};
ghost use Rattle.lw_print.specs.Grouping.{word_at, opening_at, closing_at, left_after};

use crate::lines::push_named_line;
use crate::pairs::{push_word_line, word_among};
use lw_calls::{Call, Group, Hold, Pair, Text};
use lw_gzz::GzzWord;
use lw_text_output::{name_of, push_line};
use std::alloc::{AllocError, Global};

/// What is done with a pair by the first of the groups that are left, if it has call `number` and stands for it.
pub fn word_at(
    alloc: Global,
    pairs: &[Pair],
    calls: &[Call],
    left: &[Group],
    number: usize,
) -> Result<Option<(Pair, GzzWord)>, AllocError>
    requires { groups_fit calls.now left.now ≡ true }
    ensures { IfOk result (λ word. word ≡ word_at pairs.now calls.now left.now number) }
{
    match left {
        [group, ..] if group.first as usize <= number && number <= group.last as usize => {
            word_for(alloc, pairs, calls, group)
        }
        _ => Ok(None),
    }
}

/// What is done with a pair by a group, if it stands for it.
fn word_for(
    alloc: Global,
    pairs: &[Pair],
    calls: &[Call],
    group: &Group,
) -> Result<Option<(Pair, GzzWord)>, AllocError>
    requires order { group.now.first ≤ group.now.last }
    requires inside { group.now.last < length calls.now }
    ensures { IfOk result (λ word. word ≡ word_for pairs.now calls.now group.now) }
{
    match group.hold {
        Hold::All => word_among(alloc, pairs, group_calls(calls, group)),
        Hold::Slot(_) => Ok(None),
    }
}

/// The calls of a group.
fn group_calls<'a>(calls: &'a [Call], group: &Group) -> &'a [Call]
    requires order { group.now.first ≤ group.now.last }
    requires inside { group.now.last < length calls.now }
    ensures { result.now ≡ group_calls calls.now group.now }
{
    &calls[group.first as usize..group.last as usize + 1]
}

/// Writes the line that begins the first of the groups that are left, where it begins at call `number` and is no update: that
/// of what is done with a pair, where it stands for that. `names` has the layers' names by slot.
pub fn push_opening(
    alloc: Global,
    out: &mut Vec<u8>,
    names: &[Text],
    calls: &[Call],
    left: &[Group],
    number: usize,
    word: &Option<(Pair, GzzWord)>,
) -> Result<(), AllocError>
    ensures { OnOk result (out.new.items ≡ out.old.items ++ text_of (opening_at names.now calls.now left.now number word.now)) }
{
    match left {
        [group, ..] if group.first as usize == number => match word {
            Some((pair, word)) => push_word_line(alloc, out, names, pair, word),
            None => push_opening_line(out, names, group.hold, is_update(calls, group)),
        },
        _ => Ok(()),
    }
}

/// Writes the line that ends the first of the groups that are left, where it ends at call `number`, is no update and stands for
/// nothing that is done with a pair.
pub fn push_closing(
    out: &mut Vec<u8>,
    names: &[Text],
    calls: &[Call],
    left: &[Group],
    number: usize,
    word: &Option<(Pair, GzzWord)>,
) -> Result<(), AllocError>
    ensures { OnOk result (out.new.items ≡ out.old.items ++ text_of (closing_at names.now calls.now left.now number word.now)) }
{
    match left {
        [group, ..] if group.last as usize == number && word.is_none() => {
            push_closing_line(out, names, group.hold, is_update(calls, group))
        }
        _ => Ok(()),
    }
}

/// The groups that are left after call `number`, of those that were left before it.
pub fn groups_behind(left: &[Group], number: usize) -> &[Group]
    ensures { result.now ≡ left_after left.now number }
{
    match left {
        [group, others @ ..] if group.last as usize == number => others,
        _ => left,
    }
}

/// Whether the group is an update.
fn is_update(calls: &[Call], group: &Group) -> bool
    ensures { result ≡ is_update calls.now group.now }
{
    matches!(
        calls.get(group.first as usize),
        Some(Call::BeginRefresh { .. })
    )
}

/// Writes the line that begins a group, and nothing for an update, whose first call begins it.
fn push_opening_line(
    out: &mut Vec<u8>,
    names: &[Text],
    hold: Hold,
    updating: bool,
) -> Result<(), AllocError>
    ensures { OnOk result (out.new.items ≡ out.old.items ++ text_of (opening_lines names.now hold updating)) }
{
    match hold {
        Hold::All => push_line(out, b"hold"),
        Hold::Slot(_) if updating => Ok(()),
        Hold::Slot(slot) => push_named_line(out, b"lock", name_of(names, slot as usize)),
    }
}

/// Writes the line that ends a group, and nothing for an update, whose last call ends it.
fn push_closing_line(
    out: &mut Vec<u8>,
    names: &[Text],
    hold: Hold,
    updating: bool,
) -> Result<(), AllocError>
    ensures { OnOk result (out.new.items ≡ out.old.items ++ text_of (closing_lines names.now hold updating)) }
{
    match hold {
        Hold::All => push_line(out, b"release"),
        Hold::Slot(_) if updating => Ok(()),
        Hold::Slot(slot) => push_named_line(out, b"unlock", name_of(names, slot as usize)),
    }
}
