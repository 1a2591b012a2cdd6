//! Windows of two layers: what a line does with one, tested by what was read so far.
ghost use Rattle.std.specs.Prelude.{◌≡◌, ◌+◌, ◌∷◌, [], nat_le, length, map, is_none, bytes_eq};
ghost use Rattle.std.specs.List.{list_any};
ghost use Rattle.lw_calls.specs.Limits.{limits_of};
ghost use Rattle.lw_grammar.specs.Statements.{GzzLine};
ghost use Rattle.lw_grammar.specs.Told.{and_name, and_names, inner_of, inner_by, pair_lines, stands_for, told_all};
ghost use Rattle.lw_grammar.specs.Script.{super_limit, are_few, is_outer, is_inner, is_paired, parts_pair};
ghost use Rattle.lw_grammar.specs.Script.{stands_above, lacks_pair, names_again, comes_between, gzz_tested};
ghost use Rattle.lw_statements.specs.StatementMeaning.{layers_meaning, statement_meaning, gzz_meaning};
ghost use Rattle.lw_line_demands.specs.AreasRead.{ReadsBelow, if_passed};
ghost use Rattle.lw_reader.specs.LinesRead.{opened_lines};
ghost use Rattle.lw_line_demands.specs.GzzRead.{gzz_names, gzz_supers, gzz_count, with_gzz, PassesGzz};
ghost use Rattle.lw_reader.specs.ReaderKnows.{known, pair_meaning, setting_of};

use crate::tested::{BITMAP_LIMIT, PATTERN_LIMIT, SUPER_LIMIT, TASK_LIMIT, with_two};
use lw_calls::{Kind, limits_of};
use lw_grammar::Reason;
use lw_reader::{NamedPair, ReadLine, Reader, has_name};
use lw_statements::{GzzAct, Layers, Statement, gzz_statements};
use lw_words::{Stop, is_text};
use std::alloc::Global;

fn has_outer(pairs: &[NamedPair<'_>], name: &[u8]) -> bool
    ensures { result ≡ list_any (λ p. bytes_eq name.now p.outer.now) pairs.now }
{
    pairs.iter().any(|pair| is_text(name, pair.outer))
}

fn has_inner(pairs: &[NamedPair<'_>], name: &[u8]) -> bool
    ensures { result ≡ list_any (λ p. bytes_eq name.now p.inner.now) pairs.now }
{
    pairs.iter().any(|pair| is_text(name, pair.inner))
}

/// The inner layer of the window with this outer one, or an empty name where there is none.
fn inner_of<'a>(pairs: &[NamedPair<'a>], name: &[u8]) -> &'a [u8]
    ensures { result.now ≡ inner_of (map pair_meaning pairs.now) name.now }
{
    for pair in pairs {
        if is_text(name, pair.outer) {
            return pair.inner;
        }
    }
    b""
}

/// The window that a line opens.
fn opened<'a>(outer: &'a [u8], act: &GzzAct<'a>) -> Option<NamedPair<'a>>
    ensures { opened_lines result ≡ pair_lines outer.entry.now (gzz_meaning act.now) }
{
    match act {
        GzzAct::Open { inner, .. } => Some(NamedPair {
            outer,
            inner: *inner,
        }),
        _ => None,
    }
}

fn is_outer(reader: &Reader<'_>, name: &[u8]) -> bool
    ensures { result ≡ is_outer (known reader.now).pairs name.now }
{
    has_outer(reader.tasks.pairs.as_slice(), name)
}

fn is_inner(reader: &Reader<'_>, name: &[u8]) -> bool
    ensures { result ≡ is_inner (known reader.now).pairs name.now }
{
    has_inner(reader.tasks.pairs.as_slice(), name)
}

fn is_paired(reader: &Reader<'_>, name: &[u8]) -> bool
    ensures { result ≡ is_paired (known reader.now).pairs name.now }
{
    is_outer(reader, name) || is_inner(reader, name)
}

fn names_paired<'a>(reader: &Reader<'a>, layers: &Layers<'a>) -> bool
    ensures { result ≡ list_any (is_paired (known reader.now).pairs) (layers_meaning layers.now) }
{
    match layers {
        Layers::Nothing => false,
        Layers::One(first) => is_paired(reader, *first),
        Layers::Two(first, second) => is_paired(reader, *first) || is_paired(reader, *second),
    }
}

fn names_inner<'a>(reader: &Reader<'a>, layers: &Layers<'a>) -> bool
    ensures { result ≡ list_any (is_inner (known reader.now).pairs) (layers_meaning layers.now) }
{
    match layers {
        Layers::Nothing => false,
        Layers::One(first) => is_inner(reader, *first),
        Layers::Two(first, second) => is_inner(reader, *first) || is_inner(reader, *second),
    }
}

/// Whether the line would part a window of two layers.
pub(crate) fn parts_pair<'a>(reader: &Reader<'a>, statement: &Statement<'a>) -> bool
    ensures { result ≡ parts_pair (known reader.now).pairs (statement_meaning statement.now) }
{
    match statement {
        Statement::Call { layers, act } => {
            (act.is_placing() && names_paired(reader, layers))
                || (act.is_activating() && names_inner(reader, layers))
        }
        _ => false,
    }
}

/// Whether it isn't the outer layer of a window that a line above opened, and is to be.
fn lacks_pair<'a>(reader: &Reader<'a>, outer: &[u8], act: &GzzAct<'a>) -> bool
    ensures { result ≡ lacks_pair (known reader.now).pairs outer.now (gzz_meaning act.now) }
{
    match act {
        GzzAct::Open { .. } => false,
        _ => !is_outer(reader, outer),
    }
}

/// Whether the name stands on a line above.
fn stands_above<'a>(reader: &Reader<'a>, name: &&'a [u8]) -> bool
    ensures { result ≡ stands_above (known reader.now) name.now.now }
{
    has_name(&reader.tasks.layer_names, name) || has_name(&reader.tasks.names_without_slot, name)
}

/// Whether a name of a window that is opened stands above, or both are one.
fn names_again<'a>(reader: &Reader<'a>, outer: &&'a [u8], act: &GzzAct<'a>) -> bool
    ensures { result ≡ names_again (known reader.now) outer.now.now (gzz_meaning act.now) }
{
    match act {
        GzzAct::Open { inner, .. } => {
            (stands_above(reader, outer) || stands_above(reader, inner)) || is_text(*outer, *inner)
        }
        _ => false,
    }
}

/// Whether the window would come between the two layers of another one.
fn comes_between<'a>(reader: &Reader<'a>, act: &GzzAct<'a>) -> bool
    ensures { result ≡ comes_between (known reader.now).pairs (gzz_meaning act.now) }
{
    match act {
        GzzAct::InFront(other) => is_outer(reader, *other),
        _ => false,
    }
}

/// The inner layer of the window.
fn inner_by<'a>(reader: &Reader<'a>, outer: &[u8], act: &GzzAct<'a>) -> &'a [u8]
    ensures { result.now ≡ inner_by (known reader.now).pairs outer.now (gzz_meaning act.now) }
{
    match act {
        GzzAct::Open { inner, .. } => *inner,
        _ => inner_of(reader.tasks.pairs.as_slice(), outer),
    }
}

/// Whether no group is open.
fn is_free(reader: &Reader<'_>) -> bool
    ensures { result ≡ is_none (known reader.now).group }
{
    match &reader.tasks.group {
        None => true,
        Some(_) => false,
    }
}

/// Whether the name is a layer's, or one of these two.
fn is_named<'a>(reader: &Reader<'a>, name: &&'a [u8], first: &&'a [u8], second: &&'a [u8]) -> bool
    ensures { result ≡ list_any (bytes_eq name.now.now)
        (and_name (and_name (known reader.now).names first.now.now) second.now.now) }
{
    if has_name(&reader.tasks.layer_names, name) {
        return true;
    }
    if is_text(*name, *first) {
        return true;
    }
    is_text(*name, *second)
}

/// Whether there are no more layer names than this with these three.
fn has_room_for_three<'a>(
    reader: &Reader<'a>,
    first: &&'a [u8],
    second: &&'a [u8],
    third: &&'a [u8],
    names: u32,
) -> bool
    ensures { result ≡ nat_le (length (and_names (known reader.now).names
        (first.now.now ∷ second.now.now ∷ third.now.now ∷ []))) names }
{
    let two = with_two(reader, first, second);
    if is_named(reader, third, first, second) {
        two <= names as usize
    } else {
        two < names as usize
    }
}

/// Whether there are no more layer names than this with those of a window's calls.
fn has_room_for_both<'a>(
    reader: &Reader<'a>,
    outer: &&'a [u8],
    inner: &&'a [u8],
    act: &GzzAct<'a>,
    names: u32,
) -> bool
    ensures { result ≡ nat_le (length (and_names (known reader.now).names
        (gzz_names outer.now.now inner.now.now (gzz_meaning act.now)))) names }
{
    match act {
        GzzAct::Behind => with_two(reader, inner, outer) <= names as usize,
        GzzAct::InFront(other) => has_room_for_three(reader, outer, other, inner, names),
        _ => with_two(reader, outer, inner) <= names as usize,
    }
}

/// Whether an inner layer that is opened isn't one super-bitmap layer too many.
fn has_room_for_inner<'a>(reader: &Reader<'a>, act: &GzzAct<'a>) -> bool
    ensures { result ≡ nat_le (gzz_supers (gzz_meaning act.now) (known reader.now).supers) super_limit }
{
    match act {
        GzzAct::Open { kind, .. } => match kind {
            Kind::SuperBitmap => reader.tasks.supers < SUPER_LIMIT,
            Kind::Simple | Kind::Smart => reader.tasks.supers <= SUPER_LIMIT,
        },
        _ => reader.tasks.supers <= SUPER_LIMIT,
    }
}

/// Whether a task may have a window's calls beside those that it has, where it may have so many.
fn has_room_for_calls<'a>(reader: &Reader<'a>, act: &GzzAct<'a>, calls: u32) -> bool
    ensures { result ≡ nat_le ((known reader.now).calls_in_task + gzz_count (gzz_meaning act.now)) calls }
{
    match act {
        GzzAct::Open { .. } => u64::from(reader.tasks.calls_in_task) + 3 <= u64::from(calls),
        _ => u64::from(reader.tasks.calls_in_task) + 2 <= u64::from(calls),
    }
}

/// Whether nothing is one too many with the calls of a window of these two layers.
fn has_room_with<'a>(
    reader: &Reader<'a>,
    outer: &&'a [u8],
    inner: &&'a [u8],
    act: &GzzAct<'a>,
) -> bool
    ensures { result ≡ are_few (limits_of reader.now.version)
        (with_gzz (known reader.now) outer.now.now inner.now.now (gzz_meaning act.now)) }
{
    let limits = limits_of(reader.version);
    ((reader.tasks.task_names.len() <= TASK_LIMIT
        && (reader.assets.names.len() <= BITMAP_LIMIT
            && reader.assets.pattern_names.len() <= PATTERN_LIMIT))
        && has_room_for_both(reader, outer, inner, act, limits.names))
        && (has_room_for_inner(reader, act) && has_room_for_calls(reader, act, limits.calls))
}

/// The same of what is done with the window of which this is the outer layer.
fn has_room_for_gzz<'a>(reader: &Reader<'a>, outer: &&'a [u8], act: &GzzAct<'a>) -> bool
    ensures { result ≡ are_few (limits_of reader.now.version)
        (told_all (stands_for (known reader.now) (GzzLine outer.now.now (gzz_meaning act.now))) (known reader.now)) }
{
    let inner = inner_by(reader, *outer, act);
    has_room_with(reader, outer, &inner, act)
}

/// The first reason for which a line is bad that does this with the window of which this is the outer layer, if it is bad.
pub(crate) fn gzz_tested<'a>(
    reader: &Reader<'a>,
    outer: &&'a [u8],
    act: &GzzAct<'a>,
) -> Result<(), Reason>
    ensures { result ≡ gzz_tested (known reader.now) outer.now.now (gzz_meaning act.now) }
{
    if !act.is_in_range(reader.width, reader.height) {
        return Err(Reason::Range);
    }
    if lacks_pair(reader, *outer, act) {
        return Err(Reason::NoName);
    }
    if names_again(reader, outer, act) {
        return Err(Reason::DoubleName);
    }
    if comes_between(reader, act) {
        return Err(Reason::Gzz);
    }
    if !is_free(reader) {
        return Err(Reason::Group);
    }
    if !has_room_for_gzz(reader, outer, act) {
        return Err(Reason::TooMany);
    }
    Ok(())
}

/// What is read of such a line that passes its tests.
pub(crate) fn gzz_read<'a>(
    alloc: Global,
    reader: &Reader<'a>,
    outer: &'a [u8],
    act: &GzzAct<'a>,
) -> Result<ReadLine<'a>, Stop>
    requires { PassesGzz (known reader.now) outer.now (gzz_meaning act.now) }
    ensures { ReadsBelow (known reader.now) result
        (if_passed (setting_of reader.now) (known reader.now) (GzzLine outer.entry.now (gzz_meaning act.now))) }
{
    let inner = inner_by(reader, outer, act);
    let statements = gzz_statements(alloc, outer, inner, act)?;
    Ok(ReadLine::Gzz {
        statements,
        opened: opened(outer, act),
    })
}
