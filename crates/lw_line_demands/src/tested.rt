//! The tests of a line's statement by what was read so far.
ghost use Rattle.std.specs.Prelude.{◌≡◌, nat_le, length, IsTrue};
ghost use Rattle.lw_calls.specs.Limits.{limits_of};
ghost use Rattle.lw_grammar.specs.Statements.{StatementLine, is_line_in_range};
ghost use Rattle.lw_grammar.specs.Told.{and_name, hook_on, told_with};
ghost use Rattle.lw_grammar.specs.Script.{lacks_name, gives_again, group_has_calls, fits_group, super_limit, are_few};
ghost use Rattle.lw_grammar.specs.Script.{is_no_hook, is_hook_named, has_padding, line_tested};
ghost use Rattle.lw_statements.specs.StatementMeaning.{statement_meaning};
ghost use Rattle.lw_reader.specs.ReaderKnows.{known, setting_of};

use crate::pairs::parts_pair;
use lw_calls::limits_of;
use lw_grammar::Reason;
use lw_reader::{Reader, has_hook, has_name};
use lw_statements::{Act, Layers, Statement, count};
use lw_words::is_text;

/// How many tasks, bitmaps, patterns and lines that ask for a super-bitmap layer a script has at most.
pub(crate) const TASK_LIMIT: usize = 16;

pub(crate) const BITMAP_LIMIT: usize = 16;

pub(crate) const PATTERN_LIMIT: usize = 16;

pub(crate) const SUPER_LIMIT: u32 = 16;

/// Whether it is a line `put` whose bitmap doesn't stand above.
fn lacks_name<'a>(reader: &Reader<'a>, statement: &Statement<'a>) -> bool
    ensures { result ≡ lacks_name (known reader.now).bitmap_names (statement_meaning statement.now) }
{
    match statement {
        Statement::Call {
            act: Act::Put { bitmap, .. },
            ..
        } => !has_name(&reader.assets.names, bitmap),
        _ => false,
    }
}

/// Whether the line gives a bitmap, a pattern, a task or a code again.
fn gives_again<'a>(reader: &Reader<'a>, statement: &Statement<'a>) -> bool
    ensures { result ≡ gives_again (known reader.now) (statement_meaning statement.now) }
{
    match statement {
        Statement::Glyph { code, .. } => reader.assets.has_glyph[*code as usize],
        Statement::Bitmap { name, .. } => has_name(&reader.assets.names, name),
        Statement::Pattern { name, .. } => has_name(&reader.assets.pattern_names, name),
        Statement::Task(name) => has_name(&reader.tasks.task_names, name),
        _ => false,
    }
}

/// How many tasks there are with the line.
fn tasks_with<'a>(reader: &Reader<'a>, statement: &Statement<'a>) -> usize
    ensures { result ≡ length (told_with (statement_meaning statement.now) (known reader.now)).tasks }
{
    match statement {
        Statement::Task(_) => reader.tasks.task_names.len() + 1,
        _ => reader.tasks.task_names.len(),
    }
}

/// How many bitmaps there are with the line.
fn bitmaps_with<'a>(reader: &Reader<'a>, statement: &Statement<'a>) -> usize
    ensures { result ≡ length (told_with (statement_meaning statement.now) (known reader.now)).bitmap_names }
{
    match statement {
        Statement::Bitmap { .. } => reader.assets.names.len() + 1,
        _ => reader.assets.names.len(),
    }
}

/// How many patterns there are with the line.
fn patterns_with<'a>(reader: &Reader<'a>, statement: &Statement<'a>) -> usize
    ensures { result ≡ length (told_with (statement_meaning statement.now) (known reader.now)).pattern_names }
{
    match statement {
        Statement::Pattern { .. } => reader.assets.pattern_names.len() + 1,
        _ => reader.assets.pattern_names.len(),
    }
}

/// Whether a task may have the line's call beside those that it has, where it may have so many.
fn has_room_for_call<'a>(reader: &Reader<'a>, statement: &Statement<'a>, calls: u32) -> bool
    ensures { result ≡ nat_le (told_with (statement_meaning statement.now) (known reader.now)).calls_in_task calls }
{
    match statement {
        Statement::Task(_) => true,
        Statement::Call { .. } => reader.tasks.calls_in_task < calls,
        _ => reader.tasks.calls_in_task <= calls,
    }
}

/// Whether the line's super-bitmap layer is one too many.
fn has_room_for_super<'a>(reader: &Reader<'a>, statement: &Statement<'a>) -> bool
    ensures { result ≡ nat_le (told_with (statement_meaning statement.now) (known reader.now)).supers super_limit }
{
    match statement {
        Statement::Call { act, .. } if act.makes_super() => reader.tasks.supers < SUPER_LIMIT,
        _ => reader.tasks.supers <= SUPER_LIMIT,
    }
}

/// How many layer names there are with this one.
pub(crate) fn with_name<'a>(reader: &Reader<'a>, name: &&'a [u8]) -> usize
    ensures { result ≡ length (and_name (known reader.now).names name.now.now) }
{
    if has_name(&reader.tasks.layer_names, name) {
        reader.tasks.layer_names.len()
    } else {
        reader.tasks.layer_names.len() + 1
    }
}

/// How many layer names there are with these two.
pub(crate) fn with_two<'a>(reader: &Reader<'a>, first: &&'a [u8], second: &&'a [u8]) -> usize
    ensures { result ≡ length (and_name (and_name (known reader.now).names first.now.now) second.now.now) }
{
    if has_name(&reader.tasks.layer_names, first) {
        return with_name(reader, second);
    }
    if is_text(*second, *first) {
        return reader.tasks.layer_names.len() + 1;
    }
    if has_name(&reader.tasks.layer_names, second) {
        return reader.tasks.layer_names.len() + 1;
    }
    reader.tasks.layer_names.len() + 2
}

/// How many layer names there are with those of the line.
fn names_with<'a>(reader: &Reader<'a>, statement: &Statement<'a>) -> usize
    ensures { result ≡ length (told_with (statement_meaning statement.now) (known reader.now)).names }
{
    match statement {
        Statement::Lock(name) | Statement::Unlock(name) => with_name(reader, name),
        Statement::Call {
            layers: Layers::One(name),
            ..
        } => with_name(reader, name),
        Statement::Call {
            layers: Layers::Two(first, second),
            ..
        } => with_two(reader, first, second),
        _ => reader.tasks.layer_names.len(),
    }
}

/// Whether there are no more layer names than this with those of the line. Where two more have room, no name is looked up.
#[tactic(auto, using(crate::proofs::NamesWith::room_for_two))]
fn has_room_for_names<'a>(reader: &Reader<'a>, statement: &Statement<'a>, names: u32) -> bool
    ensures { result ≡ nat_le (length (told_with (statement_meaning statement.now) (known reader.now)).names) names }
{
    if reader.tasks.layer_names.len() + 2 <= names as usize {
        return true;
    }
    names_with(reader, statement) <= names as usize
}

/// Whether nothing of the line is one too many.
fn has_room<'a>(reader: &Reader<'a>, statement: &Statement<'a>) -> bool
    ensures { result ≡ are_few (limits_of reader.now.version) (told_with (statement_meaning statement.now) (known reader.now)) }
{
    let limits = limits_of(reader.version);
    ((tasks_with(reader, statement) <= TASK_LIMIT
        && (bitmaps_with(reader, statement) <= BITMAP_LIMIT
            && patterns_with(reader, statement) <= PATTERN_LIMIT))
        && has_room_for_names(reader, statement, limits.names))
        && (has_room_for_super(reader, statement)
            && has_room_for_call(reader, statement, limits.calls))
}

/// Whether there is no hook of the number that the line names.
fn is_no_hook<'a>(reader: &Reader<'a>, statement: &Statement<'a>) -> bool
    requires { IsTrue (is_line_in_range reader.now.version (statement_meaning statement.now)) }
    ensures { result ≡ is_no_hook reader.now.hooks (hook_on (statement_meaning statement.now)) }
{
    match statement.hook() {
        None => false,
        Some(number) => number.unsigned_abs() >= u64::from(reader.hooks),
    }
}

/// Whether the line names a hook that a line above names.
fn is_hook_named<'a>(reader: &Reader<'a>, statement: &Statement<'a>) -> bool
    requires { IsTrue (is_line_in_range reader.now.version (statement_meaning statement.now)) }
    ensures { result ≡ is_hook_named (known reader.now).names_hook (hook_on (statement_meaning statement.now)) }
{
    match statement.hook() {
        None => false,
        Some(number) => has_hook(&reader.tasks.hooks_named, &count(number)),
    }
}

/// Whether a bit of the row after the bitmap's width is 1.
fn has_padding<'a>(reader: &Reader<'a>, statement: &Statement<'a>) -> bool
    ensures { result ≡ has_padding (known reader.now).row_width (statement_meaning statement.now) }
{
    match statement {
        Statement::Row(digits) => digits.has_bit_from(reader.assets.width),
        _ => false,
    }
}

/// Whether the open group may have the line.
fn fits_group<'a>(reader: &Reader<'a>, statement: &Statement<'a>) -> bool
    ensures { result
        ≡ fits_group (known reader.now).group (group_has_calls (known reader.now)) (statement_meaning statement.now) }
{
    statement.fits_group(
        &reader.tasks.group,
        reader.tasks.calls_before_group < reader.tasks.calls_in_task,
    )
}

/// The first reason for which a line with this statement is bad, if it is bad.
pub(crate) fn tested<'a>(reader: &Reader<'a>, statement: &Statement<'a>) -> Result<(), Reason>
    ensures { result ≡ line_tested (setting_of reader.now) (known reader.now) (StatementLine (statement_meaning statement.now)) }
{
    if !statement.is_in_range(reader.version) {
        return Err(Reason::Range);
    }
    if lacks_name(reader, statement) {
        return Err(Reason::NoName);
    }
    if gives_again(reader, statement) {
        return Err(Reason::DoubleName);
    }
    if parts_pair(reader, statement) {
        return Err(Reason::Gzz);
    }
    if !fits_group(reader, statement) {
        return Err(Reason::Group);
    }
    if !has_room(reader, statement) {
        return Err(Reason::TooMany);
    }
    if is_no_hook(reader, statement) {
        return Err(Reason::NoHook);
    }
    if is_hook_named(reader, statement) {
        return Err(Reason::HookUsed);
    }
    if has_padding(reader, statement) {
        return Err(Reason::Padding);
    }
    Ok(())
}
