//! What a script gives that was read to its end.
ghost use Rattle.std.specs.Prelude.{◌≡◌, ℕ, ◌<◌, ◌≤◌, IfOk, length, IsTrue, List, [], map, get_or};
ghost use Rattle.std.specs.List.{range_with_len};
ghost use Rattle.lw_grammar.specs.Statements.{Statement as StatementValue};
ghost use Rattle.lw_grammar.specs.Told.{told, plan_of};
ghost use Rattle.lw_grammar.specs.Script.{Setting, may_end, input_from};
ghost use Rattle.lw_grammar.specs.Reading.{Reached};
ghost use Rattle.lw_words.specs.Cuts.{targets};
ghost use Rattle.lw_statements.specs.SectionMeaning.{section_meaning};
ghost use Rattle.lw_reader.specs.ReaderKnows.{placed};
ghost use Rattle.lw_reader.specs.Represents.{Represents, HasRead};
ghost use Rattle.lw_script.specs.Answers.{input_meaning, Gives, ended_with};
ghost use Rattle.lw_script.specs.PlanNames.{AreNames, NamesAtEnd};

use crate::input::{Input, ScriptStop};
use indexmap::IndexSet;
use lw_calls::{Assets, OrderList, Pair, Plan, PlanParts, Sizes, Text};
use lw_grammar::Reason;
use lw_planes::Planes;
use lw_reader::{AssetsRead, NamedPair, Reader, TasksRead, place_of_name};
use std::alloc::{AllocError, Global};

/// The names of a plan and its windows of two layers.
#[derive(Drop)]
pub(crate) struct PlanNames {
    pub slot_names: Vec<Text>,
    pub task_names: Vec<Text>,
    pub bitmap_names: Vec<Text>,
    pub pairs: Vec<Pair>,
}

/// The names as texts of their own.
fn texts_of(alloc: Global, names: &[&[u8]]) -> Result<Vec<Text>, AllocError>
    ensures { IfOk result (λ texts. texts.items ≡ targets names.now) }
{
    let mut texts = Vec::with_capacity(alloc, names.len())?;
    for name in names {
        texts.push(Text::new(Vec::from_slice(alloc, name)?))?;
    }
    Ok(texts)
}

/// A window of two layers by the numbers of its names.
fn pair_among<'a>(names: &IndexSet<&'a [u8]>, pair: &NamedPair<'a>) -> Pair
    requires { length names.now.keys ≤ 1024 }
    ensures { result ≡ placed (targets names.now.keys) pair.now }
{
    Pair {
        outer: place_of_name(names, &pair.outer) as u32,
        inner: place_of_name(names, &pair.inner) as u32,
    }
}

fn pairs_among<'a>(
    alloc: Global,
    names: &IndexSet<&'a [u8]>,
    pairs: &[NamedPair<'a>],
) -> Result<Vec<Pair>, AllocError>
    requires { length names.now.keys ≤ 1024 }
    ensures { IfOk result (λ slots. slots.items ≡ map (placed (targets names.now.keys)) pairs.now) }
{
    let mut slots = Vec::with_capacity(alloc, pairs.len())?;
    for pair in pairs {
        slots.push(pair_among(names, pair))?;
    }
    Ok(slots)
}

/// What a script hands in that has these glyphs and bitmaps.
fn assets_of(glyphs: [[u8; 8]; 95], bitmaps: Vec<Planes>) -> Assets
    ensures glyphs { (rows : ℕ → List ℕ) → ((i : ℕ) → i < 95 → get_or glyphs i [] ≡ rows i)
        → result.glyphs ≡ map rows (range_with_len 0 95) }
    ensures bitmaps { result.bitmaps ≡ bitmaps.items }
{
    Assets { glyphs, bitmaps }
}

/// The sizes of the lines that were read.
fn sizes(reader: &Reader<'_>) -> Sizes
    requires { HasRead reader.now }
    ensures { (s : Setting) (above : List StatementValue) → Represents s reader.now above
        → result ≡ (plan_of s.hooks (told above)).sizes }
{
    Sizes {
        version: reader.version,
        width: reader.width,
        height: reader.height,
        depth: reader.depth,
        slots: reader.tasks.layer_names.len() as u32,
        tasks: reader.tasks.task_names.len() as u32,
        hooks: reader.hooks,
        bitmaps: reader.assets.names.len() as u32,
    }
}

/// The names of a plan and its windows of two layers.
fn names_of(alloc: Global, reader: &Reader<'_>) -> Result<PlanNames, AllocError>
    requires { HasRead reader.now }
    ensures { IfOk result (AreNames reader.now) }
{
    let slot_names = texts_of(alloc, reader.tasks.layer_names.as_slice())?;
    let task_names = texts_of(alloc, reader.tasks.task_names.as_slice())?;
    let bitmap_names = texts_of(alloc, reader.assets.names.as_slice())?;
    let pairs = pairs_among(
        alloc,
        &reader.tasks.layer_names,
        reader.tasks.pairs.as_slice(),
    )?;
    Ok(PlanNames {
        slot_names,
        task_names,
        bitmap_names,
        pairs,
    })
}

/// The same where the input may end below the lines that were read, where the next line would have this number.
fn names_at_end(alloc: Global, reader: &Reader<'_>, number: u32) -> Result<PlanNames, ScriptStop>
    requires { HasRead reader.now }
    ensures { NamesAtEnd reader.now number result }
{
    if !reader.section.may_end(reader.form) {
        return Err(ScriptStop::Refused {
            line: number,
            reason: Reason::Missing,
        });
    }
    Ok(names_of(alloc, reader)?)
}

/// What the lines give that were read, where the input may end below them and their plan has these names.
fn input(reader: Reader<'_>, names: PlanNames, rest: usize) -> Input
    requires read { HasRead reader }
    requires ended { IsTrue (may_end reader.form (section_meaning reader.section)) }
    requires named { AreNames reader names }
    ensures { (s : Setting) (above : List StatementValue) → Represents s reader.entry above
        → input_meaning result ≡ input_from s (told above) rest }
{
    let sizes = sizes(&reader);
    let Reader {
        assets,
        tasks,
        order,
        ..
    } = reader;
    let AssetsRead {
        glyphs,
        bitmaps,
        ..
    } = assets;
    let TasksRead { calls, groups, .. } = tasks;
    let PlanNames {
        slot_names,
        task_names,
        bitmap_names,
        pairs,
    } = names;
    let plan = Plan::new(PlanParts {
        sizes,
        slot_names,
        task_names,
        bitmap_names,
        calls,
        groups,
        pairs,
        assets: assets_of(glyphs, bitmaps),
    });
    Input {
        plan,
        order: OrderList::new(order),
        rest,
    }
}

/// The answer at the input's end, where the next line would have this number and what stands after the lines begins at
/// `rest`.
pub(crate) fn finish(
    alloc: Global,
    reader: Reader<'_>,
    number: u32,
    rest: usize,
) -> Result<Input, ScriptStop>
    requires { HasRead reader }
    ensures { (s : Setting) (p : Reached) → p.number ≡ number → Represents s reader.entry p.statements
        → Gives result (ended_with s rest p) }
{
    match names_at_end(alloc, &reader, number) {
        Err(stop) => Err(stop),
        Ok(names) => Ok(input(reader, names, rest)),
    }
}
