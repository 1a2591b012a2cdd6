//! What was read of a script so far.
ghost use Rattle.std.specs.Prelude.{◌≡◌, ◌≤◌, ◌==◌, [], length, bytes_eq};
ghost use Rattle.std.specs.List.{list_any};
ghost use Rattle.lw_grammar.specs.Told.{place_among};
ghost use Rattle.lw_words.specs.Cuts.{targets};

use indexmap::IndexSet;
use lw_area::Pattern;
use lw_calls::{Call, Group};
use lw_grammar::Form;
use lw_planes::Planes;
use lw_statements::{OpenGroup, Section};
use std::alloc::Global;

/// The glyphs, bitmaps and patterns that were read.
#[derive(Drop)]
pub struct AssetsRead<'a> {
    /// Which codes have a glyph.
    pub has_glyph: [bool; 256],
    pub glyphs: [[u8; 8]; 95],
    /// The bitmaps' names, by number.
    pub names: IndexSet<&'a [u8]>,
    /// The bitmaps whose rows were all read.
    pub bitmaps: Vec<Planes>,
    /// The sizes of the nearest bitmap.
    pub width: u32,
    pub height: u32,
    pub depth: u32,
    /// How many of its rows are due.
    pub due: u32,
    /// Its rows so far.
    pub rows: Vec<u8>,
    /// The patterns' names, and the patterns.
    pub pattern_names: IndexSet<&'a [u8]>,
    pub patterns: Vec<Pattern>,
}

/// A window of two layers, by the names of the outer and of the inner one.
#[derive(Clone, Copy)]
pub struct NamedPair<'a> {
    pub outer: &'a [u8],
    pub inner: &'a [u8],
}

/// The tasks, calls and groups that were read. Names are numbered in the order of their first appearance.
#[derive(Drop)]
pub struct TasksRead<'a> {
    pub task_names: IndexSet<&'a [u8]>,
    pub layer_names: IndexSet<&'a [u8]>,
    /// The names that stand on a line without a call.
    pub names_without_slot: IndexSet<&'a [u8]>,
    /// The windows of two layers.
    pub pairs: Vec<NamedPair<'a>>,
    /// How many lines asked for a super-bitmap layer.
    pub supers: u32,
    /// The hooks that lines named.
    pub hooks_named: IndexSet<u32>,
    /// The group that is open.
    pub group: Option<OpenGroup<'a>>,
    /// How many calls the task had before the group began.
    pub calls_before_group: u32,
    /// How many calls the task has.
    pub calls_in_task: u32,
    /// Each task's calls and groups.
    pub calls: Vec<Vec<Call>>,
    pub groups: Vec<Vec<Group>>,
}

/// What was read of a script so far.
#[derive(Drop)]
pub struct Reader<'a> {
    /// How many hooks there are.
    pub hooks: u32,
    pub form: Form,
    /// The script's version, and 0 where no line was read that tells it.
    pub version: u32,
    pub section: Section,
    /// The sizes of the screen.
    pub width: u32,
    pub height: u32,
    pub depth: u32,
    pub assets: AssetsRead<'a>,
    pub tasks: TasksRead<'a>,
    pub order: Vec<u32>,
}

impl<'a> Reader<'a> {
    ghost use Rattle.lw_grammar.specs.Script.{reading_with};
    ghost use Rattle.lw_reader.specs.Represents.{Represents};

    /// Nothing was read of a script that is read with so many hooks in this input.
    pub fn new(alloc: Global, hooks: u32, form: Form) -> Reader<'a>
        ensures { Represents (reading_with hooks form) result [] }
    {
        Reader {
            hooks,
            form,
            version: 0,
            section: Section::Screen,
            width: 0,
            height: 0,
            depth: 0,
            assets: AssetsRead {
                has_glyph: [false; 256],
                glyphs: [[0; 8]; 95],
                names: IndexSet::new(alloc),
                bitmaps: Vec::new(alloc),
                width: 0,
                height: 0,
                depth: 0,
                due: 0,
                rows: Vec::new(alloc),
                pattern_names: IndexSet::new(alloc),
                patterns: Vec::new(alloc),
            },
            tasks: TasksRead {
                task_names: IndexSet::new(alloc),
                layer_names: IndexSet::new(alloc),
                names_without_slot: IndexSet::new(alloc),
                pairs: Vec::new(alloc),
                supers: 0,
                hooks_named: IndexSet::new(alloc),
                group: None,
                calls_before_group: 0,
                calls_in_task: 0,
                calls: Vec::new(alloc),
                groups: Vec::new(alloc),
            },
            order: Vec::new(alloc),
        }
    }
}

/// Whether the name is one of these.
pub fn has_name<'a>(names: &IndexSet<&'a [u8]>, name: &&'a [u8]) -> bool
    ensures { result ≡ list_any (bytes_eq name.now.now) (targets names.now.keys) }
{
    names.contains(name)
}

/// The place of the name among these, or how many there are where it isn't one of them.
pub fn place_of_name<'a>(names: &IndexSet<&'a [u8]>, name: &&'a [u8]) -> usize
    ensures place { result ≡ place_among (targets names.now.keys) name.now.now }
    ensures within { result ≤ length names.now.keys }
{
    match names.get_index_of(name) {
        Some(place) => place,
        None => names.len(),
    }
}

/// Whether the hook is one of these.
pub fn has_hook(hooks: &IndexSet<u32>, hook: &u32) -> bool
    ensures { result ≡ list_any (λ m. hook.now == m) hooks.now.keys }
{
    hooks.contains(hook)
}
