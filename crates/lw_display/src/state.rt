//! What was read of a show so far.

ghost use Rattle.std.specs.Prelude.{◌≡◌, ◌≤◌, length, bytes_eq, pos, IsTrue, OnOk};
ghost use Rattle.std.specs.List.{list_any};
ghost use Rattle.lw_region.specs.Rectangle.{within};
ghost use Rattle.lw_grammar.specs.Told.{place_among};
ghost use Rattle.lw_words.specs.Cuts.{targets};
ghost use Rattle.lw_display.specs.ShowLines.{is_deed_in_range, is_show_line_in_range, lacks_scene, names_again, has_room, act_of};
ghost use Rattle.lw_display.specs.ShowRule.{nothing_told, show_line_tested};
ghost use Rattle.lw_display.specs.ShowMeaning.{deed_meaning, outer_meaning, show_read, told_of, IsNamed};

use crate::line::{Deed, Due, OuterLine};
use crate::show::Scene;
use indexmap::IndexSet;
use lw_grammar::Reason;
use lw_screens::Act;
use lw_statements::count;
use std::alloc::Global;

/// How many columns and rows a display has at most, how many scenes, and how many acts.
const DISPLAY_LIMIT: i64 = 2048;

const SCENE_LIMIT: usize = 8;

const ACT_LIMIT: usize = 4096;

/// What was read of a show so far, with whole scenes.
#[derive(Drop)]
pub struct ShowReader<'a> {
    pub due: Due,
    /// The sizes of the display.
    pub width: u32,
    pub height: u32,
    /// The names of the scenes, by number.
    pub names: IndexSet<&'a [u8]>,
    pub scenes: Vec<Scene>,
    pub acts: Vec<Act>,
}

/// Whether the number is one from the least to the most.
#[tactic(auto, using(std::proofs::lemmas::Int::ints), unfolding(lw_region::specs::Rectangle::within))]
fn is_between(low: i64, number: i64, high: i64) -> bool
    ensures { result ≡ within low number high }
{
    if number < low {
        return false;
    }
    number <= high
}

fn is_deed_in_range(deed: Deed) -> bool
    ensures { result ≡ is_deed_in_range (deed_meaning deed) }
{
    match deed {
        Deed::Drag(dy) => is_between(-32768, dy, 32767),
        Deed::ToFront => true,
        Deed::ToBack => true,
    }
}

/// Whether the name is one of these.
fn has_name<'a>(names: &IndexSet<&'a [u8]>, name: &&'a [u8]) -> bool
    ensures { result ≡ list_any (bytes_eq name.now.now) (targets names.now.keys) }
{
    names.contains(name)
}

/// The place of the name among these, or how many there are where it isn't one of them.
pub(crate) fn place_of_name<'a>(names: &IndexSet<&'a [u8]>, name: &&'a [u8]) -> usize
    ensures place { result ≡ place_among (targets names.now.keys) name.now.now }
    ensures within { result ≤ length names.now.keys }
{
    match names.get_index_of(name) {
        Some(place) => place,
        None => names.len(),
    }
}

/// What is done to the screen of a number.
#[tactic(auto, using(std::proofs::lemmas::Int::ints), unfolding(lw_region::specs::Rectangle::within))]
pub(crate) fn act_of(deed: Deed, screen: u32) -> Act
    requires { IsTrue (is_deed_in_range (deed_meaning deed)) }
    ensures { result ≡ act_of (deed_meaning deed) screen }
{
    match deed {
        Deed::Drag(dy) => Act::Drag {
            screen,
            dy: dy as i32,
        },
        Deed::ToFront => Act::ToFront { screen },
        Deed::ToBack => Act::ToBack { screen },
    }
}

impl<'a> ShowReader<'a> {
    /// Nothing was read.
    pub fn new(alloc: Global) -> ShowReader<'a>
        ensures told { told_of result ≡ nothing_told }
        ensures named { IsNamed result }
    {
        ShowReader {
            due: Due::Sizes,
            width: 0,
            height: 0,
            names: IndexSet::new(alloc),
            scenes: Vec::new(alloc),
            acts: Vec::new(alloc),
        }
    }

    /// Whether the line's numbers are in their ranges.
    fn is_in_range(&self, line: &OuterLine<'a>) -> bool
        ensures { result ≡ is_show_line_in_range (show_read self.now) (outer_meaning line.now) }
    {
        match *line {
            OuterLine::Sizes { width, height } => {
                is_between(1, width, DISPLAY_LIMIT) && is_between(1, height, DISPLAY_LIMIT)
            }
            OuterLine::Scene { top, .. } => is_between(0, top, i64::from(self.height) - 1),
            OuterLine::Act { deed, .. } => is_deed_in_range(deed),
        }
    }

    /// Whether it is an act on the screen of no scene above.
    fn lacks_scene(&self, line: &OuterLine<'a>) -> bool
        requires { IsNamed self.now }
        ensures { result ≡ lacks_scene (show_read self.now) (outer_meaning line.now) }
    {
        match line {
            OuterLine::Act { name, .. } => !has_name(&self.names, name),
            _ => false,
        }
    }

    /// Whether it gives a scene the name of one above.
    fn names_again(&self, line: &OuterLine<'a>) -> bool
        requires { IsNamed self.now }
        ensures { result ≡ names_again (show_read self.now) (outer_meaning line.now) }
    {
        match line {
            OuterLine::Scene { name, .. } => has_name(&self.names, name),
            _ => false,
        }
    }

    /// Whether there are no more scenes and acts with it than may be.
    fn has_room(&self, line: &OuterLine<'a>) -> bool
        ensures { result ≡ has_room (show_read self.now) (outer_meaning line.now) }
    {
        match line {
            OuterLine::Sizes { .. } => true,
            OuterLine::Scene { .. } => self.scenes.len() < SCENE_LIMIT,
            OuterLine::Act { .. } => self.acts.len() < ACT_LIMIT,
        }
    }

    /// The first reason for which a line that says this is bad, if it is bad.
    pub fn tested(&self, line: &OuterLine<'a>) -> Result<(), Reason>
        requires { IsNamed self.now }
        ensures { result ≡ show_line_tested (show_read self.now) (outer_meaning line.now) }
    {
        if !self.is_in_range(line) {
            return Err(Reason::Range);
        }
        if self.lacks_scene(line) {
            return Err(Reason::NoName);
        }
        if self.names_again(line) {
            return Err(Reason::DoubleName);
        }
        if !self.has_room(line) {
            return Err(Reason::TooMany);
        }
        Ok(())
    }
}
