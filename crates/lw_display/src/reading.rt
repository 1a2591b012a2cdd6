//! Reads a show from its first line to its last.

ghost use Rattle.std.specs.Prelude.{◌≡◌, ℕ, ◌+◌, ◌<◌, ◌≤◌, ◌∷◌, false, List, length, bytes_eq, pos, ◌-ℤ◌, unsigned_abs, IsTrue};
ghost use Rattle.std.specs.Prelude.{IfOk, OnOk, Err};
ghost use Rattle.std.specs.List.{list_any};
ghost use Rattle.lw_region.specs.Rectangle.{within};
ghost use Rattle.lw_grammar.specs.Lines.{lines};
ghost use Rattle.lw_words.specs.Cuts.{targets};
ghost use Rattle.lw_display.specs.declared.reason.ShowReason.{ShowReason as ReasonValue};
ghost use Rattle.lw_display.specs.Shows.{ShowInput};
ghost use Rattle.lw_display.specs.ShowLines.{SizesLine, SceneLine, ActLine};
ghost use Rattle.lw_display.specs.ShowRule.{show_line_tested, show_line_of_words, show_line_read, told_with, show_ended};
ghost use Rattle.lw_display.specs.ShowRule.{shown_by, show_of, IsShow, IsBadShow};
ghost use Rattle.lw_display.specs.ShowMeaning.{deed_meaning, outer_meaning, show_read, told_of, IsNamed, due_meaning};
ghost use Rattle.lw_display.specs.ShowMeaning.{ReadsOuter, if_tested, GivesShow, LeadsOn, AddsScene, KeepsScene, Passes};
ghost use Rattle.lw_display.specs.ShowAnswers.{show_meaning, OnlyGives, OnlyRefuses};

use crate::line::{Deed, Due, OuterLine, outer_line};
use crate::reason::ShowReason;
use crate::scene::{SceneRead, read_scene};
use crate::show::{Scene, Show};
use crate::state::{ShowReader, act_of, place_of_name};
use crate::stop::ShowStop;
use lw_calls::Text;
use lw_grammar::Reason;
use lw_script::Input;
use lw_statements::count;
use lw_words::{Stop, Token, cut_line, is_skipped, line_words};
use std::alloc::{AllocError, Global};

/// The bytes behind what was read, and the number of the next line.
#[derive(Clone, Copy)]
pub struct Next<'a> {
    pub rest: &'a [u8],
    pub number: u32,
}

impl<'a> ShowReader<'a> {
    /// What a line says, if it passes its tests, or its first reason.
    fn tested_line(&self, line: OuterLine<'a>) -> Result<OuterLine<'a>, Stop>
        requires { IsNamed self.now }
        ensures { ReadsOuter result (if_tested (show_read self.now) (outer_meaning line.entry)) }
    {
        match self.tested(&line) {
            Err(reason) => Err(Stop::Refused(reason)),
            Ok(()) => Ok(line),
        }
    }

    /// What a line of these words says, or its first reason.
    fn words_line(
        &self,
        words: &[&'a [u8]],
        tokens: &mut Vec<Token<'a>>,
    ) -> Result<OuterLine<'a>, Stop>
        requires { IsNamed self.now }
        ensures { ReadsOuter result (show_line_of_words (told_of self.now) (targets words.now)) }
    {
        match outer_line(self.due, words, tokens) {
            Err(stop) => Err(stop),
            Ok(line) => self.tested_line(line),
        }
    }

    /// What a line says that stands in no scene, or its first reason. The lists are lent for their room, which is kept from line
    /// to line.
    fn read_line(
        &self,
        line: &'a [u8],
        words: &mut Vec<&'a [u8]>,
        tokens: &mut Vec<Token<'a>>,
    ) -> Result<OuterLine<'a>, Stop>
        requires { IsNamed self.now }
        ensures { ReadsOuter result (show_line_read (told_of self.now) line.entry.now) }
    {
        match line_words(line, words) {
            Err(stop) => Err(stop),
            Ok(()) => self.words_line(words.as_slice(), tokens),
        }
    }

    /// Takes the line of the display's sizes.
    #[tactic(auto, using(std::proofs::lemmas::Int::ints), unfolding(lw_region::specs::Rectangle::within))]
    fn take_sizes(
        &mut self,
        number: u32,
        width: i64,
        height: i64,
        behind: &'a [u8],
    ) -> Result<Next<'a>, ShowStop>
        requires short { number + length behind.now + 1 ≤ 4294967295 }
        requires passes { Passes (show_read self.old) (SizesLine width height) }
        requires named { IsNamed self.old }
        ensures { LeadsOn (told_with number (SizesLine width height) (told_of self.old)) (number + 1) (lines behind.entry.now)
            (number + 1) behind.entry.now self.new result }
    {
        self.width = count(width);
        self.height = count(height);
        self.due = Due::FirstScene;
        Ok(behind_line(number, behind))
    }

    /// Takes an act.
    fn take_act(
        &mut self,
        number: u32,
        name: &'a [u8],
        deed: Deed,
        behind: &'a [u8],
    ) -> Result<Next<'a>, ShowStop>
        requires short { number + length behind.now + 1 ≤ 4294967295 }
        requires passes { Passes (show_read self.old) (ActLine name.now (deed_meaning deed)) }
        requires named { IsNamed self.old }
        ensures { LeadsOn (told_with number (ActLine name.entry.now (deed_meaning deed)) (told_of self.old)) (number + 1)
            (lines behind.entry.now) (number + 1) behind.entry.now self.new result }
    {
        let screen = place_of_name(&self.names, &name) as u32;
        self.acts.push(act_of(deed, screen))?;
        self.due = Due::Acts;
        Ok(behind_line(number, behind))
    }

    /// Adds a scene whose script was read.
    fn add_scene(
        &mut self,
        alloc: Global,
        name: &'a [u8],
        top: u32,
        input: Input,
    ) -> Result<(), AllocError>
        requires new { list_any (bytes_eq name.now) (targets self.old.names.keys) ≡ false }
        requires room { length self.old.names.keys < 8 }
        requires named { IsNamed self.old }
        ensures { OnOk result (AddsScene name.entry.now top input self.old self.new) }
    {
        self.names.insert(name)?;
        self.scenes.push(Scene {
            name: Text::new(Vec::from_slice(alloc, name)?),
            top,
            input,
        })?;
        self.due = Due::Scenes;
        Ok(())
    }

    /// The row at which a scene's screen opens.
    #[tactic(auto, using(std::proofs::lemmas::Int::ints), unfolding(lw_region::specs::Rectangle::within))]
    fn top_row(&self, top: i64) -> u32
        requires { IsTrue (within (pos 0) top (pos self.now.height -ℤ pos 1)) }
        ensures { result ≡ unsigned_abs top }
    {
        let _height = self.height;
        count(top)
    }

    /// Keeps a scene that was read.
    fn keep_scene(
        &mut self,
        alloc: Global,
        name: &'a [u8],
        top: u32,
        read: SceneRead<'a>,
    ) -> Result<Next<'a>, ShowStop>
        requires new { list_any (bytes_eq name.now) (targets self.old.names.keys) ≡ false }
        requires room { length self.old.names.keys < 8 }
        requires named { IsNamed self.old }
        ensures { KeepsScene name.entry.now top read.entry self.old self.new result }
    {
        let SceneRead {
            input,
            rest,
            number,
        } = read;
        self.add_scene(alloc, name, top, input)?;
        Ok(Next { rest, number })
    }

    /// Takes a scene, which the line of this number begins; the bytes are those behind it.
    fn take_scene(
        &mut self,
        alloc: Global,
        number: u32,
        name: &'a [u8],
        top: i64,
        behind: &'a [u8],
    ) -> Result<Next<'a>, ShowStop>
        requires short { number + length behind.now + 1 ≤ 4294967295 }
        requires few { length behind.now + 1 < 4294967295 }
        requires passes { Passes (show_read self.old) (SceneLine name.now top) }
        requires named { IsNamed self.old }
        ensures { LeadsOn (told_with number (SceneLine name.entry.now top) (told_of self.old)) (number + 1)
            (lines behind.entry.now)
            (number + 1) behind.entry.now self.new result }
    {
        let row = self.top_row(top);
        match read_scene(alloc, number, behind) {
            Err(stop) => Err(stop),
            Ok(read) => self.keep_scene(alloc, name, row, read),
        }
    }

    /// Takes what a line of this number says, with all lines of a scene that it begins.
    fn take_line(
        &mut self,
        alloc: Global,
        number: u32,
        line: OuterLine<'a>,
        behind: &'a [u8],
    ) -> Result<Next<'a>, ShowStop>
        requires short { number + length behind.now + 1 ≤ 4294967295 }
        requires few { length behind.now + 1 < 4294967295 }
        requires passes { Passes (show_read self.old) (outer_meaning line) }
        requires named { IsNamed self.old }
        ensures { LeadsOn (told_with number (outer_meaning line.entry) (told_of self.old)) (number + 1) (lines behind.entry.now)
            (number + 1) behind.entry.now self.new result }
    {
        match line {
            OuterLine::Sizes { width, height } => self.take_sizes(number, width, height, behind),
            OuterLine::Scene { name, top } => self.take_scene(alloc, number, name, top, behind),
            OuterLine::Act { name, deed } => self.take_act(number, name, deed, behind),
        }
    }

    /// Takes a line of this number, with all lines of a scene that it begins. The lists are lent for their room, which is kept
    /// from line to line.
    fn take(
        &mut self,
        alloc: Global,
        number: u32,
        line: &'a [u8],
        behind: &'a [u8],
        words: &mut Vec<&'a [u8]>,
        tokens: &mut Vec<Token<'a>>,
    ) -> Result<Next<'a>, ShowStop>
        requires short { number + length behind.now + 1 ≤ 4294967295 }
        requires few { length behind.now + 1 < 4294967295 }
        requires named { IsNamed self.old }
        ensures { LeadsOn (told_of self.old) number (line.entry.now ∷ lines behind.entry.now) (number + 1) behind.entry.now
            self.new result }
    {
        if is_skipped(line) {
            return Ok(behind_line(number, behind));
        }
        match self.read_line(line, words, tokens) {
            Err(Stop::Refused(reason)) => Err(ShowStop::Refused {
                line: number,
                reason: ShowReason::Line(reason),
            }),
            Err(Stop::Memory) => Err(ShowStop::Memory),
            Ok(said) => self.take_line(alloc, number, said, behind),
        }
    }

    /// The show that was read.
    fn show(self) -> Show
        ensures { show_meaning result ≡ show_read self.entry }
    {
        let ShowReader {
            width,
            height,
            scenes,
            acts,
            ..
        } = self;
        Show {
            width,
            height,
            scenes,
            acts,
        }
    }

    /// The answer at the input's end, where the next line would have this number.
    fn finish(self, number: u32) -> Result<Show, ShowStop>
        ensures { GivesShow result (show_ended number (due_meaning self.entry.due) (show_read self.entry)) }
    {
        match self.due {
            Due::Sizes => Err(missing(number)),
            Due::FirstScene => Err(missing(number)),
            Due::Scenes => Ok(self.show()),
            Due::Acts => Ok(self.show()),
        }
    }
}

/// What stands behind a line of this number.
fn behind_line<'a>(number: u32, behind: &'a [u8]) -> Next<'a>
    requires { number + 1 ≤ 4294967295 }
    ensures number { result.number ≡ number + 1 }
    ensures rest { result.rest.now ≡ behind.now }
{
    Next {
        rest: behind,
        number: number + 1,
    }
}

/// The refusal of a line that is missing.
fn missing(number: u32) -> ShowStop
    ensures { result ≡ ShowStop.Refused number (ShowReason.Line Reason.Missing) }
{
    ShowStop::Refused {
        line: number,
        reason: ShowReason::Line(Reason::Missing),
    }
}

/// Reads the lines one after another, a scene at once.
fn read_lines(alloc: Global, bytes: &[u8]) -> Result<Show, ShowStop>
    requires { length bytes.now < 4294967295 }
    ensures { GivesShow result (show_of bytes.now) }
{
    let mut reader = ShowReader::new(alloc);
    let mut rest = bytes;
    let mut number = 1;
    let mut words = Vec::new(alloc);
    let mut tokens = Vec::new(alloc);
    while let Some((line, behind)) = cut_line(rest) {
        let next = reader.take(alloc, number, line, behind, &mut words, &mut tokens)?;
        rest = next.rest;
        number = next.number;
    }
    reader.finish(number)
}

/// Reads a show: its display, its scenes, each with its script's plan and order, and its acts; or the first bad line with the
/// first reason. Memory may run out instead. The bytes are fewer than 4,294,967,295.
pub fn read_display(alloc: Global, bytes: &[u8]) -> Result<Show, ShowStop>
    requires { length bytes.now < 4294967295 }
    ensures found { IfOk result (λ show. IsShow bytes.now (show_meaning show)) }
    ensures refused { (line : ℕ) (reason : ReasonValue) → result ≡ Err (ShowStop.Refused line reason)
        → IsBadShow bytes.now line reason }

    // What the show is decides the answer, but for running out of memory.
    ensures only_found { (show : ShowInput) → IsShow bytes.now show → OnlyGives show result }
    ensures only_refused { (line : ℕ) (reason : ReasonValue) → IsBadShow bytes.now line reason
        → OnlyRefuses line reason result }
{
    read_lines(alloc, bytes)
}
