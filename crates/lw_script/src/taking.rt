//! A line taken from the bytes that are left.
ghost use Rattle.std.specs.Prelude.{List};
ghost use Rattle.lw_grammar.specs.Statements.{Statement as StatementValue};
ghost use Rattle.lw_grammar.specs.Told.{told};
ghost use Rattle.lw_grammar.specs.Script.{Setting, is_nothing_due, line_read, statements_with};
ghost use Rattle.lw_statements.specs.SectionMeaning.{section_meaning};
ghost use Rattle.lw_reader.specs.Represents.{Represents, HasRead};
ghost use Rattle.lw_script.specs.Answers.{Takes, Advances};
ghost use Rattle.lw_script.specs.NextLine.{CutsDue};

use crate::input::ScriptStop;
use crate::reading::read_line;
use lw_line_additions::add_read;
use lw_reader::Reader;
use lw_words::{Stop, Token, cut_line, is_skipped};
use std::alloc::Global;

/// Reads a line that isn't skipped, and adds it. The lists are lent for their room, which is kept from line to line.
fn take<'a>(
    alloc: Global,
    reader: &mut Reader<'a>,
    number: u32,
    line: &'a [u8],
    words: &mut Vec<&'a [u8]>,
    tokens: &mut Vec<Token<'a>>,
) -> Result<(), ScriptStop>
    requires { HasRead reader.old }
    ensures { (s : Setting) (above : List StatementValue) → Represents s reader.old above
        → Takes s reader.new above number result (line_read s (told above) line.entry.now) }
{
    match read_line(alloc, reader, line, words, tokens) {
        Err(Stop::Refused(reason)) => Err(ScriptStop::Refused {
            line: number,
            reason,
        }),
        Err(Stop::Memory) => Err(ScriptStop::Memory),
        Ok(read) => Ok(add_read(alloc, reader, &read)?),
    }
}

/// Takes a line, unless it says nothing. The lists are lent for their room, which is kept from line to line.
pub(crate) fn take_line<'a>(
    alloc: Global,
    reader: &mut Reader<'a>,
    number: u32,
    line: &'a [u8],
    words: &mut Vec<&'a [u8]>,
    tokens: &mut Vec<Token<'a>>,
) -> Result<(), ScriptStop>
    requires { HasRead reader.old }
    ensures { (s : Setting) (above : List StatementValue) → Represents s reader.old above
        → Advances s reader.new number result (statements_with s above line.entry.now) }
{
    if is_skipped(line) {
        return Ok(());
    }
    take(alloc, reader, number, line, words, tokens)
}

/// The next line and the bytes after it, where a further line is read.
pub(crate) fn next_line<'b>(reader: &Reader<'_>, rest: &'b [u8]) -> Option<(&'b [u8], &'b [u8])>
    ensures { CutsDue (is_nothing_due (section_meaning reader.now.section)) rest.now result }
{
    if reader.section.is_nothing() {
        return None;
    }
    cut_line(rest)
}
