//! What a line says below those read so far.
ghost use Rattle.std.specs.Prelude.{◌≡◌, ◌≤◌, List, length};
ghost use Rattle.lw_grammar.specs.Statements.{Statement as StatementValue};
ghost use Rattle.lw_grammar.specs.Told.{told};
ghost use Rattle.lw_grammar.specs.Script.{Setting, line_read, line_of_words};
ghost use Rattle.lw_words.specs.Cuts.{targets};
ghost use Rattle.lw_reader.specs.ReaderKnows.{known, setting_of};
ghost use Rattle.lw_line_demands.specs.AreasRead.{ReadsBelow};
ghost use Rattle.lw_reader.specs.Represents.{Represents};

use lw_line_demands::tested_line;
use lw_lines::words_line;
use lw_reader::{ReadLine, Reader};
use lw_words::{Stop, Token, line_words};
use std::alloc::Global;

/// What a line of these words says, or its first reason.
fn known_words<'a>(
    alloc: Global,
    reader: &Reader<'a>,
    words: &[&'a [u8]],
    tokens: &mut Vec<Token<'a>>,
) -> Result<ReadLine<'a>, Stop>
    requires wide { reader.now.assets.width ≤ 1024 }
    requires lists { length reader.now.assets.patterns.items ≡ length reader.now.assets.pattern_names.keys }
    ensures { ReadsBelow (known reader.now) result (line_of_words (setting_of reader.now) (known reader.now) (targets words.now)) }
{
    match words_line(
        alloc,
        reader.form,
        reader.version,
        reader.section,
        reader.assets.due,
        reader.assets.width,
        words,
        tokens,
    ) {
        Err(stop) => Err(stop),
        Ok(line) => tested_line(alloc, reader, line),
    }
}

/// What a line says that isn't skipped, or its first reason.
fn known_line<'a>(
    alloc: Global,
    reader: &Reader<'a>,
    line: &'a [u8],
    words: &mut Vec<&'a [u8]>,
    tokens: &mut Vec<Token<'a>>,
) -> Result<ReadLine<'a>, Stop>
    requires wide { reader.now.assets.width ≤ 1024 }
    requires lists { length reader.now.assets.patterns.items ≡ length reader.now.assets.pattern_names.keys }
    ensures { ReadsBelow (known reader.now) result (line_read (setting_of reader.now) (known reader.now) line.entry.now) }
{
    match line_words(line, words) {
        Err(stop) => Err(stop),
        Ok(()) => known_words(alloc, reader, words.as_slice(), tokens),
    }
}

/// What a line says that isn't skipped, below the lines that were read, or its first reason. The lists are lent for
/// their room, which is kept from line to line.
pub(crate) fn read_line<'a>(
    alloc: Global,
    reader: &Reader<'a>,
    line: &'a [u8],
    words: &mut Vec<&'a [u8]>,
    tokens: &mut Vec<Token<'a>>,
) -> Result<ReadLine<'a>, Stop>
    requires wide { reader.now.assets.width ≤ 1024 }
    requires lists { length reader.now.assets.patterns.items ≡ length reader.now.assets.pattern_names.keys }
    ensures { (s : Setting) (above : List StatementValue) → Represents s reader.now above
        → ReadsBelow (told above) result (line_read s (told above) line.entry.now) }
{
    known_line(alloc, reader, line, words, tokens)
}
