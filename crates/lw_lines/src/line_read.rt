//! What a line of these words says in its place.
ghost use Rattle.std.specs.Prelude.{◌≡◌, ◌≤◌, Ok, ◌∷◌, option_map, ok_or};
ghost use Rattle.lw_grammar.specs.declared.reason.Reason.TheVariants.{Form as FormReason};
ghost use Rattle.lw_words.specs.Cuts.{targets};
ghost use Rattle.lw_statements.specs.StatementMeaning.{statement_meaning, line_meaning};
ghost use Rattle.lw_statements.specs.SectionMeaning.{section_meaning};
ghost use Rattle.lw_lines.specs.LineReading.{Reads};
ghost use Rattle.lw_grammar.specs.Script.{verb_read, stated, line_made};

use crate::lines_parts::{numbers_line, row_line};
use crate::lines_verb::line_by;
use lw_grammar::{Form, Reason};
use lw_statements::{Line, Section, Statement, belongs_in, is_known_in};
use lw_words::{Stop, Token, tokens_of, verb_of};
use std::alloc::Global;

/// The line that was found, or the reason `Form`.
fn found(line: Option<Line<'_>>) -> Result<Line<'_>, Stop>
    ensures { Reads result (ok_or (option_map line_meaning line.entry) FormReason) }
{
    match line {
        None => Err(Stop::Refused(Reason::Form)),
        Some(line) => Ok(line),
    }
}

/// The line of the statement that was found, or the reason `Form`.
fn found_statement(statement: Option<Statement<'_>>) -> Result<Line<'_>, Stop>
    ensures { Reads result (ok_or (stated (option_map statement_meaning statement.entry)) FormReason) }
{
    match statement {
        None => Err(Stop::Refused(Reason::Form)),
        Some(statement) => Ok(Line::Statement(statement)),
    }
}

/// What a line says that begins with this word, in this version and section of this input, or its first reason.
fn verb_line<'a>(
    alloc: Global,
    form: Form,
    version: u32,
    section: Section,
    first: &'a [u8],
    rest: &[&'a [u8]],
    tokens: &mut Vec<Token<'a>>,
) -> Result<Line<'a>, Stop>
    ensures { Reads result (verb_read form version (section_meaning section) (first.now ∷ targets rest.now)) }
{
    let Some(verb) = verb_of(first) else {
        return Err(Stop::Refused(Reason::UnknownWord));
    };
    if !is_known_in(version, verb) {
        return Err(Stop::Refused(Reason::UnknownWord));
    }
    if !belongs_in(form, version, section, verb) {
        return Err(Stop::Refused(Reason::Misplaced));
    }
    tokens_of(rest, tokens)?;
    found(line_by(alloc, verb, tokens.as_slice())?)
}

/// What a line of these words says in this section of this input, where the lines above tell this version, or none by 0,
/// and so many rows of a bitmap of this width are due; or its first reason. The list of tokens is lent for its room, which is
/// kept from line to line.
pub fn words_line<'a>(
    alloc: Global,
    form: Form,
    version: u32,
    section: Section,
    due: u32,
    width: u32,
    words: &[&'a [u8]],
    tokens: &mut Vec<Token<'a>>,
) -> Result<Line<'a>, Stop>
    requires { width ≤ 1024 }
    ensures { Reads result (line_made form version (section_meaning section) due width (targets words.now)) }
{
    if due != 0 {
        tokens_of(words, tokens)?;
        return found_statement(row_line(width, tokens.as_slice()));
    }
    if section.is_numbers() {
        tokens_of(words, tokens)?;
        return found_statement(numbers_line(alloc, tokens.as_slice())?);
    }
    match words {
        [] => Err(Stop::Refused(Reason::UnknownWord)),
        [first, rest @ ..] => verb_line(alloc, form, version, section, *first, rest, tokens),
    }
}
