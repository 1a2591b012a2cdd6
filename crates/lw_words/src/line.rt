//! The words of a line, and which lines say nothing.
ghost use Rattle.std.specs.Prelude.{◌≡◌, OnOk, IfErr, Ok};
ghost use Rattle.std.specs.List.{list_all};
ghost use Rattle.lw_grammar.specs.Script.{is_skipped, is_printable, words_read};
ghost use Rattle.lw_words.specs.Cuts.{targets};
ghost use Rattle.lw_words.specs.Stops.{Tells};

use crate::stop::Stop;
use crate::tokens::words_of;
use lw_grammar::Reason;

/// How many bytes a line has at most.
const LINE_LIMIT: usize = 512;

/// Whether the line says nothing: it is empty, or begins with `#`.
pub fn is_skipped(line: &[u8]) -> bool
    ensures { result ≡ is_skipped line.now }
{
    match line {
        [] => true,
        [first, ..] => *first == b'#',
    }
}

fn are_printable(line: &[u8]) -> bool
    ensures { result ≡ list_all is_printable line.now }
{
    line.iter().all(|byte| 32 <= *byte && *byte <= 126)
}

/// Makes the list that of a line's words, or tells its first reason that asks for bytes alone. The list's room is kept from
/// line to line.
pub fn line_words<'a>(line: &'a [u8], words: &mut Vec<&'a [u8]>) -> Result<(), Stop>
    ensures found { OnOk result (words_read line.entry.now ≡ Ok (targets words.new.items)) }
    ensures stopped { IfErr result (λ stop. Tells stop (words_read line.entry.now)) }
{
    if line.len() > LINE_LIMIT {
        return Err(Stop::Refused(Reason::LineTooLong));
    }
    if !are_printable(line) {
        return Err(Stop::Refused(Reason::BadByte));
    }
    words_of(line, words)
}
