ghost use Rattle.std.specs.Prelude.{◌≡◌, Ok, Some, position, OnOk, IfErr};
ghost use Rattle.lw_grammar.specs.Tokens.{tokens, ends_text as text_end_meant};
ghost use Rattle.lw_words.specs.Cuts.{CutsWord, IsWordBegun, targets, is_break};
ghost use Rattle.lw_words.specs.Stops.{Tells};

use crate::cut::place_of;
use crate::stop::Stop;
use lw_grammar::Reason;

/// Where a word ends that is no text: at a space, or at a quote, which is a fault there.
fn break_of(bytes: &[u8]) -> Option<usize>
    ensures { result ≡ position is_break bytes.now }
{
    bytes.iter().position(|b| *b == b' ' || *b == b'"')
}

/// Whether the bytes after a text's first quote have just one quote, which is their last byte.
fn ends_text(bytes: &[u8]) -> bool
    ensures { result ≡ text_end_meant bytes.now }
{
    match place_of(bytes, b'"') {
        None => false,
        Some(end) => end + 1 == bytes.len(),
    }
}

/// The first word of a line whose word ends at this byte, and what stands after it.
fn cut_at(line: &[u8], end: usize) -> Result<(&[u8], Option<&[u8]>), Reason>
    requires found { position is_break line.now ≡ Some end }
    requires begun { IsWordBegun line.now }
    ensures { CutsWord line.now result }
{
    if line[end] == b'"' {
        return Err(Reason::Quote);
    }
    if end == 0 {
        return Err(Reason::Spacing);
    }
    let word = &line[..end];
    let behind = &line[end + 1..];
    Ok((word, Some(behind)))
}

/// The first word of a line, and what stands after the space that ends it, if one does; or the fault with which the
/// line begins.
fn cut_word(line: &[u8]) -> Result<(&[u8], Option<&[u8]>), Reason>
    ensures { CutsWord line.now result }
{
    if line.is_empty() {
        return Err(Reason::Spacing);
    }
    if line[0] == b'"' {
        if ends_text(&line[1..]) {
            return Ok((line, None));
        }
        return Err(Reason::Quote);
    }
    match break_of(line) {
        None => Ok((line, None)),
        Some(end) => cut_at(line, end),
    }
}

/// Makes the list that of a line's words, unless there is a fault of spacing or quotes: then the leftmost one is told. The
/// list's room is kept from line to line.
pub fn words_of<'a>(line: &'a [u8], words: &mut Vec<&'a [u8]>) -> Result<(), Stop>
    ensures found { OnOk result (tokens line.entry.now ≡ Ok (targets words.new.items)) }
    ensures stopped { IfErr result (λ stop. Tells stop (tokens line.entry.now)) }
{
    words.clear();
    let mut rest = Some(line);
    while let Some(bytes) = rest {
        match cut_word(bytes) {
            Err(reason) => return Err(Stop::Refused(reason)),
            Ok((word, behind)) => {
                words.push(word)?;
                rest = behind;
            }
        }
    }
    Ok(())
}
