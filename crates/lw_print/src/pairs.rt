//! The lines of what is done with windows of two layers.

ghost use Rattle.std.specs.Prelude.{◌≡◌, ◌++◌, List, ℕ, IfOk, OnOk};
ghost use Rattle.lw_canonical.specs.Canonical.{word_among, line_of_word};
ghost use Rattle.lw_canonical.specs.Spelling.{line_words, written};
ghost use Rattle.lw_calls.specs.declared.pair.Pair.{Pair};
ghost use Rattle.lw_calls.specs.Written.{line_of};
ghost use Rattle.lw_print.specs.Behind.{first_word, rest_of_word};

use crate::making::{push_asks, push_kind_and_place};
use crate::words::{push_four, push_text};
use lw_calls::{Call, Pair, Text};
use lw_gzz::{GzzWord, as_word};
use lw_text_output::{end_line, name_of, push_word};
use std::alloc::{AllocError, Global};

/// What is done with the first of these pairs for which these calls stand for something, if they do for one.
pub fn word_among(
    alloc: Global,
    pairs: &[Pair],
    calls: &[Call],
) -> Result<Option<(Pair, GzzWord)>, AllocError>
    ensures { IfOk result (λ word. word ≡ word_among pairs.now calls.now) }
{
    for pair in pairs {
        if let Some(word) = as_word(alloc, pair, calls)? {
            return Ok(Some((*pair, word)));
        }
    }
    Ok(None)
}

/// Writes the line of what is done with a pair. `names` has the layers' names by slot.
pub fn push_word_line(
    alloc: Global,
    out: &mut Vec<u8>,
    names: &[Text],
    pair: &Pair,
    word: &GzzWord,
) -> Result<(), AllocError>
    ensures { OnOk result (out.new.items ≡ out.old.items ++ line_of (written (line_of_word names.now (pair.now, word.now)))) }
{
    out.extend_from_slice(verb_of(word).as_bytes())?;
    push_word(out, name_of(names, pair.outer as usize))?;
    push_rest(alloc, out, names, pair, word)?;
    end_line(out)
}

/// The first word of the line.
fn verb_of(word: &GzzWord) -> &'static str
    ensures { (names : List (List ℕ)) (pair : Pair) → result.now ≡ first_word (line_words (line_of_word names (pair, word.now))) }
{
    match word {
        GzzWord::Open { .. } => "gopen",
        GzzWord::SetBox { .. } => "gbox",
        GzzWord::Front => "gfront",
        GzzWord::Behind => "gbehind",
        GzzWord::InFrontOf { .. } => "ginfront",
        GzzWord::Close => "gclose",
    }
}

/// Writes what the line has after the name of the outer layer.
fn push_rest(
    alloc: Global,
    out: &mut Vec<u8>,
    names: &[Text],
    pair: &Pair,
    word: &GzzWord,
) -> Result<(), AllocError>
    ensures { OnOk result (out.new.items ≡ out.old.items ++ rest_of_word names.now pair.now word.now) }
{
    match word {
        GzzWord::Open {
            kind,
            place,
            x,
            y,
            w,
            h,
            asks,
            title,
        } => {
            push_word(out, name_of(names, pair.inner as usize))?;
            push_kind_and_place(out, *kind, *place)?;
            push_four(alloc, out, *x, *y, *w, *h)?;
            push_asks(out, *asks)?;
            push_text(out, title.bytes())
        }
        GzzWord::SetBox { x, y, w, h } => push_four(alloc, out, *x, *y, *w, *h),
        GzzWord::InFrontOf { other } => push_word(out, name_of(names, *other as usize)),
        GzzWord::Front | GzzWord::Behind | GzzWord::Close => Ok(()),
    }
}
