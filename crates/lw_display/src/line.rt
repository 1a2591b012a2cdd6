//! What a line says that stands in no scene, by its words.

ghost use Rattle.std.specs.Prelude.{◌≡◌, ◌∷◌, map, option_map, ok_or};
ghost use Rattle.lw_grammar.specs.declared.reason.Reason.TheVariants.{Form as FormReason};
ghost use Rattle.lw_words.specs.Cuts.{targets};
ghost use Rattle.lw_words.specs.TokenMeaning.{token_meaning};
ghost use Rattle.lw_display.specs.ShowLines.{show_verb_of, sizes_line, scene_line, drag_line, put_line, show_line_by};
ghost use Rattle.lw_display.specs.ShowRule.{belongs_in, show_words_read};
ghost use Rattle.lw_display.specs.ShowMeaning.{due_meaning, deed_meaning, outer_meaning, ReadsOuter};

use crate::verb::ShowVerb;
use lw_grammar::Reason;
use lw_words::{Stop, Token, is_text, tokens_of, verb_of};

/// What is done to a screen.
#[derive(Clone, Copy)]
pub enum Deed {
    /// It is dragged by so many rows.
    Drag(i64),
    ToFront,
    ToBack,
}

/// What a line says that stands in no scene.
#[derive(Clone, Copy)]
pub enum OuterLine<'a> {
    Sizes { width: i64, height: i64 },
    Scene { name: &'a [u8], top: i64 },
    Act { name: &'a [u8], deed: Deed },
}

/// What is due in no scene.
#[derive(Clone, Copy)]
pub enum Due {
    Sizes,
    FirstScene,
    Scenes,
    Acts,
}

/// The verb that a word is, if it is one.
fn show_verb_of(word: &[u8]) -> Option<ShowVerb>
    ensures { result ≡ show_verb_of word.now }
{
    if is_text(word, b"display") {
        Some(ShowVerb::Display)
    } else if is_text(word, b"scene") {
        Some(ShowVerb::Scene)
    } else if is_text(word, b"drag") {
        Some(ShowVerb::Drag)
    } else if is_text(word, b"tofront") {
        Some(ShowVerb::ToFront)
    } else if is_text(word, b"toback") {
        Some(ShowVerb::ToBack)
    } else if is_text(word, b"endscene") {
        Some(ShowVerb::InScenes)
    } else {
        match verb_of(word) {
            Some(_) => Some(ShowVerb::InScenes),
            None => None,
        }
    }
}

/// Whether lines with this verb belong where this is due.
fn belongs_in(due: Due, verb: ShowVerb) -> bool
    ensures { result ≡ belongs_in (due_meaning due) verb }
{
    match (due, verb) {
        (Due::Sizes, ShowVerb::Display) => true,
        (Due::FirstScene, ShowVerb::Scene) => true,
        (Due::Scenes, ShowVerb::Scene) => true,
        (Due::Scenes, ShowVerb::Drag) => true,
        (Due::Scenes, ShowVerb::ToFront) => true,
        (Due::Scenes, ShowVerb::ToBack) => true,
        (Due::Acts, ShowVerb::Drag) => true,
        (Due::Acts, ShowVerb::ToFront) => true,
        (Due::Acts, ShowVerb::ToBack) => true,
        (_, _) => false,
    }
}

/// `display W H`
fn sizes_line<'a>(tokens: &[Token<'a>]) -> Option<OuterLine<'a>>
    ensures { option_map outer_meaning result ≡ sizes_line (map token_meaning tokens.now) }
{
    match tokens {
        [Token::Number(_, width), Token::Number(_, height)] => Some(OuterLine::Sizes {
            width: *width,
            height: *height,
        }),
        _ => None,
    }
}

/// `scene NAME TOP`
fn scene_line<'a>(tokens: &[Token<'a>]) -> Option<OuterLine<'a>>
    ensures { option_map outer_meaning result ≡ scene_line (map token_meaning tokens.now) }
{
    match tokens {
        [Token::Name(name), Token::Number(_, top)] => Some(OuterLine::Scene {
            name: *name,
            top: *top,
        }),
        _ => None,
    }
}

/// `drag NAME DY`
fn drag_line<'a>(tokens: &[Token<'a>]) -> Option<OuterLine<'a>>
    ensures { option_map outer_meaning result ≡ drag_line (map token_meaning tokens.now) }
{
    match tokens {
        [Token::Name(name), Token::Number(_, dy)] => Some(OuterLine::Act {
            name: *name,
            deed: Deed::Drag(*dy),
        }),
        _ => None,
    }
}

/// `tofront NAME`, or `toback NAME`
fn put_line<'a>(deed: Deed, tokens: &[Token<'a>]) -> Option<OuterLine<'a>>
    ensures { option_map outer_meaning result ≡ put_line (deed_meaning deed) (map token_meaning tokens.now) }
{
    match tokens {
        [Token::Name(name)] => Some(OuterLine::Act { name: *name, deed }),
        _ => None,
    }
}

/// What the words after a verb say.
fn line_by<'a>(verb: ShowVerb, tokens: &[Token<'a>]) -> Option<OuterLine<'a>>
    ensures { option_map outer_meaning result ≡ show_line_by verb (map token_meaning tokens.now) }
{
    match verb {
        ShowVerb::Display => sizes_line(tokens),
        ShowVerb::Scene => scene_line(tokens),
        ShowVerb::Drag => drag_line(tokens),
        ShowVerb::ToFront => put_line(Deed::ToFront, tokens),
        ShowVerb::ToBack => put_line(Deed::ToBack, tokens),
        ShowVerb::InScenes => None,
    }
}

/// The line that was found, or the reason `Form`.
fn found(line: Option<OuterLine<'_>>) -> Result<OuterLine<'_>, Stop>
    ensures { ReadsOuter result (ok_or (option_map outer_meaning line.entry) FormReason) }
{
    match line {
        None => Err(Stop::Refused(Reason::Form)),
        Some(line) => Ok(line),
    }
}

/// What a line says that begins with this word, where this is due, or its first reason.
fn verb_line<'a>(
    due: Due,
    first: &'a [u8],
    rest: &[&'a [u8]],
    tokens: &mut Vec<Token<'a>>,
) -> Result<OuterLine<'a>, Stop>
    ensures { ReadsOuter result (show_words_read (due_meaning due) (first.now ∷ targets rest.now)) }
{
    let Some(verb) = show_verb_of(first) else {
        return Err(Stop::Refused(Reason::UnknownWord));
    };
    if !belongs_in(due, verb) {
        return Err(Stop::Refused(Reason::Misplaced));
    }
    tokens_of(rest, tokens)?;
    found(line_by(verb, tokens.as_slice()))
}

/// What a line of these words says, where this is due, or its first reason. The list of tokens is lent for its room, which is
/// kept from line to line.
pub fn outer_line<'a>(
    due: Due,
    words: &[&'a [u8]],
    tokens: &mut Vec<Token<'a>>,
) -> Result<OuterLine<'a>, Stop>
    ensures { ReadsOuter result (show_words_read (due_meaning due) (targets words.now)) }
{
    match words {
        [] => Err(Stop::Refused(Reason::UnknownWord)),
        [first, rest @ ..] => verb_line(due, *first, rest, tokens),
    }
}
