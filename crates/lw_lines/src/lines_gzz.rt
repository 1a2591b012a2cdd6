//! The lines of what is done with windows of two layers.
ghost use Rattle.std.specs.Prelude.{◌≡◌, map, option_map};
ghost use Rattle.lw_grammar.specs.Statements.{inner_kind_of, titled_gzz, opened_gzz, gopen_line, gbox_line, gzz_alone};
ghost use Rattle.lw_grammar.specs.Statements.{ginfront_line, gzz_line};
ghost use Rattle.lw_words.specs.TokenMeaning.{token_meaning};
ghost use Rattle.lw_statements.specs.StatementMeaning.{box_meaning, gzz_meaning, line_meaning};
ghost use Rattle.lw_lines.specs.GzzParts.{opened_with};

use crate::corners::{box_in, only_box};
use crate::lines_asked::{asks_in, place_of};
use lw_calls::{Kind, Place};
use lw_grammar::GzzVerb;
use lw_statements::{AskedBox, GzzAct, Line};
use lw_words::{Token, is_text};

fn inner_kind_of(word: &[u8]) -> Option<Kind>
    ensures { result ≡ inner_kind_of word.now }
{
    if is_text(word, b"simple") {
        Some(Kind::Simple)
    } else if is_text(word, b"smart") {
        Some(Kind::Smart)
    } else {
        None
    }
}

/// An opening, where its title is the last word.
fn titled<'a>(
    outer: &'a [u8],
    inner: &'a [u8],
    kind: Kind,
    place: Place,
    at: AskedBox,
    classes: u8,
    tokens: &[Token<'a>],
) -> Option<Line<'a>>
    ensures { option_map line_meaning result
        ≡ titled_gzz outer.now inner.now kind place (box_meaning at) classes (map token_meaning tokens.now) }
{
    match tokens {
        [Token::Text(title)] => {
            let title = *title;
            Some(Line::Gzz {
                outer,
                act: GzzAct::Open {
                    inner,
                    kind,
                    place,
                    at,
                    classes,
                    title,
                },
            })
        }
        _ => None,
    }
}

/// What stands after the box of an opening: `[ask SET] "TITLE"`
fn opened<'a>(
    outer: &'a [u8],
    inner: &'a [u8],
    kind: Kind,
    place: Place,
    at: AskedBox,
    tokens: &[Token<'a>],
) -> Option<Line<'a>>
    ensures { option_map line_meaning result
        ≡ opened_gzz outer.now inner.now place (box_meaning at) (map token_meaning tokens.now) kind }
{
    let (classes, rest) = asks_in(tokens);
    titled(outer, inner, kind, place, at, classes, rest)
}

/// What stands after the four names of an opening.
fn named<'a>(
    outer: &'a [u8],
    inner: &'a [u8],
    kind: &[u8],
    place: &[u8],
    tokens: &[Token<'a>],
) -> Option<Line<'a>>
    ensures { option_map line_meaning result
        ≡ opened_with outer.now inner.now kind.now place.now (map token_meaning tokens.now) }
{
    match box_in(tokens) {
        None => None,
        Some((at, rest)) => match place_of(place) {
            None => None,
            Some(place) => match inner_kind_of(kind) {
                None => None,
                Some(kind) => opened(outer, inner, kind, place, at, rest),
            },
        },
    }
}

/// `gopen G I KIND PLACE X Y W H ..`
fn gopen_line<'a>(tokens: &[Token<'a>]) -> Option<Line<'a>>
    ensures { option_map line_meaning result ≡ gopen_line (map token_meaning tokens.now) }
{
    match tokens {
        [
            Token::Name(outer),
            Token::Name(inner),
            Token::Name(kind),
            Token::Name(place),
            rest @ ..,
        ] => named(*outer, *inner, *kind, *place, rest),
        _ => None,
    }
}

/// `gbox G X Y W H`
fn gbox_line<'a>(tokens: &[Token<'a>]) -> Option<Line<'a>>
    ensures { option_map line_meaning result ≡ gbox_line (map token_meaning tokens.now) }
{
    match tokens {
        [Token::Name(outer), rest @ ..] => match only_box(rest) {
            None => None,
            Some(at) => Some(Line::Gzz {
                outer: *outer,
                act: GzzAct::Box(at),
            }),
        },
        _ => None,
    }
}

/// `gfront G`, and its kin
fn alone<'a>(act: GzzAct<'a>, tokens: &[Token<'a>]) -> Option<Line<'a>>
    ensures { option_map line_meaning result ≡ gzz_alone (gzz_meaning act.entry) (map token_meaning tokens.now) }
{
    match tokens {
        [Token::Name(outer)] => Some(Line::Gzz { outer: *outer, act }),
        _ => None,
    }
}

/// `ginfront G M`
fn ginfront_line<'a>(tokens: &[Token<'a>]) -> Option<Line<'a>>
    ensures { option_map line_meaning result ≡ ginfront_line (map token_meaning tokens.now) }
{
    match tokens {
        [Token::Name(outer), Token::Name(other)] => Some(Line::Gzz {
            outer: *outer,
            act: GzzAct::InFront(*other),
        }),
        _ => None,
    }
}

/// What is done with a window of two layers.
pub(crate) fn gzz_line<'a>(verb: GzzVerb, tokens: &[Token<'a>]) -> Option<Line<'a>>
    ensures { option_map line_meaning result ≡ gzz_line verb (map token_meaning tokens.now) }
{
    match verb {
        GzzVerb::Open => gopen_line(tokens),
        GzzVerb::Box => gbox_line(tokens),
        GzzVerb::Front => alone(GzzAct::Front, tokens),
        GzzVerb::Behind => alone(GzzAct::Behind, tokens),
        GzzVerb::InFront => ginfront_line(tokens),
        GzzVerb::Close => alone(GzzAct::Close, tokens),
    }
}
