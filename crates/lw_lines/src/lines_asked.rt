ghost use Rattle.std.specs.Prelude.{◌≡◌, ◌≤◌, IfSome, map, option_map, [], ◌∷◌};
ghost use Rattle.lw_grammar.specs.Statements.{kind_of, place_of, flag as flag_meant, hook_option, message_class_of};
ghost use Rattle.lw_grammar.specs.Statements.{classes_from, ask_option, create_without_bitmap, create_super, create_kind};
ghost use Rattle.lw_grammar.specs.Statements.{titled_line, open_without_bitmap, open_super, open_kind, new_layer_line};
ghost use Rattle.lw_grammar.specs.Statements.{box, rectangle};
ghost use Rattle.lw_grammar.specs.Tokens.{NumberToken};
ghost use Rattle.lw_words.specs.TokenMeaning.{token_meaning};
ghost use Rattle.lw_statements.specs.StatementMeaning.{statement_meaning, corners_meaning, box_meaning, new_layer_meaning};
ghost use Rattle.lw_lines.specs.AskedParts.{with_words, with_numbers};

use crate::corners::{box_in, corners_in};
use lw_calls::{Kind, Place};
use lw_statements::{Act, AskedBox, Corners, NewLayer, Statement};
use lw_words::{Token, is_text};

fn kind_of(word: &[u8]) -> Option<Kind>
    ensures { result ≡ kind_of word.now }
{
    if is_text(word, b"simple") {
        Some(Kind::Simple)
    } else if is_text(word, b"smart") {
        Some(Kind::Smart)
    } else if is_text(word, b"super") {
        Some(Kind::SuperBitmap)
    } else {
        None
    }
}

pub(crate) fn place_of(word: &[u8]) -> Option<Place>
    ensures { result ≡ place_of word.now }
{
    if is_text(word, b"front") {
        Some(Place::Front)
    } else if is_text(word, b"behind") {
        Some(Place::Behind)
    } else {
        None
    }
}

/// Whether the optional word comes next, and what stands after it.
fn flag<'a, 'b>(word: &[u8], tokens: &'b [Token<'a>]) -> (bool, &'b [Token<'a>])
    ensures { (result.0, map token_meaning result.1.now) ≡ flag_meant word.now (map token_meaning tokens.now) }
{
    match tokens {
        [Token::Name(name), rest @ ..] => {
            if is_text(*name, word) {
                (true, rest)
            } else {
                (false, tokens)
            }
        }
        _ => (false, tokens),
    }
}

/// The number of the optional words `hook N`, and what stands after them.
fn hook_in<'a, 'b>(tokens: &'b [Token<'a>]) -> (Option<i64>, &'b [Token<'a>])
    ensures { (result.0, map token_meaning result.1.now) ≡ hook_option (map token_meaning tokens.now) }
{
    match tokens {
        [Token::Name(name), Token::Number(_, number), rest @ ..] => {
            if is_text(*name, b"hook") {
                (Some(*number), rest)
            } else {
                (None, tokens)
            }
        }
        _ => (None, tokens),
    }
}

/// The class of messages that a letter of a set stands for.
fn message_class_of(letter: u8) -> Option<u8>
    ensures value { result ≡ message_class_of letter }
    ensures small { IfSome result (λ k. k ≤ 4) }
{
    match letter {
        b'r' => Some(0),
        b'n' => Some(1),
        b'c' => Some(2),
        b'a' => Some(3),
        b'i' => Some(4),
        _ => None,
    }
}

/// The set of classes that letters stand for, in rising order, each at most once.
fn classes_of(letters: &[u8]) -> Option<u8>
    ensures { result ≡ classes_from 0 letters.now }
{
    let mut classes = 0;
    let mut least = 0;
    for letter in letters {
        match message_class_of(*letter) {
            None => return None,
            Some(class) => {
                if class < least {
                    return None;
                }
                classes += 1 << class;
                least = class + 1;
            }
        }
    }
    Some(classes)
}

/// The set of the optional words `ask SET`, or none, and what stands after them.
pub(crate) fn asks_in<'a, 'b>(tokens: &'b [Token<'a>]) -> (u8, &'b [Token<'a>])
    ensures { (result.0, map token_meaning result.1.now) ≡ ask_option (map token_meaning tokens.now) }
{
    match tokens {
        [Token::Name(name), Token::Name(set), rest @ ..] => {
            if !is_text(*name, b"ask") {
                return (0, tokens);
            }
            match classes_of(*set) {
                Some(classes) => (classes, rest),
                None => (0, tokens),
            }
        }
        _ => (0, tokens),
    }
}

/// What stands after the bounds of a creation: `[backdrop] [hook N]`
fn create_without_bitmap<'a>(
    layer: &'a [u8],
    kind: Kind,
    place: Place,
    corners: Corners,
    tokens: &[Token<'a>],
) -> Option<Statement<'a>>
    ensures { option_map statement_meaning result
        ≡ create_without_bitmap layer.now kind place (corners_meaning corners)
        (map token_meaning tokens.now) }
{
    let (backdrop, rest) = flag(b"backdrop", tokens);
    let (hook, rest) = hook_in(rest);
    if !rest.is_empty() {
        return None;
    }
    let asked = NewLayer::without_bitmap(kind, place, backdrop, hook);
    Some(Statement::on(layer, Act::Create { corners, asked }))
}

/// `BW BH [backdrop]`
fn create_super<'a>(
    layer: &'a [u8],
    place: Place,
    corners: Corners,
    tokens: &[Token<'a>],
) -> Option<Statement<'a>>
    ensures { option_map statement_meaning result
        ≡ create_super layer.now place (corners_meaning corners) (map token_meaning tokens.now) }
{
    match tokens {
        [
            Token::Number(_, bits_w),
            Token::Number(_, bits_h),
            rest @ ..,
        ] => {
            let (backdrop, rest) = flag(b"backdrop", rest);
            if !rest.is_empty() {
                return None;
            }
            let asked = NewLayer {
                kind: Kind::SuperBitmap,
                place,
                backdrop,
                hook: None,
                bits_w: *bits_w,
                bits_h: *bits_h,
            };
            Some(Statement::on(layer, Act::Create { corners, asked }))
        }
        _ => None,
    }
}

/// An opening, where its title is the last word.
fn titled<'a>(
    layer: &'a [u8],
    at: AskedBox,
    asked: NewLayer,
    framed: bool,
    nocare: bool,
    classes: u8,
    tokens: &[Token<'a>],
) -> Option<Statement<'a>>
    ensures { option_map statement_meaning result
        ≡ titled_line layer.now (box_meaning at) (new_layer_meaning asked) framed nocare classes
        (map token_meaning tokens.now) }
{
    match tokens {
        [Token::Text(title)] => {
            let title = *title;
            Some(Statement::on(
                layer,
                Act::Open {
                    at,
                    asked,
                    framed,
                    nocare,
                    classes,
                    title,
                },
            ))
        }
        _ => None,
    }
}

/// What stands after the box of an opening: `[backdrop] [borderless] [nocare] [hook N] [ask SET] "TITLE"`
fn open_without_bitmap<'a>(
    layer: &'a [u8],
    kind: Kind,
    place: Place,
    at: AskedBox,
    tokens: &[Token<'a>],
) -> Option<Statement<'a>>
    ensures { option_map statement_meaning result
        ≡ open_without_bitmap layer.now kind place (box_meaning at)
        (map token_meaning tokens.now) }
{
    let (backdrop, rest) = flag(b"backdrop", tokens);
    let (borderless, rest) = flag(b"borderless", rest);
    let (nocare, rest) = flag(b"nocare", rest);
    let (hook, rest) = hook_in(rest);
    let (classes, rest) = asks_in(rest);
    let asked = NewLayer::without_bitmap(kind, place, backdrop, hook);
    titled(layer, at, asked, !borderless, nocare, classes, rest)
}

/// What stands after the size of a bitmap of its own: `[backdrop] [ask SET] "TITLE"`
fn open_sized<'a>(
    layer: &'a [u8],
    place: Place,
    at: AskedBox,
    bits_w: i64,
    bits_h: i64,
    tokens: &[Token<'a>],
) -> Option<Statement<'a>>
    ensures { option_map statement_meaning result ≡ open_super layer.now place (box_meaning at)
        (NumberToken [] bits_w ∷ NumberToken [] bits_h ∷ map token_meaning tokens.now) }
{
    let (backdrop, rest) = flag(b"backdrop", tokens);
    let (classes, rest) = asks_in(rest);
    let asked = NewLayer {
        kind: Kind::SuperBitmap,
        place,
        backdrop,
        hook: None,
        bits_w,
        bits_h,
    };
    titled(layer, at, asked, false, false, classes, rest)
}

/// `BW BH [backdrop] [ask SET] "TITLE"`
fn open_super<'a>(
    layer: &'a [u8],
    place: Place,
    at: AskedBox,
    tokens: &[Token<'a>],
) -> Option<Statement<'a>>
    ensures { option_map statement_meaning result ≡ open_super layer.now place (box_meaning at)
        (map token_meaning tokens.now) }
{
    match tokens {
        [
            Token::Number(_, bits_w),
            Token::Number(_, bits_h),
            rest @ ..,
        ] => { open_sized(layer, place, at, *bits_w, *bits_h, rest) }
        _ => None,
    }
}

/// What stands after the bounds of a creation of this kind.
fn create_kind<'a>(
    layer: &'a [u8],
    kind: Kind,
    place: Place,
    corners: Corners,
    tokens: &[Token<'a>],
) -> Option<Statement<'a>>
    ensures { option_map statement_meaning result
        ≡ create_kind layer.now place (corners_meaning corners) (map token_meaning tokens.now) kind }
{
    match kind {
        Kind::Simple => create_without_bitmap(layer, Kind::Simple, place, corners, tokens),
        Kind::Smart => create_without_bitmap(layer, Kind::Smart, place, corners, tokens),
        Kind::SuperBitmap => create_super(layer, place, corners, tokens),
    }
}

/// What stands after the box of an opening of this kind.
fn open_kind<'a>(
    layer: &'a [u8],
    kind: Kind,
    place: Place,
    at: AskedBox,
    tokens: &[Token<'a>],
) -> Option<Statement<'a>>
    ensures { option_map statement_meaning result
        ≡ open_kind layer.now place (box_meaning at) (map token_meaning tokens.now) kind }
{
    match kind {
        Kind::Simple => open_without_bitmap(layer, Kind::Simple, place, at, tokens),
        Kind::Smart => open_without_bitmap(layer, Kind::Smart, place, at, tokens),
        Kind::SuperBitmap => open_super(layer, place, at, tokens),
    }
}

/// What stands after the three names of a creation.
fn created<'a>(
    layer: &'a [u8],
    kind: &[u8],
    place: &[u8],
    tokens: &[Token<'a>],
) -> Option<Statement<'a>>
    ensures { option_map statement_meaning result
        ≡ with_numbers rectangle (with_words create_kind layer.now kind.now place.now) (map token_meaning tokens.now) }
{
    match corners_in(tokens) {
        None => None,
        Some((corners, rest)) => match place_of(place) {
            None => None,
            Some(place) => match kind_of(kind) {
                None => None,
                Some(kind) => create_kind(layer, kind, place, corners, rest),
            },
        },
    }
}

/// What stands after the three names of an opening.
fn opened<'a>(
    layer: &'a [u8],
    kind: &[u8],
    place: &[u8],
    tokens: &[Token<'a>],
) -> Option<Statement<'a>>
    ensures { option_map statement_meaning result
        ≡ with_numbers box (with_words open_kind layer.now kind.now place.now) (map token_meaning tokens.now) }
{
    match box_in(tokens) {
        None => None,
        Some((at, rest)) => match place_of(place) {
            None => None,
            Some(place) => match kind_of(kind) {
                None => None,
                Some(kind) => open_kind(layer, kind, place, at, rest),
            },
        },
    }
}

/// `create L KIND PLACE X0 Y0 X1 Y1 ..`
pub(crate) fn create_line<'a>(tokens: &[Token<'a>]) -> Option<Statement<'a>>
    ensures { option_map statement_meaning result ≡ new_layer_line rectangle create_kind (map token_meaning tokens.now) }
{
    match tokens {
        [
            Token::Name(layer),
            Token::Name(kind),
            Token::Name(place),
            rest @ ..,
        ] => created(*layer, *kind, *place, rest),
        _ => None,
    }
}

/// `open L KIND PLACE X Y W H ..`
pub(crate) fn open_line<'a>(tokens: &[Token<'a>]) -> Option<Statement<'a>>
    ensures { option_map statement_meaning result ≡ new_layer_line box open_kind (map token_meaning tokens.now) }
{
    match tokens {
        [
            Token::Name(layer),
            Token::Name(kind),
            Token::Name(place),
            rest @ ..,
        ] => opened(*layer, *kind, *place, rest),
        _ => None,
    }
}
