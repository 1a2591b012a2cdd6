ghost use Rattle.std.specs.Prelude.{◌≡◌, map, option_map};
ghost use Rattle.lw_words.specs.TokenMeaning.{token_meaning};
ghost use Rattle.lw_grammar.specs.Statements.{box, rectangle, four_numbers, last_four};
ghost use Rattle.lw_statements.specs.StatementMeaning.{corners_meaning, box_meaning};

use lw_statements::{AskedBox, Corners};
use lw_words::Token;

/// The bounds of a rectangle, and what stands after them.
pub(crate) fn corners_in<'a, 'b>(tokens: &'b [Token<'a>]) -> Option<(Corners, &'b [Token<'a>])>
    ensures { option_map (λ p. (corners_meaning p.0, map token_meaning p.1.now)) result
        ≡ four_numbers rectangle (map token_meaning tokens.now) }
{
    match tokens {
        [
            Token::Number(_, x0),
            Token::Number(_, y0),
            Token::Number(_, x1),
            Token::Number(_, y1),
            rest @ ..,
        ] => {
            let corners = Corners {
                x0: *x0,
                y0: *y0,
                x1: *x1,
                y1: *y1,
            };
            Some((corners, rest))
        }
        _ => None,
    }
}

/// A box, and what stands after it.
pub(crate) fn box_in<'a, 'b>(tokens: &'b [Token<'a>]) -> Option<(AskedBox, &'b [Token<'a>])>
    ensures { option_map (λ p. (box_meaning p.0, map token_meaning p.1.now)) result
        ≡ four_numbers box (map token_meaning tokens.now) }
{
    match tokens {
        [
            Token::Number(_, x),
            Token::Number(_, y),
            Token::Number(_, w),
            Token::Number(_, h),
            rest @ ..,
        ] => {
            let at = AskedBox {
                x: *x,
                y: *y,
                w: *w,
                h: *h,
            };
            Some((at, rest))
        }
        _ => None,
    }
}

/// The bounds of a rectangle at the end of a line.
pub(crate) fn only_corners(tokens: &[Token<'_>]) -> Option<Corners>
    ensures { option_map corners_meaning result ≡ last_four rectangle (map token_meaning tokens.now) }
{
    match tokens {
        [
            Token::Number(_, x0),
            Token::Number(_, y0),
            Token::Number(_, x1),
            Token::Number(_, y1),
        ] => Some(Corners {
            x0: *x0,
            y0: *y0,
            x1: *x1,
            y1: *y1,
        }),
        _ => None,
    }
}

/// A box at the end of a line.
pub(crate) fn only_box(tokens: &[Token<'_>]) -> Option<AskedBox>
    ensures { option_map box_meaning result ≡ last_four box (map token_meaning tokens.now) }
{
    match tokens {
        [
            Token::Number(_, x),
            Token::Number(_, y),
            Token::Number(_, w),
            Token::Number(_, h),
        ] => Some(AskedBox {
            x: *x,
            y: *y,
            w: *w,
            h: *h,
        }),
        _ => None,
    }
}
