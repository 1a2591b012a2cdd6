ghost use Rattle.std.specs.Prelude.{◌≡◌, map, option_map};
ghost use Rattle.lw_grammar.specs.Statements.{last_minterm, blit_end, blit_area, put_line, blit_line};
ghost use Rattle.lw_words.specs.TokenMeaning.{token_meaning};
ghost use Rattle.lw_statements.specs.StatementMeaning.{statement_meaning, box_meaning, area_meaning};

use crate::corners::box_in;
use lw_statements::{Act, AskedArea, AskedBox, Layers, Statement};
use lw_words::{Token, digits_in};

/// A blit from this place to a box, with this minterm.
fn asked_area(sx: i64, sy: i64, at: &AskedBox, minterm: u8) -> AskedArea
    ensures { area_meaning result ≡ blit_area sx sy (box_meaning at.now) minterm }
{
    AskedArea {
        sx,
        sy,
        x: at.x,
        y: at.y,
        w: at.w,
        h: at.h,
        minterm,
    }
}

/// A minterm at the end of a line: one byte whose lower four bits are 0.
fn last_minterm(tokens: &[Token<'_>]) -> Option<u8>
    ensures { result ≡ last_minterm (map token_meaning tokens.now) }
{
    match tokens {
        [word] => match digits_in(1, word) {
            None => None,
            Some(digits) => {
                let minterm = digits.byte(0);
                if minterm % 16 == 0 {
                    Some(minterm)
                } else {
                    None
                }
            }
        },
        _ => None,
    }
}

/// `X Y W H MM` after the names of a blit.
fn blit_end(tokens: &[Token<'_>]) -> Option<(AskedBox, u8)>
    ensures { option_map (λ e. (box_meaning e.0, e.1)) result ≡ blit_end (map token_meaning tokens.now) }
{
    match box_in(tokens) {
        None => None,
        Some((at, rest)) => match last_minterm(rest) {
            None => None,
            Some(minterm) => Some((at, minterm)),
        },
    }
}

/// `put BM SX SY L X Y W H MM`
pub(crate) fn put_line<'a>(tokens: &[Token<'a>]) -> Option<Statement<'a>>
    ensures { option_map statement_meaning result ≡ put_line (map token_meaning tokens.now) }
{
    match tokens {
        [
            Token::Name(bitmap),
            Token::Number(_, sx),
            Token::Number(_, sy),
            Token::Name(layer),
            rest @ ..,
        ] => match blit_end(rest) {
            None => None,
            Some((at, minterm)) => {
                let area = asked_area(*sx, *sy, &at, minterm);
                let bitmap = *bitmap;
                let act = Act::Put { bitmap, area };
                let layers = Layers::One(*layer);
                Some(Statement::Call { layers, act })
            }
        },
        _ => None,
    }
}

/// `blit L SX SY M X Y W H MM`
pub(crate) fn blit_line<'a>(tokens: &[Token<'a>]) -> Option<Statement<'a>>
    ensures { option_map statement_meaning result ≡ blit_line (map token_meaning tokens.now) }
{
    match tokens {
        [
            Token::Name(source),
            Token::Number(_, sx),
            Token::Number(_, sy),
            Token::Name(layer),
            rest @ ..,
        ] => match blit_end(rest) {
            None => None,
            Some((at, minterm)) => {
                let act = Act::Blit(asked_area(*sx, *sy, &at, minterm));
                let layers = Layers::Two(*source, *layer);
                Some(Statement::Call { layers, act })
            }
        },
        _ => None,
    }
}
