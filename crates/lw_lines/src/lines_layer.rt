ghost use Rattle.std.specs.Prelude.{◌≡◌, map, option_map};
ghost use Rattle.lw_grammar.specs.Statements.{layer_line, number_line, pair_line, text_line, rect_line, region_line};
ghost use Rattle.lw_grammar.specs.Statements.{clear_line, which_line, infront_line, four_line, scrollraster_line};
ghost use Rattle.lw_grammar.specs.Statements.{endrefresh_line, BoxAct, FillAct, box, rectangle};
ghost use Rattle.lw_words.specs.TokenMeaning.{token_meaning};
ghost use Rattle.lw_statements.specs.StatementMeaning.{statement_meaning};

use crate::corners::{only_box, only_corners};
use lw_calls::{PairOp, RectOp};
use lw_grammar::{BareVerb, NumberVerb, PairVerb, TextVerb};
use lw_statements::{Act, Layers, Statement};
use lw_words::{Token, is_text};

/// A layer alone, as `close L`
pub(crate) fn layer_line<'a>(verb: BareVerb, tokens: &[Token<'a>]) -> Option<Statement<'a>>
    ensures { option_map statement_meaning result ≡ layer_line verb (map token_meaning tokens.now) }
{
    match tokens {
        [Token::Name(layer)] => Some(Statement::on(*layer, Act::Bare(verb))),
        _ => None,
    }
}

/// A layer and a number, as `apen L P`
pub(crate) fn number_line<'a>(verb: NumberVerb, tokens: &[Token<'a>]) -> Option<Statement<'a>>
    ensures { option_map statement_meaning result ≡ number_line verb (map token_meaning tokens.now) }
{
    match tokens {
        [Token::Name(layer), Token::Number(_, number)] => {
            Some(Statement::on(*layer, Act::Number(verb, *number)))
        }
        _ => None,
    }
}

/// A layer and two numbers, as `move L DX DY`
pub(crate) fn pair_line<'a>(verb: PairVerb, tokens: &[Token<'a>]) -> Option<Statement<'a>>
    ensures { option_map statement_meaning result ≡ pair_line verb (map token_meaning tokens.now) }
{
    match tokens {
        [Token::Name(layer), Token::Number(_, x), Token::Number(_, y)] => {
            let act = Act::Pair(verb, *x, *y);
            let layers = Layers::One(*layer);
            Some(Statement::Call { layers, act })
        }
        _ => None,
    }
}

/// A layer and a text, as `title L "TEXT"`
pub(crate) fn text_line<'a>(verb: TextVerb, tokens: &[Token<'a>]) -> Option<Statement<'a>>
    ensures { option_map statement_meaning result ≡ text_line verb (map token_meaning tokens.now) }
{
    match tokens {
        [Token::Name(layer), Token::Text(text)] => {
            Some(Statement::on(*layer, Act::Text(verb, *text)))
        }
        _ => None,
    }
}

/// `orrect R X0 Y0 X1 Y1`, and its kin
pub(crate) fn rect_line<'a>(op: RectOp, tokens: &[Token<'a>]) -> Option<Statement<'a>>
    ensures { option_map statement_meaning result ≡ rect_line op (map token_meaning tokens.now) }
{
    match tokens {
        [Token::Number(_, register), rest @ ..] => match only_corners(rest) {
            None => None,
            Some(corners) => {
                let register = *register;
                Some(Statement::apart(Act::RegRect {
                    op,
                    register,
                    corners,
                }))
            }
        },
        _ => None,
    }
}

/// `orregion S R`, and its kin
pub(crate) fn region_line<'a>(op: PairOp, tokens: &[Token<'a>]) -> Option<Statement<'a>>
    ensures { option_map statement_meaning result ≡ region_line op (map token_meaning tokens.now) }
{
    match tokens {
        [Token::Number(_, source), Token::Number(_, into)] => {
            Some(Statement::apart(Act::RegPair {
                op,
                source: *source,
                into: *into,
            }))
        }
        _ => None,
    }
}

/// `clearregion R`
pub(crate) fn clear_line<'a>(tokens: &[Token<'a>]) -> Option<Statement<'a>>
    ensures { option_map statement_meaning result ≡ clear_line (map token_meaning tokens.now) }
{
    match tokens {
        [Token::Number(_, register)] => Some(Statement::apart(Act::RegClear(*register))),
        _ => None,
    }
}

/// `which X Y`
pub(crate) fn which_line<'a>(tokens: &[Token<'a>]) -> Option<Statement<'a>>
    ensures { option_map statement_meaning result ≡ which_line (map token_meaning tokens.now) }
{
    match tokens {
        [Token::Number(_, x), Token::Number(_, y)] => {
            Some(Statement::apart(Act::Which { x: *x, y: *y }))
        }
        _ => None,
    }
}

/// `infront L M`
pub(crate) fn infront_line<'a>(tokens: &[Token<'a>]) -> Option<Statement<'a>>
    ensures { option_map statement_meaning result ≡ infront_line (map token_meaning tokens.now) }
{
    match tokens {
        [Token::Name(layer), Token::Name(other)] => Some(Statement::Call {
            layers: Layers::Two(*layer, *other),
            act: Act::InFront,
        }),
        _ => None,
    }
}

/// `box L X Y W H`
pub(crate) fn box_line<'a>(tokens: &[Token<'a>]) -> Option<Statement<'a>>
    ensures { option_map statement_meaning result ≡ four_line (λ x y w h. BoxAct (box x y w h))
        (map token_meaning tokens.now) }
{
    match tokens {
        [Token::Name(layer), rest @ ..] => match only_box(rest) {
            None => None,
            Some(at) => Some(Statement::on(*layer, Act::Box(at))),
        },
        _ => None,
    }
}

/// `fill L X0 Y0 X1 Y1`
pub(crate) fn fill_line<'a>(tokens: &[Token<'a>]) -> Option<Statement<'a>>
    ensures { option_map statement_meaning result ≡ four_line (λ x0 y0 x1 y1. FillAct (rectangle x0 y0 x1 y1))
        (map token_meaning tokens.now) }
{
    match tokens {
        [Token::Name(layer), rest @ ..] => match only_corners(rest) {
            None => None,
            Some(corners) => Some(Statement::on(*layer, Act::Fill(corners))),
        },
        _ => None,
    }
}

/// `scrollraster L DX DY X0 Y0 X1 Y1`
pub(crate) fn scrollraster_line<'a>(tokens: &[Token<'a>]) -> Option<Statement<'a>>
    ensures { option_map statement_meaning result ≡ scrollraster_line (map token_meaning tokens.now) }
{
    match tokens {
        [
            Token::Name(layer),
            Token::Number(_, dx),
            Token::Number(_, dy),
            rest @ ..,
        ] => match only_corners(rest) {
            None => None,
            Some(corners) => {
                let act = Act::ScrollRaster {
                    dx: *dx,
                    dy: *dy,
                    corners,
                };
                let layers = Layers::One(*layer);
                Some(Statement::Call { layers, act })
            }
        },
        _ => None,
    }
}

/// `endrefresh L full`, `endrefresh L part`
pub(crate) fn endrefresh_line<'a>(tokens: &[Token<'a>]) -> Option<Statement<'a>>
    ensures { option_map statement_meaning result ≡ endrefresh_line (map token_meaning tokens.now) }
{
    match tokens {
        [Token::Name(layer), Token::Name(how)] => {
            if is_text(*how, b"full") {
                Some(Statement::on(*layer, Act::EndRefresh { full: true }))
            } else if is_text(*how, b"part") {
                Some(Statement::on(*layer, Act::EndRefresh { full: false }))
            } else {
                None
            }
        }
        _ => None,
    }
}
