//! The lines of areas.
ghost use Rattle.std.specs.Prelude.{◌≡◌, true, ◌++◌, ◌∷◌, length, IfOk, IfSome, map, if◌then◌else◌, Some, None, option_map, ◌≤◌};
ghost use Rattle.lw_area.specs.Polygons.{is_point_count};
ghost use Rattle.lw_grammar.specs.Statements.{AreaLine, points_of, area_points, area_line, area_pattern_line};
ghost use Rattle.lw_words.specs.TokenMeaning.{token_meaning};
ghost use Rattle.lw_statements.specs.StatementMeaning.{point_meaning, line_meaning};
ghost use Rattle.lw_lines.specs.FirstPoint.{first_point};

use lw_statements::{AskedPoint, AskedPolygon, Line};
use lw_words::Token;
use std::alloc::{AllocError, Global};

/// The point of the first two tokens, where both are numbers.
fn first_point(tokens: &[Token<'_>]) -> Option<AskedPoint>
    ensures point { option_map point_meaning result ≡ first_point (map token_meaning tokens.now) }
    ensures long { IfSome result (λ p. 2 ≤ length tokens.now) }
{
    match tokens {
        [Token::Number(_, x), Token::Number(_, y), ..] => Some(AskedPoint { x: *x, y: *y }),
        _ => None,
    }
}

/// Puts the points of tokens at the end of others, where each token is a number and each point has two; and whether it did.
fn push_points(points: &mut Vec<AskedPoint>, tokens: &[Token<'_>]) -> Result<bool, AllocError>
    ensures { IfOk result (λ all.
        option_map (λ ps. map point_meaning points.old.items ++ ps) (points_of (map token_meaning tokens.now))
        ≡ (if all then Some (map point_meaning points.new.items) else None)) }
{
    if tokens.is_empty() {
        return Ok(true);
    }
    match first_point(tokens) {
        None => Ok(false),
        Some(point) => {
            points.push(point)?;
            push_points(points, &tokens[2..])
        }
    }
}

/// The points of an area: 3 to 32. More words than those of 32 points aren't gone through, so that the calls of `push_points` in
/// one another stay few.
#[tactic(auto, using(crate::proofs::AreaPoints::too_long))]
fn area_points(alloc: Global, tokens: &[Token<'_>]) -> Result<Option<Vec<AskedPoint>>, AllocError>
    ensures points { IfOk result (λ found. option_map (λ v. map point_meaning v.items) found
        ≡ area_points (map token_meaning tokens.now)) }
    ensures counted { IfOk result (λ found. IfSome found (λ v. is_point_count (length v.items) ≡ true)) }
{
    if tokens.len() > 64 {
        return Ok(None);
    }
    let mut points = Vec::new(alloc);
    if !push_points(&mut points, tokens)? {
        return Ok(None);
    }
    if points.len() < 3 {
        return Ok(None);
    }
    if points.len() > 32 {
        return Ok(None);
    }
    Ok(Some(points))
}

/// An area on this layer with these points.
fn area_after<'a>(
    alloc: Global,
    layer: &'a [u8],
    pattern: Option<&'a [u8]>,
    tokens: &[Token<'a>],
) -> Result<Option<Line<'a>>, AllocError>
    ensures { IfOk result (λ line. option_map line_meaning line
        ≡ option_map (λ ps. AreaLine layer.entry.now (option_map (λ n. n.now) pattern.entry) ps)
        (area_points (map token_meaning tokens.now))) }
{
    match area_points(alloc, tokens)? {
        None => Ok(None),
        Some(points) => Ok(Some(Line::Area(AskedPolygon {
            layer,
            pattern,
            points,
        }))),
    }
}

/// `area L X Y X Y X Y ..`
pub(crate) fn area_line<'a>(
    alloc: Global,
    tokens: &[Token<'a>],
) -> Result<Option<Line<'a>>, AllocError>
    ensures { IfOk result (λ line. option_map line_meaning line ≡ area_line (map token_meaning tokens.now)) }
{
    match tokens {
        [Token::Name(layer), rest @ ..] => area_after(alloc, *layer, None, rest),
        _ => Ok(None),
    }
}

/// `areapat L PN X Y X Y X Y ..`
pub(crate) fn area_pattern_line<'a>(
    alloc: Global,
    tokens: &[Token<'a>],
) -> Result<Option<Line<'a>>, AllocError>
    ensures { IfOk result (λ line. option_map line_meaning line ≡ area_pattern_line (map token_meaning tokens.now)) }
{
    match tokens {
        [Token::Name(layer), Token::Name(pattern), rest @ ..] => {
            area_after(alloc, *layer, Some(*pattern), rest)
        }
        _ => Ok(None),
    }
}
