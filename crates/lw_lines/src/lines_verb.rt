ghost use Rattle.std.specs.Prelude.{◌≡◌, IfOk, map, option_map};
ghost use Rattle.lw_grammar.specs.Statements.{part_line, statement_by as statement_meant, line_by as line_meant};
ghost use Rattle.lw_words.specs.TokenMeaning.{token_meaning};
ghost use Rattle.lw_statements.specs.StatementMeaning.{statement_meaning, line_meaning};

use crate::lines_area::{area_line, area_pattern_line};
use crate::lines_asked::{create_line, open_line};
use crate::lines_blit::{blit_line, put_line};
use crate::lines_gzz::gzz_line;
use crate::lines_layer::{
    box_line, clear_line, endrefresh_line, fill_line, infront_line, layer_line, number_line,
    pair_line, rect_line, region_line, scrollraster_line, text_line, which_line,
};
use crate::lines_parts::{
    alone, bitmap_line, glyph_line, layers_line, only_name, pattern_line, screen_line,
};
use lw_grammar::{PartVerb, Verb};
use lw_statements::{Line, Statement};
use lw_words::Token;
use std::alloc::{AllocError, Global};

/// The statement of a line that parts a script or a task.
fn part_line<'a>(
    alloc: Global,
    verb: PartVerb,
    tokens: &[Token<'a>],
) -> Result<Option<Statement<'a>>, AllocError>
    ensures { IfOk result (λ statement. option_map statement_meaning statement ≡ part_line verb (map token_meaning tokens.now)) }
{
    match verb {
        PartVerb::Layers => Ok(layers_line(tokens)),
        PartVerb::Screen => Ok(screen_line(tokens)),
        PartVerb::Glyph => Ok(glyph_line(tokens)),
        PartVerb::Bitmap => Ok(bitmap_line(tokens)),
        PartVerb::Pattern => pattern_line(alloc, tokens),
        PartVerb::Task => Ok(only_name(tokens).map(|name| Statement::Task(name))),
        PartVerb::End => Ok(alone(Statement::End, tokens)),
        PartVerb::Order => Ok(alone(Statement::Order, tokens)),
        PartVerb::Report => Ok(alone(Statement::Report, tokens)),
        PartVerb::Lock => Ok(only_name(tokens).map(|name| Statement::Lock(name))),
        PartVerb::Unlock => Ok(only_name(tokens).map(|name| Statement::Unlock(name))),
        PartVerb::Hold => Ok(alone(Statement::Hold, tokens)),
        PartVerb::Release => Ok(alone(Statement::Release, tokens)),
    }
}

/// The statement of a line with this verb, if the words after it make one. Neither an area nor what is done with a window of two
/// layers is one.
fn statement_by<'a>(
    alloc: Global,
    verb: Verb,
    tokens: &[Token<'a>],
) -> Result<Option<Statement<'a>>, AllocError>
    ensures { IfOk result (λ statement. option_map statement_meaning statement
        ≡ statement_meant verb (map token_meaning tokens.now)) }
{
    match verb {
        Verb::Part(verb) => part_line(alloc, verb, tokens),
        Verb::Bare(verb) => Ok(layer_line(verb, tokens)),
        Verb::Number(verb) => Ok(number_line(verb, tokens)),
        Verb::Pair(verb) => Ok(pair_line(verb, tokens)),
        Verb::Text(verb) => Ok(text_line(verb, tokens)),
        Verb::Rect(op) => Ok(rect_line(op, tokens)),
        Verb::Region(op) => Ok(region_line(op, tokens)),
        Verb::ClearRegion => Ok(clear_line(tokens)),
        Verb::Create => Ok(create_line(tokens)),
        Verb::Open => Ok(open_line(tokens)),
        Verb::InFront => Ok(infront_line(tokens)),
        Verb::Box => Ok(box_line(tokens)),
        Verb::Which => Ok(which_line(tokens)),
        Verb::Fill => Ok(fill_line(tokens)),
        Verb::ScrollRaster => Ok(scrollraster_line(tokens)),
        Verb::Put => Ok(put_line(tokens)),
        Verb::Blit => Ok(blit_line(tokens)),
        Verb::EndRefresh => Ok(endrefresh_line(tokens)),
        Verb::Area | Verb::AreaPattern | Verb::Gzz(_) => Ok(None),
    }
}

/// What a line with this verb says, if the words after it make a line.
pub(crate) fn line_by<'a>(
    alloc: Global,
    verb: Verb,
    tokens: &[Token<'a>],
) -> Result<Option<Line<'a>>, AllocError>
    ensures { IfOk result (λ line. option_map line_meaning line ≡ line_meant verb (map token_meaning tokens.now)) }
{
    match verb {
        Verb::Area => area_line(alloc, tokens),
        Verb::AreaPattern => area_pattern_line(alloc, tokens),
        Verb::Gzz(verb) => Ok(gzz_line(verb, tokens)),
        _ => match statement_by(alloc, verb, tokens)? {
            None => Ok(None),
            Some(statement) => Ok(Some(Line::Statement(statement))),
        },
    }
}
