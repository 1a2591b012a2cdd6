//! What a line says, if it passes its tests.
ghost use Rattle.std.specs.Prelude.{◌≡◌, length};
ghost use Rattle.lw_grammar.specs.Statements.{StatementLine, GzzLine};
ghost use Rattle.lw_reader.specs.ReaderKnows.{known, setting_of};
ghost use Rattle.lw_statements.specs.StatementMeaning.{statement_meaning, gzz_meaning, line_meaning};
ghost use Rattle.lw_line_demands.specs.AreasRead.{ReadsBelow, area_meaning, if_passed};

use crate::areas::area_rects;
use crate::pairs::{gzz_read, gzz_tested};
use crate::tested::tested;
use lw_reader::{ReadLine, Reader};
use lw_statements::{AskedPolygon, GzzAct, Line, Statement};
use lw_words::Stop;
use std::alloc::Global;

/// A line's statement, if it passes its tests, or its first reason.
fn tested_statement<'a>(reader: &Reader<'a>, statement: Statement<'a>) -> Result<ReadLine<'a>, Stop>
    ensures { ReadsBelow (known reader.now) result
        (if_passed (setting_of reader.now) (known reader.now) (StatementLine (statement_meaning statement.entry))) }
{
    match tested(reader, &statement) {
        Err(reason) => Err(Stop::Refused(reason)),
        Ok(()) => Ok(ReadLine::Statement(statement)),
    }
}

/// A line's area, if it passes its tests, or its first reason.
fn tested_area<'a>(
    alloc: Global,
    reader: &Reader<'a>,
    area: AskedPolygon<'a>,
) -> Result<ReadLine<'a>, Stop>
    requires { length reader.now.assets.patterns.items ≡ length reader.now.assets.pattern_names.keys }
    ensures { ReadsBelow (known reader.now) result
        (if_passed (setting_of reader.now) (known reader.now) (area_meaning area.entry)) }
{
    match area_rects(alloc, reader, &area) {
        Err(stop) => Err(stop),
        Ok(rects) => Ok(ReadLine::Area {
            layer: area.layer,
            rects,
        }),
    }
}

/// What a line does with the window of two layers of which this is the outer one, if it passes its tests, or its first
/// reason.
fn tested_gzz<'a>(
    alloc: Global,
    reader: &Reader<'a>,
    outer: &'a [u8],
    act: GzzAct<'a>,
) -> Result<ReadLine<'a>, Stop>
    ensures { ReadsBelow (known reader.now) result
        (if_passed (setting_of reader.now) (known reader.now) (GzzLine outer.entry.now (gzz_meaning act.entry))) }
{
    match gzz_tested(reader, &outer, &act) {
        Err(reason) => Err(Stop::Refused(reason)),
        Ok(()) => gzz_read(alloc, reader, outer, &act),
    }
}

/// What a line says, if it passes its tests, or its first reason.
pub fn tested_line<'a>(
    alloc: Global,
    reader: &Reader<'a>,
    line: Line<'a>,
) -> Result<ReadLine<'a>, Stop>
    requires { length reader.now.assets.patterns.items ≡ length reader.now.assets.pattern_names.keys }
    ensures { ReadsBelow (known reader.now) result
        (if_passed (setting_of reader.now) (known reader.now) (line_meaning line.entry)) }
{
    match line {
        Line::Statement(statement) => tested_statement(reader, statement),
        Line::Area(area) => tested_area(alloc, reader, area),
        Line::Gzz { outer, act } => tested_gzz(alloc, reader, outer, act),
    }
}
