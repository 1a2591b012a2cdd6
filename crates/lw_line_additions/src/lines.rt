//! What a line stands for that was read, added below the lines above it.
ghost use Rattle.std.specs.Prelude.{List, OnOk};
ghost use Rattle.lw_grammar.specs.Statements.{Statement as StatementValue};
ghost use Rattle.lw_grammar.specs.Told.{told};
ghost use Rattle.lw_grammar.specs.Script.{Setting, added};
ghost use Rattle.lw_reader.specs.Represents.{Represents};
ghost use Rattle.lw_line_additions.specs.Added.{CanAddRead};
ghost use Rattle.lw_reader.specs.LinesRead.{lines_of};

use crate::adding::add;
use crate::areas::add_area;
use crate::pairs::add_gzz;
use lw_reader::{ReadLine, Reader};
use std::alloc::{AllocError, Global};

/// Adds what a line stands for that was read.
pub fn add_read<'a>(
    alloc: Global,
    reader: &mut Reader<'a>,
    read: &ReadLine<'a>,
) -> Result<(), AllocError>
    requires { CanAddRead reader.old read.now }
    ensures { (s : Setting) (above : List StatementValue) → Represents s reader.old above
        → OnOk result (Represents s reader.new (added (lines_of (told above) read.now) above)) }
{
    match read {
        ReadLine::Statement(statement) => add(alloc, reader, statement),
        ReadLine::Area { layer, rects } => add_area(alloc, reader, *layer, rects.as_slice()),
        ReadLine::Gzz { statements, opened } => {
            add_gzz(alloc, reader, statements.as_slice(), opened)
        }
    }
}
