//! What is done with a window of two layers, added as its statements.
ghost use Rattle.std.specs.Prelude.{◌++◌, map, OnOk, List};
ghost use Rattle.lw_grammar.specs.Statements.{Statement as StatementValue};
ghost use Rattle.lw_grammar.specs.Script.{Setting, added};
ghost use Rattle.lw_statements.specs.StatementMeaning.{statement_meaning};
ghost use Rattle.lw_reader.specs.LinesRead.{opened_lines};
ghost use Rattle.lw_reader.specs.Represents.{Represents, CanAddAll};

use crate::adding::{add, add_pair};
use lw_reader::{NamedPair, Reader};
use lw_statements::Statement;
use std::alloc::{AllocError, Global};

/// Adds statements one after another.
fn add_statements<'a>(
    alloc: Global,
    reader: &mut Reader<'a>,
    statements: &[Statement<'a>],
) -> Result<(), AllocError>
    requires { CanAddAll reader.old (map statement_meaning statements.now) }
    ensures { (s : Setting) (above : List StatementValue) → Represents s reader.old above
        → OnOk result (Represents s reader.new (added (map statement_meaning statements.now) above)) }
{
    for statement in statements {
        add(alloc, reader, statement)?;
    }
    Ok(())
}

/// Adds the statements of what is done with a window of two layers, and the window that is opened.
pub(crate) fn add_gzz<'a>(
    alloc: Global,
    reader: &mut Reader<'a>,
    statements: &[Statement<'a>],
    opened: &Option<NamedPair<'a>>,
) -> Result<(), AllocError>
    requires { CanAddAll reader.old (map statement_meaning statements.now ++ opened_lines opened.now) }
    ensures { (s : Setting) (above : List StatementValue) → Represents s reader.old above
        → OnOk result (Represents s reader.new
        (added (map statement_meaning statements.now ++ opened_lines opened.now) above)) }
{
    add_statements(alloc, reader, statements)?;
    match opened {
        None => Ok(()),
        Some(pair) => add_pair(reader, pair),
    }
}
