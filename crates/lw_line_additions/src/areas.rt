//! Areas, added as their fills.
ghost use Rattle.std.specs.Prelude.{◌≡◌, ◌∷◌, [], OnOk, List};
ghost use Rattle.lw_grammar.specs.Statements.{Statement as StatementValue, FillAct, CallLine};
ghost use Rattle.lw_grammar.specs.Told.{fill_lines, area_lines, told};
ghost use Rattle.lw_grammar.specs.Script.{Setting, added};
ghost use Rattle.lw_statements.specs.StatementMeaning.{act_meaning};
ghost use Rattle.lw_reader.specs.ReaderKnows.{known};
ghost use Rattle.lw_line_additions.specs.Added.{locked_fills};
ghost use Rattle.lw_reader.specs.Represents.{Represents, CanAdd, CanAddAll};

use crate::adding::{add_call, add_lock, add_name_without_slot, add_unlock};
use lw_reader::Reader;
use lw_region::Rect;
use lw_statements::{Act, Corners, Layers};
use std::alloc::{AllocError, Global};

/// A fill of a rectangle.
#[tactic(auto, using(std::proofs::lemmas::Int::ints))]
fn fill_of<'a>(rect: &Rect) -> Act<'a>
    ensures { act_meaning result ≡ FillAct rect.now }
{
    Act::Fill(Corners {
        x0: i64::from(rect.min_x()),
        y0: i64::from(rect.min_y()),
        x1: i64::from(rect.max_x()),
        y1: i64::from(rect.max_y()),
    })
}

/// Adds a fill of a layer.
fn add_fill<'a>(
    alloc: Global,
    reader: &mut Reader<'a>,
    layer: &'a [u8],
    rect: &Rect,
) -> Result<(), AllocError>
    requires { CanAdd reader.old (CallLine (layer.now ∷ []) (FillAct rect.now)) }
    ensures { (s : Setting) (above : List StatementValue) → Represents s reader.old above
        → OnOk result (Represents s reader.new (CallLine (layer.entry.now ∷ []) (FillAct rect.now) ∷ above)) }
{
    add_call(alloc, reader, Layers::One(layer), &fill_of(rect))
}

/// Adds fills of a layer.
fn add_fills<'a>(
    alloc: Global,
    reader: &mut Reader<'a>,
    layer: &'a [u8],
    rects: &[Rect],
) -> Result<(), AllocError>
    requires { CanAddAll reader.old (fill_lines layer.now rects.now) }
    ensures { (s : Setting) (above : List StatementValue) → Represents s reader.old above
        → OnOk result (Represents s reader.new (added (fill_lines layer.entry.now rects.now) above)) }
{
    for rect in rects {
        add_fill(alloc, reader, layer, rect)?;
    }
    Ok(())
}

/// Adds fills of a layer as a lock group.
fn add_locked_fills<'a>(
    alloc: Global,
    reader: &mut Reader<'a>,
    layer: &'a [u8],
    rects: &[Rect],
) -> Result<(), AllocError>
    requires { CanAddAll reader.old (locked_fills layer.now rects.now) }
    ensures { (s : Setting) (above : List StatementValue) → Represents s reader.old above
        → OnOk result (Represents s reader.new (added (locked_fills layer.entry.now rects.now) above)) }
{
    add_lock(reader, layer)?;
    add_fills(alloc, reader, layer, rects)?;
    add_unlock(reader, layer)
}

/// Adds what an area with these rectangles stands for.
pub(crate) fn add_area<'a>(
    alloc: Global,
    reader: &mut Reader<'a>,
    layer: &'a [u8],
    rects: &[Rect],
) -> Result<(), AllocError>
    requires { CanAddAll reader.old (area_lines (known reader.old).group layer.now rects.now) }
    ensures { (s : Setting) (above : List StatementValue) → Represents s reader.old above
        → OnOk result (Represents s reader.new (added (area_lines (told above).group layer.entry.now rects.now) above)) }
{
    if rects.is_empty() {
        return add_name_without_slot(reader, layer);
    }
    if reader.tasks.group.is_some() {
        return add_fills(alloc, reader, layer, rects);
    }
    add_locked_fills(alloc, reader, layer, rects)
}
