//! The whole text.

ghost use Rattle.std.specs.Prelude.{◌≡◌, ◌++◌, pos, IfOk, OnOk};
ghost use Rattle.std.specs.List.{flat_map, range_with_len};
ghost use Rattle.lw_canonical.specs.Canonical.{canonical_text, lines_of_version, lines_of_task};
ghost use Rattle.lw_grammar.specs.Statements.{ScreenLine};
ghost use Rattle.lw_calls.specs.Written.{line_of};
ghost use Rattle.lw_canonical.specs.Spelling.{spelled};
ghost use Rattle.lw_print.specs.Behind.{text_of_lines, text_of};
ghost use Rattle.lw_print.specs.Parts.{glyph_lines, bitmap_lines};

use crate::bitmaps::push_bitmaps;
use crate::glyphs::push_glyphs;
use crate::tasks::push_task;
use lw_calls::{Assets, Plan, Text};
use lw_text_output::{end_line, push_spaced};
use std::alloc::{AllocError, Global};

/// The canonical text of a plan: a script without skipped lines that spells the plan, with each line in its one spelling.
/// After the line of version 2, in a plan of it, and the screen stand the glyphs with some bit set in the order of their codes,
/// the bitmaps with their rows, and the tasks with their calls. The only error is running out of memory.
pub fn print(alloc: Global, plan: &Plan) -> Result<Vec<u8>, AllocError>
    ensures { IfOk result (λ text. text.items ≡ canonical_text plan.now) }
{
    let mut out = Vec::new(alloc);
    push_version(&mut out, plan)?;
    push_screen(alloc, &mut out, plan)?;
    push_assets(alloc, &mut out, plan.bitmap_names(), plan.assets())?;
    push_tasks(alloc, &mut out, plan)?;
    Ok(out)
}

/// Writes the line that a script of version 2 begins with, and nothing for a plan of another version.
fn push_version(out: &mut Vec<u8>, plan: &Plan) -> Result<(), AllocError>
    ensures { OnOk result (out.new.items ≡ out.old.items ++ text_of_lines (lines_of_version plan.now.sizes.version)) }
{
    if plan.version() == 2 {
        out.extend_from_slice(b"layers 2\n")?;
    }
    Ok(())
}

/// Writes the line with the sizes of the screen.
fn push_screen(alloc: Global, out: &mut Vec<u8>, plan: &Plan) -> Result<(), AllocError>
    ensures { OnOk result (out.new.items ≡ out.old.items
        ++ line_of (spelled (ScreenLine (pos plan.now.sizes.width) (pos plan.now.sizes.height) (pos plan.now.sizes.depth)))) }
{
    let sizes = plan.sizes();
    out.extend_from_slice(b"screen")?;
    push_spaced(alloc, out, sizes.width as usize)?;
    push_spaced(alloc, out, sizes.height as usize)?;
    push_spaced(alloc, out, sizes.depth as usize)?;
    end_line(out)
}

/// Writes the lines of glyphs and bitmaps. `names` has the bitmaps' names by number.
fn push_assets(
    alloc: Global,
    out: &mut Vec<u8>,
    names: &[Text],
    assets: &Assets,
) -> Result<(), AllocError>
    ensures { OnOk result (out.new.items ≡ out.old.items
        ++ text_of_lines (glyph_lines assets.now.glyphs ++ bitmap_lines names.now assets.now.bitmaps)) }
{
    push_glyphs(out, &assets.glyphs)?;
    push_bitmaps(alloc, out, names, assets.bitmaps.as_slice())
}

/// Writes the lines of each task in rising number.
fn push_tasks(alloc: Global, out: &mut Vec<u8>, plan: &Plan) -> Result<(), AllocError>
    ensures { OnOk result (out.new.items ≡ out.old.items
        ++ text_of (flat_map (lines_of_task plan.now) (range_with_len 0 plan.now.sizes.tasks))) }
{
    for task in 0..plan.sizes().tasks {
        push_task(alloc, out, plan, task)?;
    }
    Ok(())
}
