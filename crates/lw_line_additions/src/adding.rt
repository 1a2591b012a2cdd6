//! A line's statement added below those that were read.
ghost use Rattle.std.specs.Prelude.{◌≡◌, ◌≤◌, ◌++◌, pos, unsigned_abs, IsTrue, OnOk, List, ◌∷◌, length, map};
ghost use Rattle.std.specs.List.{list_all};
ghost use Rattle.lw_region.specs.Rectangle.{within};
ghost use Rattle.lw_grammar.specs.Statements.{Statement as StatementValue, ScreenLine, GlyphLine, BitmapLine, RowLine};
ghost use Rattle.lw_grammar.specs.Statements.{PatternLine, TaskLine, NumbersLine, CallLine, LockLine, UnlockLine, HoldLine};
ghost use Rattle.lw_grammar.specs.Statements.{ReleaseLine, NameWithoutSlot, PairMade};
ghost use Rattle.lw_words.specs.Digits.{decoded};
ghost use Rattle.lw_grammar.specs.Script.{Setting};
ghost use Rattle.lw_words.specs.Cuts.{targets};
ghost use Rattle.lw_statements.specs.StatementMeaning.{statement_meaning, act_meaning, layers_meaning};
ghost use Rattle.lw_reader.specs.CallParts.{bitmap_place};
ghost use Rattle.lw_reader.specs.Represents.{Represents, CanAdd};

use lw_area::Pattern;
use lw_reader::{NamedPair, Reader, place_of_name};
use lw_statements::{Act, Layers, Section, Statement, count, version_at_screen};
use lw_words::Digits;
use std::alloc::{AllocError, Global};

/// Puts the numbers at the end of the order.
#[tactic(auto, using(std::proofs::lemmas::Int::ints), unfolding(lw_region::specs::Rectangle::within))]
fn push_numbers(order: &mut Vec<u32>, numbers: &[i64]) -> Result<(), AllocError>
    requires { IsTrue (list_all (λ z. within (pos 0) z (pos 15)) numbers.now) }
    ensures { OnOk result (order.new.items ≡ order.old.items ++ map unsigned_abs numbers.now) }
{
    for number in numbers {
        order.push(count(*number))?;
    }
    Ok(())
}

/// Adds the screen's line.
fn add_screen(reader: &mut Reader<'_>, width: i64, height: i64, depth: i64)
    requires { CanAdd reader.old (ScreenLine width height depth) }
    ensures { (s : Setting) (above : List StatementValue) → Represents s reader.old above
        → Represents s reader.new (ScreenLine width height depth ∷ above) }
{
    reader.width = count(width);
    reader.height = count(height);
    reader.depth = count(depth);
    reader.version = version_at_screen(reader.version);
    reader.section = Section::Assets;
}

/// Adds the glyph of a code.
fn add_glyph<'a>(reader: &mut Reader<'a>, code: u8, digits: &Digits<'a>)
    requires { CanAdd reader.old (GlyphLine code (decoded digits.now.digits.now)) }
    ensures { (s : Setting) (above : List StatementValue) → Represents s reader.old above
        → Represents s reader.new (GlyphLine code (decoded digits.now.digits.now) ∷ above) }
{
    reader.assets.add_glyph(code, digits);
}

/// Adds a bitmap, whose rows are then due.
fn add_bitmap<'a>(
    alloc: Global,
    reader: &mut Reader<'a>,
    name: &'a [u8],
    width: i64,
    height: i64,
    depth: i64,
) -> Result<(), AllocError>
    requires { CanAdd reader.old (BitmapLine name.now width height depth) }
    ensures { (s : Setting) (above : List StatementValue) → Represents s reader.old above
        → OnOk result (Represents s reader.new (BitmapLine name.entry.now width height depth ∷ above)) }
{
    reader.assets.add_bitmap(alloc, name, width, height, depth)
}

/// Adds a row of the nearest bitmap.
fn add_row<'a>(
    alloc: Global,
    reader: &mut Reader<'a>,
    digits: &Digits<'a>,
) -> Result<(), AllocError>
    requires { CanAdd reader.old (RowLine (decoded digits.now.digits.now)) }
    ensures { (s : Setting) (above : List StatementValue) → Represents s reader.old above
        → OnOk result (Represents s reader.new (RowLine (decoded digits.now.digits.now) ∷ above)) }
{
    reader.assets.add_row(alloc, digits)
}

/// Adds a pattern.
fn add_pattern<'a>(
    reader: &mut Reader<'a>,
    name: &'a [u8],
    pattern: &Pattern,
) -> Result<(), AllocError>
    requires { CanAdd reader.old (PatternLine name.now pattern.now) }
    ensures { (s : Setting) (above : List StatementValue) → Represents s reader.old above
        → OnOk result (Represents s reader.new (PatternLine name.entry.now pattern.now ∷ above)) }
{
    reader.assets.add_pattern(name, pattern)
}

/// Adds the beginning of a lock on a layer.
pub(crate) fn add_lock<'a>(reader: &mut Reader<'a>, name: &'a [u8]) -> Result<(), AllocError>
    requires { CanAdd reader.old (LockLine name.now) }
    ensures { (s : Setting) (above : List StatementValue) → Represents s reader.old above
        → OnOk result (Represents s reader.new (LockLine name.entry.now ∷ above)) }
{
    reader.tasks.add_lock(name)
}

/// Adds the end of a lock on a layer.
pub(crate) fn add_unlock<'a>(reader: &mut Reader<'a>, name: &'a [u8]) -> Result<(), AllocError>
    requires { CanAdd reader.old (UnlockLine name.now) }
    ensures { (s : Setting) (above : List StatementValue) → Represents s reader.old above
        → OnOk result (Represents s reader.new (UnlockLine name.entry.now ∷ above)) }
{
    reader.tasks.add_unlock(name)
}

/// Adds the beginning of a hold.
fn add_hold(reader: &mut Reader<'_>)
    requires { CanAdd reader.old HoldLine }
    ensures { (s : Setting) (above : List StatementValue) → Represents s reader.old above
        → Represents s reader.new (HoldLine ∷ above) }
{
    reader.tasks.add_hold();
}

/// Adds the end of a hold.
fn add_release(reader: &mut Reader<'_>) -> Result<(), AllocError>
    requires { CanAdd reader.old ReleaseLine }
    ensures { (s : Setting) (above : List StatementValue) → Represents s reader.old above
        → OnOk result (Represents s reader.new (ReleaseLine ∷ above)) }
{
    reader.tasks.add_release()
}

/// Adds a name that stands on a line without a call.
pub(crate) fn add_name_without_slot<'a>(
    reader: &mut Reader<'a>,
    name: &'a [u8],
) -> Result<(), AllocError>
    ensures { (s : Setting) (above : List StatementValue) → Represents s reader.old above
        → OnOk result (Represents s reader.new (NameWithoutSlot name.entry.now ∷ above)) }
{
    reader.tasks.add_name_without_slot(name)
}

/// Adds a window of two layers.
pub(crate) fn add_pair<'a>(reader: &mut Reader<'a>, pair: &NamedPair<'a>) -> Result<(), AllocError>
    ensures { (s : Setting) (above : List StatementValue) → Represents s reader.old above
        → OnOk result (Represents s reader.new (PairMade pair.now.outer.now pair.now.inner.now ∷ above)) }
{
    reader.tasks.add_pair(pair)
}

/// Adds the beginning of a task.
fn add_task<'a>(alloc: Global, reader: &mut Reader<'a>, name: &'a [u8]) -> Result<(), AllocError>
    requires { CanAdd reader.old (TaskLine name.now) }
    ensures { (s : Setting) (above : List StatementValue) → Represents s reader.old above
        → OnOk result (Represents s reader.new (TaskLine name.entry.now ∷ above)) }
{
    reader.tasks.add_task(alloc, name)?;
    reader.section = Section::Calls;
    Ok(())
}

/// Adds numbers of an order.
fn add_numbers(reader: &mut Reader<'_>, numbers: &[i64]) -> Result<(), AllocError>
    requires { CanAdd reader.old (NumbersLine numbers.now) }
    ensures { (s : Setting) (above : List StatementValue) → Represents s reader.old above
        → OnOk result (Represents s reader.new (NumbersLine numbers.now ∷ above)) }
{
    push_numbers(&mut reader.order, numbers)
}

/// The number of the bitmap that the act names, and 0 where it names none.
fn bitmap_of<'a>(reader: &Reader<'a>, act: &Act<'a>) -> u32
    requires { length reader.now.assets.names.keys ≤ 16 }
    ensures { result ≡ bitmap_place (targets reader.now.assets.names.keys) (act_meaning act.now) }
{
    match act {
        Act::Put { bitmap, .. } => place_of_name(&reader.assets.names, bitmap) as u32,
        _ => 0,
    }
}

/// Adds a call.
pub(crate) fn add_call<'a>(
    alloc: Global,
    reader: &mut Reader<'a>,
    layers: Layers<'a>,
    act: &Act<'a>,
) -> Result<(), AllocError>
    requires { CanAdd reader.old (CallLine (layers_meaning layers) (act_meaning act.now)) }
    ensures { (s : Setting) (above : List StatementValue) → Represents s reader.old above
        → OnOk result (Represents s reader.new (CallLine (layers_meaning layers.entry) (act_meaning act.now) ∷ above)) }
{
    let bitmap = bitmap_of(reader, act);
    reader.tasks.add_call(alloc, bitmap, layers, act)
}

/// Adds a line below those that were read, where it is good.
pub(crate) fn add<'a>(
    alloc: Global,
    reader: &mut Reader<'a>,
    statement: &Statement<'a>,
) -> Result<(), AllocError>
    requires { CanAdd reader.old (statement_meaning statement.now) }
    ensures { (s : Setting) (above : List StatementValue) → Represents s reader.old above
        → OnOk result (Represents s reader.new (statement_meaning statement.now ∷ above)) }
{
    match statement {
        Statement::Layers => {
            reader.version = 2;
            Ok(())
        }
        Statement::Screen {
            width,
            height,
            depth,
        } => {
            add_screen(reader, *width, *height, *depth);
            Ok(())
        }
        Statement::Glyph { code, digits } => {
            add_glyph(reader, *code, digits);
            Ok(())
        }
        Statement::Bitmap {
            name,
            width,
            height,
            depth,
        } => add_bitmap(alloc, reader, *name, *width, *height, *depth),
        Statement::Row(digits) => add_row(alloc, reader, digits),
        Statement::Pattern { name, pattern } => add_pattern(reader, *name, pattern),
        Statement::Task(name) => add_task(alloc, reader, *name),
        Statement::End => {
            reader.section = Section::Tasks;
            Ok(())
        }
        Statement::Order => {
            reader.section = Section::Numbers;
            Ok(())
        }
        Statement::Numbers(numbers) => add_numbers(reader, numbers.as_slice()),
        Statement::Report => {
            reader.section = Section::Nothing;
            Ok(())
        }
        Statement::Call { layers, act } => add_call(alloc, reader, *layers, act),
        Statement::Lock(name) => add_lock(reader, *name),
        Statement::Unlock(name) => add_unlock(reader, *name),
        Statement::Hold => {
            add_hold(reader);
            Ok(())
        }
        Statement::Release => add_release(reader),
    }
}
