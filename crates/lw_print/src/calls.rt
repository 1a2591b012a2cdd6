//! The lines of calls.

ghost use Rattle.std.specs.Prelude.{◌≡◌, ◌++◌, ◌∷◌, [], List, ℕ, OnOk, IsTrue};
ghost use Rattle.std.specs.Fmt.{signed_decimal};
ghost use Rattle.lw_canonical.specs.Canonical.{line_of_call};
ghost use Rattle.lw_calls.specs.Written.{line_of, hex_byte};
ghost use Rattle.lw_canonical.specs.Spelling.{spelled, four_words};
ghost use Rattle.lw_print.specs.Behind.{behind, rest_of_call};
ghost use Rattle.lw_print.specs.Families.{begins_with_a_layer, ends_with_four_numbers, has_layer_and_numbers, makes_a_layer};

use crate::making::{push_created, push_opened};
use crate::verbs::verb_of;
use crate::words::{push_byte, push_four, push_pair, push_text};
use lw_calls::{Area, Call, Text};
use lw_text_output::{end_line, name_of, push_spaced, push_spaced_bounds, push_word};
use std::alloc::{AllocError, Global};

/// Writes a call's line. `names` has the layers' names by slot, and `bitmaps` the bitmaps' by number.
pub fn push_call(
    alloc: Global,
    out: &mut Vec<u8>,
    names: &[Text],
    bitmaps: &[Text],
    call: &Call,
) -> Result<(), AllocError>
    ensures { OnOk result (out.new.items ≡ out.old.items ++ line_of (spelled (line_of_call names.now bitmaps.now call.now))) }
{
    out.extend_from_slice(verb_of(call).as_bytes())?;
    push_rest(alloc, out, names, bitmaps, call)?;
    end_line(out)
}

/// Writes what a call's line has after its first word.
fn push_rest(
    alloc: Global,
    out: &mut Vec<u8>,
    names: &[Text],
    bitmaps: &[Text],
    call: &Call,
) -> Result<(), AllocError>
    ensures { OnOk result (out.new.items ≡ out.old.items ++ rest_of_call names.now bitmaps.now call.now) }
{
    match call {
        Call::RegRect { reg, rect, .. } => {
            push_spaced(alloc, out, *reg as usize)?;
            push_spaced_bounds(alloc, out, rect)
        }
        Call::RegPair { source, into, .. } => {
            push_spaced(alloc, out, *source as usize)?;
            push_spaced(alloc, out, *into as usize)
        }
        Call::RegClear { reg } => push_spaced(alloc, out, *reg as usize),
        Call::Which { x, y } => push_pair(alloc, out, *x, *y),
        Call::Put { bitmap, slot, area } => {
            let source = name_of(bitmaps, *bitmap as usize);
            push_blit(alloc, out, source, name_of(names, *slot as usize), area)
        }
        Call::Blit { source, slot, area } => {
            let source = name_of(names, *source as usize);
            push_blit(alloc, out, source, name_of(names, *slot as usize), area)
        }
        _ => push_rest_on_layer(alloc, out, names, call),
    }
}

/// Writes the source of a blit with its place, the layer with its place, the size and the minterm.
fn push_blit(
    alloc: Global,
    out: &mut Vec<u8>,
    source: &[u8],
    layer: &[u8],
    area: &Area,
) -> Result<(), AllocError>
    ensures { OnOk result (out.new.items ≡ out.old.items
        ++ behind (source.now ∷ signed_decimal area.now.sx ∷ signed_decimal area.now.sy ∷ layer.now ∷
        signed_decimal area.now.x ∷ signed_decimal area.now.y ∷
        signed_decimal area.now.w ∷ signed_decimal area.now.h ∷ hex_byte area.now.minterm ∷ [])) }
{
    push_placed(alloc, out, source, area.sx, area.sy)?;
    push_placed(alloc, out, layer, area.x, area.y)?;
    push_pair(alloc, out, area.w, area.h)?;
    push_byte(out, area.minterm)
}

/// Writes a name and two numbers.
fn push_placed(
    alloc: Global,
    out: &mut Vec<u8>,
    name: &[u8],
    x: i32,
    y: i32,
) -> Result<(), AllocError>
    ensures { OnOk result (out.new.items ≡ out.old.items ++ behind (name.now ∷ signed_decimal x ∷ signed_decimal y ∷ [])) }
{
    push_word(out, name)?;
    push_pair(alloc, out, x, y)
}

/// Writes what the line of a call whose first operand is a layer has after its first word.
fn push_rest_on_layer(
    alloc: Global,
    out: &mut Vec<u8>,
    names: &[Text],
    call: &Call,
) -> Result<(), AllocError>
    requires { IsTrue (begins_with_a_layer call.now) }
    ensures { (bitmaps : List (List ℕ)) → OnOk result (out.new.items ≡ out.old.items ++ rest_of_call names.now bitmaps call.now) }
{
    match call {
        Call::Close { slot }
        | Call::ToFront { slot }
        | Call::ToBack { slot }
        | Call::Activate { slot }
        | Call::Unclip { slot }
        | Call::BeginRefresh { slot }
        | Call::TakeMessage { slot } => push_word(out, name_of(names, *slot as usize)),
        Call::InFrontOf { slot, other } => {
            push_word(out, name_of(names, *slot as usize))?;
            push_word(out, name_of(names, *other as usize))
        }
        Call::EndRefresh { slot, full } => {
            push_word(out, name_of(names, *slot as usize))?;
            push_word(out, if *full { b"full" } else { b"part" })
        }
        Call::Letters { slot, text } | Call::SetTitle { slot, title: text } => {
            push_word(out, name_of(names, *slot as usize))?;
            push_text(out, text.bytes())
        }
        Call::Create { .. } | Call::OpenWindow { .. } => push_layer_made(alloc, out, names, call),
        _ => push_layer_and_numbers(alloc, out, names, call),
    }
}

/// Writes the layer of a creation or an opening and what it asks for.
fn push_layer_made(
    alloc: Global,
    out: &mut Vec<u8>,
    names: &[Text],
    call: &Call,
) -> Result<(), AllocError>
    requires { IsTrue (makes_a_layer call.now) }
    ensures { (bitmaps : List (List ℕ)) → OnOk result (out.new.items ≡ out.old.items ++ rest_of_call names.now bitmaps call.now) }
{
    match call {
        Call::Create { slot, make } => {
            push_word(out, name_of(names, *slot as usize))?;
            push_created(alloc, out, make)
        }
        Call::OpenWindow {
            slot,
            make,
            framed,
            nocare,
            asks,
            title,
        } => {
            push_word(out, name_of(names, *slot as usize))?;
            push_opened(alloc, out, make, *framed, *nocare, *asks)?;
            push_text(out, title.bytes())
        }
        // No other call makes a layer.
        _ => unreachable!(),
    }
}

/// Writes the layer and the numbers of a call whose line has just these after its first word.
fn push_layer_and_numbers(
    alloc: Global,
    out: &mut Vec<u8>,
    names: &[Text],
    call: &Call,
) -> Result<(), AllocError>
    requires { IsTrue (has_layer_and_numbers call.now) }
    ensures { (bitmaps : List (List ℕ)) → OnOk result (out.new.items ≡ out.old.items ++ rest_of_call names.now bitmaps call.now) }
{
    match call {
        Call::SetA { slot, pen: number }
        | Call::SetB { slot, pen: number }
        | Call::SetRast { slot, pen: number }
        | Call::SetMode { slot, mode: number }
        | Call::SetMask { slot, mask: number } => {
            push_word(out, name_of(names, *slot as usize))?;
            push_spaced(alloc, out, *number as usize)
        }
        Call::Clip { slot, reg: number } | Call::SetHook { slot, hook: number } => {
            push_word(out, name_of(names, *slot as usize))?;
            push_spaced(alloc, out, *number as usize)
        }
        Call::MoveBy { slot, dx: x, dy: y }
        | Call::SizeBy { slot, dw: x, dh: y }
        | Call::WritePixel { slot, x, y }
        | Call::ReadPixel { slot, x, y }
        | Call::Scroll { slot, dx: x, dy: y } => {
            push_placed(alloc, out, name_of(names, *slot as usize), *x, *y)
        }
        Call::At { slot, x, y } | Call::DrawTo { slot, x, y } => push_placed(
            alloc,
            out,
            name_of(names, *slot as usize),
            *x as i32,
            *y as i32,
        ),
        _ => push_layer_and_four(alloc, out, names, call),
    }
}

/// Writes the layer and the numbers of a call that ends with a place and a size, or with a rectangle.
fn push_layer_and_four(
    alloc: Global,
    out: &mut Vec<u8>,
    names: &[Text],
    call: &Call,
) -> Result<(), AllocError>
    requires { IsTrue (ends_with_four_numbers call.now) }
    ensures { (bitmaps : List (List ℕ)) → OnOk result (out.new.items ≡ out.old.items ++ rest_of_call names.now bitmaps call.now) }
{
    match call {
        Call::SetBox { slot, x, y, w, h } => {
            push_word(out, name_of(names, *slot as usize))?;
            push_four(alloc, out, *x, *y, *w, *h)
        }
        Call::Fill { slot, rect } => {
            push_word(out, name_of(names, *slot as usize))?;
            push_spaced_bounds(alloc, out, rect)
        }
        Call::ScrollRaster { slot, dx, dy, rect } => {
            push_placed(alloc, out, name_of(names, *slot as usize), *dx, *dy)?;
            push_spaced_bounds(alloc, out, rect)
        }
        // No other call ends with a place and a size, or with a rectangle.
        _ => unreachable!(),
    }
}
