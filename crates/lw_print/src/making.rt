//! What the lines of creations and openings have after their layer's name.

ghost use Rattle.std.specs.Prelude.{codes, ◌≡◌, ◌++◌, ◌∷◌, [], OnOk, pos, ◌+ℤ◌, ◌-ℤ◌};
ghost use Rattle.std.specs.Fmt.{signed_decimal};
ghost use Rattle.lw_canonical.specs.Canonical.{new_layer_of, created_bounds, opened_box};
ghost use Rattle.lw_calls.specs.Written.{spaced_signed};
ghost use Rattle.lw_canonical.specs.Spelling.{kind_word, place_word, bounds_words, box_words, flag_words, hook_words};
ghost use Rattle.lw_canonical.specs.Spelling.{class_letter, set_word, ask_words, created_words, opened_words_without_bitmap, opened_words};
ghost use Rattle.lw_print.specs.Behind.{behind};

use crate::words::{push_flag, push_four, push_hook, push_pair};
use lw_calls::{Kind, Make, Place};
use lw_text_output::{push_spaced, push_spaced_signed, push_word};
use std::alloc::{AllocError, Global};

/// Writes what a creation asks for: its kind and place, its bounds and its options.
pub fn push_created(alloc: Global, out: &mut Vec<u8>, make: &Make) -> Result<(), AllocError>
    ensures { OnOk result (out.new.items ≡ out.old.items
        ++ behind (kind_word make.now.kind ∷ place_word make.now.place ∷ bounds_words (created_bounds make.now)
        ++ created_words make.now.kind (new_layer_of make.now))) }
{
    push_kind_and_place(out, make.kind, make.place)?;
    push_created_bounds(alloc, out, make)?;
    push_created_options(alloc, out, make)
}

/// Writes a layer's kind and its place.
pub fn push_kind_and_place(out: &mut Vec<u8>, kind: Kind, place: Place) -> Result<(), AllocError>
    ensures { OnOk result (out.new.items ≡ out.old.items ++ behind (kind_word kind ∷ place_word place ∷ [])) }
{
    push_word(out, kind_word(kind).as_bytes())?;
    push_word(out, place_word(place).as_bytes())
}

/// The word of a layer's kind.
fn kind_word(kind: Kind) -> &'static str
    ensures { result.now ≡ kind_word kind }
{
    match kind {
        Kind::Simple => "simple",
        Kind::Smart => "smart",
        Kind::SuperBitmap => "super",
    }
}

/// The word of a layer's place.
fn place_word(place: Place) -> &'static str
    ensures { result.now ≡ place_word place }
{
    match place {
        Place::Front => "front",
        Place::Behind => "behind",
    }
}

/// Writes the bounds of a layer that is created.
fn push_created_bounds(alloc: Global, out: &mut Vec<u8>, make: &Make) -> Result<(), AllocError>
    ensures { OnOk result (out.new.items ≡ out.old.items ++ behind (bounds_words (created_bounds make.now))) }
{
    push_pair(alloc, out, make.x, make.y)?;
    push_last_corner(alloc, out, make)
}

/// Writes the last column and the last row of a layer that is created.
fn push_last_corner(alloc: Global, out: &mut Vec<u8>, make: &Make) -> Result<(), AllocError>
    ensures { OnOk result (out.new.items ≡ out.old.items
        ++ behind (signed_decimal ((make.now.x +ℤ make.now.w) -ℤ pos 1) ∷
        signed_decimal ((make.now.y +ℤ make.now.h) -ℤ pos 1) ∷ [])) }
{
    push_last(alloc, out, make.x, make.w)?;
    push_last(alloc, out, make.y, make.h)
}

/// Writes the last column, or row, of a layer that begins at `first` and has `count` of them.
fn push_last(alloc: Global, out: &mut Vec<u8>, first: i32, count: i32) -> Result<(), AllocError>
    ensures { OnOk result (out.new.items ≡ out.old.items ++ spaced_signed ((first +ℤ count) -ℤ pos 1)) }
{
    push_spaced_signed(alloc, out, first as i64 + count as i64 - 1)
}

/// Writes the options of a layer that is created.
fn push_created_options(alloc: Global, out: &mut Vec<u8>, make: &Make) -> Result<(), AllocError>
    ensures { OnOk result (out.new.items ≡ out.old.items ++ behind (created_words make.now.kind (new_layer_of make.now))) }
{
    match make.kind {
        Kind::SuperBitmap => {
            push_bits(alloc, out, make)?;
            push_backdrop(out, make)
        }
        Kind::Simple | Kind::Smart => {
            push_backdrop(out, make)?;
            push_hook(alloc, out, make.hook)
        }
    }
}

/// Writes that a layer is a backdrop layer, and nothing of one that isn't.
fn push_backdrop(out: &mut Vec<u8>, make: &Make) -> Result<(), AllocError>
    ensures { OnOk result (out.new.items ≡ out.old.items ++ behind (flag_words (codes "backdrop") make.now.backdrop)) }
{
    push_flag(out, b"backdrop", make.backdrop)
}

/// Writes the width and height of a layer's own bitmap.
fn push_bits(alloc: Global, out: &mut Vec<u8>, make: &Make) -> Result<(), AllocError>
    ensures { OnOk result (out.new.items ≡ out.old.items
        ++ behind (signed_decimal (pos make.now.bits_w) ∷ signed_decimal (pos make.now.bits_h) ∷ [])) }
{
    push_spaced(alloc, out, make.bits_w as usize)?;
    push_spaced(alloc, out, make.bits_h as usize)
}

/// Writes what an opening asks for but its title: its kind and place, its place and size on the screen, and its options.
pub fn push_opened(
    alloc: Global,
    out: &mut Vec<u8>,
    make: &Make,
    framed: bool,
    nocare: bool,
    asks: u8,
) -> Result<(), AllocError>
    ensures { OnOk result (out.new.items ≡ out.old.items
        ++ behind (kind_word make.now.kind ∷ place_word make.now.place ∷ box_words (opened_box make.now)
        ++ opened_words make.now.kind (new_layer_of make.now) framed nocare asks)) }
{
    push_kind_and_place(out, make.kind, make.place)?;
    push_place_and_size(alloc, out, make)?;
    push_opened_options(alloc, out, make, framed, nocare, asks)
}

/// Writes the place of a window on the screen and its size.
fn push_place_and_size(alloc: Global, out: &mut Vec<u8>, make: &Make) -> Result<(), AllocError>
    ensures { OnOk result (out.new.items ≡ out.old.items ++ behind (box_words (opened_box make.now))) }
{
    push_four(alloc, out, make.x, make.y, make.w, make.h)
}

/// Writes the options of a window.
fn push_opened_options(
    alloc: Global,
    out: &mut Vec<u8>,
    make: &Make,
    framed: bool,
    nocare: bool,
    asks: u8,
) -> Result<(), AllocError>
    ensures { OnOk result (out.new.items ≡ out.old.items
        ++ behind (opened_words make.now.kind (new_layer_of make.now) framed nocare asks)) }
{
    match make.kind {
        Kind::SuperBitmap => {
            push_bits(alloc, out, make)?;
            push_backdrop(out, make)?;
            push_asks(out, asks)
        }
        Kind::Simple | Kind::Smart => push_options_without_bitmap(
            alloc, out, make, framed, nocare, asks,
        ),
    }
}

/// Writes the options of a window without a bitmap of its own.
fn push_options_without_bitmap(
    alloc: Global,
    out: &mut Vec<u8>,
    make: &Make,
    framed: bool,
    nocare: bool,
    asks: u8,
) -> Result<(), AllocError>
    ensures { OnOk result (out.new.items
        ≡ out.old.items ++ behind (opened_words_without_bitmap (new_layer_of make.now) framed nocare asks)) }
{
    push_backdrop(out, make)?;
    push_flag(out, b"borderless", !framed)?;
    push_flag(out, b"nocare", nocare)?;
    push_hook(alloc, out, make.hook)?;
    push_asks(out, asks)
}

/// Writes the classes of messages that are asked for, and nothing where there are none.
pub fn push_asks(out: &mut Vec<u8>, asks: u8) -> Result<(), AllocError>
    ensures { OnOk result (out.new.items ≡ out.old.items ++ behind (ask_words asks)) }
{
    if asks == 0 {
        return Ok(());
    }
    push_word(out, b"ask")?;
    out.push(b' ')?;
    push_letters(out, asks)
}

/// Writes the letters of a set of classes.
fn push_letters(out: &mut Vec<u8>, asks: u8) -> Result<(), AllocError>
    ensures { OnOk result (out.new.items ≡ out.old.items ++ set_word asks) }
{
    push_letter(out, b'r', asks)?;
    push_letter(out, b'n', asks / 2)?;
    push_letter(out, b'c', asks / 4)?;
    push_letter(out, b'a', asks / 8)?;
    push_letter(out, b'i', asks / 16)
}

/// Writes the letter of the class that is the lowest bit of what is left of a set, where the set has it.
fn push_letter(out: &mut Vec<u8>, letter: u8, classes: u8) -> Result<(), AllocError>
    ensures { OnOk result (out.new.items ≡ out.old.items ++ class_letter letter classes) }
{
    if classes % 2 == 1 {
        out.push(letter)?;
    }
    Ok(())
}
