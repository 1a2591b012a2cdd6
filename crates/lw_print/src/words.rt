//! Words after the first of a line, each after a space.

ghost use Rattle.std.specs.Prelude.{◌≡◌, ◌++◌, ◌∷◌, [], OnOk, option_map, pos};
ghost use Rattle.std.specs.Fmt.{signed_decimal};
ghost use Rattle.lw_calls.specs.Written.{spaced_signed, hex_byte};
ghost use Rattle.lw_canonical.specs.Spelling.{four_words, flag_words, hook_words, text_word};
ghost use Rattle.lw_print.specs.Behind.{behind};

use lw_text_output::{push_hex_byte, push_spaced, push_spaced_signed, push_word};
use std::alloc::{AllocError, Global};

/// Writes a number.
pub fn push_number(alloc: Global, out: &mut Vec<u8>, number: i32) -> Result<(), AllocError>
    ensures { OnOk result (out.new.items ≡ out.old.items ++ spaced_signed number) }
{
    push_spaced_signed(alloc, out, number as i64)
}

/// Writes two numbers.
pub fn push_pair(alloc: Global, out: &mut Vec<u8>, x: i32, y: i32) -> Result<(), AllocError>
    ensures { OnOk result (out.new.items ≡ out.old.items ++ behind (signed_decimal x ∷ signed_decimal y ∷ [])) }
{
    push_number(alloc, out, x)?;
    push_number(alloc, out, y)
}

/// Writes four numbers.
pub fn push_four(
    alloc: Global,
    out: &mut Vec<u8>,
    x: i32,
    y: i32,
    w: i32,
    h: i32,
) -> Result<(), AllocError>
    ensures { OnOk result (out.new.items ≡ out.old.items ++ behind (four_words x y w h)) }
{
    push_pair(alloc, out, x, y)?;
    push_pair(alloc, out, w, h)
}

/// Writes a word that is there, or nothing.
pub fn push_flag(out: &mut Vec<u8>, word: &[u8], is_there: bool) -> Result<(), AllocError>
    ensures { OnOk result (out.new.items ≡ out.old.items ++ behind (flag_words word.now is_there)) }
{
    if is_there {
        push_word(out, word)
    } else {
        Ok(())
    }
}

/// Writes the hook that is asked for, and nothing where none is.
pub fn push_hook(alloc: Global, out: &mut Vec<u8>, hook: Option<u32>) -> Result<(), AllocError>
    ensures { OnOk result (out.new.items ≡ out.old.items ++ behind (hook_words (option_map pos hook))) }
{
    match hook {
        Some(number) => push_numbered(alloc, out, b"hook", number),
        None => Ok(()),
    }
}

/// Writes a word and a number.
fn push_numbered(
    alloc: Global,
    out: &mut Vec<u8>,
    word: &[u8],
    number: u32,
) -> Result<(), AllocError>
    ensures { OnOk result (out.new.items ≡ out.old.items ++ behind (word.now ∷ signed_decimal (pos number) ∷ [])) }
{
    push_word(out, word)?;
    push_spaced(alloc, out, number as usize)
}

/// Writes a text between its quotes.
pub fn push_text(out: &mut Vec<u8>, text: &[u8]) -> Result<(), AllocError>
    ensures { OnOk result (out.new.items ≡ out.old.items ++ behind (text_word text.now ∷ [])) }
{
    out.extend_from_slice(b" \"")?;
    out.extend_from_slice(text)?;
    out.push(b'"')?;
    Ok(())
}

/// Writes a byte in two hexadecimal digits.
pub fn push_byte(out: &mut Vec<u8>, byte: u8) -> Result<(), AllocError>
    ensures { OnOk result (out.new.items ≡ out.old.items ++ behind (hex_byte byte ∷ [])) }
{
    out.push(b' ')?;
    push_hex_byte(out, byte)
}
