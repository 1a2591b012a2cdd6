//! Lines of a word and a name.

ghost use Rattle.std.specs.Prelude.{◌≡◌, ◌++◌, ◌∷◌, OnOk};
ghost use Rattle.lw_calls.specs.Written.{line_of};

use lw_text_output::{end_line, push_word};
use std::alloc::AllocError;

/// Writes a line of a word and a name.
pub fn push_named_line(out: &mut Vec<u8>, word: &[u8], name: &[u8]) -> Result<(), AllocError>
    ensures { OnOk result (out.new.items ≡ out.old.items ++ line_of (word.now ++ 32 ∷ name.now)) }
{
    out.extend_from_slice(word)?;
    push_word(out, name)?;
    end_line(out)
}
