//! The text of the show that bytes are.

ghost use Rattle.std.specs.Prelude.{◌≡◌, ℕ, ◌<◌, length, Err, IfOk};
ghost use Rattle.lw_display.specs.declared.reason.ShowReason.{ShowReason as ReasonValue};
ghost use Rattle.lw_display_run.specs.Shown.{IsShownAs, IsNoShow};

use crate::showing::text_of_show;
use lw_display::{ShowStop, read_display};
use std::alloc::Global;

/// The text of the show that these bytes are, or their first bad line. It takes no lock, and returns.
pub fn text_shown(alloc: Global, bytes: &[u8]) -> Result<Vec<u8>, ShowStop>
    requires { length bytes.now < 4294967295 }
    ensures shown { IfOk result (λ text. IsShownAs bytes.now text.items) }
    ensures refused { (line : ℕ) (reason : ReasonValue) → result ≡ Err (ShowStop.Refused line reason)
        → IsNoShow bytes.now line reason }
{
    match read_display(alloc, bytes) {
        Ok(show) => Ok(text_of_show(alloc, &show)?),
        Err(stop) => Err(stop),
    }
}
