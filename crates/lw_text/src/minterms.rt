// What a template paints in a plane, as a minterm.

ghost use Rattle.std.specs.Prelude.{◌≡◌, ℕ, ◌==◌, ◌<◌, true, false, if◌then◌else◌};
ghost use Rattle.lw_planes.specs.Row.{bit_of};
ghost use Rattle.lw_planes.specs.Minterm.{minterm_bit};
ghost use Rattle.lw_machine.specs.Paint.{candidate_bit, has_inversvid};
ghost use Rattle.lw_machine.specs.Shapes.{differ};
ghost use Rattle.lw_layer.specs.Drafts.{raster_of};

use lw_draw::has_bit;
use lw_layer::Raster;

// The minterm that makes of a template's bit B and a plane's bit C what the plane gets.
pub(crate) fn minterm_of(raster: Raster, plane: u32) -> u8
    requires { plane < 8 }
    ensures { (b c : ℕ) → b < 2 → c < 2 → minterm_bit result b c ≡
        candidate_bit (raster_of raster) (differ (has_inversvid (raster_of raster)) (b == 1)) plane c }
{
    let set = !has_bit(raster.mode, 2);
    minterm(
        candidate(raster, set, plane, true),
        candidate(raster, set, plane, false),
        candidate(raster, !set, plane, true),
        candidate(raster, !set, plane, false),
    )
}

// What a plane's bit becomes, in the foreground or not.
fn candidate(raster: Raster, foreground: bool, plane: u32, old: bool) -> bool
    requires { plane < 8 }
    ensures { bit_of result ≡ candidate_bit (raster_of raster) foreground plane (bit_of old) }
{
    if has_bit(raster.mode, 1) {
        foreground != old
    } else if foreground {
        has_bit(raster.a, plane)
    } else if has_bit(raster.mode, 0) {
        has_bit(raster.b, plane)
    } else {
        old
    }
}

// The minterm with its values for B and C, for B alone, for C alone and for neither.
fn minterm(both: bool, source: bool, old: bool, neither: bool) -> u8
    ensures both { minterm_bit result 1 1 ≡ bit_of both }
    ensures source { minterm_bit result 1 0 ≡ bit_of source }
    ensures old { minterm_bit result 0 1 ≡ bit_of old }
    ensures neither { minterm_bit result 0 0 ≡ bit_of neither }
{
    value(both, 0x80) | value(source, 0x40) | value(old, 0x20) | value(neither, 0x10)
}

// A bit of a minterm, if it is set.
fn value(set: bool, bit: u8) -> u8
    ensures { result ≡ (if set then bit else 0) }
{
    if set { bit } else { 0 }
}
