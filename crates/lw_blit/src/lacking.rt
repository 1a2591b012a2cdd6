// Planes that a source lacks.

ghost use Rattle.std.specs.Prelude.{◌≡◌, ℕ, ◌^◌, ◌<◌};
ghost use Rattle.std.specs.Int.{bit_at};
ghost use Rattle.lw_planes.specs.Minterm.{minterm_bit};

// A plane of a source with so many planes, and a minterm that makes of its bits what the given one makes of the bits of a plane,
// which are 0 where the source lacks it.
pub(crate) fn source_plane(depth: u32, plane: u32, minterm: u8) -> (u32, u8)
    requires { 0 < depth }
    ensures plane { result.0 < depth }
    ensures value { (pen old : ℕ) → pen < 2 ^ depth → old < 2 →
        minterm_bit result.1 (bit_at pen result.0) old ≡ minterm_bit minterm (bit_at pen plane) old }
{
    if plane < depth {
        return (plane, minterm);
    }
    (0, without_source(minterm))
}

// The minterm whose value is the given one's where B isn't set, whatever B is.
fn without_source(minterm: u8) -> u8
    ensures { (b c : ℕ) → b < 2 → c < 2 → minterm_bit result b c ≡ minterm_bit minterm 0 c }
{
    (minterm & 0x30) | ((minterm & 0x30) << 2)
}
