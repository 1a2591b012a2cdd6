// Single bytes of a row, seen as eight bits from the left.

ghost use Rattle.std.specs.Prelude.{◌≡◌, ℕ, ◌+◌, ◌-◌, ◌*◌, ◌^◌, ◌<◌, ◌≤◌, ◌==◌, nat_lt, if◌then◌else◌, length};
ghost use Rattle.std.specs.Int.{bit_at};
ghost use Rattle.lw_planes.specs.Row.{bit_of, row_bit};
ghost use Rattle.lw_planes.specs.Minterm.{minterm_bit};
ghost use Rattle.lw_kernels.specs.Kernel.{is_between};

// The byte whose bits are all this one.
pub(crate) fn spread(bit: bool) -> u8
    ensures { (i : ℕ) → i < 8 → bit_at result i ≡ bit_of bit }
{
    if bit { 0xff } else { 0 }
}

// The byte that has a 1 in the bits from the left that are not before this one.
fn ones_from(first: usize) -> u8
    requires { first ≤ 8 }
    ensures { (j : ℕ) → j < 8 → bit_at result (7 - j) ≡ (if nat_lt j first then 0 else 1) }
{
    (0xff_u16 >> first) as u8
}

// The bits of byte `index` of a row that stand from bit `from` of the row on, before bit `end`; both are in the
// byte, or at its end.
pub(crate) fn mask(from: usize, end: usize, index: usize) -> u8
    requires near { index < 2 ^ 60 }
    requires begins { 8 * index ≤ from }
    requires ordered { from ≤ end }
    requires ends { end ≤ 8 * index + 8 }
    ensures { (j : ℕ) → j < 8 → bit_at result (7 - j) ≡ bit_of (is_between from end (8 * index + j)) }
{
    ones_from(from - 8 * index) & !ones_from(end - 8 * index)
}

// The bits of one byte where the mask has a 1, and those of the other byte elsewhere.
pub(crate) fn picked(mask: u8, one: u8, other: u8) -> u8
    ensures { (i : ℕ) → i < 8 → bit_at result i ≡ (if bit_at mask i == 1 then bit_at one i else bit_at other i) }
{
    (one & mask) | (other & !mask)
}

// The eight bits of a pair of neighbouring bytes from bit `shift` of the pair on.
#[inline(always)]
pub(crate) fn shifted(left: u8, right: u8, shift: usize) -> u8
    requires some { 0 < shift }
    requires low { shift < 8 }
    ensures { (j : ℕ) → j < 8 → bit_at result (7 - j) ≡ (if nat_lt (shift + j) 8
        then bit_at left (7 - (shift + j))
        else bit_at right (15 - (shift + j))) }
{
    (left << shift) | (right >> (8 - shift))
}

// The eight bits of a row from bit `shift` of byte `at` on, where all of them are in the row.
#[inline(always)]
pub(crate) fn byte_from(row: &[u8], at: usize, shift: usize) -> u8
    requires low { shift < 8 }
    requires inside { 8 * at + shift + 8 ≤ 8 * length row.now }
    ensures { (j : ℕ) → j < 8 → bit_at result (7 - j) ≡ row_bit row.now (8 * at + shift + j) }
{
    if shift == 0 {
        row[at]
    } else {
        shifted(row[at], row[at + 1], shift)
    }
}

// The minterm's value for each source bit and old bit of two bytes.
pub(crate) fn minterm_byte(minterm: u8, source: u8, old: u8) -> u8
    ensures { (i : ℕ) → i < 8 → bit_at result i ≡ minterm_bit minterm (bit_at source i) (bit_at old i) }
{
    picked(
        source,
        picked(
            old,
            spread((minterm >> 7) & 1 == 1),
            spread((minterm >> 6) & 1 == 1),
        ),
        picked(
            old,
            spread((minterm >> 5) & 1 == 1),
            spread((minterm >> 4) & 1 == 1),
        ),
    )
}
