// Bits of a slice of bytes by their place, counted from the most significant bit of the first byte.

ghost use Rattle.std.specs.Prelude.{◌≡◌, ℕ, ◌+◌, ◌*◌, ◌^◌, ◌<◌, ◌≤◌, ◌==◌, ◌≢◌, if◌then◌else◌, length};
ghost use Rattle.std.specs.Int.{bit_at};
ghost use Rattle.lw_planes.specs.Pen.{pen_of};
ghost use Rattle.lw_planes.specs.Row.{bit_of, row_bit};

// The bit at this place, 0 or 1.
#[tactic(auto, using(std::proofs::lemmas::Nat::Bits::shr_and_one), unfolding(crate::specs::Row::row_bit))]
pub(crate) fn bit(bytes: &[u8], place: usize) -> u8
    requires { place < 8 * length bytes.now }
    ensures { result ≡ row_bit bytes.now place }
{
    (bytes[place / 8] >> (7 - place % 8)) & 1
}

// The byte with one bit set to `bit`, and each other bit as it was.
fn with_bit(byte: u8, shift: usize, bit: bool) -> u8
    requires { shift < 8 }
    ensures { (i : ℕ) → i < 8 → bit_at result i ≡ (if i == shift then bit_of bit else bit_at byte i) }
{
    if bit {
        byte | (1 << shift)
    } else {
        byte & !(1 << shift)
    }
}

// Sets the bit at this place, and leaves each other bit as it was.
pub(crate) fn set_bit(bytes: &mut [u8], place: usize, bit: bool)
    requires { place < 8 * length bytes.old }
    ensures { (i : ℕ) → row_bit bytes.new i ≡ (if i == place then bit_of bit else row_bit bytes.old i) }
{
    bytes[place / 8] = with_bit(bytes[place / 8], 7 - place % 8, bit);
}

// The pen whose bits stand `step` places apart.
pub(crate) fn gathered_pen(bytes: &[u8], place: usize, step: usize, depth: u32) -> u8
    requires deep { depth ≤ 8 }
    requires near { 8 * length bytes.now < 2 ^ 32 }
    requires inside { (k : ℕ) → k < depth → place + k * step < 8 * length bytes.now }
    ensures { result ≡ pen_of depth (λ k. row_bit bytes.now (place + k * step)) }
{
    let mut pen = 0;
    for plane in 0..depth {
        pen += bit(bytes, place + plane as usize * step) << plane;
    }
    pen
}

// Gives the places `step` apart the bits of this pen, and leaves each other bit as it was.
pub(crate) fn scatter_pen(bytes: &mut [u8], place: usize, step: usize, depth: u32, pen: u8)
    requires deep { depth ≤ 8 }
    requires near { 8 * length bytes.old < 2 ^ 32 }
    requires apart { 0 < step }
    requires inside { (k : ℕ) → k < depth → place + k * step < 8 * length bytes.old }
    ensures pen { (k : ℕ) → k < depth → row_bit bytes.new (place + k * step) ≡ bit_at pen k }
    ensures others { (i : ℕ) → ((k : ℕ) → k < depth → i ≢ place + k * step) →
        row_bit bytes.new i ≡ row_bit bytes.old i }
{
    for plane in 0..depth {
        set_bit(
            bytes,
            place + plane as usize * step,
            (pen >> plane) & 1 == 1,
        );
    }
}
