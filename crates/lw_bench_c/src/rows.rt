ghost use Rattle.std.specs.Prelude.{◌+◌, ◌*◌, ◌≤◌, ◌<◌, length};

use crate::generator::Generator;
use lw_kernels::{combine, combine_within, fill, flip};

// Room for 4096 bytes from any bit of the second byte on.
const ROOM: usize = 4098;

fn random_row(generator: &mut Generator) -> [u8; ROOM] {
    let mut row = [0; ROOM];
    for byte in row.iter_mut() {
        *byte = generator.byte();
    }
    row
}

// The bytes as one number, so that each of them counts.
fn digest(row: &[u8]) -> u32 {
    let mut sum = 0_u32;
    for byte in row {
        sum = sum.wrapping_mul(31).wrapping_add(u32::from(*byte));
    }
    sum
}

pub(crate) fn repeated(
    kernel: u32,
    bytes: u32,
    bit: u32,
    minterm: u8,
    repetitions: u32,
    seed: u32,
) -> u32
    requires bytes { bytes ≤ 4096 }
    requires bit { bit < 8 }
{
    let mut generator = Generator::new(seed);
    let mut row = random_row(&mut generator);
    let source = random_row(&mut generator);
    let used = &mut row[..bytes as usize + 2];
    match kernel {
        0 => repeat_fill(used, bit, 8 * bytes, repetitions),
        1 => repeat_flip(used, bit, 8 * bytes, repetitions),
        2 => repeat_combine(used, bit, &source, 8 * bytes, minterm, repetitions),
        3 => repeat_combine_within(used, bit, 8, 8 * bytes, minterm, repetitions),
        _ => repeat_combine_within(used, bit + 8, 0, 8 * bytes, minterm, repetitions),
    }
    digest(used)
}

fn repeat_fill(row: &mut [u8], bit: u32, count: u32, repetitions: u32)
    requires { bit + count ≤ 8 * length row.old }
{
    for index in 0..repetitions {
        fill(row, bit, count, index % 2 == 0);
    }
}

fn repeat_flip(row: &mut [u8], bit: u32, count: u32, repetitions: u32)
    requires { bit + count ≤ 8 * length row.old }
{
    for _ in 0..repetitions {
        flip(row, bit, count);
    }
}

fn repeat_combine(
    row: &mut [u8],
    bit: u32,
    source: &[u8],
    count: u32,
    minterm: u8,
    repetitions: u32,
)
    requires inside { bit + count ≤ 8 * length row.old }
    requires source_inside { count ≤ 8 * length source.now }
{
    for _ in 0..repetitions {
        combine(row, bit, source, 0, count, minterm);
    }
}

fn repeat_combine_within(
    row: &mut [u8],
    bit: u32,
    from: u32,
    count: u32,
    minterm: u8,
    repetitions: u32,
)
    requires inside { bit + count ≤ 8 * length row.old }
    requires from_inside { from + count ≤ 8 * length row.old }
{
    for _ in 0..repetitions {
        combine_within(row, bit, from, count, minterm);
    }
}
