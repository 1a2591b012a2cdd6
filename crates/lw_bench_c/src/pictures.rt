ghost use Rattle.std.specs.Prelude.{◌≡◌, length};

use crate::generator::Generator;
use lw_ilbm::{decode, encode};
use lw_planes::Planes;
use std::alloc::{AllocError, Global};

const SIDE: u32 = 2048;

// The bytes of a row.
const ROW: u32 = SIDE / 8;

// The byte of a row of some kind: none set, squares of 32 by 32 pixels, or noise.
fn byte_of(kind: u32, row: u32, column: u32, generator: &mut Generator) -> u8 {
    match kind {
        0 => 0,
        1 => 0u8.wrapping_sub(((row / 32).wrapping_add(column / 4) % 2) as u8),
        _ => generator.byte(),
    }
}

fn fill(kind: u32, bytes: &mut [u8], seed: u32)
    ensures long { length bytes.new ≡ length bytes.old }
{
    let mut generator = Generator::new(seed);
    let mut place: u32 = 0;
    for byte in bytes {
        *byte = byte_of(kind, place / ROW, place % ROW, &mut generator);
        place = place.wrapping_add(1);
    }
}

fn picture(alloc: Global, kind: u32, seed: u32) -> Result<Planes, AllocError> {
    let mut bytes = vec![in alloc; 0; 8 * SIDE as usize * ROW as usize]?;
    fill(kind, bytes.as_mut_slice(), seed);
    Ok(Planes::from_bytes(SIDE, SIDE, 8, bytes))
}

fn encoded(alloc: Global, planes: &Planes, repetitions: u32) -> Result<usize, AllocError> {
    let mut bytes = 0;
    for _ in 0..repetitions {
        bytes = encode(alloc, planes)?.len();
    }
    Ok(bytes)
}

fn decoded(alloc: Global, planes: &Planes, repetitions: u32) -> Option<usize> {
    let bytes = encode(alloc, planes).ok()?;
    // A file that is read has fewer than 2^32 bytes.
    u32::try_from(bytes.len()).ok()?;
    let mut rows = 0;
    for _ in 0..repetitions {
        rows = decode(alloc, bytes.as_slice(), SIDE).ok()?.height() as usize;
    }
    Some(rows)
}

pub(crate) fn counted(
    alloc: Global,
    kind: u32,
    reads: bool,
    repetitions: u32,
    seed: u32,
) -> Option<u32> {
    let planes = picture(alloc, kind, seed).ok()?;
    let count = if reads {
        decoded(alloc, &planes, repetitions)?
    } else {
        encoded(alloc, &planes, repetitions).ok()?
    };
    u32::try_from(count).ok()
}
