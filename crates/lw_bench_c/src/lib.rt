//! The calls of the benchmarks, for a program in C. Each takes numbers alone, makes its operands, those of regions and rows by
//! the generator that docs/BENCHMARKS.md states, and repeats one operation on them.
#![tactic(auto)]

ghost use Rattle.std.specs.Prelude.{◌≡◌, ◌<◌, ◌≤ℤ◌, negsuc};

mod areas;
mod blits;
mod boxes;
mod drawing;
mod generator;
mod operation;
mod pictures;
mod regions;
mod rows;
mod settings;

use std::alloc::Global;

/// How many rectangles the result of an operation on two regions has. Shape 0 is the staggered grid and any
/// other the random boxes; `size` is the number of rectangles of which each operand is made, and `seed` begins
/// the generator. Operation 0 copies the first operand, 1 joins the second to it, 2 keeps what is in both, 3
/// keeps what is in one alone, 4 takes the second from it, and 5 takes one fixed rectangle from it. The
/// operation is done `repetitions` times, each on a fresh copy; for none the answer is 0. It is -1 for an
/// unknown operation and where memory runs out.
#[unsafe(no_mangle)]
pub extern "C" fn lw_bench_regions(
    alloc: Global,
    shape: u32,
    size: u16,
    operation: u32,
    repetitions: u32,
    seed: u32,
) -> i64
    ensures least { negsuc 0 ≤ℤ result }
    ensures unknown { 5 < operation → result ≡ negsuc 0 }
{
    match regions::counted(alloc, shape, size, operation, repetitions, seed) {
        Some(count) => i64::from(count),
        None => -1,
    }
}

/// How many rectangles an area has. Shape 0 is a triangle of some 10,000 pixels, 1 an arrowhead of as many, and 2 a polygon of 32
/// points over 6,000 rows, which `seed` makes; none has a pattern. They are worked out `repetitions` times; for none the answer
/// is 0. It is -1 for an unknown shape and where memory runs out.
#[unsafe(no_mangle)]
pub extern "C" fn lw_bench_areas(alloc: Global, shape: u32, repetitions: u32, seed: u32) -> i64
    ensures least { negsuc 0 ≤ℤ result }
    ensures unknown { 2 < shape → result ≡ negsuc 0 }
{
    match areas::counted(alloc, shape, repetitions, seed) {
        Some(count) => i64::from(count),
        None => -1,
    }
}

/// How many bytes the ILBM file of a picture of 2048 by 2048 pixels with 8 planes has, or, where `reads` isn't 0, how many rows
/// the picture read from it has. Kind 0 has pen 0 all over, 1 squares of 32 by 32 pixels, and any other noise, which `seed`
/// begins. It is written, or read, `repetitions` times; for none the answer is 0. It is -1 where memory runs out.
#[unsafe(no_mangle)]
pub extern "C" fn lw_bench_pictures(
    alloc: Global,
    kind: u32,
    reads: u32,
    repetitions: u32,
    seed: u32,
) -> i64
    ensures { negsuc 0 ≤ℤ result }
{
    match pictures::counted(alloc, kind, reads != 0, repetitions, seed) {
        Some(count) => i64::from(count),
        None => -1,
    }
}

/// A number made of the bytes of a row, after a kernel was called on it `repetitions` times for 8 bits each of
/// `bytes` bytes, from bit `bit % 8` of the row on. Kernel 0 fills, 1 inverts, 2 blits from bit 0 of another row,
/// 3 blits within the row from its bit 8 on, and any other blits within the row from its bit 0 on, to the bits
/// that stand 8 further right; the blits use `minterm`. At most 4096 bytes count. The rows are made from `seed`.
#[unsafe(no_mangle)]
pub extern "C" fn lw_bench_row(
    kernel: u32,
    bytes: u32,
    bit: u32,
    minterm: u8,
    repetitions: u32,
    seed: u32,
) -> u32 {
    rows::repeated(kernel, bytes.min(4096), bit % 8, minterm, repetitions, seed)
}

/// A number made of the bytes of the screen, after drawing calls were made `repetitions` times on the front one of two layers of
/// 640 by 512 pixels and `planes` planes, of which 1 to 8 count. Shape 0 is the fill of a square of `side` by `side` pixels,
/// whose left edge is 3 columns off a byte's; 1 is two lines, from the corner to column 99 and row `side` and back; 2, 3 and 4
/// scroll that square by (1, 0), (0, 1) and (-7, -3); 5, 6 and 7 blit a square, 3 columns to the right in its bytes, from a
/// bitmap, from the layer behind and within the layer; 9, 10 and 11 fill that square where four windows lie over the layer, where
/// windows cut it into 64 clip rectangles, and in a clip region of 128 rectangles; 12 is two steep lines, from the corner to
/// column `side` and row 99 and back; 13 fills the square under COMPLEMENT; any other is a text of 80 letters with the call that
/// puts the cursor before it. It is -1 where the square isn't one and where memory runs out.
#[unsafe(no_mangle)]
pub extern "C" fn lw_bench_drawing(
    alloc: Global,
    shape: u32,
    side: i16,
    planes: u32,
    repetitions: u32,
) -> i64
    ensures { negsuc 0 ≤ℤ result }
{
    match drawing::repeated(alloc, shape, side, planes.clamp(1, 8), repetitions) {
        Some(sum) => i64::from(sum),
        None => -1,
    }
}

/// A number made of the bytes of the screen, after each of `layers` smart layers of 200 by 200 pixels on a screen of 1024 by 768
/// with 8 planes was put in front `repetitions` times, on a desk for programs with `slots` slots, of which 1 to 1024 count. It is
/// -1 where there are more layers than slots and where memory runs out.
#[unsafe(no_mangle)]
pub extern "C" fn lw_bench_fronts(alloc: Global, slots: u32, layers: u32, repetitions: u32) -> i64
    ensures { negsuc 0 ≤ℤ result }
{
    match drawing::turned(alloc, slots.clamp(1, 1024), layers, repetitions) {
        Some(sum) => i64::from(sum),
        None => -1,
    }
}
