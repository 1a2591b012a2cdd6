ghost use Rattle.std.specs.Prelude.{◌≡◌, ◌+◌, ◌*◌, ◌<◌, ◌≤◌, if◌then◌else◌, length};
ghost use Rattle.std.specs.Int.{bit_at};
ghost use Rattle.lw_planes.specs.Row.{bit_of};
ghost use Rattle.lw_planes.specs.Bitmap.{pen_at};
ghost use Rattle.lw_planes.specs.Change.{with_plane_row};
ghost use Rattle.lw_kernels.specs.Kernel.{is_named};

use lw_kernels::{combine, combine_within, fill, flip};
use lw_planes::Planes;
use std::process::Abort;
use std::test::Fail;

static COUNTS: [u32; 8] = [0, 1, 7, 8, 9, 63, 64, 65];

// Two rows of ten bytes without a pattern.
const LEFT: [u8; 10] = [0x3a, 0xc5, 0x0f, 0x96, 0xe1, 0x58, 0x07, 0xbc, 0x6d, 0xf2];

const RIGHT: [u8; 10] = [0xd2, 0x4b, 0x71, 0xa8, 0x3c, 0x95, 0xee, 0x10, 0x5f, 0x83];

// Bit `x` of a row, counted from the most significant bit of its first byte.
fn bit(row: &[u8], x: u32) -> bool
    requires { x < 8 * length row.now }
{
    (row[x as usize / 8] >> (7 - x % 8)) & 1 == 1
}

// A minterm's value, case by case.
fn minterm_value(minterm: u8, source: bool, old: bool) -> bool {
    match (source, old) {
        (true, true) => minterm & 0x80 != 0,
        (true, false) => minterm & 0x40 != 0,
        (false, true) => minterm & 0x20 != 0,
        (false, false) => minterm & 0x10 != 0,
    }
}

// Fills a part of row `y` of one plane: a caller that lends the row, and knows which bitmap results.
fn fill_row(planes: &mut Planes, plane: u32, y: u32, from: u32, count: u32, bit: bool)
    requires plane { plane < planes.old.depth }
    requires row { y < planes.old.height }
    requires columns { from + count ≤ planes.old.width }
    ensures { planes.new ≡ with_plane_row planes.old plane y (λ x. if is_named from count x
        then bit_of bit
        else bit_at (pen_at planes.old x y) plane) }
{
    fill(planes.row_mut(plane, y), from, count, bit);
}

// The bits 7 and 8 of plane 1 are the last of one byte and the first of the next.
#[test]
fn fill_of_a_lent_row_changes_that_row_of_its_plane(rt: HostRuntime) -> Result<(), Fail> {
    let mut planes = Planes::new(rt.alloc(), 10, 2, 2)?;
    planes.set_pen(8, 0, 1);
    fill_row(&mut planes, 1, 0, 7, 2, true);
    assert_eq!(rt; planes.row(1, 0), [0x01, 0x80].as_slice());
    assert_eq!(rt;
        (
            planes.pen(6, 0),
            planes.pen(7, 0),
            planes.pen(8, 0),
            planes.pen(9, 0),
            planes.pen(7, 1)
        ),
        (0, 2, 3, 0, 0)
    );
    Ok(())
}

#[test]
fn fill_then_flip_of_630_bits_from_bit_3(rt: HostRuntime) {
    let mut row = [0; 80];
    fill(&mut row, 3, 630, true);
    let mut want = [0xff; 80];
    want[0] = 0x1f;
    want[79] = 0x80;
    assert_eq!(rt; row.as_slice(), want.as_slice());
    flip(&mut row, 3, 630);
    assert_eq!(rt; row.as_slice(), [0; 80].as_slice());
}

#[test]
fn combine_within_reads_the_bits_before_the_call(rt: HostRuntime) {
    let mut row = [0xc0, 0];
    combine_within(&mut row, 1, 0, 3, 0xc0);
    assert_eq!(rt; row.as_slice(), [0xe0, 0].as_slice());
}

// After the two calls of `combine` each bit that they name has the minterm's value, and each other one is as it was.
fn assert_combined<R: Abort>(rt: &R, right: &[u8; 10], left: &[u8; 10], offset: u32, count: u32)
    requires offset { offset < 9 }
    requires count { count ≤ 65 }
{
    for x in 0..80 {
        let old = bit(&LEFT, x);
        let mut want = (old, old);
        if offset <= x && x < offset + count {
            want.0 = minterm_value(0x60, bit(&RIGHT, x - offset + 3), old);
        }
        if 5 <= x && x < 5 + count {
            want.1 = minterm_value(0xb0, bit(&RIGHT, x - 5 + offset), old);
        }
        let found = (bit(right, x), bit(left, x));
        assert_eq!(rt; found, want, "bit {x} of {count} at {offset}");
    }
}

#[test]
fn combine_changes_the_named_bits_alone(rt: HostRuntime) {
    for offset in 0..9 {
        for count in COUNTS.iter() {
            assert!(rt; *count <= 65);
            let (mut right, mut left) = (LEFT, LEFT);
            combine(&mut right, offset, &RIGHT, 3, *count, 0x60);
            combine(&mut left, 5, &RIGHT, offset, *count, 0xb0);
            assert_combined(&rt, &right, &left, offset, *count);
        }
    }
}

// After the two calls of `combine_within` the bits that they name are moved, or combined with those that they name too.
fn assert_moved<R: Abort>(rt: &R, right: &[u8; 10], left: &[u8; 10], offset: u32, count: u32)
    requires offset { offset < 9 }
    requires count { count ≤ 65 }
{
    for x in 0..80 {
        let old = bit(&LEFT, x);
        let mut want = (old, old);
        if offset + 4 <= x && x < offset + 4 + count {
            want.0 = bit(&LEFT, x - 4);
        }
        if offset <= x && x < offset + count {
            want.1 = bit(&LEFT, x + 4) != old;
        }
        let found = (bit(right, x), bit(left, x));
        assert_eq!(rt; found, want, "bit {x} of {count} at {offset}");
    }
}

#[test]
fn combine_within_in_both_directions(rt: HostRuntime) {
    for offset in 0..9 {
        for count in COUNTS.iter() {
            assert!(rt; *count <= 65);
            let (mut right, mut left) = (LEFT, LEFT);
            combine_within(&mut right, offset + 4, offset, *count, 0xc0);
            combine_within(&mut left, offset, offset + 4, *count, 0x60);
            assert_moved(&rt, &right, &left, offset, *count);
        }
    }
}
