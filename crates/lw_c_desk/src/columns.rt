// The pens of a row, eight at a time: of eight neighbouring pixels each plane has one byte.

ghost use Rattle.std.specs.Prelude.{◌≡◌, ℕ, ◌+◌, ◌-◌, ◌*◌, ◌^◌, ◌<◌, ◌≤◌, ◌++◌, map, length, take, drop};
ghost use Rattle.std.specs.Int.{w64, bit_at, from_be_bytes};
ghost use Rattle.std.specs.List.{range_with_len};
ghost use Rattle.lw_planes.specs.Pen.{pen_of};
ghost use Rattle.lw_planes.specs.Row.{row_bit};
ghost use Rattle.lw_planes.specs.Bitmap.{row_at, row_bytes};

use lw_planes::Planes;

// Writes the pens of a row.
pub(crate) fn write_row(planes: &Planes, y: u32, row: &mut [u8])
    requires inside { y < planes.now.height }
    requires long { length row.old ≡ planes.now.width }
    ensures { row.new ≡ row_at planes.now y }
{
    let length = row_length(planes.width());
    let first = y as usize * length;
    let step = planes.height() as usize * length;
    for column in 0..(row.len() + 7) / 8 {
        let pens = eight_pens(planes.bytes(), first + column, step, planes.depth());
        put_eight(row, 8 * column, &pens);
    }
}

// How many bytes a row of a plane has.
pub(crate) fn row_length(width: u32) -> usize
    ensures { result ≡ row_bytes width }
{
    (width as usize + 15) / 16 * 2
}

// The eight pens whose bits in plane 0 are the byte at this place, and in each further plane the one that is `step` bytes on.
fn eight_pens(bytes: &[u8], place: usize, step: usize, depth: u32) -> [u8; 8]
    requires deep { depth ≤ 8 }
    requires near { length bytes.now < 2 ^ 32 }
    requires inside { (k : ℕ) → k < depth → place + k * step < length bytes.now }
    ensures { result ≡ map (λ j. pen_of depth (λ k. row_bit bytes.now (8 * (place + k * step) + j))) (range_with_len 0 8) }
{
    let mut pens = 0;
    for plane in 0..depth {
        pens += spread(bytes[place + plane as usize * step]) << plane;
    }
    pens.to_be_bytes()
}

// The bits of a byte as the bytes of a word, the leftmost first. Of the product each byte keeps another bit, which 0x7f then
// carries to the byte's highest place.
fn spread(byte: u8) -> u64
    ensures { result ≡ from_be_bytes w64 (map (λ j. bit_at byte (7 - j)) (range_with_len 0 8)) }
{
    let bits = (u64::from(byte) * 0x0101_0101_0101_0101) & 0x8040_2010_0804_0201;
    ((bits + 0x7f7f_7f7f_7f7f_7f7f) >> 7) & 0x0101_0101_0101_0101
}

// Writes eight pens into a row from a place on, or as many of them as it has room for from there.
fn put_eight(row: &mut [u8], first: usize, pens: &[u8])
    requires eight { length pens.now ≡ 8 }
    requires some { first < length row.old }
    ensures { row.new ≡ take first row.old ++ take (length row.old - first) pens.now ++ drop (first + 8) row.old }
{
    let rest = row.len() - first;
    if rest < 8 {
        row[first..].copy_from_slice(&pens[..rest]);
    } else {
        row[first..first + 8].copy_from_slice(pens);
    }
}
