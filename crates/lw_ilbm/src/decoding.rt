//! Files as pictures.

ghost use Rattle.std.specs.Prelude.{◌≡◌, ℕ, ◌+◌, ◌≤◌, ◌<◌, ◌^◌, length, Ok, IfOk, IfErr, Option};
ghost use Rattle.lw_ilbm.specs.Reading.{name_fault, picture_of, IsFaultOf};

use crate::chunks::{Led, contents_at, read_chunk};
use crate::stop::PictureStop;
use lw_planes::Planes;
use std::alloc::Global;

/// The picture that an ILBM file gives, of at most `limit` columns and `limit` rows, a limit of 1 to 2048, from fewer than 2^32
/// bytes; or the place of its first fault (the IFF text on ILBM; colours, a mask plane and more than 8 planes are left out).
pub fn decode(alloc: Global, bytes: &[u8], limit: u32) -> Result<Planes, PictureStop>
    requires some { 1 ≤ limit }
    requires most { limit ≤ 2048 }
    requires small { length bytes.now < 2 ^ 32 }
    ensures picture { IfOk result (λ planes. picture_of limit bytes.now ≡ Ok planes) }
    ensures fault { IfErr result (IsFaultOf (picture_of limit bytes.now)) }
{
    if let Some(place) = name_fault(bytes, 0, b"FORM") {
        return Err(PictureStop::BadPicture { place });
    }
    if let Some(place) = name_fault(bytes, 8, b"ILBM") {
        return Err(PictureStop::BadPicture { place });
    }
    let mut header = None;
    let mut place = 12;
    while place < bytes.len() {
        let contents = contents_at(bytes, place)?;
        match read_chunk(
            alloc,
            limit,
            header,
            place as u32,
            &bytes[place..place + 4],
            contents,
        )? {
            Led::Picture(planes) => return Ok(planes),
            Led::On(read) => {
                header = read;
                place += 8 + contents.len() + contents.len() % 2;
            }
        }
    }
    Err(PictureStop::BadPicture {
        place: bytes.len() as u32,
    })
}

/// Where the bytes first differ from a name that should stand at this place of them, or their number where they end before.
fn name_fault(bytes: &[u8], place: usize, name: &[u8]) -> Option<u32>
    requires small { length bytes.now < 2 ^ 32 }
    requires near { place + length name.now < 2 ^ 32 }
    ensures { result ≡ name_fault bytes.now place name.now }
{
    let mut at = place;
    for letter in name {
        if at >= bytes.len() {
            return Some(bytes.len() as u32);
        }
        if bytes[at] != *letter {
            return Some(at as u32);
        }
        at += 1;
    }
    None
}
