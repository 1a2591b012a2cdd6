//! The header of a picture.

ghost use Rattle.std.specs.Prelude.{◌≡◌, ℕ, ◌+◌, ◌≤◌, ◌<◌, ◌^◌, length, slice_index, IfOk, IfErr, Ok, Err};
ghost use Rattle.lw_ilbm.specs.Reading.{word_at, long_at, header_of, IsFaultOf};
ghost use Rattle.lw_ilbm.specs.Steps.{IsHeader};

use crate::stop::PictureStop;

/// How many columns, rows and planes a picture has, and whether its body is packed.
#[derive(Clone, Copy, Debug, PartialEq, Eq)]
pub struct Header {
    /// How many columns the picture has.
    pub width: u32,
    /// How many rows it has.
    pub height: u32,
    /// How many planes it has.
    pub depth: u32,
    /// Its body is packed by ByteRun1.
    pub is_packed: bool,
}

/// The number of 16 bits that begins at a place.
pub(crate) fn word_at(bytes: &[u8], place: usize) -> u32
    requires { place + 2 ≤ length bytes.now }
    ensures { result ≡ word_at bytes.now place }
{
    u16::from_be_bytes([bytes[place], bytes[place + 1]]) as u32
}

/// The number of 32 bits that begins at a place.
pub(crate) fn long_at(bytes: &[u8], place: usize) -> u32
    requires { place + 4 ≤ length bytes.now }
    ensures { result ≡ long_at bytes.now place }
{
    u32::from_be_bytes([
        bytes[place],
        bytes[place + 1],
        bytes[place + 2],
        bytes[place + 3],
    ])
}

/// The header that a chunk gives whose head is at this place, or its first fault.
pub(crate) fn header_of(limit: u32, place: u32, contents: &[u8]) -> Result<Header, PictureStop>
    requires some { 1 ≤ limit }
    requires most { limit ≤ 2048 }
    requires small { place + 8 + length contents.now < 2 ^ 32 }
    ensures header { IfOk result (λ header. header_of limit place contents.now ≡ Ok header) }
    ensures sizes { IfOk result IsHeader }
    ensures fault { IfErr result (IsFaultOf (header_of limit place contents.now)) }
{
    if contents.len() < 20 {
        return Err(PictureStop::BadPicture { place });
    }
    let width = word_at(contents, 0);
    let height = word_at(contents, 2);
    let depth = contents[8] as u32;
    let masking = contents[9];
    let packing = contents[10];
    if width == 0 || width > limit {
        Err(PictureStop::BadPicture { place: place + 8 })
    } else if height == 0 || height > limit {
        Err(PictureStop::BadPicture { place: place + 10 })
    } else if depth == 0 || depth > 8 {
        Err(PictureStop::BadPicture { place: place + 16 })
    } else if masking == 1 || masking > 3 {
        Err(PictureStop::BadPicture { place: place + 17 })
    } else if packing > 1 {
        Err(PictureStop::BadPicture { place: place + 18 })
    } else {
        Ok(Header {
            width,
            height,
            depth,
            is_packed: packing == 1,
        })
    }
}
