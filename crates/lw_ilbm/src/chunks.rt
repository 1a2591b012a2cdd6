//! The chunks of a file, one after another.

ghost use Rattle.std.specs.Prelude.{◌≡◌, ℕ, ◌+◌, ◌≤◌, ◌<◌, ◌^◌, ◌%◌, length, take, drop, Result, IfOk, IfErr, Option};
ghost use Rattle.lw_planes.specs.Bitmap.{Bitmap};
ghost use Rattle.lw_ilbm.specs.Reading.{chunk_gives, chunks_after, IsFaultOf};
ghost use Rattle.lw_ilbm.specs.Steps.{IsChunk, LeadsTo, IsHeaderIfAny};

use crate::body::read_body;
use crate::header::{Header, header_of, long_at};
use crate::stop::PictureStop;
use lw_planes::Planes;
use std::alloc::Global;

/// What a chunk leads to.
#[derive(Debug, Drop)]
pub(crate) enum Led {
    /// The picture of its body.
    Picture(Planes),
    /// The chunk after it, with the header that was read so far.
    On(Option<Header>),
}

/// The contents of the chunk whose head is at this place, or the fault that its head or its contents pass the end.
pub(crate) fn contents_at(bytes: &[u8], place: usize) -> Result<&[u8], PictureStop>
    requires small { length bytes.now < 2 ^ 32 }
    requires inside { place < length bytes.now }
    ensures chunk { IfOk result (λ contents. IsChunk bytes.now place contents.now) }
    ensures fault { IfErr result (λ stop. (limit : ℕ) (header : Option Header) →
        IsFaultOf (chunks_after limit (length bytes.now) header 0 (drop place bytes.now)) stop) }
{
    let rest = &bytes[place..];
    if rest.len() < 8 {
        return Err(PictureStop::BadPicture {
            place: bytes.len() as u32,
        });
    }
    let count = long_at(rest, 4) as usize;
    if rest.len() - 8 < count {
        return Err(PictureStop::BadPicture {
            place: place as u32,
        });
    }
    Ok(&rest[8..8 + count])
}

/// What a chunk of this name leads to whose head is at this place, after the header that was read before it.
pub(crate) fn read_chunk(
    alloc: Global,
    limit: u32,
    header: Option<Header>,
    place: u32,
    name: &[u8],
    contents: &[u8],
) -> Result<Led, PictureStop>
    requires some { 1 ≤ limit }
    requires most { limit ≤ 2048 }
    requires small { place + (8 + length contents.now) < 2 ^ 32 }
    requires known { IsHeaderIfAny header }
    ensures led { IfOk result (LeadsTo limit place name.now contents.now header) }
    ensures fault { IfErr result (λ stop. (next : Option Header → Result Bitmap ℕ) →
        IsFaultOf (chunk_gives limit place name.now contents.now header next) stop) }
{
    if name == b"BODY".as_slice() {
        let Some(known) = header else {
            return Err(PictureStop::BadPicture { place });
        };
        let planes = read_body(alloc, &known, place + (8 + contents.len() as u32), contents)?;
        Ok(Led::Picture(planes))
    } else if name == b"BMHD".as_slice() && header.is_none() {
        let read = header_of(limit, place, contents)?;
        Ok(Led::On(Some(read)))
    } else {
        Ok(Led::On(header))
    }
}
