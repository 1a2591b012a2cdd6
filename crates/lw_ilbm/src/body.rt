//! The body of a picture.

ghost use Rattle.std.specs.Prelude.{◌≡◌, ℕ, ◌+◌, ◌*◌, ◌≤◌, ◌<◌, ◌^◌, length, take, Ok, IfOk, IfErr};
ghost use Rattle.lw_planes.specs.Sizes.{AreSizes};
ghost use Rattle.lw_planes.specs.Storage.{stored};
ghost use Rattle.lw_planes.specs.Bitmap.{row_bytes};
ghost use Rattle.lw_ilbm.specs.Pictures.{picture, picture_length};
ghost use Rattle.lw_ilbm.specs.Reading.{body_of, IsFaultOf};

use crate::header::Header;
use crate::packing::unpacked;
use crate::stop::PictureStop;
use lw_planes::Planes;
use std::alloc::{AllocError, Global};

/// The picture that a body gives whose contents end at this place.
pub(crate) fn read_body(
    alloc: Global,
    header: &Header,
    end: u32,
    contents: &[u8],
) -> Result<Planes, PictureStop>
    requires { AreSizes header.now.width header.now.height header.now.depth }
    ensures picture { IfOk result (λ planes. body_of header.now end contents.now ≡ Ok planes) }
    ensures fault { IfErr result (IsFaultOf (body_of header.now end contents.now)) }
{
    let length = (header.width as usize + 15) / 16 * 2;
    let count = header.height as usize * (header.depth as usize * length);
    if header.is_packed {
        let bytes = unpacked(alloc, contents, count)?;
        if bytes.len() < count {
            return Err(PictureStop::BadPicture { place: end });
        }
        Ok(planes_of(alloc, header, &bytes)?)
    } else {
        if contents.len() < count {
            return Err(PictureStop::BadPicture { place: end });
        }
        Ok(planes_of(alloc, header, contents)?)
    }
}

/// The planes whose rows stand in these bytes: row after row, and of each row its planes one after another.
fn planes_of(alloc: Global, header: &Header, bytes: &[u8]) -> Result<Planes, AllocError>
    requires sizes { AreSizes header.now.width header.now.height header.now.depth }
    requires enough { picture_length header.now ≤ length bytes.now }
    ensures { IfOk result (λ planes. planes ≡ picture header.now bytes.now) }
{
    let length = (header.width as usize + 15) / 16 * 2;
    let height = header.height as usize;
    let depth = header.depth as usize;
    let mut planes = Vec::new(alloc);
    for row in 0..depth * height {
        let from = (row % height * depth + row / height) * length;
        planes.extend_from_slice(&bytes[from..from + length])?;
    }
    Ok(Planes::from_bytes(header.width, header.height, header.depth, planes))
}
