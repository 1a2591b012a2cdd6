//! Pictures as ILBM files: `encode` makes a file of planes, and `decode` reads one (the IFF text on ILBM; see
//! `specs/Reading.antt` for what is left out and where each fault is).
#![tactic(auto)]

mod body;
mod cases;
mod chunks;
mod decoding;
mod encoding;
mod header;
mod laws;
mod packing;
mod stop;

pub use cases::{rows_are_packed, small_pictures};
pub use decoding::decode;
pub use encoding::encode;
pub use header::Header;
pub use laws::{packed_rows_unpack, pictures_read_back};
pub use stop::PictureStop;
