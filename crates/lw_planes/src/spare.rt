// Memory of former bitmaps for new ones.

ghost use Rattle.std.specs.Prelude.{◌≡◌, ◌<◌, length, IfOk, IfSome};
ghost use Rattle.lw_planes.specs.Sizes.{AreSizes};
ghost use Rattle.lw_planes.specs.Spares.{HasSizes};

use crate::planes::{Planes, bytes_of};
use std::alloc::{AllocError, Global};
use std::marker::Model;
use std::mem;

// Of so many former bitmaps the memory is kept.
const MOST: usize = 64;

// Memory of more bytes isn't kept. A bitmap of 640 by 400 pixels with 8 planes has fewer.
const LARGEST: usize = 0x40000;

// So many bytes are added at a time.
const ZEROS: usize = 256;

/// Memory of bitmaps that are no longer needed, for new ones (this project's own). Bitmaps of which some are made and others of
/// about the same sizes are given up over and over need no memory of the system for that. It has the memory of 64 bitmaps at
/// most, those that came last, and none of more than 256 KiB, so 16 MiB at most. Contracts don't see what it has.
#[derive(Debug, Drop)]
pub struct Spare {
    // 64 lists of bytes; an empty one has no memory.
    kept: Vec<Vec<u8>>,
    // Where the next one is put.
    next: usize,
}

impl Model for Spare {
    ghost Value = { Unit {0} };

    ghost view = { λ _. tt };
}

impl Spare {
    /// Room for the memory of 64 bitmaps, and none so far. It fails only when out of memory.
    pub fn new(alloc: Global) -> Result<Spare, AllocError> {
        let mut kept = Vec::with_capacity(alloc, MOST)?;
        for _place in 0..MOST {
            kept.push(Vec::new(alloc))?;
        }
        Ok(Spare { kept, next: 0 })
    }

    /// A bitmap of 1 to 2048 columns, 1 to 2048 rows and 1 to 8 planes, whose pens may be any. It takes memory that was kept, if
    /// some has room for it and no more than twice as much, and else new memory. It fails only when out of memory.
    pub fn planes(
        &mut self,
        alloc: Global,
        width: u32,
        height: u32,
        depth: u32,
    ) -> Result<Planes, AllocError>
        requires { AreSizes width height depth }
        ensures { IfOk result (λ planes. HasSizes width height depth planes) }
    {
        let length = bytes_of(width, height, depth);
        let bytes = self.bytes(alloc, length)?;
        Ok(Planes::from_bytes(width, height, depth, bytes))
    }

    /// Keeps the memory of a bitmap, in place of what was kept before the last 63, unless it is too large. No memory is taken.
    pub fn keep(&mut self, planes: Planes) {
        let bytes = planes.into_bytes();
        let place = if self.next < self.kept.len() {
            self.next
        } else {
            0
        };
        if place < self.kept.len() && bytes.capacity() <= LARGEST {
            self.kept[place] = bytes;
            self.next = place + 1;
        }
    }

    // So many bytes, which may be any.
    fn bytes(&mut self, alloc: Global, count: usize) -> Result<Vec<u8>, AllocError>
        ensures { IfOk result (λ bytes. length bytes.items ≡ count) }
    {
        match self.take(alloc, count) {
            Some(bytes) => sized(bytes, count),
            None => vec![in alloc; 0; count],
        }
    }

    // The bytes that were kept last of those with room for so many.
    fn take(&mut self, alloc: Global, count: usize) -> Option<Vec<u8>> {
        let place = find(&self.kept, self.next, count)?;
        Some(mem::replace(&mut self.kept[place], Vec::new(alloc)))
    }
}

// Where the bytes are that were kept last of those with room for so many. The next ones are put at `next`.
fn find(kept: &[Vec<u8>], next: usize, count: usize) -> Option<usize>
    ensures { IfSome result (λ place. place < length kept.now) }
{
    match find_in(kept, 0, next, count) {
        Some(place) => Some(place),
        None => find_in(kept, next, kept.len(), count),
    }
}

// The last one of these places where there is room for so many bytes.
fn find_in(kept: &[Vec<u8>], from: usize, to: usize, count: usize) -> Option<usize>
    ensures { IfSome result (λ place. place < length kept.now) }
{
    for place in (from..to.min(kept.len())).rev() {
        if fits(&kept[place], count) {
            return Some(place);
        }
    }
    None
}

// Whether there is room for so many bytes, and for no more than twice as many.
fn fits(bytes: &Vec<u8>, count: usize) -> bool {
    count <= bytes.capacity() && bytes.capacity() / 2 <= count
}

// The same memory with so many bytes.
fn sized(bytes: Vec<u8>, count: usize) -> Result<Vec<u8>, AllocError>
    ensures { IfOk result (λ sized. length sized.items ≡ count) }
{
    let mut sized = bytes;
    sized.truncate(count);
    while sized.len() < count {
        let more = (count - sized.len()).min(ZEROS);
        sized.extend_from_slice(&[0; ZEROS][..more])?;
    }
    Ok(sized)
}
