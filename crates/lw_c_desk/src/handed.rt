// Bitmaps and hooks that a program hands in, copied out of its arrays.

ghost use Rattle.std.specs.Prelude.{◌≡◌, ◌+◌, ◌*◌, ◌≤◌, ◌&&◌, nat_le, map, IsTrue, IfOk};
ghost use Rattle.lw_c_desk.specs.Handed.{is_count, has_sizes, bytes_of, is_bitmap, are_bitmaps, bitmap_of, bitmaps_of};
ghost use Rattle.lw_c_desk.specs.Handed.{is_hook, are_hooks, hook_of, hooks_of};

use lw_backfill::Backfill;
use lw_planes::Planes;
use lw_program_desk::Tiles;
use std::alloc::{AllocError, Global};

/// A bitmap: its sizes, and the place of its first byte in the array of all bits. Its planes stand there one after another, in
/// each row after row, and a row has `(width + 15) / 16 * 2` bytes.
#[repr(C)]
#[derive(Clone, Copy, Debug, PartialEq, Eq)]
pub struct BitmapWords {
    /// 1 to 2048.
    pub width: u32,
    /// 1 to 2048.
    pub height: u32,
    /// 1 to 8.
    pub depth: u32,
    pub first: u32,
}

/// A hook: the number of its first tile in the array of all tiles, of 64 pens each, and how many tiles it has.
#[repr(C)]
#[derive(Clone, Copy, Debug, PartialEq, Eq)]
pub struct HookWords {
    pub first: u32,
    pub count: u32,
}

pub(crate) fn are_bitmaps(list: &[BitmapWords], bits: &[u8]) -> bool
    ensures { result ≡ are_bitmaps bits.now list.now }
{
    let count = bits.len();
    list.iter().all(|words| is_bitmap(words, count))
}

fn is_bitmap(words: &BitmapWords, count: usize) -> bool
    ensures { result ≡ (has_sizes words.now && nat_le (words.now.first + bytes_of words.now) count) }
{
    has_sizes(words) && words.first as usize + bytes_of(words) <= count
}

fn has_sizes(words: &BitmapWords) -> bool
    ensures { result ≡ has_sizes words.now }
{
    is_count(2048, words.width) && is_count(2048, words.height) && is_count(8, words.depth)
}

fn is_count(most: u32, number: u32) -> bool
    ensures { result ≡ is_count most number }
{
    1 <= number && number <= most
}

// How many bytes the planes have.
fn bytes_of(words: &BitmapWords) -> usize
    requires { IsTrue (has_sizes words.now) }
    ensures value { result ≡ bytes_of words.now }
    ensures most { result ≤ 4194304 }
{
    let step = (words.width as usize + 15) / 16 * 2;
    words.depth as usize * words.height as usize * step
}

// The bitmaps, each with its bytes.
pub(crate) fn bitmaps_of(
    alloc: Global,
    list: &[BitmapWords],
    bits: &[u8],
) -> Result<Vec<Planes>, AllocError>
    requires { IsTrue (are_bitmaps bits.now list.now) }
    ensures { IfOk result (λ made. made.items ≡ bitmaps_of bits.now list.now) }
{
    let mut made = Vec::with_capacity(alloc, list.len())?;
    for words in list {
        made.push(bitmap_of(alloc, words, bits)?)?;
    }
    Ok(made)
}

fn bitmap_of(alloc: Global, words: &BitmapWords, bits: &[u8]) -> Result<Planes, AllocError>
    requires { IsTrue (is_bitmap bits.now words.now) }
    ensures { IfOk result (λ made. made ≡ bitmap_of bits.now words.now) }
{
    let first = words.first as usize;
    let bytes = Vec::from_slice(alloc, &bits[first..first + bytes_of(words)])?;
    Ok(Planes::from_bytes(words.width, words.height, words.depth, bytes))
}

pub(crate) fn are_hooks(list: &[HookWords], tiles: &[u8]) -> bool
    ensures { result ≡ are_hooks tiles.now list.now }
{
    let count = tiles.len();
    list.iter().all(|words| is_hook(words, count))
}

fn is_hook(words: &HookWords, count: usize) -> bool
    ensures { result ≡ (nat_le 1 words.now.count && nat_le (64 * (words.now.first + words.now.count)) count) }
{
    let end = u64::from(words.first) + u64::from(words.count);
    1 <= words.count && end * 64 <= count as u64
}

// The hooks, each with its tiles.
pub(crate) fn hooks_of(
    alloc: Global,
    list: &[HookWords],
    tiles: &[u8],
) -> Result<Vec<Tiles>, AllocError>
    requires { IsTrue (are_hooks tiles.now list.now) }
    ensures { IfOk result (λ made. map (λ h. ⟦<Tiles as Backfill>⟧.hook h) made.items ≡ hooks_of tiles.now list.now) }
{
    let mut made = Vec::with_capacity(alloc, list.len())?;
    for words in list {
        made.push(hook_of(alloc, words, tiles)?)?;
    }
    Ok(made)
}

fn hook_of(alloc: Global, words: &HookWords, tiles: &[u8]) -> Result<Tiles, AllocError>
    requires { IsTrue (is_hook tiles.now words.now) }
    ensures { IfOk result (λ made. ⟦<Tiles as Backfill>⟧.hook made ≡ hook_of tiles.now words.now) }
{
    let first = words.first as usize * 64;
    let end = first + words.count as usize * 64;
    let pens = Vec::from_slice(alloc, &tiles[first..end])?;
    match Tiles::new(pens) {
        Some(made) => Ok(made),
        None => unreachable!(),
    }
}
