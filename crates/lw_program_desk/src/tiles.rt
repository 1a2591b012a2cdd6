ghost use Rattle.std.specs.Prelude.{◌≡◌, ◌+◌, ◌*◌, ◌/◌, ◌%◌, ◌<◌, false, length, IfSome, IsNone, ◌↔◌};
ghost use Rattle.std.specs.List.{All};
ghost use Rattle.lw_program_desk.specs.Tiles.{have_tiles, are_tiles, tiles_at};

use lw_backfill::{Backfill, tile_place};

// How many pens a tile has, row by row: that of column x and row y is number 8 * y + x.
const TILE: usize = 64;

/// A hook of tiles that a program hands in, 64 pens each, one after another.
#[derive(Drop)]
pub struct Tiles {
    pens: Vec<u8>,
    place: usize,
    ghost within: { place < length pens.items / 64 },
    ghost bytes: { All (λ p. p < 256) pens.items },
}

impl Tiles {
    /// The hook of these tiles, at the first of them; none exactly where the pens aren't those of whole tiles, at least one.
    pub fn new(pens: Vec<u8>) -> Option<Tiles>
        ensures some { IfSome result (λ made. ⟦<Tiles as Backfill>⟧.hook made ≡ tiles_at 0 pens.items) }
        ensures none { IsNone result ↔ are_tiles pens.items ≡ false }
    {
        if !has_tiles(pens.len()) {
            return None;
        }
        Some(Tiles { pens, place: 0 })
    }
}

impl Backfill for Tiles {
    ghost hook = { λ t. tiles_at t.place t.pens.items };

    fn pen_at(&self, x: i32, y: i32) -> u8 {
        self.pens[index_of(self.pens.len(), self.place, tile_place(x), tile_place(y))]
    }

    fn turned(&mut self) {
        self.place = place_after(self.place, self.pens.len() / TILE);
    }
}

fn has_tiles(count: usize) -> bool
    ensures { result ≡ have_tiles count }
{
    TILE <= count && count % TILE == 0
}

// Where the pen of a column and a row of the tile at this place stands, among so many pens.
fn index_of(count: usize, place: usize, x: usize, y: usize) -> usize
    requires place { place < count / 64 }
    requires column { x < 8 }
    requires row { y < 8 }
    ensures value { result ≡ 64 * place + (8 * y + x) }
    ensures within { result < count }
{
    TILE * place + (8 * y + x)
}

fn place_after(place: usize, count: usize) -> usize
    requires { place < count }
    ensures value { result ≡ (place + 1) % count }
    ensures within { result < count }
{
    (place + 1) % count
}
