ghost use Rattle.std.specs.Prelude.{◌≡◌, ℕ, ◌+◌, ◌*◌, ◌^◌, ◌<◌, ◌≤◌, length, IfOk};
ghost use Rattle.std.specs.Int.{bit_at};
ghost use Rattle.std.specs.Borrow.{sem};
ghost use Rattle.lw_planes.specs.Row.{row_bit};
ghost use Rattle.lw_planes.specs.Bitmap.{bitmap, pen_at, row_bytes};
ghost use Rattle.lw_planes.specs.Sizes.{AreSizes, IsPlanes};
ghost use Rattle.lw_planes.specs.Storage.{stored, IsStored};
ghost use Rattle.lw_planes.specs.Change.{with_pen};
ghost use Rattle.lw_planes.specs.Lending.{LendsRow};

use crate::bits::{gathered_pen, scatter_pen};
use std::alloc::{AllocError, Global};
use std::marker::Model;

/// A bitmap kept as bit planes, after the `BitMap` structure of graphics.library (the manual's Graphics
/// Primitives chapter): 1 to 2048 columns, 1 to 2048 rows, 1 to 8 planes. Plane `k` has bit `k` of each
/// pen; a row of a plane is padded to whole 16-bit words, and its leftmost pixel is the most significant
/// bit of its first byte. What the padding holds is no part of the bitmap.
#[derive(Debug, Drop)]
pub struct Planes {
    width: u32,
    height: u32,
    depth: u32,
    bytes: Vec<u8>,
}

impl Model for Planes {
    ghost use Rattle.lw_planes.specs.Bitmap.{Bitmap};
    ghost use Rattle.lw_planes.specs.Storage.{stored, IsStored};

    ghost Value = { Bitmap };

    ghost view = { λ p. stored p.width p.height p.depth p.bytes.items };

    ghost invariant = { λ p. IsStored p.width p.height p.depth p.bytes.items };
}

impl Planes {
    /// A bitmap of 1 to 2048 columns, 1 to 2048 rows and 1 to 8 planes whose every pen is 0.
    pub fn new(alloc: Global, width: u32, height: u32, depth: u32) -> Result<Planes, AllocError>
        requires { AreSizes width height depth }
        ensures { IfOk result (λ planes. planes ≡ bitmap width height depth (λ _ _. 0)) }
    {
        let bytes = vec![in alloc; 0; bytes_of(width, height, depth)]?;
        Ok(Planes {
            width,
            height,
            depth,
            bytes,
        })
    }

    /// A bitmap of these sizes whose planes are the bytes: plane after plane, the plane of bit 0 first, in each
    /// plane row after row from the top, and in each row `((width + 15) / 16) * 2` bytes, whole 16-bit words
    /// whose most significant bit is the leftmost pixel (the manual's Graphics Primitives chapter has the
    /// planes; that they come one after another in one vector is this project's own). So the vector has
    /// `depth * height * ((width + 15) / 16) * 2` bytes. The bits after a row's last pixel are padding: they
    /// are no part of the bitmap, and may be anything. No memory is taken.
    pub fn from_bytes(width: u32, height: u32, depth: u32, bytes: Vec<u8>) -> Planes
        requires { IsStored width height depth bytes.items }
        ensures { result ≡ stored width height depth bytes.items }
    {
        Planes {
            width,
            height,
            depth,
            bytes,
        }
    }

    // The bytes of all planes without the bitmap.
    pub(crate) fn into_bytes(self) -> Vec<u8> {
        self.bytes
    }

    /// The bytes of all planes, as `from_bytes` takes them.
    pub fn bytes(&self) -> &[u8]
        ensures value { self.now ≡ stored self.now.width self.now.height self.now.depth result.now }
        ensures stored { IsStored self.now.width self.now.height self.now.depth result.now }
    {
        self.bytes.as_slice()
    }

    /// The number of columns, 1 to 2048.
    pub fn width(&self) -> u32
        ensures value { result ≡ self.now.width }
        ensures planes { IsPlanes self.now }
    {
        self.width
    }

    /// The number of rows, 1 to 2048.
    pub fn height(&self) -> u32
        ensures value { result ≡ self.now.height }
        ensures planes { IsPlanes self.now }
    {
        self.height
    }

    /// The number of planes, 1 to 8: each pen is below 2 to this power.
    pub fn depth(&self) -> u32
        ensures value { result ≡ self.now.depth }
        ensures planes { IsPlanes self.now }
    {
        self.depth
    }

    /// The pen at column `x` and row `y`, both in range.
    pub fn pen(&self, x: u32, y: u32) -> u8
        requires column { x < self.now.width }
        requires row { y < self.now.height }
        ensures value { result ≡ pen_at self.now x y }
        ensures small { result < 2 ^ self.now.depth }
    {
        let step = self.height as usize * row_length(self.width) * 8;
        let place = y as usize * row_length(self.width) * 8 + x as usize;
        gathered_pen(&self.bytes, place, step, self.depth)
    }

    /// Gives the pixel at column `x` and row `y`, both in range, this pen, which is below 2 to the
    /// power of the depth. Every other pixel stays as it was.
    pub fn set_pen(&mut self, x: u32, y: u32, pen: u8)
        requires column { x < self.old.width }
        requires row { y < self.old.height }
        requires small { pen < 2 ^ self.old.depth }
        ensures { self.new ≡ with_pen self.old x y pen }
    {
        let step = self.height as usize * row_length(self.width) * 8;
        let place = y as usize * row_length(self.width) * 8 + x as usize;
        scatter_pen(self.bytes.as_mut_slice(), place, step, self.depth, pen);
    }

    /// The bytes of row `y` of one plane, both in range: `((width + 15) / 16) * 2` of them, which have a
    /// bit for each pixel, the leftmost in the most significant bit of the first.
    pub fn row(&self, plane: u32, y: u32) -> &[u8]
        requires plane { plane < self.now.depth }
        requires row { y < self.now.height }
        ensures long { length result.now ≡ row_bytes self.now.width }
        ensures wide { self.now.width ≤ 8 * length result.now }
        ensures bits { (x : ℕ) → x < self.now.width →
            row_bit result.now x ≡ bit_at (pen_at self.now x y) plane }
    {
        self.rows(plane, y, 1)
    }

    /// Lends the bytes of row `y` of one plane, both in range, as `row` shows them. After the loan each
    /// pixel of this row has in this plane the bit that the bytes then hold, and all else stays as it was:
    /// `row_write_changes_its_row` is the law of what a written row changes.
    pub fn row_mut(&mut self, plane: u32, y: u32) -> &mut [u8]
        requires plane { plane < self.old.depth }
        requires row { y < self.old.height }
        ensures* writes_back { sem 𝓛 (LendsRow self.entry plane y result) }
        ensures long { length result.now ≡ row_bytes self.old.width }
        ensures wide { self.old.width ≤ 8 * length result.now }
        ensures bits { (x : ℕ) → x < self.old.width →
            row_bit result.now x ≡ bit_at (pen_at self.old x y) plane }
        ensures planes { IsPlanes self.old }
    {
        self.rows_mut(plane, y, 1)
    }

    /// The bytes of `rows` rows of one plane, one at least, from row `y` on, all in range: row after row, each as
    /// `row` shows it. The pixel at column `x` of the row that is `j` below row `y` has its bit `x` bits
    /// behind the first one of the `j`th row's bytes.
    pub fn rows(&self, plane: u32, y: u32, rows: u32) -> &[u8]
        requires plane { plane < self.now.depth }
        requires some { 0 < rows }
        requires inside { y + rows ≤ self.now.height }
        ensures long { length result.now ≡ rows * row_bytes self.now.width }
        ensures near { length result.now < 2 ^ 32 }
        ensures bits { (x j : ℕ) → x < self.now.width → j < rows →
            row_bit result.now (8 * (j * row_bytes self.now.width) + x) ≡ bit_at (pen_at self.now x (y + j)) plane }
    {
        let length = row_length(self.width);
        let start = row_start(self.height, length, plane, y);
        let end = start + rows as usize * length;
        &self.bytes[start..end]
    }

    /// Lends the bytes of `rows` rows of one plane, one at least, from row `y` on, all in range, as `rows` shows
    /// them. After the loan each pixel of these rows has in this plane the bit that the bytes then hold,
    /// and all else stays as it was.
    pub fn rows_mut(&mut self, plane: u32, y: u32, rows: u32) -> &mut [u8]
        requires plane { plane < self.old.depth }
        requires some { 0 < rows }
        requires inside { y + rows ≤ self.old.height }
        ensures* writes_back { sem 𝓛 (LendsRow self.entry plane y result) }
        ensures long { length result.now ≡ rows * row_bytes self.old.width }
        ensures near { length result.now < 2 ^ 32 }
        ensures bits { (x j : ℕ) → x < self.old.width → j < rows →
            row_bit result.now (8 * (j * row_bytes self.old.width) + x) ≡ bit_at (pen_at self.old x (y + j)) plane }
        ensures planes { IsPlanes self.old }
    {
        let length = row_length(self.width);
        let start = row_start(self.height, length, plane, y);
        let end = start + rows as usize * length;
        self.bytes.slice_mut(start..end)
    }
}

// How many bytes all planes of a bitmap have.
pub(crate) fn bytes_of(width: u32, height: u32, depth: u32) -> usize
    requires { AreSizes width height depth }
    ensures { result ≡ depth * height * row_bytes width }
{
    depth as usize * height as usize * row_length(width)
}

// How many bytes a row of one plane has.
fn row_length(width: u32) -> usize
    requires { width ≤ 2048 }
    ensures { result ≡ row_bytes width }
{
    (width as usize + 15) / 16 * 2
}

// The index of the first byte of row `y` of one plane.
fn row_start(height: u32, length: usize, plane: u32, y: u32) -> usize
    requires { (plane * height + y) * length < 2 ^ 32 }
    ensures { result ≡ (plane * height + y) * length }
{
    (plane as usize * height as usize + y as usize) * length
}

// Planes may go to another thread, and threads may share them: the bounds ask for the proofs.
fn cross_threads() {
    crosses::<Planes>();
    is_shared::<Planes>();
}

fn crosses<T: Send>() {}

fn is_shared<T: Sync>() {}
