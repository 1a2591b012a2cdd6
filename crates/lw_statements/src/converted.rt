//! Numbers in their ranges as the calls have them.
ghost use Rattle.std.specs.Prelude.{◌≡◌, pos, IsTrue, unsigned_abs};
ghost use Rattle.lw_region.specs.Rectangle.{within};
ghost use Rattle.lw_calls.specs.Limits.{is_coordinate, rect_fits, is_extent};
ghost use Rattle.lw_statements.specs.StatementMeaning.{corners_meaning};

use crate::statement::Corners;
use lw_region::Rect;

/// A coordinate or a step in 32 bits.
#[tactic(auto, using(std::proofs::lemmas::Int::ints), unfolding(lw_region::specs::Rectangle::within))]
pub fn step(number: i64) -> i32
    requires { IsTrue (is_coordinate number) }
    ensures { result ≡ number }
{
    number as i32
}

/// A coordinate in 16 bits.
#[tactic(auto, using(std::proofs::lemmas::Int::ints), unfolding(lw_region::specs::Rectangle::within))]
pub fn coordinate(number: i64) -> i16
    requires { IsTrue (is_coordinate number) }
    ensures { result ≡ number }
{
    number as i16
}

/// A width or a height.
#[tactic(auto, using(std::proofs::lemmas::Int::ints), unfolding(lw_region::specs::Rectangle::within))]
pub fn extent(number: i64) -> i32
    requires { IsTrue (is_extent number) }
    ensures { result ≡ number }
{
    number as i32
}

/// A pen, a mask or a mode.
#[tactic(auto, using(std::proofs::lemmas::Int::ints), unfolding(lw_region::specs::Rectangle::within))]
pub fn byte(number: i64) -> u8
    requires { IsTrue (within (pos 0) number (pos 255)) }
    ensures { result ≡ unsigned_abs number }
{
    number as u8
}

/// A size, or the number of a register, a hook or a task.
#[tactic(auto, using(std::proofs::lemmas::Int::ints), unfolding(lw_region::specs::Rectangle::within))]
pub fn count(number: i64) -> u32
    requires { IsTrue (within (pos 0) number (pos 4294967295)) }
    ensures { result ≡ unsigned_abs number }
{
    number as u32
}

impl Corners {
    /// The rectangle with these bounds.
    #[tactic(auto, using(std::proofs::lemmas::Int::ints))]
    pub fn rect(&self) -> Rect
        requires { IsTrue (rect_fits (corners_meaning self.now)) }
        ensures { result ≡ corners_meaning self.now }
    {
        Rect::new(
            coordinate(self.x0),
            coordinate(self.y0),
            coordinate(self.x1),
            coordinate(self.y1),
        )
        .unwrap()
    }
}
