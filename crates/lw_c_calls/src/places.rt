// Places of 16 bits each way, and the numbers of operations and of kinds of layers.

ghost use Rattle.std.specs.Prelude.{◌≡◌, IsTrue};
ghost use Rattle.lw_calls.specs.Limits.{is_coordinate};
ghost use Rattle.lw_c_calls.specs.Meant.{rect_operation, pair_operation, layer_kind};

use lw_calls::{Kind, PairOp, RectOp};

#[tactic(auto, using(std::proofs::lemmas::Int::ints), unfolding(lw_region::specs::Rectangle::within))]
pub(crate) fn is_coordinate(place: i32) -> bool
    ensures { result ≡ is_coordinate place }
{
    if place < -32768 {
        return false;
    }
    place <= 32767
}

#[tactic(auto, using(std::proofs::lemmas::Int::ints), unfolding(lw_region::specs::Rectangle::within))]
pub(crate) fn word_of(place: i32) -> i16
    requires { IsTrue (is_coordinate place) }
    ensures { result ≡ place }
{
    place as i16
}

pub(crate) fn rect_operation(number: u32) -> Option<RectOp>
    ensures { result ≡ rect_operation number }
{
    match number {
        0 => Some(RectOp::Or),
        1 => Some(RectOp::And),
        2 => Some(RectOp::Xor),
        3 => Some(RectOp::Clear),
        _ => None,
    }
}

pub(crate) fn pair_operation(number: u32) -> Option<PairOp>
    ensures { result ≡ pair_operation number }
{
    match number {
        0 => Some(PairOp::Or),
        1 => Some(PairOp::And),
        2 => Some(PairOp::Xor),
        _ => None,
    }
}

pub(crate) fn layer_kind(number: u32) -> Option<Kind>
    ensures { result ≡ layer_kind number }
{
    match number {
        0 => Some(Kind::Simple),
        1 => Some(Kind::Smart),
        2 => Some(Kind::SuperBitmap),
        _ => None,
    }
}
