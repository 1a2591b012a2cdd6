//! The first words of calls' lines.

ghost use Rattle.std.specs.Prelude.{◌≡◌, List, ℕ, IsTrue};
ghost use Rattle.lw_calls.specs.Plan.{is_all};
ghost use Rattle.lw_grammar.specs.Verbs.{rect_word, region_word};
ghost use Rattle.lw_calls.specs.Touches.{slots_of};
ghost use Rattle.lw_print.specs.Behind.{first_word, words_of_call};

use lw_calls::{Call, PairOp, RectOp};

/// The first word of a call's line.
pub fn verb_of(call: &Call) -> &'static str
    ensures { (names bitmaps : List (List ℕ)) → result.now ≡ first_word (words_of_call names bitmaps call.now) }
{
    match call {
        Call::RegRect { op, .. } => rect_word(*op),
        Call::RegPair { op, .. } => region_word(*op),
        Call::RegClear { .. } => "clearregion",
        Call::Which { .. } => "which",
        Call::SetA { .. } => "apen",
        Call::SetB { .. } => "bpen",
        Call::SetMode { .. } => "mode",
        Call::SetMask { .. } => "mask",
        Call::At { .. } => "at",
        Call::WritePixel { .. } => "write",
        Call::ReadPixel { .. } => "read",
        Call::Fill { .. } => "fill",
        Call::DrawTo { .. } => "draw",
        Call::Letters { .. } => "text",
        Call::SetRast { .. } => "setrast",
        Call::ScrollRaster { .. } => "scrollraster",
        Call::Put { .. } => "put",
        Call::Blit { .. } => "blit",
        Call::Clip { .. } => "clip",
        Call::Unclip { .. } => "unclip",
        Call::BeginRefresh { .. } => "refresh",
        Call::EndRefresh { .. } => "endrefresh",
        Call::Scroll { .. } => "scroll",
        Call::SetTitle { .. } => "title",
        Call::TakeMessage { .. } => "getmsg",
        _ => verb_on_all(call),
    }
}

/// The first word of the line of a call that touches all layers.
fn verb_on_all(call: &Call) -> &'static str
    requires { IsTrue (is_all (slots_of call.now)) }
    ensures { (names bitmaps : List (List ℕ)) → result.now ≡ first_word (words_of_call names bitmaps call.now) }
{
    match call {
        Call::Create { .. } => "create",
        Call::OpenWindow { .. } => "open",
        Call::Close { .. } => "close",
        Call::ToFront { .. } => "front",
        Call::ToBack { .. } => "behind",
        Call::InFrontOf { .. } => "infront",
        Call::MoveBy { .. } => "move",
        Call::SizeBy { .. } => "size",
        Call::SetBox { .. } => "box",
        Call::Activate { .. } => "activate",
        Call::SetHook { .. } => "hook",
        // No other call touches all layers.
        _ => unreachable!(),
    }
}

/// The first word of a call that joins a rectangle to a register.
fn rect_word(op: RectOp) -> &'static str
    ensures { result.now ≡ rect_word op }
{
    match op {
        RectOp::Or => "orrect",
        RectOp::And => "andrect",
        RectOp::Xor => "xorrect",
        RectOp::Clear => "clearrect",
    }
}

/// The first word of a call that joins two registers.
fn region_word(op: PairOp) -> &'static str
    ensures { result.now ≡ region_word op }
{
    match op {
        PairOp::Or => "orregion",
        PairOp::And => "andregion",
        PairOp::Xor => "xorregion",
    }
}
