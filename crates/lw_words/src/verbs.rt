ghost use Rattle.std.specs.Prelude.{◌≡◌, ℕ, List, ◌∷◌};
ghost use Rattle.lw_grammar.specs.Verbs.{verb_word, verb_in, verb_of};

use crate::cut::is_text;
use lw_calls::{PairOp, RectOp};
use lw_grammar::{BareVerb, GzzVerb, NumberVerb, PairVerb, PartVerb, TextVerb, Verb};

/// The word of a verb.
fn verb_word(verb: Verb) -> &'static [u8]
    ensures { result.now ≡ verb_word verb }
{
    match verb {
        Verb::Part(PartVerb::Layers) => b"layers",
        Verb::Part(PartVerb::Screen) => b"screen",
        Verb::Part(PartVerb::Glyph) => b"glyph",
        Verb::Part(PartVerb::Bitmap) => b"bitmap",
        Verb::Part(PartVerb::Pattern) => b"pattern",
        Verb::Part(PartVerb::Task) => b"task",
        Verb::Part(PartVerb::End) => b"end",
        Verb::Part(PartVerb::Order) => b"order",
        Verb::Part(PartVerb::Report) => b"report",
        Verb::Part(PartVerb::Lock) => b"lock",
        Verb::Part(PartVerb::Unlock) => b"unlock",
        Verb::Part(PartVerb::Hold) => b"hold",
        Verb::Part(PartVerb::Release) => b"release",
        Verb::Bare(BareVerb::Close) => b"close",
        Verb::Bare(BareVerb::Front) => b"front",
        Verb::Bare(BareVerb::Behind) => b"behind",
        Verb::Bare(BareVerb::Activate) => b"activate",
        Verb::Bare(BareVerb::Unclip) => b"unclip",
        Verb::Bare(BareVerb::Refresh) => b"refresh",
        Verb::Bare(BareVerb::GetMsg) => b"getmsg",
        Verb::Number(NumberVerb::APen) => b"apen",
        Verb::Number(NumberVerb::BPen) => b"bpen",
        Verb::Number(NumberVerb::Mode) => b"mode",
        Verb::Number(NumberVerb::Mask) => b"mask",
        Verb::Number(NumberVerb::SetRast) => b"setrast",
        Verb::Number(NumberVerb::Clip) => b"clip",
        Verb::Number(NumberVerb::Hook) => b"hook",
        Verb::Pair(PairVerb::Move) => b"move",
        Verb::Pair(PairVerb::Size) => b"size",
        Verb::Pair(PairVerb::At) => b"at",
        Verb::Pair(PairVerb::Write) => b"write",
        Verb::Pair(PairVerb::Read) => b"read",
        Verb::Pair(PairVerb::Draw) => b"draw",
        Verb::Pair(PairVerb::Scroll) => b"scroll",
        Verb::Text(TextVerb::Text) => b"text",
        Verb::Text(TextVerb::Title) => b"title",
        Verb::Rect(RectOp::Or) => b"orrect",
        Verb::Rect(RectOp::And) => b"andrect",
        Verb::Rect(RectOp::Xor) => b"xorrect",
        Verb::Rect(RectOp::Clear) => b"clearrect",
        Verb::Region(PairOp::Or) => b"orregion",
        Verb::Region(PairOp::And) => b"andregion",
        Verb::Region(PairOp::Xor) => b"xorregion",
        Verb::ClearRegion => b"clearregion",
        Verb::Create => b"create",
        Verb::Open => b"open",
        Verb::InFront => b"infront",
        Verb::Box => b"box",
        Verb::Which => b"which",
        Verb::Fill => b"fill",
        Verb::ScrollRaster => b"scrollraster",
        Verb::Put => b"put",
        Verb::Blit => b"blit",
        Verb::EndRefresh => b"endrefresh",
        Verb::Area => b"area",
        Verb::AreaPattern => b"areapat",
        Verb::Gzz(GzzVerb::Open) => b"gopen",
        Verb::Gzz(GzzVerb::Box) => b"gbox",
        Verb::Gzz(GzzVerb::Front) => b"gfront",
        Verb::Gzz(GzzVerb::Behind) => b"gbehind",
        Verb::Gzz(GzzVerb::InFront) => b"ginfront",
        Verb::Gzz(GzzVerb::Close) => b"gclose",
    }
}

/// The first of these verbs that has the word.
fn verb_in(verbs: &[Verb], word: &[u8]) -> Option<Verb>
    ensures { result ≡ verb_in verbs.now word.now }
{
    match verbs {
        [] => None,
        [verb, others @ ..] => {
            if is_text(word, verb_word(*verb)) {
                Some(*verb)
            } else {
                verb_in(others, word)
            }
        }
    }
}

/// The verbs whose words begin with this byte.
#[tactic(auto, unfolding(lw_grammar::specs::Verbs::verb_of))]
fn verbs_with(first: u8) -> &'static [Verb]
    ensures { (rest : List ℕ) → verb_in result.now (first ∷ rest) ≡ verb_of (first ∷ rest) }
{
    match first {
        b'a' => &[
            Verb::Bare(BareVerb::Activate),
            Verb::Number(NumberVerb::APen),
            Verb::Pair(PairVerb::At),
            Verb::Rect(RectOp::And),
            Verb::Region(PairOp::And),
            Verb::Area,
            Verb::AreaPattern,
        ],
        b'b' => &[
            Verb::Part(PartVerb::Bitmap),
            Verb::Bare(BareVerb::Behind),
            Verb::Number(NumberVerb::BPen),
            Verb::Box,
            Verb::Blit,
        ],
        b'c' => &[
            Verb::Bare(BareVerb::Close),
            Verb::Number(NumberVerb::Clip),
            Verb::Rect(RectOp::Clear),
            Verb::ClearRegion,
            Verb::Create,
        ],
        b'd' => &[Verb::Pair(PairVerb::Draw)],
        b'e' => &[Verb::Part(PartVerb::End), Verb::EndRefresh],
        b'f' => &[Verb::Bare(BareVerb::Front), Verb::Fill],
        b'g' => &[
            Verb::Part(PartVerb::Glyph),
            Verb::Bare(BareVerb::GetMsg),
            Verb::Gzz(GzzVerb::Open),
            Verb::Gzz(GzzVerb::Box),
            Verb::Gzz(GzzVerb::Front),
            Verb::Gzz(GzzVerb::Behind),
            Verb::Gzz(GzzVerb::InFront),
            Verb::Gzz(GzzVerb::Close),
        ],
        b'h' => &[Verb::Part(PartVerb::Hold), Verb::Number(NumberVerb::Hook)],
        b'i' => &[Verb::InFront],
        b'l' => &[Verb::Part(PartVerb::Layers), Verb::Part(PartVerb::Lock)],
        b'm' => &[
            Verb::Number(NumberVerb::Mode),
            Verb::Number(NumberVerb::Mask),
            Verb::Pair(PairVerb::Move),
        ],
        b'o' => &[
            Verb::Part(PartVerb::Order),
            Verb::Rect(RectOp::Or),
            Verb::Region(PairOp::Or),
            Verb::Open,
        ],
        b'p' => &[Verb::Part(PartVerb::Pattern), Verb::Put],
        b'r' => &[
            Verb::Part(PartVerb::Report),
            Verb::Part(PartVerb::Release),
            Verb::Bare(BareVerb::Refresh),
            Verb::Pair(PairVerb::Read),
        ],
        b's' => &[
            Verb::Part(PartVerb::Screen),
            Verb::Number(NumberVerb::SetRast),
            Verb::Pair(PairVerb::Size),
            Verb::Pair(PairVerb::Scroll),
            Verb::ScrollRaster,
        ],
        b't' => &[
            Verb::Part(PartVerb::Task),
            Verb::Text(TextVerb::Text),
            Verb::Text(TextVerb::Title),
        ],
        b'u' => &[Verb::Part(PartVerb::Unlock), Verb::Bare(BareVerb::Unclip)],
        b'w' => &[Verb::Pair(PairVerb::Write), Verb::Which],
        b'x' => &[Verb::Rect(RectOp::Xor), Verb::Region(PairOp::Xor)],
        _ => &[],
    }
}

/// The verb that a word is, if it is one.
#[tactic(auto, unfolding(lw_grammar::specs::Verbs::verb_of))]
pub fn verb_of(word: &[u8]) -> Option<Verb>
    ensures { result ≡ verb_of word.now }
{
    match word {
        [] => None,
        [first, ..] => verb_in(verbs_with(*first), word),
    }
}
