//! The statements that stand for what is done with a window of two layers.
ghost use Rattle.std.specs.Prelude.{◌≡◌, ℕ, true, false, [], ◌∷◌, ◌++◌, map, None, IsTrue, IfOk};
ghost use Rattle.lw_grammar.specs.Statements.{BareAct, OpenAct, InFrontAct, BoxAct, CallLine, HoldLine, ReleaseLine};
ghost use Rattle.lw_grammar.specs.Statements.{new_without_bitmap, is_gzz_box, is_gzz_in_range};
ghost use Rattle.lw_grammar.specs.Told.{inner_box, gzz_calls};
ghost use Rattle.lw_statements.specs.StatementMeaning.{box_meaning, statement_meaning, gzz_meaning};

use crate::statement::{Act, AskedBox, GzzAct, Layers, NewLayer, Statement};
use lw_calls::{Kind, Place};
use lw_grammar::BareVerb;
use std::alloc::{AllocError, Global};

/// The box of the inner layer in that of the outer one.
#[tactic(auto, using(std::proofs::lemmas::Int::ints), unfolding(lw_region::specs::Rectangle::within))]
fn inner_box(at: AskedBox) -> AskedBox
    requires { (width : ℕ) × (height : ℕ) × IsTrue (is_gzz_box width height (box_meaning at)) }
    ensures { box_meaning result ≡ inner_box (box_meaning at) }
{
    AskedBox {
        x: at.x + 4,
        y: at.y + 11,
        w: at.w - 8,
        h: at.h - 13,
    }
}

/// Two calls in a hold group.
fn two_held<'a>(
    alloc: Global,
    first: Statement<'a>,
    second: Statement<'a>,
) -> Result<Vec<Statement<'a>>, AllocError>
    ensures { IfOk result (λ fs. map statement_meaning fs.items
        ≡ HoldLine ∷ statement_meaning first.entry ∷ statement_meaning second.entry ∷ ReleaseLine ∷ []) }
{
    Ok(vec![in alloc; Statement::Hold, first, second, Statement::Release]?)
}

/// The same call on both layers, in this order.
fn on_both<'a>(
    alloc: Global,
    verb: BareVerb,
    first: &'a [u8],
    second: &'a [u8],
) -> Result<Vec<Statement<'a>>, AllocError>
    ensures { IfOk result (λ fs. map statement_meaning fs.items
        ≡ HoldLine ∷ CallLine (first.entry.now ∷ []) (BareAct verb)
        ∷ CallLine (second.entry.now ∷ []) (BareAct verb) ∷ ReleaseLine ∷ []) }
{
    let first = Statement::on(first, Act::Bare(verb));
    let second = Statement::on(second, Act::Bare(verb));
    two_held(alloc, first, second)
}

/// A layer put in front of another one.
fn put_in_front<'a>(layer: &'a [u8], other: &'a [u8]) -> Statement<'a>
    ensures { statement_meaning result ≡ CallLine (layer.entry.now ∷ other.entry.now ∷ []) InFrontAct }
{
    Statement::Call {
        layers: Layers::Two(layer, other),
        act: Act::InFront,
    }
}

/// A window that is opened, without a bitmap of its own.
fn opened<'a>(
    layer: &'a [u8],
    kind: Kind,
    place: Place,
    at: AskedBox,
    framed: bool,
    classes: u8,
    title: &'a [u8],
) -> Statement<'a>
    ensures { statement_meaning result ≡ CallLine (layer.entry.now ∷ [])
        (OpenAct (box_meaning at) (new_without_bitmap kind place false None)
        framed false classes title.entry.now) }
{
    let asked = NewLayer::without_bitmap(kind, place, false, None);
    Statement::on(
        layer,
        Act::Open {
            at,
            asked,
            framed,
            nocare: false,
            classes,
            title,
        },
    )
}

/// The statements for which it stands that is done with a window of these two layers: its calls in a hold group. Its box,
/// if it has one, is one that the window may have on some screen.
pub fn gzz_statements<'a>(
    alloc: Global,
    outer: &'a [u8],
    inner: &'a [u8],
    act: &GzzAct<'a>,
) -> Result<Vec<Statement<'a>>, AllocError>
    requires { (width : ℕ) × (height : ℕ) × IsTrue (is_gzz_in_range width height (gzz_meaning act.now)) }
    ensures { IfOk result (λ fs. map statement_meaning fs.items
        ≡ HoldLine ∷ gzz_calls outer.entry.now inner.entry.now (gzz_meaning act.now) ++ ReleaseLine ∷ []) }
{
    match act {
        GzzAct::Open {
            kind,
            place,
            at,
            classes,
            title,
            ..
        } => {
            let frame = opened(outer, Kind::Smart, *place, *at, true, *classes, *title);
            let inside = opened(inner, *kind, *place, inner_box(*at), false, *classes, b"");
            let last = put_in_front(inner, outer);
            Ok(vec![in alloc; Statement::Hold, frame, inside, last, Statement::Release]?)
        }
        GzzAct::Box(at) => {
            let first = Statement::on(outer, Act::Box(*at));
            let second = Statement::on(inner, Act::Box(inner_box(*at)));
            two_held(alloc, first, second)
        }
        GzzAct::Front => on_both(alloc, BareVerb::Front, outer, inner),
        GzzAct::Behind => on_both(alloc, BareVerb::Behind, inner, outer),
        GzzAct::InFront(other) => {
            let first = put_in_front(outer, *other);
            two_held(alloc, first, put_in_front(inner, outer))
        }
        GzzAct::Close => on_both(alloc, BareVerb::Close, outer, inner),
    }
}
