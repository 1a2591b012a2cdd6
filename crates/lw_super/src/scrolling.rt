ghost use Rattle.std.specs.Prelude.{◌≡◌, ℕ, pos, ◌+ℤ◌, true, if◌then◌else◌, Some};
ghost use Rattle.lw_calls.specs.Kinds.{is_super};
ghost use Rattle.lw_machine.specs.Arrangement.{portion_fits};
ghost use Rattle.lw_machine.specs.Step.{may_scroll, scroll_layer};
ghost use Rattle.lw_layer.specs.View.{with_layer, with_live};
ghost use Rattle.lw_layer.specs.Drafts.{IsDraft, IsLiveDraft, cell_view, live_view};
ghost use Rattle.lw_super.specs.Shown.{left_of, top_of, refilled_by, axis_fits, draft_fits, MayScroll, IsNear, scrolled_by};

use crate::shown::read_shown;
use crate::writing::{corner, write_back};
use lw_layer::{Cell, Draft, DraftState, LiveDraft, Look};

/// Shows another portion of a super-bitmap layer's own bitmap (ScrollLayer): the pixel that the layer's top left corner shows
/// moves by `dx` columns and `dy` rows. False exactly where that portion would leave the bitmap, and then nothing changes. No
/// memory is taken. The slot has such a layer, and so is live.
pub fn scroll(cell: &mut Cell, dx: i32, dy: i32) -> bool
    requires own { is_super cell.old.live.layer.kind ≡ true }
    ensures answer { result ≡ may_scroll (Some cell.old.live.bounds) dx dy cell.old.live.layer }
    ensures cell { cell.new ≡ (if result then with_live (λ c. with_layer (scroll_layer dx dy) c) cell.old else cell.old) }
{
    let Some(look) = cell.look() else {
        unreachable!();
    };
    if !look_fits(&look, dx, dy) {
        return false;
    }
    let slot = cell.slot();
    let mut draft = cell.take_up(Draft {
        slot,
        state: DraftState::Closed,
    });
    scroll_draft(&mut draft, dx, dy);
    let _ = cell.take_up(draft);
    true
}

// The portion moved so lies in the bitmap.
fn look_fits(look: &Look, dx: i32, dy: i32) -> bool
    ensures { result
        ≡ portion_fits (look.now.scroll_x +ℤ dx) (look.now.scroll_y +ℤ dy) look.now.bits_w look.now.bits_h look.now.bounds }
{
    let across = axis_fits(look.scroll_x, dx, look.bounds.width(), look.bits_w);
    let down = axis_fits(look.scroll_y, dy, look.bounds.height(), look.bits_h);
    across && down
}

// The same along one axis.
#[tactic(auto, using(std::proofs::lemmas::Int::ints), unfolding(crate::specs::Shown::axis_fits))]
fn axis_fits(scroll: i32, by: i32, extent: u32, count: u32) -> bool
    ensures { result ≡ axis_fits (scroll +ℤ by) (pos extent) count }
{
    let start = i64::from(scroll) + i64::from(by);
    0 <= start && start + i64::from(extent) <= i64::from(count)
}

// Moves the portion that a draft's layer shows.
fn scroll_draft(draft: &mut Draft, dx: i32, dy: i32)
    requires { MayScroll draft.old.state dx dy }
    ensures draft { IsDraft draft.new }
    ensures view { cell_view draft.new ≡ with_live (λ c. with_layer (scroll_layer dx dy) c) (cell_view draft.old) }
{
    match &mut draft.state {
        DraftState::Live(live) => scroll_live(live, dx, dy),
        _ => unreachable!(),
    }
}

// Moves the portion that a live layer shows.
fn scroll_live(live: &mut LiveDraft, dx: i32, dy: i32)
    requires sound { IsLiveDraft live.old }
    requires own { is_super live.old.kind ≡ true }
    requires fits { draft_fits live.old dx dy ≡ true }
    ensures sound { IsLiveDraft live.new }
    ensures view { live_view live.new ≡ with_layer (scroll_layer dx dy) (live_view live.old) }
{
    // Reading these tells the proof that the visible rectangles lie in the bounds.
    let _ = live.bounds.min_x();
    let _ = live.parts.visible();
    let _ = live.parts.hidden();
    move_portion(live, dx, dy);
    show_portion(live);
}

// Moves the portion, and leaves it to the own bitmap alone what all pens are: the strips are as they were.
fn move_portion(live: &mut LiveDraft, dx: i32, dy: i32)
    requires sound { IsLiveDraft live.old }
    requires own { is_super live.old.kind ≡ true }
    requires column { IsNear (live.old.scroll_x +ℤ dx) }
    requires row { IsNear (live.old.scroll_y +ℤ dy) }
    ensures { live.new ≡ scrolled_by live.old dx dy }
{
    let x = live.scroll_x + dx;
    let y = live.scroll_y + dy;
    write_back(live);
    live.scroll_x = x;
    live.scroll_y = y;
}

// Fills the strips out of the own bitmap.
fn show_portion(live: &mut LiveDraft)
    requires sound { IsLiveDraft live.old }
    requires own { is_super live.old.kind ≡ true }
    ensures rest { live.new ≡ record live.old { strips = live.new.strips } }
    ensures strips { live.new.strips.items
        ≡ refilled_by live.old.superbits (left_of live.old) (top_of live.old) live.old.strips.items }
{
    // Reading these tells the proof that the visible rectangles lie in the bounds.
    let _ = live.parts.visible();
    let _ = live.parts.hidden();
    let left = corner(live.bounds.min_x(), live.scroll_x);
    let top = corner(live.bounds.min_y(), live.scroll_y);
    match &live.superbits {
        Some(own) => read_shown(live.strips.as_mut_slice(), own, left, top),
        None => unreachable!(),
    }
}
