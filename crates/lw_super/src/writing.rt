ghost use Rattle.std.specs.Prelude.{◌≡◌, pos, ◌-ℤ◌, ◌≤ℤ◌, true, Some};
ghost use Rattle.lw_calls.specs.Kinds.{is_super};
ghost use Rattle.lw_layer.specs.Drafts.{IsLiveDraft, live_view};

use lw_buffers::lay_strips;
use lw_layer::LiveDraft;

/// Writes the visible pixels of a super-bitmap layer, whose pens are in its strips, into the layer's own bitmap, which then has
/// all pens of the layer. No memory is taken.
pub fn write_back(live: &mut LiveDraft)
    requires sound { IsLiveDraft live.old }
    requires own { is_super live.old.kind ≡ true }
    ensures { live.new ≡ record live.old { superbits = Some (live_view live.old).layer.bits } }
{
    let left = corner(live.bounds.min_x(), live.scroll_x);
    let top = corner(live.bounds.min_y(), live.scroll_y);
    match &mut live.superbits {
        Some(own) => lay_strips(own, i64::from(left), i64::from(top), &live.strips),
        None => unreachable!(),
    }
}

// Where the first place of the bitmap lies, if the edge shows the place at the scroll.
pub(crate) fn corner(edge: i16, scroll: i32) -> i32
    requires low { pos 0 ≤ℤ scroll }
    requires near { scroll ≤ℤ pos 2048 }
    ensures { result ≡ edge -ℤ scroll }
{
    i32::from(edge) - scroll
}
