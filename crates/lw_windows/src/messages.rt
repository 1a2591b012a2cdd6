ghost use Rattle.std.specs.Prelude.{◌≡◌};
ghost use Rattle.lw_machine.specs.Layer.{Layer, Window};
ghost use Rattle.lw_machine.specs.Reveal.{Across, messages_due, refresh_is_put};
ghost use Rattle.lw_windows.specs.Messages.{listed, Tells};

/// What an arrangement did to a window.
#[derive(Clone, Copy, Debug, PartialEq, Eq)]
pub struct Change {
    /// Its width or height is another than before.
    pub sized: bool,
    /// It was there before, and its bounds are others.
    pub changed: bool,
    /// It ceased to be the active window.
    pub deactivated: bool,
    /// It became the active window.
    pub activated: bool,
    /// It has some damage.
    pub damaged: bool,
}

/// A set of messages, in the order in which they are put (the manual's Intuition Windows chapter: IDCMP classes).
#[derive(Clone, Copy, Debug, PartialEq, Eq)]
pub struct Classes {
    pub newsize: bool,
    pub change: bool,
    pub inactive: bool,
    pub active: bool,
    pub refresh: bool,
}

/// The messages that a window is due after an arrangement, of those for which it `asks`. No refresh is due where it was `asked`
/// to refresh since its last full refresh, or doesn't care. The clauses speak of changes that an arrangement makes, as one that
/// doesn't begin and end a window's activity at once, nor gives it another size and leaves its bounds; of other ones they say
/// nothing.
pub fn due(asks: &Classes, nocare: bool, asked: bool, change: &Change) -> Classes
    ensures put { (c : Across) (after : Layer) (w : Window) → Tells c after w asks.now nocare asked change.now
        → listed result ≡ messages_due c after w }
    ensures refresh { (c : Across) (after : Layer) (w : Window) → Tells c after w asks.now nocare asked change.now
        → result.refresh ≡ refresh_is_put after w }
{
    Classes {
        newsize: change.sized && asks.newsize,
        change: change.changed && asks.change,
        inactive: change.deactivated && asks.inactive,
        active: change.activated && asks.active,
        refresh: change.damaged && !asked && asks.refresh && !nocare,
    }
}
