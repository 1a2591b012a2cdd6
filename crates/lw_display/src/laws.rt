ghost use Rattle.lw_display.specs.ShowLaws.{ShowsAreShowable};

/// Every show that bytes are may be shown: its display has sizes, its scenes are few, each has a plan and a legal order, and each
/// act is on the screen of one of them.
pub fn shows_are_showable()
    ensures { ShowsAreShowable }
{}
