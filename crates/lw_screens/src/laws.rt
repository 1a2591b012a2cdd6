ghost use Rattle.lw_screens.specs.Display.{Display};
ghost use Rattle.lw_screens.specs.Laws.{BandsAreLongestRuns, OrdersHaveEachScreenOnce};

/// The bands of a display are the longest runs of its rows with one owner, one after another from the top.
pub fn bands_are_longest_runs()
    ensures { (d : Display) → BandsAreLongestRuns d }
{}

/// Whatever acts are done on the screens of a display that was opened, its order has the number of each screen once, and no other
/// number.
pub fn orders_have_each_screen_once()
    ensures { OrdersHaveEachScreenOnce }
{}
