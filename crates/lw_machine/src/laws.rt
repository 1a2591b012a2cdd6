ghost use Rattle.lw_machine.specs.Laws.{ScreenShowsTheTop, VisiblePixelsAreSeen, NothingIsLost, RefusedCallsChangeNothing};
ghost use Rattle.lw_machine.specs.Laws.{ReachedDesksAreSound, StepsLeaveTheRest, StepsAreLocal};

/// A law of the machine, which does nothing: the screen has at each place the pen of the top
/// layer's pixel, or 0 where there is no layer.
pub fn screen_shows_the_top()
    ensures { ScreenShowsTheTop }
{}

/// A law of the machine, which does nothing: a pixel of a layer that is visible lies on a place of the
/// screen, by the layer's bounds and its scroll, and the screen shows the pixel's pen there.
pub fn visible_pixels_are_seen()
    ensures { VisiblePixelsAreSeen }
{}

/// A law of the machine, which does nothing: an arrangement, and any other call that touches all layers, leaves the pen of each
/// pixel that lies in the inner rectangle of a smart layer before and after it, and all pens of a super-bitmap layer.
pub fn nothing_is_lost()
    ensures { NothingIsLost }
{}

/// A law of the machine, which does nothing: a refused call changes nothing.
pub fn refused_calls_change_nothing()
    ensures { RefusedCallsChangeNothing }
{}

/// A law of the machine, which does nothing: a step leaves each part of the desk that its call
/// doesn't touch.
pub fn steps_leave_the_rest()
    ensures { StepsLeaveTheRest }
{}

/// A law of the machine, which does nothing: a call's reply, and what it touches after it, are
/// functions of what it touches before it.
pub fn steps_are_local()
    ensures { StepsAreLocal }
{}

/// A law of the machine, which does nothing: in every desk that a history of calls that fit
/// reaches, pens off the kept pixels are 0, damage lies on kept pixels of the inner rectangle alone and never on a
/// super-bitmap layer, at most one window is active, the list has each live slot once with backdrop layers last, a
/// super-bitmap layer's portion lies in its bitmap, and any other layer has bits of its bounds' size and isn't scrolled.
pub fn reached_desks_are_sound()
    ensures { ReachedDesksAreSound }
{}
