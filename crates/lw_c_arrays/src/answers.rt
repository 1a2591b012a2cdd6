// What a call answers, as the header names it.

ghost use Rattle.std.specs.Prelude.{◌≡◌};

// All was done.
pub(crate) const DONE: i32 = 0;

// Memory ran out, and all is as before.
pub(crate) const NO_MEMORY: i32 = -1;

// A maximum of a rectangle is below its minimum.
pub(crate) const BAD_RECTANGLE: i32 = -2;

// The array for the result is too short.
pub(crate) const NO_ROOM: i32 = -3;

// There is no rectangle.
pub(crate) const EMPTY: i32 = -4;

// Bits that are named lie outside the row, or rows outside the array.
pub(crate) const OUTSIDE: i32 = -5;
