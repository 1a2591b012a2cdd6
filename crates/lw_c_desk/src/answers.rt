// What the calls answer, with the numbers that `lw_c_arrays` has for the same.

pub(crate) const DONE: i32 = 0;

pub(crate) const NO_MEMORY: i32 = -1;

pub(crate) const BAD_RECTANGLE: i32 = -2;

pub(crate) const NO_ROOM: i32 = -3;

pub(crate) const OUTSIDE: i32 = -5;

pub(crate) const CLOSED: i32 = -6;

pub(crate) const UNFIT: i32 = -7;

pub(crate) const BAD_SIZES: i32 = -8;

pub(crate) const IS_OPEN: i32 = -9;

pub(crate) const NO_LAYER: i32 = -10;

pub(crate) const NO_WINDOW: i32 = -11;

pub(crate) const BAD_BITMAP: i32 = -12;

pub(crate) const BAD_HOOK: i32 = -13;
