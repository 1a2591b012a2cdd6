ghost use Rattle.std.specs.Prelude.{Option};
ghost use Rattle.std.specs.Coded.{coded_option};
ghost use Rattle.lw_program_desk.specs.Views.{DeskView};
ghost use Rattle.lw_c_desk.specs.Owned.{held_owns, state_coded};

mod lends;
mod methods;
mod parts;

use std::alloc::Global;
use std::marker::Model;

/// The desk of a handle, if it has one, behind a pointer that C can keep.
#[repr(C)]
#[derive(Drop)]
pub struct Held {
    at: *mut u8,
    alloc: Global,
    pub ghost state: { Option DeskView } by { coded_option state_coded },
}

impl Model for Held {
    ghost also_owns = { λ h. held_owns h.alloc h.at h.state };
}
