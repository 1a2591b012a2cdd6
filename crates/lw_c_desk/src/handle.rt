ghost use Rattle.std.specs.Prelude.{◌≡◌, true, is_some, Some, None, if◌then◌else◌};
ghost use Rattle.lw_c_desk.specs.Answered.{done, closed};

use crate::answers::{CLOSED, DONE};
use crate::held::Held;
use lw_program_desk::ProgramDesk;
use std::alloc::Global;

/// What C keeps of a desk: all zeros where it has none.
#[repr(C)]
#[derive(Drop)]
pub struct Handle {
    pub held: Held,
    pub is_open: bool,
    ghost tied: { is_open ≡ is_some held.state },
}

impl Handle {
    pub(crate) fn of(desk: Box<ProgramDesk>) -> Handle
        ensures { result.held.state ≡ Some desk.value }
    {
        Handle {
            held: Held::of_box(desk),
            is_open: true,
        }
    }

    fn closed(alloc: Global) -> Handle
        ensures { result.held.state ≡ None }
    {
        Handle {
            held: Held::none(alloc),
            is_open: false,
        }
    }

    fn into_box(self) -> Box<ProgramDesk>
        requires { is_some self.held.state ≡ true }
        ensures { self.held.state ≡ Some result.value }
    {
        let Handle { held, .. } = self;
        held.into_box()
    }
}

/// Frees a desk and all that it has. The handle then has none, and may be opened again; it answers that it had none before.
#[unsafe(no_mangle)]
pub extern "C" fn lw_desk_close(alloc: Global, desk: &mut Handle) -> i32
    ensures closed { desk.new.held.state ≡ None }
    ensures answer { result ≡ (if is_some desk.old.held.state then done else closed) }
{
    if !desk.is_open {
        return CLOSED;
    }
    let old = std::mem::replace(desk, Handle::closed(alloc));
    drop(old.into_box());
    DONE
}
