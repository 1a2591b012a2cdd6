ghost use Rattle.std.specs.Prelude.{◌≡◌, true, is_some, Some, None};

use super::Held;
use super::parts::Parts;
use lw_program_desk::ProgramDesk;
use std::alloc::Global;

impl Held {
    pub(crate) fn none(alloc: Global) -> Held
        ensures { result.state ≡ None }
    {
        Held {
            at: std::ptr::null_mut(),
            alloc,
        }
    }

    pub(crate) fn of_box(desk: Box<ProgramDesk>) -> Held
        ensures { result.state ≡ Some desk.value }
    {
        Held::of_parts(Parts::of(desk))
    }

    pub(crate) fn into_box(self) -> Box<ProgramDesk>
        requires { is_some self.state ≡ true }
        ensures { self.state ≡ Some result.value }
    {
        self.into_parts().into_box()
    }

    fn of_parts(parts: Parts<ProgramDesk, Global>) -> Held
        ensures { result.state ≡ Some parts.value }
    {
        let Parts { ptr, alloc } = parts;
        Held {
            at: ptr as *mut u8,
            alloc,
        }
    }

    fn into_parts(self) -> Parts<ProgramDesk, Global>
        requires { is_some self.state ≡ true }
        ensures { self.state ≡ Some result.value }
    {
        let Held { at, alloc } = self;
        Parts {
            ptr: at as *mut ProgramDesk,
            alloc,
        }
    }
}
