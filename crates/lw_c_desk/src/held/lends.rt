ghost use Rattle.std.specs.Prelude.{◌≡◌, true, is_some, Some};
ghost use types.Logic.{sem};
ghost use Rattle.lw_c_desk.specs.Lent.{held_follows};

use super::Held;
use lw_program_desk::ProgramDesk;

impl Held {
    // Lends the desk.
    pub(crate) fn state(&mut self) -> &mut ProgramDesk
        requires { is_some self.old.state ≡ true }
        ensures* writes_back { sem 𝓛 (held_follows self.entry result) }
        ensures value { self.old.state ≡ Some result.now }
    {
        unsafe { &mut *(self.at as *mut ProgramDesk) }
    }
}
