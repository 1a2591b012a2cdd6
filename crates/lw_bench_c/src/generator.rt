ghost use Rattle.std.specs.Prelude.{◌<◌};

// Numbers that look random: at each step the state is multiplied by 1664525 and raised by 1013904223, both
// modulo 2 to the power of 32, and its upper 16 bits are the number.
#[derive(Drop)]
pub(crate) struct Generator {
    state: u32,
}

impl Generator {
    pub(crate) fn new(seed: u32) -> Generator {
        Generator { state: seed }
    }

    // The next number, modulo `limit`.
    pub(crate) fn below(&mut self, limit: u32) -> u32
        requires { 0 < limit }
        ensures { result < limit }
    {
        self.state = self.state.wrapping_mul(1664525).wrapping_add(1013904223);
        (self.state >> 16) % limit
    }

    // The next byte.
    pub(crate) fn byte(&mut self) -> u8 {
        self.below(256) as u8
    }
}
