ghost use Rattle.std.specs.Prelude.{◌≡◌};
ghost use Rattle.lw_calls.specs.Limits.{limits_of};

/// The limits of a plan that go by its version.
#[derive(Clone, Copy, Debug, PartialEq, Eq)]
pub struct Limits {
    /// How many columns, and how many rows, a screen has at most.
    pub screen: u32,
    /// How many layer names a plan has at most.
    pub names: u32,
    /// How many calls a task has at most.
    pub calls: u32,
}

/// The limits of the version, 1, 2 or 3.
pub fn limits_of(version: u32) -> Limits
    ensures { result ≡ limits_of version }
{
    match version {
        1 => Limits {
            screen: 1024,
            names: 64,
            calls: 4096,
        },
        2 => Limits {
            screen: 2048,
            names: 128,
            calls: 16384,
        },
        _ => Limits {
            screen: 2048,
            names: 1024,
            calls: 16384,
        },
    }
}
