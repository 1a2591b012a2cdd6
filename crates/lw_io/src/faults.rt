ghost use Rattle.std.specs.Prelude.{◌≡◌, ◌↔◌, IsTrue};
ghost use Rattle.lw_io.specs.Memory.{IsListed, next_call, one_more_fault};

// Whether the list has the number of this call.
pub(crate) fn is_listed(fails: &[u32], call: u32) -> bool
    ensures { IsTrue result ↔ IsListed fails.now call }
{
    call < u32::MAX && fails.contains(&call)
}

// The number of the next call.
pub(crate) fn call_after(call: u32) -> u32
    ensures { result ≡ next_call call }
{
    call.saturating_add(1)
}

// The count after one more fault.
pub(crate) fn raised(faults: u64) -> u64
    ensures { result ≡ one_more_fault faults }
{
    faults.saturating_add(1)
}
