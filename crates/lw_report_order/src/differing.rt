ghost use Rattle.std.specs.Prelude.{◌≡◌, IfSome, IfNone};
ghost use Rattle.lw_report_order.specs.Differing.{DiffersAt};

/// The first place, from 0, at which two lists of bytes differ: where both have a byte, and not the same, or where one of
/// them ends. None where they are the same.
pub fn first_difference(a: &[u8], b: &[u8]) -> Option<usize>
    ensures differs { IfSome result (λ n. DiffersAt a.now b.now n) }
    ensures same { IfNone result (a.now ≡ b.now) }
{
    let both = a.len().min(b.len());
    for place in 0..both {
        if a[place] != b[place] {
            return Some(place);
        }
    }
    if a.len() == b.len() {
        return None;
    }
    Some(both)
}
