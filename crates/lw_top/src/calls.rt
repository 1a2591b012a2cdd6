ghost use Rattle.std.specs.Prelude.{◌≡◌};
ghost use Rattle.lw_top.specs.Audit.{call_count};

use lw_calls::Plan;

/// How many calls a plan has, of all its tasks.
pub fn call_count(plan: &Plan) -> u32
    ensures { result ≡ call_count plan.now }
{
    let mut count = 0;
    for task in 0..plan.sizes().tasks {
        count += plan.calls(task).len() as u32;
    }
    count
}
