use lw_calls::{Call, Text};
use lw_gen::plan_of;
use std::process::Abort;
use std::test::Fail;

// Whether the name at a place has these bytes.
fn is_named(names: &[Text], place: usize, bytes: &[u8]) -> bool {
    match names.get(place) {
        Some(name) => name.bytes() == bytes,
        None => false,
    }
}

fn assert_calls<R: Abort>(rt: &R, calls: &[Call]) {
    assert_eq!(rt; calls.len(), 500);
    assert!(rt; matches!(calls.get(6), Some(Call::SetA { slot: 5, pen: 2 })));
    assert!(rt;
        matches!(
            calls.get(9),
            Some(Call::ReadPixel {
                slot: 3,
                x: 177,
                y: 78
            })
        )
    );
}

#[test]
fn demo_seven_has_these_names_and_calls(rt: HostRuntime) -> Result<(), Fail> {
    let plan = plan_of(rt.alloc(), 7, 2)?;
    assert_eq!(rt; plan.task_names().len(), 2);
    assert!(rt; is_named(plan.task_names(), 1, b"t1"));
    assert!(rt; is_named(plan.slot_names(), 3, b"t1a"));
    assert_calls(&rt, plan.calls(1));
    Ok(())
}
