use Message::{Active, Change, Inactive, NewSize, Refresh};
use bitflags::Flags;
use lw_calls::Message;
use lw_ports::MessageSet;
use std::test::Fail;

// For each number of classes, whether it has refresh, newsize, change, active and inactive.
static SETS: [(u8, [bool; 5]); 8] = [
    (0, [false, false, false, false, false]),
    (1, [true, false, false, false, false]),
    (2, [false, true, false, false, false]),
    (4, [false, false, true, false, false]),
    (8, [false, false, false, true, false]),
    (16, [false, false, false, false, true]),
    (21, [true, false, true, false, true]),
    (31, [true, true, true, true, true]),
];

static CLASSES: [Message; 5] = [Refresh, NewSize, Change, Active, Inactive];

fn set_of(has: &[bool; 5]) -> MessageSet {
    let mut set = MessageSet::empty();
    for (message, has) in CLASSES.iter().zip(has) {
        if *has {
            set = set.with(*message);
        }
    }
    set
}

#[test]
fn a_set_has_the_classes_of_its_number(rt: HostRuntime) -> Result<(), Fail> {
    for (classes, has) in &SETS {
        let set = MessageSet::from_bits(*classes).ok_or("no set")?;
        for (message, due) in CLASSES.iter().zip(has) {
            assert!(rt; set.has(*message) == *due);
        }
        assert!(rt; set_of(has) == set);
        assert!(rt; set.bits() == *classes);
    }
    assert!(rt; MessageSet::from_classes(21).bits() == 21);
    assert!(rt; MessageSet::of(Refresh).union(MessageSet::of(Active)).bits() == 9);
    assert!(rt; MessageSet::from_bits(31) == Some(MessageSet::all()));
    assert!(rt; MessageSet::from_bits(32).is_none());
    Ok(())
}
