use lw_report_order::{OrderStop, read_order};
use std::alloc::{AllocError, Global};
use std::process::Abort;
use std::test::Fail;

// The place up to which a report of so many calls begins an order, or nothing where an order stands at its head.
fn stop_of(alloc: Global, text: &[u8], count: u32) -> Result<Option<u64>, AllocError> {
    match read_order(alloc, text, count) {
        Ok(_) => Ok(None),
        Err(OrderStop::Place(place)) => Ok(Some(place)),
        Err(OrderStop::Memory) => Err(AllocError),
    }
}

// These are the numbers of the order at the head of a report of as many calls.
fn assert_head<R: Abort + AllocGlobal>(
    rt: &R,
    text: &[u8],
    count: u32,
    due: &[u32],
) -> Result<(), AllocError> {
    match read_order(rt.alloc(), text, count) {
        Ok(order) => assert_eq!(rt; order.tasks(), due),
        Err(OrderStop::Place(place)) => assert!(rt; false, "stops at {place}"),
        Err(OrderStop::Memory) => return Err(AllocError),
    }
    Ok(())
}

// Texts that begin no order of so many calls, and the place at which each stops.
static STOPPED: [(u32, &str, u64); 17] = [
    (0, "", 0),
    (0, "order 0", 7),
    (0, "order 1\n", 6),
    (0, "Order 0\n", 0),
    (12, "order 1\n0", 7),
    (2, "order 2\n", 8),
    // Another number, a second digit, and one that is no task's.
    (2, "order 2\n0", 9),
    (2, "order 2\n00 1\n", 9),
    (2, "order 2\n0 16\n", 11),
    (2, "order 2\n20 1\n", 9),
    (2, "order 2\n0 -1\n", 10),
    (2, "order 2\n0 x\n", 10),
    // A line feed too early, and spaces where a line feed or nothing is due.
    (2, "order 2\n0\n1\n", 9),
    (2, "order 2\n0 1 ", 11),
    (2, "order 2\n0  1\n", 10),
    (2, "order 2\n0 1", 11),
    (2, "order 2\n0 15", 12),
];

#[test]
fn a_report_that_begins_no_order_stops_at_a_place(rt: HostRuntime) -> Result<(), Fail> {
    for (count, text, place) in STOPPED.iter() {
        let stop = stop_of(rt.alloc(), text.as_bytes(), *count)?;
        assert_eq!(rt; stop, Some(*place), "{text}");
    }
    Ok(())
}

#[test]
fn an_order_is_read_from_the_head_of_a_report(rt: HostRuntime) -> Result<(), Fail> {
    assert_head(&rt, b"order 0\nplanes", 0, &[])?;
    assert_head(&rt, b"order 3\n15 1 9\n10", 3, &[15, 1, 9])?;
    Ok(())
}

// The head of a report of 65 calls: its first 63 numbers, and then this.
fn sevens(alloc: Global, end: &[u8]) -> Result<Vec<u8>, AllocError> {
    let mut text = Vec::from_slice(alloc, b"order 65\n")?;
    for _number in 0..63 {
        text.extend_from_slice(b"7 ")?;
    }
    text.extend_from_slice(end)?;
    Ok(text)
}

// The 65th number stands on a line of its own.
#[test]
fn an_order_has_64_numbers_a_line(rt: HostRuntime) -> Result<(), Fail> {
    let text = sevens(rt.alloc(), b"7\n7\n")?;
    assert_head(&rt, text.as_slice(), 65, &[7; 65])?;
    let spaced = sevens(rt.alloc(), b"7 7\n")?;
    assert_eq!(rt; stop_of(rt.alloc(), spaced.as_slice(), 65)?, Some(136));
    Ok(())
}
