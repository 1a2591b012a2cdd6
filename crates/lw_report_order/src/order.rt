//! The order at the head of a report.
ghost use Rattle.std.specs.Prelude.{◌≡◌, ◌<◌, ◌≤◌, ◌+◌, ◌++◌, ℕ, List, [], length, drop, Err, IfOk, IfSome, IfNone};
ghost use Rattle.lw_report_order.specs.Differing.{DiffersAt};
ghost use Rattle.lw_report_order.specs.OrderAnswers.{GivesOrder, ReadsOrder, OrderIs, PlaceIs};
ghost use Rattle.lw_report_order.specs.OrderReading.{end_read, after_one, number_read, numbers_read, onto};
ghost use Rattle.lw_report_order.specs.OrderSection.{HasOrder, StopsAt};

use crate::differing::first_difference;
use crate::order_stop::OrderStop;
use lw_calls::OrderList;
use lw_report::byte_after;
use std::alloc::Global;

/// The end of a number of which so many bytes were read: the number, and its bytes with that end; or how many bytes begin one.
fn end_at(bytes: &[u8], end: u8, number: u32, used: usize) -> Result<(u32, usize), usize>
    requires { used ≤ 2 }
    ensures { result ≡ end_read end number used bytes.now }
{
    match bytes {
        [byte, ..] if *byte == end => Ok((number, used + 1)),
        _ => Err(used),
    }
}

/// What stands after a 1: a second digit from 0 to 5, or the number's end.
fn one_at(bytes: &[u8], end: u8) -> Result<(u32, usize), usize>
    ensures { result ≡ after_one end bytes.now }
{
    match bytes {
        [] => Err(1),
        [byte, rest @ ..] => {
            if b'0' <= *byte && *byte <= b'5' {
                end_at(rest, end, (*byte - 38) as u32, 2)
            } else {
                end_at(bytes, end, 1, 1)
            }
        }
    }
}

/// A number below 16 at the front of the bytes, and how many bytes it has with the byte that ends it; or how many bytes begin
/// one.
fn number_at(bytes: &[u8], end: u8) -> Result<(u32, usize), usize>
    ensures { result ≡ number_read end bytes.now }
{
    match bytes {
        [] => Err(0),
        [byte, rest @ ..] => {
            if *byte == b'1' {
                one_at(rest, end)
            } else if b'0' <= *byte && *byte <= b'9' {
                end_at(rest, end, (*byte - b'0') as u32, 1)
            } else {
                Err(0)
            }
        }
    }
}

/// So many numbers, the first of which stands at a place, or the place at which none can go on.
fn numbers_at(alloc: Global, bytes: &[u8], first: usize, count: u32) -> Result<OrderList, OrderStop>
    requires { first ≤ length bytes.now }
    ensures { GivesOrder result (onto [] first (numbers_read 0 count (drop first bytes.now))) }
{
    let mut tasks = Vec::new(alloc);
    let mut place = first;
    for above in 0..count as usize {
        match number_at(&bytes[place..], byte_after(above + 1, count as usize)) {
            Ok((task, used)) => {
                tasks.push(task)?;
                place += used;
            }
            Err(begun) => return Err(OrderStop::Place((place + begun) as u64)),
        }
    }
    Ok(OrderList::new(tasks))
}

/// None where the bytes begin with a line, else the place in it up to which they do.
fn line_at(bytes: &[u8], line: &[u8]) -> Option<usize>
    ensures begins { IfNone result (bytes.now ≡ line.now ++ drop (length line.now) bytes.now) }
    ensures differs { IfSome result (λ n. DiffersAt bytes.now line.now n × (n < length line.now)) }
{
    let Some(place) = first_difference(bytes, line) else {
        return None;
    };
    if place < line.len() {
        return Some(place);
    }
    None
}

/// The order behind its first line, or the place at which that line or the numbers can't go on.
fn order_at(alloc: Global, bytes: &[u8], count: u32) -> Result<OrderList, OrderStop>
    ensures { ReadsOrder count bytes.now result }
{
    let line = format!(in alloc; "order {count}\n")?.into_bytes();
    match line_at(bytes, line.as_slice()) {
        Some(place) => Err(OrderStop::Place(place as u64)),
        None => numbers_at(alloc, bytes, line.len(), count),
    }
}

/// The order at the head of a report of so many calls: the numbers whose section (`order`, how many there are, and the
/// numbers, 64 on a line) the bytes begin with. What stands behind the section doesn't matter. Else the place, from 0, up to
/// which the bytes begin a section for so many numbers below 16: no section begins with one byte more, or there is none
/// more. Memory may run out instead.
pub fn read_order(alloc: Global, bytes: &[u8], count: u32) -> Result<OrderList, OrderStop>
    ensures found { IfOk result (λ order. HasOrder count bytes.now order) }
    ensures place { (n : ℕ) → result ≡ Err (OrderStop.Place n) → StopsAt count bytes.now n }

    // What the bytes begin with decides the answer, but for running out of memory.
    ensures only_found { (numbers : List ℕ) → HasOrder count bytes.now numbers → OrderIs numbers result }
    ensures only_place { (n : ℕ) → StopsAt count bytes.now n → PlaceIs n result }
{
    order_at(alloc, bytes, count)
}
