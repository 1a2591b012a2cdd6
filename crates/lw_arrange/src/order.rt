ghost use Rattle.std.specs.Prelude.{◌≡◌, ◌<◌, ◌≤◌, ◌==◌, ◌∷◌, length, IfOk, false};
ghost use Rattle.std.specs.List.{All, position_or_len, insert};
ghost use Rattle.lw_machine.specs.Arrangement.{without, put_before, placed};
ghost use Rattle.lw_arrange.specs.Planning.{is_backdrop_at};

use lw_calls::Place;
use lw_layer::Look;
use std::alloc::{AllocError, Global};

/// The list without a slot.
pub(crate) fn without(alloc: Global, slot: u32, order: &[u32]) -> Result<Vec<u32>, AllocError>
    ensures { IfOk result (λ list. list.items ≡ without slot order.now) }
{
    let mut list = Vec::with_capacity(alloc, order.len())?;
    for other in order {
        if *other != slot {
            list.push(*other)?;
        }
    }
    Ok(list)
}

/// The list with a slot directly before the first backdrop layer, or at the end.
pub(crate) fn put_before_backdrops(
    looks: &[Option<Look>],
    slot: u32,
    order: Vec<u32>,
) -> Result<Vec<u32>, AllocError>
    requires { All (λ s. s < length looks.now) order.items }
    ensures { IfOk result (λ list. list.items ≡ put_before (is_backdrop_at looks.now) slot order.items) }
{
    let place = first_backdrop(looks, order.as_slice());
    put_at(place, slot, order)
}

/// The list with a slot directly before another, or at the end.
pub(crate) fn put_before_one(other: u32, slot: u32, order: Vec<u32>) -> Result<Vec<u32>, AllocError>
    ensures { IfOk result (λ list. list.items ≡ put_before (λ t. t == other) slot order.items) }
{
    let place = place_of(other, order.as_slice());
    put_at(place, slot, order)
}

/// The list with a slot in front.
pub(crate) fn put_first(slot: u32, order: Vec<u32>) -> Result<Vec<u32>, AllocError>
    ensures { IfOk result (λ list. list.items ≡ slot ∷ order.items) }
{
    put_at(0, slot, order)
}

/// The list with a slot at the end.
fn put_last(slot: u32, order: Vec<u32>) -> Result<Vec<u32>, AllocError>
    ensures { IfOk result (λ list. list.items ≡ put_before (λ t. false) slot order.items) }
{
    let place = order.len();
    put_at(place, slot, order)
}

/// The list with a new layer's slot: in front of all others, or behind all but the backdrop layers, which a backdrop layer joins
/// as their first or their last one.
pub(crate) fn place_new(
    looks: &[Option<Look>],
    backdrop: bool,
    place: Place,
    slot: u32,
    order: Vec<u32>,
) -> Result<Vec<u32>, AllocError>
    requires { All (λ s. s < length looks.now) order.items }
    ensures { IfOk result (λ list. list.items ≡ placed (is_backdrop_at looks.now) backdrop place slot order.items) }
{
    match (backdrop, place) {
        (false, Place::Front) => put_first(slot, order),
        (false, Place::Behind) | (true, Place::Front) => put_before_backdrops(looks, slot, order),
        (true, Place::Behind) => put_last(slot, order),
    }
}

fn put_at(place: usize, slot: u32, mut order: Vec<u32>) -> Result<Vec<u32>, AllocError>
    requires { place ≤ length order.items }
    ensures { IfOk result (λ list. list.items ≡ insert order.items place slot) }
{
    order.insert(place, slot)?;
    Ok(order)
}

/// The place of the first backdrop layer, or the list's length where there is none.
fn first_backdrop(looks: &[Option<Look>], order: &[u32]) -> usize
    requires { All (λ s. s < length looks.now) order.now }
    ensures value { result ≡ position_or_len (is_backdrop_at looks.now) order.now }
    ensures within { result ≤ length order.now }
{
    for (place, slot) in order.iter().enumerate() {
        if is_backdrop(looks, *slot) {
            return place;
        }
    }
    order.len()
}

fn is_backdrop(looks: &[Option<Look>], slot: u32) -> bool
    requires { slot < length looks.now }
    ensures { result ≡ is_backdrop_at looks.now slot }
{
    match &looks[slot as usize] {
        None => false,
        Some(look) => look.backdrop,
    }
}

/// The place of a slot, or the list's length where it doesn't stand there.
fn place_of(slot: u32, order: &[u32]) -> usize
    ensures value { result ≡ position_or_len (λ t. t == slot) order.now }
    ensures within { result ≤ length order.now }
{
    for (place, other) in order.iter().enumerate() {
        if *other == slot {
            return place;
        }
    }
    order.len()
}
