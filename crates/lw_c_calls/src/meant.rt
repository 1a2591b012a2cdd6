ghost use Rattle.std.specs.Prelude.{◌≡◌, false, IsOk, IfOk, None, if◌then◌else◌};
ghost use Rattle.lw_calls.specs.declared.call.Call.TheVariants.{At, DrawTo, Fill, ScrollRaster, RegRect, RegPair};
ghost use Rattle.lw_calls.specs.declared.call.Call.TheVariants.{Create, OpenWindow};
ghost use Rattle.lw_c_rectangles.specs.Bounds.{rectangle_of, is_ordered};
ghost use Rattle.lw_c_calls.specs.Meant.{meant, region_call, text_call, arranging_call, layer_call, drawing_call};
ghost use Rattle.lw_c_calls.specs.Meant.{make_of, place_of, hook_of, area_of, mapped, with_rect, with_place, copies_text};
ghost use Rattle.lw_c_calls.specs.Meant.{rect_operation, pair_operation, layer_kind};

use crate::places::{is_coordinate, layer_kind, pair_operation, rect_operation, word_of};
use crate::words::{CallWords, MakeWords};
use lw_c_rectangles::{is_ordered, rect_of};
use lw_calls::{Area, Call, Kind, Make, Place, Text};
use std::alloc::{AllocError, Global};

/// The call that the numbers mean, with this text where it has one, or none. It fails only when out of memory, which no call
/// without a text takes.
pub fn call_of(alloc: Global, words: &CallWords, text: &[u8]) -> Result<Option<Call>, AllocError>
    ensures call { IfOk result (λ made. made ≡ meant words.now text.now) }
    ensures memory { copies_text (meant words.now text.now) ≡ false → IsOk result }
{
    match words.kind {
        0..=2 => Ok(region_call(words)),
        3..=5 => text_call(alloc, words, text),
        6..=16 => Ok(arranging_call(words)),
        17..=26 => Ok(layer_call(words)),
        _ => Ok(drawing_call(words)),
    }
}

fn region_call(words: &CallWords) -> Option<Call>
    ensures { result ≡ region_call words.now }
{
    match words.kind {
        0 => rect_call(words),
        1 => pair_call(words),
        2 => Some(Call::RegClear { reg: words.slot }),
        _ => None,
    }
}

fn rect_call(words: &CallWords) -> Option<Call>
    ensures { result ≡ (if is_ordered words.now.rect
        then mapped (rect_operation words.now.operation)
        (λ op. RegRect op words.now.slot (rectangle_of words.now.rect)) else None) }
{
    if !is_ordered(&words.rect) {
        return None;
    }
    match rect_operation(words.operation) {
        Some(op) => Some(Call::RegRect {
            op,
            reg: words.slot,
            rect: rect_of(&words.rect),
        }),
        None => None,
    }
}

fn pair_call(words: &CallWords) -> Option<Call>
    ensures { result ≡ mapped (pair_operation words.now.operation)
        (λ op. RegPair op words.now.other words.now.slot) }
{
    match pair_operation(words.operation) {
        Some(op) => Some(Call::RegPair {
            op,
            source: words.other,
            into: words.slot,
        }),
        None => None,
    }
}

fn text_call(alloc: Global, words: &CallWords, text: &[u8]) -> Result<Option<Call>, AllocError>
    ensures call { IfOk result (λ made. made ≡ text_call words.now text.now) }
    ensures memory { copies_text (text_call words.now text.now) ≡ false → IsOk result }
{
    let slot = words.slot;
    match words.kind {
        3 => open_call(alloc, words, text),
        4 => Ok(Some(Call::Letters {
            slot,
            text: copied(alloc, text)?,
        })),
        5 => Ok(Some(Call::SetTitle {
            slot,
            title: copied(alloc, text)?,
        })),
        _ => Ok(None),
    }
}

fn copied(alloc: Global, text: &[u8]) -> Result<Text, AllocError>
    ensures { IfOk result (λ made. made ≡ text.now) }
{
    Ok(Text::new(Vec::from_slice(alloc, text)?))
}

// It takes no memory where there is no such kind of layer.
fn open_call(alloc: Global, words: &CallWords, text: &[u8]) -> Result<Option<Call>, AllocError>
    ensures call { IfOk result (λ made. made ≡ mapped (layer_kind words.now.make.kind)
        (λ kind. OpenWindow words.now.slot (make_of words.now.make kind) words.now.flag
        words.now.is_nocare words.now.number text.now)) }
    ensures memory { layer_kind words.now.make.kind ≡ None → IsOk result }
{
    match layer_kind(words.make.kind) {
        Some(kind) => Ok(Some(Call::OpenWindow {
            slot: words.slot,
            make: make_of(&words.make, kind),
            framed: words.flag,
            nocare: words.is_nocare,
            asks: words.number,
            title: copied(alloc, text)?,
        })),
        None => Ok(None),
    }
}

fn create_call(words: &CallWords) -> Option<Call>
    ensures { result ≡ mapped (layer_kind words.now.make.kind)
        (λ kind. Create words.now.slot (make_of words.now.make kind)) }
{
    match layer_kind(words.make.kind) {
        Some(kind) => Some(Call::Create {
            slot: words.slot,
            make: make_of(&words.make, kind),
        }),
        None => None,
    }
}

fn make_of(make: &MakeWords, kind: Kind) -> Make
    ensures { result ≡ make_of make.now kind }
{
    Make {
        kind,
        place: if make.is_behind {
            Place::Behind
        } else {
            Place::Front
        },
        x: make.x,
        y: make.y,
        w: make.w,
        h: make.h,
        backdrop: make.is_backdrop,
        hook: if make.has_hook { Some(make.hook) } else { None },
        bits_w: make.bits_w,
        bits_h: make.bits_h,
    }
}

fn area_of(words: &CallWords) -> Area
    ensures { result ≡ area_of words.now }
{
    Area {
        sx: words.source_x,
        sy: words.source_y,
        x: words.x,
        y: words.y,
        w: words.w,
        h: words.h,
        minterm: words.number,
    }
}

fn arranging_call(words: &CallWords) -> Option<Call>
    ensures { result ≡ arranging_call words.now }
{
    let CallWords {
        slot,
        other,
        x,
        y,
        w,
        h,
        ..
    } = *words;
    match words.kind {
        6 => create_call(words),
        7 => Some(Call::Close { slot }),
        8 => Some(Call::ToFront { slot }),
        9 => Some(Call::ToBack { slot }),
        10 => Some(Call::InFrontOf { slot, other }),
        11 => Some(Call::MoveBy { slot, dx: x, dy: y }),
        12 => Some(Call::SizeBy { slot, dw: w, dh: h }),
        13 => Some(Call::SetBox { slot, x, y, w, h }),
        14 => Some(Call::Activate { slot }),
        15 => Some(Call::SetHook { slot, hook: other }),
        16 => Some(Call::Which { x, y }),
        _ => None,
    }
}

fn layer_call(words: &CallWords) -> Option<Call>
    ensures { result ≡ layer_call words.now }
{
    let CallWords {
        slot,
        number,
        x,
        y,
        ..
    } = *words;
    match words.kind {
        17 => Some(Call::SetA { slot, pen: number }),
        18 => Some(Call::SetB { slot, pen: number }),
        19 => Some(Call::SetMode { slot, mode: number }),
        20 => Some(Call::SetMask { slot, mask: number }),
        21 => Some(Call::Clip {
            slot,
            reg: words.other,
        }),
        22 => Some(Call::Unclip { slot }),
        23 => Some(Call::BeginRefresh { slot }),
        24 => Some(Call::EndRefresh {
            slot,
            full: words.flag,
        }),
        25 => Some(Call::Scroll { slot, dx: x, dy: y }),
        26 => Some(Call::TakeMessage { slot }),
        _ => None,
    }
}

fn drawing_call(words: &CallWords) -> Option<Call>
    ensures { result ≡ drawing_call words.now }
{
    let CallWords {
        slot,
        other,
        x,
        y,
        ..
    } = *words;
    match words.kind {
        27 => at_call(words),
        28 => line_call(words),
        29 => Some(Call::WritePixel { slot, x, y }),
        30 => Some(Call::ReadPixel { slot, x, y }),
        31 => fill_call(words),
        32 => Some(Call::SetRast {
            slot,
            pen: words.number,
        }),
        33 => scroll_call(words),
        34 => Some(Call::Put {
            bitmap: other,
            slot,
            area: area_of(words),
        }),
        35 => Some(Call::Blit {
            source: other,
            slot,
            area: area_of(words),
        }),
        _ => None,
    }
}

fn at_call(words: &CallWords) -> Option<Call>
    ensures { result ≡ with_place words.now (λ x y. At words.now.slot x y) }
{
    if !(is_coordinate(words.x) && is_coordinate(words.y)) {
        return None;
    }
    Some(Call::At {
        slot: words.slot,
        x: word_of(words.x),
        y: word_of(words.y),
    })
}

fn line_call(words: &CallWords) -> Option<Call>
    ensures { result ≡ with_place words.now (λ x y. DrawTo words.now.slot x y) }
{
    if !(is_coordinate(words.x) && is_coordinate(words.y)) {
        return None;
    }
    Some(Call::DrawTo {
        slot: words.slot,
        x: word_of(words.x),
        y: word_of(words.y),
    })
}

fn fill_call(words: &CallWords) -> Option<Call>
    ensures { result ≡ with_rect words.now (λ r. Fill words.now.slot r) }
{
    if !is_ordered(&words.rect) {
        return None;
    }
    Some(Call::Fill {
        slot: words.slot,
        rect: rect_of(&words.rect),
    })
}

fn scroll_call(words: &CallWords) -> Option<Call>
    ensures { result ≡ with_rect words.now
        (λ r. ScrollRaster words.now.slot words.now.x words.now.y r) }
{
    if !is_ordered(&words.rect) {
        return None;
    }
    Some(Call::ScrollRaster {
        slot: words.slot,
        dx: words.x,
        dy: words.y,
        rect: rect_of(&words.rect),
    })
}
