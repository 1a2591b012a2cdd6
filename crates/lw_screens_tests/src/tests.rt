ghost use Rattle.std.specs.Prelude.{◌≡◌, ◌≤◌, ◌<◌, length};
ghost use Rattle.lw_screens.specs.Display.{acted_on};

use crate::plain::Plain;
use lw_calls::Text;
use lw_planes::Planes;
use lw_screens::{Act, Screens, write};
use std::alloc::{AllocError, Global};
use std::test::Fail;

// The next word of a generator of numbers.
fn next(word: u32) -> u32 {
    word.wrapping_mul(1_664_525).wrapping_add(1_013_904_223)
}

// An act on one of so many screens that a word gives.
fn act_of(word: u32, count: u32) -> Act {
    let screen = (word >> 8) % count.max(1);
    match (word >> 4) % 4 {
        0 => Act::ToFront { screen },
        1 => Act::ToBack { screen },
        _ => Act::Drag {
            screen,
            dy: ((word >> 16) % 41) as i32 - 20,
        },
    }
}

// The number of the screen that an act is on.
fn acted_on(act: Act) -> u32
    ensures { result ≡ acted_on act }
{
    match act {
        Act::Drag { screen, .. } => screen,
        Act::ToFront { screen } => screen,
        Act::ToBack { screen } => screen,
    }
}

// Planes of at most 40 columns and rows whose bytes a word gives.
fn planes_of(
    alloc: Global,
    width: u32,
    height: u32,
    depth: u32,
    word: u32,
) -> Result<Planes, AllocError> {
    let width = width.clamp(1, 40);
    let height = height.clamp(1, 40);
    let depth = depth.clamp(1, 8);
    let length = depth as usize * height as usize * ((width as usize + 15) / 16 * 2);
    let mut bytes = vec![in alloc; 0u8; length]?;
    let mut word = word;
    for byte in bytes.iter_mut() {
        word = next(word);
        *byte = (word >> 24) as u8;
    }
    Ok(Planes::from_bytes(width, height, depth, bytes))
}

// Whether the display has the bands and the pens of the plain one, where the screens have these planes.
fn agrees(
    alloc: Global,
    screens: &Screens,
    plain: &Plain,
    planes: &[Planes],
) -> Result<bool, AllocError> {
    if screens.height() > 2048 || !screens.fits(planes) {
        return Ok(false);
    }
    let made = screens.compose(alloc, 20, planes)?;
    Ok(plain.has_bands(screens.bands()) && plain.is_shown(planes, &made))
}

// Whether the display is the plain one after each of so many acts that words give.
fn acts_agree(
    alloc: Global,
    screens: &mut Screens,
    plain: &mut Plain,
    planes: &[Planes],
    count: u32,
) -> Result<bool, AllocError> {
    let Ok(number) = u32::try_from(planes.len()) else {
        return Ok(false);
    };
    let mut word = count;
    for _ in 0..count {
        word = next(word);
        let act = act_of(word, number);
        if acted_on(act) as usize >= screens.screens().len() {
            return Ok(false);
        }
        screens.act(alloc, &act)?;
        plain.act(act)?;
        if !agrees(alloc, screens, plain, planes)? {
            return Ok(false);
        }
    }
    Ok(true)
}

// The planes of screens of these heights, of other widths and depths.
fn screen_planes(alloc: Global, heights: &[u32]) -> Result<Vec<Planes>, AllocError> {
    let mut planes = Vec::new(alloc);
    let mut word = 1u32;
    for height in heights {
        word = next(word);
        let width = 1 + (word >> 16) % 40;
        let depth = 1 + (word >> 8) % 8;
        planes.push(planes_of(alloc, width, *height, depth, word)?)?;
    }
    Ok(planes)
}

#[test]
fn eight_screens_are_their_rows(rt: HostRuntime) -> Result<(), Fail> {
    let alloc = rt.alloc();
    let tops = [0, 3, 29, 10, 10, 5, 20, 1];
    let heights = [30, 4, 9, 1, 12, 40, 3, 7];
    let planes = screen_planes(alloc, &heights)?;
    let mut screens = Screens::new(alloc, 30, &tops, &heights)?;
    let mut plain = Plain::new(alloc, 30, &tops, &heights)?;
    assert!(rt; agrees(alloc, &screens, &plain, &planes)?);
    assert!(rt; acts_agree(alloc, &mut screens, &mut plain, &planes, 500)?);
    Ok(())
}

#[test]
fn three_short_screens_are_their_rows(rt: HostRuntime) -> Result<(), Fail> {
    let alloc = rt.alloc();
    let tops = [12, 0, 7];
    let heights = [2, 1, 3];
    let planes = screen_planes(alloc, &heights)?;
    let mut screens = Screens::new(alloc, 13, &tops, &heights)?;
    let mut plain = Plain::new(alloc, 13, &tops, &heights)?;
    assert!(rt; agrees(alloc, &screens, &plain, &planes)?);
    assert!(rt; acts_agree(alloc, &mut screens, &mut plain, &planes, 300)?);
    Ok(())
}

#[test]
fn one_row_is_shown(rt: HostRuntime) -> Result<(), Fail> {
    let alloc = rt.alloc();
    let planes = screen_planes(alloc, &[40])?;
    let mut screens = Screens::new(alloc, 1, &[0], &[40])?;
    let mut plain = Plain::new(alloc, 1, &[0], &[40])?;
    assert!(rt; acts_agree(alloc, &mut screens, &mut plain, &planes, 20)?);
    Ok(())
}

// The name of these bytes.
fn name(alloc: Global, bytes: &[u8]) -> Result<Text, AllocError> {
    Ok(Text::new(Vec::from_slice(alloc, bytes)?))
}

// Whether the text of the display, where its screens have these planes, is this one.
fn is_written(
    alloc: Global,
    screens: &Screens,
    planes: &[Planes],
    due: &[u8],
) -> Result<bool, AllocError> {
    if screens.height() > 2048 || !screens.fits(planes) {
        return Ok(false);
    }
    let names = [name(alloc, b"a")?, name(alloc, b"b")?];
    if screens.screens().len() != names.len() {
        return Ok(false);
    }
    Ok(write(alloc, 16, &names, screens, planes)?.as_slice() == due)
}

#[test]
fn texts_are_written(rt: HostRuntime) -> Result<(), Fail> {
    let alloc = rt.alloc();
    let mut planes = Vec::new(alloc);
    let first = vec![in alloc; 0u8, 0, 0x60, 0, 0x60, 0, 0, 0]?;
    planes.push(Planes::from_bytes(16, 4, 1, first))?;
    let second = vec![in alloc; 0xff; 4]?;
    planes.push(Planes::from_bytes(16, 2, 1, second))?;
    let mut screens = Screens::new(alloc, 4, &[0, 2], &[4, 2])?;
    assert!(rt;
        is_written(
            alloc,
            &screens,
            &planes,
            b"display 16 4 2\nrows 0 1 a 0\nrows 2 3 b 0\nplanes 16 4 1\nplane 0\n0000\n6000\nffff\nffff\ndone\n"
        )?
    );
    let act = Act::Drag { screen: 1, dy: 1 };
    screens.act(alloc, &act)?;
    assert!(rt;
        is_written(
            alloc,
            &screens,
            &planes,
            b"display 16 4 2\nrows 0 2 a 0\nrows 3 3 b 0\nplanes 16 4 1\nplane 0\n0000\n6000\n6000\nffff\ndone\n"
        )?
    );
    Ok(())
}
