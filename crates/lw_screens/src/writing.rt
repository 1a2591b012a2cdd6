//! The text of a display.

ghost use Rattle.std.specs.Prelude.{◌≡◌, ◌≤◌, ◌++◌, length, IfOk, OnOk};
ghost use Rattle.std.specs.List.{flat_map};
ghost use Rattle.lw_screens.specs.Bands.{bands_of};
ghost use Rattle.lw_screens.specs.Composed.{HavePlanes};
ghost use Rattle.lw_screens.specs.Laid.{IsBandOf};
ghost use Rattle.lw_screens.specs.Text.{sizes_line, owner_words, band_line, display_text};

use crate::bands::Band;
use crate::screens::Screens;
use lw_calls::Text;
use lw_planes::Planes;
use lw_report::push_planes;
use lw_text_output::{end_line, name_of, push_line, push_spaced, push_word};
use std::alloc::{AllocError, Global};

/// The text of a display of 1 to 2048 columns and at most 2048 rows: the sizes and the number of bands, a line for each band,
/// what the display shows, and `done` (docs/FORMATS.md). There is a name for each screen, and planes of as many rows as the
/// screen, both by its number. The only error is running out of memory.
pub fn write(
    alloc: Global,
    width: u32,
    names: &[Text],
    screens: &Screens,
    planes: &[Planes],
) -> Result<Vec<u8>, AllocError>
    requires some { 1 ≤ width }
    requires most { width ≤ 2048 }
    requires rows { screens.now.height ≤ 2048 }
    requires names { length names.now ≡ length screens.now.screens }
    requires planes { HavePlanes screens.now planes.now }
    ensures { IfOk result (λ text. text.items ≡ display_text width names.now screens.now planes.now) }
{
    let mut out = Vec::new(alloc);
    push_sizes(alloc, &mut out, width, screens)?;
    push_bands(alloc, &mut out, names, screens)?;
    let made = screens.compose(alloc, width, planes)?;
    push_planes(alloc, &mut out, &made)?;
    push_line(&mut out, b"done")?;
    Ok(out)
}

/// Writes the line with the sizes of a display and the number of its bands.
fn push_sizes(
    alloc: Global,
    out: &mut Vec<u8>,
    width: u32,
    screens: &Screens,
) -> Result<(), AllocError>
    ensures { OnOk result (out.new.items ≡ out.old.items ++ sizes_line width screens.now) }
{
    out.extend_from_slice(b"display")?;
    push_spaced(alloc, out, width as usize)?;
    push_spaced(alloc, out, screens.height() as usize)?;
    push_spaced(alloc, out, screens.bands().len())?;
    end_line(out)
}

/// Writes a line for each band.
fn push_bands(
    alloc: Global,
    out: &mut Vec<u8>,
    names: &[Text],
    screens: &Screens,
) -> Result<(), AllocError>
    ensures { OnOk result (out.new.items ≡ out.old.items ++ flat_map (band_line names.now screens.now) (bands_of screens.now)) }
{
    let bands = screens.bands();
    for band in bands {
        push_band(alloc, out, names, screens, band)?;
    }
    Ok(())
}

/// Writes the line of a band.
fn push_band(
    alloc: Global,
    out: &mut Vec<u8>,
    names: &[Text],
    screens: &Screens,
    band: &Band,
) -> Result<(), AllocError>
    requires { IsBandOf screens.now band.now }
    ensures { OnOk result (out.new.items ≡ out.old.items ++ band_line names.now screens.now band.now) }
{
    out.extend_from_slice(b"rows")?;
    push_spaced(alloc, out, band.first as usize)?;
    push_spaced(alloc, out, band.last as usize)?;
    push_owner(alloc, out, names, screens, band)?;
    end_line(out)
}

/// Writes whose rows a band has: the screen's name, and which of its rows the first one is.
fn push_owner(
    alloc: Global,
    out: &mut Vec<u8>,
    names: &[Text],
    screens: &Screens,
    band: &Band,
) -> Result<(), AllocError>
    requires { IsBandOf screens.now band.now }
    ensures { OnOk result (out.new.items ≡ out.old.items ++ owner_words names.now screens.now band.now.first band.now.screen) }
{
    let Some(number) = band.screen else {
        return out.extend_from_slice(b" blank");
    };
    let screen = screens.screens()[number as usize];
    push_word(out, name_of(names, number as usize))?;
    push_spaced(alloc, out, (band.first - screen.top) as usize)
}
