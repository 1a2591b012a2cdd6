//! The text of a show.

ghost use Rattle.std.specs.Prelude.{◌≡◌, ◌<◌, length, map, IfOk, OnOk};
ghost use Rattle.std.specs.List.{All};
ghost use Rattle.lw_screens.specs.Display.{acted_on, after_all};
ghost use Rattle.lw_display.specs.ShowAnswers.{scene_meaning, show_meaning};
ghost use Rattle.lw_display.specs.ShowLaws.{IsShowable};
ghost use Rattle.lw_display.specs.ShowTexts.{display_opened, show_text};
ghost use Rattle.lw_display_run.specs.Ran.{HaveRun};

use crate::scenes::{Ran, run_all};
use lw_display::Show;
use lw_screens::{Act, Screens, write};
use std::alloc::{AllocError, Global};

/// The text of a show that may be shown: each scene's script is run in its order, without hooks, the screens open one in front of
/// another, and all acts are done on them. It takes no lock, and returns. The only error is running out of memory.
pub fn text_of_show(alloc: Global, show: &Show) -> Result<Vec<u8>, AllocError>
    requires { IsShowable (show_meaning show.now) }
    ensures { IfOk result (λ text. text.items ≡ show_text (show_meaning show.now)) }
{
    let ran = run_all(alloc, &show.scenes)?;
    let mut screens = opened(alloc, show, &ran)?;
    act_all(alloc, &mut screens, &show.acts)?;
    write(alloc, show.width, &ran.names, &screens, &ran.planes)
}

/// The display on which the screens of scenes that were run are open.
fn opened(alloc: Global, show: &Show, ran: &Ran) -> Result<Screens, AllocError>
    requires showable { IsShowable (show_meaning show.now) }
    requires ran { HaveRun (map scene_meaning show.now.scenes.items) ran.now }
    ensures { IfOk result (λ screens. screens ≡ display_opened (show_meaning show.now)) }
{
    Screens::new(alloc, show.height, &ran.tops, &ran.heights)
}

/// Does all of these acts, one after another.
fn act_all(alloc: Global, screens: &mut Screens, acts: &[Act]) -> Result<(), AllocError>
    requires { All (λ act. acted_on act < length screens.old.screens) acts.now }
    ensures { OnOk result (screens.new ≡ after_all acts.now screens.old) }
{
    for act in acts {
        screens.act(alloc, act)?;
    }
    Ok(())
}
