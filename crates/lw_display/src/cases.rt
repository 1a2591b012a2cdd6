//! Worked cases of shows, as theorems over the definitions alone.
#![tactic(auto, unfolding(crate::proofs::Computing::reading))]

ghost use Rattle.std.specs.Prelude.{◌≡◌, ◌++◌, codes};
ghost use Rattle.lw_display.specs.ShowCases.{AreBadShows, not_here, not_known, not_formed, not_in_range, not_named};
ghost use Rattle.lw_display.specs.ShowCases.{bad_scripts, unfinished, bad_orders};

/// Lines stand in their parts: what is due, and lines of scripts in scenes alone.
pub fn lines_stand_in_their_parts()
    ensures { AreBadShows not_here }
{}

/// Lines begin with words that are known where they stand.
pub fn lines_begin_with_known_words()
    ensures { AreBadShows not_known }
{}

/// Lines have forms.
pub fn lines_have_forms()
    ensures { AreBadShows not_formed }
{}

/// Numbers are in their ranges.
pub fn numbers_are_in_range()
    ensures { AreBadShows not_in_range }
{}

/// Acts are on screens of scenes above, and scenes have different names and are few.
pub fn scenes_have_names()
    ensures { AreBadShows not_named }
{}

/// A script in a scene is refused at its own first bad line, and one that ends too early at the line that ends the scene.
pub fn scripts_are_read_in_scenes()
    ensures { AreBadShows bad_scripts }
{}

/// The input goes on until a scene is ended.
pub fn shows_have_an_end()
    ensures { AreBadShows unfinished }
{}

/// A scene's order is legal.
pub fn orders_are_legal()
    ensures { AreBadShows bad_orders }
{}
