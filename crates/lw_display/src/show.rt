use lw_calls::Text;
use lw_screens::Act;
use lw_script::Input;

/// A scene of a show.
#[derive(Debug, Drop)]
pub struct Scene {
    /// The name of its screen.
    pub name: Text,
    /// The row of the display at which the screen opens.
    pub top: u32,
    /// What its script gives: a plan, and a legal order.
    pub input: Input,
}

/// What is shown: a display, the scenes whose screens open on it one after another, and what is then done to these screens.
#[derive(Debug, Drop)]
pub struct Show {
    /// How many columns the display has, from 1 to 2048.
    pub width: u32,
    /// How many rows it has, from 1 to 2048.
    pub height: u32,
    /// Its scenes, 1 to 8 of them, of different names.
    pub scenes: Vec<Scene>,
    /// The acts, 4,096 at most, on screens by the numbers of their scenes.
    pub acts: Vec<Act>,
}
