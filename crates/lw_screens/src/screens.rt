ghost use Rattle.std.specs.Prelude.{◌≡◌, ◌<◌, ◌≤◌, length, IfOk, OnOk, OnErr};
ghost use Rattle.std.specs.List.{All};
ghost use Rattle.lw_screens.specs.Display.{IsDisplay, IsHigh, after, acted_on, placed, opened};
ghost use Rattle.lw_screens.specs.Bands.{bands_of};
ghost use Rattle.lw_screens.specs.declared.act.Act.TheVariants.{Drag, ToFront, ToBack};

use crate::act::Act;
use crate::bands::{Band, bands_of};
use crate::order::{last_first, with_first, with_last};
use crate::screen::Screen;
use std::alloc::{AllocError, Global};
use std::marker::Model;

/// A display of some rows and its 1 to 8 screens, one in front of another. It keeps the bands of its rows. Screens are numbered
/// from 0 in the order in which they were opened.
#[derive(Debug, Drop)]
pub struct Screens {
    height: u32,
    screens: Vec<Screen>,
    order: Vec<u32>,
    bands: Vec<Band>,
}

impl Model for Screens {
    ghost use Rattle.lw_screens.specs.Display.{Display, display};
    ghost use Rattle.lw_screens.specs.Bands.{IsKept};

    ghost Value = { Display };

    ghost view = { λ s. display s.height s.screens.items s.order.items };

    ghost invariant = { λ s. IsKept (display s.height s.screens.items s.order.items) s.bands.items };
}

impl Screens {
    /// The display of so many rows on which a screen was opened for each of the tops and heights, 1 to 8 of them, each screen in
    /// front of the earlier ones. Each top is a row of the display, and each height is from 1 to 2048. The only error is running
    /// out of memory.
    pub fn new(
        alloc: Global,
        height: u32,
        tops: &[u32],
        heights: &[u32],
    ) -> Result<Screens, AllocError>
        requires some { 1 ≤ length tops.now }
        requires few { length tops.now ≤ 8 }
        requires alike { length heights.now ≡ length tops.now }
        requires tops { All (λ top. top < height) tops.now }
        requires heights { All IsHigh heights.now }
        ensures { IfOk result (λ screens. screens ≡ opened height tops.now heights.now) }
    {
        let screens = placed(alloc, tops, heights)?;
        let order = last_first(alloc, tops.len() as u32)?;
        let bands = bands_of(alloc, height, &screens, &order)?;
        Ok(Screens {
            height,
            screens,
            order,
            bands,
        })
    }

    /// How many rows the display has.
    pub fn height(&self) -> u32
        ensures value { result ≡ self.now.height }
        ensures display { IsDisplay self.now }
    {
        self.height
    }

    /// Where each screen stands, by its number.
    pub fn screens(&self) -> &[Screen]
        ensures value { result.now ≡ self.now.screens }
        ensures display { IsDisplay self.now }
    {
        self.screens.as_slice()
    }

    /// The longest runs of rows with one owner, one after another from the top.
    pub fn bands(&self) -> &[Band]
        ensures { result.now ≡ bands_of self.now }
    {
        self.bands.as_slice()
    }

    /// Does this to a screen, which has to be there. The only error is running out of memory, and after it the display is as
    /// before.
    pub fn act(&mut self, alloc: Global, act: &Act) -> Result<(), AllocError>
        requires { acted_on act.now < length self.old.screens }
        ensures ok { OnOk result (self.new ≡ after act.now self.old) }
        ensures err { OnErr result (self.new ≡ self.old) }
    {
        match *act {
            Act::Drag { screen, dy } => self.drag(alloc, screen, dy),
            Act::ToFront { screen } => self.to_front(alloc, screen),
            Act::ToBack { screen } => self.to_back(alloc, screen),
        }
    }

    // Drags a screen.
    fn drag(&mut self, alloc: Global, number: u32, dy: i32) -> Result<(), AllocError>
        requires { number < length self.old.screens }
        ensures ok { OnOk result (self.new ≡ after (Drag number dy) self.old) }
        ensures err { OnErr result (self.new ≡ self.old) }
    {
        let mut screens = Vec::from_slice(alloc, &self.screens)?;
        let screen = self.screens[number as usize];
        screens[number as usize] = screen.dragged(self.height, dy);
        let bands = bands_of(alloc, self.height, &screens, &self.order)?;
        self.screens = screens;
        self.bands = bands;
        Ok(())
    }

    // Puts a screen before all others.
    fn to_front(&mut self, alloc: Global, number: u32) -> Result<(), AllocError>
        requires { number < length self.old.screens }
        ensures ok { OnOk result (self.new ≡ after (ToFront number) self.old) }
        ensures err { OnErr result (self.new ≡ self.old) }
    {
        let order = with_first(alloc, &self.order, number)?;
        self.reorder(alloc, order)
    }

    // Puts a screen behind all others.
    fn to_back(&mut self, alloc: Global, number: u32) -> Result<(), AllocError>
        requires { number < length self.old.screens }
        ensures ok { OnOk result (self.new ≡ after (ToBack number) self.old) }
        ensures err { OnErr result (self.new ≡ self.old) }
    {
        let order = with_last(alloc, &self.order, number)?;
        self.reorder(alloc, order)
    }

    // Gives the screens another order.
    fn reorder(&mut self, alloc: Global, order: Vec<u32>) -> Result<(), AllocError>
        requires { All (λ k. k < length self.old.screens) order.items }
        ensures ok { OnOk result (self.new ≡ record self.old { order = order.items }) }
        ensures err { OnErr result (self.new ≡ self.old) }
    {
        let bands = bands_of(alloc, self.height, &self.screens, &order)?;
        self.order = order;
        self.bands = bands;
        Ok(())
    }
}

// Screens with these tops and heights.
fn placed(alloc: Global, tops: &[u32], heights: &[u32]) -> Result<Vec<Screen>, AllocError>
    requires { length heights.now ≡ length tops.now }
    ensures { IfOk result (λ screens. screens.items ≡ placed tops.now heights.now) }
{
    let mut screens = Vec::with_capacity(alloc, tops.len())?;
    for number in 0..tops.len() {
        screens.push(Screen {
            top: tops[number],
            height: heights[number],
        })?;
    }
    Ok(screens)
}
