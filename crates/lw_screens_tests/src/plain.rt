//! A display that asks row by row.

use lw_planes::Planes;
use lw_screens::{Act, Band, Screen};
use std::alloc::{AllocError, Global};

/// A display that keeps where its screens stand, and their numbers from the front to the back.
#[derive(Drop)]
pub struct Plain {
    height: u32,
    screens: Vec<Screen>,
    order: Vec<u32>,
}

impl Plain {
    /// The display on which these screens were opened, each in front of the earlier ones.
    pub fn new(
        alloc: Global,
        height: u32,
        tops: &[u32],
        heights: &[u32],
    ) -> Result<Plain, AllocError> {
        let mut screens = Vec::new(alloc);
        let mut order = Vec::new(alloc);
        let mut number = 0u32;
        for (top, height) in tops.iter().zip(heights) {
            order.insert(0, number)?;
            number = number.wrapping_add(1);
            screens.push(Screen {
                top: *top,
                height: *height,
            })?;
        }
        Ok(Plain {
            height,
            screens,
            order,
        })
    }

    /// Does this to a screen.
    pub fn act(&mut self, act: Act) -> Result<(), AllocError> {
        match act {
            Act::Drag { screen, dy } => {
                let last = self.height.saturating_sub(1);
                if let Some(dragged) = self.screens.get_mut(screen as usize) {
                    dragged.top = dragged.top.saturating_add_signed(dy).min(last);
                }
            }
            Act::ToFront { screen } => {
                self.order.retain(|number| *number != screen);
                self.order.insert(0, screen)?;
            }
            Act::ToBack { screen } => {
                self.order.retain(|number| *number != screen);
                self.order.push(screen)?;
            }
        }
        Ok(())
    }

    /// The number of the first screen that has this row.
    pub fn owner(&self, row: u32) -> Option<u32> {
        for number in &self.order {
            if let Some(screen) = self.screens.get(*number as usize) {
                if screen.top <= row
                    && u64::from(row) < u64::from(screen.top) + u64::from(screen.height)
                {
                    return Some(*number);
                }
            }
        }
        None
    }

    /// Whether these are the longest runs of rows with one owner, from the top.
    pub fn has_bands(&self, bands: &[Band]) -> bool {
        let mut next = 0u32;
        let mut before = None;
        for band in bands {
            if band.first != next || band.last < band.first || before == Some(band.screen) {
                return false;
            }
            for row in band.first..band.last.wrapping_add(1) {
                if self.owner(row) != band.screen {
                    return false;
                }
            }
            before = Some(band.screen);
            next = band.last.wrapping_add(1);
        }
        next == self.height
    }

    /// The pen at this place where the screens have these planes.
    pub fn pen(&self, planes: &[Planes], x: u32, y: u32) -> u8 {
        let Some(number) = self.owner(y) else {
            return 0;
        };
        let (Some(source), Some(screen)) = (
            planes.get(number as usize),
            self.screens.get(number as usize),
        ) else {
            return 0;
        };
        let row = y.wrapping_sub(screen.top);
        if x < source.width() && row < source.height() {
            source.pen(x, row)
        } else {
            0
        }
    }

    /// Whether these planes have the pens of the display.
    pub fn is_shown(&self, planes: &[Planes], made: &Planes) -> bool {
        for y in 0..made.height() {
            for x in 0..made.width() {
                if made.pen(x, y) != self.pen(planes, x, y) {
                    return false;
                }
            }
        }
        true
    }
}
