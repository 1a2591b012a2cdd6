ghost use Rattle.std.specs.Prelude.{◌≡◌, true, false, ◌&&◌, ◌||◌, [], ℤ, IfOk, OnOk, OnErr};
ghost use Rattle.lw_region.specs.Bands.{covers};
ghost use Rattle.lw_damage.specs.Damaged.{Damaged, IsDamageWith, may_lie, with_more, ended};

use lw_region::{Rect, Region, intersection, or_region};
use std::alloc::{AllocError, Global};
use std::marker::Model;

/// The damaged pixels of a layer, in layer coordinates, and whether an update is on. They lie in the layer's inner
/// rectangle; where there is none, no pixel is ever damaged.
#[derive(Debug, Drop)]
pub struct Damage {
    inner: Option<Rect>,
    region: Region,
    updating: bool,
}

impl Model for Damage {
    ghost use Rattle.std.specs.Prelude.{◌≡◌, true, ℤ};
    ghost use Rattle.lw_region.specs.Bands.{covers};
    ghost use Rattle.lw_damage.specs.Damaged.{Damaged, may_lie};

    ghost Value = { Damaged };

    ghost view = { λ d. record { inner = d.inner; rects = d.region; updating = d.updating } };

    ghost invariant = { λ d. (x y : ℤ) → covers d.region x y ≡ true → may_lie d.inner x y ≡ true };
}

impl Damage {
    /// No damage, and no update. It takes no memory yet.
    #[tactic(auto, unfolding(lw_region::specs::Bands::covers))]
    pub fn new(alloc: Global, inner: Option<Rect>) -> Damage
        ensures { result ≡ record { inner = inner; rects = []; updating = false } }
    {
        Damage {
            inner,
            region: Region::new(alloc),
            updating: false,
        }
    }

    /// The damage of those pixels of the region that lie in the inner rectangle, if there is one, with an update on or not.
    pub fn of_region(
        alloc: Global,
        inner: Option<Rect>,
        due: &Region,
        updating: bool,
    ) -> Result<Damage, AllocError>
        ensures { IfOk result (λ d. IsDamageWith inner due.now updating d) }
    {
        let mut damage = Damage::new(alloc, inner);
        damage.add(alloc, due)?;
        if updating {
            damage.begin();
        }
        Ok(damage)
    }

    /// Begins an update (BeginUpdate).
    pub fn begin(&mut self)
        ensures { self.new ≡ record self.old { updating = true } }
    {
        self.updating = true;
    }

    /// Ends the update (EndUpdate). A full end takes all damage away, a partial one leaves it.
    #[tactic(auto, unfolding(lw_region::specs::Bands::covers))]
    pub fn end(&mut self, full: bool)
        ensures { self.new ≡ ended self.old full }
    {
        self.updating = false;
        if full {
            self.region.clear();
        }
    }

    /// Whether an update is on.
    pub fn updating(&self) -> bool
        ensures { result ≡ self.now.updating }
    {
        self.updating
    }

    /// The damaged pixels.
    pub fn region(&self) -> &Region
        ensures value { result.now ≡ self.now.rects }
        ensures inside { (x y : ℤ) → covers self.now.rects x y ≡ true → may_lie self.now.inner x y ≡ true }
    {
        &self.region
    }

    /// The rectangle in which damage may lie, if there is one.
    pub fn inner(&self) -> Option<Rect>
        ensures { result ≡ self.now.inner }
    {
        self.inner
    }

    /// Adds the pixels of the region that lie in the inner rectangle. After an error the damage is as before.
    pub fn add(&mut self, alloc: Global, more: &Region) -> Result<(), AllocError>
        ensures pixels { OnOk result
            ((x y : ℤ) → covers self.new.rects x y
            ≡ (covers self.old.rects x y || (covers more.now x y && may_lie self.old.inner x y))) }
        ensures set { OnOk result
            (self.new ≡ record self.old { rects = with_more self.old.inner self.old.rects more.now }) }
        ensures err { OnErr result (self.new ≡ self.old) }
    {
        if let Some(inner) = &self.inner {
            let inside = intersection(alloc, more.rects(), inner.as_list())?;
            or_region(alloc, &inside, &mut self.region)?;
        }
        Ok(())
    }
}

// Damage may go to another thread, and threads may share it: the bounds ask for the proofs.
fn cross_threads() {
    crosses::<Damage>();
    is_shared::<Damage>();
}

fn crosses<T: Send>() {}

fn is_shared<T: Sync>() {}
