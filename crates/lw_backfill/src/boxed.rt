ghost use Rattle.std.specs.Prelude.{◌≡◌};
ghost use Rattle.lw_machine.specs.Hook.{hook_pen, turned as turned_hook};

use crate::{Backfill, Checker, Cycle, Solid};

// A box is a hook where a type parameter asks for one.
impl Backfill for Box<dyn Backfill + Send> {
    ghost hook = { λ b. (Backfill-box b).hook b.value };

    fn pen_at(&self, x: i32, y: i32) -> u8 {
        (**self).pen_at(x, y)
    }

    fn turned(&mut self) {
        (**self).turned()
    }
}

// A caller of a box may rest on the trait's clauses.
fn turned_pen(held: &mut Box<dyn Backfill + Send>, x: i32, y: i32) -> u8
    ensures turned { hook held.new ≡ turned_hook (hook held.old) }
    ensures pen { result ≡ hook_pen (hook held.new) x y }
{
    held.turned();
    held.pen_at(x, y)
}

// Hooks may go to another thread, alone and in a box: the bounds ask for the proofs.
fn cross_threads(held: &Box<dyn Backfill + Send>) {
    crosses::<Solid>();
    crosses::<Checker>();
    crosses::<Cycle>();
    is_send(held);
}

fn crosses<T: Send>() {}

fn is_send<T: Send>(_held: &T) {}
