// What a seat knows, and the steps on the word. Proofs alone see it: no value of these types is made.
use atomic_table::{Join, Play, Split, TableRule};
use lw_calls::{Entry, Role, Sizes};
use std::collections::LinkedList;
use std::marker::{Brand, PhantomData};

// A former history of a seat, and the roles that it had then.
pub(crate) struct Old {
    pub history: LinkedList<Entry>,
    pub roles: LinkedList<Role>,
}

// The history that a seat knows, its roles, and the former histories that it has yet to learn of.
pub(crate) struct View {
    pub history: LinkedList<Entry>,
    pub roles: LinkedList<Role>,
    pub olds: LinkedList<Old>,
}

// What the word and the views of all seats keep.
pub(crate) struct Law;

impl TableRule<(), View, Sizes> for Law {
    ghost use Rattle.lw_order.specs.Rule.{KeepsOrder};
    ghost use Rattle.lw_order.specs.Plays.{first_view};

    ghost holds = { λ sizes s. KeepsOrder sizes s.words s.views };

    ghost first = { first_view };
}

// Which role is split off.
pub(crate) trait Parting {
    ghost use Rattle.lw_calls.specs.declared.touch.Role.{Role as TheRole};

    ghost off: { TheRole };
}

impl Parting for Brand {
    ghost use Rattle.lw_calls.specs.declared.touch.Role.TheVariants.{Info};

    ghost off = { Info };
}

// One role goes to a new view, which knows the same history.
pub(crate) struct Off<N: Parting>(PhantomData<N>);

impl<N: Parting> Split<View> for Off<N> {
    ghost use Rattle.std.specs.Prelude.{[], ◌∷◌};
    ghost use Rattle.lw_order.specs.Roles.{without};
    ghost use Rattle.lw_order.specs.Plays.{view_of};

    ghost left = { λ v. view_of v.history (without N.off v.roles) };

    ghost right = { λ v. view_of v.history (N.off ∷ []) };
}

// The roles of both, and the longer history. Both former ones are kept, to be learned of.
pub(crate) struct Both;

impl Join<View> for Both {
    ghost use Rattle.std.specs.Prelude.{[], ◌∷◌, ◌++◌, length, nat_lt, if◌then◌else◌};
    ghost use Rattle.lw_order.specs.Promised.{longer};
    ghost use Rattle.lw_order.specs.Plays.{old_of, spent_view};

    ghost both = { λ v w. record { history = longer v.history w.history; roles = v.roles ++ w.roles; olds = old_of v ∷ old_of w ∷ [] } };

    ghost spent = { spent_view };
}

// For which sizes the order word is, which a step can't read.
pub(crate) trait Learning {
    ghost use Rattle.lw_calls.specs.declared.sizes.Sizes.{Sizes as TheSizes};

    ghost sizes: { TheSizes };
}

impl Learning for Brand {
    ghost use Rattle.lw_order.specs.Plays.{no_sizes};

    ghost sizes = { no_sizes };
}

// The load after a join.
pub(crate) struct Learn<N: Learning>(PhantomData<N>);

impl<N: Learning> Play<(), View> for Learn<N> {
    ghost use Rattle.std.specs.Prelude.{◌≡◌};
    ghost use Rattle.lw_order.specs.Plays.{Learned};

    ghost then = { λ step before found after. (after.1 ≡ before.1) × Learned N.sizes before.0 after.0 };
}

// Which call of which task is stamped, and for which sizes the order word is.
pub(crate) trait Stamping {
    ghost use Rattle.std.specs.Prelude.{ℕ};
    ghost use Rattle.lw_calls.specs.declared.sizes.Sizes.{Sizes as TheSizes};
    ghost use Rattle.lw_calls.specs.declared.call.Call.{Call as TheCall};

    ghost sizes: { TheSizes };

    ghost task: { ℕ };

    ghost call: { TheCall };
}

impl Stamping for Brand {
    ghost use Rattle.lw_order.specs.Plays.{no_call, no_sizes};

    ghost sizes = { no_sizes };

    ghost task = { 0 };

    ghost call = { no_call };
}

// The addition of one to the word.
pub(crate) struct Stamp<N: Stamping>(PhantomData<N>);

impl<N: Stamping> Play<(), View> for Stamp<N> {
    ghost use Rattle.std.specs.Prelude.{◌≡◌};
    ghost use Rattle.lw_order.specs.Plays.{Stamped};

    ghost then = { λ step before found after. (after.1 ≡ before.1) × Stamped N.sizes N.task N.call found before.0 after.0 };
}
