ghost use Rattle.std.specs.Prelude.{◌≡◌, ◌+◌, ◌<◌, [], ◌∷◌, ◌++◌, IsTrue, IfOk, All, Contains};
ghost use Rattle.lw_calls.specs.Touches.{touch_of};
ghost use Rattle.lw_calls.specs.Limits.{call_fits};
ghost use Rattle.lw_calls.specs.Entries.{count_of};
ghost use Rattle.lw_order.specs.Roles.{all_roles, without, HasEachOnce};
ghost use Rattle.lw_order.specs.Owned.{Owns};
ghost use Rattle.lw_order.specs.Numbered.{IsNumbered, TasksBelow, CallsFit};
ghost use Rattle.lw_order.specs.Promised.{Follows, Added, longer};
ghost use Rattle.lw_order.specs.Plays.{Learned};
ghost use Rattle.lw_order.specs.Rule.{IsRoleWithin};

use crate::seat::Seat;
use crate::view::{Both, Law, Learn, Learning, Off, Parting, Stamp, Stamping, View};
use atomic_table::Table;
use lw_calls::{Call, Role, Sizes};
use std::alloc::{AllocError, Global};
use std::marker::{Brand, Model};

// Which of the sixteen words holds the length: the eight before it and the seven behind keep its cache line free of all else that
// is written.
const WORD: usize = 8;

// The word that is loaded to learn what seats know of one another. What is learned holds whatever it is, so it is one that nobody
// writes, at least a cache line before the length: no other processor takes it away.
const STILL: usize = 0;

/// One atomic word, the length of the history. Contracts see which word it is, and for which sizes.
#[derive(Drop)]
pub struct Order {
    table: Table<(), View, Sizes, Law, Global>,
}

impl Model for Order {
    ghost use Rattle.std.specs.Prelude.{◌≡◌};
    ghost use Rattle.lw_order.specs.Seen.{SeenOrder};

    ghost Value = { SeenOrder };

    ghost view = { λ o. record { word = o.table.shared.table_id; sizes = o.table.shared.key } };

    ghost invariant = { λ o. (o.table.shared.table_id.words ≡ 16) × (o.table.shared.table_id.slots ≡ 0) };
}

impl Order {
    /// An order word with an empty history, and a seat with every role of these sizes.
    pub fn start(alloc: Global, sizes: &Sizes) -> Result<(Order, Seat), AllocError>
        ensures sizes { IfOk result (λ r. r.0.sizes ≡ sizes.now) }
        ensures word { IfOk result (λ r. r.1.word ≡ r.0.word) }
        ensures history { IfOk result (λ r. r.1.history ≡ []) }
        ensures roles { IfOk result (λ r. r.1.roles ≡ all_roles sizes.now.slots sizes.now.tasks) }
    {
        // A proof learns that the number is in its type's range where it is read.
        let _tasks = sizes.tasks;
        let (table, token) = Table::of_words(alloc, &[0; 16], sizes)?;
        Ok((Order { table }, Seat { token }))
    }

    /// A new seat that takes the role over from this one, and knows the same history.
    pub fn split(&self, seat: &mut Seat, off: Role) -> Seat
        requires word { seat.old.word ≡ self.now.word }
        requires role { Contains seat.old.roles off }
        ensures words { (seat.new.word ≡ seat.old.word) × (result.word ≡ seat.old.word) }
        ensures histories { (seat.new.history ≡ seat.old.history) × (result.history ≡ seat.old.history) }
        ensures given { result.roles ≡ off ∷ [] }
        ensures left { seat.new.roles ≡ without off seat.old.roles }
    {
        self.split_as::<Brand>(seat, off)
    }

    fn split_as<N: Parting>(&self, seat: &mut Seat, off: Role) -> Seat
        requires word { seat.old.word ≡ self.now.word }
        requires role { Contains seat.old.roles N.off }
        requires off { off ≡ N.off }
        ensures words { (seat.new.word ≡ seat.old.word) × (result.word ≡ seat.old.word) }
        ensures histories { (seat.new.history ≡ seat.old.history) × (result.history ≡ seat.old.history) }
        ensures given { result.roles ≡ N.off ∷ [] }
        ensures left { seat.new.roles ≡ without N.off seat.old.roles }
    {
        let token = self.table.shared.split_seat::<Off<N>>(&mut seat.token);
        Seat { token }
    }

    /// Gives a seat the roles and the history of another. It then has the longer history, and learns that this goes on
    /// from both former ones. No two seats have a role in common, so it has none twice.
    pub fn join(&self, seat: &mut Seat, other: Seat)
        requires word { seat.old.word ≡ self.now.word }
        requires other_word { other.word ≡ self.now.word }
        ensures word { seat.new.word ≡ seat.old.word }
        ensures roles { seat.new.roles ≡ seat.old.roles ++ other.roles }
        ensures once { HasEachOnce seat.new.roles }
        ensures fit { All (IsRoleWithin self.now.sizes) seat.new.roles }
        ensures longer { seat.new.history ≡ longer seat.old.history other.history }
        ensures follows { Follows seat.old.roles seat.old.history seat.new.history }
        ensures other_follows { Follows other.roles other.history seat.new.history }
        ensures numbered { IsNumbered seat.new.history }
        ensures tasks { TasksBelow self.now.sizes.tasks seat.new.history }
        ensures calls { CallsFit self.now.sizes seat.new.history }
    {
        let Seat { token } = other;
        self.table.shared.join_seat::<Both>(&mut seat.token, token);
        self.learn::<Brand>(&mut seat.token);
    }

    // What the histories of a join are to one another is learned at a load.
    fn learn<N: Learning>(&self, token: &mut atomic_table::Seat<(), View>)
        requires word { token.old.table_id ≡ self.now.word }
        requires slots { token.old.me.1 ≡ [] }
        requires sizes { self.now.sizes ≡ N.sizes }
        ensures word { token.new.table_id ≡ token.old.table_id }
        ensures slots { token.new.me.1 ≡ [] }
        ensures learned { Learned N.sizes token.old.me.0 token.new.me.0 }
    {
        self.table.shared.load::<Learn<N>>(token, STILL);
    }

    /// Stamps a call of a task, which is a number from 0 on: the call is then the last step of the history that the seat knows,
    /// and the ticket is its place there, from 0 on. The seat has to be one of this order word, with the roles of the task and of
    /// all that the call touches; the call has to fit the sizes; and the seat's history has fewer than 4,294,967,295 calls of the
    /// task. No memory is taken. Tickets and seats are this project's own.
    pub fn stamp(&self, seat: &mut Seat, task: u32, call: &Call) -> u64
        requires word { seat.old.word ≡ self.now.word }
        requires owns { Owns self.now.sizes.slots seat.old.roles (touch_of task call.now) }
        requires fits { IsTrue (call_fits self.now.sizes call.now) }
        requires room { count_of task seat.old.history < 4294967295 }
        ensures word { seat.new.word ≡ seat.old.word }
        ensures roles { seat.new.roles ≡ seat.old.roles }
        ensures added { Added seat.old.roles seat.old.history seat.new.history task call.now result }
        ensures counted { count_of task seat.new.history ≡ count_of task seat.old.history + 1 }
        ensures numbered { IsNumbered seat.new.history }
        ensures tasks { TasksBelow self.now.sizes.tasks seat.new.history }
        ensures calls { CallsFit self.now.sizes seat.new.history }
    {
        self.stamp_as::<Brand>(seat, task, call)
    }

    fn stamp_as<N: Stamping>(&self, seat: &mut Seat, task: u32, call: &Call) -> u64
        requires picked { (N.sizes ≡ self.now.sizes) × (N.task ≡ task) × (N.call ≡ call.now) }
        requires word { seat.old.word ≡ self.now.word }
        requires owns { Owns self.now.sizes.slots seat.old.roles (touch_of N.task N.call) }
        requires fits { IsTrue (call_fits self.now.sizes N.call) }
        requires room { count_of N.task seat.old.history < 4294967295 }
        ensures word { seat.new.word ≡ seat.old.word }
        ensures roles { seat.new.roles ≡ seat.old.roles }
        ensures added { Added seat.old.roles seat.old.history seat.new.history N.task N.call result }
        ensures numbered { IsNumbered seat.new.history }
        ensures tasks { TasksBelow N.sizes.tasks seat.new.history }
        ensures calls { CallsFit N.sizes seat.new.history }
    {
        self.table
            .shared
            .fetch_add::<Stamp<N>>(&mut seat.token, WORD, 1)
    }
}

// A seat may go to another thread, and so may an order word, which threads also share: the bounds ask for the proofs.
fn cross_threads() {
    crosses::<Seat>();
    crosses::<Order>();
    is_shared::<Order>();
}

fn crosses<T: Send>() {}

fn is_shared<T: Sync>() {}
