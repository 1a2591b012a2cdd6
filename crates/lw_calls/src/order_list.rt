use std::marker::Model;

/// An order of calls: the number of the task whose next call is made, one for each call. Contracts see the list.
#[derive(Debug, Drop)]
pub struct OrderList {
    tasks: Vec<u32>,
}

impl Model for OrderList {
    ghost use Rattle.std.specs.Prelude.{List, ℕ};

    ghost Value = { List ℕ };

    ghost view = { λ o. o.tasks.items };
}

impl OrderList {
    ghost use Rattle.std.specs.Prelude.{◌≡◌};

    /// The order in which the vector names the tasks, each by its number from 0 on. No memory is taken.
    pub fn new(tasks: Vec<u32>) -> OrderList
        ensures { result ≡ tasks.items }
    {
        OrderList { tasks }
    }

    /// The numbers of the tasks, in the order in which their calls are made.
    pub fn tasks(&self) -> &[u32]
        ensures { result.now ≡ self.now }
    {
        self.tasks.as_slice()
    }
}
