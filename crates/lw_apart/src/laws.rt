ghost use Rattle.lw_apart.specs.Apart.{ApartTasksShowNoOrder, DemosShowNoOrder};
ghost use Rattle.lw_apart.specs.InTurn.{TasksMayGoInTurn, DemosMayGoInTurn};
ghost use Rattle.lw_apart.specs.TaskSteps.{TasksKeepTheirOrder};

/// In a legal order of a plan the steps of each task are its calls, each once and in their order.
pub fn tasks_keep_their_order()
    ensures { TasksKeepTheirOrder }
{}

/// Where the tasks of a plan keep apart, its runs in any two legal orders leave the same screen, and give each task the same
/// replies.
pub fn apart_tasks_show_no_order()
    ensures { ApartTasksShowNoOrder }
{}

/// The same of the plan of a demo, whatever its number.
pub fn demos_show_no_order()
    ensures { DemosShowNoOrder }
{}

/// Where the tasks of a plan have no groups, the order is legal that has all calls of task 0 first, then those of task 1, and so
/// on.
pub fn tasks_may_go_in_turn()
    ensures { TasksMayGoInTurn }
{}

/// The same of the plan of a demo.
pub fn demos_may_go_in_turn()
    ensures { DemosMayGoInTurn }
{}
