ghost use Rattle.std.specs.Prelude.{ℕ, List};
ghost use Rattle.page_types.specs.declared.Priority.{Priority};
ghost use Rattle.cell_room.specs.declared.room.Cell.{Cell};
ghost use Rattle.post_task.specs.Waiting.{Waiting};
ghost use Rattle.post_task.specs.InOrder.{EnqueuedLast, TakenOut, RemovedByCell, MovedInPlace, FirstOfList};

/// The scheduler tasks that wait in all lists are one list in the order in which they were enqueued, whatever call changes them, and the
/// task that is taken is the first of that list.
pub fn queues_are_one_list<T>()
    ensures enqueued { (task : Waiting T) (old new : List (Waiting T)) → EnqueuedLast task old new }
    ensures taken { (task : Waiting T) (old new : List (Waiting T)) → TakenOut task old new }
    ensures removed { (cell : Cell) (tasks : List (Waiting T)) → RemovedByCell cell tasks }
    ensures moved { (s : ℕ) (priority : Priority) (tasks : List (Waiting T)) → MovedInPlace s priority tasks }
    ensures first { (task : Waiting T) (tasks : List (Waiting T)) → FirstOfList task tasks }
{}
