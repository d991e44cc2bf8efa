//! The lists of the sources, and the one list of all tasks in the order of their numbers.
ghost use Rattle.std.specs.Prelude.{List};
ghost use Rattle.task_pool.specs.Lists.{Lists};
ghost use Rattle.task_queues.specs.declared.queues.Queues.{Queues};
ghost use Rattle.task_queues.specs.OneList.{SourcedTask, BySource, ChangeIs, NoneIs, MergedIs, FirstIs, QueuedIs, TakenIs};

/// The law that the lists of all sources are one list of tasks in the order of their numbers.
///
/// That list is the lists merged by number. Its first task of a source is the first of that source's list; a task that is put
/// behind its source's list with a number above all others stands behind all tasks; and taking the first of a source takes the
/// task of that number out. Where no list has a task there is none. What `Queues::queue` and `Queues::take` tell of the lists
/// is such a step; that numbers rise is what a page gives. It does nothing when it runs.
pub fn lists_by_source_are_one_list<T>()
    ensures changes { (queues : Queues T) (old new : Lists T) → ChangeIs queues old new }
    ensures none { (lists : BySource T) → NoneIs lists }
    ensures merged { (lists : BySource T) (tasks : List (SourcedTask T)) → MergedIs lists tasks }
    ensures first { (lists : BySource T) (tasks : List (SourcedTask T)) → FirstIs lists tasks }
    ensures queued { (old new : BySource T) (tasks : List (SourcedTask T)) → QueuedIs old new tasks }
    ensures taken { (old new : BySource T) (tasks : List (SourcedTask T)) → TakenIs old new tasks }
{}
