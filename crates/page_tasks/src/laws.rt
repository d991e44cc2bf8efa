//! What the calls do to the queued tasks is what the model's page does to its own.
ghost use Rattle.page_model.specs.State.{Page};
ghost use Rattle.page_tasks.specs.Queued.{Queued};
ghost use Rattle.page_tasks.specs.PageLaws.{QueuedIs, TakenIs, EnqueuedIs, LeftIs, BegunIs, RoomIs, SomePageIs};

/// The law that a page of the model which has the queued tasks has them after each change too.
///
/// It queues a task, takes one out by its number, enqueues a scheduler task, takes a registration's one out, and begins to change
/// a signal's priority as the calls of `PageTasks` tell; room that is made for a signal changes nothing of it; and for all queued
/// tasks there is such a page. It does nothing when it runs.
pub fn queued_tasks_are_those_of_a_page()
    ensures queued { (q : Queued) (p : Page) → QueuedIs q p }
    ensures taken { (q : Queued) (p : Page) → TakenIs q p }
    ensures enqueued { (q : Queued) (p : Page) → EnqueuedIs q p }
    ensures left { (q : Queued) (p : Page) → LeftIs q p }
    ensures begun { (q new : Queued) (p : Page) → BegunIs q new p }
    ensures room { (q new : Queued) (p : Page) → RoomIs q new p }
    ensures some { (q : Queued) (p : Page) → SomePageIs q p }
{}
