//! How the views of a page's parts are the fields of the model's page: what a page that owns the parts goes by. Laws alone, as
//! functions with empty bodies.
#![tactic(auto)]

ghost use Rattle.std.specs.Prelude.{◌≡◌, ℕ, List};
ghost use Rattle.page_parts.specs.HostClosures.{HostClosure};
ghost use Rattle.raf_frames.specs.FrameInProgress.{FrameInProgress};
ghost use Rattle.task_queues.specs.OneList.{SourcedTask, BySource};
ghost use Rattle.page_model.specs.State.{Steps, Page, State};
ghost use Rattle.page_model.specs.Invoke.{Ways};
ghost use Rattle.page_model.specs.Tasks.{run_frame};
ghost use Rattle.page_fields.specs.Fields.{from_keys, GoesByNext, FirstIs, FirstNumbersAre, QueuedIs, TakenIs, AskedIs, FiredIs, DroppedIs};

/// A frame of the model is what taking the callbacks of `raf_frames` one after another does: it begins with the keys of the map,
/// and from every state that has the map in progress, what is left goes by the next callback.
pub fn frames_go_by_their_next_callback()
    ensures begins { (w : Ways) (t : ℕ) (m : State) → run_frame w t m ≡ from_keys w t m }
    ensures next { (w : Ways) (t : ℕ) (f : FrameInProgress) (m : State) → GoesByNext w t f m }
{}

/// The tasks of the model are those of `task_queues`, with the steps that their items stand for: the first of each source with the
/// number that is seen of it, and queueing and taking.
pub fn tasks_are_those_of_the_queues<T>()
    ensures first { (steps : T → Steps) (tasks : List (SourcedTask T)) → FirstIs steps tasks }
    ensures first_number { (steps : T → Steps) (lists : BySource T) → FirstNumbersAre steps lists }
    ensures queued { (steps : T → Steps) (tasks : List (SourcedTask T)) (p : Page) → QueuedIs steps tasks p }
    ensures taken { (steps : T → Steps) (tasks : List (SourcedTask T)) (p : Page) → TakenIs steps tasks p }
{}

/// The closures of the model change as those that `host_jobs` lays the mark Queued over.
pub fn closures_change_as_those_laid_over()
    ensures asked { (hosts : List HostClosure) → AskedIs hosts }
    ensures fired { (p : Page) → FiredIs p }
    ensures dropped { (hosts : List HostClosure) → DroppedIs hosts }
{}
