//! How the calls are what a page of the model does. Laws alone, as functions with empty bodies.
ghost use Rattle.std.specs.Prelude.{ℕ, Bool, ℤ, List, Option};
ghost use Rattle.page_parts.specs.Setup.{Arrival};
ghost use Rattle.page_parts.specs.HostClosures.{HostClosure};
ghost use Rattle.page_model.specs.State.{Completion, HostAnswer, Page};
ghost use Rattle.page_model.specs.Parallel.{Item};
ghost use Rattle.parallel_items.specs.InParallel.{Waiting, TimerOwner};
ghost use Rattle.parallel_items.specs.Laws.{WaitingIs, RunAfterIs, InitIs, ClearIs, ClearTimerIs, IdleTimeoutIs, AskIs, PendingIs, GiveUpIs, ArriveIs, TakeIs, ItemsAre, FirstIs, FrameIsFirst, DueIs, PendsIs};

/// On every page the model's step is the call's on the fields that go on in parallel, and then the line that tells it.
pub fn calls_are_steps_of_a_page()
    ensures fields { (w : Waiting) (p : Page) → WaitingIs w p }
    ensures after { (ms : ℕ) (completion : Completion) (p : Page) → RunAfterIs ms completion p }
    ensures init { (again : Option ℕ) (r : ℕ) (repeats : Bool) (ms : ℤ) (p : Page) → InitIs again r repeats ms p }
    ensures clear { (id : ℕ) (p : Page) → ClearIs id p }
    ensures clear_timer { (id : ℕ) (owners : List TimerOwner) (p : Page) → ClearTimerIs id owners p }
    ensures idle_timeout { (ms r : ℕ) (p : Page) → IdleTimeoutIs ms r p }
    ensures ask { (hosts : List HostClosure) (answer : HostAnswer) (p : Page) → AskIs hosts answer p }
    ensures pending { (r : ℕ) (p : Page) → PendingIs r p }
    ensures give_up { (r : ℕ) (p : Page) → GiveUpIs r p }
    ensures arrive { (a : Arrival) (p : Page) → ArriveIs a p }
{}

/// What a page takes is what is taken here, and then the page queues its task, or does its completion steps.
pub fn taking_is_a_step_of_a_page()
    ensures { (i : Item) (p : Page) → TakeIs i p }
{}

/// The items of a page are those that go on here, and behind them the next rendering opportunity: it is first exactly where it is
/// before the first of the others.
pub fn items_are_those_of_a_page()
    ensures items { (p : Page) → ItemsAre p }
    ensures first { (p : Page) → FirstIs p }
    ensures frame { (t : ℕ) (p : Page) → FrameIsFirst t p }
    ensures due { (p : Page) → DueIs p }
    ensures pends { (p : Page) → PendsIs p }
{}
