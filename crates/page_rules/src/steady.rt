//! What stays of a page, whatever a script asks of it, and how far its time goes on.

ghost use Rattle.std.specs.Prelude.{◌≡◌, ℕ, false, List};
ghost use Rattle.page_types.specs.Values.{Value};
ghost use Rattle.page_types.specs.Events.{Event};
ghost use Rattle.page_types.specs.Tree.{Program};
ghost use Rattle.page_types.specs.declared.Priority.{Priority};
ghost use Rattle.page_parts.specs.Notices.{WaitingJob};
ghost use Rattle.page_parts.specs.Promises.{Settled, Reaction};
ghost use Rattle.lang_meaning.specs.HostSteps.{Ask, CallbackEnd};
ghost use Rattle.page_model.specs.State.{Page, Registration};
ghost use Rattle.page_model.specs.PagePromises.{settle, follow, subscribe};
ghost use Rattle.page_model.specs.PageCombinators.{lead_into, pass_on};
ghost use Rattle.page_model.specs.SchedulerTasks.{without_sched};
ghost use Rattle.page_model.specs.Invoke.{WhenReported, call_begun, call_ended, thrown, report_before, report_after};
ghost use Rattle.page_model.specs.Invoke.{job_begun, resolve_derived, checkpoint_begun, checkpoint_ended};
ghost use Rattle.page_model.specs.PageTime.{idle_step};
ghost use Rattle.page_model.specs.Parallel.{parallel};
ghost use Rattle.page_model.specs.Turns.{without_task};
ghost use Rattle.page_model.specs.Folds.{Fold, go_on, callback_ended, begin_abort, begin_change};
ghost use Rattle.page_model.specs.PageHost.{Hosting};
ghost use Rattle.page_rules.specs.Lined.{Lined};
ghost use Rattle.page_rules.specs.Steady.{StaysInScript, TakesAtMost, IsNotBefore, Steady, SteadyInScript};
ghost use Rattle.page_rules.specs.Steady.{asks_busy, asked_page, asked_lined, reached_page};
ghost use Rattle.page_rules.specs.Steady.{IsSteady, IsSteadyUnlessBusy, HoldsOverCalls, HoldsOverLined};

use trace_text::Lines;

/// Whatever a script asks of its page, the script's names stay, and all else that stays within a script. The page's time goes on by
/// 1,000,000,000 microseconds at most.
pub fn asks_leave_what_stays()
    ensures stays { (ask : Ask) (h : Hosting) → StaysInScript h.page (asked_page ask h) }
    ensures time { (ask : Ask) (h : Hosting) → TakesAtMost 1000000000 h.page (asked_page ask h) }
{}

/// No ask but `busy` takes any time.
pub fn asks_but_busy_take_no_time()
    ensures { (ask : Ask) (h : Hosting) → asks_busy ask ≡ false → SteadyInScript h.page (asked_page ask h) }
{}

/// So a whole call of a script's function leaves what stays within a script, and ends at the time at which it began or later.
pub fn calls_leave_what_stays()
    ensures stays { (program : Program) (f : ℕ) → HoldsOverCalls StaysInScript program f }
    ensures time { (program : Program) (f : ℕ) → HoldsOverCalls IsNotBefore program f }
{}

/// The same of what is asked of a page that hands its lines on, and of calls around it.
pub fn lined_pages_leave_what_stays<L: Lines>()
    ensures stays { (ask : Ask) (l : Lined L.Told) → StaysInScript l.hosting.page (asked_lined L.keeping ask l) }
    ensures time { (ask : Ask) (l : Lined L.Told) → TakesAtMost 1000000000 l.hosting.page (asked_lined L.keeping ask l) }
    ensures steady { (ask : Ask) (l : Lined L.Told) → IsSteadyUnlessBusy L.keeping ask l }
    ensures called { (program : Program) (f : ℕ) → HoldsOverLined StaysInScript L.keeping program f }
    ensures later { (program : Program) (f : ℕ) → HoldsOverLined IsNotBefore L.keeping program f }
{}

/// An open fold takes no time: as it begins, at the end of a callback, and as it goes on.
pub fn folds_take_no_time()
    ensures aborted { (s : ℕ) (reason : Value) (p : Page) → SteadyInScript p (reached_page (begin_abort s reason p)) }
    ensures changed { (priority : Priority) (chain s : ℕ) → IsSteady (λ p. reached_page (begin_change priority chain s p)) }
    ensures callback { (when : WhenReported) (end : CallbackEnd) (p : Page) → SteadyInScript p (callback_ended when end p) }
    ensures further { (fold : Fold) (p : Page) → SteadyInScript p (reached_page (go_on fold p)) }
{}

/// Calls on promises take no time.
pub fn promises_take_no_time()
    ensures settled { (n : ℕ) (how : Settled) (p : Page) → SteadyInScript p (settle n how p) }
    ensures followed { (n : ℕ) (how : Settled) (p : Page) → SteadyInScript p (follow n how p) }
    ensures subscribed { (n : ℕ) (r : Reaction) (p : Page) → SteadyInScript p (subscribe n r p) }
    ensures led { (into : ℕ) (how : Settled) (p : Page) → SteadyInScript p (lead_into into how p) }
    ensures passed { (into : ℕ) (how : Settled) (v : Value) (p : Page) → SteadyInScript p (pass_on into how v p) }
    ensures derived { (x : Registration) (into : ℕ) (how : Settled) (v : Value) → IsSteady (resolve_derived x into how v) }
{}

/// The lines of a callback's beginning and end take no time, and neither do reports.
pub fn lines_of_callbacks_take_no_time()
    ensures begun { (r : ℕ) (p : Page) → SteadyInScript p (call_begun r p) }
    ensures ended { (line : Event) (p : Page) → SteadyInScript p (call_ended line p) }
    ensures threw { (v : Value) (p : Page) → SteadyInScript p (thrown v p) }
    ensures before { (when : WhenReported) (v : Value) (p : Page) → SteadyInScript p (report_before when v p) }
    ensures after { (when : WhenReported) (v : Value) (p : Page) → SteadyInScript p (report_after when v p) }
{}

/// A task that leaves its queue takes no time.
pub fn taken_tasks_take_no_time()
    ensures task { (n : ℕ) (p : Page) → SteadyInScript p (without_task n p) }
    ensures scheduled { (r : ℕ) (p : Page) → SteadyInScript p (without_sched r p) }
{}

/// The beginning of a job takes no time and leaves what stays within a turn, and so do a checkpoint's beginning and end.
pub fn jobs_and_checkpoints_take_no_time()
    ensures job { (job : WaitingJob) (others : List WaitingJob) (p : Page) → Steady p (job_begun job others p) }
    ensures begun { (p : Page) → Steady p (checkpoint_begun p) }
    ensures ended { (before p : Page) → Steady p (checkpoint_ended before p) }
{}

/// So do the parallel items that are taken, and the idle step.
pub fn parallel_items_and_idle_steps_take_no_time()
    ensures items { (p : Page) → Steady p (parallel p) }
    ensures idle { (p : Page) → Steady p (idle_step p) }
{}
