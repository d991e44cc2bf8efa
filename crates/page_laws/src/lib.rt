//! The laws of every run, on the model of a page: each holds of the lines of every program, setup, host list and rules of choice, wherever
//! the run stops: at its end, for fuel, or stuck at a choice.
#![tactic(auto)]

ghost use Rattle.std.specs.Prelude.{ℕ, List};
ghost use Rattle.page_types.specs.Events.{Stamped};
ghost use Rattle.page_types.specs.Tree.{Program};
ghost use Rattle.page_parts.specs.Setup.{Setup};
ghost use Rattle.page_laws.specs.CallLaws.{Once, Cancel, SettleOnce, JobsInOrder, NoNesting};
ghost use Rattle.page_laws.specs.SchedulerLaws.{ArmsAreDueAtEnd, ContinuationsAreOverAtEnd, EndParts, EndsTruly, FramesAreOverAtEnd};
ghost use Rattle.page_laws.specs.SchedulerLaws.{HostsHaveAnsweredAtEnd, IdlesAreOverAtEnd, IntervalsAreOverAtEnd};
ghost use Rattle.page_laws.specs.SchedulerLaws.{MicrosAreOverAtEnd, PostsAreOverAtEnd, PriorityOrder, TimeoutsAreOverAtEnd};
ghost use Rattle.page_laws.specs.TimerLaws.{DueInOrder, DueWhenArmed, FramesInOrder, IdleDeadlines, LevelsFollow, TimerParts};
ghost use Rattle.page_laws.specs.TimerLaws.{TimersClamped, TimersFireWhenDue, TimersInOrder};
ghost use Rattle.page_laws.specs.RunLaws.{ActsAreMoves, ActsEndTruly, ActsKeep, ActsKeepLimits, ActsTellOpenCalls};
ghost use Rattle.page_laws.specs.RunLaws.{RunsAreMoves, RunsEndTruly, RunsKeep, RunsKeepLimits, RunsTellOpenCalls};
ghost use Rattle.page_laws.specs.RunLaws.{ClosuresFireAsTold, ClosuresFollowRuns, LegalEventsMigrate, TurnsAreMoves};

use page_model::Choosing;

/// What happens in a run is a row of moves, after any number of turns and at its end; but where it is stuck for want of a host's answer,
/// the task that asks for it was taken last.
pub fn runs_are_moves<R: Choosing>()
    ensures after { (program : Program) (setup : Setup) → TurnsAreMoves R.rules program setup }
    ensures at_end { (program : Program) (setup : Setup) → RunsAreMoves R.rules program setup }
{}

/// No promise is settled twice, and a reaction's job is queued only when its promise is settled.
pub fn promises_settle_once<R: Choosing>()
    ensures { (program : Program) (setup : Setup) → RunsKeep R.rules program setup SettleOnce }
{}

/// Jobs are numbered and run in order, and none waits between turns.
pub fn jobs_go_in_order<R: Choosing>()
    ensures { (program : Program) (setup : Setup) → RunsKeep R.rules program setup JobsInOrder }
{}

/// No job is run inside a call.
pub fn jobs_run_in_no_call<R: Choosing>()
    ensures { (program : Program) (setup : Setup) → RunsKeep R.rules program setup NoNesting }
{}

/// Nothing is registered twice, and nothing but the script is called before it is registered; what runs once is called once at most,
/// hosts and timeout signals are never called, and no host closure answers twice.
pub fn callbacks_run_once<R: Choosing>()
    ensures { (program : Program) (setup : Setup) → RunsKeep R.rules program setup Once }
{}

/// After a cancel there is no call, no enqueuing, and for a host no due line; each answer of a host stands for a registration that was due
/// and not dropped.
pub fn cancels_are_kept<R: Choosing>()
    ensures { (program : Program) (setup : Setup) → RunsKeep R.rules program setup Cancel }
{}

/// A task of the scheduler is called directly behind a turn of the scheduler, where nothing else stands; it is the one of least order among
/// those of greatest effective priority. The orders rise.
pub fn scheduler_tasks_go_by_priority<R: Choosing>()
    ensures { (program : Program) (setup : Setup) → RunsKeep R.rules program setup PriorityOrder }
{}

/// A frame callback is called behind the frame line of its turn, before which it was requested; the calls of a turn go in the order of the
/// requests, and between turns none is left that was requested before a frame line.
pub fn frames_go_in_order<R: Choosing>()
    ensures { (program : Program) (setup : Setup) → RunsKeep R.rules program setup FramesInOrder }
{}

/// An idle callback is called in an idle period, before whose start it was requested, or after its timeout. The deadline that a period's
/// calls are given is after now, no later than 50 milliseconds behind the period's start, and no later than what any active registration is
/// armed for; these calls go in the order of the requests.
pub fn idle_deadlines_are_kept<R: Choosing>()
    ensures { (program : Program) (setup : Setup) → RunsKeep R.rules program setup IdleDeadlines }
{}

/// A timer is called no more often than it is due: a part of the law of timers.
pub fn timers_fire_when_due<R: Choosing>()
    ensures { (program : Program) (setup : Setup) → RunsKeep R.rules program setup TimersFireWhenDue }
{}

/// What is due was armed for that time or an earlier one, and was not due since: another part of the law of timers. It holds of timers,
/// delays of posted tasks, timeout signals, idle timeouts and the answers of hosts.
pub fn registrations_are_due_when_armed<R: Choosing>()
    ensures { (program : Program) (setup : Setup) → RunsKeep R.rules program setup DueWhenArmed }
{}

/// Of two timers, delays of posted tasks or timeout signals that are active at one line, the one that was armed first is due first, unless
/// it was armed for a later time: a third part of the law of timers.
pub fn registrations_are_due_in_order<R: Choosing>()
    ensures { (program : Program) (setup : Setup) → RunsKeep R.rules program setup DueInOrder }
{}

/// A timer is armed for a whole number of milliseconds, and for 4 at least from level 7 on; idle callbacks, posted tasks, signals and
/// hosts are armed with level 0: a fourth part of the law of timers.
pub fn timers_are_clamped<R: Choosing>()
    ensures { (program : Program) (setup : Setup) → RunsKeep R.rules program setup TimersClamped }
{}

/// A timer's level is one more than that of its parent, or 1: a fifth part of the law of timers. In the first form the parent is the
/// outermost open call, if that is of a timer, and of an interval that is armed again the interval itself; in the second form it is the
/// first call of the turn, if that is of a timer.
pub fn levels_follow<R: Choosing>()
    ensures { (program : Program) (setup : Setup) → RunsKeep R.rules program setup (LevelsFollow setup.form) }
{}

/// The law of timers, whole: what is due was armed for that time or an earlier one, and was not due since; of two that are active at one
/// line, the one that was armed first is due first, unless it was armed for a later time; a timer is called no more often than it is due;
/// and timers are armed with the levels and delays that are due.
pub fn timers_go_in_order<R: Choosing>()
    ensures in_runs { (program : Program) (setup : Setup) → RunsKeep R.rules program setup (TimersInOrder setup.form) }
    ensures in_pieces { (program : Program) (setup : Setup) → ActsKeep R.rules program setup (TimersInOrder setup.form) }
{}

/// Where a run ends for nothing is left to do, whatever was armed was due each time, but for a host that was dropped, and each frame
/// callback and each idle callback was called or dropped: parts of the law of how runs end.
pub fn runs_end_with_nothing_armed<R: Choosing>()
    ensures arms { (program : Program) (setup : Setup) → RunsKeep R.rules program setup ArmsAreDueAtEnd }
    ensures frames { (program : Program) (setup : Setup) → RunsKeep R.rules program setup FramesAreOverAtEnd }
    ensures idles { (program : Program) (setup : Setup) → RunsKeep R.rules program setup IdlesAreOverAtEnd }
{}

/// Where a run ends for nothing is left to do, each job that was queued was run, and each microtask callback was called: another part of
/// the law of how runs end.
pub fn runs_end_with_no_microtask<R: Choosing>()
    ensures { (program : Program) (setup : Setup) → RunsKeep R.rules program setup MicrosAreOverAtEnd }
{}

/// Each continuation of a yield was called or dropped then: another part of the law of how runs end.
pub fn runs_end_with_no_continuation<R: Choosing>()
    ensures { (program : Program) (setup : Setup) → RunsKeep R.rules program setup ContinuationsAreOverAtEnd }
{}

/// Each timeout was called or dropped then: another part of the law of how runs end.
pub fn runs_end_with_no_timeout<R: Choosing>()
    ensures { (program : Program) (setup : Setup) → RunsKeep R.rules program setup TimeoutsAreOverAtEnd }
{}

/// Each posted task was called or dropped then: another part of the law of how runs end.
pub fn runs_end_with_no_posted_task<R: Choosing>()
    ensures { (program : Program) (setup : Setup) → RunsKeep R.rules program setup PostsAreOverAtEnd }
{}

/// Each interval was dropped then: another part of the law of how runs end.
pub fn runs_end_with_no_interval<R: Choosing>()
    ensures { (program : Program) (setup : Setup) → RunsKeep R.rules program setup IntervalsAreOverAtEnd }
{}

/// Each host that was not dropped has answered then: another part of the law of how runs end.
pub fn runs_end_with_each_host_answered<R: Choosing>()
    ensures { (program : Program) (setup : Setup) → RunsKeep R.rules program setup HostsHaveAnsweredAtEnd }
{}

/// Turns and jobs together are no more than the fuel, no turn begins at `until` or later, and a run that ends by the clock ends then:
/// another part of the law of how runs end. It holds whatever values arrive.
pub fn runs_keep_their_limits<R: Choosing>()
    ensures in_runs { (program : Program) (setup : Setup) → RunsKeepLimits R.rules program setup }
    ensures in_pieces { (program : Program) (setup : Setup) → ActsKeepLimits R.rules program setup }
{}

/// How a run ends, whole: where it ends for nothing is left to do nothing is left over, where it ends by the clock the time is up, no turn
/// begins then, and turns and jobs together are no more than the fuel.
pub fn runs_end_truly<R: Choosing>()
    ensures in_runs { (program : Program) (setup : Setup) → RunsEndTruly R.rules program setup }
    ensures in_pieces { (program : Program) (setup : Setup) → ActsEndTruly R.rules program setup }
{}

/// The law of timers and the law of how runs end are their parts together, whatever the lines.
pub fn laws_are_their_parts()
    ensures timers { (form : ℕ) (es : List Stamped) → TimerParts form es → TimersInOrder form es }
    ensures ends { (until fuel : ℕ) (es : List Stamped) → EndParts until fuel es → EndsTruly until fuel es }
{}

/// The open calls that a page keeps are those that its lines tell, the innermost first, wherever a run stops.
pub fn open_calls_are_told<R: Choosing>()
    ensures in_runs { (program : Program) (setup : Setup) → RunsTellOpenCalls R.rules program setup }
    ensures in_pieces { (program : Program) (setup : Setup) → ActsTellOpenCalls R.rules program setup }
{}

/// The same of a run in pieces, in which another loop says when time passes, when a task is served and when the page rests.
pub fn acts_keep_the_laws<R: Choosing>()
    ensures moves { (program : Program) (setup : Setup) → ActsAreMoves R.rules program setup }
    ensures settling { (program : Program) (setup : Setup) → ActsKeep R.rules program setup SettleOnce }
    ensures jobs { (program : Program) (setup : Setup) → ActsKeep R.rules program setup JobsInOrder }
    ensures nesting { (program : Program) (setup : Setup) → ActsKeep R.rules program setup NoNesting }
    ensures once { (program : Program) (setup : Setup) → ActsKeep R.rules program setup Once }
    ensures priorities { (program : Program) (setup : Setup) → ActsKeep R.rules program setup PriorityOrder }
    ensures cancels { (program : Program) (setup : Setup) → ActsKeep R.rules program setup Cancel }
    ensures frames { (program : Program) (setup : Setup) → ActsKeep R.rules program setup FramesInOrder }
    ensures deadlines { (program : Program) (setup : Setup) → ActsKeep R.rules program setup IdleDeadlines }
    ensures firing { (program : Program) (setup : Setup) → ActsKeep R.rules program setup TimersFireWhenDue }
    ensures due_times { (program : Program) (setup : Setup) → ActsKeep R.rules program setup DueWhenArmed }
    ensures due_order { (program : Program) (setup : Setup) → ActsKeep R.rules program setup DueInOrder }
    ensures clamps { (program : Program) (setup : Setup) → ActsKeep R.rules program setup TimersClamped }
    ensures levels { (program : Program) (setup : Setup) → ActsKeep R.rules program setup (LevelsFollow setup.form) }
    ensures arms_at_end { (program : Program) (setup : Setup) → ActsKeep R.rules program setup ArmsAreDueAtEnd }
    ensures frames_at_end { (program : Program) (setup : Setup) → ActsKeep R.rules program setup FramesAreOverAtEnd }
    ensures idles_at_end { (program : Program) (setup : Setup) → ActsKeep R.rules program setup IdlesAreOverAtEnd }
    ensures micros_at_end { (program : Program) (setup : Setup) → ActsKeep R.rules program setup MicrosAreOverAtEnd }
    ensures continuations_at_end { (program : Program) (setup : Setup) → ActsKeep R.rules program setup ContinuationsAreOverAtEnd }
    ensures timeouts_at_end { (program : Program) (setup : Setup) → ActsKeep R.rules program setup TimeoutsAreOverAtEnd }
    ensures posts_at_end { (program : Program) (setup : Setup) → ActsKeep R.rules program setup PostsAreOverAtEnd }
    ensures intervals_at_end { (program : Program) (setup : Setup) → ActsKeep R.rules program setup IntervalsAreOverAtEnd }
    ensures hosts_at_end { (program : Program) (setup : Setup) → ActsKeep R.rules program setup HostsHaveAnsweredAtEnd }
{}

/// A trace told in its second form is of the same run: what migrating legal events gives is legal for the same setup in the second form,
/// and without what the first form leaves out it is these events, where the setup's form is the first.
pub fn a_trace_is_told_in_its_second_form()
    ensures { (program : Program) (setup : Setup) → LegalEventsMigrate program setup }
{}

/// The closures of the host after a run, wherever it stops, are those before it with the marks that the lines tell. Each registration of a
/// host asked one of them that was live, and no closure was asked twice. A closure is fired exactly where it was so before or a line tells
/// its answer, and dropped exactly where it was so before or an abort dropped its answer, pending or due, with the registration that asked
/// it. No kind and no range has changed.
pub fn closures_follow_the_lines<R: Choosing>()
    ensures pages { (program : Program) (setup : Setup) → ClosuresFollowRuns R.rules program setup }
    ensures fired { (program : Program) (setup : Setup) → ClosuresFireAsTold R.rules program setup }
{}
