//! What the layer above goes by: what a call does to the script's part it does to a page that has this part. Laws alone, as
//! functions with empty bodies.

ghost use Rattle.std.specs.Prelude.{◌≡◌, ◌+◌, ℕ, List, Option};
ghost use Rattle.page_types.specs.Values.{Value};
ghost use Rattle.page_types.specs.declared.RegKind.{RegKind};
ghost use Rattle.page_types.specs.declared.Source.{Source};
ghost use Rattle.page_types.specs.Events.{Event, Wait};
ghost use Rattle.page_parts.specs.Promises.{Settled, Reaction};
ghost use Rattle.page_parts.specs.Notices.{Noticed, Notices, Context};
ghost use Rattle.page_parts.specs.Combinators.{CombinatorKind};
ghost use Rattle.page_model.specs.State.{Page, Registration, SchedulingState, emit, on_notices};
ghost use Rattle.page_model.specs.Invoke.{WhenReported, register_as, call_begun, call_ended, thrown, report, report_before};
ghost use Rattle.page_model.specs.Invoke.{report_after, under, notify_rejected, checkpoint_begun, checkpoint_ended};
ghost use Rattle.page_model.specs.PagePromises as promises;
ghost use Rattle.page_model.specs.PageCombinators.{lead_into, combinator_made, item_made, with_element, element_made};
ghost use Rattle.page_model.specs.PageCombinators.{all_made, race_made, pass_on, promises_for};
ghost use Rattle.page_script.specs.Lengths.{made_in, Leaves, MakesOne};
ghost use Rattle.page_model.specs.Operations.{script_promise, posted, posts_taken};
ghost use Rattle.page_model.specs.SchedulerTasks.{with_state};
ghost use Rattle.page_model.specs.Tasks.{outstanding_if_unhandled};
ghost use Rattle.page_model.specs.Turns.{at_time};
ghost use Rattle.page_script.specs.Script.{Script};
ghost use Rattle.page_script.specs.PageActs.{OnlyAdds, OnlyScript, OnlyScriptAndTasks};
ghost use Rattle.page_script.specs.ScriptActs.{changed_by};
ghost use Rattle.page_script.specs.Jobs.{oldest_begun};
ghost use Rattle.page_script.specs.Calls.{turn_begun};
ghost use Rattle.page_script.specs.ScriptLaws.{IsDoneToPages, IsDoneWithTasks, Composes, FollowsOnScript, FollowsOnPage};

use trace_text::Lines;

/// A function of the page that touches the script's part alone is done to a page by doing it to this part: the same lines, and
/// every other field stays. Where it queues tasks besides, those that it queues on a page with no other task are queued.
pub fn what_is_done_to_the_script_is_done_to_the_page<L: Lines>()
    ensures alone { (f : Page → Page) → IsDoneToPages L.keeping f }
    ensures tasks { (f : Page → Page) → IsDoneWithTasks L.keeping f }
{}

/// Such functions only add lines, and one after another is such a function again.
pub fn functions_that_touch_the_script_alone_compose()
    ensures adds { (f : Page → Page) → OnlyScript f → OnlyAdds f }
    ensures alone { (f g : Page → Page) → OnlyScript f → OnlyScript g → OnlyScript (λ p. g (f p)) }
    ensures no_tasks { (f : Page → Page) → OnlyScript f → OnlyScriptAndTasks f }
    ensures tasks { Composes OnlyScriptAndTasks }
{}

/// Lines, registrations, calls, reports, time and turns touch the script's part alone.
pub fn calls_touch_the_script_alone()
    ensures line { (e : Event) → OnlyScript (emit e) }
    ensures registered { (kind : RegKind) (x : Registration) → OnlyScript (register_as kind x) }
    ensures begun { (r : ℕ) → OnlyScript (call_begun r) }
    ensures ended { (e : Event) → OnlyScript (call_ended e) }
    ensures thrown { (v : Value) → OnlyScript (thrown v) }
    ensures report { (v : Value) → OnlyScript (report v) }
    ensures before { (when : WhenReported) (v : Value) → OnlyScript (report_before when v) }
    ensures after { (when : WhenReported) (v : Value) → OnlyScript (report_after when v) }
    ensures time { (t : ℕ) → OnlyScript (at_time t) }
    ensures turn { (source : Option Source) → OnlyScript (turn_begun source) }
    ensures wait { (target t : ℕ) → OnlyScript (λ p. emit (Wait target) (at_time t p)) }
    ensures context { (now : Context) → OnlyScript (under now) }
    ensures level { (level : ℕ) → OnlyScript (λ p. record p { level = level }) }
    ensures scheduling { (state : Option ℕ) → OnlyScript (λ p. record p { scheduling = state }) }
    ensures state { (s : SchedulingState) → OnlyScript (with_state s) }
    ensures posted { (port : ℕ) (v : Value) → OnlyScript (posted port v) }
    ensures taken { OnlyScript posts_taken }
{}

/// Promises, jobs and what elements of combinators report touch the script's part alone.
pub fn promises_touch_the_script_alone()
    ensures notices { (f : Notices → Noticed) → OnlyScript (on_notices f) }
    ensures made { OnlyScript promises.new_promise }
    ensures of_script { OnlyScript script_promise }
    ensures settled { (n : ℕ) (how : Settled) → OnlyScript (promises.settle n how) }
    ensures followed { (n : ℕ) (how : Settled) → OnlyScript (promises.follow n how) }
    ensures job { OnlyScript oldest_begun }
    ensures checkpoint { OnlyScript checkpoint_begun }
    ensures outstanding { (n : ℕ) → OnlyScript (outstanding_if_unhandled n) }
    ensures led { (into : ℕ) (how : Settled) → OnlyScript (lead_into into how) }
    ensures combinator { (kind : CombinatorKind) (count : ℕ) → OnlyScript (combinator_made kind count) }
    ensures item { (v : Value) → OnlyScript (item_made v) }
    ensures element { (combinator place : ℕ) → OnlyScript (with_element combinator place) }
{}

/// Handlers, the end of a checkpoint and combinators touch the script's part alone, but that they queue tasks.
pub fn what_queues_tasks_touches_the_script_alone()
    ensures subscribed { (n : ℕ) (r : Reaction) → OnlyScriptAndTasks (promises.subscribe n r) }
    ensures rejected { OnlyScriptAndTasks notify_rejected }
    ensures checkpoint { (before : Page) → OnlyScriptAndTasks (checkpoint_ended before) }
    ensures all { (kind : CombinatorKind) (vs : List Value) → OnlyScriptAndTasks (all_made kind vs) }
    ensures race { (vs : List Value) → OnlyScriptAndTasks (race_made vs) }
    ensures passed { (into : ℕ) (how : Settled) (v : Value) → OnlyScriptAndTasks (pass_on into how v) }
{}

/// What two calls do one after another, on the script's part and on the whole page.
pub fn acts_follow_one_another<L: Lines>()
    ensures script { (f g : Page → Page) → FollowsOnScript L.keeping f g }
    ensures page { (f g : Page → Page) → FollowsOnPage L.keeping f g }
{}

/// How many promises there are after each function: what it was, but where one is made.
pub fn promises_are_counted()
    ensures settled { (n : ℕ) (how : Settled) → Leaves (promises.settle n how) }
    ensures followed { (n : ℕ) (how : Settled) → Leaves (promises.follow n how) }
    ensures subscribed { (n : ℕ) (r : Reaction) → Leaves (promises.subscribe n r) }
    ensures led { (into : ℕ) (how : Settled) → Leaves (lead_into into how) }
    ensures combinator { (kind : CombinatorKind) (count : ℕ) → MakesOne (combinator_made kind count) }
    ensures element { (combinator place n : ℕ) → MakesOne (element_made combinator place n) }
    ensures item { (v : Value) (s : Script) → made_in (changed_by (item_made v) s) ≡ made_in s + promises_for v }
{}
