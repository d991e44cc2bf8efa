//! How the calls are what a page of the model does. Laws alone, as functions with empty bodies.
ghost use Rattle.std.specs.Prelude.{ℕ, List};
ghost use Rattle.page_types.specs.Values.{Value};
ghost use Rattle.page_types.specs.declared.Priority.{Priority};
ghost use Rattle.page_parts.specs.Kinds.{Func};
ghost use Rattle.page_parts.specs.AbortGraph.{Signals};
ghost use Rattle.page_parts.specs.Listeners as parts;
ghost use Rattle.page_model.specs.State.{Page};
ghost use Rattle.page_model.specs.Invoke.{WhenReported};
ghost use Rattle.page_events.specs.declared.target.Target.{Target};
ghost use Rattle.page_folds.specs.OfModel.{Kind};
ghost use Rattle.page_signals.specs.Signalling.{Open, Signalling};
ghost use Rattle.page_signals.specs.Laws.{SignallingIs, WithSignalsIs, GivePriorityIs, ChangeBegunIs, ChangeEndedIs, WatchIs, UnwatchIs, ListenersAreAdded, ListenerRemovedIs, ReasonSetIs, RunAlgorithmsIs};
ghost use Rattle.page_signals.specs.Laws.{FoldsGoOn, StepIs, CallingIs, CallIs, DispatchesBegin, AbortIs, ChangeIs, FallsAt};

/// On every page the model's step is the call's on the fields of this part, and then the line that tells it.
pub fn calls_are_steps_of_a_page()
    ensures fields { (st : Signalling) (p : Page) → SignallingIs st p }
    ensures signals { (f : Signals Value → Signals Value) (os : List Open) (p : Page) →
        WithSignalsIs f os p }
    ensures give { (s : ℕ) (priority : Priority) (os : List Open) (p : Page) →
        GivePriorityIs s priority os p }
    ensures begun { (s : ℕ) (priority : Priority) (os : List Open) (p : Page) →
        ChangeBegunIs s priority os p }
    ensures ended { (s : ℕ) (os : List Open) (p : Page) → ChangeEndedIs s os p }
    ensures watch { (s r : ℕ) (os : List Open) (p : Page) → WatchIs s r os p }
    ensures unwatch { (s r : ℕ) (os : List Open) (p : Page) → UnwatchIs s r os p }
    ensures listen { (target : parts.Target) (name : List ℕ) (f : Func) → ListenersAreAdded target name f }
    ensures unlisten { (r : ℕ) (os : List Open) (p : Page) → ListenerRemovedIs r os p }
    ensures reason { (s : ℕ) (reason : Value) (os : List Open) (p : Page) →
        ReasonSetIs s reason os p }
    ensures algorithms { (s : ℕ) (os : List Open) (p : Page) → RunAlgorithmsIs s os p }
{}

/// What a page does with the innermost fold is what the next step says, and then what it does with the fold after it; where a fold
/// is opened it does what it does with that fold. While a callback runs the open fold is the model's, which goes on by its steps.
pub fn folds_are_those_of_a_page()
    ensures step { (st : Signalling) (p : Page) → StepIs st p }
    ensures calling { (st : Signalling) → CallingIs st }
    ensures call { (f : Func) (when : WhenReported) (args : List Value) (o : Open) (p : Page) →
        CallIs f when args o p }
    ensures goes_on { (kind : Kind) (when : WhenReported) (target : Target) → FoldsGoOn kind when target }
    ensures dispatch { (target : Target) (name : List ℕ) (args : List Value) → DispatchesBegin target name args }
    ensures abort { (s : ℕ) (reason : Value) (st : Signalling) (p : Page) → AbortIs s reason st p }
    ensures change { (s : ℕ) (priority : Priority) (st : Signalling) (p : Page) →
        ChangeIs s priority st p }
{}

/// The number of algorithms, listeners and changes that the innermost fold has still to visit falls at each step that is not its end.
pub fn less_is_left_after_each_step()
    ensures { (st : Signalling) → FallsAt st }
{}
