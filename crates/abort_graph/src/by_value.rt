//! Reasons by number: a page keeps the reasons as values in a list of its own, and hands in their numbers.
ghost use Rattle.std.specs.Prelude.{◌≡◌, ℕ, List, []};
ghost use Rattle.page_types.specs.Values.{Value};
ghost use Rattle.page_parts.specs.AbortGraph.{Signals};
ghost use Rattle.abort_graph.specs.ByValue.{AreAmong, MoreAreAmong, MadeAreAmong, AbortedAreAmong, AnyAreAmong, ReasonsAreAmong, AlgorithmsAreAmong, FurtherValueIs, NextValueIs};
ghost use Rattle.abort_graph.specs.ByValue.{by_value, SameReasons, ReasonIs, SignalIs, AbortedIs, CountIs, MakeIs, MakeAbortedIs, AnyIs, MarkedIs, WithReasonIs, WithAlgorithmsIs, AddAlgorithmIs, RemoveAlgorithmIs};

/// What is done to signals whose reasons are numbers is the same as what is done to those whose reasons are the values with
/// these numbers, and depends on the values of their own reasons alone. It does nothing when it runs.
pub fn reasons_by_number_are_reasons_by_value()
    ensures reason { (f : ℕ → Value) (ss : Signals ℕ) → ReasonIs f ss }
    ensures signal { (f : ℕ → Value) (ss : Signals ℕ) → SignalIs f ss }
    ensures aborted { (f : ℕ → Value) (ss : Signals ℕ) → AbortedIs f ss }
    ensures count { (f : ℕ → Value) (ss : Signals ℕ) → CountIs f ss }
    ensures make { (f : ℕ → Value) (ss : Signals ℕ) → MakeIs f ss }
    ensures make_aborted { (f : ℕ → Value) (ss : Signals ℕ) → MakeAbortedIs f ss }
    ensures any { (f : ℕ → Value) (ss : Signals ℕ) → AnyIs f ss }
    ensures marked { (f : ℕ → Value) (ss : Signals ℕ) → MarkedIs f ss }
    ensures with_reason { (f : ℕ → Value) (ss : Signals ℕ) → WithReasonIs f ss }
    ensures with_algorithms { (f : ℕ → Value) (ss : Signals ℕ) → WithAlgorithmsIs f ss }
    ensures add_algorithm { (f : ℕ → Value) (ss : Signals ℕ) → AddAlgorithmIs f ss }
    ensures remove_algorithm { (f : ℕ → Value) (ss : Signals ℕ) → RemoveAlgorithmIs f ss }
    ensures own { (f g : ℕ → Value) (ss : Signals ℕ) → SameReasons f g ss → by_value f ss ≡ by_value g ss }
{}

/// The numbers of reasons are those of values that the page has: no step on signals brings in another one than the number that is
/// handed to it. So a page that puts a further value behind the others changes no reason, and the value has the next number.
/// It does nothing when it runs.
pub fn reasons_are_among_the_values()
    ensures none { AreAmong 0 [] }
    ensures more { (n : ℕ) (ss : Signals ℕ) → MoreAreAmong n ss }
    ensures make { (n : ℕ) (ss : Signals ℕ) → MadeAreAmong n ss }
    ensures make_aborted { (n : ℕ) (ss : Signals ℕ) → AbortedAreAmong n ss }
    ensures any { (n : ℕ) (ss : Signals ℕ) → AnyAreAmong n ss }
    ensures with_reason { (n : ℕ) (ss : Signals ℕ) → ReasonsAreAmong n ss }
    ensures with_algorithms { (n : ℕ) (ss : Signals ℕ) → AlgorithmsAreAmong n ss }
    ensures further { (values : List Value) (ss : Signals ℕ) → FurtherValueIs values ss }
    ensures next { (values : List Value) → NextValueIs values }
{}
