//! The host, which answers operations and may call back into the script.

ghost use Rattle.std.specs.Prelude.{◌≡◌, ℕ, List, ◌∷◌, ◌+◌, ◌<◌, ◌≤◌, Option, Some, IfOk, IfErr, IfSome, IsTrue, OnErr, map, length};
ghost use Rattle.page_types.specs.Counts.{HasCause};
ghost use Rattle.page_values.specs.Seen.{seen};

use page_types::Op;
use page_values::Value;

/// What a host does with an operation.
#[derive(Drop)]
pub enum HostStep {
    Value(Value),
    Throw(Value),
    /// This is to be called with these arguments, and the host to be resumed under this ticket with what comes of it.
    Invoke {
        callback: Value,
        args: Vec<Value>,
        ticket: u64,
    },
}

/// How a callback ended.
#[derive(Drop)]
pub enum Outcome {
    Value(Value),
    Throw(Value),
}

/// What answers a script's operations.
///
/// Its calls take no allocator: a host that needs one keeps it. A function that a value names has a number below the count
/// of functions that the host tells, in what is handed in and in what is answered.
pub trait Host {
    ghost use Rattle.lang_meaning.specs.HostSteps.{HostRules, Ask, is_busy};
    ghost use Rattle.lang_ast.specs.Operations.{count_of};
    ghost use Rattle.lang_ast.specs.Hosts.{HostNow, ask_op, seen_lent, ask_end, Does, GivesValue, KnowsValue, Opens, Reopens, HasFewer};
    ghost use Rattle.lang_ast.specs.Steps.{seen_step, seen_outcome, AreFew, AllNumbered, StepIsNumbered, EndIsNumbered, room_taken};

    /// Why a host refuses to go on.
    type Stop: Drop;

    /// What the host tells of what it does.
    ghost Told: { Type 0 };

    /// All that it tells. The count of its functions stays, and that of its refusals never falls, and stays at the end of a `u64`.
    ghost now: { Self → HostNow Told Self.Stop };

    /// What it does at an operation and after a callback.
    ghost rules: { HostRules Told };

    /// What an ask that it refuses may leave of what it told before.
    ghost leaves: { Ask → Told → Told → Type 0 };

    /// How many callbacks may still come under a ticket, where none of them takes fuel.
    ghost left: { Told → ℕ → ℕ };

    /// Does an operation with its arguments, as many as it has. For `busy` there is room for one call.
    ///
    /// It refuses exactly where the count of refusals rises, with the last stop that is told.
    fn op(&mut self, op: Op, args: Vec<Value>) -> Result<HostStep, Self::Stop>
        requires count { length args.items ≡ count_of op }
        requires numbered { AllNumbered (now self.old).functions (map seen args.items) }
        requires room { room_taken (is_busy op) ≤ (now self.old).room }
        ensures rule { IfOk result (Does rules (ask_op op args) (now self.old) (now self.new)) }
        ensures open_tickets { IfOk result (Opens (now self.old).tickets (now self.new).tickets) }
        ensures few { IfOk result (λ step. AreFew (left (now self.new).told) (seen_step step)) }
        ensures numbered { IfOk result (λ step. StepIsNumbered (now self.old).functions (seen_step step)) }
        ensures functions { (now self.new).functions ≡ (now self.old).functions }
        ensures room { (now self.old).room ≤ (now self.new).room + room_taken (is_busy op) }
        ensures cause { HasCause (now self.old).refusals (now self.new).refusals result }
        ensures no_refusal { IfOk result (λ _. (now self.new).refusals ≡ (now self.old).refusals) }
        ensures refused { IfErr result (λ stop. (now self.new).last_stop ≡ Some stop) }
        ensures leaves { OnErr result (leaves (ask_op op args) (now self.old).told (now self.new).told) };

    /// Goes on after the callback of the last ticket that was not yet resumed.
    ///
    /// It refuses exactly where the count of refusals rises, with the last stop that is told.
    fn resume(&mut self, ticket: u64, outcome: Outcome) -> Result<HostStep, Self::Stop>
        requires open_ticket { (rest : List ℕ) × ((now self.old).tickets ≡ ticket ∷ rest) }
        requires numbered { EndIsNumbered (now self.old).functions (seen_outcome outcome) }
        ensures rule { IfOk result (Does rules (ask_end ticket outcome) (now self.old) (now self.new)) }
        ensures open_tickets { IfOk result (Reopens ticket (now self.old).tickets (now self.new).tickets) }
        ensures falls { IfOk result (HasFewer left ticket (now self.old).told (now self.new).told) }
        ensures few { IfOk result (λ step. AreFew (left (now self.new).told) (seen_step step)) }
        ensures numbered { IfOk result (λ step. StepIsNumbered (now self.old).functions (seen_step step)) }
        ensures functions { (now self.new).functions ≡ (now self.old).functions }
        ensures room { (now self.old).room ≤ (now self.new).room }
        ensures cause { HasCause (now self.old).refusals (now self.new).refusals result }
        ensures no_refusal { IfOk result (λ _. (now self.new).refusals ≡ (now self.old).refusals) }
        ensures refused { IfErr result (λ stop. (now self.new).last_stop ≡ Some stop) }
        ensures leaves { OnErr result (leaves (ask_end ticket outcome) (now self.old).told (now self.new).told) };

    /// The value with which an operation with these arguments would be answered, where that changes nothing that the host tells
    /// and the host knows it by a look at the arguments. `None` also where it does not know, or has no memory for the value.
    fn known_value(&self, op: Op, args: &[&Value]) -> Option<Value>
        requires count { length args.now ≡ count_of op }
        requires numbered { AllNumbered (now self.now).functions (seen_lent args.now) }
        ensures { IfSome result (KnowsValue rules op (seen_lent args.now) (now self.now)) }
    {
        None
    }

    /// Whether an operation with these arguments would be answered with a value: it would neither throw nor call back. `false`
    /// also where the host does not know. It changes nothing, and the operation is not done.
    fn gives_value(&self, op: Op, args: &[&Value]) -> bool
        requires { length args.now ≡ count_of op }
        ensures { IsTrue result → GivesValue rules op (seen_lent args.now) (now self.now) }
    {
        false
    }
}
