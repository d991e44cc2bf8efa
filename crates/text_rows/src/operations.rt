ghost use Rattle.std.specs.Prelude.{IsTrue};
ghost use Rattle.page_values.specs.Texts.{is_text};

use crate::rows::expect_met;
use crate::texts::text_of;
use lang_ast::{
    Host, HostStep, Item, Named, Outcome, Program, Tree, argument_count, is_busy, operation_named,
};
use page_types::Op;
use page_values::Value;
use std::alloc::{AllocError, Global};
use std::test::Fail;

const TICKET: u64 = 7;

/// Why the host below stopped.
#[derive(Clone, Copy)]
struct Refused;

/// A host that wants unit called at an operation, and refuses to go on where this is thrown back. It takes one
/// operation at a time.
#[derive(Drop)]
struct OneCall {
    alloc: Global,
    is_open: bool,
    refusals: u64,
    last: Option<Refused>,
}

impl Host for OneCall {
    ghost use Rattle.std.specs.Prelude.{◌≡◌, Bool, true, false, if◌then◌else◌, [], ◌∷◌};
    ghost use Rattle.page_types.specs.Values.{UnitValue};
    ghost use Rattle.lang_meaning.specs.HostSteps.{StepValue, StepThrow, StepInvoke};

    type Stop = Refused;

    ghost Told = { Bool };

    ghost now = { λ host. record {
      told = host.is_open;
      tickets = if host.is_open then 7 ∷ [] else [];
      room = 0;
      functions = 0;
      refusals = host.refusals;
      last_stop = host.last;
    } };

    ghost rules = { record {
      op = λ op args told. record { step = if told then StepThrow UnitValue else StepInvoke UnitValue [] 7; host = true };
      resume = λ ticket end told. record { step = StepValue UnitValue; host = false };
    } };

    ghost leaves = { λ ask before after. after ≡ false };

    ghost left = { λ told ticket. 0 };

    fn op(&mut self, _op: Op, _args: Vec<Value>) -> Result<HostStep, Refused> {
        if self.is_open {
            return Ok(HostStep::Throw(Value::Unit));
        }
        self.is_open = true;
        Ok(HostStep::Invoke {
            callback: Value::Unit,
            args: Vec::new(self.alloc),
            ticket: TICKET,
        })
    }

    fn resume(&mut self, _ticket: u64, outcome: Outcome) -> Result<HostStep, Refused> {
        self.is_open = false;
        match outcome {
            Outcome::Value(_) => Ok(HostStep::Value(Value::Unit)),
            Outcome::Throw(_) => {
                self.refusals = self.refusals.saturating_add(1);
                self.last = Some(Refused);
                Err(Refused)
            }
        }
    }
}

// Whether an operation of the host wants a callback, and goes on with unit where that gives a value.
fn goes_on(host: &mut OneCall) -> bool {
    let wanted = host.op(Op::NowOp, Vec::new(host.alloc));
    if !matches!(&wanted, Ok(HostStep::Invoke { ticket: TICKET, .. })) {
        drop(wanted);
        return false;
    }
    drop(wanted);
    let given = host.resume(TICKET, Outcome::Value(Value::Int(1)));
    let goes_on = matches!(&given, Ok(HostStep::Value(Value::Unit)));
    drop(given);
    goes_on
}

// Whether an operation of the host wants a callback, and refuses to go on where that throws.
fn refuses(host: &mut OneCall) -> bool {
    let wanted = host.op(Op::NowOp, Vec::new(host.alloc));
    if !matches!(&wanted, Ok(HostStep::Invoke { ticket: TICKET, .. })) {
        drop(wanted);
        return false;
    }
    drop(wanted);
    let refused = host.resume(TICKET, Outcome::Throw(Value::Unit));
    let refuses = matches!(&refused, Err(Refused));
    drop(refused);
    refuses
}

fn goes_on_or_refuses(host: &mut OneCall) -> bool {
    goes_on(host)
        && host.refusals == 0
        && host.last.is_none()
        && refuses(host)
        && host.refusals == 1
        && host.last.is_some()
}

#[test]
fn a_host_wants_a_callback_and_goes_on_or_refuses(rt: HostRuntime) {
    let mut host = OneCall {
        alloc: rt.alloc(),
        is_open: false,
        refusals: 0,
        last: None,
    };
    let is_met = goes_on_or_refuses(&mut host);
    drop(host);
    expect_met(&rt, is_met, 0);
}

fn is_name(alloc: Global, bytes: &[u8]) -> Result<bool, AllocError>
    requires { IsTrue (is_text bytes.now) }
{
    let named = Named::new(text_of(alloc, bytes)?, 7);
    let is_name = named.is_some();
    drop(named);
    Ok(is_name)
}

fn are_names(alloc: Global) -> Result<bool, AllocError> {
    Ok(is_name(alloc, b"a")? && is_name(alloc, b"_")? && is_name(alloc, b"Z9_z")?)
}

fn are_others(alloc: Global) -> Result<bool, AllocError> {
    let are_names = is_name(alloc, b"")?
        || is_name(alloc, b"9a")?
        || is_name(alloc, b"a b")?
        || is_name(alloc, b"a-")?;
    Ok(!are_names)
}

fn have_64_bytes(alloc: Global) -> Result<bool, AllocError> {
    Ok(is_name(alloc, &[b'x'; 64])? && !is_name(alloc, &[b'x'; 65])?)
}

#[test]
fn names_are_letters_and_digits_and_have_at_most_64_bytes(rt: HostRuntime) -> Result<(), Fail> {
    let alloc = rt.alloc();
    expect_met(&rt, are_names(alloc)?, 0);
    expect_met(&rt, are_others(alloc)?, 1);
    expect_met(&rt, have_64_bytes(alloc)?, 2);
    Ok(())
}

// The operations with the number of the arguments that the table of the script language gives them.
const COUNTS: [(Op, usize); 51] = [
    (Op::Log, 1),
    (Op::TextOf, 1),
    (Op::KindOf, 1),
    (Op::Len, 1),
    (Op::Push, 2),
    (Op::Bind, 2),
    (Op::MakeFault, 1),
    (Op::FaultNameOf, 1),
    (Op::FaultTextOf, 1),
    (Op::NowOp, 0),
    (Op::Busy, 1),
    (Op::QueueMicrotask, 1),
    (Op::MakePromise, 0),
    (Op::ResolveOp, 2),
    (Op::RejectOp, 2),
    (Op::Resolved, 1),
    (Op::Rejected, 1),
    (Op::Then, 3),
    (Op::SetTimeout, 2),
    (Op::SetInterval, 2),
    (Op::ClearTimeout, 1),
    (Op::ClearInterval, 1),
    (Op::RequestFrame, 1),
    (Op::CancelFrame, 1),
    (Op::RequestIdle, 2),
    (Op::CancelIdle, 1),
    (Op::DidTimeout, 1),
    (Op::TimeRemaining, 1),
    (Op::PostTask, 4),
    (Op::YieldTask, 0),
    (Op::MakeController, 0),
    (Op::MakeTaskController, 1),
    (Op::SignalOf, 1),
    (Op::AbortOp, 2),
    (Op::SetPriority, 2),
    (Op::AbortedSignal, 1),
    (Op::AnySignal, 1),
    (Op::TaskAny, 2),
    (Op::TimeoutSignal, 1),
    (Op::Aborted, 1),
    (Op::ReasonOf, 1),
    (Op::PriorityOf, 1),
    (Op::Listen, 3),
    (Op::Unlisten, 1),
    (Op::HostOp, 3),
    (Op::PostMessage, 2),
    (Op::AllOp, 1),
    (Op::RaceOp, 1),
    (Op::AnyOp, 1),
    (Op::AllSettled, 1),
    (Op::FinallyOp, 2),
];

#[test]
fn operations_have_their_counts(rt: HostRuntime) {
    for (number, (op, count)) in COUNTS.iter().enumerate() {
        let is_met = argument_count(*op) == *count && is_busy(*op) == (*op == Op::Busy);
        expect_met(&rt, is_met, number);
    }
}

// Whether the name is of this operation, or of none.
fn is_of(alloc: Global, name: &[u8], op: Option<Op>) -> Result<bool, AllocError>
    requires { IsTrue (is_text name.now) }
{
    let name = text_of(alloc, name)?;
    let is_of = operation_named(&name) == op;
    drop(name);
    Ok(is_of)
}

fn are_found(alloc: Global) -> Result<bool, AllocError> {
    Ok(
        is_of(alloc, b"log", Some(Op::Log))?
            && is_of(alloc, b"host", Some(Op::HostOp))?
            && is_of(alloc, b"allSettled", Some(Op::AllSettled))?
            && is_of(alloc, b"faultText", Some(Op::FaultTextOf))?,
    )
}

fn are_none(alloc: Global) -> Result<bool, AllocError> {
    Ok(
        is_of(alloc, b"lgo", None)?
            && is_of(alloc, b"Log", None)?
            && is_of(alloc, b"every", None)?
            && is_of(alloc, b"", None)?,
    )
}

#[test]
fn operations_are_found_by_their_names_alone(rt: HostRuntime) -> Result<(), Fail> {
    expect_met(&rt, are_found(rt.alloc())?, 0);
    expect_met(&rt, are_none(rt.alloc())?, 1);
    Ok(())
}

fn is_nothing(program: &Program) -> bool {
    program.function_count() == 0
        && program.function(0).is_none()
        && program.items().is_empty()
        && program.names().names().is_empty()
}

#[test]
fn a_script_with_nothing_has_only_its_own_body(rt: HostRuntime) -> Result<(), Fail> {
    let alloc = rt.alloc();
    let items: Vec<Item> = Vec::new(alloc);
    let program = Program::new(alloc, Tree { items })?;
    let is_nothing = is_nothing(&program);
    drop(program);
    expect_met(&rt, is_nothing, 0);
    Ok(())
}
