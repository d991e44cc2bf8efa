//! What is known of an open fold besides what is left of it.
ghost use Rattle.std.specs.Prelude.{◌≡◌, ◌<◌, map, length, IfOk};
ghost use Rattle.page_model.specs.PageSignals.{priority_value};
ghost use Rattle.page_values.specs.Seen.{seen};
ghost use Rattle.page_folds.specs.OfModel.{reason_in};
ghost use Rattle.page_signals.specs.Seen.{ArgumentsAre, AddsTarget};

use crate::MemoryFault;
use page_events::Target;
use page_values::{Str, Value, copy};
use std::alloc::Global;
use task_signal::Priority;

/// When a throw of a callback is reported (HTML, "Calling scripts"): of the script before the checkpoint; of a `then` handler or a
/// posted callback never; of any other after the checkpoint.
#[derive(Clone, Copy, Debug, PartialEq, Eq)]
pub enum WhenReported {
    BeforeCheckpoint,
    AfterCheckpoint,
    Never,
}

// Which fold it is.
#[derive(Drop)]
pub(crate) enum Kind {
    // A dispatch, with the arguments of its listeners.
    Dispatch(Vec<Value>),
    // An abort, with the number of its reason.
    Abort(u32),
    // A change to a priority, with the one before of the signal that was told last.
    Change { to: Priority, before: Priority },
}

// An open fold.
#[derive(Drop)]
pub(crate) struct Open {
    pub kind: Kind,
    // When a throw of the callback that runs under it is reported.
    pub when: WhenReported,
}

impl Open {
    ghost use Rattle.page_signals.specs.declared.opened.WhenReported.TheVariants.{Never};

    // A fold of this kind, under which no callback runs yet.
    pub(crate) fn new(kind: Kind) -> Open
        ensures kind { result.kind ≡ kind }
        ensures when { result.when ≡ Never }
    {
        Open {
            kind,
            when: WhenReported::Never,
        }
    }
}

impl Kind {
    ghost use Rattle.page_signals.specs.Seen.{kind_seen};
    ghost use Rattle.page_signals.specs.Kinds.{to_priority, IsReasonAmong};

    // The reason that algorithms are run with.
    pub(crate) fn reason(&self, alloc: Global, reasons: &[Value]) -> Result<Value, MemoryFault>
        requires { IsReasonAmong (length reasons.now) self.now }
        ensures { IfOk result (λ reason.
            seen reason ≡ reason_in (kind_seen (map seen reasons.now) self.now)) }
    {
        match self {
            Kind::Abort(n) => Ok(copy(alloc, &reasons[*n as usize])?),
            _ => Ok(Value::Unit),
        }
    }

    // The arguments of listeners, for an event at this target.
    pub(crate) fn arguments(&self, alloc: Global, target: Target) -> Result<Vec<Value>, MemoryFault>
        ensures { IfOk result (λ args. ArgumentsAre args.items self.now target) }
    {
        let mut arguments = Vec::new(alloc);
        match self {
            Kind::Dispatch(given) => {
                for value in given {
                    arguments.push(copy(alloc, value)?)?;
                }
            }
            Kind::Abort(_) => add_target(&mut arguments, target)?,
            Kind::Change { before, .. } => {
                add_target(&mut arguments, target)?;
                arguments.push(priority_word(alloc, *before)?)?;
            }
        }
        Ok(arguments)
    }

    // The priority that a change sets. Any other fold has none, and `own` stands for it.
    pub(crate) fn priority_to(&self, own: Priority) -> Priority
        ensures { result ≡ to_priority self.now own }
    {
        match self {
            Kind::Change { to, .. } => *to,
            _ => own,
        }
    }
}

// A signal that is the target is an argument.
fn add_target(arguments: &mut Vec<Value>, target: Target) -> Result<(), MemoryFault>
    ensures { IfOk result (λ _. AddsTarget arguments.old.items arguments.new.items target) }
{
    if let Target::Signal(s) = target {
        arguments.push(Value::Signal(s))?;
    }
    Ok(())
}

// A priority as a value.
fn priority_word(alloc: Global, priority: Priority) -> Result<Value, MemoryFault>
    ensures { IfOk result (λ word. seen word ≡ priority_value (Some priority)) }
{
    let word: &[u8] = match priority {
        Priority::Background => b"background",
        Priority::UserVisible => b"user-visible",
        Priority::UserBlocking => b"user-blocking",
    };
    Ok(Value::Text(Str::new(Vec::from_slice(alloc, word)?)))
}
