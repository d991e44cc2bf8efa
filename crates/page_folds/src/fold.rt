ghost use Rattle.std.specs.Prelude.{◌≡◌, IfOk, OnErr};
ghost use Rattle.std.specs.Vec.Iter.{into_iter_items};
ghost use Rattle.page_folds.specs.Seen.{GoesOn, AbortsOn, ChangesOn};
ghost use Rattle.page_folds.specs.AtRest.{at_rest};

use crate::changes::Changes;
use crate::stage::Stage;
use crate::{FoldStep, MemoryFault};
use abort_graph::Signals;
use page_events::Listeners;
use std::alloc::Global;
use std::vec;
use task_signal::Prios;

// What comes after a stage: the abort steps of these signals, or further changes.
#[derive(Drop)]
pub(crate) enum Rest {
    Aborts(vec::IntoIter<u32>),
    Changes(Changes),
}

// An open fold: what it is at, and what comes then.
#[derive(Drop)]
pub(crate) struct Fold {
    pub stage: Stage,
    pub rest: Rest,
}

// A step of a fold, and the fold after it.
#[derive(Drop)]
pub(crate) struct Next {
    pub step: FoldStep,
    pub fold: Fold,
}

impl Fold {
    // The next step, none exactly where nothing is left to visit. For want of memory changes may have ended, and no priority is another.
    pub(crate) fn advance(
        self,
        alloc: Global,
        listeners: &Listeners,
        signals: &mut Signals<u32>,
        prios: &mut Prios,
    ) -> Result<Option<Next>, MemoryFault>
        ensures step { IfOk result (λ next. GoesOn self listeners.now signals.old prios.old next signals.new prios.new) }
        ensures err { OnErr result (at_rest prios.new ≡ at_rest prios.old) }
    {
        let Fold { stage, rest } = self;
        if let Some(advance) = stage.advance(alloc, listeners)? {
            return Ok(Some(Next {
                step: advance.step,
                fold: Fold {
                    stage: advance.stage,
                    rest,
                },
            }));
        }
        match rest {
            Rest::Aborts(left) => next_abort(alloc, listeners, signals, left),
            Rest::Changes(changes) => next_change(changes, prios),
        }
    }
}

// The first step of the abort steps of these signals.
fn next_abort(
    alloc: Global,
    listeners: &Listeners,
    signals: &mut Signals<u32>,
    mut left: vec::IntoIter<u32>,
) -> Result<Option<Next>, MemoryFault>
    ensures { IfOk result (λ next. AbortsOn (into_iter_items left) listeners.now signals.old next signals.new) }
{
    while let Some(signal) = left.next() {
        let algorithms = signals.take_algorithms(signal).into_iter();
        let stage = Stage::Algorithms {
            signal,
            left: algorithms,
        };
        if let Some(advance) = stage.advance(alloc, listeners)? {
            return Ok(Some(Next {
                step: advance.step,
                fold: Fold {
                    stage: advance.stage,
                    rest: Rest::Aborts(left),
                },
            }));
        }
    }
    Ok(None)
}

// The next change.
fn next_change(changes: Changes, prios: &mut Prios) -> Result<Option<Next>, MemoryFault>
    ensures step { IfOk result (λ next. ChangesOn changes prios.old next prios.new) }
    ensures err { OnErr result (at_rest prios.new ≡ at_rest prios.old) }
{
    let told = changes.advance(prios)?;
    Ok(told.map(|told| Next {
        step: FoldStep::Changed {
            signal: told.signal,
            before: told.before,
        },
        fold: Fold {
            stage: Stage::ToFire {
                signal: told.signal,
            },
            rest: Rest::Changes(told.left),
        },
    }))
}
