//! Makes many calls of one kind, for a script that takes the time from outside: `bench KIND N`, or `bench all N`.
#![tactic(auto)]

mod frames;
mod idle;
mod kind;
mod scheduler;
mod signals;
mod timers;

use kind::Kind;
use std::alloc::Global;
use std::process::ExitCode;
use std::rt::Env;
use std::{env, io};

/// The status of a call that is not understood.
const USAGE: u8 = 64;

/// The status of want of memory, and of output that could not be written.
const FAILED: u8 = 70;

/// The words behind the program's name.
fn words(rt: &(impl Env + AllocGlobal)) -> io::Result<Vec<String>> {
    let mut words = Vec::new(rt.alloc());
    for word in env::args(rt)?.skip(1) {
        words.push(word)?;
    }
    Ok(words)
}

/// Makes `n` calls of a kind, and answers how many were answered. None for want of memory.
fn answered(alloc: Global, kind: Kind, n: u32) -> Option<u32> {
    match kind {
        Kind::TimersCompleted => timers::completed(alloc, n).ok(),
        Kind::IntervalsAgain => timers::again(alloc, n).ok(),
        Kind::FramesTaken => frames::taken(alloc, n).ok(),
        Kind::IdleTimedOut => idle::timed_out(alloc, n).ok(),
        Kind::SignalsDispatched => signals::dispatched(alloc, n).ok(),
        Kind::ListenersAgain => signals::again(alloc, n).ok(),
        Kind::SignalsAborted => signals::aborted(alloc, n).ok(),
        Kind::SchedulerRoom => scheduler::room(alloc, n).ok(),
        Kind::SchedulerEnqueued => scheduler::enqueued(alloc, n).ok(),
        Kind::SchedulerTaken => scheduler::taken(alloc, n).ok(),
        Kind::SchedulerMoved => scheduler::moved(alloc, n).ok(),
    }
}

/// Runs each kind that is named, and prints its name with the number of calls that were answered.
fn run(rt: &(impl Print + AllocGlobal), name: &str, n: u32) -> io::Result<u8> {
    let mut status = USAGE;
    for kind in kind::ALL {
        if name == "all" || name == kind.name() {
            let Some(calls) = answered(rt.alloc(), kind, n) else {
                return Ok(FAILED);
            };
            println!(rt; "{} {calls}", kind.name())?;
            status = 0;
        }
    }
    Ok(status)
}

fn main(rt: HostRuntime) -> ExitCode {
    let Ok(words) = words(&rt) else {
        return ExitCode::from(FAILED);
    };
    let [name, count] = words.as_slice() else {
        return ExitCode::from(USAGE);
    };
    let Ok(n) = count.parse::<u32>() else {
        return ExitCode::from(USAGE);
    };
    match run(&rt, name, n) {
        Ok(status) => ExitCode::from(status),
        Err(_) => ExitCode::from(FAILED),
    }
}
