//! The program: the real folder, the standard streams and the host closures are handed to the top call.
#![tactic(auto)]

ghost use Rattle.std.specs.Prelude.{◌≡◌};
ghost use Rattle.host_jobs.specs.ToldTable.{closures_of};
ghost use Rattle.pageloop.specs.HostClosures.{host_closures};

mod hosts;

use host_jobs::{HostKind, HostOnce, HostTable};
use hosts::{GREATEST_HALF, GREATEST_ROOT, double, fail, negate, square};
use page_cli::page_main;
use page_io::{RealFolder, StdSink};
use std::alloc::AllocError;
use std::process::ExitCode;
use std::rt::Env;
use std::{env, io};

/// The status of want of memory.
const OUT_OF_MEMORY: u8 = 70;

/// The words behind the program's name.
fn words(rt: &(impl Env + AllocGlobal)) -> io::Result<Vec<String>> {
    let mut words = Vec::new(rt.alloc());
    for word in env::args(rt)?.skip(1) {
        words.push(word)?;
    }
    Ok(words)
}

/// Runs the program with its host closures, and answers its status. Want of memory for what it starts with is the only error.
fn run_with(rt: &HostRuntime, words: &Vec<String>, hosts: HostTable) -> Result<u8, AllocError>
    requires { closures_of hosts ≡ host_closures }
{
    let alloc = rt.alloc();
    let mut folder = RealFolder::new(rt);
    let out = StdSink::new(alloc, io::writer(rt))?;
    let mut err = StdSink::new(alloc, rt.stderr())?;
    let end = page_main(alloc, words, &mut folder, hosts, out, &mut err);
    Ok(end.status)
}

/// Makes the 64 host closures, and runs the program with them.
///
/// Number k of the closures squares, doubles, negates or fails as k modulo 4 is 0, 1, 2 or 3.
fn run(rt: HostRuntime) -> Result<u8, AllocError> {
    let alloc = rt.alloc();
    let Ok(words) = words(&rt) else {
        return Ok(OUT_OF_MEMORY);
    };
    let mut hosts = HostTable::new(alloc);
    for _ in 0..16u32 {
        let job = Box::new(alloc, square)?;
        hosts.push(HostOnce::new(HostKind::Square, -GREATEST_ROOT, GREATEST_ROOT, job))?;
        let job = Box::new(alloc, double)?;
        hosts.push(HostOnce::new(HostKind::Double, -GREATEST_HALF, GREATEST_HALF, job))?;
        let job = Box::new(alloc, negate)?;
        hosts.push(HostOnce::new(HostKind::Negate, -i64::MAX, i64::MAX, job))?;
        let job = Box::new(alloc, fail)?;
        hosts.push(HostOnce::new(HostKind::Fail, i64::MIN, i64::MAX, job))?;
    }
    run_with(&rt, &words, hosts)
}

fn main(rt: HostRuntime) -> ExitCode {
    match run(rt) {
        Ok(status) => ExitCode::from(status),
        Err(_) => ExitCode::from(OUT_OF_MEMORY),
    }
}
