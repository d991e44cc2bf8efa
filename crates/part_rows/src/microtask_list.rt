//! Jobs that are queued, and the order in which they are taken out.

use crate::rows::expect_met;
use microtasks::Jobs;
use std::alloc::Global;
use std::process::Abort;
use std::test::Fail;

// A call on the jobs, and what it answers.
enum Step {
    Push(u32),
    Pop(Option<u32>),
    HasJob(bool),
}

use Step::{HasJob, Pop, Push};

fn take(jobs: &mut Jobs<u32>, step: &Step) -> Result<bool, Fail> {
    match step {
        Push(job) => {
            jobs.push(*job)?;
            Ok(true)
        }
        Pop(job) => Ok(jobs.pop() == *job),
        HasJob(waits) => Ok(jobs.has_job() == *waits),
    }
}

fn take_all(rt: &impl Abort, alloc: Global, steps: &[Step]) -> Result<(), Fail> {
    let mut jobs = Jobs::<u32>::new(alloc);
    for (number, step) in steps.iter().enumerate() {
        expect_met(rt, take(&mut jobs, step)?, number);
    }
    Ok(())
}

#[test]
fn gives_jobs_in_the_order_in_which_they_came(rt: HostRuntime) -> Result<(), Fail> {
    const STEPS: [Step; 10] = [
        Pop(None),
        HasJob(false),
        Push(7),
        HasJob(true),
        Push(8),
        Pop(Some(7)),
        Push(9),
        Pop(Some(8)),
        Pop(Some(9)),
        Pop(None),
    ];
    take_all(&rt, rt.alloc(), &STEPS)
}
