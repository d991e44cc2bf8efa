//! Choices by each policy, and from a list.

use crate::rows::expect_met;
use loop_policy::{Chooser, NoChoice, Policy, PolicyChooser, RecordedChooser, View};
use page_base::Source;
use std::process::Abort;
use std::test::Fail;

const USER_AND_NET: View = View {
    first: [Some(3), None, None, None, Some(2), None, None],
};

const FOUR: View = View {
    first: [Some(3), Some(9), None, None, Some(4), None, Some(7)],
};

const SCHED_AND_TIMER: View = View {
    first: [None, None, Some(1), Some(2), None, None, None],
};

const USER: View = View {
    first: [Some(3), None, None, None, None, None, None],
};

const DOM: View = View {
    first: [None, None, None, None, None, Some(1), None],
};

// Which sources have tasks, and what is chosen.
enum Step {
    // Net has the older task.
    UserAndNet(Result<Source, NoChoice>),
    // User, render, net and idle; user has the oldest task.
    Four(Result<Source, NoChoice>),
    SchedAndTimer(Result<Source, NoChoice>),
    User(Result<Source, NoChoice>),
    Dom(Result<Source, NoChoice>),
}

use Step::{Dom, Four, SchedAndTimer, User, UserAndNet};

#[tactic(auto, unfolding(loop_policy::specs::Views::runnables))]
fn take<C: Chooser>(chooser: &mut C, step: &Step) -> bool {
    match step {
        UserAndNet(chosen) => chooser.choose(&USER_AND_NET) == *chosen,
        Four(chosen) => chooser.choose(&FOUR) == *chosen,
        SchedAndTimer(chosen) => chooser.choose(&SCHED_AND_TIMER) == *chosen,
        User(chosen) => chooser.choose(&USER) == *chosen,
        Dom(chosen) => chooser.choose(&DOM) == *chosen,
    }
}

fn take_all<C: Chooser>(rt: &impl Abort, chooser: &mut C, steps: &[Step]) {
    for (number, step) in steps.iter().enumerate() {
        expect_met(rt, take(chooser, step), number);
    }
}

#[test]
fn fifo_serves_the_oldest_task(rt: HostRuntime) {
    const STEPS: [Step; 2] = [UserAndNet(Ok(Source::Net)), Four(Ok(Source::User))];
    let mut chooser = PolicyChooser::new(Policy::Fifo);
    take_all(&rt, &mut chooser, &STEPS);
}

#[test]
fn a_rank_serves_the_first_runnable_source_of_its_list(rt: HostRuntime) {
    const STEPS: [Step; 2] = [
        UserAndNet(Ok(Source::Net)),
        SchedAndTimer(Ok(Source::Timer)),
    ];
    let mut chooser = PolicyChooser::new(Policy::Rank([
        Source::Timer,
        Source::Sched,
        Source::Net,
        Source::User,
        Source::Render,
        Source::Dom,
        Source::Idle,
    ]));
    take_all(&rt, &mut chooser, &STEPS);
}

#[test]
fn fair_2_serves_what_was_passed_over_twice(rt: HostRuntime) {
    const STEPS: [Step; 12] = [
        UserAndNet(Ok(Source::User)),
        UserAndNet(Ok(Source::User)),
        UserAndNet(Ok(Source::Net)),
        UserAndNet(Ok(Source::User)),
        UserAndNet(Ok(Source::User)),
        UserAndNet(Ok(Source::Net)),
        UserAndNet(Ok(Source::User)),
        UserAndNet(Ok(Source::User)),
        // A source without a task is counted anew.
        User(Ok(Source::User)),
        UserAndNet(Ok(Source::User)),
        UserAndNet(Ok(Source::User)),
        UserAndNet(Ok(Source::Net)),
    ];
    let mut chooser = PolicyChooser::new(Policy::Fair(2));
    take_all(&rt, &mut chooser, &STEPS);
}

#[test]
fn a_pick_without_a_task_is_refused_and_stays(rt: HostRuntime) -> Result<(), Fail> {
    const STEPS: [Step; 5] = [
        UserAndNet(Ok(Source::Net)),
        UserAndNet(Err(NoChoice)),
        Dom(Ok(Source::Dom)),
        UserAndNet(Ok(Source::User)),
        UserAndNet(Err(NoChoice)),
    ];
    let picks = [Source::Net, Source::Dom, Source::User].to_vec(rt.alloc())?;
    let mut chooser = RecordedChooser::new(picks);
    take_all(&rt, &mut chooser, &STEPS);
    Ok(())
}
