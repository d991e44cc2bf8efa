//! Storms: large scripts that are made from a number, and run.

use crate::example::Example;
use crate::host_closures::table;
use host_jobs::Fired;
use std::alloc::Global;
use std::test::Fail;

// The counts of the storm of a number.
fn counts(alloc: Global, number: &str) -> Result<String, Fail> {
    let words = ["storm", number];
    let ended = Example::new(&words, b"", b"").run(alloc)?;
    if ended.status != 0 {
        return Err(Fail::new("another status"));
    }
    Ok(ended.out)
}

// Whether a storm has so many calls and is done, and is the same when it is run again.
fn is_met(alloc: Global, number: &str, calls: &str) -> Result<bool, Fail> {
    let text = counts(alloc, number)?;
    let again = counts(alloc, number)?;
    let mut lines = text.as_str().lines();
    Ok(
        lines.nth(1) == Some(calls)
            && lines.nth(2) == Some("end done")
            && lines.next().is_none()
            && again.as_str() == text.as_str(),
    )
}

#[test]
fn each_turn_of_the_loop_leads_to_one_call_and_each_run_is_the_same(
    rt: HostRuntime,
) -> Result<(), Fail> {
    let examples = [
        ("1", "calls 2"),
        ("1000", "calls 1001"),
        ("100000", "calls 100001"),
    ];
    for (number, calls) in examples {
        assert!(rt; is_met(rt.alloc(), number, calls)?, "{number}");
    }
    Ok(())
}

#[test]
fn a_storm_asks_no_closure(rt: HostRuntime) -> Result<(), Fail> {
    let words = ["storm", "4"];
    let mut ended = Example::new(&words, b"", b"").run_with(rt.alloc(), table(rt.alloc())?)?;
    assert!(rt; ended.status == 0 && ended.hosts.fire(0, 7) == Fired::Answer(Ok(49)));
    Ok(())
}
