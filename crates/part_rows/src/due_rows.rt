//! Values in the order in which they come due: what is added, taken, and taken back.

use crate::rows::expect_met;
use page_base::Micros;
use std::alloc::Global;
use std::process::Abort;
use std::test::Fail;
use timer_map::due_rows::DueRows;

// A call on the rows, and what it answers. Moments are in microseconds.
enum Step {
    Add(u64, u32),
    NextDue(Option<Micros>),
    TakeFirst(Option<u32>),
    TakeBack(u64),
}

use Step::{Add, NextDue, TakeBack, TakeFirst};

fn take(rows: &mut DueRows<u32>, step: &Step) -> Result<bool, Fail> {
    match step {
        Add(due, value) => {
            rows.add(Micros(*due), *value)?;
            Ok(true)
        }
        NextDue(due) => Ok(rows.next_due() == *due),
        TakeFirst(value) => Ok(rows.take_first() == *value),
        TakeBack(due) => {
            rows.take_back(Micros(*due));
            Ok(true)
        }
    }
}

fn take_all(rt: &impl Abort, alloc: Global, steps: &[Step]) -> Result<(), Fail> {
    let mut rows = DueRows::new(alloc);
    for (number, step) in steps.iter().enumerate() {
        expect_met(rt, take(&mut rows, step)?, number);
    }
    Ok(())
}

#[test]
fn the_earlier_moment_comes_first_and_then_what_was_added_first(
    rt: HostRuntime,
) -> Result<(), Fail> {
    const STEPS: [Step; 11] = [
        NextDue(None),
        Add(5, 1),
        Add(3, 2),
        Add(5, 3),
        Add(3, 4),
        TakeBack(3),
        NextDue(Some(Micros(3))),
        TakeFirst(Some(2)),
        TakeFirst(Some(1)),
        TakeFirst(Some(3)),
        TakeFirst(None),
    ];
    take_all(&rt, rt.alloc(), &STEPS)
}
