//! The frame callbacks and idle callbacks of a page, with the moments of its frames.

use crate::rows::expect_met;
use page_frames::{Micros, PageFrames};
use std::process::Abort;
use std::test::Fail;

// A call on the callbacks, and what it answers. Moments are in microseconds.
enum Step {
    RequestFrame(u32, u64, u32),
    RequestIdle(u32, u32),
    FrameKeys(&'static [u32]),
    NextFrame(u64),
}

use Step::{FrameKeys, NextFrame, RequestFrame, RequestIdle};

fn take(rt: &impl Abort, part: &mut PageFrames, step: &Step) -> Result<bool, Fail> {
    match step {
        RequestFrame(registration, now, handle) => {
            assert!(rt; part.frames_made() < 1000 && *now < 1_000_000);
            Ok(part.request_frame(*registration, Micros(*now))? == *handle)
        }
        RequestIdle(registration, handle) => {
            assert!(rt; part.idle_made() < 1000);
            Ok(part.request_idle(*registration)? == *handle)
        }
        FrameKeys(handles) => Ok(part.frame_keys()?.as_slice() == *handles),
        NextFrame(moment) => Ok(part.next_frame(false) == Some(Micros(*moment))),
    }
}

fn take_all(rt: &impl Abort, part: &mut PageFrames, steps: &[Step]) -> Result<(), Fail> {
    for (number, step) in steps.iter().enumerate() {
        expect_met(rt, take(rt, part, step)?, number);
    }
    Ok(())
}

#[test]
fn calls_that_take_memory_succeed(rt: HostRuntime) -> Result<(), Fail> {
    const STEPS: [Step; 4] = [
        RequestFrame(2, 40_000, 1),
        RequestIdle(4, 1),
        FrameKeys(&[1]),
        NextFrame(49_998),
    ];
    let mut part = PageFrames::new(rt.alloc(), Micros(16_666));
    let taken = take_all(&rt, &mut part, &STEPS);
    drop(part);
    taken
}
