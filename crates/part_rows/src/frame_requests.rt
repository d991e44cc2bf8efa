//! Frame callbacks: requested, cancelled, and called frame by frame.

use crate::rows::expect_met;
use raf_frames::Frames;
use std::alloc::Global;
use std::process::Abort;
use std::test::Fail;

// A call on the frames, and what it answers.
enum Step {
    // A registration, and its handle.
    Request(u32, u32),
    // A handle, and the registration that it had.
    Cancel(u32, Option<u32>),
    CancelNumber(u64, Option<u32>),
    // The handles in the map.
    Keys(&'static [u32]),
    Begin,
    Next(Option<u32>),
    IsEmpty(bool),
    Made(u32),
}

use Step::{Begin, Cancel, CancelNumber, IsEmpty, Keys, Made, Next, Request};

fn take(rt: &impl Abort, frames: &mut Frames, step: &Step) -> Result<bool, Fail> {
    match step {
        Request(registration, handle) => {
            assert!(rt; frames.made() < 1000);
            Ok(frames.request(*registration)? == *handle)
        }
        Cancel(handle, registration) => Ok(frames.cancel(*handle) == *registration),
        CancelNumber(n, registration) => Ok(frames.cancel_number(*n) == *registration),
        Keys(handles) => Ok(frames.keys()?.as_slice() == *handles),
        Begin => {
            frames.begin_frame()?;
            Ok(true)
        }
        Next(registration) => Ok(frames.next_in_frame() == *registration),
        IsEmpty(is_empty) => Ok(frames.is_empty() == *is_empty),
        Made(made) => Ok(frames.made() == *made),
    }
}

fn take_all(rt: &impl Abort, alloc: Global, steps: &[Step]) -> Result<(), Fail> {
    let mut frames = Frames::new(alloc);
    for (number, step) in steps.iter().enumerate() {
        expect_met(rt, take(rt, &mut frames, step)?, number);
    }
    Ok(())
}

#[test]
fn a_frame_sees_cancels_and_leaves_its_own_requests(rt: HostRuntime) -> Result<(), Fail> {
    const STEPS: [Step; 18] = [
        IsEmpty(true),
        Request(2, 1),
        Request(3, 2),
        Keys(&[1, 2]),
        Begin,
        Next(Some(2)),
        Keys(&[2]),
        Cancel(2, Some(3)),
        Cancel(2, None),
        CancelNumber(4_294_967_298, None),
        Request(4, 3),
        Next(None),
        IsEmpty(false),
        Begin,
        Next(Some(4)),
        Next(None),
        IsEmpty(true),
        Made(3),
    ];
    take_all(&rt, rt.alloc(), &STEPS)
}

#[test]
fn callbacks_stay_where_many_others_left(rt: HostRuntime) -> Result<(), Fail> {
    const STEPS: [Step; 14] = [
        Request(10, 1),
        Request(20, 2),
        Request(30, 3),
        Request(40, 4),
        Cancel(1, Some(10)),
        Cancel(3, Some(30)),
        Cancel(4, Some(40)),
        Request(50, 5),
        Cancel(3, None),
        Begin,
        Next(Some(20)),
        Next(Some(50)),
        Next(None),
        Made(5),
    ];
    take_all(&rt, rt.alloc(), &STEPS)
}
