use raf_frames::{Frames, MemoryFault};
use std::alloc::Global;

/// Requests frame callbacks, and takes them one after another in one frame.
pub(crate) fn taken(alloc: Global, n: u32) -> Result<u32, MemoryFault> {
    let mut frames = Frames::new(alloc);
    for i in 0..n {
        frames.request(i)?;
    }
    frames.begin_frame()?;
    let mut taken = 0u32;
    for _ in 0..n {
        if frames.next_in_frame().is_some() {
            taken = taken.saturating_add(1);
        }
    }
    Ok(taken)
}
