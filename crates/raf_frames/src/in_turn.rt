//! A frame callback by callback, and the frame as one fold over keys.
ghost use Rattle.std.specs.Prelude.{◌≡◌, Some};
ghost use Rattle.page_parts.specs.Frames.{Callback, callback_in, cancel};
ghost use Rattle.raf_frames.specs.FrameInProgress.{FrameInProgress, IsNext, after_next};
ghost use Rattle.raf_frames.specs.InTurn.{Visits, AreInTurn, GoesByNext};

/// The law that taking the callbacks of a frame one after another is visiting the keys of its start in turn, whatever the calls
/// between do to the map: what the next callback is and what is left behind it tell the rest of the visits from every state
/// that has this map. The next callback is the one that the map has at its handle, and taking it takes that handle out.
///
/// A page visits keys by its own definition, with its own states. It does nothing when it runs.
pub fn callbacks_one_by_one_are_the_frame<S, D>()
    ensures visits { (v : Visits S D) → AreInTurn v → GoesByNext v }
    ensures next { (f : FrameInProgress) (c : Callback) → IsNext f c → callback_in f.map.callbacks c.handle ≡ Some c }
    ensures taken { (f : FrameInProgress) (c : Callback) → IsNext f c → (after_next f).map ≡ cancel c.handle f.map }
{}
