//! How the calls are what a page of the model does. Laws alone, as functions with empty bodies.
ghost use Rattle.std.specs.Prelude.{ℕ, List, Option};
ghost use Rattle.page_types.specs.Tree.{Program};
ghost use Rattle.page_parts.specs.Setup.{Setup};
ghost use Rattle.page_parts.specs.Frames.{Callback};
ghost use Rattle.page_parts.specs.HostClosures.{HostClosure};
ghost use Rattle.page_model.specs.State.{Page, State};
ghost use Rattle.page_model.specs.Invoke.{Ways};
ghost use Rattle.page_frames.specs.Fields.{FrameFields};
ghost use Rattle.page_frames.specs.Laws.{FieldsAre, FirstAre, RequestFrameIs, WithoutFrameIs, CancelFrameIs, NextFrameIs, TakeFrameIs};
ghost use Rattle.page_frames.specs.Laws.{RequestIdleIs, IdleTimeoutIs, IdleCallbackIs, WithoutIdleIs, CancelIdleIs, DeadlineIs, IdleMomentIs};
ghost use Rattle.page_frames.specs.Laws.{PeriodBegunIs, StartPeriodIs, IdleStepIs, TimeRemainingIs};
ghost use Rattle.page_frames.specs.Laws.{InvokeAgainIs, FirstGoneIs, IdleCalledIs, FrameCallbackIs, RunFrameIs, TimedOutIs};

/// On every page the model's step on frame callbacks and rendering opportunities is the call's on the fields of this part, and then
/// the line or the task that goes with it.
pub fn frame_calls_are_steps_of_a_page()
    ensures fields { (f : FrameFields) (p : Page) → FieldsAre f p }
    ensures first { (program : Program) (setup : Setup) (hosts : List HostClosure) → FirstAre program setup hosts }
    ensures request { (r : ℕ) (p : Page) → RequestFrameIs r p }
    ensures without { (handle : ℕ) (p : Page) → WithoutFrameIs handle p }
    ensures cancel { (handle : ℕ) (p : Page) → CancelFrameIs handle p }
    ensures next { (p : Page) → NextFrameIs p }
    ensures take { (p : Page) → TakeFrameIs p }
{}

/// The same of idle callbacks: their requests, with the timeout that the page starts, their cancels and look-ups.
pub fn idle_calls_are_steps_of_a_page()
    ensures request { (ms r : ℕ) (p : Page) → RequestIdleIs ms r p }
    ensures timeout { (ms r : ℕ) (p : Page) → IdleTimeoutIs ms r p }
    ensures callback { (handle : ℕ) (p : Page) → IdleCallbackIs handle p }
    ensures without { (handle : ℕ) (p : Page) → WithoutIdleIs handle p }
    ensures cancel { (handle : ℕ) (p : Page) → CancelIdleIs handle p }
{}

/// The same of the moments of idle periods: their deadlines and starts.
pub fn idle_periods_are_those_of_a_page()
    ensures deadline { (start : ℕ) (p : Page) → DeadlineIs start p }
    ensures moment { (p : Page) → IdleMomentIs p }
    ensures begun { (end : ℕ) (p : Page) → PeriodBegunIs end p }
    ensures start { (p : Page) → StartPeriodIs p }
    ensures step { (p : Page) → IdleStepIs p }
    ensures remaining { (fixed : Option ℕ) (p : Page) → TimeRemainingIs fixed p }
{}

/// The callbacks that the model's page calls in frames, in idle periods and after idle timeouts are those that the calls take out, in
/// this order: the call, and then the invocation of what it answers.
pub fn callbacks_called_are_those_of_a_page()
    ensures frame_callback { (w : Ways) (t key : ℕ) (m : State) → FrameCallbackIs w t key m }
    ensures frame { (w : Ways) (t : ℕ) (m : State) → RunFrameIs w t m }
    ensures again { (p : Page) → InvokeAgainIs p }
    ensures first { (c : Callback) (others : List Callback) (p : Page) → FirstGoneIs c others p }
    ensures idle { (w : Ways) (m : State) → IdleCalledIs w m }
    ensures timed_out { (w : Ways) (handle : ℕ) (m : State) → TimedOutIs w handle m }
{}
