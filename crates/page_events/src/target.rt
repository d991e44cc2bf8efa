/// What events are fired at: the window, or a signal by its number.
#[derive(Clone, Copy, Debug, PartialEq, Eq)]
pub enum Target {
    Window,
    Signal(u32),
}
