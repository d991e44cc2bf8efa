//! What a chooser sees.

use page_base::Source;

/// The number of the first runnable task of each source, None for a source without one. The sources stand in the order
/// user, render, sched, timer, net, dom, idle.
#[derive(Clone, Copy, Debug, PartialEq, Eq)]
pub struct View {
    pub first: [Option<u64>; 7],
}

/// The sources in the order that decides where a policy names none.
pub(crate) const DEFAULT_LIST: [Source; 7] = [
    Source::User,
    Source::Render,
    Source::Sched,
    Source::Timer,
    Source::Net,
    Source::Dom,
    Source::Idle,
];
