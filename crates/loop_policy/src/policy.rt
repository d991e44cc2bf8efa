//! By which policy a source is chosen.

use page_base::Source;

/// Which task source is served. HTML, "Event loops: processing model", leaves it open.
#[derive(Clone, Copy, Debug, PartialEq, Eq)]
pub enum Policy {
    /// The source whose first task has the least number.
    Fifo,
    /// The first source of the list that has a runnable task.
    Rank([Source; 7]),
    /// Among the sources that were passed over so many times or more, the one that was most often; where there is none,
    /// the first one of the default list that has a runnable task.
    Fair(u32),
}
