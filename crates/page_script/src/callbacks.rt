//! The functions that a registration calls.

ghost use Rattle.std.specs.Prelude.{◌≡◌, None, IfOk};
ghost use Rattle.std.specs.Option.{option_map};
ghost use Rattle.page_script.specs.Seen.{first_seen, second_seen};
ghost use Rattle.page_values.specs.Seen.{seen_func};
ghost use Rattle.page_script.specs.Calls.{LendsSeen};

use page_values::{Func, MemoryFault};
use std::alloc::Global;

/// The callbacks of a registration: of most the first alone, and of the handlers of a promise either or both.
///
/// There are as many as registrations, which a page keeps to its end. So both stand in a box, and one takes no more than itself.
#[derive(Drop)]
pub enum Callbacks {
    Absent,
    First(Func),
    Second(Func),
    Both(Box<BothCallbacks>),
}

/// The first and the second callback of a registration that has both.
#[derive(Drop)]
pub struct BothCallbacks {
    pub first: Func,
    pub second: Func,
}

impl Callbacks {
    /// The first callback alone, where there is one. Takes no memory.
    pub fn first_alone(first: Option<Func>) -> Callbacks
        ensures the_first { first_seen result ≡ option_map seen_func first }
        ensures the_second { second_seen result ≡ None }
    {
        match first {
            Some(first) => Callbacks::First(first),
            None => Callbacks::Absent,
        }
    }

    /// The first callback and the second, each where there is one. The one error is want of memory, which two can want.
    pub fn of_two(
        alloc: Global,
        first: Option<Func>,
        second: Option<Func>,
    ) -> Result<Callbacks, MemoryFault>
        ensures the_first { IfOk result (λ made. first_seen made ≡ option_map seen_func first) }
        ensures the_second { IfOk result (λ made. second_seen made ≡ option_map seen_func second) }
    {
        match (first, second) {
            (Some(first), Some(second)) => {
                let both = Box::new(alloc, BothCallbacks { first, second })?;
                Ok(Callbacks::Both(both))
            }
            (None, Some(second)) => Ok(Callbacks::Second(second)),
            (first, None) => Ok(Callbacks::first_alone(first)),
        }
    }

    /// The first callback, none exactly where there is none. Takes no memory.
    pub fn first(&self) -> Option<&Func>
        ensures { LendsSeen seen_func result (first_seen self.now) }
    {
        match self {
            Callbacks::First(first) => Some(first),
            Callbacks::Both(both) => Some(&both.first),
            _ => None,
        }
    }

    /// The second callback, none exactly where there is none. Takes no memory.
    pub fn second(&self) -> Option<&Func>
        ensures { LendsSeen seen_func result (second_seen self.now) }
    {
        match self {
            Callbacks::Second(second) => Some(second),
            Callbacks::Both(both) => Some(&both.second),
            _ => None,
        }
    }
}
