ghost use Rattle.std.specs.Prelude.{◌≡◌, [], IfOk, OnOk, OnErr};
ghost use Rattle.page_parts.specs.Listeners.{add as with_listener, off as without_listener, snapshot, is_listening as is_live};
ghost use Rattle.page_events.specs.Seen.{seen_target};
ghost use Rattle.page_events.specs.Dispatching.{next_listening, behind_next};

use crate::dispatch::Dispatch;
use crate::index::{Kinds, Listed, put, registrations, take_out};
use crate::listener::kind_of;
use crate::{MemoryFault, Target};
use keyed_list::KeyedList;
use page_values::Str;
use std::alloc::Global;
use std::collections::{BTreeMap, VecDeque};
use std::marker::Model;

/// All listeners of a page, seen as their list in the order in which they were added (DOM, "Interface EventTarget").
///
/// A listener is a registration. It is found from its registration and from its target and name. So no call looks at a
/// listener that it does not name, and what it costs besides those is a look-up.
#[derive(Drop)]
pub struct Listeners {
    alloc: Global,
    listed: Listed,
    kinds: Kinds,
}

impl Model for Listeners {
    ghost use Rattle.std.specs.Prelude.{List};
    ghost use Rattle.page_parts.specs.Listeners as parts;
    ghost use Rattle.page_events.specs.Seen.{listeners_of};
    ghost use Rattle.page_events.specs.Indexed.{AreKinds};

    ghost Value = { List parts.Listener };

    ghost view = { λ listeners. listeners_of listeners.listed };

    ghost invariant = { λ listeners. AreKinds listeners.listed listeners.kinds };
}

impl Listeners {
    /// No listener. It keeps the allocator and takes no memory yet.
    pub fn new(alloc: Global) -> Listeners
        ensures { result ≡ [] }
    {
        Listeners {
            alloc,
            listed: KeyedList::new(alloc),
            kinds: BTreeMap::new(alloc),
        }
    }

    /// Adds a listener behind all others. It costs look-ups, whatever was added or removed before.
    ///
    /// An error leaves all as it was. Want of memory is also told where 2^64 - 1 listeners were added before.
    pub fn add(&mut self, target: Target, name: &Str, registration: u32) -> Result<(), MemoryFault>
        ensures added { OnOk result (self.new ≡ with_listener (seen_target target) name.now registration self.old) }
        ensures err { OnErr result (self.new ≡ self.old) }
    {
        let own = kind_of(self.alloc, target, name)?;
        let kind = kind_of(self.alloc, target, name)?;
        put(
            self.alloc,
            &mut self.listed,
            &mut self.kinds,
            registration,
            own,
            kind,
        )
    }

    /// Removes a listener. A dispatch that has begun does not call it any more. It costs look-ups.
    ///
    /// True exactly where it was live, and else nothing changes. Takes no memory.
    pub fn off(&mut self, registration: u32) -> bool
        ensures was { result ≡ is_live registration self.old }
        ensures gone { self.new ≡ without_listener registration self.old }
    {
        take_out(&mut self.listed, &mut self.kinds, registration)
    }

    /// Whether a listener is live: it was added, and not removed. It costs look-ups. Takes no memory.
    pub fn is_listening(&self, registration: u32) -> bool
        ensures { result ≡ is_live registration self.now }
    {
        self.listed.contains(u64::from(registration))
    }

    /// Whether a number is the registration of a live listener. Each registration is below 2^32. Takes no memory.
    pub fn is_listening_number(&self, number: u64) -> bool
        ensures { result ≡ is_live number self.now }
    {
        self.listed.contains(number)
    }

    /// Begins a dispatch to the listeners of this target and name as they are now, in the order in which they were added.
    ///
    /// It costs a look-up, and looks at these listeners alone.
    pub fn begin(&self, target: Target, name: &Str) -> Result<Dispatch, MemoryFault>
        ensures { IfOk result (λ dispatch. dispatch ≡ snapshot (seen_target target) name.now self.now) }
    {
        let kind = kind_of(self.alloc, target, name)?;
        let left = match self.kinds.get(&kind) {
            Some(own) => registrations(self.alloc, own)?,
            None => VecDeque::new(self.alloc),
        };
        Ok(Dispatch { left })
    }

    /// The next listener of a dispatch: the first one left that was not removed since the dispatch began.
    ///
    /// None exactly where no listener that is left is still live, and then the dispatch is over. Takes no memory. Each listener
    /// of the dispatch costs one look-up, whatever was added or removed since.
    pub fn next(&self, dispatch: &mut Dispatch) -> Option<u32>
        ensures registration { result ≡ next_listening self.now dispatch.old }
        ensures left { dispatch.new ≡ behind_next self.now dispatch.old }
    {
        while let Some(registration) = dispatch.left.pop_front() {
            if self.listed.contains(u64::from(registration)) {
                return Some(registration);
            }
        }
        None
    }
}
