ghost use Rattle.std.specs.Prelude.{◌≡◌, ◌+◌, ◌^◌, ◌<◌, ◌≤◌, [], length, Some, IfOk, IfSome, IfNone, OnOk, OnErr};
ghost use Rattle.std.specs.Option.{option_copied};
ghost use Rattle.page_parts.specs.Words.{with_numbered, and_last, has_number};
ghost use Rattle.page_parts.specs.AbortGraph as parts;
ghost use Rattle.page_parts.specs.AbortGraph.{the_signal, reason_of, fresh_signal};
ghost use Rattle.abort_graph.specs.Seen.{signal_seen};
ghost use Rattle.abort_graph.specs.Dependents.{new_signal, with_dependents, but_last, HasGone, HasLeft};

use crate::numbers::Numbers;
use crate::signal::Signal;
use crate::{Marked, MemoryFault};
use std::alloc::Global;
use std::marker::Model;

/// All abort signals of a page, seen as the list of their records in the order of their numbers, which count from 1 (DOM,
/// "Interface AbortSignal").
///
/// A reason is what the page hands in for one. Numbers that are handed in are those of signals that were made here.
#[derive(Drop)]
pub struct Signals<R> {
    alloc: Global,
    signals: Vec<Signal<R>>,
}

impl<R> Model for Signals<R> {
    ghost use Rattle.page_parts.specs.AbortGraph.{Signals as Records};

    ghost Value = { Records R };

    ghost use Rattle.abort_graph.specs.Seen.{signals_of};

    ghost view = { λ signals. signals_of signals.signals.items };

    ghost use Rattle.std.specs.Prelude.{◌<◌, ◌^◌};
    ghost use Rattle.std.specs.Vec.{vec_len};

    ghost invariant = { λ signals. vec_len signals.signals < 2 ^ 32 };
}

impl<R: Copy> Signals<R> {
    /// No signal. It keeps the allocator and takes no memory yet.
    pub fn new(alloc: Global) -> Signals<R>
        ensures { result ≡ [] }
    {
        Signals {
            alloc,
            signals: Vec::new(alloc),
        }
    }

    /// How many signals were made, which is the number of the last one. Takes no memory.
    pub fn made(&self) -> u32
        ensures { result ≡ length self.now }
    {
        self.signals.len() as u32
    }

    /// Makes a signal and answers its number, which has to be below 2^32. For want of memory nothing changes.
    pub fn make(&mut self) -> Result<u32, MemoryFault>
        requires { length self.old + 1 < 2 ^ 32 }
        ensures number { IfOk result (λ s. s ≡ length self.old + 1) }
        ensures made { OnOk result (self.new ≡ parts.make self.old) }
        ensures err { OnErr result (self.new ≡ self.old) }
    {
        self.put(None, Vec::new(self.alloc))
    }

    /// Makes a signal that is aborted already, and answers its number, which has to be below 2^32 (DOM, "Interface
    /// AbortSignal": abort). For want of memory nothing changes.
    pub fn make_aborted(&mut self, reason: R) -> Result<u32, MemoryFault>
        requires { length self.old + 1 < 2 ^ 32 }
        ensures number { IfOk result (λ s. s ≡ length self.old + 1) }
        ensures made { OnOk result (self.new ≡ parts.make_aborted reason self.old) }
        ensures err { OnErr result (self.new ≡ self.old) }
    {
        self.put(Some(reason), Vec::new(self.alloc))
    }

    /// Makes a signal that depends on these, and answers its number, which has to be below 2^32 (DOM, "Interface
    /// AbortSignal": create a dependent abort signal).
    ///
    /// Where one of these is aborted it takes the reason of the first such one and depends on none. Else it depends on the
    /// signals among these that depend on none, and on those that the others depend on, each once, in order. For want of
    /// memory nothing changes.
    pub fn any(&mut self, of: &[u32]) -> Result<u32, MemoryFault>
        requires { length self.old + 1 < 2 ^ 32 }
        ensures number { IfOk result (λ s. s ≡ length self.old + 1) }
        ensures made { OnOk result (self.new ≡ parts.any of.now self.old) }
        ensures err { OnErr result (self.new ≡ self.old) }
    {
        match self.first_reason(of) {
            Some(reason) => self.make_aborted(reason),
            None => self.depend_on(of),
        }
    }

    /// Sets the abort reason on a signal and on each of its dependent signals that is not aborted, and answers those, the
    /// signal first. Their abort steps are to run in this order (DOM, "Interface AbortSignal": signal abort).
    ///
    /// None of them, and no change, exactly where the signal is aborted. For want of memory nothing changes.
    pub fn abort_mark(&mut self, s: u32, reason: R) -> Result<Marked, MemoryFault>
        ensures marked { IfOk result (λ marked. marked ≡ parts.marked s self.old) }
        ensures set { OnOk result (self.new ≡ parts.with_reason reason (parts.marked s self.old) self.old) }
        ensures err { OnErr result (self.new ≡ self.old) }
    {
        let signals = self.to_mark(s)?;
        self.set_reasons(&signals, reason);
        Ok(Marked { signals })
    }

    /// Adds an abort algorithm to a signal, behind its others. For want of memory nothing changes.
    ///
    /// It costs look-ups, whatever was added or removed before. Want of memory is also told where 2^64 - 1 algorithms were added
    /// to this signal since they were taken.
    pub fn add_algorithm(&mut self, s: u32, a: u64) -> Result<(), MemoryFault>
        ensures added { OnOk result (self.new ≡ parts.add_algorithm s a self.old) }
        ensures err { OnErr result (self.new ≡ self.old) }
    {
        let Some(at) = place_of(s, self.signals.len()) else {
            return Ok(());
        };
        self.signals[at].algorithms.add(a)?;
        Ok(())
    }

    /// Removes an abort algorithm of a signal. The others stay in their order.
    ///
    /// True exactly where it was among them, and else nothing changes. Takes no memory. It costs look-ups.
    pub fn remove_algorithm(&mut self, s: u32, a: u64) -> bool
        ensures was { result ≡ has_number (the_signal self.old s).algorithms a }
        ensures gone { self.new ≡ parts.remove_algorithm s a self.old }
    {
        let Some(at) = place_of(s, self.signals.len()) else {
            return false;
        };
        self.signals[at].algorithms.remove(a)
    }

    /// Hands over the abort algorithms of a signal, in the order in which they were added, and keeps none. Takes no memory.
    pub fn take_algorithms(&mut self, s: u32) -> Vec<u64>
        ensures all { result.items ≡ (the_signal self.old s).algorithms }
        ensures none { self.new ≡ parts.with_algorithms s [] self.old }
    {
        let Some(at) = place_of(s, self.signals.len()) else {
            return Vec::new(self.alloc);
        };
        self.signals[at].algorithms.take()
    }

    /// The abort reason of a signal, none exactly where it is not aborted. Takes no memory.
    pub fn reason(&self, s: u32) -> Option<&R>
        ensures { option_copied result ≡ reason_of self.now s }
    {
        match self.signal(s) {
            Some(signal) => signal.reason.as_ref(),
            None => None,
        }
    }

    // The signal with a number, none exactly where there is none.
    fn signal(&self, s: u32) -> Option<&Signal<R>>
        ensures there { IfSome result (λ q. the_signal self.now s ≡ signal_seen q.now) }
        ensures none { IfNone result (the_signal self.now s ≡ fresh_signal) }
    {
        let at = place_of(s, self.signals.len())?;
        Some(&self.signals[at])
    }

    // A new signal, at the end.
    fn put(&mut self, reason: Option<R>, sources: Vec<u32>) -> Result<u32, MemoryFault>
        requires { length self.old + 1 < 2 ^ 32 }
        ensures number { IfOk result (λ s. s ≡ length self.old + 1) }
        ensures made { OnOk result (self.new ≡ and_last self.old (new_signal reason sources.items)) }
        ensures err { OnErr result (self.new ≡ self.old) }
    {
        let number = self.made() + 1;
        let signal = Signal::new(self.alloc, reason, sources);
        self.signals.push(signal)?;
        Ok(number)
    }

    // The first reason among those of these signals.
    fn first_reason(&self, of: &[u32]) -> Option<R>
        ensures { result ≡ parts.first_reason self.now of.now }
    {
        for s in of {
            if let Some(reason) = self.reason(*s) {
                return Some(*reason);
            }
        }
        None
    }

    // A signal that depends on these, none of which is aborted.
    fn depend_on(&mut self, of: &[u32]) -> Result<u32, MemoryFault>
        requires { length self.old + 1 < 2 ^ 32 }
        ensures number { IfOk result (λ s. s ≡ length self.old + 1) }
        ensures made { OnOk result (self.new ≡ parts.depend_on (parts.all_sources self.old [] of.now) self.old) }
        ensures err { OnErr result (self.new ≡ self.old) }
    {
        let sources = self.all_sources(of)?;
        self.put_dependent(&sources)
    }

    // A signal that depends on these sources.
    fn put_dependent(&mut self, sources: &[u32]) -> Result<u32, MemoryFault>
        requires { length self.old + 1 < 2 ^ 32 }
        ensures number { IfOk result (λ s. s ≡ length self.old + 1) }
        ensures made { OnOk result (self.new ≡ parts.depend_on sources.now self.old) }
        ensures err { OnErr result (self.new ≡ self.old) }
    {
        let kept = Vec::from_slice(self.alloc, sources)?;
        let number = self.put(None, kept)?;
        if let Err(fault) = self.join(number, sources) {
            self.drop_last();
            return Err(fault);
        }
        Ok(number)
    }

    // The signal that was made last goes.
    fn drop_last(&mut self)
        ensures { HasGone self.old self.new }
    {
        self.signals.pop();
    }

    // The sources through all of these signals, each once, in order.
    fn all_sources(&self, of: &[u32]) -> Result<Vec<u32>, MemoryFault>
        ensures { IfOk result (λ sources. sources.items ≡ parts.all_sources self.now [] of.now) }
    {
        let mut known = Numbers::new(self.alloc);
        for s in of {
            self.add_sources(*s, &mut known)?;
        }
        Ok(known.into_list())
    }

    // Adds the sources through a signal.
    fn add_sources(&self, s: u32, known: &mut Numbers) -> Result<(), MemoryFault>
        ensures { OnOk result (known.new ≡ parts.and_new known.old (parts.sources_through self.now s)) }
    {
        let sources = self.sources(s);
        if sources.is_empty() {
            return known.add(s);
        }
        for source in sources {
            known.add(*source)?;
        }
        Ok(())
    }

    // The source signals of a signal.
    fn sources(&self, s: u32) -> &[u32]
        ensures { result.now ≡ (the_signal self.now s).sources }
    {
        match self.signal(s) {
            Some(signal) => &signal.sources,
            None => &[],
        }
    }

    // The dependent signals of a signal.
    fn dependents(&self, s: u32) -> &[u32]
        ensures { result.now ≡ (the_signal self.now s).dependents }
    {
        match self.signal(s) {
            Some(signal) => &signal.dependents,
            None => &[],
        }
    }

    // A dependent signal joins those of each of these.
    fn join(&mut self, d: u32, sources: &[u32]) -> Result<(), MemoryFault>
        ensures joined { OnOk result (self.new ≡ parts.with_dependent d sources.now self.old) }
        ensures err { OnErr result (self.new ≡ self.old) }
    {
        for joined in 0..sources.len() {
            if let Err(fault) = self.add_dependent(sources[joined], d) {
                self.leave(&sources[..joined]);
                return Err(fault);
            }
        }
        Ok(())
    }

    // The last dependent signal of each of these leaves, that of the last one first.
    fn leave(&mut self, sources: &[u32])
        ensures { HasLeft sources.now self.old self.new }
    {
        let mut left = sources.len();
        while left > 0 {
            left -= 1;
            self.drop_dependent(sources[left]);
        }
    }

    fn add_dependent(&mut self, s: u32, d: u32) -> Result<(), MemoryFault>
        ensures added { OnOk result (self.new ≡ with_dependents s (and_last (the_signal self.old s).dependents d) self.old) }
        ensures err { OnErr result (self.new ≡ self.old) }
    {
        if let Some(at) = place_of(s, self.signals.len()) {
            self.signals[at].dependents.push(d)?;
        }
        Ok(())
    }

    fn drop_dependent(&mut self, s: u32)
        ensures { self.new ≡ with_dependents s (but_last (the_signal self.old s).dependents) self.old }
    {
        if let Some(at) = place_of(s, self.signals.len()) {
            self.signals[at].dependents.pop();
        }
    }

    // The signals that an abort sets the reason on.
    fn to_mark(&self, s: u32) -> Result<Vec<u32>, MemoryFault>
        ensures { IfOk result (λ signals. signals.items ≡ parts.marked s self.now) }
    {
        let mut signals = Vec::new(self.alloc);
        if self.reason(s).is_some() {
            return Ok(signals);
        }
        signals.push(s)?;
        let dependents = self.dependents(s);
        for dependent in dependents {
            if self.reason(*dependent).is_none() {
                signals.push(*dependent)?;
            }
        }
        Ok(signals)
    }

    fn set_reasons(&mut self, signals: &[u32], reason: R)
        ensures { self.new ≡ parts.with_reason reason signals.now self.old }
    {
        for s in signals {
            self.set_reason(*s, reason);
        }
    }

    fn set_reason(&mut self, s: u32, reason: R)
        ensures { self.new ≡ with_numbered self.old s (record (the_signal self.old s) { reason = Some reason }) }
    {
        if let Some(at) = place_of(s, self.signals.len()) {
            self.signals[at].reason = Some(reason);
        }
    }
}

// Where the signal with a number is, of so many. None exactly where there is none.
fn place_of(s: u32, made: usize) -> Option<usize>
    ensures there { IfSome result (λ at. (s ≡ at + 1) × (at < made)) }
    ensures none { IfNone result (1 ≤ s → made < s) }
{
    let at = s.checked_sub(1)? as usize;
    if at < made { Some(at) } else { None }
}
