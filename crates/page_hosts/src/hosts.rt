ghost use Rattle.std.specs.Prelude.{◌≡◌, ◌≤◌, ◌^◌, length, map, is_some, is_none, slice_get, IsTrue, IfErr, IfOk, OnOk, OnErr};
ghost use Rattle.std.specs.List.{list_all};
ghost use Rattle.page_types.specs.Counts.{refusals_after};
ghost use Rattle.host_jobs.specs.Closures.{meets_at, fired_at};
ghost use Rattle.host_jobs.specs.KeptAnswers.{FollowsKept};
ghost use Rattle.page_model.specs.Operations.{fitting};
ghost use Rattle.page_model.specs.Turns.{not_dropped};
ghost use Rattle.page_hosts.specs.Hosts.{at_first, closure_in, is_fresh_at, with_asked, with_dropped, fire_at, IsUnfired, IsQueued, is_unqueued, unasked};

use crate::deferred::DeferredPort;
use crate::{HostPort, MemoryFault, NoHost};
use std::alloc::Global;
use std::collections::BTreeSet;
use std::marker::Model;

/// The host closures of a page, around the port that answers for them.
///
/// It is seen as the closures in the order of their numbers, each with its mark (Live, Queued once the page asked it, Fired or
/// Dropped), the same as the port has them so far, the answers that the port still keeps where it tells them, and how often the
/// port has refused. The port drops a closure when it is handed back, and not before. A call costs what its port's costs, and a
/// logarithm of the number of closures that were asked.
#[derive(Drop)]
pub struct PageHosts<P: HostPort> {
    port: DeferredPort<P>,
    // Those that were asked and have not answered.
    asked: BTreeSet<u32>,
}

impl<P: HostPort> Model for PageHosts<P> {
    ghost use Rattle.std.specs.BTreeSet.{contains};
    ghost use Rattle.std.specs.Ordering.{nat_cmp};
    ghost use Rattle.host_jobs.specs.Overlay.{overlaid};
    ghost use Rattle.page_hosts.specs.Hosts.{Hosts, AreHeld};

    ghost Value = { Hosts };

    ghost view = { λ hosts. record {
      closures = overlaid (contains nat_cmp hosts.asked) hosts.port.closures;
      at_port = hosts.port.at_port;
      kept = hosts.port.kept;
      refusals = hosts.port.refusals;
    } };

    ghost invariant = { λ hosts. AreHeld (contains nat_cmp hosts.asked) hosts.port.closures };
}

impl<P: HostPort> PageHosts<P> {
    /// The closures of a port, none of them asked so far. The port has a number of a `u32` for each, and tells none as queued,
    /// which is for the page alone.
    ///
    /// Want of memory is the one error, and hands the port back as it was. It costs what asking the port of each closure costs.
    pub fn new(alloc: Global, port: P) -> Result<PageHosts<P>, P>
        requires count { length (P.closures port) ≤ 2 ^ 32 }
        requires unqueued { IsTrue (list_all is_unqueued (P.closures port)) }
        ensures first { IfOk result (λ hosts. hosts ≡ at_first (P.closures port) (P.kept port) (P.refusals port)) }
        ensures err { IfErr result (λ back. back ≡ port) }
    {
        Ok(PageHosts {
            port: DeferredPort::new(alloc, port)?,
            asked: BTreeSet::new(alloc),
        })
    }

    /// Whether there is a closure of the number `k` that a script gives, with `x` in its range. Takes no memory.
    pub fn takes(&self, k: i64, x: i64) -> bool
        ensures { result ≡ is_some (fitting (closure_in self.now.closures k) x) }
    {
        match u32::try_from(k) {
            Ok(k) => self.port.fits(k, x),
            Err(_) => false,
        }
    }

    /// Whether there is a closure `k` that was never asked, fired or dropped. Takes no memory.
    pub fn is_fresh(&self, k: u32) -> bool
        ensures { result ≡ is_fresh_at self.now.closures k }
    {
        self.port.live(k) && !self.asked.contains(&k)
    }

    /// Whether closure `k` was asked and has not answered: it was not fired. Takes no memory.
    pub fn is_asked(&self, k: u32) -> bool
        ensures unfired { IsTrue result → IsUnfired self.now.closures k }
        ensures queued { IsQueued self.now.closures k → IsTrue result }
    {
        self.asked.contains(&k)
    }

    /// Marks closure `k` as asked. Want of memory is the only error; then nothing has changed.
    pub fn ask(&mut self, k: u32) -> Result<(), MemoryFault>
        requires { IsTrue (is_fresh_at self.old.closures k) }
        ensures ok { OnOk result (self.new ≡ with_asked k self.old) }
        ensures err { OnErr result (self.new ≡ self.old) }
    {
        self.asked.insert(k)?;
        Ok(())
    }

    /// Whether closure `k`, which was not fired, was dropped or is not there. Takes no memory.
    pub fn is_dropped(&self, k: u32) -> bool
        requires { IsUnfired self.now.closures k }
        ensures { result ≡ is_none (not_dropped (slice_get self.now.closures k)) }
    {
        !self.port.live(k)
    }

    /// The answer of closure `k`, neither fired nor dropped before, on a number of its range, by the relation of its kind; then
    /// it is fired.
    ///
    /// It is the port's answer: where the kept answers are told, the next of them. It refuses exactly where the count of
    /// refusals rises, and where the kept answers are told, exactly where the next is absent or does not meet the relation of
    /// the closure on `x`. Then nothing else changes. It takes the memory of its port's `fire_live`.
    pub fn fire(&mut self, k: u32, x: i64) -> Result<Result<i64, i64>, NoHost>
        requires unfired { IsUnfired self.old.closures k }
        requires undropped { IsTrue (is_some (not_dropped (slice_get self.old.closures k))) }
        requires fits { IsTrue (is_some (fitting (slice_get self.old.closures k) x)) }
        ensures met { IfOk result (λ answer. IsTrue (meets_at self.old.closures k x answer)) }
        ensures marks { OnOk result (self.new.closures
            ≡ fire_at k (slice_get self.old.closures k) self.old.closures) }
        ensures at_port { OnOk result (self.new.at_port ≡ fired_at self.old.at_port k) }
        ensures same { OnErr result (self.new.closures ≡ self.old.closures) }
        ensures port_same { OnErr result (self.new.at_port ≡ self.old.at_port) }
        ensures kept { FollowsKept (meets_at self.old.closures k x) self.old.kept result self.new.kept }
        ensures refused { self.new.refusals ≡ refusals_after self.old.refusals result }
    {
        match self.port.fire_live(k, x) {
            Ok(answer) => {
                self.asked.remove(&k);
                Ok(answer)
            }
            Err(refused) => Err(refused),
        }
    }

    /// Drops closure `k` uncalled, where it is there; it was not fired. Its port does so when it is handed back. Takes no memory.
    pub fn drop_closure(&mut self, k: u32)
        requires { IsUnfired self.old.closures k }
        ensures { self.new ≡ with_dropped k self.old }
    {
        self.port.give_up(k);
    }

    /// The port, which drops the closures that were dropped here. One that was asked and neither fired nor dropped is live there.
    ///
    /// Takes no memory, and costs a look at each closure.
    pub fn into_port(self) -> P
        ensures closures { P.closures result ≡ map unasked self.closures }
        ensures kept { P.kept result ≡ self.kept }
        ensures refused { P.refusals result ≡ self.refusals }
    {
        let PageHosts { port, asked: _ } = self;
        port.into_port()
    }

    /// The port as it is so far, which has fired what was fired here, and has dropped nothing. Takes no memory.
    pub fn into_port_so_far(self) -> P
        ensures closures { P.closures result ≡ self.at_port }
        ensures kept { P.kept result ≡ self.kept }
        ensures refused { P.refusals result ≡ self.refusals }
    {
        let PageHosts { port, asked: _ } = self;
        port.into_port_so_far()
    }
}
