//! A host port whose closures are dropped when it is handed back.

ghost use Rattle.std.specs.Prelude.{◌≡◌, ◌≤◌, ◌^◌, length, vec_len, IsTrue, IfErr, IfOk, OnErr, OnOk};
ghost use Rattle.page_types.specs.Counts.{refusals_after};
ghost use Rattle.host_jobs.specs.Closures.{is_live_at, takes_at, meets_at, fired_at, dropped_at};
ghost use Rattle.host_jobs.specs.KeptAnswers.{FollowsKept};
ghost use Rattle.page_hosts.specs.Hosts.{at_first};
ghost use Rattle.page_hosts.specs.Deferred.{given_up_in, is_given_up, Covers};

use crate::{HostPort, NoHost};
use std::alloc::{AllocError, Global};
use std::marker::Model;

/// A host port that a page works with. A closure that is given up is told as dropped from then on; the port itself drops it when it is
/// handed back at the end of a run.
///
/// It is seen as its closures, the same as the port has them so far, the answers that the port still keeps where it tells them, and how
/// often the port has refused. A call costs what its port's costs.
#[derive(Drop)]
pub(crate) struct DeferredPort<P: HostPort> {
    port: P,
    // Of each closure, by its number, whether it was given up.
    given_up: Vec<bool>,
}

impl<P: HostPort> Model for DeferredPort<P> {
    ghost use Rattle.std.specs.Prelude.{vec_len};
    ghost use Rattle.page_hosts.specs.Hosts.{Hosts};
    ghost use Rattle.page_hosts.specs.Deferred.{given_up_in, Covers};

    ghost Value = { Hosts };

    ghost view = { λ deferred. record {
      closures = given_up_in deferred.given_up.items (P.closures deferred.port);
      at_port = P.closures deferred.port;
      kept = P.kept deferred.port;
      refusals = P.refusals deferred.port;
    } };

    ghost invariant = { λ deferred. Covers (vec_len deferred.given_up) (P.closures deferred.port) };
}

impl<P: HostPort> DeferredPort<P> {
    /// The port, of whose closures none was given up. The port has a number of a `u32` for each.
    ///
    /// Want of memory is the one error, and hands the port back as it was. It costs what asking the port of each closure costs.
    pub(crate) fn new(alloc: Global, port: P) -> Result<DeferredPort<P>, P>
        requires { length (P.closures port) ≤ 2 ^ 32 }
        ensures ok { IfOk result (λ deferred. deferred ≡ at_first (P.closures port) (P.kept port) (P.refusals port)) }
        ensures err { IfErr result (λ back. back ≡ port) }
    {
        match none_given_up(alloc, &port) {
            Ok(given_up) => Ok(DeferredPort { port, given_up }),
            Err(_) => Err(port),
        }
    }

    /// Whether there is a closure `k` that was neither fired nor dropped. Takes no memory.
    pub(crate) fn live(&self, k: u32) -> bool
        ensures { result ≡ is_live_at self.now.closures k }
    {
        self.port.live(k) && !is_marked(&self.given_up, k)
    }

    /// Whether there is a closure `k` with `x` in its range. Takes no memory.
    pub(crate) fn fits(&self, k: u32, x: i64) -> bool
        ensures { result ≡ takes_at self.now.closures k x }
    {
        self.port.fits(k, x)
    }

    /// The answer of a live closure on a number of its range, as its port gives it; then it is fired, at the port too.
    pub(crate) fn fire_live(&mut self, k: u32, x: i64) -> Result<Result<i64, i64>, NoHost>
        requires live { IsTrue (is_live_at self.old.closures k) }
        requires fits { IsTrue (takes_at self.old.closures k x) }
        ensures met { IfOk result (λ answer. IsTrue (meets_at self.old.closures k x answer)) }
        ensures marks { OnOk result (self.new.closures ≡ fired_at self.old.closures k) }
        ensures at_port { OnOk result (self.new.at_port ≡ fired_at self.old.at_port k) }
        ensures same { OnErr result (self.new.closures ≡ self.old.closures) }
        ensures port_same { OnErr result (self.new.at_port ≡ self.old.at_port) }
        ensures kept { FollowsKept (meets_at self.old.closures k x) self.old.kept result self.new.kept }
        ensures refused { self.new.refusals ≡ refusals_after self.old.refusals result }
    {
        self.port.fire_live(k, x)
    }

    /// Gives closure `k` up: it is dropped where it is live. Takes no memory.
    pub(crate) fn give_up(&mut self, k: u32)
        ensures { self.new ≡ record self.old { closures = dropped_at self.old.closures k } }
    {
        let index = k as usize;
        if index < self.given_up.len() {
            self.given_up[index] = true;
        }
    }

    /// The port, which drops what was given up. Takes no memory, and costs a look at each closure.
    pub(crate) fn into_port(self) -> P
        ensures closures { P.closures result ≡ self.closures }
        ensures kept { P.kept result ≡ self.kept }
        ensures refused { P.refusals result ≡ self.refusals }
    {
        let DeferredPort { port, given_up } = self;
        let mut port = port;
        for (k, is_given_up) in given_up.iter().enumerate() {
            if *is_given_up {
                port.give_up(k as u32);
            }
        }
        port
    }

    /// The port as it is so far: nothing is dropped. Takes no memory.
    pub(crate) fn into_port_so_far(self) -> P
        ensures closures { P.closures result ≡ self.at_port }
        ensures kept { P.kept result ≡ self.kept }
        ensures refused { P.refusals result ≡ self.refusals }
    {
        let DeferredPort { port, given_up: _ } = self;
        port
    }
}

// Whether closure `k` is marked as given up. Takes no memory.
fn is_marked(given_up: &[bool], k: u32) -> bool
    ensures { result ≡ is_given_up given_up.now k }
{
    let index = k as usize;
    index < given_up.len() && given_up[index]
}

// Of each closure of a port that it was not given up.
fn none_given_up<P: HostPort>(alloc: Global, port: &P) -> Result<Vec<bool>, AllocError>
    requires { length (P.closures port.now) ≤ 2 ^ 32 }
    ensures none { IfOk result (λ given_up. given_up_in given_up.items (P.closures port.now) ≡ P.closures port.now) }
    ensures covers { IfOk result (λ given_up. Covers (vec_len given_up) (P.closures port.now)) }
{
    let mut given_up = Vec::new(alloc);
    for k in 0..=u32::MAX {
        if !port.known(k) {
            return Ok(given_up);
        }
        given_up.push(false)?;
    }
    Ok(given_up)
}
