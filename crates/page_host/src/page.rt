//! A page, and its face to the script machine.

use crate::PageStop;
use crate::stop::stopped_by;
use lang_ast::{Host, HostStep, Op, Outcome};
use page_base::Micros;
use page_hosts::HostPort;
use page_operations::{answer, gives_value, go_on, known_value};
use page_state::PageState;
use page_values::Value;
use std::marker::Model;
use std::snapshot::Snapshot;
use std::sync::ledger::Ledger;
use trace_text::{Lines, NoLine};

/// A page of one window (HTML, "Event loops"): all that it keeps, its host port, its lines and its fuel.
///
/// It is seen as the model's page without events; each call hands its lines on at once. It is the host of the script machine.
#[derive(Drop)]
pub struct Page<P: HostPort, L: Lines, M: Ledger> {
    pub(crate) state: PageState<P, M>,
    pub(crate) lines: L,
    // the lines as they stood when the script machine was called last
    pub(crate) since: Snapshot<L>,
    pub(crate) functions: usize,
    pub(crate) fuel: u64,
    pub(crate) until: Micros,
    pub(crate) stopped: Option<NoLine>,
    pub(crate) stops: u64,
}

impl<P: HostPort, L: Lines, M: Ledger> Model for Page<P, L, M> {
    ghost use Rattle.page_host.specs.PageNow.{PageNow, IsWhole};
    ghost use Rattle.std.specs.Coded.{codes};
    ghost use Rattle.page_state.specs.Codes.{coded_standing};

    ghost Value = { PageNow L };

    ghost coded = { Prim.hlevel (codes, coded_standing) };

    ghost view = { λ page. record {
      state = page.state;
      lines = page.lines;
      since = page.since.value;
      functions = page.functions;
      fuel = page.fuel;
      until = page.until.0;
      stopped = page.stopped;
      stops = page.stops;
    } };

    ghost invariant = { λ page. IsWhole L.seen (record {
      state = page.state;
      lines = page.lines;
      since = page.since.value;
      functions = page.functions;
      fuel = page.fuel;
      until = page.until.0;
      stopped = page.stopped;
      stops = page.stops;
    }) };
}

impl<P: HostPort, L: Lines, M: Ledger> Host for Page<P, L, M> {
    ghost use Rattle.page_host.specs.Marked.{Marked, LeavesMarked, marked_rules};
    ghost use Rattle.page_host.specs.PageNow.{host_now, callbacks_left};

    type Stop = PageStop;

    ghost Told = { Marked L.Told };

    ghost now = { λ page. host_now L.seen page };

    ghost rules = { marked_rules L.keeping };

    ghost leaves = { LeavesMarked L.keeping };

    ghost left = { callbacks_left };

    fn op(&mut self, op: Op, args: Vec<Value>) -> Result<HostStep, PageStop> {
        if let Some(why) = self.stopped {
            return Err(stopped_by(&mut self.stopped, &mut self.stops, why));
        }
        match answer(&mut self.state, op, args, &mut self.lines) {
            Ok(step) => Ok(step),
            Err(why) => Err(stopped_by(&mut self.stopped, &mut self.stops, why)),
        }
    }

    fn resume(&mut self, ticket: u64, outcome: Outcome) -> Result<HostStep, PageStop> {
        if let Some(why) = self.stopped {
            return Err(stopped_by(&mut self.stopped, &mut self.stops, why));
        }
        match go_on(&mut self.state, ticket, outcome, &mut self.lines) {
            Ok(step) => Ok(step),
            Err(why) => Err(stopped_by(&mut self.stopped, &mut self.stops, why)),
        }
    }

    fn known_value(&self, op: Op, args: &[&Value]) -> Option<Value> {
        known_value(&self.state, op, args)
    }

    fn gives_value(&self, op: Op, args: &[&Value]) -> bool {
        gives_value(&self.state, op, args)
    }
}
