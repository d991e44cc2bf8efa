//! The messages that a page posted, and what is still to arrive at it (HTML, "Posting messages").

ghost use Rattle.std.specs.Prelude.{◌≡◌, map, None};
ghost use Rattle.arrivals_text.specs.SeenParts.{arrival_of};
ghost use Rattle.page_model.specs.Operations.{posts_taken};
ghost use Rattle.page_model.specs.Parallel.{arrive};
ghost use Rattle.page_script.specs.Seen.{post_seen};
ghost use Rattle.page_state.specs.PageActs.{changed_by, on_page, read_by};
ghost use Rattle.page_host.specs.Stops.{KeepsSetting, PageDoes, Stops};

use crate::stopping::or_stop;
use crate::{Page, PageStop};
use page_hosts::HostPort;
use page_script::Post;
use parallel_items::Arrival;
use std::sync::ledger::Ledger;
use trace_text::Lines;

impl<P: HostPort, L: Lines, M: Ledger> Page<P, L, M> {
    /// Hands over the messages that were posted since the last call, the oldest first, and keeps none. Takes no memory, and costs some
    /// reads and writes.
    pub fn take_posts(&mut self) -> Vec<Post>
        ensures list { map post_seen result.items ≡ read_by (λ p. p.posts) self.old.state }
        ensures taken { self.new ≡ record self.old { state = changed_by posts_taken self.old.state } }
    {
        self.state.posts_taken()
    }

    /// A further arrival is to come: it goes behind those of the same or an earlier time.
    ///
    /// The one error is want of memory, also where no number is left for it. It writes no line, and costs a logarithm of the arrivals.
    pub fn arrive(&mut self, arrival: Arrival) -> Result<(), PageStop>
        requires running { self.old.stopped ≡ None }
        ensures does { PageDoes L.keeping L.seen self.old (on_page (arrive (arrival_of arrival))) result self.new }
        ensures lines { self.new.lines ≡ self.old.lines }
        ensures stops { Stops L.seen self.old result self.new }
        ensures fuel { self.new.fuel ≡ self.old.fuel }
        ensures same { KeepsSetting self.old self.new }
    {
        let done = self.state.arrive(arrival);
        or_stop(done, &mut self.stopped, &mut self.stops)
    }
}
