//! The source that a policy gives.

ghost use Rattle.std.specs.Prelude.{◌≡◌, ◌+◌, ◌^◌, ◌<◌, if◌then◌else◌, List, ◌∷◌, Some, None, IsTrue};
ghost use Rattle.page_types.specs.declared.Source.{Source};
ghost use Rattle.page_parts.specs.WrittenChoices.{Runnable, is_runnable, by_fifo, by_rank, by_fair, count_of, counts_now as zeroed, counts_after as counted};
ghost use Rattle.loop_policy.specs.Policies.{PolicyState, policy_of, is_policy};
ghost use Rattle.loop_policy.specs.Rules.{first_state, policy_choice};
ghost use Rattle.loop_policy.specs.Views.{runnables};
ghost use Rattle.loop_policy.specs.Choosing.{fifo_behind, seen_waiting, IsGreatest, next_count};

use crate::seeing::{first_task, is_ready, place_of};
use crate::view::DEFAULT_LIST;
use crate::{Chooser, NoChoice, Policy, View};
use page_base::Source;
use std::marker::Model;

/// Answers the source that a policy gives. It never refuses. It is seen as the policy, and how often each source was
/// passed over.
#[derive(Drop)]
pub struct PolicyChooser {
    policy: Policy,
    counts: [u32; 7],
}

impl Model for PolicyChooser {
    ghost use Rattle.std.specs.Prelude.{IsTrue};
    ghost use Rattle.loop_policy.specs.Policies.{PolicyState, policy_of, is_policy};
    ghost use Rattle.loop_policy.specs.Choosing.{AreBelow};

    ghost Value = { PolicyState };

    ghost view = { λ chooser. record { policy = policy_of chooser.policy; counts = chooser.counts } };

    ghost invariant = { λ chooser. IsTrue (is_policy (policy_of chooser.policy)) × AreBelow (policy_of chooser.policy) chooser.counts };
}

impl PolicyChooser {
    /// A chooser by this policy, before its first choice. Takes no memory.
    pub fn new(policy: Policy) -> PolicyChooser
        requires { IsTrue (is_policy (policy_of policy)) }
        ensures { result ≡ first_state (policy_of policy) }
    {
        PolicyChooser {
            policy,
            counts: [0; 7],
        }
    }
}

impl Chooser for PolicyChooser {
    ghost Held = { PolicyState };

    ghost held = { λ chooser. chooser };

    ghost rule = { policy_choice };

    ghost refusals = { λ _. 0 };

    fn choose(&mut self, view: &View) -> Result<Source, NoChoice> {
        match self.policy {
            Policy::Fifo => Ok(choose_oldest(view)),
            Policy::Rank(sources) => Ok(choose_first(view, &sources)),
            Policy::Fair(most) => {
                let counts = counts_now(view, &self.counts);
                let chosen = choose_fairly(view, most, &counts);
                self.counts = counts_after(view, chosen, &counts);
                Ok(chosen)
            }
        }
    }
}

/// A source, and the number of its first task.
#[derive(Clone, Copy)]
struct Waiting {
    source: Source,
    first: u64,
}

// The source whose first task has the least number.
fn choose_oldest(view: &View) -> Source
    ensures { result ≡ by_fifo (runnables view.now) }
{
    let mut oldest = None;
    let mut rest = DEFAULT_LIST.as_slice();
    while let Some((source, after)) = rest.split_first() {
        if let Some(first) = first_task(view, *source) {
            oldest = Some(older(
                oldest,
                Waiting {
                    source: *source,
                    first,
                },
            ));
        }
        rest = after;
    }
    match oldest {
        Some(oldest) => oldest.source,
        None => Source::User,
    }
}

fn older(oldest: Option<Waiting>, other: Waiting) -> Waiting
    ensures { (rs : List Runnable) → fifo_behind (Some result) rs ≡ fifo_behind oldest (seen_waiting other ∷ rs) }
{
    match oldest {
        Some(oldest) if oldest.first <= other.first => oldest,
        _ => other,
    }
}

// The first source of a list that has a runnable task.
fn choose_first(view: &View, sources: &[Source]) -> Source
    ensures { result ≡ by_rank sources.now (runnables view.now) }
{
    let mut rest = sources;
    while let Some((source, after)) = rest.split_first() {
        if is_ready(view, *source) {
            return *source;
        }
        rest = after;
    }
    Source::User
}

// The source that was most often passed over, where one was so at least `most` times.
fn choose_fairly(view: &View, most: u32, counts: &[u32; 7]) -> Source
    ensures { result ≡ by_fair most counts.now (runnables view.now) }
{
    let mut chosen = None;
    let mut rest = DEFAULT_LIST.as_slice();
    while let Some((source, after)) = rest.split_first() {
        if is_ready(view, *source) && most <= counts[place_of(*source)] {
            chosen = Some(more_passed_over(counts, chosen, *source));
        }
        rest = after;
    }
    match chosen {
        Some(source) => source,
        None => choose_first(view, &DEFAULT_LIST),
    }
}

// The earlier one where the counts are equal.
fn more_passed_over(counts: &[u32; 7], chosen: Option<Source>, other: Source) -> Source
    ensures { IsGreatest counts.now chosen other result }
{
    match chosen {
        Some(chosen) if counts[place_of(other)] <= counts[place_of(chosen)] => chosen,
        _ => other,
    }
}

// The counts at a choice: those of sources without a runnable task become 0.
fn counts_now(view: &View, counts: &[u32; 7]) -> [u32; 7]
    ensures { result ≡ zeroed (runnables view.now) counts.now }
{
    [
        count_now(view, counts, Source::User),
        count_now(view, counts, Source::Render),
        count_now(view, counts, Source::Sched),
        count_now(view, counts, Source::Timer),
        count_now(view, counts, Source::Net),
        count_now(view, counts, Source::Dom),
        count_now(view, counts, Source::Idle),
    ]
}

fn count_now(view: &View, counts: &[u32; 7], source: Source) -> u32
    ensures { result ≡ (if is_runnable (runnables view.now) source then count_of counts.now source else 0) }
{
    if is_ready(view, source) {
        counts[place_of(source)]
    } else {
        0
    }
}

// The counts after a choice: 0 for the chosen source, one more for each other source with a runnable task.
fn counts_after(view: &View, chosen: Source, counts: &[u32; 7]) -> [u32; 7]
    requires { (source : Source) → count_of counts.now source + 1 < 2 ^ 32 }
    ensures { result ≡ counted (runnables view.now) chosen counts.now }
{
    [
        count_after(view, chosen, counts, Source::User),
        count_after(view, chosen, counts, Source::Render),
        count_after(view, chosen, counts, Source::Sched),
        count_after(view, chosen, counts, Source::Timer),
        count_after(view, chosen, counts, Source::Net),
        count_after(view, chosen, counts, Source::Dom),
        count_after(view, chosen, counts, Source::Idle),
    ]
}

fn count_after(view: &View, chosen: Source, counts: &[u32; 7], source: Source) -> u32
    requires { count_of counts.now source + 1 < 2 ^ 32 }
    ensures { result ≡ next_count (runnables view.now) chosen counts.now source }
{
    if place_of(source) == place_of(chosen) {
        return 0;
    }
    if is_ready(view, source) {
        counts[place_of(source)] + 1
    } else {
        0
    }
}
