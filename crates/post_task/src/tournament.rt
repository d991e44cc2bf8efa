ghost use Rattle.std.specs.Prelude.{◌≡◌, ◌+◌, ◌*◌, ◌<◌, ◌∷◌, ◌++◌, [], map, length, slice_set, slice_index_or, Option, None, OnOk, OnErr, MatchOption};
ghost use Rattle.std.specs.Option.{option_map};
ghost use Rattle.post_task.specs.Tournament.{goes_before, Wins, HasNone, is_odd, moved_head};
ghost use Rattle.post_task.specs.Tree.{better as better_of, best_at, mended, own_of, IsRight, IsRightBut};

use crate::level::rank;
use std::alloc::{AllocError, Global};
use std::marker::Model;
use task_signal::Priority;

/// The first task of a priority source: its effective priority now and its order.
#[derive(Clone, Copy)]
pub struct Head {
    pub effective: u8,
    pub order: u64,
}

impl Head {
    /// Whether this one goes before another: it has the greater effective priority, or the lesser order where that is equal.
    fn is_before(self, other: Head) -> bool
        ensures { result ≡ goes_before self other }
    {
        self.effective > other.effective
            || self.effective == other.effective && self.order < other.order
    }

    /// Whether it is that of a continuation: then its effective priority is odd.
    pub fn is_continuation(self) -> bool
        ensures { result ≡ is_odd self.effective }
    {
        self.effective % 2 == 1
    }

    /// This one under another priority: what is odd is the effective priority of a continuation.
    pub fn with_priority(self, p: Priority) -> Head
        ensures { result ≡ moved_head p self }
    {
        Head {
            effective: 2 * rank(p) + self.effective % 2,
            order: self.order,
        }
    }
}

/// The head that goes first, and its place.
#[derive(Clone, Copy)]
pub struct Winner {
    pub place: usize,
    pub head: Head,
}

// A node of the tree stands for a place: its head, and the winner of the places from it downwards.
#[derive(Clone, Copy)]
struct Node {
    own: Option<Head>,
    best: Option<Winner>,
}

/// Places that have a head or none, seen as the list of these heads, and the one that goes first of all.
///
/// A tree of all places in one vector: below place `n` stand the places `2 * n + 1` and `2 * n + 2`. So a further place changes no
/// other node, and a change at a place changes only the nodes on the line from there up to place 0.
#[derive(Drop)]
pub struct Tournament {
    nodes: Vec<Node>,
}

impl Model for Tournament {
    ghost use Rattle.std.specs.Prelude.{List, Option, map};
    ghost use Rattle.post_task.specs.declared.tournament.Head.{Head};
    ghost use Rattle.post_task.specs.Tree.{own_of, IsRight};

    ghost Value = { List (Option Head) };

    ghost view = { λ tournament. map own_of tournament.nodes.items };

    ghost invariant = { λ tournament. IsRight tournament.nodes.items };
}

impl Tournament {
    /// No place. It keeps the allocator and takes no memory yet.
    pub fn new(alloc: Global) -> Tournament
        ensures { result ≡ [] }
    {
        Tournament {
            nodes: Vec::new(alloc),
        }
    }

    /// Makes one more place, behind the others, which has no head.
    ///
    /// An error leaves all as it was.
    pub fn push(&mut self) -> Result<(), AllocError>
        ensures made { OnOk result (self.new ≡ self.old ++ None ∷ []) }
        ensures err { OnErr result (self.new ≡ self.old) }
    {
        self.nodes.reserve(1)?;
        self.nodes
            .push(Node {
                own: None,
                best: None,
            })
            .unwrap();
        Ok(())
    }

    /// The head of a place. Takes no memory.
    fn get(&self, place: usize) -> Option<Head>
        requires { place < length self.now }
        ensures { result ≡ slice_index_or self.now place None }
    {
        self.nodes[place].own
    }

    /// A place has this head, or none, from now on. Costs the logarithm of the number of places. Takes no memory.
    pub fn set(&mut self, place: usize, head: Option<Head>)
        requires { place < length self.old }
        ensures { self.new ≡ slice_set self.old place head }
    {
        self.nodes[place].own = head;
        climb(&mut self.nodes, place);
    }

    /// The head of a place, where it has one, has this priority from now on. Costs the logarithm of the number of places. Takes
    /// no memory.
    pub fn change_priority(&mut self, place: usize, p: Priority)
        requires { place < length self.old }
        ensures { self.new ≡ slice_set self.old place (option_map (moved_head p) (slice_index_or self.old place None)) }
    {
        let head = self.get(place).map(|head| head.with_priority(p));
        self.set(place, head);
    }

    /// The head that goes first, and its place, none exactly where no place has a head. Takes no memory.
    pub fn winner(&self) -> Option<Winner>
        ensures { MatchOption result (HasNone self.now) (Wins self.now) }
    {
        best(&self.nodes, 0)
    }
}

// The winner from a node downwards, none where there is no such node.
fn best(nodes: &[Node], at: usize) -> Option<Winner>
    ensures { result ≡ best_at nodes.now at }
{
    nodes.get(at)?.best
}

// The one that goes first of two.
fn better(old: Option<Winner>, new: Option<Winner>) -> Option<Winner>
    ensures { result ≡ better_of old new }
{
    match (old, new) {
        (Some(a), Some(b)) if b.head.is_before(a.head) => new,
        (Some(_), _) => old,
        (None, _) => new,
    }
}

// The winner below a node.
fn best_below(nodes: &[Node], at: usize) -> Option<Winner>
    ensures { result ≡ better_of (best_at nodes.now (2 * at + 1)) (best_at nodes.now (2 * at + 2)) }
{
    if at < nodes.len() / 2 {
        better(best(nodes, 2 * at + 1), best(nodes, 2 * at + 2))
    } else {
        None
    }
}

// A node is made right: its own head, or the winner below it where that one goes first.
fn mend(nodes: &mut [Node], at: usize)
    requires { at < length nodes.old }
    ensures { nodes.new ≡ mended nodes.old at }
{
    let below = best_below(nodes, at);
    let own = nodes[at].own.map(|head| Winner { place: at, head });
    nodes[at].best = better(own, below);
}

// Makes the nodes right from this one, which may be wrong, up to the first of all.
fn climb(nodes: &mut [Node], start: usize)
    requires inside { start < length nodes.old }
    requires right { IsRightBut start nodes.old }
    ensures right { IsRight nodes.new }
    ensures own { map own_of nodes.new ≡ map own_of nodes.old }
{
    let mut at = start;
    while at > 0 {
        mend(nodes, at);
        at = (at - 1) / 2;
    }
    mend(nodes, 0);
}
