//! When each thread is due, by its place, with the first of all at hand.
//!
//! The places stand in a tree: below place k stand 2 k + 1 and 2 k + 2. Each knows what is first of its own and of all below it, so a
//! change touches only the places above it.
ghost use Rattle.std.specs.Prelude.{◌≡◌, ◌+◌, ◌*◌, ◌<◌, ◌≤◌, ◌++◌, ◌∷◌, [], None, OnOk, OnErr, length, map, slice_set};
ghost use Rattle.thread_queues.specs.Firsts.{IsFirst, least};
ghost use Rattle.thread_queues.specs.Tree.{first_at, first_below, IsTree};

use crate::due;
use crate::event::Due;
use ids_base::memory::Memory;
use std::alloc::Global;
use std::marker::Model;

/// When a place is due, and the first of it and all below it.
#[derive(Clone, Copy)]
pub struct Node {
    pub own: Option<Due>,
    pub first: Option<Due>,
}

/// Places, each with no limit or one.
#[derive(Drop)]
pub struct Limits {
    nodes: Vec<Node>,
}

impl Model for Limits {
    ghost use Rattle.std.specs.Prelude.{List, Option, map};
    ghost use Rattle.thread_queues.specs.declared.event.Due.{Due};

    ghost Value = { List (Option Due) };

    ghost use Rattle.thread_queues.specs.Tree.{IsLimited};

    ghost view = { λ a. map (λ n. n.own) a.nodes.items };

    ghost invariant = { λ a. IsLimited a.nodes.items };
}

impl Limits {
    /// No place.
    pub fn new(alloc: Global) -> Self
        ensures { result ≡ [] }
    {
        Self {
            nodes: Vec::new(alloc),
        }
    }

    /// How many places there are.
    pub fn len(&self) -> usize
        ensures { result ≡ length self.now }
    {
        self.nodes.len()
    }

    /// One place more, with no limit. Answers `Memory` where there is none, and all is as it was.
    pub fn add(&mut self) -> Result<(), Memory>
        requires { length self.old < 2147483648 }
        ensures ok { OnOk result (self.new ≡ self.old ++ None ∷ []) }
        ensures err { OnErr result (self.new ≡ self.old) }
    {
        self.nodes.push(Node {
            own: None,
            first: None,
        })?;
        Ok(())
    }

    /// Sets or clears the limit of a place. Takes time in proportion to the logarithm of the number of places.
    pub fn set(&mut self, place: usize, due: Option<Due>)
        requires { place < length self.old }
        ensures { self.new ≡ slice_set self.old place due }
    {
        settle(&mut self.nodes, place, due);
    }

    /// The first of all limits. Takes constant time.
    pub fn first(&self) -> Option<Due>
        ensures { IsFirst self.now result }
    {
        first_at(&self.nodes, 0)
    }
}

/// Sets what a place has itself, and what those above it know.
fn settle(nodes: &mut [Node], place: usize, due: Option<Due>)
    requires place { place < length nodes.old }
    requires few { length nodes.old ≤ 2147483648 }
    requires tree { IsTree nodes.old }
    ensures tree { IsTree nodes.new }
    ensures own { map (λ n. n.own) nodes.new ≡ slice_set (map (λ n. n.own) nodes.old) place due }
{
    nodes[place] = Node {
        own: due,
        first: nodes[place].first,
    };
    let mut at = place + 1;
    while at > 0 {
        let node = at - 1;
        nodes[node] = Node {
            own: nodes[node].own,
            first: first_below(nodes, node),
        };
        at /= 2;
    }
}

/// The first of a place's own and of all below it.
fn first_below(nodes: &[Node], place: usize) -> Option<Due>
    requires place { place < length nodes.now }
    requires few { length nodes.now ≤ 2147483648 }
    ensures { result ≡ first_below nodes.now place }
{
    let left = first_at(nodes, 2 * place + 1);
    let right = first_at(nodes, 2 * place + 2);
    first_of_two(first_of_two(nodes[place].own, left), right)
}

/// What a place knows, and None where there is no such place.
fn first_at(nodes: &[Node], place: usize) -> Option<Due>
    ensures { result ≡ first_at nodes.now place }
{
    if place < nodes.len() {
        nodes[place].first
    } else {
        None
    }
}

fn first_of_two(first: Option<Due>, other: Option<Due>) -> Option<Due>
    ensures { result ≡ least first other }
{
    match other {
        None => first,
        Some(due) => due::earlier_of(first, due),
    }
}
