//! An ordered set whose nodes the caller gives and takes back.
ghost use Rattle.std.specs.Prelude.{◌≡◌, ◌<◌, ◌+◌, ◌^◌, [], ◌∷◌, ◌++◌, length, MatchOption, OnOk, OnErr, true};
ghost use Rattle.std.specs.List.{count_by};
ghost use Rattle.std.specs.Ordering.{is_lt};
ghost use Rattle.table_space.specs.Counted.{up_to_max};
ghost use Rattle.table_space.specs.Ordered.{less, IsOrdered, AreFrom, AreBelow, IsPut, IsTaken, HasNone, IsFirstFrom};

use ids_base::memory::Memory;
use std::alloc::Global;
use std::cmp::Ordering;
use std::marker::Model;
use std::mem;

/// A set of items, which contracts see as their list in order. Putting an item in takes a node, and taking one out gives its node back,
/// so that neither takes memory. Items that are neither less nor greater than one another may stand there together.
///
/// A search tree, and a heap by the nodes' ranks: with ranks that are drawn at random its depth is logarithmic in the items.
#[cycle(tree)]
#[derive(Drop)]
pub struct Tree<K> {
    link: Link<K>,
}

#[cycle(tree)]
#[derive(Drop)]
enum Link<K> {
    End,
    Fork(Box<Node<K>>),
}

/// An item with no greater ones to the left and no smaller ones to the right; `count` is how many these and it are.
#[cycle(tree)]
#[derive(Drop)]
pub struct Node<K> {
    pub item: K,
    count: u32,
    rank: u32,
    left: Tree<K>,
    right: Tree<K>,
}

impl<K> Model for Tree<K> {
    ghost use Rattle.std.specs.Prelude.{List, length};

    ghost Value = { List K };

    ghost use Rattle.table_space.specs.Tree.{items, IsCounted};

    ghost view = { λ a. items a.link };

    ghost invariant = { λ a. IsCounted a.link };

    ghost size = { length };

    ghost use Rattle.table_space.specs.TreeFalls.{depth_le-length-items};

    ghost size_decreases = { λ a h. depth_le-length-items a.link };
}

impl<K: Ord + Copy> Node<K> {
    /// A node of its own.
    pub fn new(item: K, rank: u32) -> Node<K>
        ensures { result.item ≡ item }
    {
        Node {
            item,
            count: 1,
            rank,
            left: Tree::new(),
            right: Tree::new(),
        }
    }

    // Counts anew what is below the node, and it.
    fn recount(&mut self)
        ensures counted { self.new.count ≡ up_to_max (length self.old.left + length self.old.right + 1) }
        ensures item { self.new.item ≡ self.old.item }
        ensures left { self.new.left ≡ self.old.left }
        ensures right { self.new.right ≡ self.old.right }
    {
        let below = self.left.len().saturating_add(self.right.len());
        self.count = below.saturating_add(1);
    }
}

impl<K: Ord + Copy> Tree<K> {
    /// No items.
    pub fn new() -> Tree<K>
        ensures { result ≡ [] }
    {
        Tree { link: Link::End }
    }

    /// How many items there are, as far as a `u32` can tell. Constant time.
    pub fn len(&self) -> u32
        ensures { result ≡ up_to_max (length self.now) }
    {
        match &self.link {
            Link::End => 0,
            Link::Fork(node) => node.count,
        }
    }

    // The tree of a node.
    fn of(node: Box<Node<K>>) -> Tree<K>
        ensures { result ≡ node.value.left ++ node.value.item ∷ node.value.right }
    {
        let mut node = node;
        node.recount();
        Tree {
            link: Link::Fork(node),
        }
    }

    // The tree of a node's item alone.
    fn alone(mut node: Box<Node<K>>) -> Tree<K>
        ensures { result ≡ node.value.item ∷ [] }
    {
        node.left = Tree::new();
        node.right = Tree::new();
        Tree::of(node)
    }

    /// How many items are less than a bound. Logarithmic.
    pub fn count_below(&self, bound: &K) -> u32
        requires ordered { IsOrdered K.cmp self.now }
        requires few { length self.now < 2 ^ 32 }
        ensures { result ≡ count_by (λ x. less K.cmp x bound.now) self.now }
    {
        match &self.link {
            Link::End => 0,
            Link::Fork(node) => {
                if is_less(&node.item, bound) {
                    node.left.len() + 1 + node.right.count_below(bound)
                } else {
                    node.left.count_below(bound)
                }
            }
        }
    }

    /// Puts in the item of a node, before those that are not less. Logarithmic.
    pub fn insert(&mut self, node: Box<Node<K>>)
        requires { IsOrdered K.cmp self.old }
        ensures put { IsPut K.cmp self.old self.new node.value.item }
        ensures ordered { IsOrdered K.cmp self.new }
    {
        let (low, high) = taken(self).split(&node.item);
        *self = low.join(Tree::alone(node).join(high));
    }

    /// Takes out an item that is neither less nor greater than one, and gives its node; `None` exactly where there is none. Logarithmic.
    pub fn remove(&mut self, item: &K) -> Option<Box<Node<K>>>
        requires { IsOrdered K.cmp self.old }
        ensures taken { MatchOption result (HasNone K.cmp self.old item.now × (self.new ≡ self.old)) (λ node. IsTaken K.cmp self.old self.new item.now node.value.item) }
        ensures ordered { IsOrdered K.cmp self.new }
    {
        let (low, high) = taken(self).split(item);
        let (first, rest) = high.pop_first();
        match first {
            None => {
                *self = low;
                None
            }
            Some(node) => {
                if is_less(item, &node.item) {
                    *self = low.join(Tree::alone(node).join(rest));
                    None
                } else {
                    *self = low.join(rest);
                    Some(node)
                }
            }
        }
    }

    // The items that are less than a bound, and the others.
    fn split(self, bound: &K) -> (Tree<K>, Tree<K>)
        requires { IsOrdered K.cmp self }
        ensures all { result.0 ++ result.1 ≡ self }
        ensures low { AreBelow K.cmp bound.now result.0 }
        ensures high { AreFrom K.cmp bound.now result.1 }
    {
        match self.link {
            Link::End => (Tree::new(), Tree::new()),
            Link::Fork(mut node) => {
                if is_less(&node.item, bound) {
                    let (low, high) = taken(&mut node.right).split(bound);
                    node.right = low;
                    (Tree::of(node), high)
                } else {
                    let (low, high) = taken(&mut node.left).split(bound);
                    node.left = high;
                    (low, Tree::of(node))
                }
            }
        }
    }

    // These items and then others.
    fn join(self, others: Tree<K>) -> Tree<K>
        ensures { result ≡ self ++ others }
    {
        match (self.link, others.link) {
            (Link::End, link) => Tree { link },
            (link, Link::End) => Tree { link },
            (Link::Fork(mut low), Link::Fork(mut high)) => {
                if low.rank < high.rank {
                    high.left = Tree::of(low).join(taken(&mut high.left));
                    Tree::of(high)
                } else {
                    low.right = taken(&mut low.right).join(Tree::of(high));
                    Tree::of(low)
                }
            }
        }
    }

    // The node of the first item, if there is one, and the other items.
    fn pop_first(self) -> (Option<Box<Node<K>>>, Tree<K>)
        ensures { MatchOption result.0 ((self ≡ []) × (result.1 ≡ [])) (λ node. self ≡ node.value.item ∷ result.1) }
    {
        match self.link {
            Link::End => (None, Tree::new()),
            Link::Fork(mut node) => {
                let (first, rest) = taken(&mut node.left).pop_first();
                match first {
                    None => {
                        let others = taken(&mut node.right);
                        (Some(node), others)
                    }
                    Some(first) => {
                        node.left = rest;
                        (Some(first), Tree::of(node))
                    }
                }
            }
        }
    }

    /// Takes out the first item, and gives its node; `None` exactly where there are no items. Logarithmic.
    pub fn pop(&mut self) -> Option<Box<Node<K>>>
        ensures { MatchOption result ((self.old ≡ []) × (self.new ≡ [])) (λ node. self.old ≡ node.value.item ∷ self.new) }
    {
        let (first, rest) = taken(self).pop_first();
        *self = rest;
        first
    }

    /// Puts in the item of a node, before all others. Logarithmic.
    pub fn push(&mut self, node: Box<Node<K>>)
        ensures { self.new ≡ node.value.item ∷ self.old }
    {
        *self = Tree::alone(node).join(taken(self));
    }

    /// The least item that is not less than a bound, if there is one. Logarithmic.
    pub fn first_from(&self, bound: &K) -> Option<K>
        requires { IsOrdered K.cmp self.now }
        ensures { MatchOption result (AreBelow K.cmp bound.now self.now) (IsFirstFrom K.cmp self.now bound.now) }
    {
        match &self.link {
            Link::End => None,
            Link::Fork(node) => {
                if is_less(&node.item, bound) {
                    node.right.first_from(bound)
                } else {
                    match node.left.first_from(bound) {
                        None => Some(node.item),
                        found => found,
                    }
                }
            }
        }
    }
}

// The items of a tree, of which none are left in it.
fn taken<K: Copy>(tree: &mut Tree<K>) -> Tree<K>
    ensures given { result ≡ tree.old }
    ensures left { tree.new ≡ [] }
{
    mem::replace(tree, Tree { link: Link::End })
}

// Whether one item is less than another.
fn is_less<K: Ord>(a: &K, b: &K) -> bool
    ensures { result ≡ less K.cmp a.now b.now }
{
    matches!(a.cmp(b), Ordering::Less)
}

/// A set of items, and nodes for so many others, which are made before: to put an item in and to take one out take no memory.
#[derive(Drop)]
pub struct Store<K> {
    pub items: Tree<K>,
    spare: Tree<K>,
    ranks: Ranks,
}

impl<K: Ord + Copy> Store<K> {
    /// No items, and no nodes.
    pub fn new() -> Store<K>
        ensures items { result.items ≡ [] }
        ensures spare { result.spare ≡ [] }
    {
        Store {
            items: Tree::new(),
            spare: Tree::new(),
            ranks: Ranks::new(),
        }
    }

    /// How many nodes there are, with an item or without. Constant time.
    pub fn nodes(&self) -> u32
        requires { length self.now.items + length self.now.spare < 2 ^ 32 }
        ensures { result ≡ length self.now.items + length self.now.spare }
    {
        self.items.len() + self.spare.len()
    }

    /// Makes a node more, which holds any item meanwhile. Answers `Memory` only for want of memory, and all is as it was then. Logarithmic.
    pub fn reserve(&mut self, alloc: Global, item: K) -> Result<(), Memory>
        ensures items { self.new.items ≡ self.old.items }
        ensures ok { OnOk result (length self.new.spare ≡ length self.old.spare + 1) }
        ensures err { OnErr result (self.new.spare ≡ self.old.spare) }
    {
        let node = Box::new(alloc, Node::new(item, self.ranks.next()))?;
        self.spare.push(node);
        Ok(())
    }

    /// Puts an item in. Logarithmic; takes no memory.
    pub fn put(&mut self, item: K)
        requires ordered { IsOrdered K.cmp self.old.items }
        requires room { 0 < length self.old.spare }
        ensures put { IsPut K.cmp self.old.items self.new.items item }
        ensures ordered { IsOrdered K.cmp self.new.items }
        ensures spare { length self.old.spare ≡ length self.new.spare + 1 }
    {
        if let Some(mut node) = self.spare.pop() {
            node.item = item;
            self.items.insert(node);
        }
    }

    /// Takes out an item that is neither less nor greater than one, and gives it; `None` exactly where there is none. Logarithmic; takes no
    /// memory.
    pub fn take(&mut self, item: &K) -> Option<K>
        requires { IsOrdered K.cmp self.old.items }
        ensures taken { MatchOption result (HasNone K.cmp self.old.items item.now × (self.new.items ≡ self.old.items)) (IsTaken K.cmp self.old.items self.new.items item.now) }
        ensures spare { MatchOption result (self.new.spare ≡ self.old.spare) (λ _. length self.new.spare ≡ length self.old.spare + 1) }
        ensures ordered { IsOrdered K.cmp self.new.items }
    {
        let node = self.items.remove(item)?;
        let taken = node.item;
        self.spare.push(node);
        Some(taken)
    }
}

/// Numbers that look as if they were drawn: the ranks of nodes.
#[derive(Clone, Copy)]
pub struct Ranks {
    last: u32,
}

impl Ranks {
    /// The first of them is to come.
    pub fn new() -> Ranks {
        Ranks { last: 2463534242 }
    }

    /// The next rank. Constant time.
    pub fn next(&mut self) -> u32 {
        self.last ^= self.last << 13;
        self.last ^= self.last >> 17;
        self.last ^= self.last << 5;
        self.last
    }
}
