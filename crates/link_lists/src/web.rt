//! The nodes of all lists in one slab: first a head for each list, then a node for each id.
//!
//! A place is the number of an id, or for the head of list l the number `HEAD + l`.
ghost use Rattle.std.specs.Prelude.{◌≡◌, ◌≢◌, ℕ, ◌+◌, ◌<◌, ◌≤◌, true, Some, None, OnOk, OnErr, IfOk};
ghost use Rattle.link_lists.specs.Places.{slot_of, is_place, head_place};
ghost use Rattle.slab.specs.Slab.{get, ContainsKey};
ghost use Rattle.link_lists.specs.Nodes.{EachHasNode};

use ids_base::memory::Memory;
use slab::Slab;
use std::alloc::Global;

/// The place of the first list's head; ids and lists are fewer.
pub const HEAD: u32 = 2147483648;

#[derive(Clone, Copy)]
struct Node {
    prev: u32,
    next: u32,
    home: Option<u32>,
}

#[derive(Drop)]
pub struct Web {
    nodes: Slab<Node>,
    pub lists: u32,
    pub ids: u32,
    ghost full: { EachHasNode nodes (lists + ids) },
    ghost few_lists: { lists ≤ 2147483648 },
    ghost few_ids: { ids ≤ 2147483648 },
}

// Puts nodes in until the slab has no room left. Each key below its room has one then, in whatever order the slab gave them.
fn fill(nodes: &mut Slab<Node>)
    ensures each { EachHasNode nodes.new nodes.old.capacity }
    ensures kept { (key : ℕ) → ContainsKey nodes.old key → get nodes.new key ≡ get nodes.old key }
{
    while nodes.len() < nodes.capacity() {
        nodes.insert_reserved(Node {
            prev: 0,
            next: 0,
            home: None,
        });
    }
}

// A node for each key below `count`.
fn provide(nodes: &mut Slab<Node>, count: usize) -> Result<(), Memory>
    ensures each { OnOk result (EachHasNode nodes.new count) }
    ensures kept { (key : ℕ) → ContainsKey nodes.old key → get nodes.new key ≡ get nodes.old key }
{
    if nodes.capacity() < count {
        nodes.reserve(count - nodes.len())?;
    }
    fill(nodes);
    Ok(())
}

// The key of a place's node.
fn slot(lists: u32, place: u32) -> usize
    ensures { result ≡ slot_of lists place }
{
    if place < HEAD {
        lists as usize + place as usize
    } else {
        (place - HEAD) as usize
    }
}

impl Web {
    ghost use Rattle.link_lists.specs.Web.{next_of, prev_of, home_of, SameNext, SamePrev, SameHome, SameCounts, IsLinked, IsTakenOut};

    /// Heads for so many lists, all empty, and no id.
    pub fn new(alloc: Global, lists: u32) -> Result<Web, Memory>
        requires { lists ≤ 2147483648 }
        ensures counts { IfOk result (λ w. (w.ids ≡ 0) × (w.lists ≡ lists)) }
        ensures next { IfOk result (λ w. (l : ℕ) → l < lists → next_of w (head_place l) ≡ head_place l) }
        ensures prev { IfOk result (λ w. (l : ℕ) → l < lists → prev_of w (head_place l) ≡ head_place l) }
    {
        let mut nodes = Slab::new(alloc);
        provide(&mut nodes, lists as usize)?;
        for list in 0..lists {
            let place = HEAD + list;
            nodes[list as usize] = Node {
                prev: place,
                next: place,
                home: None,
            };
        }
        Ok(Web {
            nodes,
            lists,
            ids: 0,
        })
    }

    /// One id more, the number of ids before, in no list.
    pub fn add_id(&mut self) -> Result<u32, Memory>
        requires { self.old.ids < 2147483648 }
        ensures id { IfOk result (λ id. (id ≡ self.old.ids) × (id < 2147483648)) }
        ensures more { OnOk result (self.new.ids ≡ self.old.ids + 1) }
        ensures same_ids { OnErr result (self.new.ids ≡ self.old.ids) }
        ensures lists { self.new.lists ≡ self.old.lists }
        ensures next { (q : ℕ) → is_place self.old.lists self.old.ids q ≡ true → next_of self.new q ≡ next_of self.old q }
        ensures prev { (q : ℕ) → is_place self.old.lists self.old.ids q ≡ true → prev_of self.new q ≡ prev_of self.old q }
        ensures home { SameHome self.old self.new }
    {
        let id = self.ids;
        let key = self.lists as usize + id as usize;
        provide(&mut self.nodes, key + 1)?;
        self.nodes[key] = Node {
            prev: 0,
            next: 0,
            home: None,
        };
        self.ids = id + 1;
        Ok(id)
    }

    /// Puts an id that is in no list before a place of this list.
    pub fn link_before(&mut self, at: u32, id: u32, list: u32)
        requires at_place { is_place self.old.lists self.old.ids at ≡ true }
        requires before_place { is_place self.old.lists self.old.ids (prev_of self.old at) ≡ true }
        requires id_there { id < self.old.ids }
        requires before_other { prev_of self.old at ≢ id }
        requires at_other { at ≢ id }
        ensures { IsLinked self.old self.new at id list }
    {
        let before = self.prev(at);
        self.set_next(before, id);
        self.set_prev(id, before);
        self.set_next(id, at);
        self.set_prev(at, id);
        self.set_home(id, Some(list));
    }

    /// Takes an id out of its list.
    pub fn take_out(&mut self, id: u32)
        requires id_there { id < self.old.ids }
        requires before_place { is_place self.old.lists self.old.ids (prev_of self.old id) ≡ true }
        requires behind_place { is_place self.old.lists self.old.ids (next_of self.old id) ≡ true }
        ensures { IsTakenOut self.old self.new id }
    {
        let before = self.prev(id);
        let behind = self.next(id);
        self.set_next(before, behind);
        self.set_prev(behind, before);
        self.set_home(id, None);
    }

    pub fn next(&self, place: u32) -> u32
        requires { is_place self.now.lists self.now.ids place ≡ true }
        ensures { result ≡ next_of self.now place }
    {
        self.nodes[slot(self.lists, place)].next
    }

    pub fn prev(&self, place: u32) -> u32
        requires { is_place self.now.lists self.now.ids place ≡ true }
        ensures { result ≡ prev_of self.now place }
    {
        self.nodes[slot(self.lists, place)].prev
    }

    pub fn home(&self, id: u32) -> Option<u32>
        requires { id < self.now.ids }
        ensures { result ≡ home_of self.now id }
    {
        self.nodes[slot(self.lists, id)].home
    }

    pub fn set_next(&mut self, place: u32, to: u32)
        requires { is_place self.old.lists self.old.ids place ≡ true }
        ensures here { next_of self.new place ≡ to }
        ensures others { (q : ℕ) → q ≢ place → next_of self.new q ≡ next_of self.old q }
        ensures prev { SamePrev self.old self.new }
        ensures home { SameHome self.old self.new }
        ensures counts { SameCounts self.old self.new }
    {
        let key = slot(self.lists, place);
        self.nodes[key].next = to;
    }

    pub fn set_prev(&mut self, place: u32, to: u32)
        requires { is_place self.old.lists self.old.ids place ≡ true }
        ensures here { prev_of self.new place ≡ to }
        ensures others { (q : ℕ) → q ≢ place → prev_of self.new q ≡ prev_of self.old q }
        ensures next { SameNext self.old self.new }
        ensures home { SameHome self.old self.new }
        ensures counts { SameCounts self.old self.new }
    {
        let key = slot(self.lists, place);
        self.nodes[key].prev = to;
    }

    pub fn set_home(&mut self, id: u32, home: Option<u32>)
        requires { id < self.old.ids }
        ensures here { home_of self.new id ≡ home }
        ensures others { (q : ℕ) → q ≢ id → home_of self.new q ≡ home_of self.old q }
        ensures next { SameNext self.old self.new }
        ensures prev { SamePrev self.old self.new }
        ensures counts { SameCounts self.old self.new }
    {
        let key = slot(self.lists, id);
        self.nodes[key].home = home;
    }
}
