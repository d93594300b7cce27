//! Marks on places, and the next place with a mark.
ghost use Rattle.std.specs.Prelude.{◌≡◌, ◌≤◌, ◌<◌, ◌+◌, ◌*◌, ◌==◌, ℕ, drop, IfOk, IfSome, MatchOption, length, slice_index, slice_set};
ghost use Rattle.std.specs.Int.{bit_at};
ghost use Rattle.table_space.specs.Marks.{IsPower, IsTree, IsLaw, IsUnmarked, IsNext, IsNextBelow, IsUnmarkedBelow};

use ids_base::memory::Memory;
use std::alloc::Global;
use std::marker::Model;

/// For each place, from 0 on, a set of marks from 0 to 63. Contracts see the list of these sets, each as a number whose bits are its marks.
///
/// A tree over the places, in which each node has the marks of the two below it: node `n` stands over nodes `2 n` and `2 n + 1`, and the
/// place `p` is node `width + p`. Only constructors take memory.
#[derive(Drop)]
pub struct Marks {
    nodes: Vec<u64>,
    width: usize,
}

impl Model for Marks {
    ghost use Rattle.std.specs.Prelude.{ℕ, List, drop};

    ghost Value = { List ℕ };

    ghost use Rattle.table_space.specs.Marks.{IsTree};

    ghost view = { λ a. drop a.width a.nodes.items };

    ghost invariant = { λ a. IsTree a.width a.nodes.items };
}

impl Marks {
    /// At least so many places, without marks. Answers `Memory` for want of memory, which it takes in proportion, and for more than 2^31 places.
    pub(crate) fn new(alloc: Global, places: usize) -> Result<Marks, Memory>
        ensures room { IfOk result (λ marks. places ≤ length marks) }
        ensures none { IfOk result (λ marks. (place : ℕ) → slice_index marks place ≡ 0) }
    {
        let width = power_from(places).ok_or(Memory)?;
        Ok(Marks {
            nodes: vec![in alloc; 0; 2 * width]?,
            width,
        })
    }

    /// The same marks on more places. Answers `Memory` for want of memory, which it takes in proportion to the places, and for more than
    /// 2^31 of them. Linear in the places, times a logarithm.
    pub(crate) fn longer(&self, alloc: Global) -> Result<Marks, Memory>
        ensures more { IfOk result (λ marks. length self.now < length marks) }
        ensures same { IfOk result (λ marks. (place : ℕ) → slice_index marks place ≡ slice_index self.now place) }
    {
        let mut longer = Marks::new(alloc, self.len() + 1)?;
        for place in 0..self.len() {
            longer.set(place, self.get(place));
        }
        Ok(longer)
    }

    /// The marks of a place. Constant time.
    pub(crate) fn get(&self, place: usize) -> u64
        requires { place < length self.now }
        ensures { result ≡ slice_index self.now place }
    {
        self.nodes[self.width + place]
    }

    /// How many places there are. Constant time.
    pub(crate) fn len(&self) -> usize
        ensures len { result ≡ length self.now }
        ensures few { result ≤ 2147483648 }
    {
        self.width
    }

    /// Gives a place these marks and no others. Logarithmic in the places.
    pub(crate) fn set(&mut self, place: usize, marks: u64)
        requires { place < length self.old }
        ensures { self.new ≡ slice_set self.old place marks }
    {
        write(&mut self.nodes, self.width, place, marks);
    }

    /// The least place from one on that has a mark, if there is one. Logarithmic in the places.
    pub(crate) fn next(&self, from: usize, mark: u32) -> Option<usize>
        requires { mark < 64 }
        ensures found { MatchOption result (IsUnmarked self.now mark from (length self.now)) (IsNext self.now mark from) }
        ensures few { IfSome result (λ place. place < 2147483648) }
    {
        next_below(&self.nodes, 1, self.width, from, mark)
    }
}

// The least power of two from a number on, where it is at most 2^31.
fn power_from(least: usize) -> Option<usize>
    ensures { MatchOption result (Unit {0}) (λ width. IsPower width × (least ≤ width) × (width ≤ 2147483648)) }
{
    let mut width = 1;
    while width < least {
        if width > 1073741824 {
            return None;
        }
        width *= 2;
    }
    Some(width)
}

// Writes a place of a tree, and the nodes above it.
fn write(nodes: &mut [u64], width: usize, place: usize, marks: u64)
    requires tree { IsTree width nodes.old }
    requires place { place < width }
    ensures tree { IsTree width nodes.new }
    ensures places { drop width nodes.new ≡ slice_set (drop width nodes.old) place marks }
{
    let mut node = width + place;
    nodes[node] = marks;
    while node > 1 {
        node /= 2;
        nodes[node] = nodes[2 * node] | nodes[2 * node + 1];
    }
}

/// A set with a mark more. Constant time.
pub(crate) fn with(marks: u64, mark: u32) -> u64
    requires { mark < 64 }
    ensures here { bit_at result mark ≡ 1 }
    ensures kept { (other : ℕ) → bit_at marks other ≡ 1 → bit_at result other ≡ 1 }
{
    marks | 1 << mark
}

/// Whether a set has a mark. Constant time.
pub(crate) fn has(marks: u64, mark: u32) -> bool
    requires { mark < 64 }
    ensures { result ≡ (bit_at marks mark == 1) }
{
    marks >> mark & 1 == 1
}

// The least place from one on that has a mark, among those below a node, counted from the first of them.
fn next_below(nodes: &[u64], node: usize, width: usize, from: usize, mark: u32) -> Option<usize>
    requires mark { mark < 64 }
    requires width { IsPower width }
    requires some { 1 ≤ node }
    requires within { node * width + width ≤ length nodes.now }
    requires law { IsLaw nodes.now }
    ensures { MatchOption result (IsUnmarkedBelow nodes.now (node * width) mark from width) (IsNextBelow nodes.now (node * width) mark from width) }
{
    if from >= width {
        return None;
    }
    if !has(nodes[node], mark) {
        return None;
    }
    if width == 1 {
        return Some(0);
    }
    let half = width / 2;
    match next_below(nodes, 2 * node, half, from, mark) {
        Some(place) => Some(place),
        None => match next_below(nodes, 2 * node + 1, half, from.saturating_sub(half), mark) {
            Some(place) => Some(half + place),
            None => None,
        },
    }
}
