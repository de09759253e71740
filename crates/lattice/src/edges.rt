// The list of the lattice edges that a level crosses: by node, step and label.
ghost use Rattle.std.specs.Prelude.{◌≡◌, ◌+◌, ◌*◌, ◌≤◌, ◌<◌, cond, [], ◌∷◌, length, set};
ghost use Rattle.lattice.specs.Node as Node;
ghost use Rattle.lattice.specs.Edges as Edges;
ghost use Rattle.lattice.specs.Stages.{step_index, end_or_start, AtNode, EdgesNoted};

use crate::nodes::{Index, next};

// What the seven steps add along x, y and z. (A step is its number, as the list has it.)
fn step(d: usize) -> Index
    requires { d < 7 }
    ensures { result ≡ step_index d }
{
    let steps = [
        Index { x: 1, y: 0, z: 0 },
        Index { x: 0, y: 1, z: 0 },
        Index { x: 0, y: 0, z: 1 },
        Index { x: 1, y: 1, z: 0 },
        Index { x: 1, y: 0, z: 1 },
        Index { x: 0, y: 1, z: 1 },
        Index { x: 1, y: 1, z: 1 },
    ];
    steps[d]
}

// How far the step d goes on in the numbers of nodes. By a table of its own: `step_end` asks `step` at every step of
// every node, and with a second caller that is slower.
pub fn offset(n: usize, d: usize) -> usize
    requires { (n ≤ 129) × (d < 7) }
    ensures { result ≡ Edges.offset n d }
{
    let layer = n * n;
    let offsets: [usize; 7] = [1, n, layer, 1 + n, 1 + layer, n + layer, 1 + n + layer];
    offsets[d]
}

// Whether a level is finite and has one of two values below it and the other not. That it is finite is asked last,
// since of most edges both values are on one side.
#[tactic(auto, unfolding(crate::specs::Edges::crossed_by))]
fn crossed_by(level: f64, v: f64, w: f64) -> bool
    ensures { result ≡ Edges.crossed_by level v w }
{
    (v < level) != (w < level) && float::is_finite(level)
}

// Stores a number, if its place is there. (Through `get_mut` the list is not known afterwards.)
fn put(list: &mut [u32], i: usize, x: usize)
    requires { x < 4294967296 }
    ensures { list.new ≡ set list.old i x }
{
    if i < list.len() {
        list[i] = x as u32;
    }
}

// Notes an edge behind `count` others if the level crosses it. Returns how many there are then. (A label is a word of
// the list that C reads.)
fn note(
    level: f64,
    v: f64,
    w: f64,
    a: usize,
    d: usize,
    label: usize,
    count: usize,
    list: &mut [u32],
) -> usize
    requires { (a < 4294967296) × (d < 7) × (label < 2) × (count < 4294967296) }
    ensures { EdgesNoted (cond (Edges.crossed_by level v w) (record { node = a; step = d; label = label } ∷ []) []) count list.old result list.new × (result ≤ count + 1) }
{
    if !crossed_by(level, v, w) {
        return count;
    }
    put(list, count * 3, a);
    put(list, count * 3 + 1, d);
    put(list, count * 3 + 2, label);
    count + 1
}

// The node where the step d from node a of index p ends. Where it leaves the lattice it is a itself: no level
// crosses an edge from a node to itself.
fn step_end(n: usize, a: usize, p: Index, d: usize) -> usize
    requires { (AtNode n a p) × (d < 7) }
    ensures { result ≡ end_or_start n a d }
{
    let by = step(d);
    if n <= p.x + by.x || n <= p.y + by.y || n <= p.z + by.z {
        return a;
    }
    a + (by.x + n * by.y + n * n * by.z)
}

// The nodes of a lattice, n to a side, by their values, and the levels.
#[derive(Clone, Copy)]
pub struct Nodes<'a> {
    pub n: usize,
    pub values: &'a [f64],
    pub lower: f64,
    pub upper: f64,
    ghost some: { 1 ≤ n },
    ghost few: { n ≤ 129 },
    ghost each: { length values.now ≡ Node.cube n },
}

impl<'a> Nodes<'a> {
    // The edges from node a of index p by the step d: label 0 is the upper level, 1 the lower.
    fn note_step(&self, a: usize, p: Index, d: usize, count: usize, list: &mut [u32]) -> usize
        requires { (AtNode self.now.n a p) × (d < 7) × (count ≤ a * 14 + d * 2) }
        ensures { EdgesNoted (Edges.crossed_among self.now.n self.now.lower self.now.upper self.now.values.now (a * 14 + d * 2) 2) count list.old result list.new }
    {
        let b = step_end(self.n, a, p, d);
        let v = self.values[a];
        let w = self.values[b];
        let more = note(self.upper, v, w, a, d, 0, count, list);
        note(self.lower, v, w, a, d, 1, more, list)
    }

    // The edges from node a of index p.
    fn note_node(&self, a: usize, p: Index, count: usize, list: &mut [u32]) -> usize
        requires { (AtNode self.now.n a p) × (count ≤ a * 14) }
        ensures { EdgesNoted (Edges.crossed_among self.now.n self.now.lower self.now.upper self.now.values.now (a * 14) 14) count list.old result list.new }
    {
        let mut found = count;
        for d in 0..7 {
            found = self.note_step(a, p, d, found, list);
        }
        found
    }

    // All crossed edges. Returns how many there are.
    pub fn note_edges(&self, list: &mut [u32]) -> usize
        ensures { EdgesNoted (Edges.crossed_edges self.now.n self.now.lower self.now.upper self.now.values.now) 0 list.old result list.new }
    {
        let mut found: usize = 0;
        let mut index = Index { x: 0, y: 0, z: 0 };
        for a in 0..self.values.len() {
            found = self.note_node(a, index, found, list);
            index = next(self.n, index);
        }
        found
    }
}
