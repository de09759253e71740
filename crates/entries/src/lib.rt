// One entry done on the lists that a run holds: a flip, a collapse, and the last edit taken back.
#![tactic(auto)]

ghost use Rattle.std.specs.Prelude.{◌≡◌, ◌++◌, cond, ◌+◌, ◌*◌, ◌-◌, ◌<◌, ◌≤◌, length, get_or, drop, replicate, eqb};
ghost use Rattle.surface.specs.Triangle.{tri};
ghost use Rattle.surface.specs.Edit.{put, renamed};
ghost use Rattle.surface.specs.Closed.{around};
ghost use Rattle.surface.specs.Flat.{tri_of, held, tri_at, put_at};
ghost use Rattle.history.specs.Undo.{turned, walk};
ghost use Rattle.history.specs.Flat.{pair_of, entry_of};
ghost use Rattle.history.specs.Entry.{Standing, Edited, Undoable, TakenBack};
ghost use Rattle.verdicts.specs.Found.{Hung};
ghost use Rattle.verdicts.specs.Notes.{On, Listed};
ghost use Rattle.entries.specs.Moved.{Forward, Backward, TakenOut, Reduced};
ghost use Rattle.entries.specs.Marks.{Marked, Routed, again_by, restored_by, Mapped};
ghost use Rattle.entries.specs.Undoes.{side_from, side_to, walk_from, walk_to, first_of, second_of, Unflips, Uncollapses, Restored};
ghost use Rattle.entries.specs.After.{triangles_after, words_after};
ghost use Rattle.verdicts.specs.Verdict.{verdict_word};
ghost use Rattle.verdicts.specs.Record.{words_of};

use halfedges::wide;
use surface::{put_triangle, triangle_at};
use verdicts::{COLLAPSE, FLIP, Found, Record, Triangles, Unfit};

// The elements move forward by some places; zero comes in at the end.
fn shift_forward<T: Copy>(part: &mut [T], by: usize, zero: T)
    ensures { Forward zero 0 by part.old part.new }
{
    let end = part.len().saturating_sub(by);
    for i in 0..end {
        part[i] = part[i + by];
    }
    for k in end..part.len() {
        part[k] = zero;
    }
}

// The elements move back by some places; the last ones go.
fn shift_back<T: Copy>(part: &mut [T], by: usize)
    requires { (0 < by) × (by ≤ length part.old) }
    ensures { (d : T) → Backward d 0 by part.old part.new }
{
    for i in (by..part.len()).rev() {
        part[i] = part[i - by];
    }
}

// The triangles at p and q go. Those between them move forward by one place; then those behind both move by two, to the place that this freed.
fn remove_triangles(corners: &mut [u32], p: usize, q: usize)
    requires { (p < q) × (3 * q + 2 < length corners.old) }
    ensures { TakenOut (3 * p) (3 * q) 3 corners.old corners.new }
{
    let i = 3 * p;
    let j = 3 * q;
    let k = j - 3;
    shift_forward(&mut corners[i..j], 3, 0);
    shift_forward(&mut corners[k..], 6, 0);
}

// The labels at p and q go likewise. (Apart from the triangles: with a literal distance at each call the compiler makes vectors of the loops.)
fn remove_labels(labels: &mut [u8], p: usize, q: usize)
    requires { (p < q) × (q < length labels.old) }
    ensures { TakenOut p q 1 labels.old labels.new }
{
    let k = q - 1;
    shift_forward(&mut labels[p..q], 1, 0);
    shift_forward(&mut labels[k..], 2, 0);
}

// A triangle is put in at a place, and those from there on move back.
fn insert_triangle(corners: &mut [u32], p: usize, t: [u32; 3])
    requires { 3 * p + 2 < length corners.old }
    ensures { (Backward 0 (3 * p) 3 corners.old corners.new) × (tri_at corners.new p ≡ tri_of t) }
{
    let k = 3 * p;
    shift_back(&mut corners[k..], 3);
    put_triangle(corners, p, t);
}

// A label is put in at a place, and those from there on move back.
fn insert_label(labels: &mut [u8], p: usize, x: u8)
    requires { p < length labels.old }
    ensures { (Backward 0 p 1 labels.old labels.new) × (get_or labels.new p 0 ≡ x) }
{
    shift_back(&mut labels[p..], 1);
    labels[p] = x;
}

// The flip: the earlier triangle becomes [c, d, v], and the later one [d, c, u].
fn flip_in(corners: &mut [u32], h: Found)
    requires { (3 * h.earlier + 2 < length corners.old) × (3 * h.later + 2 < length corners.old) }
    ensures { corners.new ≡ put_at (put_at corners.old h.earlier (tri h.c h.d h.v)) h.later (tri h.d h.c h.u) }
{
    put_triangle(corners, h.earlier, [h.c, h.d, h.v]);
    put_triangle(corners, h.later, [h.d, h.c, h.u]);
}

// Every b becomes an a. (`slivers` has it of `usize`, as its words are read: over both types `==` would be a bound's, and the definition needs equality.)
fn put_for(a: u32, b: u32, x: u32) -> u32
    ensures { result ≡ put a b x }
{
    if x == b { a } else { x }
}

// Every corner of the first n triangles that is b becomes a. (n: C lends the lists whole, and the first n triangles are in use.)
fn rename_all(corners: &mut [u32], n: usize, a: u32, b: u32)
    requires { 3 * n ≤ length corners.old }
    ensures { Mapped (renamed a b) n corners.old corners.new }
{
    for i in 0..3 * n {
        corners[i] = put_for(a, b, corners[i]);
    }
}

// The collapse: b becomes a, and both triangles of the side go with their labels; the number of triangles that stay.
fn collapse_in(corners: &mut [u32], labels: &mut [u8], n: usize, a: u32, b: u32, h: Found) -> usize
    requires { Hung corners.old labels.old n a b h }
    ensures { Reduced corners.old labels.old n a b corners.new labels.new result }
{
    rename_all(corners, n, a, b);
    remove_triangles(corners, h.earlier, h.later);
    remove_labels(labels, h.earlier, h.later);
    n - 2
}

// What an accepted entry came to: the number of triangles then, and its record.
#[derive(Clone, Copy, Debug, PartialEq, Eq)]
pub struct Came {
    pub triangles: usize,
    pub done: Record,
}

// The flip of the side of a and b. (Lists one by one: contracts tell each before and after.)
pub fn flip_entry(
    corners: &mut [u32],
    labels: &[u8],
    work: &[u32],
    points: usize,
    n: usize,
    a: u32,
    b: u32,
    space: bool,
) -> Result<Came, Unfit>
    requires { Standing corners.old labels.now n points work.now }
    ensures { Edited points corners.old labels.now n work.now (entry_of 1 a b) space corners.new labels.now (triangles_after n result) work.now (verdict_word result) (words_after result) }
{
    let surface = Triangles { corners, count: n };
    let h = surface.found(a, b)?;
    surface.judge_flip(labels, a, b, h, space)?;
    let done = surface.record_of(labels, FLIP, a, b, h);
    flip_in(corners, h);
    Ok(Came { triangles: n, done })
}

// The collapse that keeps a and removes b.
pub fn collapse_entry(
    corners: &mut [u32],
    labels: &mut [u8],
    work: &mut [u32],
    points: usize,
    n: usize,
    a: u32,
    b: u32,
    space: bool,
) -> Result<Came, Unfit>
    requires { Standing corners.old labels.old n points work.old }
    ensures { Edited points corners.old labels.old n work.old (entry_of 2 a b) space corners.new labels.new (triangles_after n result) work.new (verdict_word result) (words_after result) }
{
    let surface = Triangles { corners, count: n };
    let h = surface.found(a, b)?;
    surface.judge_collapse(labels, &mut work[..points], a, b, h, space)?;
    let done = surface.record_of(labels, COLLAPSE, a, b, h);
    let triangles = collapse_in(corners, labels, n, a, b, h);
    Ok(Came { triangles, done })
}

// The ends of a record's side, as its earlier triangle runs.
fn side_of(done: Record) -> (u32, u32)
    ensures { (result.0 ≡ side_from (words_of done)) × (result.1 ≡ side_to (words_of done)) }
{
    if done.ahead == 1 {
        (done.a, done.b)
    } else {
        (done.b, done.a)
    }
}

// Where the walk around the corner that a collapse kept begins and ends.
fn walk_of(done: Record) -> (u32, u32)
    ensures { (result.0 ≡ walk_from (words_of done)) × (result.1 ≡ walk_to (words_of done)) }
{
    if done.ahead == 1 {
        (done.d, done.c)
    } else {
        (done.c, done.d)
    }
}

// The triangle that reads x y z from its corner number s.
fn turned_in(s: u32, x: u32, y: u32, z: u32) -> [u32; 3]
    ensures { tri_of result ≡ turned s x y z }
{
    match s {
        0 => [x, y, z],
        1 => [z, x, y],
        _ => [y, z, x],
    }
}

// The earlier triangle of a record's side.
fn first_of(done: Record) -> [u32; 3]
    ensures { tri_of result ≡ first_of (words_of done) }
{
    let (u, v) = side_of(done);
    turned_in(done.start_earlier, u, v, done.c)
}

// The later triangle of a record's side.
fn second_of(done: Record) -> [u32; 3]
    ensures { tri_of result ≡ second_of (words_of done) }
{
    let (u, v) = side_of(done);
    turned_in(done.start_later, v, u, done.d)
}

// A flip is taken back: the two triangles come back to their places.
fn unflip(corners: &mut [u32], n: usize, done: Record)
    requires { Unflips corners.old n (words_of done) }
    ensures { corners.new ≡ put_at (put_at corners.old done.earlier (first_of (words_of done))) done.later (second_of (words_of done)) }
{
    let i = wide(done.earlier);
    let j = wide(done.later);
    put_triangle(corners, i, first_of(done));
    put_triangle(corners, j, second_of(done));
}

// The corners that are met from x on before y, on the way around a, are marked. The first words note the steps, one for each point, and as many behind them take the marks. (One list, as it is lent: a word is told by its place.)
fn mark_walk(corners: &[u32], n: usize, a: u32, notes: &mut [u32], points: usize, x: u32, y: u32)
    requires listed { Listed corners.now n points }
    requires notes_len { length notes.old ≡ points + points }
    requires routed { Routed (held corners.now n) a x y }
    ensures { Marked points notes.new (walk (length (around (held corners.now n) a)) x y (around (held corners.now n) a)) }
{
    notes.fill(0);
    Triangles { corners, count: n }.note_steps(a, &mut notes[..points]);
    let mut z = wide(x);
    let end = wide(y);
    // (k is for the proof that the walk ends)
    let mut k: usize = 0;
    while z != end {
        notes[points + z] = 1;
        z = wide(notes[z]) - 1;
        k += 1;
    }
}

// An a that a marked corner follows becomes b.
fn again_for(notes: &[u32], points: usize, a: u32, b: u32, x: u32, y: u32) -> u32
    requires { points + y < length notes.now }
    ensures { result ≡ again_by points notes.now a b x y }
{
    if x != a {
        return x;
    }
    if notes[points + wide(y)] == 0 { x } else { b }
}

fn restored_in(t: [u32; 3], notes: &[u32], points: usize, a: u32, b: u32) -> [u32; 3]
    requires { (On points (tri_of t)) × (length notes.now ≡ points + points) }
    ensures { tri_of result ≡ restored_by points notes.now a b (tri_of t) }
{
    [
        again_for(notes, points, a, b, t[0], t[1]),
        again_for(notes, points, a, b, t[1], t[2]),
        again_for(notes, points, a, b, t[2], t[0]),
    ]
}

fn restore_all(corners: &mut [u32], n: usize, notes: &[u32], points: usize, a: u32, b: u32)
    requires listed { Listed corners.old n points }
    requires notes_len { length notes.now ≡ points + points }
    ensures { Mapped (restored_by points notes.now a b) n corners.old corners.new }
{
    for i in 0..n {
        let t = triangle_at(corners, i);
        put_triangle(corners, i, restored_in(t, notes, points, a, b));
    }
}

// A collapse is taken back: the triangles on the walk get b again, and both triangles of the side come in with their labels. The number of triangles then.
fn uncollapse(
    corners: &mut [u32],
    labels: &mut [u8],
    n: usize,
    notes: &mut [u32],
    points: usize,
    done: Record,
) -> usize
    requires uncollapses { Uncollapses corners.old labels.old n (words_of done) }
    requires listed { Listed corners.old n points }
    requires notes_len { length notes.old ≡ points + points }
    ensures { Restored corners.old labels.old n (words_of done) corners.new labels.new result }
{
    let (x, y) = walk_of(done);
    let i = wide(done.earlier);
    let j = wide(done.later);
    mark_walk(corners, n, done.a, notes, points, x, y);
    restore_all(corners, n, notes, points, done.a, done.b);
    insert_triangle(corners, i, first_of(done));
    insert_triangle(corners, j, second_of(done));
    insert_label(labels, i, done.label_earlier as u8);
    insert_label(labels, j, done.label_later as u8);
    n + 2
}

// The last edit in force is taken back by its record; the number of triangles then.
pub fn take_back(
    corners: &mut [u32],
    labels: &mut [u8],
    work: &mut [u32],
    points: usize,
    n: usize,
    done: Record,
) -> usize
    requires standing { Standing corners.old labels.old n points work.old }
    requires undoable { Undoable points (length labels.old) (words_of done) (pair_of corners.old labels.old n) }
    ensures { TakenBack points corners.old labels.old n work.old (words_of done) corners.new labels.new result work.new }
{
    if done.kind == FLIP {
        unflip(corners, n, done);
        return n;
    }
    let both = points + points;
    uncollapse(corners, labels, n, &mut work[..both], points, done)
}
