// Marks in work words, linear in the triangles: chains of the places of each corner, the labels that a corner carries, the sides whose ends have only the opposite corners for common neighbours, and the corners that are joined across a side.
// The words before `chains` are those of `sides`: the valences from points on, and the twins from 3 * points + the number of places on.
#![tactic(auto)]

ghost use Rattle.std.specs.Prelude.{◌≡◌, true, false, ℕ, ◌+◌, ◌*◌, ◌%◌, ◌<◌, ◌≤◌, length};
ghost use Rattle.halfedges.specs.Place.{at, nx, pv};
ghost use Rattle.chains.specs.Chain.{walk};
ghost use Rattle.chains.specs.Marks.{Lists, Marking, Walking, stamp_at, Cleared};
ghost use Rattle.chains.specs.Clear.{ChainedAt};
ghost use Rattle.chains.specs.SideMarks.{Told, Strange, Stamped, Marked, MarkedOf, SidesMarked};
ghost use Rattle.chains.specs.AcrossMarks.{AcrossOf, AcrossBelow};
ghost use Rattle.chains.specs.LabelMarks.{Labelled, LabelsMarked};

use halfedges::after;
use words::{ahead, behind, put, word};

// Chains the places of each corner in rising order: its head is one more than its first place, and a place's link one more than the next. Heads from 0 on, links behind them.
fn chain_places(corners: &[u32], points: usize, work: &mut [u32])
    requires lists { Lists corners.now points }
    requires corners_in_bounds { points + length corners.now ≤ length work.old }
    ensures { ChainedAt corners.now points 0 work.old work.new }
{
    work[..points].fill(0);
    for k in (0..corners.len()).rev() {
        let v = word(corners, k);
        let next = word(work, v);
        put(work, points + k, next);
        put(work, v, k + 1);
    }
}

// The chains in the words from `chains` on.
pub fn chain_at(corners: &[u32], points: usize, chains: usize, work: &mut [u32])
    requires lists { Lists corners.now points }
    requires corners_in_bounds { chains + points + length corners.now ≤ length work.old }
    ensures { ChainedAt corners.now points chains work.old work.new }
{
    chain_places(corners, points, &mut work[chains..])
}

// Marks under 8 * v + l that a triangle with the label l names v. (That of `questions` ends at the first opposed label.)
pub fn mark_labels(corners: &[u32], labels: &[u8], points: usize, work: &mut [u32])
    requires lists { Lists corners.now points }
    requires labelled { Labelled corners.now labels.now }
    requires points_in_bounds { points * 8 ≤ length work.old }
    ensures { LabelsMarked corners.now labels.now points work.old work.new }
{
    work[..points * 8].fill(0);
    for k in 0..corners.len() {
        let v = word(corners, k);
        let l = usize::from(labels[k / 3]);
        put(work, v * 8 + l, 1);
    }
}

// The `count` words from `from` on become 0. (Said word by word, as the marks are read; that of `closing` says what the whole list is.)
pub fn clear_from(from: usize, count: usize, work: &mut [u32])
    requires { from + count ≤ length work.old }
    ensures { Cleared from count work.old work.new }
{
    work[from..from + count].fill(0);
}

// How many points there are, and where the chains, the stamps and the marks start in the words.
#[derive(Clone, Copy, Debug, PartialEq, Eq)]
struct Areas {
    points: usize,
    chains: usize,
    stamps: usize,
    marks: usize,
}

// Stamps each corner that follows v in a triangle with v + 1.
fn stamp_around(corners: &[u32], areas: Areas, v: usize, work: &mut [u32])
    requires walking { Walking corners.now areas.points work.old areas.chains areas.stamps }
    requires v_lt_points { v < areas.points }
    ensures { work.new ≡ walk (stamp_at corners.now areas.stamps v) corners.now v (length corners.now) work.old }
{
    let mut q = word(work, areas.chains + v);
    while q > 0 {
        let k = q - 1;
        let x = ahead(corners, k);
        put(work, areas.stamps + x, v + 1);
        q = word(work, areas.chains + areas.points + k);
    }
}

// Whether the corner that follows the place k is stamped, and neither x nor y. (The bounds are those of the one place that is read, as `words` asks them.)
fn strange(
    corners: &[u32],
    stamps: usize,
    stamp: usize,
    x: usize,
    y: usize,
    k: usize,
    work: &[u32],
) -> bool
    requires corners_len { (length corners.now % 3 ≡ 0) × (length corners.now ≤ 98304) × (k < length corners.now) }
    requires k_in_bounds { stamps + at corners.now (nx k) < length work.now }
    ensures { Strange corners.now work.now stamps stamp x y k result }
{
    let z = ahead(corners, k);
    word(work, stamps + z) == stamp && z != x && z != y
}

// Whether each stamped corner that follows b is x or y.
fn apart(
    corners: &[u32],
    areas: Areas,
    stamp: usize,
    b: usize,
    x: usize,
    y: usize,
    work: &[u32],
) -> bool
    requires walking { Walking corners.now areas.points work.now areas.chains areas.stamps }
    requires b_lt_points { b < areas.points }
    ensures { Told corners.now work.now areas.stamps stamp b x y result }
{
    let mut q = word(work, areas.chains + b);
    while q > 0 {
        let k = q - 1;
        if strange(corners, areas.stamps, stamp, x, y, k, work) {
            return false;
        }
        q = word(work, areas.chains + areas.points + k);
    }
    true
}

// Where the other end b of the side that starts at the place k of v has no more triangles than v: marks the side, at both of its places, with 1 where its ends have only the opposite corners in common, else with 0.
fn mark_side(corners: &[u32], areas: Areas, v: usize, k: usize, work: &mut [u32])
    requires marking { Marking corners.now areas.points work.old areas.chains areas.stamps areas.marks }
    requires stamped { Stamped corners.now areas.points work.old areas.stamps v }
    requires k_in_bounds { (k < length corners.now) × (at corners.now k ≡ v) }
    ensures { Marked corners.now areas.points areas.marks k work.old work.new }
{
    let b = ahead(corners, k);
    if word(work, areas.points + v) < word(work, areas.points + b) {
        return;
    }
    let t = word(work, areas.points * 3 + corners.len() + k);
    let x = behind(corners, k);
    let y = behind(corners, t);
    let flag = usize::from(apart(corners, areas, v + 1, b, x, y, work));
    put(work, areas.marks + k, flag);
    put(work, areas.marks + t, flag);
}

fn mark_sides_of(corners: &[u32], areas: Areas, v: usize, work: &mut [u32])
    requires marking { Marking corners.now areas.points work.old areas.chains areas.stamps areas.marks }
    requires stamped { Stamped corners.now areas.points work.old areas.stamps v }
    requires v_lt_points { v < areas.points }
    ensures { MarkedOf corners.now areas.points areas.marks v (length corners.now) work.old work.new }
{
    let mut q = word(work, areas.chains + v);
    while q > 0 {
        let k = q - 1;
        mark_side(corners, areas, v, k, work);
        q = word(work, areas.chains + areas.points + k);
    }
}

// Marks each side, at both of its places.
pub fn mark_sides(
    corners: &[u32],
    points: usize,
    chains: usize,
    stamps: usize,
    marks: usize,
    work: &mut [u32],
)
    requires { Marking corners.now points work.old chains stamps marks }
    ensures { SidesMarked corners.now stamps marks work.old work.new }
{
    let areas = Areas {
        points,
        chains,
        stamps,
        marks,
    };
    clear_from(stamps, points, work);
    for v in 0..points {
        stamp_around(corners, areas, v, work);
        mark_sides_of(corners, areas, v, work);
    }
}

// Marks each place of v with 1 where v is joined to the corner across the side opposite to it, else with 0.
fn mark_across_of(corners: &[u32], areas: Areas, v: usize, work: &mut [u32])
    requires marking { Marking corners.now areas.points work.old areas.chains areas.stamps areas.marks }
    requires stamped { Stamped corners.now areas.points work.old areas.stamps v }
    requires v_lt_points { v < areas.points }
    ensures { AcrossOf corners.now areas.points areas.marks v (length corners.now) work.old work.new }
{
    let mut q = word(work, areas.chains + v);
    while q > 0 {
        let k = q - 1;
        let t = word(work, areas.points * 3 + corners.len() + after(k));
        let d = behind(corners, t);
        let flag = usize::from(word(work, areas.stamps + d) == v + 1);
        put(work, areas.marks + k, flag);
        q = word(work, areas.chains + areas.points + k);
    }
}

// Marks each place so. The loop is that of `mark_sides` but for its last call: with a closure for that, the invariant would be the closure's, and no shorter.
pub fn mark_across(
    corners: &[u32],
    points: usize,
    chains: usize,
    stamps: usize,
    marks: usize,
    work: &mut [u32],
)
    requires { Marking corners.now points work.old chains stamps marks }
    ensures { AcrossBelow corners.now points stamps marks points work.old work.new }
{
    let areas = Areas {
        points,
        chains,
        stamps,
        marks,
    };
    clear_from(stamps, points, work);
    for v in 0..points {
        stamp_around(corners, areas, v, work);
        mark_across_of(corners, areas, v, work);
    }
}
