// The judgement of closedness over lent work words, in time linear in the triangles and the points.
// The places of each corner are chained; at each corner v the step of each of its triangles, from x to y, is noted under x with a stamp of v. The x's differ where no directed side occurs twice,
// and following the notes leads through all of them and back where every reverse is there and the triangles are one ring.
// Where a corner fails, the place is sought from there on, corner by corner in rising order: the side from u to v is repeated where two places of u run to v, and lone where one runs to v and none comes from v.
// The work words: from 0 on a head for each point, from points on a stamp and a note for each point, from 3 * points on a link for each place of the corner list.
// (The indexes are written out by this layout, as the definitions have them: a function for each would need a contract of its own.)
// (No struct of corners, points and words: the facts that the functions share are of the words, which are lent to be written.)
#![tactic(auto)]

ghost use Rattle.std.specs.Prelude.{◌≡◌, true, false, ◌++◌, ℕ, suc, ◌+◌, ◌%◌, ◌<◌, ◌≤◌, length, drop, replicate};
ghost use Rattle.halfedges.specs.Place.{at, hop_to, trip, Sized, Inside};
ghost use Rattle.surface.specs.Triangle.{triangles};
ghost use Rattle.closing.specs.Closing.{needed, Lent, Zeroed, Judgement, ClosedDecided};
ghost use Rattle.closing.specs.Stages.{Chained, Ready, Entered, Judged, FirstUnringed, Unringed, Settled, Told};
ghost use Rattle.closing.specs.declared.Fault.TheVariants as Fault;
ghost use Rattle.closing.specs.Locating.{lower, Least, Unmet, Prepared, OriginsStamped, EndSought, NoneBelow, SideSought, Located};

use halfedges::{after, before, wide};
use surface::{Finding, triangle_at};
use words::{ahead, behind, put, word};

// The first count words become 0.
pub fn clear(work: &mut [u32], count: usize)
    requires { count ≤ length work.old }
    ensures { work.new ≡ replicate count 0 ++ drop count work.old }
{
    work[..count].fill(0);
}

// The words that the surface needs become 0.
pub fn clear_needed(corners: &[u32], points: usize, work: &mut [u32])
    requires { (length corners.now ≤ 98304) × (points ≤ 32768) × (needed corners.now points ≤ length work.old) }
    ensures { Zeroed corners.now points work.old work.new }
{
    clear(work, corners.len() / 3 * 32 + points * 16);
}

// Chains the places that name a corner: its head is one more than the last such place, and a place's link one more than the one before it.
pub fn link_corners(corners: &[u32], points: usize, work: &mut [u32])
    requires sized { Sized corners.now points work.old }
    requires by_index { (v : ℕ) → v < points → at work.old v ≡ 0 }
    ensures { Chained corners.now points work.old work.new }
{
    for k in 0..corners.len() {
        let v = wide(corners[k]);
        work[points + points + points + k] = work[v];
        work[v] = (k + 1) as u32;
    }
}

// Notes the step of each place of v under the corner that it leaves. The number of places, or none where two leave one corner.
fn note_steps(corners: &[u32], points: usize, v: usize, work: &mut [u32]) -> Option<usize>
    requires ready { Ready corners.now points work.old v }
    requires v_lt_points { v < points }
    ensures { Entered corners.now points v work.old work.new result }
{
    let mut p = wide(work[v]);
    let mut count: usize = 0;
    while p > 0 {
        let k = p - 1;
        let x = wide(corners[after(k)]);
        let slot = points + x + x;
        if wide(work[slot]) == v + 1 {
            return None;
        }
        work[slot] = (v + 1) as u32;
        work[slot + 1] = corners[before(k)];
        count += 1;
        p = wide(work[points + points + points + k]);
    }
    Some(count)
}

// The corner that follows x around v.
fn hop(points: usize, v: usize, work: &[u32], x: usize) -> Option<usize>
    requires inside { Inside points v work.now }
    requires v_lt_points { (v < points) × (x < points) }
    ensures { result ≡ hop_to points v work.now x }
{
    let slot = points + x + x;
    if wide(work[slot]) == v + 1 {
        Some(wide(work[slot + 1]))
    } else {
        None
    }
}

// Whether the hops from the corner first come back to it after count hops, and not before.
fn walk_ring(points: usize, v: usize, work: &[u32], first: usize, count: usize) -> bool
    requires inside { Inside points v work.now }
    requires v_lt_points { (v < points) × (first < points) }
    ensures { result ≡ trip (hop_to points v work.now) first count first }
{
    let mut x = first;
    for left in (0..count).rev() {
        let Some(next) = hop(points, v, work, x) else {
            return false;
        };
        x = next;
        if x == first {
            return left == 0;
        }
    }
    false
}

// Whether v is not in use, or the steps around v are one ring of at least least steps, with no two from one corner.
fn corner_ringed(corners: &[u32], points: usize, least: usize, v: usize, work: &mut [u32]) -> bool
    requires ready { Ready corners.now points work.old v }
    requires v_lt_points { (v < points) × (0 < least) }
    ensures { Judged corners.now points least v work.old work.new result }
{
    let p = wide(work[v]);
    if p == 0 {
        return true; // unused
    }
    let first = wide(corners[after(p - 1)]);
    let Some(count) = note_steps(corners, points, v, work) else {
        return false;
    };
    if count < least {
        return false;
    }
    walk_ring(points, v, work, first, count)
}

// The chains are made and the stamps are 0.
pub fn prepare(corners: &[u32], points: usize, work: &mut [u32])
    requires { Lent corners.now points work.old }
    ensures { Prepared corners.now points work.old work.new }
{
    clear(work, points + points + points);
    link_corners(corners, points, work);
}

// The first corner in use whose steps are not one ring of at least least steps, with no two from one corner.
fn first_unringed(corners: &[u32], points: usize, least: usize, work: &mut [u32]) -> Option<usize>
    requires ready { Ready corners.now points work.old 0 }
    requires least_nonzero { 0 < least }
    ensures { Unringed corners.now points least work.old work.new result }
{
    for v in 0..points {
        if !corner_ringed(corners, points, least, v, work) {
            return Some(v);
        }
    }
    None
}

// The same of lent words, which are 0 afterwards.
fn settle(corners: &[u32], points: usize, least: usize, work: &mut [u32]) -> Option<usize>
    requires lent { Lent corners.now points work.old }
    requires least_nonzero { 0 < least }
    ensures { Settled corners.now points least work.old work.new result }
{
    prepare(corners, points, work);
    let unringed = first_unringed(corners, points, least, work);
    clear_needed(corners, points, work);
    unringed
}

// The smaller one of x and the best so far, where x is found. (By a flag, so that the loops of both callers have no branch: each turn is one case.)
fn lowered(found: bool, x: usize, best: Option<usize>) -> Option<usize>
    ensures { result ≡ lower found x best }
{
    if !found {
        return best;
    }
    Some(best.map_or(x, |y| y.min(x)))
}

// The smallest corner to which two places of u run.
fn smallest_repeated(corners: &[u32], points: usize, u: usize, work: &mut [u32]) -> Option<usize>
    requires ready { Ready corners.now points work.old u }
    requires u_lt_points { u < points }
    ensures { EndSought corners.now points Fault.Repeated u work.old work.new result }
{
    let mut best = None;
    let mut p = word(work, u);
    while p > 0 {
        let k = p - 1;
        let x = ahead(corners, k);
        let slot = points + x + x;
        best = lowered(word(work, slot) == u + 1, x, best);
        put(work, slot, u + 1);
        p = word(work, points + points + points + k);
    }
    best
}

// Stamps the corners from which a side runs to u.
fn stamp_origins(corners: &[u32], points: usize, u: usize, work: &mut [u32])
    requires ready { Ready corners.now points work.old u }
    requires u_lt_points { u < points }
    ensures { OriginsStamped corners.now points u work.old work.new }
{
    let mut p = word(work, u);
    while p > 0 {
        let k = p - 1;
        let x = behind(corners, k);
        put(work, points + x + x, u + 1);
        p = word(work, points + points + points + k);
    }
}

// The smallest corner to which a place of u runs and that has no stamp of u.
fn smallest_unstamped(corners: &[u32], points: usize, u: usize, work: &[u32]) -> Option<usize>
    requires ready { Ready corners.now points work.now (suc u) }
    requires u_lt_points { u < points }
    ensures { Least (Unmet corners.now points work.now u 0) points result }
{
    let mut best = None;
    let mut p = word(work, u);
    while p > 0 {
        let k = p - 1;
        let x = ahead(corners, k);
        best = lowered(word(work, points + x + x) != u + 1, x, best);
        p = word(work, points + points + points + k);
    }
    best
}

// What is sought of a directed side: that it is repeated, or that it lacks its reverse.
#[derive(Clone, Copy, Debug, PartialEq, Eq)]
enum Fault {
    Repeated,
    Lone,
}

// The smallest end of such a side that starts at u.
fn smallest_end(
    corners: &[u32],
    points: usize,
    fault: Fault,
    u: usize,
    work: &mut [u32],
) -> Option<usize>
    requires ready { Ready corners.now points work.old u }
    requires u_lt_points { u < points }
    ensures { EndSought corners.now points fault u work.old work.new result }
{
    match fault {
        Fault::Repeated => smallest_repeated(corners, points, u, work),
        Fault::Lone => {
            stamp_origins(corners, points, u, work);
            smallest_unstamped(corners, points, u, work)
        }
    }
}

// The smallest such side. None starts below v.
fn first_side(
    corners: &[u32],
    points: usize,
    fault: Fault,
    v: usize,
    work: &mut [u32],
) -> Option<(u32, u32)>
    requires lent { Lent corners.now points work.old }
    requires v_le_points { (v ≤ points) × NoneBelow fault (triangles corners.now) v }
    ensures { SideSought corners.now points fault work.old work.new result }
{
    prepare(corners, points, work);
    for u in v..points {
        if let Some(end) = smallest_end(corners, points, fault, u, work) {
            return Some((u as u32, end as u32));
        }
    }
    None
}

// What is found where v is the first corner whose steps are not one ring: a repeated side first, then a lone side, then v itself.
fn locate(corners: &[u32], points: usize, v: usize, work: &mut [u32]) -> Finding
    requires lent { Lent corners.now points work.old }
    requires first_unringed { FirstUnringed corners.now points 1 v }
    ensures { Located corners.now points work.old work.new result }
{
    if let Some((from, to)) = first_side(corners, points, Fault::Repeated, v, work) {
        return Finding::Repeated(from, to);
    }
    if let Some((from, to)) = first_side(corners, points, Fault::Lone, v, work) {
        return Finding::Lone(from, to);
    }
    Finding::Split(v as u32)
}

// Judges rules (b) and (c) as the Rust's `closed_oriented_manifold` does, and says where they fail, in time linear in the triangles and the points. Only a surface that is not closed is searched, from the first corner that fails on.
// The lent words, 32 for each triangle and 16 for each point, may hold anything, and are 0 afterwards.
pub fn finding(corners: &[u32], points: usize, work: &mut [u32]) -> Finding
    requires { Lent corners.now points work.old }
    ensures { Judgement corners.now points work.old work.new result }
{
    let Some(v) = settle(corners, points, 1, work) else {
        return Finding::Closed;
    };
    let found = locate(corners, points, v, work);
    clear_needed(corners, points, work);
    found
}

// Whether the corners of each triangle differ: rule (a).
pub fn corners_differ(corners: &[u32]) -> bool
    requires { (length corners.now % 3 ≡ 0) × (length corners.now ≤ 98304) }
    ensures { Told corners.now result }
{
    for i in 0..corners.len() / 3 {
        let [a, b, c] = triangle_at(corners, i);
        if a == b {
            return false;
        }
        if b == c {
            return false;
        }
        if c == a {
            return false;
        }
    }
    true
}

// Decides all four rules, (a) to (d), the same way. With (a) to (c), two triangles with the same corners are a ring of two steps.
pub fn closed_surface(corners: &[u32], points: usize, work: &mut [u32]) -> bool
    requires { Lent corners.now points work.old }
    ensures { ClosedDecided corners.now points work.old work.new result }
{
    if !corners_differ(corners) {
        clear_needed(corners, points, work);
        return false;
    }
    settle(corners, points, 3, work).is_none()
}
