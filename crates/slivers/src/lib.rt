// The collapse pass of a round: which short sides of weak triangles are collapsed, noted in work words. The lists stay as they are: a corner's word behind the touched ones says which corner it becomes, and a triangle's word behind those whether it goes.
#![tactic(auto)]

ghost use Rattle.std.specs.Prelude.{◌≡◌, true, false, ℕ, ◌+◌, ◌*◌, ◌/◌, ◌%◌, ◌<◌, ◌≤◌, length, get_or};
ghost use Rattle.surface.specs.Triangle.{triangles};
ghost use Rattle.surface.specs.Edit as Edit;
ghost use Rattle.halfedges.specs.Place.{at, nx};
ghost use Rattle.chains.specs.Chain.{walk};
ghost use Rattle.chains.specs.Marks.{Lists, Walking};
ghost use Rattle.scores.specs.Measures.{side_at};
ghost use Rattle.slivers.specs.Survey.{On, Survey};
ghost use Rattle.oracle.specs.Scene as Scene;
ghost use Rattle.slivers.specs.Cover.{Lacks, Covers};
ghost use Rattle.slivers.specs.Touch.{touch_at};
ghost use Rattle.slivers.specs.Trials.{tried, trials};
ghost use Rattle.slivers.specs.Decide.{may_at, attempted, keeping, way_of};
ghost use Rattle.slivers.specs.Stand.{pair_of};
ghost use Rattle.slivers.specs.Ready.{scene_of, Prepared, Walks, collapsed_words, Advance, Items, Passing};

use field::Terms;
use float::{clamp, min};
use scores::{score, score_at};
use words::{ahead, behind, put, word};

// A collapse of a side: the end that it keeps, and the one that it removes.
#[derive(Clone, Copy, Debug, PartialEq, Eq)]
struct Collapse {
    keep: usize,
    remove: usize,
}

impl Collapse {
    // What the corner x becomes.
    fn put(self, x: usize) -> usize
        ensures { result ≡ Edit.put self.keep self.remove x }
    {
        if x == self.remove { self.keep } else { x }
    }
}

// What a pass reads: the lists and the terms of their field, the number of points, and where in the work words its areas begin: the chains, the marks of the labels, those of the sides, and the touched corners.
#[derive(Clone, Copy)]
pub struct Pass<'a> {
    pub points: &'a [f64],
    pub corners: &'a [u32],
    pub labels: &'a [u8],
    pub terms: Terms<'a>,
    pub heads: usize,
    pub chains: usize,
    pub carried: usize,
    pub marks: usize,
    pub touched: usize,
}

impl<'a> Pass<'a> {
    // Whether b carries the label l and a does not.
    fn lacks(&self, a: usize, b: usize, l: usize, work: &[u32]) -> bool
        requires { (self.now.carried + a * 8 + l < length work.now) × (self.now.carried + b * 8 + l < length work.now) }
        ensures { Lacks work.now self.now.carried a b l result }
    {
        if word(work, self.carried + b * 8 + l) == 0 {
            return false;
        }
        word(work, self.carried + a * 8 + l) == 0
    }

    // Whether every label that b carries is one of a's.
    fn covers(&self, a: usize, b: usize, work: &[u32]) -> bool
        requires { (self.now.carried + a * 8 + 8 ≤ length work.now) × (self.now.carried + b * 8 + 8 ≤ length work.now) }
        ensures { Covers work.now self.now.carried a b result }
    {
        for l in 0..8 {
            if self.lacks(a, b, l, work) {
                return false;
            }
        }
        true
    }

    // The shape that a collapse gives the triangle i.
    fn moved_score(&self, way: Collapse, i: usize) -> f64
        requires survey { Survey self.now.points.now self.now.corners.now self.now.labels.now }
        requires i_in_bounds { (i < length self.now.labels.now) × (On self.now.points.now way.keep) }
        ensures { result ≡ Scene.score (scene_of self.now) (Edit.renamed way.keep way.remove (Edit.place (triangles self.now.corners.now) i)) (get_or self.now.labels.now i 0) }
    {
        let a = way.put(word(self.corners, i * 3));
        let b = way.put(word(self.corners, i * 3 + 1));
        let c = way.put(word(self.corners, i * 3 + 2));
        score(self.points, &self.terms, a, b, c, self.labels[i])
    }

    // One triangle more, that of the place k of the removed end: the lesser of its shape and the least before, if it stays well enough shaped. One on the side goes, and is not looked at.
    fn try_place(&self, way: Collapse, k: usize, least: f64) -> Option<f64>
        requires survey { Survey self.now.points.now self.now.corners.now self.now.labels.now }
        requires k_in_bounds { (k < length self.now.corners.now) × (at self.now.corners.now k ≡ way.remove) × (way.remove ≡ way.keep → ⊥) × (On self.now.points.now way.keep) }
        ensures { result ≡ tried (scene_of self.now) self.now.corners.now self.now.labels.now way.keep way.remove k least }
    {
        if ahead(self.corners, k) == way.keep {
            return Some(least);
        }
        if behind(self.corners, k) == way.keep {
            return Some(least);
        }
        let i = k / 3;
        let q = self.moved_score(way, i);
        if 0.3 <= q {
            // No floor is higher: the triangle's own shape need not be known.
            return Some(min(least, q));
        }
        let own = score_at(self.points, self.corners, self.labels, &self.terms, i);
        if q < clamp(own, 0.05, 0.3) {
            return None;
        }
        Some(min(least, q))
    }

    // The least shape of the triangles of the removed end, in the order of the list, if each stays well enough shaped.
    fn try_places(&self, way: Collapse, work: &[u32]) -> Option<f64>
        requires survey { Survey self.now.points.now self.now.corners.now self.now.labels.now }
        requires walks { Walks self.now.corners.now self.now.heads work.now self.now.chains way.keep way.remove (length self.now.points.now) }
        ensures { result ≡ trials (scene_of self.now) self.now.corners.now self.now.labels.now way.keep way.remove }
    {
        let mut least = f64::INFINITY;
        let mut q = word(work, self.chains + way.remove);
        while q > 0 {
            let k = q - 1;
            least = self.try_place(way, k, least)?;
            q = word(work, self.chains + self.heads + k);
        }
        Some(least)
    }

    // The least shape that a collapse leaves, if the labels allow it and the shapes do.
    fn attempt(&self, way: Collapse, work: &[u32]) -> Option<f64>
        requires ready { Prepared self.now work.now }
        requires keep_lt_heads { (way.keep < self.now.heads) × (way.remove < self.now.heads) × (way.remove ≡ way.keep → ⊥) }
        ensures { result ≡ attempted (scene_of self.now) (pair_of self.now.corners.now self.now.labels.now) way.keep way.remove }
    {
        if !self.covers(way.keep, way.remove, work) {
            return None;
        }
        self.try_places(way, work)
    }

    // The collapse of the side between a and b, if there is one: the way that leaves the greater least shape.
    fn direction(&self, a: usize, b: usize, work: &[u32]) -> Option<Collapse>
        requires ready { Prepared self.now work.now }
        requires a_lt_heads { (a < self.now.heads) × (b < self.now.heads) × (a ≡ b → ⊥) }
        ensures { result ≡ way_of (keeping a b) (keeping b a) (attempted (scene_of self.now) (pair_of self.now.corners.now self.now.labels.now) a b) (attempted (scene_of self.now) (pair_of self.now.corners.now self.now.labels.now) b a) }
    {
        let first = Collapse { keep: a, remove: b };
        let second = Collapse { keep: b, remove: a };
        match (self.attempt(first, work), self.attempt(second, work)) {
            (Some(x), Some(y)) => { if x < y { Some(second) } else { Some(first) } }
            (Some(_), None) => Some(first),
            (None, Some(_)) => Some(second),
            (None, None) => None,
        }
    }

    // Touches the three corners of the triangle of the place k.
    fn touch(&self, k: usize, work: &mut [u32])
        requires lists { Lists self.now.corners.now self.now.heads }
        requires k_in_bounds { (k < length self.now.corners.now) × (self.now.touched + self.now.heads ≤ length work.old) }
        ensures { work.new ≡ touch_at self.now.corners.now self.now.touched k work.old }
    {
        let a = word(self.corners, k);
        let b = ahead(self.corners, k);
        let c = behind(self.corners, k);
        put(work, self.touched + a, 1);
        put(work, self.touched + b, 1);
        put(work, self.touched + c, 1);
    }

    // Touches the corners of the triangles of v.
    fn touch_around(&self, v: usize, work: &mut [u32])
        requires walking { Walking self.now.corners.now self.now.heads work.old self.now.chains self.now.touched }
        requires v_lt_points { v < self.now.heads }
        ensures { work.new ≡ walk (touch_at self.now.corners.now self.now.touched) self.now.corners.now v (length self.now.corners.now) work.old }
    {
        let mut q = word(work, self.chains + v);
        while q > 0 {
            let k = q - 1;
            self.touch(k, work);
            q = word(work, self.chains + self.heads + k);
        }
    }

    // Notes the collapse of the side of the places k and t.
    fn collapse_side(&self, way: Collapse, k: usize, t: usize, work: &mut [u32])
        requires walking { Walking self.now.corners.now self.now.heads work.old self.now.chains self.now.touched }
        requires keep_lt_points { (way.keep < self.now.heads) × (way.remove < self.now.heads) × (k < length self.now.corners.now) × (t < length self.now.corners.now) × (self.now.touched + self.now.heads * 2 + length self.now.corners.now / 3 ≤ length work.old) }
        ensures { work.new ≡ collapsed_words self.now.corners.now self.now.heads self.now.touched way.keep way.remove k t work.old }
    {
        self.touch_around(way.keep, work);
        self.touch_around(way.remove, work);
        put(work, self.touched + self.heads + way.remove, way.keep);
        put(work, self.touched + self.heads * 2 + k / 3, 1);
        put(work, self.touched + self.heads * 2 + t / 3, 1);
    }

    // Whether the pass may collapse the side of the place k: both ends are untouched, have only the opposite corners in common, and not three triangles each.
    fn may_collapse(&self, k: usize, work: &[u32]) -> bool
        requires ready { Prepared self.now work.now }
        requires k_in_bounds { k < length self.now.corners.now }
        ensures { result ≡ may_at self.now.corners.now work.now self.now.touched k }
    {
        let a = word(self.corners, k);
        let b = ahead(self.corners, k);
        if word(work, self.touched + a) != 0 {
            return false;
        }
        if word(work, self.touched + b) != 0 {
            return false;
        }
        if word(work, self.marks + k) == 0 {
            return false;
        }
        if word(work, self.heads + a) == 3 {
            return word(work, self.heads + b) != 3;
        }
        true
    }

    // The side of the place k, tried.
    fn collapse_candidate(&self, k: usize, work: &mut [u32])
        requires ready { Prepared self.now work.old }
        requires k_in_bounds { k < length self.now.corners.now }
        ensures { Advance (scene_of self.now) self.now.corners.now self.now.labels.now self.now.heads self.now.touched (side_at self.now.corners.now k) work.old work.new }
    {
        if !self.may_collapse(k, work) {
            return;
        }
        let a = word(self.corners, k);
        let b = ahead(self.corners, k);
        let t = word(work, self.heads * 3 + self.corners.len() + k);
        if let Some(way) = self.direction(a, b, work) {
            self.collapse_side(way, k, t, work);
        }
    }

    // The candidates in their order.
    pub fn collapse_candidates(&self, sides: usize, items: usize, count: usize, work: &mut [u32])
        requires ready { Prepared self.now work.old }
        requires items { Items self.now.corners.now work.old sides items count self.now.touched }
        ensures { Passing (scene_of self.now) self.now.corners.now self.now.labels.now self.now.heads sides items self.now.touched work.old work.new count }
    {
        for j in 0..count {
            let i = word(work, items + j);
            let k = word(work, sides + i);
            self.collapse_candidate(k, work);
        }
    }
}
