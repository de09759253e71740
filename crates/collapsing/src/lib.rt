// The collapse pass of a round, from the lists to the words that say which triangles go and what the corners of the others become. The lists stay as they are.
#![tactic(auto)]

ghost use Rattle.std.specs.Prelude.{ℕ, ◌+◌, ◌*◌, ◌/◌, ◌<◌, ◌≤◌, ◌≡◌, length};
ghost use Rattle.surface.specs.Triangle.{triangles};
ghost use Rattle.surface.specs.Closed.{Closed};
ghost use Rattle.chains.specs.LabelMarks.{Labelled};
ghost use Rattle.chains.specs.Marks.{Lists};
ghost use Rattle.oracle.specs.Scene.{scene};
ghost use Rattle.scores.specs.Measures.{Filled};
ghost use Rattle.slivers.specs.Ready.{scene_of};
ghost use Rattle.collapsing.specs.Areas.{weak_from, areas_of};
ghost use Rattle.collapsing.specs.Noting.{CarriedAt, Collapsible, Noted, ListsNoted, Chosen, Clean, Collapsed};

use field::Terms;
use marks::{chain_at, clear_from, mark_labels, mark_sides};
use scores::{mark_weak, measure_sides, pick_candidates};
use sides::{count_valences, list_sides};
use slivers::Pass;
use sorting::sort;

// Where the areas of the work words begin, in the order in which they are made.
#[derive(Clone, Copy, Debug, PartialEq, Eq)]
pub struct Areas {
    pub twins: usize,
    pub sides: usize,
    pub chains: usize,
    pub carried: usize,
    pub stamps: usize,
    pub lones: usize,
    pub weak: usize,
    pub keys: usize,
    pub items: usize,
    pub spare: usize,
    pub touched: usize,
}

impl Areas {
    // Those of a list of corners and of so many points.
    pub fn of(corners: &[u32], heads: usize) -> Self
        requires { Lists corners.now heads }
        ensures { result ≡ areas_of corners.now heads }
    {
        let places = corners.len();
        let twins = heads * 3 + places;
        let sides = heads * 3 + places * 3;
        let chains = sides + places / 2;
        let carried = chains + heads + places;
        let stamps = carried + heads * 8;
        let lones = stamps + heads;
        let weak = lones + places;
        let keys = weak + places / 3;
        let items = keys + places / 2 * 2;
        let spare = items + places / 2;
        let touched = spare + places / 2;
        Areas {
            twins,
            sides,
            chains,
            carried,
            stamps,
            lones,
            weak,
            keys,
            items,
            spare,
            touched,
        }
    }
}

// The marks of the labels in the words from `carried` on.
fn mark_labels_at(corners: &[u32], labels: &[u8], heads: usize, carried: usize, work: &mut [u32])
    requires lists { Lists corners.now heads }
    requires labelled { Labelled corners.now labels.now }
    requires heads_in_bounds { carried + heads * 8 ≤ length work.old }
    ensures { CarriedAt corners.now labels.now heads carried work.old work.new }
{
    mark_labels(corners, labels, heads, &mut work[carried..])
}

// The sides in rising order with their twins, the valences, the chains, the labels of the corners, and which sides' ends have only the opposite corners in common. Returns how many sides there are.
fn note_lists(corners: &[u32], labels: &[u8], heads: usize, work: &mut [u32]) -> usize
    requires lists { Lists corners.now heads }
    requires labelled { Labelled corners.now labels.now }
    requires closed { Closed (triangles corners.now) }
    requires heads_in_bounds { weak_from corners.now heads ≤ length work.old }
    ensures { ListsNoted corners.now labels.now heads work.old work.new result }
{
    let at = Areas::of(corners, heads);
    let count = list_sides(corners, heads, work);
    count_valences(corners, heads, work);
    chain_at(corners, heads, at.chains, work);
    mark_labels_at(corners, labels, heads, at.carried, work);
    mark_sides(corners, heads, at.chains, at.stamps, at.lones, work);
    count
}

// The candidates: short sides of weak triangles, in the order of their lengths. Returns how many.
fn note_candidates(pass: &Pass, count: usize, work: &mut [u32]) -> usize
    requires collapsible { Collapsible pass.now.points.now pass.now.corners.now pass.now.labels.now pass.now.heads work.old }
    requires noted { Noted pass.now.corners.now pass.now.labels.now pass.now.heads work.old count }
    ensures { Chosen (scene_of pass.now) pass.now.corners.now pass.now.labels.now pass.now.heads count work.old work.new result }
{
    let at = Areas::of(pass.corners, pass.heads);
    mark_weak(
        pass.points,
        pass.corners,
        pass.labels,
        &pass.terms,
        at.weak,
        work,
    );
    let sum = measure_sides(pass.points, pass.corners, at.sides, count, at.keys, work);
    let limit = 0.36 * (sum / (count as f64));
    let n = pick_candidates(
        pass.points,
        pass.corners,
        at.twins,
        at.sides,
        count,
        at.weak,
        at.items,
        limit,
        work,
    );
    sort(work, at.keys, count, at.items, at.spare, n);
    n
}

// Each of the `count` words from `from` on is its own number.
fn number_from(from: usize, count: usize, work: &mut [u32])
    requires { (from + count ≤ length work.old) × (count ≤ 32768) }
    ensures { Filled (λ (i : ℕ). i) from work.old work.new count }
{
    for v in 0..count {
        work[from + v] = v as u32;
    }
}

// No corner is touched, each stays what it is, and no triangle goes.
fn begin_collapses(heads: usize, triangles: usize, touched: usize, work: &mut [u32])
    requires { (touched + heads * 2 + triangles ≤ length work.old) × (heads ≤ 32768) }
    ensures { Clean heads triangles touched work.old work.new }
{
    clear_from(touched, heads, work);
    number_from(touched + heads, heads, work);
    clear_from(touched + heads * 2, triangles, work);
}

// The collapse pass: what becomes of the corners and the triangles stands in the last words.
pub fn note_collapses(
    points: &[f64],
    corners: &[u32],
    labels: &[u8],
    terms: &Terms,
    heads: usize,
    work: &mut [u32],
)
    requires { Collapsible points.now corners.now labels.now heads work.old }
    ensures { Collapsed (scene points.now terms.now.coefficients.now terms.now.powers.now) corners.now labels.now heads work.old work.new }
{
    let at = Areas::of(corners, heads);
    let pass = Pass {
        points,
        corners,
        labels,
        terms: *terms,
        heads,
        chains: at.chains,
        carried: at.carried,
        marks: at.lones,
        touched: at.touched,
    };
    let count = note_lists(corners, labels, heads, work);
    let n = note_candidates(&pass, count, work);
    begin_collapses(heads, labels.len(), at.touched, work);
    pass.collapse_candidates(at.sides, at.items, n, work);
}
