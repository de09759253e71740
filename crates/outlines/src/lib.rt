// Layer outlines: the loops in which a plane between two heights crosses a closed surface.
// A place k of the corner list stands for the side that its triangle runs from the corner there to the one after it.
// The lent words, area by area: what `list_sides` leaves; a word for each point, its kind, 1 where it lies above the plane and else 0; and a word for each place, the mark, 1 where some loop has its side. A side's mark is that of the place which runs it from its smaller corner.
// The answer, `places`, has three words for each crossed side: the smaller corner, the larger, and the number of its loop.
#![tactic(auto)]

ghost use Rattle.std.specs.Prelude.{◌≡◌, ◌+◌, ◌*◌, ◌-◌, ◌/◌, ◌%◌, ◌<◌, ◌≤◌, length};
ghost use Rattle.sides.specs.Side.{twins-from, sides-from, sorted};
ghost use Rattle.sides.specs.Order.{Upward};
ghost use Rattle.outlines.specs.Stages.Trace.{kinds-from, marks-from, open_count, Unmarked, next_place, upper_of, open?, Visited, follow, loop_of, Walkable, Followed, SideTraced, Arranged, Traced};
ghost use Rattle.outlines.specs.Stages.Whole.{Kinded, SidesPrepared, KindsKept, Outlined};

use halfedges::{after, before, wide};
use sides::list_sides;
use words::{ahead, behind, put, word};

// A surface whose corners and points are few enough, and where its areas start in the lent words.
#[derive(Clone, Copy)]
struct Surface<'a> {
    corners: &'a [u32],
    points: usize,
    ghost few: { length corners.now ≤ 98304 },
    ghost low: { points ≤ 32768 },
}

impl<'a> Surface<'a> {
    // The twins of the places.
    fn twins(&self) -> usize
        ensures { result ≡ twins-from self.now.corners.now self.now.points }
    {
        self.points + self.points + self.points + self.corners.len()
    }

    // The sides, in rising order, each by its place.
    fn sides(&self) -> usize
        ensures { result ≡ sides-from self.now.corners.now self.now.points }
    {
        self.twins() + self.corners.len() + self.corners.len()
    }

    // The kinds of the points.
    fn kinds(&self) -> usize
        ensures { result ≡ kinds-from self.now.corners.now self.now.points }
    {
        self.sides() + self.corners.len()
    }

    // The marks of the places.
    fn marks(&self) -> usize
        ensures { result ≡ marks-from self.now.corners.now self.now.points }
    {
        self.kinds() + self.points
    }
}

// The next place of a loop: of the other crossed side of the triangle of k, in the triangle beyond it.
fn next_place(surface: &Surface, work: &[u32], k: usize) -> usize
    requires walkable { Walkable surface.now.corners.now surface.now.points work.now }
    requires k_in_bounds { k < length surface.now.corners.now }
    ensures { result ≡ next_place surface.now.corners.now surface.now.points work.now k }
{
    let twins = surface.twins();
    let kinds = surface.kinds();
    let x = wide(surface.corners[k]);
    let z = behind(surface.corners, k);
    let from = word(work, kinds + x);
    let apex = word(work, kinds + z);
    if apex == from {
        let j = after(k);
        return word(work, twins + j);
    }
    let j = before(k);
    word(work, twins + j)
}

// Of the places k and t of a side, the one that runs it from its smaller corner. (The bounds are those of the one place that is read, as `words` asks them.)
fn up_place(corners: &[u32], k: usize, t: usize) -> usize
    requires { (length corners.now % 3 ≡ 0) × (length corners.now ≤ 98304) × (k < length corners.now) }
    ensures { result ≡ upper_of corners.now k t }
{
    let x = wide(corners[k]);
    let y = ahead(corners, k);
    if x < y {
        return k;
    }
    t
}

// Whether the plane crosses the side of k and the place k has no mark. (Two steps, no `&&`: what is not crossed is told apart from what has a mark.)
fn is_open(surface: &Surface, work: &[u32], k: usize) -> bool
    requires walkable { Walkable surface.now.corners.now surface.now.points work.now }
    requires k_in_bounds { k < length surface.now.corners.now }
    ensures { result ≡ open? surface.now.corners.now surface.now.points work.now k }
{
    let kinds = surface.kinds();
    let marks = surface.marks();
    let x = wide(surface.corners[k]);
    let y = ahead(surface.corners, k);
    let from = word(work, kinds + x);
    let to = word(work, kinds + y);
    if from == to {
        return false;
    }
    word(work, marks + k) == 0
}

// Marks the side of k, and writes its corners and the loop's number at the answer's place `filled`. Returns the side's place that runs it from its smaller corner.
fn visit(
    surface: &Surface,
    work: &mut [u32],
    places: &mut [u32],
    k: usize,
    filled: usize,
    number: u32,
) -> usize
    requires walkable { Walkable surface.now.corners.now surface.now.points work.old }
    requires k_in_bounds { k < length surface.now.corners.now }
    requires filled_in_bounds { 3 * filled + 2 < length places.old }
    ensures { Visited surface.now.corners.now surface.now.points work.old work.new places.old places.new k filled number result }
{
    let twins = surface.twins();
    let marks = surface.marks();
    let t = word(work, twins + k);
    let u = up_place(surface.corners, k, t);
    let low = wide(surface.corners[u]);
    let high = ahead(surface.corners, u);
    put(work, marks + u, 1);
    put(places, 3 * filled, low);
    put(places, 3 * filled + 1, high);
    places[3 * filled + 2] = number;
    u // the upper place
}

// Visits a loop's places from k on until it is back at its start, or all of the answer's places are filled: `filled` are at the call. Returns how many are filled then.
fn follow_on(
    surface: &Surface,
    work: &mut [u32],
    places: &mut [u32],
    start: usize,
    k: usize,
    filled: usize,
    number: u32,
) -> usize
    requires walkable { Walkable surface.now.corners.now surface.now.points work.old }
    requires k_in_bounds { k < length surface.now.corners.now }
    requires filled_le_total { filled ≤ length places.old / 3 }
    ensures { Followed surface.now.corners.now surface.now.points work.old work.new places.old places.new (follow (next_place surface.now.corners.now surface.now.points work.old) start (length places.old / 3 - filled) k) filled number result }
{
    let mut at = k;
    let total = places.len() / 3;
    for f in filled..total {
        if at == start {
            return f;
        }
        visit(surface, work, places, at, f, number);
        at = next_place(surface, work, at);
    }
    total
}

// Visits all places of the loop of the side of k, which goes on through the triangle that runs it from its smaller corner: k is that place. Returns how many of the answer's places are filled then.
fn follow_loop(
    surface: &Surface,
    work: &mut [u32],
    places: &mut [u32],
    k: usize,
    filled: usize,
    number: u32,
) -> usize
    requires walkable { Walkable surface.now.corners.now surface.now.points work.old }
    requires upward { Upward surface.now.corners.now k }
    requires filled_lt_total { filled < length places.old / 3 }
    ensures { Followed surface.now.corners.now surface.now.points work.old work.new places.old places.new (loop_of surface.now.corners.now surface.now.points work.old (length places.old / 3) filled k) filled number result }
{
    let start = visit(surface, work, places, k, filled, number);
    let at = next_place(surface, work, start);
    follow_on(surface, work, places, start, at, filled + 1, number)
}

// Visits all places of the loop that starts with k, where the side of k is crossed and in no loop yet. Returns how many of the answer's places are filled then.
fn trace_side(
    surface: &Surface,
    work: &mut [u32],
    places: &mut [u32],
    k: usize,
    filled: usize,
    number: u32,
) -> usize
    requires walkable { Walkable surface.now.corners.now surface.now.points work.old }
    requires upward { Upward surface.now.corners.now k }
    ensures { SideTraced surface.now.corners.now surface.now.points (length places.old / 3) k work.old work.new places.old places.new filled number result }
{
    if !is_open(surface, work, k) {
        return filled;
    }
    if filled >= places.len() / 3 {
        return filled;
    }
    follow_loop(surface, work, places, k, filled, number)
}

// All loops: of each of the `count` sides in rising order the loop that it starts, if it is in none before. Returns the number of loops.
fn trace(surface: &Surface, work: &mut [u32], places: &mut [u32], count: usize) -> usize
    requires arranged { Arranged surface.now.corners.now surface.now.points work.old count }
    ensures { Traced surface.now.corners.now surface.now.points (length places.old / 3) work.old work.new places.old places.new result }
{
    let sides = surface.sides();
    let mut filled = 0;
    let mut number: u32 = 0;
    for i in 0..count {
        let k = word(work, sides + i);
        let next = trace_side(surface, work, places, k, filled, number);
        number += u32::from(filled < next);
        filled = next;
    }
    wide(number)
}

// Takes the mark from every place.
fn clear_marks(surface: &Surface, work: &mut [u32])
    requires { marks-from surface.now.corners.now surface.now.points + length surface.now.corners.now ≤ length work.old }
    ensures { Unmarked surface.now.corners.now surface.now.points work.old work.new (length surface.now.corners.now) }
{
    let marks = surface.marks();
    work[marks..marks + surface.corners.len()].fill(0);
}

// How many of the `count` sides are crossed and have no mark.
fn count_sides(surface: &Surface, work: &[u32], count: usize) -> usize
    requires { Arranged surface.now.corners.now surface.now.points work.now count }
    ensures { result ≡ open_count surface.now.corners.now surface.now.points work.now (sorted surface.now.corners.now surface.now.points) }
{
    let sides = surface.sides();
    let mut n = 0;
    for i in 0..count {
        let k = word(work, sides + i);
        n += usize::from(is_open(surface, work, k));
    }
    n
}

// The number of crossed sides. The words are then ready for `outline`: they hold the twins, the sides in rising order, and no mark.
pub fn crossed_sides(corners: &[u32], points: usize, work: &mut [u32]) -> usize
    requires { Kinded corners.now points work.old }
    ensures { SidesPrepared corners.now points work.new (length corners.now / 2) result × KindsKept corners.now points work.old work.new }
{
    let surface = Surface { corners, points };
    let count = list_sides(corners, points, work);
    clear_marks(&surface, work);
    count_sides(&surface, work, count)
}

// Writes the outlines, loop by loop, to the front of a list with room for `total` places, as many as sides are crossed. Returns the number of loops.
pub fn outline(
    corners: &[u32],
    points: usize,
    work: &mut [u32],
    places: &mut [u32],
    total: usize,
) -> usize
    requires sides_prepared { SidesPrepared corners.now points work.old (length corners.now / 2) total }
    requires total_in_bounds { 3 * total ≤ length places.old }
    ensures { Outlined corners.now points work.old work.new places.old places.new result }
{
    let surface = Surface { corners, points };
    let count = corners.len() / 2;
    trace(&surface, work, &mut places[..3 * total], count)
}
