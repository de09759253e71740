// The nearest corners in use of many probes, with their squared distances.
#![tactic(auto)]

ghost use Rattle.std.specs.Prelude.{◌≡◌, ℕ, ◌+◌, ◌*◌, ◌/◌, ◌≤◌, ◌<◌, length, get_or, [], ◌∷◌, IfSome, None};
ghost use Rattle.float.specs.Point.{difference, dotted};
ghost use Rattle.closing.specs.Closing.{Lent};
ghost use Rattle.nearest.specs.Call.{Askable, askable?, later_questions, Replies};
ghost use Rattle.nearest.specs.Stages.{Asks, considered, Laid, BestsKept, OnSquares, corner_shown, distance_shown, FilledIn, AllAnswered};

use checking::point;
use float::Point;
use questions::Refusal;
use surface::Mesh;

// The best corner of a probe so far, and its squared distance.
#[derive(Clone, Copy, Debug, PartialEq)]
struct Candidate {
    corner: u64,
    distance: f64,
}

// Question 42.
fn askable(points: &[f64], probes: &[f64], words: usize) -> bool
    ensures { result ≡ askable? points.now probes.now words }
{
    if probes.len() % 3 != 0 {
        return false;
    }
    if probes.len() / 3 > 64 {
        return false;
    }
    if words / 2 < probes.len() / 3 {
        return false;
    }
    if !units::on_units(probes) {
        return false;
    }
    units::on_units(points)
}

// Questions 5 and 42.
fn later(points: &[f64], corners: &[u32], probes: &[f64], words: usize) -> Result<(), Refusal>
    ensures { result ≡ later_questions points.now corners.now probes.now words }
{
    if !questions::corners_listed(corners, points.len() / 3) {
        return Err(Refusal::CornerMissing);
    }
    if !askable(points, probes, words) {
        return Err(Refusal::Probes);
    }
    Ok(())
}

// All questions. Where one refuses, the work words are as the refusal says: from 4 on the needed ones are 0.
fn ask(mesh: &Mesh, work: &mut [u32], probes: &[f64], words: usize) -> Result<(), Refusal>
    ensures { Asks mesh.now.points.now mesh.now.corners.now mesh.now.labels.now work.old work.new probes.now words result }
{
    questions::lent(mesh, work)?;
    // (The words are cleared on this way out alone: what passes goes on with them.)
    if let Err(why) = later(mesh.points, mesh.corners, probes, words) {
        closing::clear_needed(mesh.corners, mesh.points.len() / 3, work);
        return Err(why);
    }
    Ok(())
}

// The squared distance of two points. Each operation is exact.
fn distance(p: Point, q: Point) -> f64
    ensures { result ≡ dotted (difference p q) (difference p q) }
{
    let apart = p.sub(q);
    apart.dot(apart)
}

// The corner v against the best of the probe i so far: only a smaller distance is better.
fn consider(v: usize, distance: f64, i: usize, bests: &mut [Option<Candidate>])
    requires { i < length bests.old }
    ensures { bests.new ≡ considered (get_or bests.old i None) v distance i bests.old }
{
    if let Some(so_far) = bests[i] {
        if so_far.distance <= distance {
            return;
        }
    }
    bests[i] = Some(Candidate {
        corner: v as u64,
        distance,
    });
}

// The corner v, if it is in use, against the best of every probe so far.
fn compare(points: &[f64], work: &[u32], v: usize, probes: &[f64], bests: &mut [Option<Candidate>])
    requires laid { (Laid points.now work.now probes.now bests.old) × (v < length points.now / 3) }
    requires bests_kept { BestsKept points.now work.now probes.now v bests.old }
    ensures { BestsKept points.now work.now probes.now (v + 1) bests.new }
{
    let head = work[v]; // of the chain of its places
    if head == 0 {
        return;
    }
    let p = point(points, v);
    for i in 0..probes.len() / 3 {
        consider(v, distance(p, point(probes, i)), i, bests);
    }
}

// The best of every probe, by one pass over the corners in rising order.
fn pass(points: &[f64], work: &[u32], probes: &[f64], bests: &mut [Option<Candidate>])
    requires laid { Laid points.now work.now probes.now bests.old }
    requires bests_kept { BestsKept points.now work.now probes.now 0 bests.old }
    ensures { BestsKept points.now work.now probes.now (length points.now / 3) bests.new }
{
    for v in 0..points.len() / 3 {
        compare(points, work, v, probes, bests);
    }
}

// The two words of an answer place, as C reads them: the corner and its distance as a whole number of (1/1024)^2, or the mark and 0.
fn show(best: Option<Candidate>) -> [u64; 2]
    requires { IfSome best (λ c. OnSquares c.distance) }
    ensures { result ≡ corner_shown best ∷ distance_shown best ∷ [] }
{
    match best {
        None => [4294967295, 0],
        Some(c) => [c.corner, (c.distance * 1048576.0 + 1.0) as u64 - 1],
    }
}

// The answer places of the probes.
fn fill(bests: &[Option<Candidate>], answers: &mut [u64])
    requires room { 2 * length bests.now ≤ length answers.old }
    requires by_index { (i : ℕ) → i < length bests.now → IfSome (get_or bests.now i None) (λ c. OnSquares c.distance) }
    ensures { FilledIn (length bests.now) bests.now answers.old answers.new }
{
    for i in 0..bests.len() {
        let [corner, distance] = show(bests[i]);
        let at = 2 * i;
        answers[at] = corner;
        answers[at + 1] = distance;
    }
}

// The answers, once the questions are passed. Corners in use have a chain of places; it is made once.
fn measure(points: &[f64], corners: &[u32], work: &mut [u32], probes: &[f64], answers: &mut [u64])
    requires { (Lent corners.now (length points.now / 3) work.old) × (Askable points.now probes.now (length answers.old)) }
    ensures { AllAnswered points.now corners.now work.old work.new probes.now answers.old answers.new }
{
    closing::prepare(corners, points.len() / 3, work);
    let mut bests = [None; 64];
    pass(points, work, probes, &mut bests);
    fill(&bests[..probes.len() / 3], answers);
    closing::clear_needed(corners, points.len() / 3, work);
}

// For each probe, three values of it, the nearest corner in use and its squared distance, two words of the answers: questions 1 to 5, then 42.
pub fn nearest(
    mesh: &Mesh,
    work: &mut [u32],
    probes: &[f64],
    answers: &mut [u64],
) -> Result<(), Refusal>
    ensures { Replies mesh.now.points.now mesh.now.corners.now mesh.now.labels.now work.old work.new probes.now answers.old answers.new result }
{
    answers.fill(0);
    ask(mesh, work, probes, answers.len())?;
    measure(mesh.points, mesh.corners, work, probes, answers);
    Ok(())
}
