// The questions that all calls share: whether the lent lists are a surface, and then whether it is one that may be edited; and why a call is refused.
#![tactic(auto)]

ghost use Rattle.std.specs.Prelude.{◌≡◌, ℕ, ◌+◌, ◌*◌, ◌<◌};
ghost use Rattle.float.specs.Order.{is_finite};
ghost use Rattle.halfedges.specs.Place.{at};
ghost use Rattle.surface.specs.Check.{every};
ghost use Rattle.questions.specs.Refusal.{refusal_number, refusal_place, on_finding};
ghost use Rattle.questions.specs.Questions.{known?, listed?, Lends, Admits};
ghost use Rattle.questions.specs.Stages.{FirstThree, Sized, Listed, opp, Marked, BeforeRules, Further};

use halfedges::wide;
use surface::{Finding, Mesh};

// Why a call is refused: the question that it fails, or what is found of rules (b) and (c).
#[derive(Clone, Copy, Debug, PartialEq, Eq)]
pub enum Refusal {
    Lengths,
    TooMany,
    WorkTooShort,
    NotFinite,
    CornerMissing,
    Degenerate,
    Repeated(u32, u32),
    Lone(u32, u32),
    Split(u32),
    Volume,
    Label,
    SameCorner,
    OpposedLabels,
    SameTriangle,
    FieldSheet,
    Rounds,
    Entries,
    Sheet,
    Height,
    OutlineRoom,
    Probes,
    Tariff,
}

impl Refusal {
    // The number that a call answers.
    pub fn number(self) -> u32
        ensures { result ≡ refusal_number self }
    {
        match self {
            Refusal::Lengths => 1,
            Refusal::TooMany => 2,
            Refusal::WorkTooShort => 3,
            Refusal::NotFinite => 4,
            Refusal::CornerMissing => 5,
            Refusal::Degenerate => 6,
            Refusal::Repeated(_, _) => 31,
            Refusal::Lone(_, _) => 32,
            Refusal::Split(_) => 33,
            Refusal::Volume => 8,
            Refusal::Label => 9,
            Refusal::SameCorner => 10,
            Refusal::OpposedLabels => 11,
            Refusal::SameTriangle => 12,
            Refusal::FieldSheet => 13,
            Refusal::Rounds => 14,
            Refusal::Entries => 15,
            Refusal::Sheet => 16,
            Refusal::Height => 40,
            Refusal::OutlineRoom => 41,
            Refusal::Probes => 42,
            Refusal::Tariff => 47,
        }
    }

    // The two corners of the side as it runs, or the corner and 0; beside a question's number 0 and 0.
    pub fn place(self) -> [u32; 2]
        ensures { result ≡ refusal_place self }
    {
        match self {
            Refusal::Repeated(u, v) => [u, v],
            Refusal::Lone(u, v) => [u, v],
            Refusal::Split(v) => [v, 0],
            _ => [0, 0],
        }
    }
}

// Question 7's turn, by what is found of rules (b) and (c).
pub fn on_finding(found: Finding) -> Result<(), Refusal>
    ensures { result ≡ on_finding found }
{
    match found {
        Finding::Closed => Ok(()),
        Finding::Repeated(u, v) => Err(Refusal::Repeated(u, v)),
        Finding::Lone(u, v) => Err(Refusal::Lone(u, v)),
        Finding::Split(v) => Err(Refusal::Split(v)),
    }
}

// Whether every value is finite. (That of `field` is by its own definition. This loop has no way out, so that several values are tested at a time.)
fn all_finite(points: &[f64]) -> bool
    ensures { result ≡ every is_finite points.now }
{
    let mut all = true;
    for x in points {
        all = float::is_finite(*x) & all;
    }
    all
}

// Questions 1 to 3. (3 by hand: the words that `closing::clear_needed` clears.)
fn first_three(mesh: &Mesh, work: &[u32]) -> Result<(), Refusal>
    ensures { FirstThree mesh.now.points.now mesh.now.corners.now mesh.now.labels.now work.now result }
{
    let Mesh {
        points,
        corners,
        labels,
    } = *mesh;
    if points.len() % 3 != 0 {
        return Err(Refusal::Lengths);
    }
    if corners.len() % 3 != 0 {
        return Err(Refusal::Lengths);
    }
    if labels.len() != corners.len() / 3 {
        return Err(Refusal::Lengths);
    }
    if points.len() / 3 > 32768 {
        return Err(Refusal::TooMany);
    }
    if corners.len() / 3 > 32768 {
        return Err(Refusal::TooMany);
    }
    if work.len() < corners.len() / 3 * 32 + points.len() / 3 * 16 {
        return Err(Refusal::WorkTooShort);
    }
    Ok(())
}

// Questions 1 to 4. After 4 the needed words are 0.
pub fn lent(mesh: &Mesh, work: &mut [u32]) -> Result<(), Refusal>
    ensures { Lends mesh.now.points.now mesh.now.corners.now mesh.now.labels.now work.old work.new result }
{
    first_three(mesh, work)?;
    if !all_finite(mesh.points) {
        closing::clear_needed(mesh.corners, mesh.points.len() / 3, work);
        return Err(Refusal::NotFinite);
    }
    Ok(())
}

// Whether every label is at most 7.
fn labels_known(labels: &[u8]) -> bool
    ensures { result ≡ known? labels.now }
{
    labels.iter().all(|l| *l <= 7)
}

// Whether every corner is below the number of points.
pub fn corners_listed(corners: &[u32], points: usize) -> bool
    ensures { result ≡ listed? points corners.now }
{
    corners.iter().all(|v| wide(*v) < points)
}

// The label opposed to l.
fn opposed(l: usize) -> usize
    requires { l < 8 }
    ensures { result ≡ opp l }
{
    if l % 2 == 0 { l + 1 } else { l - 1 }
}

// Marks the labels that each corner carries, place by place: the word 8 * corner + label becomes 1. Whether no corner has the mark of an opposed label. (That of `marks` asks nothing: this one ends at the first opposed label.)
fn mark_labels(corners: &[u32], labels: &[u8], points: usize, work: &mut [u32]) -> bool
    requires listed { Listed corners.now labels.now points work.old }
    requires by_index { (i : ℕ) → i < points * 8 → at work.old i ≡ 0 }
    ensures { Marked corners.now labels.now (points * 8) work.old work.new result }
{
    for k in 0..corners.len() {
        let l = usize::from(labels[k / 3]);
        let v = wide(corners[k]);
        let other = work[v * 8 + opposed(l)];
        if other == 1 {
            return false;
        }
        work[v * 8 + l] = 1;
    }
    true
}

// Whether no corner carries two opposed labels.
fn labels_agree(corners: &[u32], labels: &[u8], points: usize, work: &mut [u32]) -> bool
    requires { Listed corners.now labels.now points work.old }
    ensures { Marked corners.now labels.now (points * 8) work.old work.new result }
{
    closing::clear(work, points * 8);
    mark_labels(corners, labels, points, work)
}

// The questions before rules (b) to (d): 9, 5, 10 and 11.
fn before_rules(
    corners: &[u32],
    labels: &[u8],
    points: usize,
    work: &mut [u32],
) -> Result<(), Refusal>
    requires { Sized corners.now labels.now points work.old }
    ensures { BeforeRules corners.now labels.now points work.old work.new result }
{
    if !labels_known(labels) {
        return Err(Refusal::Label);
    }
    if !corners_listed(corners, points) {
        return Err(Refusal::CornerMissing);
    }
    if !closing::corners_differ(corners) {
        return Err(Refusal::SameCorner);
    }
    if !labels_agree(corners, labels, points, work) {
        return Err(Refusal::OpposedLabels);
    }
    Ok(())
}

// The questions from 9 on, rules (a) to (d) among them. A closed surface is judged once; of another it is asked what is wrong with (b) and (c), and where that is nothing, it is (d).
fn further(corners: &[u32], labels: &[u8], points: usize, work: &mut [u32]) -> Result<(), Refusal>
    requires { Sized corners.now labels.now points work.old }
    ensures { Further corners.now labels.now points work.old work.new result }
{
    if let Err(why) = before_rules(corners, labels, points, work) {
        closing::clear_needed(corners, points, work);
        return Err(why);
    }
    if closing::closed_surface(corners, points, work) {
        return Ok(());
    }
    let found = closing::finding(corners, points, work);
    on_finding(found)?;
    Err(Refusal::SameTriangle)
}

// All questions that improving and editing share.
pub fn admitted(mesh: &Mesh, work: &mut [u32]) -> Result<(), Refusal>
    ensures { Admits mesh.now.points.now mesh.now.corners.now mesh.now.labels.now work.old work.new result }
{
    lent(mesh, work)?;
    further(mesh.corners, mesh.labels, mesh.points.len() / 3, work)
}
