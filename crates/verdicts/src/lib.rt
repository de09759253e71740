// The side that an entry names: its two triangles, the tests around it that give the entry's verdict word, and the words of its record.
#![tactic(auto)]

ghost use Rattle.std.specs.Prelude.{◌≡◌, ◌∷◌, [], true, false, ◌&&◌, ◌||◌, not, cond, ℕ, ◌+◌, ◌*◌, ◌<◌, ◌≤◌, length, get_or, drop, take, eqb};
ghost use Rattle.surface.specs.Triangle.{runs, names};
ghost use Rattle.surface.specs.Edit.{has, first, opposite, start_of, hinge};
ghost use Rattle.surface.specs.Closed.{sides, one, around, Step};
ghost use Rattle.surface.specs.Flat.{tri_of, held};
ghost use Rattle.surface.specs.Check.{every};
ghost use Rattle.history.specs.History.{words};
ghost use Rattle.history.specs.Local.{collapse?, flip?, flip_word};
ghost use Rattle.history.specs.Flat.{pair_of, entry_of};
ghost use Rattle.verdicts.specs.Found.{FirstOn, hinge_of, Sought, Ready, SideAt, Hung, Labelled};
ghost use Rattle.verdicts.specs.Notes.{On, Listed, noted, Noted, StepsNoted, apart_by};
ghost use Rattle.verdicts.specs.Survey.{flagged, Surveyed, flags_cover, CollapseJudged};
ghost use Rattle.verdicts.specs.Verdict.{unfit_word, verdict_word};
ghost use Rattle.verdicts.specs.Record.{words_of};

use halfedges::wide;
use surface::triangle_at;

// Two corners are u and v.
fn are(x: u32, y: u32, u: u32, v: u32) -> bool
    ensures { result ≡ (eqb x u && eqb y v) }
{
    x == u && y == v
}

// The triangle runs from u to v.
fn runs_to(t: [u32; 3], u: u32, v: u32) -> bool
    ensures { result ≡ runs (tri_of t) u v }
{
    are(t[0], t[1], u, v) || are(t[1], t[2], u, v) || are(t[2], t[0], u, v)
}

// The triangle names v.
fn names_in(t: [u32; 3], v: u32) -> bool
    ensures { result ≡ names (tri_of t) v }
{
    t[0] == v || t[1] == v || t[2] == v
}

// The triangle has the side of a and b, in one direction or the other. Most triangles do not name a.
fn has_side(t: [u32; 3], a: u32, b: u32) -> bool
    ensures { result ≡ has a b (tri_of t) }
{
    names_in(t, a) && (runs_to(t, a, b) || runs_to(t, b, a))
}

// The corner opposite to the triangle's side from u to v.
fn opposite_to(t: [u32; 3], u: u32, v: u32) -> u32
    ensures { result ≡ opposite (tri_of t) u v }
{
    if are(t[0], t[1], u, v) {
        return t[2];
    }
    if are(t[1], t[2], u, v) {
        return t[0];
    }
    t[1]
}

// Where the triangle's side from u to v starts.
fn start_of(t: [u32; 3], u: u32, v: u32) -> u32
    ensures { result ≡ start_of (tri_of t) u v }
{
    if are(t[0], t[1], u, v) {
        return 0;
    }
    if are(t[1], t[2], u, v) {
        return 1;
    }
    2
}

// The side of a and b with the places of its two triangles: the earlier runs from u to v, the later from v to u. The corners c and d are opposite to the side in them.
#[derive(Clone, Copy, Debug, PartialEq, Eq)]
pub struct Found {
    pub earlier: usize,
    pub later: usize,
    pub u: u32,
    pub v: u32,
    pub c: u32,
    pub d: u32,
}

// How often a triangle names v. Most triangles do not.
fn named_in(t: [u32; 3], v: u32) -> usize
    ensures { (result ≡ length (around (tri_of t ∷ []) v)) × (result ≤ 3) }
{
    if !names_in(t, v) {
        return 0;
    }
    usize::from(t[0] == v) + usize::from(t[1] == v) + usize::from(t[2] == v)
}

// Where a triangle names a, the corner that follows a is noted with one more than the corner after it.
fn note_step(t: [u32; 3], a: u32, notes: &mut [u32])
    requires on { On (length notes.old) (tri_of t) }
    requires notes_len_bound { length notes.old ≤ 32768 }
    ensures { notes.new ≡ noted a (tri_of t) notes.old }
{
    let x = wide(t[0]);
    let y = wide(t[1]);
    let z = wide(t[2]);
    if t[0] == a {
        notes[y] = t[2] + 1;
        return;
    }
    if t[1] == a {
        notes[z] = t[0] + 1;
        return;
    }
    if t[2] == a {
        notes[x] = t[1] + 1;
    }
}

// The flag of a triangle's label is set, where the triangle names v.
fn flag_label(flags: &mut [bool; 8], t: [u32; 3], label: u8, v: u32)
    requires { label ≤ 7 }
    ensures { flags.new ≡ flagged v (tri_of t) label flags.old }
{
    if names_in(t, v) {
        flags[usize::from(label)] = true;
    }
}

// The same, and the triangle's step around v is noted: one test for both.
fn flag_and_note(flags: &mut [bool; 8], notes: &mut [u32], t: [u32; 3], label: u8, v: u32)
    requires label_bound { label ≤ 7 }
    requires on { On (length notes.old) (tri_of t) }
    requires notes_len_bound { length notes.old ≤ 32768 }
    ensures flags_after { flags.new ≡ flagged v (tri_of t) label flags.old }
    ensures notes_after { notes.new ≡ noted v (tri_of t) notes.old }
{
    if !names_in(t, v) {
        return;
    }
    flags[usize::from(label)] = true;
    note_step(t, v, notes);
}

// The labels that the corner that a collapse keeps and the one that it removes carry, a flag for each label.
#[derive(Clone, Copy, Debug, PartialEq, Eq)]
struct CornerLabels {
    kept: [bool; 8],
    removed: [bool; 8],
}

// Where the first flag is set, the second is.
fn flag_covered(removed: bool, kept: bool) -> bool
    ensures { result ≡ (not removed || kept) }
{
    !removed || kept
}

// Every label of the removed corner is one of the kept corner.
fn covers(c: CornerLabels) -> bool
    ensures { result ≡ flags_cover c.kept c.removed }
{
    for k in 0..8 {
        if !flag_covered(c.removed[k], c.kept[k]) {
            return false;
        }
    }
    true
}

// x has no note, or it is c or d.
fn apart_at(notes: &[u32], c: u32, d: u32, x: u32) -> bool
    requires { x < length notes.now }
    ensures { result ≡ apart_by notes.now c d x }
{
    notes[wide(x)] == 0 || x == c || x == d
}

// The same, asked only where y is a.
fn apart_if(notes: &[u32], y: u32, a: u32, c: u32, d: u32, x: u32) -> bool
    requires { x < length notes.now }
    ensures { result ≡ (not (eqb y a) || apart_by notes.now c d x) }
{
    y != a || apart_at(notes, c, d, x)
}

// The same of a triangle's steps around a.
fn apart_in(notes: &[u32], t: [u32; 3], a: u32, c: u32, d: u32) -> bool
    requires { On (length notes.now) (tri_of t) }
    ensures { result ≡ every (λ (s : Step). apart_by notes.now c d s.from) (around (tri_of t ∷ []) a) }
{
    apart_if(notes, t[0], a, c, d, t[1])
        && apart_if(notes, t[1], a, c, d, t[2])
        && apart_if(notes, t[2], a, c, d, t[0])
}

// Why an entry is refused. Its number is the entry's verdict word, which is 0 where the entry is accepted.
#[derive(Clone, Copy, Debug, PartialEq, Eq)]
pub enum Unfit {
    NoEntry,
    NoSide,
    LabelsDiffer,
    LabelLost,
    NotClosed,
    TooMany,
    JournalFull,
}

impl Unfit {
    pub fn word(self) -> u32
        ensures { result ≡ unfit_word self }
    {
        match self {
            Unfit::NoEntry => 21,
            Unfit::NoSide => 22,
            Unfit::LabelsDiffer => 23,
            Unfit::LabelLost => 24,
            Unfit::NotClosed => 25,
            Unfit::TooMany => 26,
            Unfit::JournalFull => 27,
        }
    }
}

// An edit needs a place in the journal. (That is asked last, so that whether there is one is handed down.)
fn place_left(space: bool) -> Result<(), Unfit>
    ensures { verdict_word result ≡ cond space 0 27 }
{
    if space {
        Ok(())
    } else {
        Err(Unfit::JournalFull)
    }
}

// The kinds of an edit, as an entry and a record name them.
pub const FLIP: u32 = 1;

pub const COLLAPSE: u32 = 2;

// The record of an edit. Each field is a word, since a record is read back from lent words, whatever they hold. The side starts at a corner of each of its triangles, and `ahead` is 1 where the earlier triangle runs from a to b.
#[derive(Clone, Copy, Debug, PartialEq, Eq)]
pub struct Record {
    pub kind: u32,
    pub a: u32,
    pub b: u32,
    pub c: u32,
    pub d: u32,
    pub earlier: u32,
    pub later: u32,
    pub start_earlier: u32,
    pub start_later: u32,
    pub label_earlier: u32,
    pub label_later: u32,
    pub ahead: u32,
}

impl From<Record> for [u32; 12] {
    ghost from_gives = { λ done ws. ws ≡ words_of done };

    fn from(done: Record) -> [u32; 12] {
        [
            done.kind,
            done.a,
            done.b,
            done.c,
            done.d,
            done.earlier,
            done.later,
            done.start_earlier,
            done.start_later,
            done.label_earlier,
            done.label_later,
            done.ahead,
        ]
    }
}

// The triangles in use of a corner list: the first count.
#[derive(Clone, Copy)]
pub struct Triangles<'a> {
    pub corners: &'a [u32],
    pub count: usize,
}

impl Triangles<'_> {
    // The place of the first triangle, from a place on, with the side of a and b.
    fn first_on(&self, from: usize, a: u32, b: u32) -> Option<usize>
        requires { (3 * self.now.count ≤ length self.now.corners.now) × (from ≤ self.now.count) }
        ensures { FirstOn (held self.now.corners.now self.now.count) self.now.count from a b result }
    {
        let Triangles { corners, count } = *self;
        for i in from..count {
            if has_side(triangle_at(corners, i), a, b) {
                return Some(i);
            }
        }
        None
    }

    // The hinge of a side whose earlier triangle is at a place.
    fn hinge_of(&self, earlier: usize, a: u32, b: u32) -> Found
        requires { SideAt self.now.corners.now self.now.count earlier a b }
        ensures { hinge_of result ≡ hinge (held self.now.corners.now self.now.count) a b }
    {
        let later = self.first_on(earlier + 1, a, b).unwrap();
        let t = triangle_at(self.corners, earlier);
        let s = triangle_at(self.corners, later);
        let (u, v) = if runs_to(t, a, b) { (a, b) } else { (b, a) };
        Found {
            earlier,
            later,
            u,
            v,
            c: opposite_to(t, u, v),
            d: opposite_to(s, v, u),
        }
    }

    // The hinge of the side of a and b, where a triangle has it.
    pub fn found(&self, a: u32, b: u32) -> Result<Found, Unfit>
        requires { Ready self.now.corners.now self.now.count }
        ensures { Sought (held self.now.corners.now self.now.count) self.now.count a b result }
    {
        match self.first_on(0, a, b) {
            Some(earlier) => Ok(self.hinge_of(earlier, a, b)),
            None => Err(Unfit::NoSide),
        }
    }

    // No triangle runs from x to y. (In a closed list none runs from y to x then either.)
    fn absent(&self, x: u32, y: u32) -> bool
        requires { Ready self.now.corners.now self.now.count }
        ensures { result ≡ eqb (sides (held self.now.corners.now self.now.count) x y) 0 }
    {
        self.first_on(0, x, y).is_none()
    }

    // There are three triangles around v. At a fourth the answer is known.
    fn three_around(&self, v: u32) -> bool
        requires { 3 * self.now.count ≤ length self.now.corners.now }
        ensures { result ≡ eqb (length (around (held self.now.corners.now self.now.count) v)) 3 }
    {
        let Triangles { corners, count } = *self;
        let mut s: usize = 0;
        for i in 0..count {
            s += named_in(triangle_at(corners, i), v);
            if s > 3 {
                return false;
            }
        }
        s == 3
    }

    // Every step around a is noted. There is a word for each point, and all are 0 before.
    pub fn note_steps(&self, a: u32, notes: &mut [u32])
        requires listed { Listed self.now.corners.now self.now.count (length notes.old) }
        requires by_index { (x : ℕ) → get_or notes.old x 0 ≡ 0 }
        ensures { StepsNoted (held self.now.corners.now self.now.count) a notes.old notes.new }
    {
        let Triangles { corners, count } = *self;
        for i in 0..count {
            note_step(triangle_at(corners, i), a, notes);
        }
    }

    // The labels of a and b, and every step around b noted, in one pass. The words of `notes`, one for each point, are 0 before.
    fn survey(&self, labels: &[u8], a: u32, b: u32, notes: &mut [u32]) -> CornerLabels
        requires labelled { Labelled self.now.corners.now labels.now self.now.count }
        requires listed { Listed self.now.corners.now self.now.count (length notes.old) }
        requires by_index { (x : ℕ) → get_or notes.old x 0 ≡ 0 }
        ensures { Surveyed (held self.now.corners.now self.now.count) (take self.now.count labels.now) a b result notes.new }
    {
        let Triangles { corners, count } = *self;
        let mut kept = [false; 8];
        let mut removed = [false; 8];
        for i in 0..count {
            let t = triangle_at(corners, i);
            flag_label(&mut kept, t, labels[i], a);
            flag_and_note(&mut removed, notes, t, labels[i], b);
        }
        CornerLabels { kept, removed }
    }

    // Every step around a comes from c, from d or from a corner without a note.
    fn all_apart(&self, notes: &[u32], a: u32, c: u32, d: u32) -> bool
        requires { Listed self.now.corners.now self.now.count (length notes.now) }
        ensures { result ≡ every (λ (s : Step). apart_by notes.now c d s.from) (around (held self.now.corners.now self.now.count) a) }
    {
        let Triangles { corners, count } = *self;
        for i in 0..count {
            if !apart_in(notes, triangle_at(corners, i), a, c, d) {
                return false;
            }
        }
        true
    }

    // The collapse that keeps a and removes b makes a closed list. The steps around b are noted.
    fn may_collapse(&self, notes: &[u32], a: u32, b: u32, h: Found) -> bool
        requires listed { Listed self.now.corners.now self.now.count (length notes.now) }
        requires noted { Noted (held self.now.corners.now self.now.count) b notes.now }
        requires h_value { hinge_of h ≡ hinge (held self.now.corners.now self.now.count) a b }
        ensures { result ≡ collapse? (held self.now.corners.now self.now.count) a b }
    {
        self.all_apart(notes, a, h.c, h.d) && !(self.three_around(a) && self.three_around(b))
    }

    // The flip makes a closed list.
    fn may_flip(&self, a: u32, b: u32, h: Found) -> bool
        requires { (Ready self.now.corners.now self.now.count) × (hinge_of h ≡ hinge (held self.now.corners.now self.now.count) a b) }
        ensures { result ≡ flip? (held self.now.corners.now self.now.count) a b }
    {
        self.absent(h.c, h.d)
    }

    // The verdict on a flip of an existing side.
    pub fn judge_flip(
        &self,
        labels: &[u8],
        a: u32,
        b: u32,
        h: Found,
        space: bool,
    ) -> Result<(), Unfit>
        requires { Hung self.now.corners.now labels.now self.now.count a b h }
        ensures { verdict_word result ≡ flip_word (pair_of self.now.corners.now labels.now self.now.count) a b space }
    {
        if labels[h.earlier] != labels[h.later] {
            return Err(Unfit::LabelsDiffer);
        }
        if !self.may_flip(a, b, h) {
            return Err(Unfit::NotClosed);
        }
        place_left(space)
    }

    // The verdict on a collapse of an existing side. `notes` has a word for each point, and is left with the steps around b.
    pub fn judge_collapse(
        &self,
        labels: &[u8],
        notes: &mut [u32],
        a: u32,
        b: u32,
        h: Found,
        space: bool,
    ) -> Result<(), Unfit>
        requires hung { Hung self.now.corners.now labels.now self.now.count a b h }
        requires listed { Listed self.now.corners.now self.now.count (length notes.old) }
        requires labelled { Labelled self.now.corners.now labels.now self.now.count }
        ensures { CollapseJudged (pair_of self.now.corners.now labels.now self.now.count) a b space notes.old notes.new (verdict_word result) }
    {
        notes.fill(0);
        let carried = self.survey(labels, a, b, notes);
        if !covers(carried) {
            return Err(Unfit::LabelLost);
        }
        if !self.may_collapse(notes, a, b, h) {
            return Err(Unfit::NotClosed);
        }
        place_left(space)
    }

    // The record of the edit of a side.
    pub fn record_of(&self, labels: &[u8], kind: u32, a: u32, b: u32, h: Found) -> Record
        requires { Hung self.now.corners.now labels.now self.now.count a b h }
        ensures { words_of result ≡ words (pair_of self.now.corners.now labels.now self.now.count) (entry_of kind a b) }
    {
        let i = h.earlier;
        let j = h.later;
        Record {
            kind,
            a,
            b,
            c: h.c,
            d: h.d,
            earlier: i as u32,
            later: j as u32,
            start_earlier: start_of(triangle_at(self.corners, i), h.u, h.v),
            start_later: start_of(triangle_at(self.corners, j), h.v, h.u),
            label_earlier: u32::from(labels[i]),
            label_later: u32::from(labels[j]),
            ahead: u32::from(h.u == a),
        }
    }
}
