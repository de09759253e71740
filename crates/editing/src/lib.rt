// Edit runs: the entries in order, the journal of the edits in force, and taking back.
#![tactic(auto)]

ghost use Rattle.std.specs.Prelude.{◌≡◌, ◌++◌, ◌+◌, ◌*◌, ◌-◌, ◌/◌, ◌<◌, ◌≤◌, ltb, length, take, drop, get_or};
ghost use Rattle.history.specs.Flat.{entry_of};
ghost use Rattle.verdicts.specs.Verdict.{verdict_word};
ghost use Rattle.verdicts.specs.Record.{words_of};
ghost use Rattle.editing.specs.Entry.{Reads};
ghost use Rattle.editing.specs.Held.{Held, Returned, Entered, Noted, left_after};
ghost use Rattle.editing.specs.Run.{Starting, Ran};
ghost use Rattle.editing.specs.Edit.{in_threes?, EditRun};

use entries::Came;
use halfedges::wide;
use questions::Refusal;
use surface::Mesh;
use verdicts::{COLLAPSE, FLIP, Record, Unfit};

// An entry of a run.
#[derive(Clone, Copy, Debug, PartialEq, Eq)]
enum Entry {
    Flip(u32, u32),
    Collapse(u32, u32),
    Back(u32),
}

impl TryFrom<[u32; 3]> for Entry {
    type Error = Unfit;

    ghost try_from_gives = { Reads };

    fn try_from(words: [u32; 3]) -> Result<Self, Unfit> {
        match words {
            [FLIP, a, b] => Ok(Entry::Flip(a, b)),
            [COLLAPSE, a, b] => Ok(Entry::Collapse(a, b)),
            [3, count, 0] => Ok(Entry::Back(count)),
            _ => Err(Unfit::NoEntry),
        }
    }
}

// What an entry or a run leaves: the number of triangles, and of edits in force.
#[derive(Clone, Copy, Debug, PartialEq, Eq)]
pub struct Left {
    pub triangles: usize,
    pub edits: usize,
}

// The record at a place of the journal. (Word by word: by way of an array of twelve it is longer.)
fn read_record(journal: &[u32], k: usize) -> Record
    requires { 12 * k + 12 ≤ length journal.now }
    ensures { words_of result ≡ take 12 (drop (12 * k) journal.now) }
{
    let i = 12 * k;
    Record {
        kind: journal[i],
        a: journal[i + 1],
        b: journal[i + 2],
        c: journal[i + 3],
        d: journal[i + 4],
        earlier: journal[i + 5],
        later: journal[i + 6],
        start_earlier: journal[i + 7],
        start_later: journal[i + 8],
        label_earlier: journal[i + 9],
        label_later: journal[i + 10],
        ahead: journal[i + 11],
    }
}

// The words of a record are put at a place of the journal.
fn write_record(journal: &mut [u32], k: usize, words: [u32; 12])
    requires { 12 * k + 12 ≤ length journal.old }
    ensures { journal.new ≡ take (12 * k) journal.old ++ words ++ drop (12 * k + 12) journal.old }
{
    let at = 12 * k;
    journal[at..at + 12].copy_from_slice(&words);
}

// The last edit in force is taken back, and its place in the journal becomes 0: the number of triangles then. (The lists are lent one by one, here and below: a contract speaks of each before and after.)
fn take_back_last(
    corners: &mut [u32],
    labels: &mut [u8],
    work: &mut [u32],
    points: usize,
    journal: &mut [u32],
    left: Left,
) -> usize
    requires held { Held points corners.old labels.old work.old journal.old left.triangles left.edits }
    requires edits_nonzero { 0 < left.edits }
    ensures { Returned points corners.old labels.old work.old journal.old left.triangles left.edits 1 corners.new labels.new work.new journal.new result }
{
    let k = left.edits - 1;
    let done = read_record(journal, k);
    let triangles = entries::take_back(corners, labels, work, points, left.triangles, done);
    write_record(journal, k, [0; 12]);
    triangles
}

// The last edits in force are taken back, as many as count says, the last one first.
fn take_back_many(
    corners: &mut [u32],
    labels: &mut [u8],
    work: &mut [u32],
    points: usize,
    journal: &mut [u32],
    left: Left,
    count: usize,
) -> Left
    requires held { Held points corners.old labels.old work.old journal.old left.triangles left.edits }
    requires count_le_edits { count ≤ left.edits }
    ensures { (Returned points corners.old labels.old work.old journal.old left.triangles left.edits count corners.new labels.new work.new journal.new result.triangles) × (result.edits ≡ left.edits - count) }
{
    let mut triangles = left.triangles;
    for i in 0..count {
        let edits = left.edits - i;
        triangles = take_back_last(
            corners,
            labels,
            work,
            points,
            journal,
            Left { triangles, edits },
        );
    }
    Left {
        triangles,
        edits: left.edits - count,
    }
}

// The record of an accepted flip or collapse goes into the journal behind those of the edits in force.
fn note(journal: &mut [u32], edits: usize, came: Came) -> Left
    requires { 12 * edits + 12 ≤ length journal.old }
    ensures { Noted journal.old edits came.triangles (words_of came.done) journal.new result.triangles result.edits }
{
    write_record(journal, edits, came.done.into());
    Left {
        triangles: came.triangles,
        edits: edits + 1,
    }
}

// The journal has a place left behind k records.
fn has_place(journal: &[u32], k: usize) -> bool
    ensures { result ≡ ltb k (length journal.now / 12) }
{
    k < journal.len() / 12
}

// The flip of the side of a and b.
fn flip(
    corners: &mut [u32],
    labels: &[u8],
    work: &[u32],
    points: usize,
    journal: &mut [u32],
    left: Left,
    a: u32,
    b: u32,
) -> Result<Left, Unfit>
    requires { Held points corners.old labels.now work.now journal.old left.triangles left.edits }
    ensures { Entered points corners.old labels.now work.now journal.old left.triangles left.edits (entry_of 1 a b) corners.new labels.now work.now journal.new (left_after left result).triangles (left_after left result).edits (verdict_word result) }
{
    let space = has_place(journal, left.edits);
    let came = entries::flip_entry(corners, labels, work, points, left.triangles, a, b, space)?;
    Ok(note(journal, left.edits, came))
}

// The collapse that keeps a and removes b.
fn collapse(
    corners: &mut [u32],
    labels: &mut [u8],
    work: &mut [u32],
    points: usize,
    journal: &mut [u32],
    left: Left,
    a: u32,
    b: u32,
) -> Result<Left, Unfit>
    requires { Held points corners.old labels.old work.old journal.old left.triangles left.edits }
    ensures { Entered points corners.old labels.old work.old journal.old left.triangles left.edits (entry_of 2 a b) corners.new labels.new work.new journal.new (left_after left result).triangles (left_after left result).edits (verdict_word result) }
{
    let space = has_place(journal, left.edits);
    let came = entries::collapse_entry(corners, labels, work, points, left.triangles, a, b, space)?;
    Ok(note(journal, left.edits, came))
}

// The last edits in force taken back, as many as the entry says.
fn back(
    corners: &mut [u32],
    labels: &mut [u8],
    work: &mut [u32],
    points: usize,
    journal: &mut [u32],
    left: Left,
    a: u32,
) -> Result<Left, Unfit>
    requires { Held points corners.old labels.old work.old journal.old left.triangles left.edits }
    ensures { Entered points corners.old labels.old work.old journal.old left.triangles left.edits (entry_of 3 a 0) corners.new labels.new work.new journal.new (left_after left result).triangles (left_after left result).edits (verdict_word result) }
{
    let count = wide(a);
    if left.edits < count {
        return Err(Unfit::TooMany);
    }
    Ok(take_back_many(corners, labels, work, points, journal, left, count))
}

// An entry by its words: kind, a, b.
fn enter(
    corners: &mut [u32],
    labels: &mut [u8],
    work: &mut [u32],
    points: usize,
    journal: &mut [u32],
    left: Left,
    words: [u32; 3],
) -> Result<Left, Unfit>
    requires { Held points corners.old labels.old work.old journal.old left.triangles left.edits }
    ensures { Entered points corners.old labels.old work.old journal.old left.triangles left.edits (entry_of (get_or words 0 0) (get_or words 1 0) (get_or words 2 0)) corners.new labels.new work.new journal.new (left_after left result).triangles (left_after left result).edits (verdict_word result) }
{
    match Entry::try_from(words)? {
        Entry::Flip(a, b) => flip(corners, labels, work, points, journal, left, a, b),
        Entry::Collapse(a, b) => collapse(corners, labels, work, points, journal, left, a, b),
        Entry::Back(count) => back(corners, labels, work, points, journal, left, count),
    }
}

// Every entry in order, each on what the one before left.
fn run(
    corners: &mut [u32],
    labels: &mut [u8],
    work: &mut [u32],
    points: usize,
    entries: &[u32],
    verdicts: &mut [u32],
    journal: &mut [u32],
) -> Left
    requires { Starting points corners.old labels.old work.old entries.now verdicts.old journal.old }
    ensures { Ran points corners.old labels.old work.old entries.now journal.old corners.new labels.new work.new verdicts.new journal.new result.triangles result.edits }
{
    let mut left = Left {
        triangles: labels.len(),
        edits: 0,
    };
    for i in 0..verdicts.len() {
        let at = 3 * i;
        let words = [entries[at], entries[at + 1], entries[at + 2]];
        match enter(corners, labels, work, points, journal, left, words) {
            Ok(next) => {
                verdicts[i] = 0;
                left = next;
            }
            Err(why) => verdicts[i] = why.word(),
        }
    }
    left
}

// The entries have three words each, and a verdict word each.
fn in_threes(entries: &[u32], verdicts: &[u32]) -> bool
    ensures { result ≡ in_threes? entries.now verdicts.now }
{
    entries.len() % 3 == 0 && verdicts.len() == entries.len() / 3
}

// An edit run: entries of three words each (kind, a, b), a verdict word for each, and the journal of the edits in force.
pub fn edit(
    points: &[f64],
    corners: &mut [u32],
    labels: &mut [u8],
    work: &mut [u32],
    entries: &[u32],
    verdicts: &mut [u32],
    journal: &mut [u32],
) -> Result<Left, Refusal>
    ensures { EditRun points.now corners.old labels.old work.old entries.now verdicts.old journal.old corners.new labels.new work.new verdicts.new journal.new result }
{
    questions::admitted(
        &Mesh {
            points,
            corners,
            labels,
        },
        work,
    )?;
    if !in_threes(entries, verdicts) {
        return Err(Refusal::Entries);
    }
    journal.fill(0);
    let count = points.len() / 3;
    let left = run(corners, labels, work, count, entries, verdicts, journal);
    closing::clear_needed(corners, count, work);
    Ok(left)
}
