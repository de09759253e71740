// Reads the text sheet of a triangle surface, of either edition, and hands its whole numbers out. What a
// sheet is, and its text, is `specs/Sheet.antt`; what each function finds is `specs/Stages.antt`.
#![tactic(auto)]

ghost use Rattle.std.specs.Prelude.{◌≡◌, ◌+◌, ◌*◌, ◌≤◌, ◌<◌, ◌^◌, length};
ghost use Rattle.sheet.specs.Edition as Editions;
ghost use Rattle.sheet.specs.Edition.{edition_number, rules_of, NamesEdition};
ghost use Rattle.sheet.specs.Refusals.{refusal_number};
ghost use Rattle.sheet.specs.Stages.{word_is, number_is, coordinate_is, point_is, points_is, triangle_is, triangles_is, head_is, sheet_is, TellsEdition, found_is};

// Why there is no sheet, or none in the edition asked for.
#[derive(Clone, Copy, Debug, PartialEq, Eq)]
pub enum Refusal {
    NoSheet,
    NoRoom,
    Inexact,
}

impl Refusal {
    // The number that a call answers.
    pub fn number(self) -> u32
        ensures { result ≡ refusal_number self }
    {
        match self {
            Refusal::NoSheet => 16,
            Refusal::NoRoom => 35,
            Refusal::Inexact => 38,
        }
    }
}

#[derive(Clone, Copy, Debug, PartialEq, Eq)]
pub enum Edition {
    First,
    Second,
}

impl Edition {
    // The edition with that number, and the first where no edition has it. (`try_from` refuses such a number.)
    pub fn of(number: u32) -> Self
        ensures { rules_of result ≡ Editions.edition number }
    {
        match number {
            2 => Edition::Second,
            _ => Edition::First,
        }
    }

    // Its number.
    pub fn number(self) -> u32
        ensures { result ≡ edition_number self }
    {
        match self {
            Edition::First => 1,
            Edition::Second => 2,
        }
    }

    // Coordinates are whole numbers of 1/unit.
    pub fn unit(self) -> u32
        ensures { result ≡ (rules_of self).unit }
    {
        match self {
            Edition::First => 1024,
            Edition::Second => 65536,
        }
    }

    // They are within ±most.
    pub fn most(self) -> u32
        ensures { result ≡ (rules_of self).most }
    {
        match self {
            Edition::First => 32768,
            Edition::Second => 2097152,
        }
    }

    // What stands before the counts.
    pub fn opening(self) -> &'static [u8]
        ensures { result.now ≡ (rules_of self).opening }
    {
        match self {
            Edition::First => b"points triangles\n",
            Edition::Second => b"edition points triangles\n2 ",
        }
    }
}

impl TryFrom<u32> for Edition {
    type Error = Refusal;

    ghost try_from_gives = { NamesEdition };

    fn try_from(number: u32) -> Result<Self, Refusal> {
        match number {
            1 => Ok(Edition::First),
            2 => Ok(Edition::Second),
            _ => Err(Refusal::NoSheet),
        }
    }
}

// How many points and triangles a sheet has.
#[derive(Clone, Copy, Debug, PartialEq, Eq)]
pub struct Counts {
    pub points: usize,
    pub triangles: usize,
}

// A sheet that was found.
#[derive(Clone, Copy, Debug, PartialEq, Eq)]
pub struct Found {
    pub edition: Edition,
    pub counts: Counts,
}

// A number that was read, and the place after it and the byte that ends it.
#[derive(Clone, Copy)]
struct Numeral {
    value: u64,
    next: usize,
}

// The counts that were read, and the place of the first point.
#[derive(Clone, Copy)]
struct Counted {
    counts: Counts,
    next: usize,
}

// (No reader with a place in it: what is read is told by the place alone, and each contract then speaks of
// one place more.)

// The place after the word, where it stands at a place of the text.
fn word(text: &[u8], at: usize, w: &[u8]) -> Option<usize>
    ensures { word_is text.now at w.now result }
{
    let mut i = at;
    for b in w {
        if text.get(i) != Some(b) {
            return None;
        }
        i += 1;
    }
    Some(i)
}

// A number up to `most`, at a place of the text, ended by the byte `end`.
fn number(text: &[u8], at: usize, most: u64, end: u8) -> Option<Numeral>
    requires { (most < 2 ^ 32) × (end < 45) }
    ensures { number_is text.now at most end result }
{
    let first = *text.get(at)?;
    if !first.is_ascii_digit() {
        return None;
    }
    let mut value = u64::from(first - b'0');
    for i in at + 1..text.len() {
        let b = text[i];
        if value > most {
            return None;
        }
        if b == end {
            return Some(Numeral { value, next: i + 1 });
        }
        if !b.is_ascii_digit() {
            return None;
        }
        if value == 0 {
            return None;
        }
        value = value * 10 + u64::from(b - b'0');
    }
    None
}

// A coordinate of the edition, at a place of the text, ended by the byte `end`: it is stored at k, and the
// place after it is given.
fn coordinate(
    text: &[u8],
    at: usize,
    edition: Edition,
    end: u8,
    k: usize,
    coordinates: &mut [i32],
) -> Option<usize>
    requires { (end < 45) × (k < length coordinates.old) }
    ensures { coordinate_is text.now at (rules_of edition).most end k coordinates.old coordinates.new result }
{
    let most = u64::from(edition.most());
    if *text.get(at)? == b'-' {
        let n = number(text, at + 1, most, end)?;
        if n.value == 0 {
            return None;
        }
        coordinates[k] = -(n.value as i32);
        return Some(n.next);
    }
    let n = number(text, at, most, end)?;
    coordinates[k] = n.value as i32;
    Some(n.next)
}

// A line of a point, at a place of the text: its coordinates are stored as the point k.
fn point(
    text: &[u8],
    at: usize,
    edition: Edition,
    k: usize,
    coordinates: &mut [i32],
) -> Option<usize>
    requires { k * 3 + 2 < length coordinates.old }
    ensures { point_is text.now at (rules_of edition).most k coordinates.old coordinates.new result }
{
    let p = k * 3;
    let i = coordinate(text, at, edition, b' ', p, coordinates)?;
    let j = coordinate(text, i, edition, b' ', p + 1, coordinates)?;
    coordinate(text, j, edition, b'\n', p + 2, coordinates)
}

// The lines of the points, at a place of the text. (`all_triangles` is a twin: over a closure its contract
// would be said at both calls.)
fn all_points(
    text: &[u8],
    at: usize,
    edition: Edition,
    count: usize,
    coordinates: &mut [i32],
) -> Option<usize>
    requires { count * 3 ≤ length coordinates.old }
    ensures { points_is text.now at (rules_of edition).most count coordinates.old coordinates.new result }
{
    let mut next = at;
    for k in 0..count {
        next = point(text, next, edition, k, coordinates)?;
    }
    Some(next)
}

// A line of a triangle, at a place of the text: its corners and its label are stored as the triangle k.
fn triangle(
    text: &[u8],
    at: usize,
    k: usize,
    corners: &mut [u32],
    labels: &mut [u8],
) -> Option<usize>
    requires { (k * 3 + 2 < length corners.old) × (k < length labels.old) }
    ensures { triangle_is text.now at k corners.old corners.new labels.old labels.new result }
{
    let a = number(text, at, 0xffff_ffff, b' ')?;
    let b = number(text, a.next, 0xffff_ffff, b' ')?;
    let c = number(text, b.next, 0xffff_ffff, b' ')?;
    let label = number(text, c.next, 255, b'\n')?;
    let p = k * 3;
    corners[p] = a.value as u32;
    corners[p + 1] = b.value as u32;
    corners[p + 2] = c.value as u32;
    labels[k] = label.value as u8;
    Some(label.next)
}

// The lines of the triangles, at a place of the text.
fn all_triangles(
    text: &[u8],
    at: usize,
    count: usize,
    corners: &mut [u32],
    labels: &mut [u8],
) -> Option<usize>
    requires { (count * 3 ≤ length corners.old) × (count ≤ length labels.old) }
    ensures { triangles_is text.now at count corners.old corners.new labels.old labels.new result }
{
    let mut next = at;
    for k in 0..count {
        next = triangle(text, next, k, corners, labels)?;
    }
    Some(next)
}

// What stands before the points: the opening, the counts, and a line of names.
fn head(text: &[u8], opening: &[u8]) -> Option<Counted>
    ensures { head_is opening.now text.now result }
{
    let i = word(text, 0, opening)?;
    let n = number(text, i, 128, b' ')?;
    let m = number(text, n.next, 256, b'\n')?;
    let next = word(text, m.next, b"x y z\n")?;
    let counts = Counts {
        points: n.value as usize,
        triangles: m.value as usize,
    };
    Some(Counted { counts, next })
}

// The counts of the sheet of that edition, whose numbers go into lists that are long enough.
// Where the text is no sheet, they hold what was read.
fn sheet(
    text: &[u8],
    edition: Edition,
    coordinates: &mut [i32],
    corners: &mut [u32],
    labels: &mut [u8],
) -> Option<Counts>
    requires { (384 ≤ length coordinates.old) × (768 ≤ length corners.old) × (256 ≤ length labels.old) }
    ensures { sheet_is (rules_of edition).opening (rules_of edition).most text.now coordinates.old coordinates.new corners.old corners.new labels.old labels.new result }
{
    let start = head(text, edition.opening())?;
    let i = all_points(text, start.next, edition, start.counts.points, coordinates)?;
    let j = word(text, i, b"a b c label\n")?;
    let next = all_triangles(text, j, start.counts.triangles, corners, labels)?;
    if next < text.len() {
        return None;
    }
    Some(start.counts)
}

// The edition that the first byte tells.
fn told(text: &[u8]) -> Edition
    ensures { TellsEdition text.now (edition_number result) }
{
    if text.first() == Some(&b'e') {
        return Edition::Second;
    }
    Edition::First
}

// The whole numbers of a sheet of either edition, into lists that are long enough. Where the text is no
// sheet, they hold what was read.
pub fn read_whole(
    text: &[u8],
    coordinates: &mut [i32],
    corners: &mut [u32],
    labels: &mut [u8],
) -> Option<Found>
    requires { (384 ≤ length coordinates.old) × (768 ≤ length corners.old) × (256 ≤ length labels.old) }
    ensures { found_is text.now coordinates.old coordinates.new corners.old corners.new labels.old labels.new result }
{
    let edition = told(text);
    let counts = sheet(text, edition, coordinates, corners, labels)?;
    Some(Found { edition, counts })
}
