// Writes the text sheet of a triangle surface, in either edition, from lists of whole numbers. What a
// sheet is, and its text, is the crate `sheet`; what a call leaves is `specs/Written.antt`.
#![tactic(auto)]

ghost use Rattle.std.specs.Prelude.{◌≡◌, [], ◌∷◌, ◌+◌, ◌*◌, ◌≤◌, ◌<◌, ◌^◌, length};
ghost use Rattle.surface.specs.Check.{every};
ghost use Rattle.sheet.specs.Text as Text;
ghost use Rattle.sheet.specs.Text.{lines};
ghost use Rattle.sheet.specs.Edition as Editions;
ghost use Rattle.sheet.specs.Edition.{rules_of};
ghost use Rattle.sheet.specs.Sheet as Sheet;
ghost use Rattle.sheet.specs.Sheet.{point_line, triangle_line};
ghost use Rattle.sheet.specs.Stages.{ended, head_text};
ghost use Rattle.writing.specs.Lists.{coordinate_in_range?, each, list_point, list_triangle, sheet_front};
ghost use Rattle.writing.specs.Written.{list_text, Leaves};
ghost use Rattle.writing.specs.Stages.{Put, Writes, SettledText};

use sheet::{Edition, Refusal};

// The list that a text is written to, and the place after what is written. A place past the end of the
// list is counted and not written. So the parts need not ask whether there is room: `settled` sees at the
// end how long the text is.
#[derive(Drop)]
pub struct Writer<'a> {
    pub written: &'a mut [u8],
    pub at: usize,
}

impl Writer<'_> {
    // One byte.
    pub fn put(&mut self, b: u8)
        requires { self.old.at < 2 ^ 32 }
        ensures { Writes (b ∷ []) 1 self.old self.new }
    {
        if self.at < self.written.len() {
            self.written[self.at] = b;
        }
        self.at += 1;
    }

    pub fn word(&mut self, w: &[u8])
        requires { (self.old.at < 2 ^ 31) × (length w.now < 2 ^ 31) }
        ensures { Writes w.now (length w.now) self.old self.new }
    {
        for b in w {
            self.put(*b);
        }
    }

    // The digits of a number. (A formatter would not count the places past the end.)
    fn decimal(&mut self, v: u32)
        requires { self.old.at < 2 ^ 31 }
        ensures { Writes (Text.decimal v) 10 self.old self.new }
    {
        if v < 10 {
            self.put(digit(v));
            return;
        }
        self.decimal(v / 10);
        self.put(digit(v % 10));
    }

    // A number and the byte that ends it.
    pub fn field(&mut self, v: u32, end: u8)
        requires { self.old.at < 2 ^ 31 }
        ensures { Writes (ended (Text.decimal v) end) 11 self.old self.new }
    {
        self.decimal(v);
        self.put(end);
    }

    // A coordinate and the byte that ends it.
    fn coordinate(&mut self, z: i32, end: u8)
        requires { self.old.at < 2 ^ 30 }
        ensures { Writes (ended (Text.integer z) end) 12 self.old self.new }
    {
        if z < 0 {
            self.put(b'-');
        }
        self.field(z.unsigned_abs(), end);
    }

    // The line of the point k.
    fn point(&mut self, coordinates: &[i32], k: usize)
        requires { (k * 3 + 2 < length coordinates.now) × (self.old.at < 2 ^ 29) }
        ensures { Writes (point_line (list_point coordinates.now k)) 36 self.old self.new }
    {
        let p = k * 3;
        self.coordinate(coordinates[p], b' ');
        self.coordinate(coordinates[p + 1], b' ');
        self.coordinate(coordinates[p + 2], b'\n');
    }

    // (`all_triangles` is a twin: over a closure its contract would be said at both calls.)
    fn all_points(&mut self, coordinates: &[i32], count: usize)
        requires { (count * 3 ≤ length coordinates.now) × (count ≤ 128) × (self.old.at < 2 ^ 20) }
        ensures { Writes (lines point_line (each (list_point coordinates.now) count)) (count * 36) self.old self.new }
    {
        for k in 0..count {
            self.point(coordinates, k);
        }
    }

    // The line of the triangle k.
    fn triangle(&mut self, corners: &[u32], labels: &[u8], k: usize)
        requires { (k * 3 + 2 < length corners.now) × (k < length labels.now) × (self.old.at < 2 ^ 29) }
        ensures { Writes (triangle_line (list_triangle corners.now labels.now k)) 44 self.old self.new }
    {
        let p = k * 3;
        self.field(corners[p], b' ');
        self.field(corners[p + 1], b' ');
        self.field(corners[p + 2], b' ');
        self.field(u32::from(labels[k]), b'\n');
    }

    fn all_triangles(&mut self, corners: &[u32], labels: &[u8], count: usize)
        requires { (count * 3 ≤ length corners.now) × (count ≤ length labels.now) × (count ≤ 256) × (self.old.at < 2 ^ 20) }
        ensures { Writes (lines triangle_line (each (list_triangle corners.now labels.now) count)) (count * 44) self.old self.new }
    {
        for k in 0..count {
            self.triangle(corners, labels, k);
        }
    }

    // What stands before the points.
    fn head(&mut self, edition: Edition, n: u32, m: u32)
        requires { self.old.at < 2 ^ 20 }
        ensures { Writes (head_text (rules_of edition).opening n m) 55 self.old self.new }
    {
        self.word(edition.opening());
        self.field(n, b' ');
        self.field(m, b'\n');
        self.word(b"x y z\n");
    }
}

fn digit(d: u32) -> u8
    requires { d < 10 }
    ensures { result ≡ 48 + d }
{
    b'0' + d as u8
}

// Writes the text of the sheet of the first n points and m triangles, and answers how long it is. A number that no edition has stands for the first.
pub fn text(
    number: u32,
    n: usize,
    m: usize,
    coordinates: &[i32],
    corners: &[u32],
    labels: &[u8],
    written: &mut [u8],
) -> usize
    requires { (n ≤ 128) × (m ≤ 256) × (n * 3 ≤ length coordinates.now) × (m * 3 ≤ length corners.now) × (m ≤ length labels.now) }
    ensures { Put (Sheet.text (Editions.edition number) (sheet_front n m coordinates.now corners.now labels.now)) (2 ^ 20) written.old written.new 0 result }
{
    let mut writer = Writer { written, at: 0 };
    writer.head(Edition::of(number), n as u32, m as u32);
    writer.all_points(coordinates, n);
    writer.word(b"a b c label\n");
    writer.all_triangles(corners, labels, m);
    writer.at
}

// Whether all coordinates are within ±most.
fn within(coordinates: &[i32], most: u32) -> bool
    ensures { result ≡ every (coordinate_in_range? most) coordinates.now }
{
    // `iter().all` knows no range of a signed element, and the loop does.
    for z in coordinates {
        if z.unsigned_abs() > most {
            return false;
        }
    }
    true
}

// What comes of a text that needs `count` bytes: where it is not exact that is said first, and then that
// there is no room for it. A refusal leaves zeros. (Both are asked in one place: their order is its promise.)
pub fn settled(exact: bool, count: usize, written: &mut [u8]) -> Result<usize, Refusal>
    ensures { SettledText exact count written.old written.new result }
{
    let room = count <= written.len();
    if !exact {
        written.fill(0);
        return Err(Refusal::Inexact);
    }
    if !room {
        written.fill(0);
        return Err(Refusal::NoRoom);
    }
    Ok(count)
}

// Writes a sheet of an edition: three coordinates for each point, and three corners and a label for each
// triangle. Zeros follow its text, and a refusal leaves zeros.
pub fn write(
    number: u32,
    coordinates: &[i32],
    corners: &[u32],
    labels: &[u8],
    written: &mut [u8],
) -> Result<usize, Refusal>
    ensures { Leaves (list_text number coordinates.now corners.now labels.now) written.old written.new result }
{
    written.fill(0); // also behind the text
    let edition = Edition::try_from(number)?;
    let n = coordinates.len() / 3;
    if n * 3 < coordinates.len() {
        return Err(Refusal::NoSheet);
    }
    if n > 128 {
        return Err(Refusal::NoSheet);
    }
    let m = labels.len();
    if m > 256 {
        return Err(Refusal::NoSheet);
    }
    if corners.len() != m * 3 {
        return Err(Refusal::NoSheet);
    }
    if !within(coordinates, edition.most()) {
        return Err(Refusal::NoSheet);
    }
    let count = text(number, n, m, coordinates, corners, labels, written);
    settled(true, count, written)
}
