// Runs the judgement of closedness on small triangle lists and writes what it says of each.
// A list is written as digits, a corner each; other characters part the triangles.
#![tactic(auto)]

ghost use Rattle.std.specs.Prelude.{◌≡◌, true, ℕ, ◌<◌, ◌≤◌, length, get_or};
ghost use Rattle.closing_cases.specs.Counts.{IsPrefixLen};

use halfedges::wide;
use std::io;
use std::io::Write;
use surface::Finding;

// Whether every corner is below points. (`questions` has it, on which this program does not stand.)
fn within(corners: &[u32], points: usize) -> bool
    ensures { result ≡ true → (k : ℕ) → k < length corners.now → get_or corners.now k 0 < points }
{
    corners.iter().all(|v| wide(*v) < points)
}

// The letter of a finding: m closed by rules (b) and (c), r a repeated side, l a lone side, s a split corner.
fn found(finding: Finding) -> u8 {
    match finding {
        Finding::Closed => b'm',
        Finding::Repeated(_, _) => b'r',
        Finding::Lone(_, _) => b'l',
        Finding::Split(_) => b's',
    }
}

// c closed by all four rules, ? not to be asked, else what is found of (b) and (c).
fn judged(corners: &[u32], points: usize, work: &mut [u32]) -> u8 {
    if corners.len() % 3 != 0 {
        return b'?';
    }
    if corners.len() > 98304 {
        return b'?';
    }
    if points > 32768 {
        return b'?';
    }
    // As many work words as `closing` needs.
    if work.len() < corners.len() / 3 * 32 + points * 16 {
        return b'?';
    }
    if !within(corners, points) {
        return b'?';
    }
    if closing::closed_surface(corners, points, work) {
        return b'c';
    }
    found(closing::finding(corners, points, work))
}

fn digit(c: u8) -> Option<u32> {
    if c.is_ascii_digit() {
        return Some(u32::from(c - b'0'));
    }
    None
}

// The corners that a text spells, and how many.
fn spell(text: &[u8], corners: &mut [u32]) -> usize
    ensures { IsPrefixLen result corners.new }
{
    let mut n = 0;
    for c in text {
        if let Some(d) = digit(*c) {
            if n < corners.len() {
                corners[n] = d;
                n += 1;
            }
        }
    }
    n
}

fn show(rt: &impl Print, name: &[u8], text: &[u8], points: usize) -> io::Result<()> {
    let mut corners = [0u32; 48];
    let mut work = [7u32; 800];
    let n = spell(text, &mut corners);
    let out = [judged(&corners[..n], points, &mut work), b' '];
    let mut printer = io::writer(rt);
    printer.write_all(&out)?;
    printer.write_all(name)?;
    printer.write_all(b"\n")
}

fn main(rt: HostRuntime) -> io::Result<()> {
    show(&rt, b"tetrahedron", b"012 023 031 132", 4)?;
    show(
        &rt,
        b"with points that no triangle names",
        b"012 023 031 132",
        9,
    )?;
    show(&rt, b"open: one triangle gone", b"012 023 031", 4)?;
    show(
        &rt,
        b"twisted: one triangle turned round",
        b"012 023 031 123",
        4,
    )?;
    show(
        &rt,
        b"two tetrahedra sharing a corner",
        b"012 023 031 132 045 056 064 465",
        7,
    )?;
    show(
        &rt,
        b"two pieces apart",
        b"012 023 031 132 745 756 764 465",
        8,
    )?;
    show(
        &rt,
        b"torus of seven corners",
        b"013 032 124 143 235 254 346 365 450 406 561 510 602 621",
        7,
    )?;
    show(&rt, b"pillow", b"012 021", 3)?;
    show(&rt, b"a corner twice in a triangle", b"001", 2)?;
    show(&rt, b"a side three times", b"000", 1)?;
    show(&rt, b"no triangles", b"", 0)?;
    show(&rt, b"a corner that is no point", b"012 023 031 132", 3)
}
