// Reads a text sheet of either edition: its points as floats, its corners and its labels. What a call
// gives is `specs/Given.antt`.
#![tactic(auto)]

ghost use Rattle.std.specs.Prelude.{◌≡◌, ◌≤◌, length};
ghost use Rattle.sheet.specs.Sheet as Sheet;
ghost use Rattle.sheet.specs.Contents.{contents};
ghost use Rattle.reading.specs.Given.{reading_in, Gives};
ghost use Rattle.reading.specs.Stages.{placed_first};

use sheet::{Counts, Refusal};

// z / unit
fn quotient(z: i32, unit: u32) -> f64
    ensures { result ≡ Sheet.place unit z }
{
    f64::from(z) / f64::from(unit)
}

// The first `count` coordinates as floats.
fn places(coordinates: &[i32], unit: u32, count: usize, points: &mut [f64])
    requires { (count ≤ length coordinates.now) × (count ≤ length points.old) }
    ensures { points.new ≡ placed_first unit coordinates.now count points.old }
{
    for k in 0..count {
        points[k] = quotient(coordinates[k], unit);
    }
}

// Reads a sheet. Its points' coordinates go to the start of `points`, three for each, its triangles'
// corners to the start of `corners`, three for each, and their labels to the start of `labels`. Zeros
// follow, and a refusal leaves zeros.
pub fn read(
    text: &[u8],
    points: &mut [f64],
    corners: &mut [u32],
    labels: &mut [u8],
) -> Result<Counts, Refusal>
    ensures { Gives (reading_in (contents text.now) points.old corners.old labels.old) points.old points.new corners.old corners.new labels.old labels.new result }
{
    points.fill(0.0);
    corners.fill(0);
    labels.fill(0);
    // Room for the largest sheet. (Arrays of fixed length: there is no heap.)
    let mut coordinates = [0i32; 384];
    let mut all_corners = [0u32; 768];
    let mut all_labels = [0u8; 256];
    let Some(found) = sheet::read_whole(text, &mut coordinates, &mut all_corners, &mut all_labels)
    else {
        return Err(Refusal::NoSheet);
    };
    let n = found.counts.points;
    let m = found.counts.triangles;
    if points.len() < n * 3 {
        return Err(Refusal::NoRoom);
    }
    if corners.len() < m * 3 {
        return Err(Refusal::NoRoom);
    }
    if labels.len() < m {
        return Err(Refusal::NoRoom);
    }
    places(&coordinates, found.edition.unit(), n * 3, points);
    corners[..m * 3].copy_from_slice(&all_corners[..m * 3]);
    labels[..m].copy_from_slice(&all_labels[..m]);
    Ok(found.counts)
}
