// The outlines of a surface at a height: the questions of the call, the plane in f64, and the list.
#![tactic(auto)]

ghost use Rattle.std.specs.Prelude.{◌≡◌, ◌+◌, ◌*◌, ◌/◌, ◌≤◌, length, nat_abs};
ghost use Rattle.rounding.specs.Fraction.{Is};
ghost use Rattle.layers.specs.Layer.{layered?};
ghost use Rattle.layers.specs.Call.{LayerCall};
ghost use Rattle.layers.specs.Stages.{KindsNoted, Crossable, LayerTraced};

use closing::clear_needed;
use questions::Refusal;
use surface::Mesh;

// How many list places are filled, and how many loops they hold.
#[derive(Clone, Copy, Debug, PartialEq, Eq)]
pub struct Layer {
    pub places: usize,
    pub loops: usize,
}

// Question 40. (Two tests and no `&&`: the steps of a chain are named after its numbers.)
fn layered(points: &[f64], height: i32) -> bool
    ensures { result ≡ layered? points.now height }
{
    if height < -32768 {
        return false;
    }
    if height > 32767 {
        return false;
    }
    units::on_units(points)
}

// The height as a coordinate. It is exact.
fn level(height: i32) -> f64
    requires { nat_abs height ≤ 32768 }
    ensures { Is result height 1024 }
{
    f64::from(height) * 0.0009765625
}

// A word for each point, from `base` on: 1 where it lies above the height, and else 0.
fn note_kinds(points: &[f64], level: f64, base: usize, work: &mut [u32])
    requires { base + length points.now / 3 ≤ length work.old }
    ensures { KindsNoted points.now level base work.old work.new (length points.now / 3) }
{
    for v in 0..points.len() / 3 {
        work[base + v] = u32::from(level < points[3 * v + 2]);
    }
}

// Question 41, and the list, which is 0 before.
fn trace(
    points: &[f64],
    corners: &[u32],
    work: &mut [u32],
    height: i32,
    outline: &mut [u32],
) -> Result<Layer, Refusal>
    requires { Crossable points.now corners.now work.old height }
    ensures { LayerTraced points.now corners.now work.old work.new height outline.old outline.new result }
{
    let count = points.len() / 3;
    note_kinds(points, level(height), count * 3 + corners.len() * 4, work);
    let total = outlines::crossed_sides(corners, count, work);
    if outline.len() / 3 < total {
        return Err(Refusal::OutlineRoom);
    }
    let loops = outlines::outline(corners, count, work, outline, total);
    Ok(Layer {
        places: total,
        loops,
    })
}

// The loops in which the plane at half a unit above the height crosses the surface, three words of the list for each crossed side: editing's questions up to 12, then 40 and 41.
pub fn outlines(
    mesh: &Mesh,
    work: &mut [u32],
    height: i32,
    outline: &mut [u32],
) -> Result<Layer, Refusal>
    ensures { LayerCall mesh.now.points.now mesh.now.corners.now mesh.now.labels.now work.old work.new height outline.old outline.new result }
{
    outline.fill(0);
    questions::admitted(mesh, work)?;
    if !layered(mesh.points, height) {
        return Err(Refusal::Height);
    }
    let found = trace(mesh.points, mesh.corners, work, height, outline);
    clear_needed(mesh.corners, mesh.points.len() / 3, work);
    found
}
