// The definitions and laws of closed triangle surfaces; what the judgement of rules (b) and (c) finds; the lists of a surface; and a triangle by value, read from a lent corner list and written to it.
#![tactic(auto)]

ghost use Rattle.std.specs.Prelude.{◌≡◌, ◌+◌, ◌*◌, ◌<◌, length};
ghost use Rattle.surface.specs.Flat.{tri_of, three_at, put_at};

// The answer of the judgement: the surface is closed, a directed side is repeated, a directed side lacks its reverse, or a corner has more than one ring.
// (No Result: of the four answers exactly one holds of any list, and the theorems name each; closed is one of them.)
#[derive(Clone, Copy, Debug, PartialEq, Eq)]
pub enum Finding {
    Closed,
    Repeated(u32, u32),
    Lone(u32, u32),
    Split(u32),
}

// A surface by the lists that hold it: three numbers for each point, three corners and a label for each triangle.
#[derive(Clone, Copy)]
pub struct Mesh<'a> {
    pub points: &'a [f64],
    pub corners: &'a [u32],
    pub labels: &'a [u8],
}

// The triangle at a place.
pub fn triangle_at(corners: &[u32], i: usize) -> [u32; 3]
    requires { 3 * i + 2 < length corners.now }
    ensures { result ≡ three_at corners.now i }
{
    let k = 3 * i;
    [corners[k], corners[k + 1], corners[k + 2]]
}

// A triangle is put at a place.
pub fn put_triangle(corners: &mut [u32], i: usize, t: [u32; 3])
    requires { 3 * i + 2 < length corners.old }
    ensures { corners.new ≡ put_at corners.old i (tri_of t) }
{
    let k = 3 * i;
    corners[k] = t[0];
    corners[k + 1] = t[1];
    corners[k + 2] = t[2];
}
