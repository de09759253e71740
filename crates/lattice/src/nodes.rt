// The nodes of a lattice, and the field's values there.
ghost use Rattle.std.specs.Prelude.{◌≡◌, ◌<◌};
ghost use Rattle.lattice.specs.Node as Node;
ghost use Rattle.lattice.specs.Stages.{next_index, InLattice, Fillable, NodesFilled};

use field::Terms;
use float::Point;

// A node's index along x, y and z.
#[derive(Clone, Copy, Debug, PartialEq, Eq)]
pub struct Index {
    pub x: usize,
    pub y: usize,
    pub z: usize,
}

// The index of the next node.
pub fn next(n: usize, p: Index) -> Index
    requires { InLattice n p }
    ensures { result ≡ next_index n p }
{
    if p.x + 1 < n {
        return Index { x: p.x + 1, ..p };
    }
    if p.y + 1 < n {
        return Index {
            x: 0,
            y: p.y + 1,
            ..p
        };
    }
    Index {
        x: 0,
        y: 0,
        z: p.z + 1,
    }
}

// lower + ((upper - lower)·c) / cells.
fn coordinate(lower: f64, upper: f64, c: u32, cells: u32) -> f64
    ensures { result ≡ Node.coordinate lower upper c cells }
{
    lower + (upper - lower) * f64::from(c) / f64::from(cells)
}

// The node of an index.
fn node(bounds: &[f64; 6], cells: u32, p: Index) -> Point
    requires { (p.x < 4294967296) × (p.y < 4294967296) × (p.z < 4294967296) }
    ensures { result ≡ Node.node_at bounds.now cells p.x p.y p.z }
{
    Point {
        x: coordinate(bounds[0], bounds[3], p.x as u32, cells),
        y: coordinate(bounds[1], bounds[4], p.y as u32, cells),
        z: coordinate(bounds[2], bounds[5], p.z as u32, cells),
    }
}

// All nodes, three numbers each, and the field at each.
pub fn fill_nodes(
    terms: &Terms,
    bounds: &[f64; 6],
    cells: u32,
    grid: &mut [f64],
    values: &mut [f64],
)
    requires { Fillable cells grid.old values.old }
    ensures { NodesFilled terms.now.coefficients.now terms.now.powers.now bounds.now cells grid.old grid.new values.new }
{
    let n = cells as usize + 1;
    let mut index = Index { x: 0, y: 0, z: 0 };
    for a in 0..values.len() {
        let p = node(bounds, cells, index);
        grid[a * 3] = p.x;
        grid[a * 3 + 1] = p.y;
        grid[a * 3 + 2] = p.z;
        values[a] = terms.value(p);
        index = next(n, index);
    }
}
