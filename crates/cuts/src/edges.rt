// The cuts of the listed edges of a lattice, one after the other.
ghost use Rattle.std.specs.Prelude.{◌≡◌, Some};
ghost use Rattle.cuts.specs.Edges as Edges;
ghost use Rattle.cuts.specs.Stages.{edge_in, edge_cut, AtEdge, AtEdges, ListCut};

use crate::Complete;
use field::Terms;
use float::{Point, point_at};
use lattice::Refusal;
use lattice::edges::offset;
use solve::{Cut, point_between, solve};

// The cut of an edge: its point, and how many field values were taken.
#[derive(Clone, Copy)]
struct EdgeCut {
    point: Point,
    taken: u64,
}

// Label 0 is the upper level, 1 the lower (a word of the list that C reads).
fn level_of(levels: &[f64; 2], label: u32) -> f64
    ensures { result ≡ Edges.level_in levels.now label }
{
    if label == 0 { levels[1] } else { levels[0] }
}

// The point of a cut between a and b.
fn cut_point(a: Point, b: Point, cut: Cut) -> Point
    ensures { result ≡ Edges.cut_point a b (Some cut) }
{
    match cut {
        Cut::First => a,
        Cut::Second => b,
        Cut::At(t) => point_between(a, b, t),
    }
}

// The edges that a list has of a field, with n nodes to a side, the grid and the values at them.
#[derive(Clone, Copy)]
pub struct Listed<'a> {
    pub terms: &'a Terms<'a>,
    pub levels: &'a [f64; 2],
    pub n: usize,
    pub grid: &'a [f64],
    pub values: &'a [f64],
    pub edges: &'a [u32],
}

impl<'a> Listed<'a> {
    // The cut of edge e.
    fn cut_edge(&self, e: usize) -> Result<EdgeCut, Refusal>
        requires { AtEdge self.now.n self.now.grid.now self.now.values.now self.now.edges.now e }
        ensures { result ≡ edge_cut self.now.terms.now.coefficients.now self.now.terms.now.powers.now self.now.levels.now self.now.n self.now.grid.now self.now.values.now (edge_in self.now.edges.now e) }
    {
        let i = self.edges[e * 3] as usize;
        let j = i + offset(self.n, self.edges[e * 3 + 1] as usize);
        let level = level_of(self.levels, self.edges[e * 3 + 2]);
        let a = point_at(self.grid, i);
        let b = point_at(self.grid, j);
        let first = self.values[i];
        let second = self.values[j];
        let solved = solve(self.terms, a, b, first, second, level);
        match solved.cut {
            Some(cut) => Ok(EdgeCut {
                point: cut_point(a, b, cut),
                taken: solved.taken,
            }),
            None => Err(Refusal::ResidualNotFinite),
        }
    }

    // The cuts of all edges, a place to each: question 35 for their list, and 37.
    pub fn cut_edges(&self, cuts: &mut [f64]) -> Result<Complete, Refusal>
        requires { AtEdges self.now.n self.now.grid.now self.now.values.now self.now.edges.now }
        ensures { ListCut self.now.terms.now.coefficients.now self.now.terms.now.powers.now self.now.levels.now self.now.n self.now.grid.now self.now.values.now self.now.edges.now cuts.old cuts.new result }
    {
        let found = self.edges.len() / 3;
        if cuts.len() < found * 3 {
            return Err(Refusal::Room);
        }
        let mut taken: u64 = 0;
        for e in 0..found {
            let cut = self.cut_edge(e)?;
            let p = cut.point;
            cuts[e * 3] = p.x;
            cuts[e * 3 + 1] = p.y;
            cuts[e * 3 + 2] = p.z;
            taken += cut.taken;
        }
        Ok(Complete {
            nodes: self.values.len(),
            edges: found,
            taken,
        })
    }
}
