// Where the levels of a sampled field cut the edges of its lattice.
#![tactic(auto)]

mod edges;

ghost use Rattle.lattice.specs.Sample.{told, field_told, lists};
ghost use Rattle.cuts.specs.Call.{cut_lists, CutsCall};
ghost use Rattle.cuts.specs.Stages.{CutFronts};

use blank::blank;
use edges::Listed;
use field::Terms;
use lattice::{Refusal, Told, blank_behind};

// How many nodes and how many edges the lists have, each edge with its cut, and how many field values were taken for
// these.
#[derive(Clone, Copy, Debug, PartialEq, Eq)]
pub struct Complete {
    pub nodes: usize,
    pub edges: usize,
    pub taken: u64,
}

// All the questions, and the fronts of the lists.
fn ask_and_cut(
    told: &Told,
    grid: &mut [f64],
    values: &mut [f64],
    edges: &mut [u32],
    cuts: &mut [f64],
) -> Result<Complete, Refusal>
    ensures { CutFronts (field_told told.now) (cut_lists (lists grid.old values.old edges.old) cuts.old) (cut_lists (lists grid.new values.new edges.new) cuts.new) result }
{
    let sampled = told.ask_and_fill(grid, values, edges)?;
    let listed = Listed {
        terms: told.terms,
        levels: told.levels,
        n: told.side(),
        grid: &grid[..sampled.nodes * 3],
        values: &values[..sampled.nodes],
        edges: &edges[..sampled.edges * 3],
    };
    listed.cut_edges(cuts)
}

// Samples a field on the lattice of a box and cuts the listed edges. The lists may be longer than the answers: behind
// these they are 0 afterwards, and after a refusal they are all 0.
pub fn cut(
    terms: &Terms,
    levels: &[f64; 2],
    bounds: &[f64; 6],
    cells: u32,
    grid: &mut [f64],
    values: &mut [f64],
    edges: &mut [u32],
    cuts: &mut [f64],
) -> Result<Complete, Refusal>
    ensures { CutsCall (told terms.now.coefficients.now terms.now.powers.now levels.now bounds.now cells) (cut_lists (lists grid.old values.old edges.old) cuts.old) (cut_lists (lists grid.new values.new edges.new) cuts.new) result }
{
    let told = Told {
        terms,
        levels,
        bounds,
        cells,
    };
    let filled = ask_and_cut(&told, grid, values, edges, cuts);
    let counted = filled.unwrap_or(Complete {
        nodes: 0,
        edges: 0,
        taken: 0,
    });
    blank_behind(grid, values, edges, counted.nodes, counted.edges);
    blank(cuts, counted.edges * 3);
    filled
}
