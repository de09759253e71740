// The lattice of a field over a box: its nodes, the field's values there, and the lattice edges that a level crosses.
#![tactic(auto)]

pub mod edges;
pub mod levels;
mod nodes;

ghost use Rattle.std.specs.Prelude.{◌≡◌, length};
ghost use Rattle.lattice.specs.Node.{per_side};
ghost use Rattle.lattice.specs.Sample.{told, field_told, lists, number, after_nodes, lattice_of, LatticeCall};
ghost use Rattle.lattice.specs.Stages.{Fillable, FrontsFilled, HasRoom, BlankBehind};

use blank::blank;
use edges::Nodes;
use field::Terms;
use levels::set_onto_levels;
use nodes::fill_nodes;

// How many nodes and how many crossed edges the lists have.
#[derive(Clone, Copy, Debug, PartialEq, Eq)]
pub struct Sampled {
    pub nodes: usize,
    pub edges: usize,
}

// Why a field is not sampled, or its edges are not cut.
#[derive(Clone, Copy, Debug, PartialEq, Eq)]
pub enum Refusal {
    FieldSheet,
    Cells,
    Room,
    ValueNotFinite,
    ResidualNotFinite,
}

impl Refusal {
    pub fn number(self) -> u32
        ensures { result ≡ number self }
    {
        match self {
            Refusal::FieldSheet => 13,
            Refusal::Cells => 34,
            Refusal::Room => 35,
            Refusal::ValueNotFinite => 36,
            Refusal::ResidualNotFinite => 37,
        }
    }
}

// What a call is told: the terms and the levels of a field, its box, and how many cells there are to a side.
#[derive(Clone, Copy)]
pub struct Told<'a> {
    pub terms: &'a Terms<'a>,
    pub levels: &'a [f64; 2],
    pub bounds: &'a [f64; 6],
    pub cells: u32,
}

impl<'a> Told<'a> {
    // How many nodes there are to a side.
    pub fn side(&self) -> usize
        ensures { result ≡ per_side self.now.cells }
    {
        self.cells as usize + 1
    }

    // Fills the fronts of the lists, with room for all nodes: question 36, and 35 for the edge list.
    fn fill(
        &self,
        grid: &mut [f64],
        values: &mut [f64],
        edges: &mut [u32],
    ) -> Result<Sampled, Refusal>
        requires { Fillable self.now.cells grid.old values.old }
        ensures { FrontsFilled (after_nodes (field_told self.now) (length edges.old)) (field_told self.now) (lists grid.old values.old edges.old) (lists grid.new values.new edges.new) result }
    {
        fill_nodes(self.terms, self.bounds, self.cells, grid, values);
        if !field::all_finite(values) {
            return Err(Refusal::ValueNotFinite);
        }
        let [lower, upper] = *self.levels;
        set_onto_levels(values, lower, upper);
        let nodes = Nodes {
            n: self.side(),
            values,
            lower,
            upper,
        };
        let found = nodes.note_edges(edges);
        if edges.len() < found * 3 {
            return Err(Refusal::Room);
        }
        Ok(Sampled {
            nodes: values.len(),
            edges: found,
        })
    }

    // All the questions, and the fronts of the lists.
    pub fn ask_and_fill(
        &self,
        grid: &mut [f64],
        values: &mut [f64],
        edges: &mut [u32],
    ) -> Result<Sampled, Refusal>
        ensures { FrontsFilled (lattice_of (field_told self.now) (lists grid.old values.old edges.old)) (field_told self.now) (lists grid.old values.old edges.old) (lists grid.new values.new edges.new) result }
    {
        if !field::sheet_ok(self.terms, self.levels, self.bounds) {
            return Err(Refusal::FieldSheet);
        }
        let cells = self.cells;
        if cells < 4 || 128 < cells {
            return Err(Refusal::Cells);
        }
        let n = self.side();
        let count = n * n * n;
        if grid.len() < count * 3 || values.len() < count {
            return Err(Refusal::Room);
        }
        self.fill(grid, &mut values[..count], edges)
    }
}

// Sets the lists to 0 behind so many nodes and edges.
pub fn blank_behind(
    grid: &mut [f64],
    values: &mut [f64],
    edges: &mut [u32],
    nodes: usize,
    found: usize,
)
    requires { HasRoom nodes found (lists grid.old values.old edges.old) }
    ensures { BlankBehind nodes found (lists grid.old values.old edges.old) (lists grid.new values.new edges.new) }
{
    blank(grid, nodes * 3);
    blank(values, nodes);
    blank(edges, found * 3);
}

// Samples a field on the lattice of a box. The lists may be longer than the answers: behind these they are 0
// afterwards, and after a refusal they are all 0.
pub fn sample(
    terms: &Terms,
    levels: &[f64; 2],
    bounds: &[f64; 6],
    cells: u32,
    grid: &mut [f64],
    values: &mut [f64],
    edges: &mut [u32],
) -> Result<Sampled, Refusal>
    ensures { LatticeCall (told terms.now.coefficients.now terms.now.powers.now levels.now bounds.now cells) (lists grid.old values.old edges.old) (lists grid.new values.new edges.new) result }
{
    let told = Told {
        terms,
        levels,
        bounds,
        cells,
    };
    let filled = told.ask_and_fill(grid, values, edges);
    let counted = filled.unwrap_or(Sampled { nodes: 0, edges: 0 });
    blank_behind(grid, values, edges, counted.nodes, counted.edges);
    filled
}
