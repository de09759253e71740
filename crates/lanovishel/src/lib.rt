// The calls that programs make; `lanovishel_c` exports them to Rust and C. None asks anything of its
// caller: a bad call is answered with its number.
#![tactic(auto)]

ghost use Rattle.std.specs.Prelude.{◌≡◌, [], ◌∷◌, ◌%◌, ◌^◌, T};
ghost use Rattle.std.specs.Float.{binary64};
ghost use Rattle.std.specs.Float.Ieee.{fits};
ghost use Rattle.questions.specs.Refusal.{refusal_number, refusal_place};
ghost use Rattle.writing.specs.Written.{written_number, written_length};
ghost use Rattle.lanovishel.specs.Root.{SquareRoot};
ghost use Rattle.lanovishel.specs.Check.{Checked};
ghost use Rattle.lanovishel.specs.Price.{PriceCall};
ghost use Rattle.lanovishel.specs.Nearest.{NearestCall};
ghost use Rattle.lanovishel.specs.Outlines.{OutlinesCall};
ghost use Rattle.lanovishel.specs.Sheets.{ReadSheetCall, WriteSheetCall, ConvertSheetCall};
ghost use Rattle.lanovishel.specs.Edit.{EditCall};
ghost use Rattle.lanovishel.specs.Improve.{ImproveCall};
ghost use Rattle.lattice.specs.Sample.{told, lists};
ghost use Rattle.lanovishel.specs.Sample.{SampleCall};
ghost use Rattle.cuts.specs.Call.{cut_lists};
ghost use Rattle.lanovishel.specs.Cut.{CutCall};

use checking::Measures;
use field::Terms;
use lattice::Sampled;
use layers::Layer;
use sheet::Counts;
use surface::Mesh;

// The square root of IEEE 754.
pub fn lanovishel_sqrt(x: f64) -> f64
    ensures { SquareRoot x result }
{
    float::sqrt(x)
}

// The verdict on a surface: 0 with its smallest quality and its volume, or the number of the refusal, with
// the place of what is found.
pub fn lanovishel_check(
    points: &[f64],
    corners: &[u32],
    labels: &[u8],
    work: &mut [u32],
    numbers: &mut [f64; 2],
    place: &mut [u32; 2],
) -> u32
    ensures { Checked points.now corners.now labels.now work.old work.new numbers.new place.new result }
{
    let mesh = Mesh {
        points,
        corners,
        labels,
    };
    match checking::validate(&mesh, work) {
        Ok(Measures { quality, volume }) => {
            *numbers = [quality, volume];
            *place = [0, 0];
            0
        }
        Err(why) => {
            *numbers = [0.0, 0.0];
            refused(why, place) // 0 0 but for a finding
        }
    }
}

// The price of a surface: 0 with the cents, or the number of the refusal, with the place of what is found.
// The price sheet: `uppers`, the upper volumes of all steps but the last, and `prices`, one a step.
pub fn lanovishel_price(
    points: &[f64],
    corners: &[u32],
    labels: &[u8],
    work: &mut [u32],
    uppers: &[u64],
    prices: &[u64],
    cents: &mut [u64; 1],
    place: &mut [u32; 2],
) -> u32
    ensures { PriceCall points.now corners.now labels.now work.old uppers.now prices.now work.new cents.new place.new result }
{
    let mesh = Mesh {
        points,
        corners,
        labels,
    };
    match price::price(&mesh, work, uppers, prices) {
        Ok(sum) => {
            *cents = [sum];
            *place = [0, 0];
            0
        }
        Err(why) => {
            *cents = [0];
            refused(why, place)
        }
    }
}

// The nearest corners in use of up to 64 probes, three values each: 0 with how many answer places are
// filled, a corner and its squared distance each, or the number of the refusal.
pub fn lanovishel_nearest(
    points: &[f64],
    corners: &[u32],
    labels: &[u8],
    work: &mut [u32],
    probes: &[f64],
    answers: &mut [u64],
    count: &mut [u32; 1],
) -> u32
    ensures { NearestCall points.now corners.now labels.now work.old probes.now answers.old work.new answers.new count.new result }
{
    let mesh = Mesh {
        points,
        corners,
        labels,
    };
    match nearest::nearest(&mesh, work, probes, answers) {
        Ok(()) => {
            *count = [low_word(probes.len() / 3)];
            0
        }
        Err(why) => {
            *count = [0];
            why.number()
        }
    }
}

// The loops in which the plane at half a unit above the height crosses a closed surface: 0 with how many list
// places are filled and how many loops they hold, or the number of the refusal, with the place of what is found.
// A list place is two corners, the smaller first, and the loop's number.
pub fn lanovishel_outlines(
    points: &[f64],
    corners: &[u32],
    labels: &[u8],
    work: &mut [u32],
    height: i32,
    outline: &mut [u32],
    counts: &mut [u32; 2],
    place: &mut [u32; 2],
) -> u32
    ensures { OutlinesCall points.now corners.now labels.now work.old height outline.old work.new outline.new counts.new place.new result }
{
    let mesh = Mesh {
        points,
        corners,
        labels,
    };
    match layers::outlines(&mesh, work, height, outline) {
        Ok(Layer { places, loops }) => {
            *counts = [low_word(places), low_word(loops)];
            *place = [0, 0];
            0
        }
        Err(why) => {
            *counts = [0, 0];
            refused(why, place)
        }
    }
}

// The sheet that a text is, of either edition: 0 with its points, corners and labels, and how many points and
// triangles they are, or the number of the refusal.
pub fn lanovishel_read_sheet(
    sheet: &[u8],
    points: &mut [f64],
    corners: &mut [u32],
    labels: &mut [u8],
    counts: &mut [u32; 2],
) -> u32
    ensures { ReadSheetCall sheet.now points.old corners.old labels.old points.new corners.new labels.new counts.new result }
{
    match reading::read(sheet, points, corners, labels) {
        Ok(Counts { points, triangles }) => {
            *counts = [low_word(points), low_word(triangles)];
            0
        }
        Err(why) => {
            *counts = [0, 0];
            why.number()
        }
    }
}

// The text of the sheet that the lists say in an edition, the coordinates in its whole units: 0 with the length
// of the text, or the number of the refusal.
pub fn lanovishel_write_sheet(
    edition: u32,
    coordinates: &[i32],
    corners: &[u32],
    labels: &[u8],
    written: &mut [u8],
    count: &mut [u64; 1],
) -> u32
    ensures { WriteSheetCall edition coordinates.now corners.now labels.now written.old written.new count.new result }
{
    answered(
        writing::write(edition, coordinates, corners, labels, written),
        count,
    )
}

// The sheet that a text is, in the edition asked for: 0 with the length of the text, or the number of the refusal.
pub fn lanovishel_convert_sheet(
    sheet: &[u8],
    edition: u32,
    written: &mut [u8],
    count: &mut [u64; 1],
) -> u32
    ensures { ConvertSheetCall sheet.now edition written.old written.new count.new result }
{
    answered(converting::convert(sheet, edition, written), count)
}

// 0 with the length of the text, or the number of the refusal with 0.
fn answered(what: Result<usize, sheet::Refusal>, count: &mut [u64; 1]) -> u32
    ensures { (result ≡ written_number what) × (count.new ≡ written_length what ∷ []) }
{
    match what {
        Ok(n) => {
            *count = [n as u64];
            0
        }
        Err(why) => {
            *count = [0]; // no text
            why.number()
        }
    }
}

// An edit run: entries of kind, a, b; 0 with triangles left and edits in force, or the number of the
// refusal, with the place of what is found.
pub fn lanovishel_edit(
    points: &[f64],
    corners: &mut [u32],
    labels: &mut [u8],
    work: &mut [u32],
    entries: &[u32],
    verdicts: &mut [u32],
    journal: &mut [u32],
    answer: &mut [u64; 2],
    place: &mut [u32; 2],
) -> u32
    ensures { EditCall points.now corners.old labels.old work.old entries.now verdicts.old journal.old corners.new labels.new work.new verdicts.new journal.new answer.new place.new result }
{
    match editing::edit(points, corners, labels, work, entries, verdicts, journal) {
        Ok(editing::Left { triangles, edits }) => {
            *answer = [triangles as u64, edits as u64];
            *place = [0, 0];
            0
        }
        Err(why) => {
            *answer = [0, 0];
            refused(why, place)
        }
    }
}

// Improving by rounds: 0 with points left, triangles left and flips, or the number of the refusal, with
// the place of what is found. `bounds` is the lower corner of the box, then the upper.
pub fn lanovishel_improve(
    points: &mut [f64],
    corners: &mut [u32],
    labels: &mut [u8],
    work: &mut [u32],
    coefficients: &[f64],
    powers: &[u32],
    levels: &[f64; 2],
    bounds: &[f64; 6],
    rounds: u32,
    answer: &mut [u32; 3],
    place: &mut [u32; 2],
) -> u32
    ensures { ImproveCall points.old corners.old labels.old work.old coefficients.now powers.now levels.now bounds.now rounds points.new corners.new labels.new work.new answer.new place.new result }
{
    let terms = Terms {
        coefficients,
        powers,
    };
    match improving::improve(
        points, corners, labels, work, &terms, levels, bounds, rounds,
    ) {
        Ok(left) => {
            *answer = [low_word(left.points), low_word(left.triangles), left.flips];
            *place = [0, 0];
            0
        }
        Err(why) => {
            *answer = [0, 0, 0];
            refused(why, place)
        }
    }
}

// Samples a field sheet on the lattice of a box: 0 with the nodes in the grid, the nodes in the values and the edges in
// their list, or the number of the refusal. `bounds` is the lower corner of the box, then the upper.
pub fn lanovishel_sample(
    coefficients: &[f64],
    powers: &[u32],
    levels: &[f64; 2],
    bounds: &[f64; 6],
    cells: u32,
    grid: &mut [f64],
    values: &mut [f64],
    edges: &mut [u32],
    counts: &mut [u32; 3],
) -> u32
    ensures { SampleCall (told coefficients.now powers.now levels.now bounds.now cells) (lists grid.old values.old edges.old) (lists grid.new values.new edges.new) counts.new result }
{
    let terms = Terms {
        coefficients,
        powers,
    };
    match lattice::sample(&terms, levels, bounds, cells, grid, values, edges) {
        Ok(Sampled { nodes, edges }) => {
            *counts = [low_word(nodes), low_word(nodes), low_word(edges)];
            0
        }
        Err(why) => {
            *counts = [0, 0, 0];
            why.number()
        }
    }
}

// Samples a field sheet as `lanovishel_sample` does, and cuts the listed edges: 0 with the nodes in the grid, the nodes
// in the values, the edges in their list and their cuts, and the field values that were taken for these; or the number
// of the refusal.
pub fn lanovishel_cut(
    coefficients: &[f64],
    powers: &[u32],
    levels: &[f64; 2],
    bounds: &[f64; 6],
    cells: u32,
    grid: &mut [f64],
    values: &mut [f64],
    edges: &mut [u32],
    counts: &mut [u32; 4],
    cuts: &mut [f64],
    fields: &mut [u64; 1],
) -> u32
    ensures { CutCall (told coefficients.now powers.now levels.now bounds.now cells) (cut_lists (lists grid.old values.old edges.old) cuts.old) (cut_lists (lists grid.new values.new edges.new) cuts.new) counts.new fields.new result }
{
    known_f64(levels[0]);
    known_f64(levels[1]);
    let terms = Terms {
        coefficients,
        powers,
    };
    match cuts::cut(&terms, levels, bounds, cells, grid, values, edges, cuts) {
        Ok(complete) => {
            *counts = [
                low_word(complete.nodes),
                low_word(complete.nodes),
                low_word(complete.edges),
                low_word(complete.edges),
            ];
            *fields = [complete.taken];
            0
        }
        Err(why) => {
            *counts = [0, 0, 0, 0];
            *fields = [0];
            why.number()
        }
    }
}

// The number of a refusal, with its place, which is 0 0 but for a finding.
fn refused(why: questions::Refusal, place: &mut [u32; 2]) -> u32
    ensures number { result ≡ refusal_number why }
    ensures place { place.new ≡ refusal_place why }
{
    *place = why.place();
    why.number()
}

// Does nothing: what is lent is an f64, of which the logic's floats are more.
fn known_f64(x: f64)
    ensures { T (fits binary64 x) }
{}

// A count as a word.
fn low_word(n: usize) -> u32
    ensures { result ≡ n % 2 ^ 32 }
{
    (n % 4294967296) as u32
}
