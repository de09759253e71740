// The functions of `lanovishel` that programs in Rust and C link, with its clauses. Slices pass as a pointer
// and a length, arrays as a pointer.
#![tactic(auto)]

ghost use Rattle.lanovishel.specs.Root.{SquareRoot};
ghost use Rattle.lanovishel.specs.Check.{Checked};
ghost use Rattle.lanovishel.specs.Price.{PriceCall};
ghost use Rattle.lanovishel.specs.Nearest.{NearestCall};
ghost use Rattle.lanovishel.specs.Outlines.{OutlinesCall};
ghost use Rattle.lanovishel.specs.Sheets.{ReadSheetCall, WriteSheetCall, ConvertSheetCall};
ghost use Rattle.lanovishel.specs.Edit.{EditCall};
ghost use Rattle.lanovishel.specs.Improve.{ImproveCall};
ghost use Rattle.lattice.specs.Sample.{told, lists};
ghost use Rattle.lanovishel.specs.Sample.{SampleCall};
ghost use Rattle.cuts.specs.Call.{cut_lists};
ghost use Rattle.lanovishel.specs.Cut.{CutCall};

#[unsafe(no_mangle)]
pub extern "C" fn lanovishel_sqrt(x: f64) -> f64
    ensures { SquareRoot x result }
{
    lanovishel::lanovishel_sqrt(x)
}

#[unsafe(no_mangle)]
pub extern "C" fn lanovishel_check(
    points: &[f64],
    corners: &[u32],
    labels: &[u8],
    work: &mut [u32],
    numbers: &mut [f64; 2],
    place: &mut [u32; 2],
) -> u32
    ensures { Checked points.now corners.now labels.now work.old work.new numbers.new place.new result }
{
    lanovishel::lanovishel_check(points, corners, labels, work, numbers, place)
}

#[unsafe(no_mangle)]
pub extern "C" fn lanovishel_price(
    points: &[f64],
    corners: &[u32],
    labels: &[u8],
    work: &mut [u32],
    uppers: &[u64],
    prices: &[u64],
    cents: &mut [u64; 1],
    place: &mut [u32; 2],
) -> u32
    ensures { PriceCall points.now corners.now labels.now work.old uppers.now prices.now work.new cents.new place.new result }
{
    lanovishel::lanovishel_price(points, corners, labels, work, uppers, prices, cents, place)
}

#[unsafe(no_mangle)]
pub extern "C" fn lanovishel_nearest(
    points: &[f64],
    corners: &[u32],
    labels: &[u8],
    work: &mut [u32],
    probes: &[f64],
    answers: &mut [u64],
    count: &mut [u32; 1],
) -> u32
    ensures { NearestCall points.now corners.now labels.now work.old probes.now answers.old work.new answers.new count.new result }
{
    lanovishel::lanovishel_nearest(points, corners, labels, work, probes, answers, count)
}

#[unsafe(no_mangle)]
pub extern "C" fn lanovishel_outlines(
    points: &[f64],
    corners: &[u32],
    labels: &[u8],
    work: &mut [u32],
    height: i32,
    outline: &mut [u32],
    counts: &mut [u32; 2],
    place: &mut [u32; 2],
) -> u32
    ensures { OutlinesCall points.now corners.now labels.now work.old height outline.old work.new outline.new counts.new place.new result }
{
    lanovishel::lanovishel_outlines(
        points, corners, labels, work, height, outline, counts, place,
    )
}

#[unsafe(no_mangle)]
pub extern "C" fn lanovishel_read_sheet(
    sheet: &[u8],
    points: &mut [f64],
    corners: &mut [u32],
    labels: &mut [u8],
    counts: &mut [u32; 2],
) -> u32
    ensures { ReadSheetCall sheet.now points.old corners.old labels.old points.new corners.new labels.new counts.new result }
{
    lanovishel::lanovishel_read_sheet(sheet, points, corners, labels, counts)
}

#[unsafe(no_mangle)]
pub extern "C" fn lanovishel_write_sheet(
    edition: u32,
    coordinates: &[i32],
    corners: &[u32],
    labels: &[u8],
    written: &mut [u8],
    count: &mut [u64; 1],
) -> u32
    ensures { WriteSheetCall edition coordinates.now corners.now labels.now written.old written.new count.new result }
{
    lanovishel::lanovishel_write_sheet(edition, coordinates, corners, labels, written, count)
}

#[unsafe(no_mangle)]
pub extern "C" fn lanovishel_convert_sheet(
    sheet: &[u8],
    edition: u32,
    written: &mut [u8],
    count: &mut [u64; 1],
) -> u32
    ensures { ConvertSheetCall sheet.now edition written.old written.new count.new result }
{
    lanovishel::lanovishel_convert_sheet(sheet, edition, written, count)
}

#[unsafe(no_mangle)]
pub extern "C" fn lanovishel_edit(
    points: &[f64],
    corners: &mut [u32],
    labels: &mut [u8],
    work: &mut [u32],
    entries: &[u32],
    verdicts: &mut [u32],
    journal: &mut [u32],
    answer: &mut [u64; 2],
    place: &mut [u32; 2],
) -> u32
    ensures { EditCall points.now corners.old labels.old work.old entries.now verdicts.old journal.old corners.new labels.new work.new verdicts.new journal.new answer.new place.new result }
{
    lanovishel::lanovishel_edit(
        points, corners, labels, work, entries, verdicts, journal, answer, place,
    )
}

#[unsafe(no_mangle)]
pub extern "C" fn lanovishel_improve(
    points: &mut [f64],
    corners: &mut [u32],
    labels: &mut [u8],
    work: &mut [u32],
    coefficients: &[f64],
    powers: &[u32],
    levels: &[f64; 2],
    bounds: &[f64; 6],
    rounds: u32,
    answer: &mut [u32; 3],
    place: &mut [u32; 2],
) -> u32
    ensures { ImproveCall points.old corners.old labels.old work.old coefficients.now powers.now levels.now bounds.now rounds points.new corners.new labels.new work.new answer.new place.new result }
{
    lanovishel::lanovishel_improve(
        points,
        corners,
        labels,
        work,
        coefficients,
        powers,
        levels,
        bounds,
        rounds,
        answer,
        place,
    )
}

#[unsafe(no_mangle)]
pub extern "C" fn lanovishel_sample(
    coefficients: &[f64],
    powers: &[u32],
    levels: &[f64; 2],
    bounds: &[f64; 6],
    cells: u32,
    grid: &mut [f64],
    values: &mut [f64],
    edges: &mut [u32],
    counts: &mut [u32; 3],
) -> u32
    ensures { SampleCall (told coefficients.now powers.now levels.now bounds.now cells) (lists grid.old values.old edges.old) (lists grid.new values.new edges.new) counts.new result }
{
    lanovishel::lanovishel_sample(
        coefficients,
        powers,
        levels,
        bounds,
        cells,
        grid,
        values,
        edges,
        counts,
    )
}

#[unsafe(no_mangle)]
pub extern "C" fn lanovishel_cut(
    coefficients: &[f64],
    powers: &[u32],
    levels: &[f64; 2],
    bounds: &[f64; 6],
    cells: u32,
    grid: &mut [f64],
    values: &mut [f64],
    edges: &mut [u32],
    counts: &mut [u32; 4],
    cuts: &mut [f64],
    fields: &mut [u64; 1],
) -> u32
    ensures { CutCall (told coefficients.now powers.now levels.now bounds.now cells) (cut_lists (lists grid.old values.old edges.old) cuts.old) (cut_lists (lists grid.new values.new edges.new) cuts.new) counts.new fields.new result }
{
    lanovishel::lanovishel_cut(
        coefficients,
        powers,
        levels,
        bounds,
        cells,
        grid,
        values,
        edges,
        counts,
        cuts,
        fields,
    )
}
