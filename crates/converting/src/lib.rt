// Converts a text sheet of either edition to the unit of an edition. What a conversion is, is the crate
// `sheet`; what comes of converting a text is `specs/Converting.antt`.
#![tactic(auto)]

ghost use Rattle.std.specs.Prelude.{◌≡◌, ℕ, ◌≤◌, ◌<◌, ◌^◌, length, get_or, pos, nat_abs};
ghost use Rattle.sheet.specs.Edition.{edition_number, rules_of};
ghost use Rattle.sheet.specs.Contents.{contents};
ghost use Rattle.writing.specs.Written.{Leaves};
ghost use Rattle.converting.specs.Converting.{conversion};
ghost use Rattle.converting.specs.Stages.{signed_as, Turned, TurnedFirst};

use sheet::{Edition, Refusal};

// A number of that size, with the sign of z.
fn signed(z: i32, size: u64) -> i32
    requires { size < 2 ^ 31 }
    ensures { result ≡ signed_as z size }
{
    if z < 0 {
        return -(size as i32);
    }
    size as i32
}

// The coordinate z in the unit of `asked`, stored at k, and whether it is the same number. It is cut
// where that unit does not have it.
fn turn(z: i32, from: Edition, asked: Edition, k: usize, coordinates: &mut [i32]) -> bool
    requires { (nat_abs z ≤ (rules_of from).most) × (k < length coordinates.old) }
    ensures { Turned (edition_number from) (edition_number asked) z k coordinates.old coordinates.new result }
{
    let unit = u64::from(from.unit());
    let scaled = u64::from(z.unsigned_abs()) * u64::from(asked.unit());
    coordinates[k] = signed(z, scaled / unit);
    scaled % unit == 0
}

// The first `count` coordinates in the unit of `asked`, and whether all are the same numbers.
fn turn_all(from: Edition, asked: Edition, count: usize, coordinates: &mut [i32]) -> bool
    requires { (count ≤ length coordinates.old) × ((k : ℕ) → k < count → nat_abs (get_or coordinates.old k (pos 0)) ≤ (rules_of from).most) }
    ensures { TurnedFirst (edition_number from) (edition_number asked) count coordinates.old coordinates.new result }
{
    let mut same = true;
    for k in 0..count {
        let whole = turn(coordinates[k], from, asked, k, coordinates);
        same = whole & same;
    }
    same
}

// Writes the sheet that a text is in the edition asked for. Zeros follow it, and a refusal leaves zeros.
pub fn convert(text: &[u8], asked: u32, written: &mut [u8]) -> Result<usize, Refusal>
    ensures { Leaves (conversion (contents text.now) asked) written.old written.new result }
{
    written.fill(0);
    let edition = Edition::try_from(asked)?;
    // Room for the largest sheet. (Arrays of fixed length: there is no heap.)
    let mut coordinates = [0i32; 384];
    let mut corners = [0u32; 768];
    let mut labels = [0u8; 256];
    let Some(found) = sheet::read_whole(text, &mut coordinates, &mut corners, &mut labels) else {
        return Err(Refusal::NoSheet);
    };
    let n = found.counts.points;
    let m = found.counts.triangles;
    let same = turn_all(found.edition, edition, n * 3, &mut coordinates);
    let count = writing::text(asked, n, m, &coordinates, &corners, &labels, written);
    writing::settled(same, count, written)
}
