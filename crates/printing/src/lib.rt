// The printed check of a text sheet: its verdict, its smallest quality and its volume, as text. What is
// printed of a text is `specs/Printed.antt`.
#![tactic(auto)]

ghost use Rattle.std.specs.Prelude.{◌≡◌, not, ◌<◌, ◌^◌, ◌/◌, ◌%◌, T};
ghost use Rattle.std.specs.Float.Ieee.{is_nan};
ghost use Rattle.sheet.specs.Contents.{contents};
ghost use Rattle.sheet.specs.Stages.{ended};
ghost use Rattle.writing.specs.Stages.{Put, Writes};
ghost use Rattle.printing.specs.Printed as Printed;
ghost use Rattle.printing.specs.Printed.{hex_digit, float_digits, printed_lines, verdict_on, Prints};

use checking::Measures;
use questions::Refusal;
use surface::Mesh;
use writing::Writer;

// The digit of 16^k of a number.
fn digit(v: u64, k: u64) -> u8
    requires { k < 16 }
    ensures { result ≡ hex_digit (v / 16 ^ k % 16) }
{
    let d = (v >> (k * 4)) % 16;
    if d < 10 {
        return b'0' + d as u8;
    }
    b'a' - 10 + d as u8
}

// All 16 digits of a number, the highest first. A formatter would not count the places past the end.
fn hexadecimal(v: u64, writer: &mut Writer)
    requires { writer.old.at < 2 ^ 31 }
    ensures { Writes (Printed.hexadecimal 16 v) 16 writer.old writer.new }
{
    for k in (0..16).rev() {
        writer.put(digit(v, k));
    }
}

// The bits of a number, in hexadecimal, and the byte that ends them.
fn bits(x: f64, end: u8, writer: &mut Writer)
    requires { T (not (is_nan x)) × (writer.old.at < 2 ^ 31) }
    ensures { Writes (ended (float_digits x) end) 17 writer.old writer.new }
{
    hexadecimal(x.to_bits(), writer);
    writer.put(end);
}

// The line of names and the line of values.
fn lines(number: u32, quality: f64, volume: f64, printed: &mut [u8]) -> usize
    requires { T (not (is_nan quality)) × T (not (is_nan volume)) }
    ensures { Put (printed_lines number quality volume) 68 printed.old printed.new 0 result }
{
    let mut writer = Writer {
        written: printed,
        at: 0,
    };
    writer.word(b"verdict quality volume\n");
    writer.field(number, b' ');
    bits(quality, b' ', &mut writer);
    bits(volume, b'\n', &mut writer);
    writer.at
}

// The verdict on the surface that a text says, where it is a sheet. The lists are long enough for every
// sheet.
fn verdict(text: &[u8]) -> Result<Measures, Refusal>
    ensures { result ≡ verdict_on (contents text.now) }
{
    let mut points = [0.0f64; 384];
    let mut corners = [0u32; 768];
    let mut labels = [0u8; 256];
    let mut work = [0u32; 10240];
    let Ok(counts) = reading::read(text, &mut points, &mut corners, &mut labels) else {
        return Err(Refusal::Sheet);
    };
    let mesh = Mesh {
        points: &points[..counts.points * 3],
        corners: &corners[..counts.triangles * 3],
        labels: &labels[..counts.triangles],
    };
    checking::validate(&mesh, &mut work)
}

// Puts the printed check of a text at the start of the list, with zeros behind it, and answers how long it
// is. There are at most 60 bytes; a shorter list gets the first of them.
pub fn print(text: &[u8], printed: &mut [u8]) -> usize
    ensures { Prints text.now printed.old printed.new result }
{
    printed.fill(0);
    match verdict(text) {
        Ok(found) => lines(0, found.quality, found.volume, printed),
        Err(why) => lines(why.number(), 0.0, 0.0, printed),
    }
}
