// A line of the job program, and the line as text: its fields in decimal, with a space between them and a newline at
// the end.
#![tactic(auto)]

ghost use Rattle.std.specs.Prelude.{◌+◌, ◌≤◌, length};
ghost use Rattle.line.specs.Printed.{field, Printed};
ghost use Rattle.line.specs.Printing.{Put};

// The fields of a line.
#[derive(Clone, Copy)]
pub struct Line {
    pub number: usize,
    pub kind: usize,
    pub answer: usize,
    pub x: usize,
    pub y: usize,
}

// The longest line: five fields of 20 digits, each with the byte after it.
pub const LONGEST_LINE: usize = 105;

// Puts a number's digits, then the byte `mark`, at a place of `out`; gives the place after them.
fn put(number: usize, mark: u8, out: &mut [u8], at: usize) -> usize
    requires { at + 21 ≤ length out.old }
    ensures { Put (field number mark) out.old at result out.new }
{
    let mut digits = [0u8; 20];
    let count = io::decimal(number as u64, &mut digits);
    let end = at + count;
    out[at..end].copy_from_slice(&digits[..count]);
    out[end] = mark;
    end + 1
}

// Writes a line at the start of `out`, and gives how many bytes that is; the rest of `out` is as it was. Where the
// longest line does not fit, nothing is written.
pub fn print(line: Line, out: &mut [u8]) -> usize
    ensures { Printed line out.old result out.new }
{
    if out.len() < LONGEST_LINE {
        return 0;
    }
    let kind = put(line.number, b' ', out, 0);
    let answer = put(line.kind, b' ', out, kind);
    let x = put(line.answer, b' ', out, answer);
    let y = put(line.x, b' ', out, x);
    put(line.y, b'\n', out, y)
}
