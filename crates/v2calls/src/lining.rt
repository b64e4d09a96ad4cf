// The lines of the program.
ghost use Rattle.v2calls.specs.Room.{Room};

use crate::call::Call;
use crate::making::Told;
use crate::printing::{decimal, hex, put, text};

// A number and the space after it.
fn number(out: &mut [u8], used: usize, number: usize) -> usize
    requires { Room out.old used }
    ensures { Room out.new result }
{
    let at = decimal(out, used, number);
    put(out, at, b' ')
}

// A buffer and what stands after it.
fn buffer(out: &mut [u8], used: usize, bytes: &[u8], after: u8) -> usize
    requires { Room out.old used }
    ensures { Room out.new result }
{
    let at = hex(out, used, bytes);
    put(out, at, after)
}

// The numbers of a line.
pub(crate) fn numbers(out: &mut [u8], used: usize, call: Call, told: Told) -> usize
    requires { Room out.old used }
    ensures { Room out.new result }
{
    let mut at = number(out, used, call.number());
    at = number(out, at, told.answer);
    at = number(out, at, told.x1);
    at = number(out, at, told.x2);
    at = number(out, at, told.x3);
    number(out, at, told.x4)
}

// The buffers of a line, and its end.
pub(crate) fn buffers(
    out: &mut [u8],
    used: usize,
    first: &[u8],
    second: &[u8],
    part: &[u8],
) -> usize
    requires { Room out.old used }
    ensures { Room out.new result }
{
    let mut at = buffer(out, used, first, b' ');
    at = buffer(out, at, second, b' ');
    buffer(out, at, part, b'\n')
}

// The line that ends a bad call file.
pub(crate) fn bad(out: &mut [u8], used: usize) -> usize
    requires { Room out.old used }
    ensures { Room out.new result }
{
    text(out, used, b"bad call file\n")
}
