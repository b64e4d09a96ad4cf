// The test program of the public calls: it reads calls from standard input, makes each, and prints a line for each.
#![tactic(auto)]

ghost use Rattle.std.specs.Prelude.{◌≡◌, length};

mod call;
mod feeding;
mod heading;
mod lining;
mod making;
mod printing;
mod serving;

use serving::serve_all;

// The room of the first buffer of a call.
fn first_room() -> [u8; 66000]
    ensures { 66000 ≡ length result }
{
    [0; 66000]
}

// The room of the second buffer of a call.
fn second_room() -> [u8; 20000]
    ensures { 20000 ≡ length result }
{
    [0; 20000]
}

fn main(rt: HostRuntime) {
    let mut input = io::large_buffer();
    let mut output = io::large_buffer();
    let mut first = first_room();
    let mut second = second_room();
    serve_all(rt.stdin(), &mut input, &mut first, &mut second, &mut output);
}
