// The loop over the calls of the input.
ghost use Rattle.std.specs.Prelude.{◌≡◌, length};
ghost use Rattle.v2calls.specs.Heads.{Admitted};
ghost use Rattle.v2calls.specs.Room.{Room, Fed, Steady};

use crate::feeding::{Feed, fetch};
use crate::heading::{Head, admitted, spelled};
use crate::lining::{bad, buffers, numbers};
use crate::making::{make, part};
use crate::printing::flush;
use std::io::Stdin;

// What the program knows between two calls: the bytes to take, how many are to be written, and whether it goes on.
#[derive(Clone, Copy)]
pub struct State {
    pub feed: Feed,
    pub used: usize,
    pub goes: bool,
}

// The state at a bad call file: its line is put, and the program stops.
fn stopped(out: &mut [u8], feed: Feed, used: usize) -> State
    requires { Room out.old used }
    ensures { (result.feed.end ≡ feed.end) × (Room out.new result.used) }
{
    State {
        feed,
        used: bad(out, used),
        goes: false,
    }
}

// Makes a call on its buffers, and puts its line.
fn answer(out: &mut [u8], used: usize, head: Head, first: &mut [u8], second: &mut [u8]) -> usize
    requires { Room out.old used }
    ensures { Room out.new result }
{
    let told = make(head, first, second);
    let at = numbers(out, used, head.call, told);
    buffers(out, at, first, second, part(head, first, second))
}

// Takes the buffers of a call and answers it.
fn take(
    stdin: Stdin,
    input: &mut [u8],
    feed: Feed,
    head: Head,
    first: &mut [u8],
    second: &mut [u8],
    out: &mut [u8],
    used: usize,
) -> State
    requires { (Fed input.old feed) × (Room out.old used) }
    ensures { Steady input.new out.new result }
{
    let one = fetch(stdin, input, feed, first);
    let middle = one.feed;
    if one.count < first.len() {
        return stopped(out, middle, used);
    }
    let two = fetch(stdin, input, middle, second);
    let end = two.feed;
    if two.count < second.len() {
        return stopped(out, end, used);
    }
    State {
        feed: end,
        used: answer(out, used, head, first, second),
        goes: true,
    }
}

// Serves the call of a head that is admitted, each buffer in the room that it has.
fn serve_head(
    stdin: Stdin,
    input: &mut [u8],
    feed: Feed,
    head: Head,
    first: &mut [u8],
    second: &mut [u8],
    out: &mut [u8],
    used: usize,
) -> State
    requires { (Fed input.old feed) × (Room out.old used) × (Admitted head) × (length first.old ≡ 66000) × (length second.old ≡ 20000) }
    ensures { Steady input.new out.new result }
{
    let one = head.first;
    let two = head.second;
    take(
        stdin,
        input,
        feed,
        head,
        &mut first[..one],
        &mut second[..two],
        out,
        used,
    )
}

// Serves the next call, if there is one.
fn serve(
    stdin: Stdin,
    input: &mut [u8],
    first: &mut [u8],
    second: &mut [u8],
    out: &mut [u8],
    state: State,
) -> State
    requires { (Steady input.old out.old state) × (length first.old ≡ 66000) × (length second.old ≡ 20000) }
    ensures { Steady input.new out.new result }
{
    let used = state.used;
    let start = state.feed;
    let mut bytes = [0u8; 65];
    let fetched = fetch(stdin, input, start, &mut bytes);
    let feed = fetched.feed;
    if fetched.count == 0 {
        return State {
            feed,
            used,
            goes: false,
        };
    }
    if fetched.count < 65 {
        return stopped(out, feed, used);
    }
    let Some(head) = spelled(&bytes) else {
        return stopped(out, feed, used);
    };
    if !admitted(head) {
        return stopped(out, feed, used);
    }
    serve_head(stdin, input, feed, head, first, second, out, used)
}

// Serves every call of the input; no run uses up the turns of the loop.
pub(crate) fn serve_all(
    stdin: Stdin,
    input: &mut [u8],
    first: &mut [u8],
    second: &mut [u8],
    out: &mut [u8],
)
    requires { (Room out.old 0) × (length first.old ≡ 66000) × (length second.old ≡ 20000) }
{
    let mut state = State {
        feed: Feed { at: 0, end: 0 },
        used: 0,
        goes: true,
    };
    for _ in 0..u64::MAX {
        if !state.goes {
            break;
        }
        state = serve(stdin, input, first, second, out, state);
    }
    let used = state.used;
    flush(out, used);
}
