// The job program: records from standard input, lines to standard output. The step is `job`'s and the line's text
// `line`'s; here is only where bytes wait.
#![tactic(auto)]

ghost use Rattle.std.specs.Prelude.{◌≡◌, ℕ, ◌-◌, ◌≤◌, length, take, drop, None};
ghost use Rattle.line.specs.Printed.{longest_line};
ghost use Rattle.v2job.specs.Waiting.{longest_record, Waits, Refilled, Collects, Ready, Added, Shows, Goes, Turned};

use job::State;
use line::{LONGEST_LINE, Line};

// The longest record: a length of two bytes, then at most 4,100.
const LONGEST_RECORD: usize = 4102;

// The input that waits in a buffer: its bytes from `start` to `end`, and whether more may follow.
#[derive(Clone, Copy)]
struct Feed {
    start: usize,
    end: usize,
    open: bool,
}

// The output that waits: the first `filled` bytes of a buffer, and whether it could always be written.
#[derive(Clone, Copy)]
struct Shelf {
    filled: usize,
    open: bool,
}

// What there is between two records, and whether the program goes on.
#[derive(Clone, Copy)]
struct Run {
    state: State,
    feed: Feed,
    shelf: Shelf,
    running: bool,
}

// Moves the bytes from `start` to `end` to the front of the buffer, and gives how many they are.
fn move_to_front(input: &mut [u8], start: usize, end: usize) -> usize
    requires { (start ≤ end) × (end ≤ length input.old) }
    ensures { (result ≡ end - start) × (take result input.new ≡ take result (drop start input.old)) }
{
    input.copy_within(start..end, 0);
    end - start
}

// Reads on until the buffer is full or the input ends, unless the longest record waits already.
fn refill(feed: Feed, input: &mut [u8]) -> Feed
    requires { Waits feed (length input.old) }
    ensures { Refilled feed input.old result input.new }
{
    if !feed.open {
        return feed;
    }
    if LONGEST_RECORD <= feed.end - feed.start {
        return feed;
    }
    let len = move_to_front(input, feed.start, feed.end);
    let room = input.len() - len;
    let more = io::read_full(0, &mut input[len..]);
    Feed {
        start: 0,
        end: len + more,
        open: more == room,
    }
}

// Writes the output that waits, if the longest line does not fit after it.
fn make_room(shelf: Shelf, output: &[u8]) -> Shelf
    requires { Collects shelf (length output.now) }
    ensures { Ready shelf result (length output.now) }
{
    if LONGEST_LINE <= output.len() - shelf.filled {
        return shelf;
    }
    let written = io::write_all(1, &output[..shelf.filled]);
    Shelf {
        filled: 0,
        open: written,
    }
}

// Adds a line to the output that waits.
fn add(line: Line, shelf: Shelf, output: &mut [u8]) -> Shelf
    requires { Collects shelf (length output.old) }
    ensures { Added line shelf output.old result output.new }
{
    let ready = make_room(shelf, output);
    let filled = ready.filled;
    let more = line::print(line, &mut output[filled..]);
    Shelf {
        filled: filled + more,
        open: ready.open,
    }
}

// Adds a line, if there is one.
fn show(line: Option<Line>, shelf: Shelf, output: &mut [u8]) -> Shelf
    requires { Collects shelf (length output.old) }
    ensures { Shows line shelf output.old result output.new }
{
    match line {
        Some(line) => add(line, shelf, output),
        None => shelf,
    }
}

// Takes one record.
fn turn(run: Run, input: &mut [u8], output: &mut [u8], stripe: &mut [u8], work: &mut [u8]) -> Run
    requires { Goes run (length input.old) (length output.old) }
    ensures { Turned run input.old output.old stripe.old (length work.old) result input.new output.new stripe.new work.new }
{
    let feed = refill(run.feed, input);
    let step = job::step(run.state, &input[feed.start..feed.end], stripe, work);
    let shelf = show(step.line, run.shelf, output);
    Run {
        state: step.state,
        feed: Feed {
            start: feed.start + step.taken,
            ..feed
        },
        shelf,
        running: !step.stops & shelf.open,
    }
}

// Before the first record: no shape, no bytes.
fn begin() -> Run
    ensures by_index { (input output : ℕ) → longest_record ≤ input → longest_line ≤ output → Goes result input output }
    ensures held_value { (result.state.held ≡ None) × (result.state.records ≡ 0) }
{
    Run {
        state: State {
            held: None,
            records: 0,
        },
        feed: Feed {
            start: 0,
            end: 0,
            open: true,
        },
        shelf: Shelf {
            filled: 0,
            open: true,
        },
        running: true,
    }
}

// Writes the output that waits. A program has no exit status: that some output could not be written is said on
// standard error.
fn finish(shelf: Shelf, output: &[u8])
    requires { Collects shelf (length output.now) }
{
    let written = io::write_all(1, &output[..shelf.filled]);
    if !(written & shelf.open) {
        io::write_all(2, b"v2job: not all lines could be written\n");
    }
}

// Takes records until the step says stop. Nothing says that an input ends, and a proved loop has to: so it counts to
// a number that no run reaches.
fn serve(input: &mut [u8], output: &mut [u8], stripe: &mut [u8], work: &mut [u8])
    requires { (longest_record ≤ length input.old) × (longest_line ≤ length output.old) }
{
    let mut run = begin();
    for _ in 0..u64::MAX {
        if !run.running {
            break;
        }
        run = turn(run, input, output, stripe, work);
    }
    finish(run.shelf, output);
}

fn main() {
    let mut input = io::large_buffer();
    let mut output = io::large_buffer();
    let mut stripe = io::large_buffer();
    let mut work = [0u8; 16384];
    serve(&mut input, &mut output, &mut stripe, &mut work);
}
