// Standard input by large pieces: a buffer, and a feed that says which of its bytes are still to be taken.
ghost use Rattle.std.specs.Prelude.{◌≡◌, ◌+◌, ◌≤◌, ◌<◌, length};
ghost use Rattle.v2calls.specs.Room.{Fed};

use std::io::{Read, Stdin};

// The bytes of the input buffer that are still to be taken: from `at` up to `end`.
#[derive(Clone, Copy)]
pub struct Feed {
    pub at: usize,
    pub end: usize,
}

// What a fetch comes to: the feed after it, and how many bytes it brought.
#[derive(Clone, Copy)]
pub struct Fetched {
    pub feed: Feed,
    pub count: usize,
}

impl Feed {
    // The feed after so many of its bytes.
    fn after(self, count: usize) -> Feed
        requires { self.at + count ≤ self.end }
        ensures { (result.at ≡ self.at + count) × (result.end ≡ self.end) }
    {
        Feed {
            at: self.at + count,
            end: self.end,
        }
    }
}

// Reads the next piece; a piece of no bytes is the end of the input, and so is a read that fails.
fn refill(mut stdin: Stdin, input: &mut [u8]) -> Feed
    ensures { Fed input.new result }
{
    match stdin.read(input) {
        Ok(count) => Feed { at: 0, end: count },
        Err(_) => Feed { at: 0, end: 0 },
    }
}

// The feed as it is while it has bytes, and then the next piece's.
fn ready(stdin: Stdin, input: &mut [u8], feed: Feed) -> Feed
    requires { Fed input.old feed }
    ensures { Fed input.new result }
{
    if feed.at < feed.end {
        return feed;
    }
    refill(stdin, input)
}

// Copies bytes of the feed into `out` from `done` on, as many as there are and fit, and gives how many.
fn hand(input: &[u8], feed: Feed, out: &mut [u8], done: usize) -> usize
    requires { (Fed input.now feed) × (feed.at < feed.end) × (done < length out.old) }
    ensures { (1 ≤ result) × (feed.at + result ≤ feed.end) × (done + result ≤ length out.new) }
{
    let from = feed.at;
    let count = (feed.end - from).min(out.len() - done);
    let to = from + count;
    out[done..done + count].copy_from_slice(&input[from..to]);
    count
}

// Fills `out` from the input; it brings fewer bytes only where the input ends.
// The loop is a `while`: how many bytes each turn brings is the input's to say.
pub(crate) fn fetch(stdin: Stdin, input: &mut [u8], start: Feed, out: &mut [u8]) -> Fetched
    requires { Fed input.old start }
    ensures { Fed input.new result.feed }
{
    let mut feed = start;
    let mut done = 0;
    while done < out.len() {
        feed = ready(stdin, input, feed);
        if feed.end <= feed.at {
            break;
        }
        let count = hand(input, feed, out, done);
        feed = feed.after(count);
        done += count;
    }
    Fetched { feed, count: done }
}
