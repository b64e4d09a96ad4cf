// A picture for people: it reads m, n and perhaps p as words of standard input, and prints the stripe as a grid with
// chain p marked, or with each chain in turn. What cannot be drawn gets one sentence on standard error instead.
// A write that fails is passed over, and the next is tried: the status says nothing of it.
#![tactic(auto)]

ghost use Rattle.shape.specs.Good.{Good};
ghost use Rattle.words.specs.Words.{Refused};

use crate::picture::{every, picture};
use answer::Refusal;
use shape::Shape;
use std::io::Write;
use words::{bytes, next_word, number};

mod picture;

// As many bytes as the buffer of the input has; an input that fills it may be cut off.
const ROOM: usize = 4096;

// Says how the input is other than two or three words.
fn miscounted(rt: &impl Eprint, so: &str) {
    let _ = eprintln!(rt; "{so}: m and n are needed, and p may follow for one chain alone.");
}

// Says of m, n or p what it is and what it has to be. The word goes out as it is, since it may be no text.
fn refuse(rt: &HostRuntime, name: &str, word: &[u8], least: usize, most: usize, end: &str)
    requires { Refused word.now least most }
{
    let _ = eprint!(rt; "{name} is ");
    let _ = rt.stderr().write_all(word);
    let _ = eprintln!(rt; ", but it has to be a whole number from {least} to {most}{end}.");
}

// Prints the chain that a word names, or every chain where there is no word.
fn chains(rt: &HostRuntime, shape: Shape, word: Option<&[u8]>)
    requires { Good shape }
{
    let Some(word) = word else {
        return every(rt, shape);
    };
    match number(word) {
        Some(p) if p < shape.n => picture(rt, shape, p),
        _ => refuse(rt, "p", word, 0, shape.n - 1, " with this n"),
    }
}

// Prints what the words ask for. A word that spells no number counts as 0, which is refused as well.
// No symbol is looked at, so each is a byte, and nothing but m and n can be refused.
fn draw(rt: &HostRuntime, first: &[u8], second: &[u8], third: Option<&[u8]>) {
    let m = number(first).unwrap_or(0);
    let n = number(second).unwrap_or(0);
    let shape = Shape { m, n, w: 1 };
    match shape.accept() {
        Ok(()) => chains(rt, shape, third),
        Err(Refusal::BadRows) => refuse(rt, "m", first, 2, 16, ""),
        Err(Refusal::BadColumns) => refuse(rt, "n", second, 4 * m - 3, 64, " with this m"),
        Err(_) => {}
    }
}

// Takes a text apart into its words, of which the third may be missing.
fn answer(rt: &HostRuntime, text: &[u8]) {
    let Some(first) = next_word(text, 0) else {
        return miscounted(rt, "Too few words");
    };
    let Some(second) = next_word(text, first.end) else {
        return miscounted(rt, "Too few words");
    };
    let third = next_word(text, second.end);
    let Some(last) = third else {
        return draw(rt, bytes(text, first), bytes(text, second), None);
    };
    if next_word(text, last.end).is_some() {
        return miscounted(rt, "Too many words");
    }
    draw(
        rt,
        bytes(text, first),
        bytes(text, second),
        Some(bytes(text, last)),
    );
}

fn main(rt: HostRuntime) {
    let mut buffer = io::buffer();
    let count = io::read_full(0, &mut buffer);
    if count == ROOM {
        return miscounted(&rt, "Too long a line");
    }
    answer(&rt, &buffer[..count]);
}
