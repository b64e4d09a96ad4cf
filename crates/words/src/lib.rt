// The words of a text, and the numbers that they spell.
#![tactic(auto)]

ghost use Rattle.std.specs.Prelude.{◌≡◌, ◌-◌, ◌≤◌, IfSome, length, take, drop};
ghost use Rattle.words.specs.Words.{Blanks, Letters, Worded, Spells};

// A space, and every byte below it, is a blank.
const SPACE: u8 = 32;

// The numbers that words are read for, rows, columns and chains, are all below this one.
const LIMIT: usize = 1000;

// A word of a text: its bytes from `start` up to `end`.
#[derive(Clone, Copy)]
pub struct Word {
    pub start: usize,
    pub end: usize,
}

// Where the blanks from `from` on end.
fn blanks(text: &[u8], from: usize) -> usize
    requires { from ≤ length text.now }
    ensures { Blanks text.now from result }
{
    match text[from..].iter().position(|&byte| SPACE < byte) {
        Some(passed) => from + passed,
        None => text.len(),
    }
}

// Where the bytes from `from` on that are no blanks end.
fn letters(text: &[u8], from: usize) -> usize
    requires { from ≤ length text.now }
    ensures { Letters text.now from result }
{
    match text[from..].iter().position(|&byte| byte <= SPACE) {
        Some(passed) => from + passed,
        None => text.len(),
    }
}

// The first word from `from` on, if there is one; whoever calls it starts within the text.
pub fn next_word(text: &[u8], from: usize) -> Option<Word>
    requires { from ≤ length text.now }
    ensures first { Worded text.now from result }
    ensures within { IfSome result (λ word. (word.start ≤ word.end) × (word.end ≤ length text.now)) }
{
    let start = blanks(text, from);
    if start == text.len() {
        return None;
    }
    let end = letters(text, start);
    Some(Word { start, end })
}

// The bytes of a word; whoever calls it has a word of the text.
pub fn bytes(text: &[u8], word: Word) -> &[u8]
    requires { (word.start ≤ word.end) × (word.end ≤ length text.now) }
    ensures { result.now ≡ take (word.end - word.start) (drop word.start text.now) }
{
    &text[word.start..word.end]
}

// The number that a word spells, if it is below 1000.
pub fn number(word: &[u8]) -> Option<usize>
    ensures { Spells word.now result }
{
    let mut number = 0;
    for &byte in word {
        let digit = match byte {
            b'0'..=b'9' => usize::from(byte - b'0'),
            _ => return None,
        };
        number = 10 * number + digit;
        if LIMIT <= number {
            return None;
        }
    }
    Some(number)
}
