// Where the symbols of a chain start, in a list. The list of every chain is one table moved: what does not wrap lies
// the same, the rest a stripe's length off.
#![tactic(auto)]

ghost use Rattle.std.specs.Prelude.{◌≡◌, ◌+◌, ◌<◌, ◌≤◌, length};
ghost use Rattle.shape.specs.Good.{Good};
ghost use Rattle.listing.specs.Places.{Listed, Laid, Table, Moved, Straight, Further};

use shape::Shape;

// Notes in the list where the two symbols of each height of chain p start; whoever calls it has a chain of a good
// shape that does not wrap.
fn note(list: &mut [u16; 32], sh: Shape, p: usize)
    requires { (Good sh) × (sh.m ≤ p + 1) × (p + sh.m ≤ sh.n) × (length list.old ≡ 32) }
    ensures { Listed sh p sh.m list.new }
{
    for d in 1..sh.m {
        list[2 * d - 2] = sh.place(d, p - d) as u16;
        list[2 * d - 1] = sh.place(d, p + d) as u16;
    }
}

// The table: the list of chain m - 1, which does not wrap; whoever calls it has a good shape.
pub fn table(sh: Shape) -> [u16; 32]
    requires { Good sh }
    ensures { Table sh result }
{
    let top = sh.m - 1;
    let mut list = [0u16; 32];
    note(&mut list, sh, top);
    list[2 * top] = sh.place(0, top) as u16;
    list
}

// Every entry of the list further by the same number, modulo 65,536. (Not `map`, which costs more.)
fn moved(list: &[u16; 32], by: u16) -> [u16; 32]
    requires { length list.now ≡ 32 }
    ensures { Moved list.now by result }
{
    let mut to = [0; 32];
    for (i, place) in list.iter().enumerate() {
        to[i] = place.wrapping_add(by);
    }
    to
}

// The list of chain p, but for what wraps, which lies a whole stripe off; whoever calls it has a chain of a good
// shape and that shape's table.
pub fn shifted(list: &[u16; 32], sh: Shape, p: usize) -> [u16; 32]
    requires { (Good sh) × (p < sh.n) × (Table sh list.now) }
    ensures { Straight sh p result }
{
    let column = sh.column_length();
    let here = (p * column) as u16;
    let there = ((sh.m - 1) * column) as u16;
    moved(list, here.wrapping_sub(there))
}

// Moves every second entry from start on, below end, by the same number, modulo 65,536.
fn further(list: &mut [u16; 32], start: usize, end: usize, by: u16)
    requires { (length list.old ≡ 32) × (start ≤ end) × (end ≤ 32) }
    ensures { Further list.old start end by list.new }
{
    for i in (start..end).step_by(2) {
        list[i] = list[i].wrapping_add(by);
    }
}

// Makes the list of chain p from one in which what wraps lies a whole stripe off; whoever calls it has a chain of a
// good shape.
pub fn wrap(list: &mut [u16; 32], sh: Shape, p: usize)
    requires { (Good sh) × (p < sh.n) × (Straight sh p list.old) }
    ensures { Laid sh p list.new }
{
    let m = sh.m;
    let n = sh.n;
    if p + 1 < m {
        further(list, 2 * p, 2 * m - 2, (sh.stripe_length() % 65536) as u16);
    } else if n < p + m {
        let back = 0u16.wrapping_sub((sh.stripe_length() % 65536) as u16);
        further(list, 2 * (n - p) - 1, 2 * m - 2, back);
    }
}
