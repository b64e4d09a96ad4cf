// The calls: each made by its public function, its answer and its numbers told.
ghost use Rattle.std.specs.Prelude.{◌≡◌, length};
ghost use Rattle.v2calls.specs.Told.{plain, Checks, Locates, Rebuilds, PricesOf, StockOf, Makes, HandsOut};

use crate::call::Call;
use crate::heading::Head;
use answer::{Answer, number};
use checking::{Checked, check};
use encoding::encode;
use filling::{choose, fill};
use handing::column;
use locating::locate;
use rebuild::rebuild;
use rule::named;
use shape::Shape;
use stock::{prices, stock};
use storing::raw_store;
use writing::small_write;

// What a line tells of a call: its answer's number and the four numbers after it.
#[derive(Clone, Copy)]
pub struct Told {
    pub answer: usize,
    pub x1: usize,
    pub x2: usize,
    pub x3: usize,
    pub x4: usize,
}

// An answer with no number beside it.
fn answered(answer: Answer) -> Told
    ensures { result ≡ plain answer }
{
    Told {
        answer: number(answer),
        x1: 0,
        x2: 0,
        x3: 0,
        x4: 0,
    }
}

// A check, and the broken chains and the bits that they differ by.
fn checked(head: Head, stripe: &[u8]) -> Told
    ensures { Checks head stripe.now result }
{
    let report = check(head.shape, stripe);
    let (x1, x2) = match report {
        Ok(Checked { broken, bits }) => (broken, bits),
        Err(_) => (0, 0),
    };
    Told {
        answer: number(report),
        x1,
        x2,
        x3: 0,
        x4: 0,
    }
}

// A locate, and what it finds: 0 sound, 1 one column, 2 more, and the column.
fn located(head: Head, stripe: &[u8]) -> Told
    ensures { Locates head stripe.now result }
{
    let report = locate(head.shape, stripe);
    let (x1, x2) = match report {
        Ok(damage) => damage.numbers(),
        Err(_) => (0, 0),
    };
    Told {
        answer: number(report),
        x1,
        x2,
        x3: 0,
        x4: 0,
    }
}

// A rebuild, and how many columns were lost where it was done.
fn rebuilt(head: Head, stripe: &mut [u8], work: &mut [u8]) -> Told
    ensures { Rebuilds head stripe.old (length work.old) result stripe.new work.new }
{
    let answer = rebuild(head.shape, named(head.a, head.b, head.c), stripe, work);
    let x1 = match answer {
        Ok(()) => head.a,
        Err(_) => 0,
    };
    Told {
        answer: number(answer),
        x1,
        x2: 0,
        x3: 0,
        x4: 0,
    }
}

// A shape's price list.
fn priced(head: Head) -> Told
    ensures { PricesOf head result }
{
    let report = prices(head.shape);
    let (x1, x2, x3, x4) = match report {
        Ok(list) => (list.encode, list.one, list.two, list.reads),
        Err(_) => (0, 0, 0, 0),
    };
    Told {
        answer: number(report),
        x1,
        x2,
        x3,
        x4,
    }
}

// A stock shape.
fn stocked(head: Head) -> Told
    ensures { StockOf head result }
{
    let report = stock(head.a);
    let (x1, x2, x3) = match report {
        Ok(Shape { m, n, w }) => (m, n, w),
        Err(_) => (0, 0, 0),
    };
    Told {
        answer: number(report),
        x1,
        x2,
        x3,
        x4: 0,
    }
}

// Makes the call of a head.
pub(crate) fn make(head: Head, first: &mut [u8], second: &mut [u8]) -> Told
    ensures { Makes head first.old second.old result first.new second.new }
{
    let shape = head.shape;
    match head.call {
        Call::Encode => answered(encode(shape, first)),
        Call::Check => checked(head, first),
        Call::Locate => located(head, first),
        Call::SmallWrite => answered(small_write(shape, first, head.a, head.b, second)),
        Call::RawStore => answered(raw_store(shape, first, head.a, head.b, second)),
        Call::Rebuild => rebuilt(head, first, second),
        Call::Fill => answered(fill(shape, first, named(head.a, head.b, head.c), head.d, second)),
        Call::Choose | Call::Column => answered(Ok(())),
        Call::Prices => priced(head),
        Call::Stock => stocked(head),
    }
}

// The part that choose or column hands back; one of length 0 for every other call.
pub(crate) fn part<'a>(head: Head, first: &'a [u8], second: &'a [u8]) -> &'a [u8]
    ensures { HandsOut head first.entry second.entry result }
{
    match head.call {
        Call::Choose => choose(
            head.shape,
            first,
            named(head.a, head.b, head.c),
            head.d,
            second,
        ),
        Call::Column => column(head.shape, first, head.a),
        _ => &first[0..0],
    }
}
