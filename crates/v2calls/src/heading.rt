// The head of a call: which it is, the shape, four numbers and the lengths of its two buffers.
ghost use Rattle.std.specs.Prelude.{◌≡◌, ◌+◌, ◌≤◌, ◌<◌};
ghost use Rattle.xor.specs.Tells.{Tells};
ghost use Rattle.v2calls.specs.Little.{four as little·four, eight as little·eight};
ghost use Rattle.v2calls.specs.Heads.{Admitted, HeadOf};

use crate::call::Call;
use block::get;
use shape::Shape;

// The most bytes of the first buffer.
const MOST_FIRST: usize = 66000;

// The most bytes of the second buffer.
const MOST_SECOND: usize = 20000;

// A head.
#[derive(Clone, Copy)]
pub struct Head {
    pub call: Call,
    pub shape: Shape,
    pub a: usize,
    pub b: usize,
    pub c: usize,
    pub d: usize,
    pub first: usize,
    pub second: usize,
}

// The number of four bytes, the lowest first.
fn four(bytes: &[u8; 65], at: usize) -> usize
    requires { at + 4 ≤ 65 }
    ensures { (result ≡ little·four bytes.now at) × (result < 4294967296) }
{
    u32::from_le_bytes(get(bytes, at, 4)) as usize
}

// The number of eight bytes, the lowest first.
fn eight(bytes: &[u8; 65], at: usize) -> usize
    requires { at + 8 ≤ 65 }
    ensures { result ≡ little·eight bytes.now at }
{
    u64::from_le_bytes(get(bytes, at, 8)) as usize
}

// The head that these bytes spell; none where its call is unknown.
pub(crate) fn spelled(bytes: &[u8; 65]) -> Option<Head>
    ensures { HeadOf bytes.now result }
{
    let call = Call::read(bytes[0])?;
    Some(Head {
        call,
        shape: Shape {
            m: eight(bytes, 1),
            n: eight(bytes, 9),
            w: eight(bytes, 17),
        },
        a: eight(bytes, 25),
        b: eight(bytes, 33),
        c: eight(bytes, 41),
        d: eight(bytes, 49),
        first: four(bytes, 57),
        second: four(bytes, 61),
    })
}

// Whether a call file may hold this head.
pub(crate) fn admitted(head: Head) -> bool
    ensures { Tells (Admitted head) result }
{
    if MOST_FIRST < head.first {
        return false;
    }
    if MOST_SECOND < head.second {
        return false;
    }
    match head.call {
        Call::Rebuild | Call::Fill | Call::Choose => head.a <= 2,
        _ => true,
    }
}
