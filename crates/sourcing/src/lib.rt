// What a lost symbol is solved from: the places of its chain without those that are lost.
#![tactic(auto)]

ghost use Rattle.std.specs.Prelude.{◌≢◌, ◌⊎◌, ◌≤◌, ◌<◌};
ghost use Rattle.shape.specs.Good.{Good};
ghost use Rattle.listing.specs.Places.{Laid};
ghost use Rattle.sourcing.specs.Sources.{Sourced};

use shape::Shape;
use summing::{Lies, Sum};

// The sources of the symbol of height d on a side of chain p, 0 the right and 1 the left, whose places are in the
// list: the chain without that symbol and without the one of height h on the side `aside`, in whose place the
// buffer's symbol at b stands. With no height h there is nothing at b. The lost symbol's place in the list is taken
// by the parity symbol's, the asked one's by the last.
pub fn sources(
    list: &mut [u16; 32],
    sh: Shape,
    p: usize,
    side: usize,
    d: usize,
    aside: usize,
    h: usize,
    b: usize,
) -> Sum
    requires { (Good sh) × (p < sh.n) × (side ≤ 1) × (d < sh.m) × (aside ≤ 1) × (1 ≤ h) × ((d ≢ h) ⊎ (side ≢ aside)) × (Laid sh p list.old) }
    ensures { Sourced sh p side d aside h b list.new result }
{
    let last = 2 * sh.m - 4;
    if 0 < d {
        list[2 * d - 1 - side] = list[last + 2];
    }
    if h < sh.m {
        list[2 * h - 1 - aside] = list[last + 1];
        return Sum {
            count: last,
            a: list[last] as usize,
            b: Lies::Buffer(b),
        };
    }
    Sum {
        count: last,
        a: list[last] as usize,
        b: Lies::Stripe(list[last + 1] as usize),
    }
}
