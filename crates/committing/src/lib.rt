// The commit: the staged columns written into the stripe, symbol by symbol in one fixed order.
#![tactic(auto)]

ghost use Rattle.std.specs.Prelude.{◌≡◌, ◌+◌, ◌≤◌, ◌<◌, length, take, drop};
ghost use Rattle.shape.specs.Good.{Good, size};
ghost use Rattle.shape.specs.Place.{place};
ghost use Rattle.storing.specs.Set.{Set};
ghost use Rattle.staging.specs.Reading.{Led};
ghost use Rattle.staging.specs.Staging.{Stageable};
ghost use Rattle.committing.specs.Committing.{side_at, height_at, column_at, staged_symbol, stores_of, stores_in_all, Made};

use shape::Shape;
use solving::Gone;
use storing::store;

// Stores the symbol of height d of the column staged at `base` in a column of the stripe.
fn store_staged(sh: Shape, stripe: &mut [u8], work: &[u8], base: usize, d: usize, column: usize)
    requires { (Good sh) × (length stripe.old ≡ size sh) × (d < sh.m) × (column < sh.n) × (base + place sh d 0 0 + sh.w ≤ length work.now) }
    ensures { Set sh stripe.old d column (take sh.w (drop (base + place sh d 0 0) work.now)) stripe.new }
{
    let at = base + sh.place(d, 0);
    let end = at + sh.w;
    store(sh, stripe, d, column, &work[at..end]);
}

// Makes store k of the commit.
fn store_one(stripe: &mut [u8], work: &[u8], x: Gone, k: usize)
    requires { (Stageable x stripe.old work.now) × (Led x) × (k < stores_in_all x) }
    ensures { Set x.shape stripe.old (height_at x k) (column_at x k) (staged_symbol x work.now (side_at x k) (height_at x k)) stripe.new }
{
    let m = x.shape.m;
    if k < m {
        store_staged(x.shape, stripe, work, x.one, m - 1 - k, x.first);
    } else {
        store_staged(x.shape, stripe, work, x.two, 2 * m - 1 - k, x.second);
    }
}

// Makes the first `count` stores of the commit; whoever calls it has the lost columns staged, and asks for no more
// stores than there are.
pub fn commit(stripe: &mut [u8], work: &[u8], x: Gone, count: usize)
    requires { (Stageable x stripe.old work.now) × (Led x) × (count ≤ stores_in_all x) }
    ensures { Made x work.now count stripe.old stripe.new }
{
    for k in 0..count {
        store_one(stripe, work, x, k);
    }
}

// How many stores give a column its symbols; none where n stands for it.
fn stores_of(x: Gone, column: usize) -> usize
    ensures { result ≡ stores_of x column }
{
    if column < x.shape.n {
        return x.shape.m;
    }
    0
}

// How many stores the whole commit makes; whoever calls it has a good shape.
pub fn stores(x: Gone) -> usize
    requires { Good x.shape }
    ensures { result ≡ stores_in_all x }
{
    stores_of(x, x.first) + stores_of(x, x.second)
}
