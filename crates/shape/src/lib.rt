// The shape record of a stripe: which shapes are good, where each symbol stands, which columns a chain goes through.
#![tactic(auto)]

ghost use Rattle.std.specs.Prelude.{◌≡◌, ◌-◌, ◌<◌, length, IfOk};
ghost use Rattle.shape.specs.Good.{Good, size};
ghost use Rattle.answer.specs.Answers.{First, number};
ghost use Rattle.shape.specs.Refusals.{shape_table, stripe_table};
ghost use Rattle.shape.specs.Place.{height, row, slot};
ghost use Rattle.shape.specs.Placed.{Placed, ColumnSized, StripeSized, Stepped};
ghost use Rattle.shape.specs.Step.{left, right};

use answer::{Answer, Refusal};

// The fewest rows of a shape.
const FEWEST_ROWS: usize = 2;

// The most rows of a shape.
const MOST_ROWS: usize = 16;

// The most columns of a shape; the fewest are 4m-3.
const MOST_COLUMNS: usize = 64;

// The fewest bytes of a symbol.
const SHORTEST_SYMBOL: usize = 1;

// The most bytes of a symbol.
const LONGEST_SYMBOL: usize = 4096;

// The most bytes of a stripe.
const LARGEST_STRIPE: usize = 65536;

// A shape: m rows, n columns, and w bytes in each symbol.
#[derive(Clone, Copy)]
pub struct Shape {
    pub m: usize,
    pub n: usize,
    pub w: usize,
}

// A stripe to be read: bytes of a good shape, as many as it says.
#[derive(Clone, Copy)]
pub struct Stripe<'a> {
    pub shape: Shape,
    pub bytes: &'a [u8],
    ghost good: { Good shape },
    ghost whole: { length bytes.now ≡ size shape },
}

impl Shape {
    // Asks of the shape by itself: the first of BadRows, BadColumns and BadSymbol that applies refuses it.
    pub fn accept(self) -> Answer
        ensures { First (shape_table self) (number result) }
    {
        let Shape { m, n, w } = self;
        if m < FEWEST_ROWS {
            return Err(Refusal::BadRows);
        }
        if MOST_ROWS < m {
            return Err(Refusal::BadRows);
        }
        if n < 4 * m - 3 {
            return Err(Refusal::BadColumns);
        }
        if MOST_COLUMNS < n {
            return Err(Refusal::BadColumns);
        }
        if w < SHORTEST_SYMBOL {
            return Err(Refusal::BadSymbol);
        }
        if LONGEST_SYMBOL < w {
            return Err(Refusal::BadSymbol);
        }
        if LARGEST_STRIPE < m * n * w {
            return Err(Refusal::BadSymbol);
        }
        Ok(())
    }

    // Asks of the shape and of the length of a stripe: the first of BadRows, BadColumns, BadSymbol and BadStripe that
    // applies refuses them.
    pub fn accept_stripe(self, stripe: &[u8]) -> Answer
        ensures { First (stripe_table self stripe.now) (number result) }
    {
        self.accept()?;
        if stripe.len() != self.stripe_length() {
            return Err(Refusal::BadStripe);
        }
        Ok(())
    }

    // These bytes as a stripe of the shape; refused as by `accept_stripe`.
    pub fn stripe<'a>(self, bytes: &'a [u8]) -> Result<Stripe<'a>, Refusal>
        ensures table { First (stripe_table self bytes.entry.now) (number result) }
        ensures given { IfOk result (λ stripe. (stripe.shape ≡ self) × (stripe.bytes ≡ bytes.entry)) }
    {
        self.accept_stripe(bytes)?;
        Ok(Stripe { shape: self, bytes })
    }

    // Of m, number k counted from the other end: rows go down and heights go up. 0 where k is m or more.
    fn mirrored(self, k: usize) -> usize
        ensures { result ≡ self.m - 1 - k }
    {
        let m = self.m;
        if k < m {
            return m - 1 - k;
        }
        0
    }

    // The height of a row; 0 for a row that the shape does not have.
    pub fn height(self, row: usize) -> usize
        ensures { result ≡ height self row }
    {
        self.mirrored(row)
    }

    // The row of a height; 0 for a height that the shape does not have.
    pub fn row(self, height: usize) -> usize
        ensures { result ≡ row self height }
    {
        self.mirrored(height)
    }

    // Which symbol of its column has this height, counted from the start of the column; whoever calls it asks for a
    // height of the shape.
    pub fn slot(self, height: usize) -> usize
        requires { height < self.m }
        ensures { result ≡ slot self height }
    {
        self.m - 1 - height
    }

    // How many bytes a column has; whoever calls it has had `accept` answer Ok.
    pub fn column_length(self) -> usize
        requires { Good self }
        ensures { ColumnSized self result }
    {
        self.m * self.w
    }

    // How many bytes the stripe has; whoever calls it has had `accept` answer Ok.
    pub fn stripe_length(self) -> usize
        requires { Good self }
        ensures { StripeSized self result }
    {
        self.m * self.n * self.w
    }

    // Where the symbol of a height in a column starts; whoever calls it has had `accept` answer Ok, and asks within
    // the shape.
    pub fn place(self, height: usize, column: usize) -> usize
        requires { (Good self) × (height < self.m) × (column < self.n) }
        ensures { Placed self height column result }
    {
        column * self.column_length() + self.slot(height) * self.w
    }

    // The column as many steps to the left as the height says; whoever calls it has had `accept` answer Ok, and asks
    // within the shape.
    pub fn left(self, column: usize, height: usize) -> usize
        requires { (Good self) × (column < self.n) × (height < self.m) }
        ensures { Stepped self.n (left self.n column height) result }
    {
        let n = self.n;
        (column + (n - height)) % n
    }

    // The column as many steps to the right as the height says; whoever calls it has had `accept` answer Ok, and asks
    // within the shape.
    pub fn right(self, column: usize, height: usize) -> usize
        requires { (Good self) × (column < self.n) × (height < self.m) }
        ensures { Stepped self.n (right self.n column height) result }
    {
        let n = self.n;
        (column + height) % n
    }
}
