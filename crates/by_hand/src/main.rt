// The small stripes by hand, P5 to P10 of the rules, through the public calls.
// Each check follows from the contracts: it is proved, and the run shows what a person would work out on paper.
// A write that fails is passed over, and the next is tried: the status says nothing of it.
#![tactic(auto)]

ghost use Rattle.std.specs.Prelude.{◌≡◌};
ghost use Rattle.locating.specs.declared.Damage.TheVariants.{Column};
ghost use Rattle.xor.specs.Tells.{Tells};
ghost use Rattle.demands.specs.Cases.{stripe₅, cleared_0, flipped_0_1, sh₅};

use answer::Refusal;
use check::expect;
use checking::Checked;
use locating::Damage;
use rule::Losses;
use shape::Shape;

// (2, 5), with symbols of one byte.
fn five() -> Shape
    ensures { result ≡ sh₅ }
{
    Shape { m: 2, n: 5, w: 1 }
}

// Prints a name and the bytes of a stripe, each in two digits.
fn show(rt: &impl Print, name: &str, stripe: &[u8]) {
    let _ = print!(rt; "{name}:");
    for byte in stripe {
        let _ = print!(rt; " {byte:02x}");
    }
    let _ = println!(rt;);
}

// P5: the information 01 02 04 08 10 encoded, over whatever the parity was.
fn encoded() -> [u8; 10]
    ensures { result ≡ stripe₅ }
{
    let mut stripe = [1, 238, 2, 238, 4, 238, 8, 238, 16, 238];
    let answer = encoding::encode(five(), &mut stripe);
    expect(answer.is_ok());
    stripe
}

// P6: columns 0 and 2 of the stripe of P5 are lost, and come back; the workspace is all zero after it.
fn two_apart(rt: &impl Print) {
    let mut stripe = [238, 238, 2, 5, 238, 238, 8, 20, 16, 9];
    let mut work = [170; 4];
    let answer = rebuild::rebuild(five(), Losses::Two(0, 2), &mut stripe, &mut work);
    expect(answer.is_ok());
    expect(stripe == [0x01, 0x12, 2, 5, 0x04, 0x0a, 8, 20, 16, 9]);
    expect(work == [0; 4]);
    show(rt, "P6  columns 0 and 2 have come back", &stripe);
}

// P7: columns 4 and 0 are lost, neighbours around the edge.
fn around_the_edge(rt: &impl Print) {
    let mut stripe = [238, 238, 2, 5, 4, 10, 8, 20, 238, 238];
    let mut work = [170; 4];
    let answer = rebuild::rebuild(five(), Losses::Two(4, 0), &mut stripe, &mut work);
    expect(answer.is_ok());
    expect(stripe == [0x01, 0x12, 2, 5, 4, 10, 8, 20, 0x10, 0x09]);
    expect(work == [0; 4]);
    show(rt, "P7  columns 4 and 0 have come back", &stripe);
}

// P8: a small write of FF to column 4.
fn written(rt: &impl Print) {
    let mut stripe = encoded();
    let answer = writing::small_write(five(), &mut stripe, 4, 0, &[255]);
    expect(answer.is_ok());
    expect(stripe == [1, 253, 2, 5, 4, 10, 8, 251, 255, 9]);
    show(rt, "P8  after a small write of ff to column 4", &stripe);
}

// Whether check counts so many broken chains and differing bits.
fn counts(report: Result<Checked, Refusal>, broken: usize, bits: usize) -> bool
    ensures { Tells (report ≡ Ok (record { broken = broken; bits = bits })) result }
{
    match report {
        Ok(counted) => counted.broken == broken && counted.bits == bits,
        Err(_) => false,
    }
}

// Whether locate finds the damage in this one column.
fn names(found: Result<Damage, Refusal>, column: usize) -> bool
    ensures { Tells (found ≡ Ok (Column column)) result }
{
    found == Ok(Damage::Column(column))
}

// P9: 00 stored raw in column 0, row 0, of the stripe of P5.
fn cleared() -> [u8; 10]
    ensures { result ≡ cleared_0 }
{
    let mut stripe = encoded();
    let answer = storing::raw_store(five(), &mut stripe, 0, 0, &[0]);
    expect(answer.is_ok());
    stripe
}

// P9: two chains are broken, by one bit each, and column 0 explains it.
fn one_column(rt: &impl Print) {
    let stripe = cleared();
    expect(counts(checking::check(five(), &stripe), 2, 2));
    expect(names(locating::locate(five(), &stripe), 0));
    show(
        rt,
        "P9  2 chains broken by 2 bits, column 0 is damaged",
        &stripe,
    );
}

// P10: the information of columns 0 and 1 each XORed with 01.
fn flipped() -> [u8; 10]
    ensures { result ≡ flipped_0_1 }
{
    let mut stripe = cleared();
    let answer = storing::raw_store(five(), &mut stripe, 1, 0, &[3]);
    expect(answer.is_ok());
    stripe
}

// P10: four chains are broken, and no column explains it.
fn two_columns(rt: &impl Print) {
    let stripe = flipped();
    expect(counts(checking::check(five(), &stripe), 4, 4));
    expect(locating::locate(five(), &stripe) == Ok(Damage::Several));
    show(
        rt,
        "P10 4 chains broken, more than one column is damaged",
        &stripe,
    );
}

fn main(rt: HostRuntime) {
    let stripe = encoded();
    expect(stripe == [1, 18, 2, 5, 4, 10, 8, 20, 16, 9]);
    show(&rt, "P5  encoded", &stripe);
    two_apart(&rt);
    around_the_edge(&rt);
    written(&rt);
    one_column(&rt);
    two_columns(&rt);
}
