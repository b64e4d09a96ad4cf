// The spring incident: clients are rebuilt one after the other in one workspace. Client A, with long symbols, is
// refused with 9; then comes client B, with shorter ones, and gets what it gets alone. What is expected follows from
// the contracts, whatever the bytes are. A write that fails is passed over, and the next is tried: the status says
// nothing of it.
#![tactic(auto)]

ghost use Rattle.std.specs.Prelude.{◌≡◌, ◌⊎◌, ℕ, ◌≤◌, ◌<◌, length, get_or};
ghost use Rattle.answer.specs.Answers.{Answer};
ghost use Rattle.shape.specs.Good.{Good, size, shape};
ghost use Rattle.rule.specs.declared.Losses.TheVariants.{Two};
ghost use Rattle.rule.specs.Rule.{Obeys};
ghost use Rattle.rule.specs.Losses.{Agrees};
ghost use Rattle.rebuild.specs.Rebuild.{Rebuild};

use answer::{Answer, number};
use check::expect;
use rule::Losses;
use shape::Shape;
use trial::{pattern, zeros};

// A stripe of a client, encoded: it obeys the rule.
fn encoded(shape: Shape, stripe: &mut [u8], seed: usize)
    ensures { Good shape → length stripe.old ≡ size shape → Obeys shape stripe.new }
{
    pattern(stripe, seed);
    let _ = encoding::encode(shape, stripe);
}

// Puts other bytes from one place up to another; the rest is as it was.
fn spoil(s: &mut [u8], from: usize, to: usize)
    requires { to ≤ length s.old }
    ensures { (i : ℕ) → (i < from) ⊎ (to ≤ i) → get_or s.new i 0 ≡ get_or s.old i 0 }
{
    for i in from..to {
        s[i] = 238;
    }
}

// A yes or no in words.
fn in_words(yes: bool) -> &'static str {
    if yes { "yes" } else { "no" }
}

// Prints bytes as a line.
fn line(rt: &impl Print, bytes: &[u8]) {
    for byte in bytes {
        let _ = print!(rt; "{byte:02x}");
    }
    let _ = println!(rt;);
}

// Prints the workspace after a client, 40 bytes a line.
fn show(rt: &impl Print, work: &[u8]) {
    let _ = println!(rt; "the workspace after it:");
    for bytes in work.chunks(40) {
        line(rt, bytes);
    }
}

// Puts the stripe as it is given into a buffer, and rebuilds it there.
fn rebuilt(shape: Shape, lost: Losses, given: &[u8], stripe: &mut [u8], work: &mut [u8]) -> Answer
    requires { length given.now ≡ length stripe.old }
    ensures { Rebuild shape lost given.now (length work.old) result stripe.new work.new }
{
    stripe.copy_from_slice(given);
    rebuild::rebuild(shape, lost, stripe, work)
}

// Where A is refused its stripe is as it was given, and the workspace is all zero.
fn refused(
    rt: &impl Print,
    shape: Shape,
    lost: Losses,
    given: &[u8],
    stripe: &mut [u8],
    work: &mut [u8],
)
    requires { length given.now ≡ length stripe.old }
{
    let answer = rebuilt(shape, lost, given, stripe, work);
    let _ = println!(rt;
        "A, column 4 lost and a byte of column 5 altered: answer {}",
        number(answer)
    );
    let kept = *stripe == *given;
    if answer.is_err() {
        expect(kept);
    }
    let _ = println!(rt; "its stripe is as it was given: {}", in_words(kept));
    expect(zeros(work));
    show(rt, work);
}

// Column 4 of A's stripe is lost, and a byte of column 5 altered.
fn damage(given: &mut [u8])
    requires { length given.old ≡ 1080 }
{
    spoil(given, 480, 600);
    given[700] ^= 1;
}

// Client A: its stripe encoded and damaged.
fn client_a(rt: &impl Print, given: &mut [u8], stripe: &mut [u8], work: &mut [u8])
    requires { (length given.old ≡ 1080) × (length stripe.old ≡ 1080) }
{
    let shape = Shape { m: 3, n: 9, w: 40 };
    encoded(shape, given, 1);
    damage(given);
    refused(rt, shape, Losses::One(4), given, stripe, work);
}

// B in A's workspace comes to what B comes to in one of its own.
fn as_alone(
    rt: &impl Print,
    shape: Shape,
    lost: Losses,
    given: &[u8],
    stripe: &mut [u8],
    own: &mut [u8],
    work: &mut [u8],
    fresh: &mut [u8],
)
    requires { (length given.now ≡ length stripe.old) × (length given.now ≡ length own.old) × (length work.old ≡ length fresh.old) }
    ensures { (a : Answer) × Rebuild shape lost given.now (length work.old) a stripe.new work.new }
{
    let answer = rebuilt(shape, lost, given, stripe, work);
    let alone = rebuilt(shape, lost, given, own, fresh);
    expect(answer == alone);
    expect(*stripe == *own);
    expect(zeros(work));
    let _ = println!(rt;
        "B, columns 2 and 6 lost, in the same workspace: answer {}",
        number(answer)
    );
    let _ = println!(rt; "B alone: answer {}", number(alone));
}

// Columns 2 and 6 of B's stripe are lost.
fn lose(whole: &[u8], given: &mut [u8])
    requires { (length whole.now ≡ 189) × (length given.old ≡ 189) }
    ensures { Agrees (shape 3 9 7) (Two 2 6) given.new whole.now }
{
    given.copy_from_slice(whole);
    spoil(given, 42, 63);
    spoil(given, 126, 147);
}

// Client B: its stripe encoded, two columns of it lost.
fn client_b(
    rt: &impl Print,
    whole: &mut [u8],
    given: &mut [u8],
    stripe: &mut [u8],
    own: &mut [u8],
    work: &mut [u8],
    fresh: &mut [u8],
)
    requires { (length whole.old ≡ 189) × (length given.old ≡ 189) × (length stripe.old ≡ 189) × (length own.old ≡ 189) × (length work.old ≡ 240) × (length fresh.old ≡ 240) }
{
    let shape = Shape { m: 3, n: 9, w: 7 };
    encoded(shape, whole, 3);
    lose(whole, given);
    as_alone(
        rt,
        shape,
        Losses::Two(2, 6),
        given,
        stripe,
        own,
        work,
        fresh,
    );
    let same = *stripe == *whole;
    expect(same);
    let _ = println!(rt; "both stripes are as encoded: {}", in_words(same));
    show(rt, work);
}

// Lends A its buffers.
fn first_client(rt: &impl Print, work: &mut [u8]) {
    let mut given = [0; 1080];
    let mut stripe = [0; 1080];
    client_a(rt, &mut given, &mut stripe, work);
}

// Lends B its buffers, and a workspace to be alone in.
fn second_client(rt: &impl Print, work: &mut [u8])
    requires { length work.old ≡ 240 }
{
    let mut whole = [0; 189];
    let mut given = [0; 189];
    let mut stripe = [0; 189];
    let mut own = [0; 189];
    let mut fresh = [0; 240];
    client_b(
        rt,
        &mut whole,
        &mut given,
        &mut stripe,
        &mut own,
        work,
        &mut fresh,
    );
}

fn main(rt: HostRuntime) {
    let mut work = [0; 240];
    pattern(&mut work, 6);
    first_client(&rt, &mut work);
    second_client(&rt, &mut work);
}
