// A block: bytes that are worked on at a time, bytes of a slice or sums of them. These functions make it and store it.
// Each works on the first len bytes of a block, which has no fewer. Where the caller has a constant for len, as on
// every hot path, the compiler keeps them in registers.
#![tactic(auto)]

ghost use Rattle.std.specs.Prelude.{◌≡◌, ◌+◌, ◌≤◌, length, get_or};
ghost use Rattle.xor.specs.Xor.{◌⊕◌};
ghost use Rattle.xor.specs.Spanned.{Spanned};
ghost use Rattle.block.specs.Block.{Block};

// The longest block that a symbol is cut into.
pub const LONGEST: usize = 128;

// The sum of len bytes of s from a on and as many of t from b on; whoever calls it stays within the slices.
pub fn both<const LEN: usize>(s: &[u8], a: usize, t: &[u8], b: usize, len: usize) -> [u8; LEN]
    requires block { len ≤ LEN }
    requires one { a + len ≤ length s.now }
    requires other { b + len ≤ length t.now }
    ensures { Block (λ k. get_or s.now (a + k) 0 ⊕ get_or t.now (b + k) 0) len LEN result }
{
    let mut acc = [0; LEN];
    for k in 0..len {
        acc[k] = s[a + k] ^ t[b + k];
    }
    acc
}

// Adds to acc len bytes of s from a on and as many from b on; whoever calls it stays within the slice.
pub fn pair<const LEN: usize>(acc: &mut [u8; LEN], s: &[u8], a: usize, b: usize, len: usize)
    requires block { len ≤ LEN }
    requires one { a + len ≤ length s.now }
    requires other { b + len ≤ length s.now }
    ensures { Block (λ t. get_or acc.old t 0 ⊕ (get_or s.now (a + t) 0 ⊕ get_or s.now (b + t) 0)) len LEN acc.new }
{
    for k in 0..len {
        acc[k] ^= s[a + k] ^ s[b + k];
    }
}

// Adds to acc len bytes of s from `at` on; whoever calls it stays within the slice.
pub fn add<const LEN: usize>(acc: &mut [u8; LEN], s: &[u8], at: usize, len: usize)
    requires { (len ≤ LEN) × (at + len ≤ length s.now) }
    ensures { Block (λ t. get_or acc.old t 0 ⊕ get_or s.now (at + t) 0) len LEN acc.new }
{
    for k in 0..len {
        acc[k] ^= s[at + k];
    }
}

// Adds to acc the first len bytes of another block.
pub fn join<const LEN: usize>(acc: &mut [u8; LEN], other: &[u8; LEN], len: usize)
    requires { len ≤ LEN }
    ensures { Block (λ t. get_or acc.old t 0 ⊕ get_or other.now t 0) len LEN acc.new }
{
    for k in 0..len {
        acc[k] ^= other[k];
    }
}

// The len bytes of s from `at` on, as the first of a block; whoever calls it stays within the slice.
pub fn get<const LEN: usize>(s: &[u8], at: usize, len: usize) -> [u8; LEN]
    requires { (len ≤ LEN) × (at + len ≤ length s.now) }
    ensures { Block (λ t. get_or s.now (at + t) 0) len LEN result }
{
    let mut acc = [0; LEN];
    for k in 0..len {
        acc[k] = s[at + k];
    }
    acc
}

// Stores the first len bytes of a block into s from `at` on; whoever calls it stays within the slice. (Not
// `copy_from_slice`, which asks whether the two overlap.)
pub fn put<const LEN: usize>(acc: &[u8; LEN], s: &mut [u8], at: usize, len: usize)
    requires { (len ≤ LEN) × (at + len ≤ length s.old) }
    ensures { Spanned (λ t. get_or acc.now t 0) s.old s.new at len }
{
    for k in 0..len {
        s[at + k] = acc[k];
    }
}
