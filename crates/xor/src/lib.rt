// Bytes under XOR: the one theory of XOR sums that every floor above stands on.
// Its kernels work on slices: bytes copied, a change XORed in, bytes cleared.
#![tactic(auto)]

ghost use Rattle.std.specs.Prelude.{◌≡◌, ◌⊎◌, ℕ, ◌+◌, ◌≤◌, length, get_or};
ghost use Rattle.xor.specs.Spanned.{Spanned, change_of};

// Copies all of `from` into `s` from `at` on; the rest of `s` is as it was.
pub fn copy(from: &[u8], s: &mut [u8], at: usize)
    requires { at + length from.now ≤ length s.old }
    ensures { Spanned (λ t. get_or from.now t 0) s.old s.new at (length from.now) }
{
    for (t, byte) in from.iter().enumerate() {
        s[at + t] = *byte;
    }
}

// XORs into the bytes at `at` the difference between those at `from` and `x`, as many as `x` has; the two places are
// apart.
pub fn change(s: &mut [u8], at: usize, from: usize, x: &[u8])
    requires { (at + length x.now ≤ length s.old) × (from + length x.now ≤ length s.old) × ((at + length x.now ≤ from) ⊎ (from + length x.now ≤ at)) }
    ensures { Spanned (change_of s.old at from x.now) s.old s.new at (length x.now) }
{
    for (t, byte) in x.iter().enumerate() {
        s[at + t] ^= s[from + t] ^ byte;
    }
}

// Sets every byte to 0.
pub fn clear(s: &mut [u8])
    ensures { (length s.new ≡ length s.old) × ((i : ℕ) → get_or s.new i 0 ≡ 0) }
{
    s.fill(0);
}
