// What the programs of the desk share: sums that stay within 64 bits, how far two numbers are apart, and what is left of some bytes.
#![tactic(auto)]

ghost use Rattle.std.specs.Prelude.{◌≡◌, drop, nat_abs, ◌-ℤ◌};
ghost use Rattle.console.specs.Sums.{added};

// The sum, or the largest number where it is larger: what is counted that high is known to be at least that.
#[tactic(auto, unfolding(crate::specs::Sums::added))]
pub fn sum(a: u64, b: u64) -> u64
    ensures { result ≡ added a b }
{
    a.saturating_add(b)
}

// How far two numbers are apart: on one side of zero the difference of their sizes, else the sum.
pub fn apart(a: i64, b: i64) -> u64
    ensures { result ≡ nat_abs (a -ℤ b) }
{
    a.abs_diff(b)
}

// What is left from a place on. A slice, since an iterator's `skip` goes over what it skips.
#[tactic(auto, using(std::proofs::lemmas::List::drop_min))]
pub fn rest(bytes: &[u8], from: usize) -> &[u8]
    ensures { result.now ≡ drop from bytes.now }
{
    &bytes[from.min(bytes.len())..]
}
