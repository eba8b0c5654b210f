// Lists of octets: what every layer above reads and writes.
#![tactic(auto)]

ghost use Rattle.std.specs.Prelude.{◌≡◌, ◌+◌};
ghost use Rattle.octets.specs.Lists.{at, eq_list, pasted, tab};
ghost use Rattle.octets.specs.Least.{number_at, spelled};
ghost use Rattle.octets.specs.Addresses.{no_address};

use std::array;

// Whether a and b hold the same octets. It looks at all of them, whatever it finds, so that the
// time it takes tells nothing of where they part.
pub fn same(a: &[u8], b: &[u8]) -> bool
    ensures { result ≡ eq_list a.now b.now }
{
    if a.len() != b.len() {
        return false;
    }
    a.iter().zip(b).fold(0, |apart, (x, y)| apart | (x ^ y)) == 0
}

// Lays src into out from place i on. Where it does not fit, out is as it stood.
pub fn paste_at(out: &mut [u8], i: usize, src: &[u8])
    ensures { out.new ≡ pasted out.old i src.now }
{
    if src.len() <= out.len() && i <= out.len() - src.len() {
        out[i..i + src.len()].copy_from_slice(src);
    }
}

// Octet i of s, or 0 past its end.
pub fn octet(s: &[u8], i: usize) -> u8
    ensures { result ≡ at s.now i }
{
    s.get(i).copied().unwrap_or(0)
}

// The N octets of s from place i on, with 0 for those past its end.
fn octets_at<const N: usize>(s: &[u8], i: usize) -> [u8; N]
    ensures { result ≡ tab N (λ j. at s.now (i + j)) }
{
    let rest = &s[i.min(s.len())..];
    array::from_fn(|j| octet(rest, j))
}

// The number in two octets of s from place i on, least octet first; 0 for those past its end. Each width has a
// `from_le_bytes` and a `to_le_bytes` of its own, and a trait over the three would be longer than these are.
#[tactic(auto, unfolding(crate::specs::Least::number_at))]
pub fn number2(s: &[u8], i: usize) -> u16
    ensures { result ≡ number_at 2 s.now i }
{
    u16::from_le_bytes(octets_at(s, i))
}

// The number in four octets, likewise.
#[tactic(auto, unfolding(crate::specs::Least::number_at))]
pub fn number4(s: &[u8], i: usize) -> u32
    ensures { result ≡ number_at 4 s.now i }
{
    u32::from_le_bytes(octets_at(s, i))
}

// The number in eight octets, likewise.
#[tactic(auto, unfolding(crate::specs::Least::number_at))]
pub fn number8(s: &[u8], i: usize) -> u64
    ensures { result ≡ number_at 8 s.now i }
{
    u64::from_le_bytes(octets_at(s, i))
}

// The two octets that spell n, least octet first.
pub fn spelled2(n: u16) -> [u8; 2]
    ensures { result ≡ spelled 2 n }
{
    n.to_le_bytes()
}

// The four octets that spell n, likewise.
pub fn spelled4(n: u32) -> [u8; 4]
    ensures { result ≡ spelled 4 n }
{
    n.to_le_bytes()
}

// The eight octets that spell n, likewise.
pub fn spelled8(n: u64) -> [u8; 8]
    ensures { result ≡ spelled 8 n }
{
    n.to_le_bytes()
}

// Whether an address is nobody's: zero or all ones.
#[tactic(auto, unfolding(crate::specs::Addresses::no_address))]
pub fn no_address(a: u64) -> bool
    ensures { result ≡ no_address a }
{
    a == 0 || a == u64::MAX
}
