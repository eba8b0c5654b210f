// Decimal numbers, without a leading zero.
ghost use Rattle.std.specs.Prelude.{◌≡◌};
ghost use Rattle.octets.specs.Lists.{pasted};
ghost use Rattle.text.specs.Cursor.{ahead};
ghost use Rattle.text.specs.Digits.{spelt};
ghost use Rattle.text.specs.Decimal.{decimal, zero_led, is_decimal, number_of, at_most};

use crate::cursor::put;
use crate::digits::{all_digits, digit};

// Reads a number up to most; nothing where s spells none, or a greater one.
#[tactic(auto, unfolding(crate::specs::Decimal::number_of))]
pub fn number_of(s: &[u8], most: u32) -> Option<u32>
    ensures { result ≡ number_of s.now most }
{
    if !is_decimal(s) {
        return None;
    }
    value(s, most)
}

// Writes a number.
pub fn put_decimal(out: &mut [u8], at: usize, n: u64) -> usize
    ensures { (out.new ≡ pasted out.old at (decimal n)) × (result ≡ ahead out.old at (decimal n)) }
{
    let mut text = [0u8; 20];
    let k = io::decimal(n, &mut text);
    put(out, at, &text[..k])
}

// Whether s spells a number: digits alone, one at least, and a zero in front only by itself.
#[tactic(auto, unfolding(crate::specs::Decimal::is_decimal))]
fn is_decimal(s: &[u8]) -> bool
    ensures { result ≡ is_decimal s.now }
{
    !s.is_empty() && !zero_led(s) && all_digits(10, s)
}

#[tactic(auto, unfolding(crate::specs::Decimal::zero_led))]
fn zero_led(s: &[u8]) -> bool
    ensures { result ≡ zero_led s.now }
{
    matches!(s, [b'0', _, ..])
}

// The number that s spells, if it is at most that; what does not fit 32 bits is above every limit.
fn value(s: &[u8], most: u32) -> Option<u32>
    ensures { result ≡ at_most most (spelt 10 0 s.now) }
{
    let mut n: u32 = 0;
    for c in s {
        n = n.checked_mul(10)?.checked_add(u32::from(digit(*c)))?;
    }
    (n <= most).then_some(n)
}
