// Digits, in any base up to 16.
ghost use Rattle.std.specs.Prelude.{◌≡◌, ◌≤◌};
ghost use Rattle.text.specs.Digits.{digit_of, all_digits};

// What a digit is worth, in either case; 16 for an octet that is none, so that one comparison with a base asks both.
#[tactic(auto, unfolding(crate::specs::Digits::digit_of))]
pub fn digit(c: u8) -> u8
    ensures { (result ≡ digit_of c) × (result ≤ 16) }
{
    match c {
        b'0'..=b'9' => c - b'0',
        b'A'..=b'F' => c - b'A' + 10,
        b'a'..=b'f' => c - b'a' + 10,
        _ => 16,
    }
}

// Whether all of s are digits in that base.
pub fn all_digits(base: u8, s: &[u8]) -> bool
    ensures { result ≡ all_digits base s.now }
{
    s.iter().all(|c| digit(*c) < base)
}
