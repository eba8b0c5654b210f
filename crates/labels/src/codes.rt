// Which lengths an install code may have, and how long a label then is.
ghost use Rattle.std.specs.Prelude.{◌≡◌};
ghost use Rattle.labels.specs.Codes.{code_length};

// The octets and the digits of the longest label: a code of 16 octets and its CRC.
pub(crate) const MOST_OCTETS: usize = 18;

pub(crate) const MOST_DIGITS: usize = 2 * MOST_OCTETS;

#[tactic(auto, unfolding(crate::specs::Codes::code_length))]
pub(crate) fn code_length(n: usize) -> bool
    ensures { result ≡ code_length n }
{
    matches!(n, 6 | 8 | 12 | 16)
}
