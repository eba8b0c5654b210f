// The CRC of an install code. It is worked out bit by bit, as it is defined: a code has 16 octets at
// most and is read once, so that a table would cost 512 octets and save little.
ghost use Rattle.std.specs.Prelude.{◌≡◌};
ghost use Rattle.octets.specs.Least.{spelled};
ghost use Rattle.labels.specs.Crc.{shifted, taken_in, crc};

// The two octets that stand behind a code on its label.
pub(crate) fn crc_octets(code: &[u8]) -> [u8; 2]
    ensures { result ≡ spelled 2 (crc code.now) }
{
    octets::spelled2(crc_of(code))
}

fn crc_of(s: &[u8]) -> u16
    ensures { result ≡ crc s.now }
{
    s.iter().fold(0xffff, |c, &x| taken_in(c, x)) ^ 0xffff
}

fn taken_in(c: u16, x: u8) -> u16
    ensures { result ≡ taken_in c x }
{
    (0..8usize).fold(c ^ u16::from(x), |r, _| shifted(r))
}

#[tactic(auto, unfolding(crate::specs::Crc::shifted))]
fn shifted(c: u16) -> u16
    ensures { result ≡ shifted c }
{
    if c % 2 == 1 { (c / 2) ^ 0x8408 } else { c / 2 }
}
