// Octets by value: so many of them, and no more than there is room for.
ghost use Rattle.std.specs.Prelude.{◌≡◌, ◌≤◌, replicate};
ghost use Rattle.text.specs.Hex.{unhexed};

use crate::forms::place_of;

// The first n of the array, or all of it where that is fewer.
#[derive(Clone, Copy)]
pub struct Octets<const N: usize> {
    pub n: usize,
    pub octets: [u8; N],
}

impl<const N: usize> Octets<N> {
    ghost use Rattle.std.specs.Prelude.{[]};
    ghost use Rattle.text.specs.Decimal.{decimal as spelt};
    ghost use Rattle.text.specs.Hex.{hex_of, address as addressed};
    ghost use Rattle.std.specs.Option.{option_map};
    ghost use Rattle.text.specs.Fields.{field_at};
    ghost use Rattle.lines.specs.Forms.{place_of};
    ghost use Rattle.lines.specs.Answer.{said, more, hexed};

    // None yet.
    pub fn new() -> Self
        ensures { said result ≡ [] }
    {
        Octets {
            n: 0,
            octets: [0; N],
        }
    }

    // Those that s spells in hex; nothing where it is no hex of whole octets, or of more than there is room for.
    pub fn from_hex(s: &[u8]) -> Option<Self>
        ensures { option_map said result ≡ hexed N s.now }
    {
        let mut octets = [0; N];
        let n = text::octets_of(s, &mut octets)?;
        Some(Octets { n, octets })
    }

    // Those of field i of the line, counted from 0.
    pub fn at(line: &[u8], i: usize) -> Option<Self>
        ensures { option_map said result ≡ hexed N (field_at line.now i) }
    {
        Octets::from_hex(text::field(line, i))
    }

    // Those of the line's first field whose letter in its form is one of these.
    pub fn of(line: &[u8], form: &[u8], letters: &[u8]) -> Option<Self>
        ensures { option_map said result ≡ hexed N (field_at line.now (place_of form.now letters.now)) }
    {
        Octets::at(line, place_of(form, letters))
    }

    pub fn as_slice(&self) -> &[u8]
        ensures { result.now ≡ said self.now }
    {
        text::front(&self.octets, self.n)
    }

    // These behind them. What has no room is left out whole.
    pub fn with(mut self, s: &[u8]) -> Self
        ensures { said result ≡ more N (said self.entry) s.now }
    {
        self.push(s);
        self
    }

    // The same in place.
    pub fn push(&mut self, s: &[u8])
        ensures { said self.new ≡ more N (said self.old) s.now }
    {
        let at = self.n;
        self.n = text::put(&mut self.octets, at, s);
    }

    // A number in decimal behind them.
    pub fn push_decimal(&mut self, x: u64)
        ensures { said self.new ≡ more N (said self.old) (spelt x) }
    {
        let at = self.n;
        self.n = text::put_decimal(&mut self.octets, at, x);
    }

    // An address in hex behind them.
    pub fn push_address(&mut self, x: u64)
        ensures { said self.new ≡ more N (said self.old) (addressed x) }
    {
        let at = self.n;
        self.n = text::put_address(&mut self.octets, at, x);
    }

    // Octets in hex behind them.
    pub fn push_hex(&mut self, src: &[u8])
        ensures { said self.new ≡ more N (said self.old) (hex_of src.now) }
    {
        let at = self.n;
        self.n = text::put_hex(&mut self.octets, at, src);
    }
}

// An array of the octets that s spells in hex, zeros behind them; zeros alone where it is no hex of whole octets, or
// of more than there is room for.
pub fn array_of<const N: usize>(s: &[u8]) -> [u8; N]
    ensures { result ≡ (unhexed s.now (replicate N 0)).out }
{
    let mut octets = [0; N];
    text::octets_of(s, &mut octets);
    octets
}
