// Octets put one behind another: a command up to what follows has 35 at most.
ghost use Rattle.std.specs.Prelude.{◌≡◌, ℕ, ◌+◌, ◌≤◌, List, [], ◌∷◌, ◌++◌, length, take};
ghost use Rattle.octets.specs.Least.{spelled};

use std::marker::Model;

#[derive(Drop)]
pub(crate) struct Line {
    octets: [u8; 35],
    count: usize,
}

impl Model for Line {
    ghost Value = { List ℕ };

    ghost view = { λ l. take l.count l.octets };

    ghost invariant = { λ l. l.count ≤ 35 };
}

impl Line {
    pub(crate) fn led_by(id: u8) -> Self
        ensures { result ≡ id ∷ [] }
    {
        let mut octets = [0; 35];
        octets[0] = id;
        Line { octets, count: 1 }
    }

    pub(crate) fn part(self, part: &[u8]) -> Self
        requires { length self + length part.now ≤ 35 }
        ensures { result ≡ self ++ part.now }
    {
        let mut octets = self.octets;
        octets::paste_at(&mut octets, self.count, part);
        Line {
            octets,
            count: self.count + part.len(),
        }
    }

    pub(crate) fn octet(self, v: u8) -> Self
        requires { length self + 1 ≤ 35 }
        ensures { result ≡ self ++ v ∷ [] }
    {
        self.part(&[v])
    }

    pub(crate) fn short(self, v: u16) -> Self
        requires { length self + 2 ≤ 35 }
        ensures { result ≡ self ++ spelled 2 v }
    {
        self.part(&octets::spelled2(v))
    }

    pub(crate) fn address(self, v: u64) -> Self
        requires { length self + 8 ≤ 35 }
        ensures { result ≡ self ++ spelled 8 v }
    {
        self.part(&octets::spelled8(v))
    }

    pub(crate) fn as_slice(&self) -> &[u8]
        ensures { result.now ≡ self.now }
    {
        &self.octets[..self.count]
    }
}
