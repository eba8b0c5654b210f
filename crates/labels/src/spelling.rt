// The text of a label: whether it spells octets, and its digits.
ghost use Rattle.std.specs.Prelude.{◌≡◌, List, ◌∷◌, ℕ, ◌≤◌, length};
ghost use Rattle.octets.specs.Lists.{onto};
ghost use Rattle.labels.specs.Reading.{separator, spells, digits_in};
ghost use Rattle.labels.specs.Code.{spells_on, spells_from};

// What is to come next in a text that spells octets so far: an octet, the second digit of one, or what is
// behind one.
#[derive(Clone, Copy, PartialEq, Eq)]
pub enum Next {
    Octet,
    Digit,
    Behind,
}

// Whether s spells octets: it ends behind one.
pub(crate) fn spells(s: &[u8]) -> bool
    ensures { result ≡ spells s.now }
{
    let mut next = Next::Octet;
    for &c in s {
        let Some(then) = step(next, c) else {
            return false;
        };
        next = then;
    }
    next == Next::Behind
}

// What is to come behind c, if it may stand there.
fn step(next: Next, c: u8) -> Option<Next>
    ensures { (s : List ℕ) → spells_on (c ∷ s) next ≡ spells_from s result }
{
    match next {
        Next::Behind if is_separator(c) => Some(Next::Octet),
        _ if text::digit(c) == 16 => None,
        Next::Octet | Next::Behind => Some(Next::Digit),
        Next::Digit => Some(Next::Behind),
    }
}

#[tactic(auto, unfolding(crate::specs::Reading::separator))]
fn is_separator(c: u8) -> bool
    ensures { result ≡ separator c }
{
    matches!(c, b' ' | b'-')
}

// How many digits s has: all but the separators.
pub(crate) fn count_digits(s: &[u8]) -> usize
    ensures { result ≡ length (digits_in s.now) }
{
    s.iter().filter(|&&c| !is_separator(c)).count()
}

// Lays these digits at the front of out, by their place: once a list was lent by `iter_mut` a proof knows its
// length alone.
pub(crate) fn lay_digits(s: &[u8], out: &mut [u8])
    requires { length (digits_in s.now) ≤ length out.old }
    ensures { out.new ≡ onto (digits_in s.now) out.old }
{
    for (n, &c) in s.iter().filter(|&&c| !is_separator(c)).enumerate() {
        out[n] = c;
    }
}
