// The writer of a label's text.
ghost use Rattle.std.specs.Prelude.{◌≡◌, ◌+◌, ◌-◌, ◌*◌, ◌<◌, ◌≤◌, length, get_or};
ghost use Rattle.octets.specs.Lists.{onto};
ghost use Rattle.labels.specs.Answers.{told_printed};
ghost use Rattle.labels.specs.Spelling.{capital, digit_in, in_print};
ghost use Rattle.labels.specs.Printing.{as_printed, printing, print_label};

use crate::codes::{MOST_OCTETS, code_length};
use crate::crc::crc_octets;
use answers::Refusal;

// Prints the label of a code at the start of out, code and CRC in capitals with one space between octets,
// and answers how many octets the text has. Refused are a code of another length than 6, 8, 12 or 16 (15),
// then an output without room (1); out is then as it stood.
pub fn print_label(code: &[u8], out: &mut [u8]) -> Result<usize, Refusal>
    ensures { printing (told_printed result) out.new ≡ print_label code.now out.old }
{
    let n = code.len();
    if !code_length(n) {
        return Err(Refusal::Label);
    }
    if out.len() < 3 * n + 5 {
        return Err(Refusal::Room);
    }
    let mut whole = [0u8; MOST_OCTETS];
    whole[..n].copy_from_slice(code);
    whole[n..n + 2].copy_from_slice(&crc_octets(code));
    lay_text(&whole[..n + 2], out);
    Ok(3 * n + 5)
}

// The octets s in print, laid at the front of out: each has three places but the first, which has no space before it.
fn lay_text(s: &[u8], out: &mut [u8])
    requires { 3 * length s.now ≤ length out.old + 1 }
    ensures { out.new ≡ onto (in_print as_printed s.now) out.old }
{
    for (k, &x) in s.iter().enumerate() {
        let at = 3 * k;
        if 0 < k {
            out[at - 1] = b' ';
        }
        out[at] = capital(x / 16);
        out[at + 1] = capital(x % 16);
    }
}

// `text` writes small letters: one function of both would be public there, and the first with a `requires`.
#[tactic(auto, unfolding(crate::specs::Spelling::digit_in))]
fn capital(d: u8) -> u8
    requires { d < 16 }
    ensures { result ≡ digit_in capital d }
{
    if d < 10 { b'0' + d } else { b'A' + (d - 10) }
}
