// The reader of a label's text.
ghost use Rattle.std.specs.Prelude.{◌≡◌};
ghost use Rattle.labels.specs.Answers.{told_coded};
ghost use Rattle.labels.specs.Reading.{judged, read_label};

use crate::Label;
use crate::codes::{MOST_DIGITS, MOST_OCTETS, code_length};
use crate::crc::crc_octets;
use crate::spelling::{count_digits, lay_digits, spells};
use answers::Refusal;

// Reads the text of a label: the install code and its link key. Refused are a text that does not spell
// octets, and other than 8, 10, 14 or 18 of them (15); then a CRC that is not the code's (16).
pub fn read_label(s: &[u8]) -> Result<Label, Refusal>
    ensures { told_coded result ≡ read_label s.now }
{
    if !spells(s) {
        return Err(Refusal::Label);
    }
    let n = count_digits(s);
    if MOST_DIGITS < n {
        return Err(Refusal::Label);
    }
    let mut digits = [0u8; MOST_DIGITS];
    lay_digits(s, &mut digits);
    let mut octets = [0u8; MOST_OCTETS];
    // They are hex of whole octets, and there is room for these.
    let length = text::octets_of(&digits[..n], &mut octets).unwrap();
    judge(&octets[..length])
}

// The octets of a label, judged by how many they are and by their CRC.
fn judge(o: &[u8]) -> Result<Label, Refusal>
    ensures { told_coded result ≡ judged o.now }
{
    if o.len() < 2 {
        return Err(Refusal::Label);
    }
    let length = o.len() - 2;
    if !code_length(length) {
        return Err(Refusal::Label);
    }
    if !octets::same(&o[length..], &crc_octets(&o[..length])) {
        return Err(Refusal::Crc);
    }
    let mut code = [0u8; 16];
    code[..length].copy_from_slice(&o[..length]);
    let key = cipher::hash(o).unwrap();
    Ok(Label { length, code, key })
}
