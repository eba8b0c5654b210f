// Install codes: the label on a device's box, read and printed, and the link key that it gives.
//
// Every routine here answers every input, and there is no state.
#![tactic(auto)]

mod codes;
mod crc;
mod printing;
mod reading;
mod spelling;

pub use printing::print_label;
pub use reading::read_label;

// An install code of that many octets, at the front of 16 with zeros behind it, and its link key. What the reader
// tells is all 16, so that the length stands beside.
#[derive(Clone, Copy, Debug, PartialEq, Eq)]
pub struct Label {
    pub length: usize,
    pub code: [u8; 16],
    pub key: [u8; 16],
}
