// The refusals of documents 01 and 02, each with its number there, and what opening answers.
#![tactic(auto)]

ghost use Rattle.std.specs.Prelude.{◌≡◌};
ghost use Rattle.answers.specs.Numbers.{number_of};

// The refusals in the order of their numbers: the fourteen of 01's table, then those that 02 brings.
#[derive(Clone, Copy, Debug, PartialEq, Eq)]
pub enum Refusal {
    Room,
    Long,
    Short,
    Form,
    Security,
    NoKey,
    Top,
    Stale,
    Forged,
    Full,
    Command,
    Protection,
    Absent,
    Argument,
    Label,
    Crc,
    Mark,
}

// A frame that opened: its length, its sender (0 if unsecured), and what protected it: nothing, or a
// key, named by its identifier.
#[derive(Clone, Copy, Debug, PartialEq, Eq)]
pub struct Opened {
    pub length: usize,
    pub sender: u64,
    pub protection: Option<u8>,
}

impl Opened {
    // An unsecured frame of so many octets.
    pub fn plain(length: usize) -> Opened
        ensures { result ≡ record { length = length; sender = 0; protection = None } }
    {
        Opened {
            length,
            sender: 0,
            protection: None,
        }
    }
}

impl From<Refusal> for u8 {
    ghost from_gives = { λ refusal number. number ≡ number_of refusal };

    // Its number in the documents' table.
    fn from(refusal: Refusal) -> u8 {
        match refusal {
            Refusal::Room => 1,
            Refusal::Long => 2,
            Refusal::Short => 3,
            Refusal::Form => 4,
            Refusal::Security => 5,
            Refusal::NoKey => 6,
            Refusal::Top => 7,
            Refusal::Stale => 8,
            Refusal::Forged => 9,
            Refusal::Full => 10,
            Refusal::Command => 11,
            Refusal::Protection => 12,
            Refusal::Absent => 13,
            Refusal::Argument => 14,
            Refusal::Label => 15,
            Refusal::Crc => 16,
            Refusal::Mark => 17,
        }
    }
}
