// APS commands: read out of a plain frame, with their parts handed back out of that frame, and
// written.
#![tactic(auto)]

ghost use Rattle.std.specs.Prelude.{◌≡◌, ◌+◌, ◌≤◌, length};
ghost use Rattle.octets.specs.Parts.{seen};
ghost use Rattle.commands.specs.Parts.{cut_at, rest_span};

mod kinds;
mod line;
mod parts;
mod reader;
mod table;
mod writer;

pub use parts::{hash_of, inner_of, key_of, tlvs_of, value_of};
pub use reader::read_command;
pub use writer::write_command;

// A command with its numbers, in the order in which they stand in the frame. Keys, hashes, inner
// frames and TLVs are asked for alone.
#[derive(Clone, Copy)]
pub enum Command {
    TransportKey(Transported),
    // device, short address, status
    UpdateDevice(u64, u16, u8),
    // target
    RemoveDevice(u64),
    RequestKey(Requested),
    // sequence number
    SwitchKey(u8),
    // destination
    Tunnel(u64),
    // type, source
    VerifyKey(u8, u64),
    // status, type, destination
    ConfirmKey(u8, u8, u64),
    RelayDownstream,
    RelayUpstream,
}

// The key that a Transport-Key carries; types 2 and 3 have one layout.
#[derive(Clone, Copy)]
pub enum Transported {
    // sequence number, destination, source
    Network(u8, u64, u64),
    // destination, source
    TrustCentre(u64, u64),
    // partner, initiator flag
    ApplicationMaster(u64, u8),
    ApplicationLink(u64, u8),
}

// The key that a Request-Key asks for.
#[derive(Clone, Copy)]
pub enum Requested {
    // partner
    Application(u64),
    TrustCentre,
}

// A command without its numbers: a row of 01's list, by identifier and inner type.
#[derive(Clone, Copy)]
pub(crate) enum Kind {
    Transport1,
    Transport4,
    Transport2,
    Transport3,
    Update,
    Remove,
    Request2,
    Request4,
    Switch,
    Tunnel,
    Verify,
    Confirm,
    Down,
    Up,
}

// The sixteen octets that a command may have: a column of the list, with its own word for none (specs/Table).
#[derive(Clone, Copy)]
pub(crate) enum Secret {
    NoSecret,
    Key,
    Hash,
}

// What follows a command's own octets.
#[derive(Clone, Copy)]
pub(crate) enum Rest {
    End,
    Tlvs,
    Relay,
    Inner,
}

// A protection that the list allows.
#[derive(Clone, Copy)]
pub(crate) enum Allowed {
    Clear,
    Only(u8),
    ClearOr(u8),
}

// A row of 01's list; size counts from the identifier to where the rest starts.
#[derive(Clone, Copy)]
pub(crate) struct Rule {
    pub size: usize,
    pub secret: Secret,
    pub rest: Rest,
    pub under: Allowed,
}

// A part that is asked for alone.
#[derive(Clone, Copy)]
pub(crate) enum Asked {
    Key,
    Hash,
    Tlvs,
    Inner,
}

// Where a part stands in a frame. Nowhere is no octets, as its definition has it (specs/Parts).
#[derive(Clone, Copy)]
pub struct Span {
    pub from: usize,
    pub count: usize,
}

impl Span {
    pub(crate) const NOWHERE: Self = Span { from: 0, count: 0 };

    // The octets from `from` to the end of a frame of n octets.
    #[tactic(auto, unfolding(crate::specs::Parts::rest_span))]
    pub(crate) fn rest(n: usize, from: usize) -> Self
        ensures { result ≡ rest_span n from }
    {
        Span {
            from,
            count: n.saturating_sub(from),
        }
    }

    pub(crate) fn of(self, f: &[u8]) -> &[u8]
        requires { self.from + self.count ≤ length f.now }
        ensures { seen result ≡ cut_at f.entry self }
    {
        &f[self.from..self.from + self.count]
    }
}
