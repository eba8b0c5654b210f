// Network and APS frames, as far as they are read without a key: headers, the auxiliary header, the
// nonce and the octets that are authenticated. There is no state here.
#![tactic(auto)]

mod aps_header;
mod making;
mod network_header;
mod reading;
mod security;
mod tunnelling;

pub use making::{lay_authenticated, lay_plain_header, lay_secured_header};
pub use reading::{read_command, read_frame, read_plain};
pub use security::{identifier, lay_auxiliary, nonce, wire_control};
pub use tunnelling::may_tunnel;

#[derive(Clone, Copy)]
pub enum Layer {
    Network,
    Aps,
}

// What a secured frame announces: the lengths of its two headers, its security control as received,
// its counter, the sender, and the key sequence number where it has one.
#[derive(Clone, Copy)]
pub struct Secured {
    pub header: usize,
    pub aux: usize,
    pub control: u8,
    pub counter: u32,
    pub sender: u64,
    pub sequence: u8,
}

// The auxiliary header that sealing sends. Of the identifier only the two lowest bits count, and only
// identifier 1 sends the key sequence number.
#[derive(Clone, Copy)]
pub struct Auxiliary {
    pub identifier: u8,
    pub counter: u32,
    pub sender: u64,
    pub sequence: u8,
}

// A frame that is to be opened: unsecured, with so many octets of header, or secured.
#[derive(Clone, Copy)]
pub enum Read {
    Plain(usize),
    Secured(Secured),
}

// A header that was read: how many octets it has, and whether the security bit is set.
#[derive(Clone, Copy)]
struct Heading {
    octets: usize,
    secured: bool,
}
