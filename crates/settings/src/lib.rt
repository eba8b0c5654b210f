// Document 01's numbers, by name. A contract can't name a constant of the code: specs/Settings has
// the same names for the definitions, and each test in the code is proved against those.
#![tactic(auto)]

// The octets of the longest network frame, and of the room that every output has.
pub const LONGEST: usize = 116;

// The octets of the longest APS frame, and of the room that the command writer asks for.
pub const LONGEST_APS: usize = 108;

// The octets of the auxiliary header that is sent: the network layer's has a key sequence number.
pub const NETWORK_AUX: usize = 14;

pub const APS_AUX: usize = 13;

// The security level that is worked with, and the octets of its tag.
pub const LEVEL: u8 = 5;

pub const TAG: usize = 4;

// The octets of the longest plain frame that is sealed, at each layer.
pub const LONGEST_PLAIN: usize = LONGEST - NETWORK_AUX - TAG;

pub const LONGEST_APS_PLAIN: usize = LONGEST_APS - APS_AUX - TAG;

// The rows of a lent list of heard senders, at least and at most; half of them are each slot's.
pub const SHORTEST_LIST: usize = 2;

pub const LONGEST_LIST: usize = 1024;

// The counter that is neither sent nor accepted.
pub const TOP: u32 = 4294967295;

// How far a step moves the mark ahead, where so much is left up to the top.
pub const MARK_STEP: u32 = 1024;
