// Lines of text: their fields, numbers and octets, read and written.
//
// No callable function here asks anything of its caller, and each says by an equation what it answers, so a
// program that talks in lines needs no proof of its own.
#![tactic(auto)]

mod cursor;
mod decimal;
mod digits;
mod fields;
mod hex;

pub use cursor::{front, put};
pub use decimal::{number_of, put_decimal};
pub use digits::{all_digits, digit};
pub use fields::{count, field, which};
pub use hex::{address_of, octets_of, put_address, put_hex};
