// The router's request: a Tunnel taken apart, and what it carries handed on unchanged.
#![tactic(auto)]

mod routing;

pub use routing::{portion_of, route};

// The inner frame, or one of the four that it is joined of.
#[derive(Clone, Copy)]
pub enum Portion {
    Whole,
    Header,
    Auxiliary,
    Payload,
    Tag,
}
