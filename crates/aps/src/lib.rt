// APS frames: opening, sealing and looking.
#![tactic(auto)]

mod keys;
mod looking;
mod opening;
mod sealing;

pub use looking::look_frame;
pub use opening::open_frame;
pub use sealing::seal_frame;
