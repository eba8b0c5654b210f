// Lines in and lines out: the line that is being read, its fields by their kinds, what it lends, the answer
// that is being written, and the loop of a program that answers line by line.
//
// No function here asks anything of its caller. Each but `run` says by an equation what it answers. `run` says what it
// writes and what it makes of its desk, where its reader says what octets it has; a `Desk` says what it may answer.
#![tactic(auto)]

mod answer;
mod buffer;
mod forms;
mod lent;
mod reader;
mod reading;
mod refusals;
mod running;

pub use answer::{Answer, Whole};
pub use buffer::{Octets, array_of};
pub use forms::{
    Kind, has_form, kind_of, numbers, numbers_of, octets_by, protection_of, row_of, value_of,
};
pub use lent::{Lists, lent_of};
pub use reader::Reader;
pub use reading::{Line, Stop, is_silent};
pub use refusals::{refused, told};
pub use running::{Desk, run};
