// Answers in the words of the bench language.
use answers::{Opened, Refusal};
use lines::{Answer, refused};

// How many octets were made.
pub(crate) fn counted(made: Result<usize, Refusal>) -> Answer {
    match made {
        Ok(n) => Answer::done().decimal(n as u64),
        Err(why) => refused(why),
    }
}

pub(crate) fn opened(found: Result<Opened, Refusal>) -> Answer {
    match found {
        Ok(opened) => Answer::done()
            .decimal(opened.length as u64)
            .address(opened.sender)
            .decimal_or(opened.protection.map(u64::from), b"none"),
        Err(why) => refused(why),
    }
}
