// A frame handed to the router, and what the router sends on.
use crate::desk::Field;
use lines::{Answer, numbers, protection_of, refused};
use router::Portion;

pub(crate) fn route(line: &[u8]) -> Option<Answer> {
    let [_, protection, ..] = numbers(line, b".TF")?;
    let frame = Field::at(line, 2)?;
    let protection = protection_of(protection);
    Some(match router::route(frame.as_slice(), protection) {
        Ok(destination) => onward(destination, frame.as_slice(), protection),
        Err(why) => refused(why),
    })
}

// The inner frame whole, then what it is joined of, in its order.
fn onward(destination: u64, f: &[u8], protection: Option<u8>) -> Answer {
    Answer::done()
        .address(destination)
        .hex(router::portion_of(f, protection, Portion::Whole))
        .hex(router::portion_of(f, protection, Portion::Header))
        .hex(router::portion_of(f, protection, Portion::Auxiliary))
        .hex(router::portion_of(f, protection, Portion::Payload))
        .hex(router::portion_of(f, protection, Portion::Tag))
}
