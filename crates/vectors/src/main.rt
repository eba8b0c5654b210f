// Published vectors, one to a line, through the cipher's callable routines.
//
// It answers each line of standard input by one line, and stays in step with a writer that waits
// for each answer: it reads what is there and writes an answer as soon as its line has ended.
#![tactic(auto)]

mod requests;

use requests::Vectors;
use std::io;

fn main(rt: HostRuntime) -> io::Result<()> {
    lines::run(
        &mut rt.stdin(),
        &mut rt.stdout(),
        &mut Vectors { lent: 256 },
    )
}
