// What a call leaves in what it was lent, refusals too: docs/MARGINS.md, one request to a line.
//
// It shows what no line of the bench does: the octets behind a frame in the output, the output and
// the tables of a refusal, and the place that a part is handed back from. What it shows is what the
// proved library left; it adds nothing to it.
#![tactic(auto)]

mod answer;
mod hashes;
mod label_lines;
mod lent;
mod opening;
mod parts;
mod requests;
mod sealing;
mod writing;

use requests::Margins;
use std::io;

fn main(rt: HostRuntime) -> io::Result<()> {
    lines::run(&mut rt.stdin(), &mut rt.stdout(), &mut Margins)
}
