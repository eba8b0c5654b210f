// A whole board on a student's desk: the bench language, one request to a line.
//
// It answers each line of standard input by one line, and stays in step with a writer that waits
// for each answer: it reads what is there and writes an answer as soon as its line has ended. What
// it answers is the proved library's; it adds nothing to a verdict.
#![tactic(auto)]

mod command_lines;
mod desk;
mod hashes;
mod keys;
mod label_lines;
mod making;
mod opening;
mod requests;
mod routing;
mod sealing;
mod show;

use desk::Bench;
use std::io;

fn main(rt: HostRuntime) -> io::Result<()> {
    lines::run(&mut rt.stdin(), &mut rt.stdout(), &mut Bench::new())
}
