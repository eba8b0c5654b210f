// Trials of the board's requests and of the frames' readings, one to a line, also on tables that no
// run of requests makes.
//
// It answers each line of standard input by one line, and stays in step with a writer that waits
// for each answer: it reads what is there and writes an answer as soon as its line has ended.
#![tactic(auto)]

mod desk;
mod headers;
mod keys;
mod lists;
mod raw;
mod requests;
mod show;

use desk::Trials;
use std::io;

fn main(rt: HostRuntime) -> io::Result<()> {
    lines::run(&mut rt.stdin(), &mut rt.stdout(), &mut Trials::new())
}
