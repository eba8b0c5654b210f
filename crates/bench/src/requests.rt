// Which request a line is. Each reads its own fields, and has no answer where the line has not its
// form, or asks for a board before there is one.
use crate::desk::Bench;
use crate::{command_lines, hashes, label_lines, routing};
use lines::{Answer, Desk};

impl Desk for Bench {
    fn answer(&mut self, line: &[u8]) -> Option<Answer> {
        match text::field(line, 0) {
            b"network" => self.network(line),
            b"switch" => self.switch(line),
            b"link" => self.link(line),
            b"unlink" => self.unlink(line),
            b"forget" => self.forget(line),
            b"open" => self.open(line),
            b"openaps" => self.open_aps(line),
            b"seal" => self.seal(line),
            b"sealaps" => self.seal_aps(line),
            b"state" => self.state(line),
            b"heard" => self.heard(line),
            b"links" => self.links(line),
            b"mark" => self.mark(line),
            b"marked" => self.marked(line),
            b"write" => self.write(line),
            b"board" => self.make(line),
            b"lend" => self.lend(line),
            b"read" => command_lines::read(line),
            b"tlv" => command_lines::tlv(line),
            b"hash" => hashes::hash(line),
            b"keyedhash" => hashes::keyed_hash(line),
            b"route" => routing::route(line),
            b"label" => label_lines::label(line),
            b"print" => self.print(line),
            _ => None,
        }
    }
}
