// Which request a line is. Each reads its own fields, and gives no answer where the line has not its
// form, or asks for a board before there is one.
use crate::desk::Trials;
use crate::{headers, show};
use board::Board;
use frames::Layer;
use lines::{Answer, Desk, numbers};

impl Desk for Trials {
    fn answer(&mut self, line: &[u8]) -> Option<Answer> {
        match text::field(line, 0) {
            b"network" => self.network(line),
            b"forget" => self.forget(line),
            b"switch" => self.switch(line),
            b"link" => self.link(line),
            b"unlink" => self.unlink(line),
            b"setslot" => self.set_slot(line),
            b"setlink" => self.set_link(line),
            b"setrow" => self.set_row(line),
            b"setactive" => self.set_active(line),
            b"marked" => self.marked(line),
            b"setmark" => self.set_mark(line),
            b"slots" => self.shown(line, show::slots),
            b"links" => self.shown(line, show::links),
            b"rows" => self.rows(line),
            b"counters" => self.shown(line, show::counters),
            b"mark" => self.shown(line, show::next_mark),
            b"board" => self.make(line),
            b"lend" => self.lend(line),
            b"frame" => headers::frame(line),
            b"apsframe" => headers::aps_frame(line),
            b"plainframe" => headers::plain_frame(Layer::Network, line),
            b"plainaps" => headers::plain_frame(Layer::Aps, line),
            b"nonce" => headers::nonce(line),
            b"aux" => headers::aux(line),
            b"auth" => headers::auth(line),
            b"clear" => headers::header(
                |out, layer, f, h| frames::lay_plain_header(out, layer, f, h),
                line,
            ),
            b"raise" => headers::header(
                |out, layer, f, h| frames::lay_secured_header(out, layer, f, h),
                line,
            ),
            _ => None,
        }
    }
}

impl Trials {
    fn shown<F: Fn(&Board) -> Answer>(&self, line: &[u8], show: F) -> Option<Answer>
        requires { F.IsAlwaysCallable show }
    {
        numbers(line, b".")?;
        self.board.as_ref().map(show)
    }

    fn rows(&self, line: &[u8]) -> Option<Answer> {
        numbers(line, b".")?;
        let _board = self.board?;
        Some(show::rows(&self.lists))
    }
}
