// Labels read and printed, which need no board.
use crate::desk::{Bench, Field};
use lines::{Answer, lent_of, numbers, refused};

// A label's text stands in its line as it is.
pub(crate) fn label(line: &[u8]) -> Option<Answer> {
    numbers(line, b".X")?;
    Some(match labels::read_label(text::field(line, 1)) {
        Ok(label) => Answer::done()
            .hex(text::front(&label.code, label.length))
            .hex(&label.key),
        Err(why) => refused(why),
    })
}

impl Bench {
    pub(crate) fn print(&self, line: &[u8]) -> Option<Answer> {
        numbers(line, b".F")?;
        let code = Field::at(line, 1)?;
        let mut out = [0; 256];
        let room = lent_of(self.room, &out);
        Some(
            match labels::print_label(code.as_slice(), &mut out[..room]) {
                Ok(n) => Answer::done().word(text::front(&out, n)),
                Err(why) => refused(why),
            },
        )
    }
}
