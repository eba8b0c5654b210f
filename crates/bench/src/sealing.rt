// Frames sealed, at both layers.
use crate::desk::{Bench, Field, laid};
use lines::{Answer, lent_of, numbers};

impl Bench {
    pub(crate) fn seal(&mut self, line: &[u8]) -> Option<Answer> {
        numbers(line, b".F")?;
        let frame = Field::at(line, 1)?;
        let mut out = [0; 256];
        let room = lent_of(self.room, &out);
        let sent = network::seal_frame(self.board?, frame.as_slice(), &mut out[..room]);
        Some(laid(self.left(sent), &out))
    }

    pub(crate) fn seal_aps(&mut self, line: &[u8]) -> Option<Answer> {
        let [_, partner, identifier, ..] = numbers(line, b".ABF")?;
        let identifier = u8::try_from(identifier).ok()?;
        let frame = Field::at(line, 3)?;
        let mut out = [0; 256];
        let room = lent_of(self.room, &out);
        let board = self.board?;
        let sent = aps::seal_frame(
            board,
            frame.as_slice(),
            partner,
            identifier,
            &mut out[..room],
        );
        Some(laid(self.left(sent), &out))
    }
}
