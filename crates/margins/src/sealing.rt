// Frames sealed, at both layers, and the outgoing counter that it leaves.
use crate::answer::counted;
use crate::lent::{Field, Output, board_at, made_board};
use board::{After, Board};
use lines::{Answer, numbers};

pub(crate) fn seal(line: &[u8]) -> Option<Answer> {
    let [_, room, ..] = numbers(line, b".SG")?;
    let frame = Field::at(line, 2)?;
    left(
        room,
        |out| network::seal_frame(made_board(), frame.as_slice(), out),
    )
}

// By a board with that outgoing counter and that mark.
pub(crate) fn seal_at(line: &[u8]) -> Option<Answer> {
    let [_, room, outgoing, mark, ..] = numbers(line, b".SCCG")?;
    let board = board_of(outgoing, mark)?;
    let frame = Field::at(line, 4)?;
    left(
        room,
        |out| network::seal_frame(board, frame.as_slice(), out),
    )
}

pub(crate) fn seal_aps(line: &[u8]) -> Option<Answer> {
    let [_, room, partner, identifier, ..] = numbers(line, b".SABG")?;
    let identifier = u8::try_from(identifier).ok()?;
    let frame = Field::at(line, 4)?;
    left(
        room,
        |out| aps::seal_frame(made_board(), frame.as_slice(), partner, identifier, out),
    )
}

pub(crate) fn seal_aps_at(line: &[u8]) -> Option<Answer> {
    let [_, room, outgoing, mark, partner, identifier, ..] = numbers(line, b".SCCABG")?;
    let board = board_of(outgoing, mark)?;
    let identifier = u8::try_from(identifier).ok()?;
    let frame = Field::at(line, 6)?;
    left(
        room,
        |out| aps::seal_frame(board, frame.as_slice(), partner, identifier, out),
    )
}

fn board_of(outgoing: u64, mark: u64) -> Option<Board> {
    Some(board_at(u32::try_from(outgoing).ok()?, u32::try_from(mark).ok()?))
}

fn left<F: FnOnce(&mut [u8]) -> After<usize>>(room: u64, seal: F) -> Option<Answer>
    requires { F.IsAlwaysCallable seal }
{
    let mut out = Output::new(room)?;
    let sent = seal(out.lent());
    Some(
        counted(sent.answer)
            .hex(out.as_slice())
            .decimal(u64::from(sent.board.outgoing)),
    )
}
