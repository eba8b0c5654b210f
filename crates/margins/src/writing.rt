// A command written, and the APS counter that it leaves. None of the commands here has a key or a hash.
use crate::answer::counted;
use crate::lent::{Field, Output, made_board};
use commands::Command;
use lines::{Answer, numbers};

pub(crate) fn remove(line: &[u8]) -> Option<Answer> {
    let [_, room, target, ..] = numbers(line, b".SA")?;
    write(room, true, Command::RemoveDevice(target), b"")
}

pub(crate) fn tunnel(line: &[u8]) -> Option<Answer> {
    let [_, room, destination, ..] = numbers(line, b".SAG")?;
    write(
        room,
        false,
        Command::Tunnel(destination),
        Field::at(line, 3)?.as_slice(),
    )
}

pub(crate) fn down(line: &[u8]) -> Option<Answer> {
    let [_, room, ..] = numbers(line, b".SG")?;
    write(
        room,
        true,
        Command::RelayDownstream,
        Field::at(line, 2)?.as_slice(),
    )
}

fn write(room: u64, acknowledged: bool, command: Command, rest: &[u8]) -> Option<Answer> {
    let mut out = Output::new(room)?;
    let wrote = commands::write_command(made_board(), acknowledged, command, b"", rest, out.lent());
    Some(
        counted(wrote.answer)
            .hex(out.as_slice())
            .decimal(u64::from(wrote.board.aps)),
    )
}
