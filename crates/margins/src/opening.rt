// Frames opened, at both layers, and what that leaves.
use crate::answer::opened;
use crate::lent::{Field, Output, made_board, made_lists};
use lines::{Answer, Lists, lent_of, numbers};

pub(crate) fn open(line: &[u8]) -> Option<Answer> {
    let [_, room, ..] = numbers(line, b".SG")?;
    open_in(room, 64, 64, Field::at(line, 2)?.as_slice())
}

// A list has no more rows than are stored.
pub(crate) fn hall(line: &[u8]) -> Option<Answer> {
    let [_, room, rows, tops, ..] = numbers(line, b".SSSG")?;
    if rows > 1026 || tops > 1026 {
        return None;
    }
    open_in(
        room,
        rows as usize,
        tops as usize,
        Field::at(line, 4)?.as_slice(),
    )
}

fn open_in(room: u64, rows: usize, tops: usize, frame: &[u8]) -> Option<Answer> {
    let mut out = Output::new(room)?;
    let made = made_lists(rows, tops);
    let mut lists = made;
    let rows = lent_of(lists.rows, &lists.addrs);
    let tops = lent_of(lists.tops, &lists.floors);
    let found = network::open_frame(
        made_board(),
        frame,
        &mut lists.addrs[..rows],
        &mut lists.floors[..tops],
        out.lent(),
    );
    let a = opened(found).hex(out.as_slice());
    Some(changed_rows(a, &made, &lists))
}

// Of all rows, lent or not, those that are not as they were.
fn changed_rows<const N: usize>(a: Answer, before: &Lists<N>, after: &Lists<N>) -> Answer {
    let mut told = a;
    let was = before.addrs.iter().zip(&before.floors);
    let is = after.addrs.iter().zip(&after.floors);
    for (r, (was, (&sender, &floor))) in was.zip(is).enumerate() {
        if was != (&sender, &floor) {
            told = told
                .decimal(r as u64)
                .address(sender)
                .decimal(u64::from(floor));
        }
    }
    told
}

// Behind the output stand the floors of the two link entries that are there.
pub(crate) fn open_aps(line: &[u8]) -> Option<Answer> {
    let [_, room, given, ..] = numbers(line, b".SAG")?;
    let frame = Field::at(line, 3)?;
    let mut out = Output::new(room)?;
    let received = aps::open_frame(made_board(), frame.as_slice(), given, out.lent());
    let [first, second, ..] = received.board.links;
    Some(
        opened(received.answer)
            .hex(out.as_slice())
            .decimal(u64::from(first.floor))
            .decimal(u64::from(second.floor)),
    )
}
