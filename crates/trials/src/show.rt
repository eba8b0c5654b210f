// The tables, told whole: also what a free place holds.
use board::{Board, Link, Slot};
use lines::{Answer, Lists};

pub(crate) fn counters(b: &Board) -> Answer {
    Answer::done()
        .address(b.own)
        .decimal(u64::from(b.outgoing))
        .decimal(u64::from(b.aps))
        .decimal(u64::from(b.mark))
}

pub(crate) fn next_mark(b: &Board) -> Answer {
    Answer::done().decimal(u64::from(board::next_mark(*b)))
}

pub(crate) fn slots(b: &Board) -> Answer {
    b.slots
        .iter()
        .fold(Answer::done(), slot)
        .decimal_or(b.active.map(|i| i as u64), b"-")
}

fn slot(a: Answer, s: &Slot) -> Answer {
    a.decimal(u64::from(s.present))
        .decimal(u64::from(s.seq))
        .hex(&s.key)
}

pub(crate) fn links(b: &Board) -> Answer {
    b.links.iter().fold(Answer::done(), link)
}

fn link(a: Answer, l: &Link) -> Answer {
    a.decimal(u64::from(l.present))
        .address(l.partner)
        .hex(&l.key)
        .decimal(u64::from(l.floor))
}

// A row that is zero in both lists is not told.
pub(crate) fn rows<const N: usize>(lists: &Lists<N>) -> Answer {
    let mut a = Answer::done();
    for (r, (&sender, &floor)) in lists.addrs.iter().zip(&lists.floors).enumerate() {
        if sender != 0 || floor != 0 {
            a = a
                .decimal(r as u64)
                .address(sender)
                .decimal(u64::from(floor));
        }
    }
    a
}
