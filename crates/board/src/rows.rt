// The two lent lists: searched, changed in one row, freed.
ghost use Rattle.std.specs.Prelude.{◌≡◌, ◌+◌, ◌-◌, ◌≤◌, min, length, set};
ghost use Rattle.answers.specs.Numbers.{told};
ghost use Rattle.board.specs.Rows.{lists, lists_fit, find_row, freed};
ghost use Rattle.board.specs.Requests.{freeing};
ghost use Rattle.board.specs.Requests.{forget};

use answers::Refusal;
use settings::{LONGEST_LIST, SHORTEST_LIST};

// Whether both lists have one length, and that is even and from 2 to 1,024.
#[tactic(auto, unfolding(crate::specs::Rows::lists_fit, crate::specs::Rows::legal))]
pub fn lists_fit(addrs: &[u64], floors: &[u32]) -> bool
    ensures { result ≡ lists_fit (lists addrs.now floors.now) }
{
    let n = addrs.len();
    (SHORTEST_LIST..=LONGEST_LIST).contains(&n) && n % 2 == 0 && floors.len() == n
}

// The lowest of the n rows from place from on, so far as the list has them, with that address.
pub fn find_row(addrs: &[u64], from: usize, n: usize, address: u64) -> Option<usize>
    ensures { result ≡ find_row addrs.now from n address }
{
    let mut rows = addrs.iter().skip(from).take(n);
    rows.position(|a| *a == address).map(|r| from + r)
}

// Row r gets x; a list that has no such row stays.
fn put<T: Copy>(list: &mut [T], r: usize, x: T)
    ensures { list.new ≡ set list.old r x }
{
    if r < list.len() {
        list[r] = x;
    }
}

// The same of both lists: an address and a floor.
pub(crate) fn put_row(addrs: &mut [u64], floors: &mut [u32], r: usize, address: u64, floor: u32)
    ensures addrs_after { addrs.new ≡ set addrs.old r address }
    ensures floors_after { floors.new ≡ set floors.old r floor }
{
    put(addrs, r, address);
    put(floors, r, floor);
}

// The n rows of a slot from place from on, freed in both lists.
pub(crate) fn free_rows(addrs: &mut [u64], floors: &mut [u32], from: usize, n: usize)
    requires { (from + n ≤ length addrs.old) × (from + n ≤ length floors.old) }
    ensures addrs_after { addrs.new ≡ freed addrs.old from n }
    ensures floors_after { floors.new ≡ freed floors.old from n }
{
    addrs[from..from + n].fill(0);
    floors[from..from + n].fill(0);
}

// Forgets a sender of a slot: its row is freed. 1 where the lists don't fit, 14 for a slot above 1,
// 13 where the sender is not there.
#[tactic(auto, unfolding(crate::specs::Requests::forget))]
pub fn forget(
    addrs: &mut [u64],
    floors: &mut [u32],
    slot: usize,
    sender: u64,
) -> Result<(), Refusal>
    ensures { freeing (told result) (lists addrs.new floors.new) ≡ forget (lists addrs.old floors.old) slot sender }
{
    if !lists_fit(addrs, floors) {
        return Err(Refusal::Room);
    }
    let rows = addrs.len() / 2;
    if 1 < slot {
        return Err(Refusal::Argument);
    }
    if sender == 0 {
        return Err(Refusal::Absent);
    }
    let r = find_row(addrs, slot * rows, rows, sender).ok_or(Refusal::Absent)?;
    put_row(addrs, floors, r, 0, 0);
    Ok(())
}
