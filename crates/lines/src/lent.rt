// What a line lends of what its program stores: an output, or a list. The second fact of the contract is what
// a part of that length asks for.
ghost use Rattle.std.specs.Prelude.{◌≡◌, ◌≤◌, min, length, take};

// As many elements as are lent, and no more than there are.
pub fn lent_of<T>(lent: usize, list: &[T]) -> usize
    ensures value { result ≡ min lent (length list.now) }
    ensures upper_bound { (result ≤ length list.now) × (result ≡ length (take result list.now)) }
{
    lent.min(list.len())
}

// The two lists of heard senders, of N rows each, and how many rows of each are lent: two arrays, as a host lends
// them.
#[derive(Clone, Copy)]
pub struct Lists<const N: usize> {
    pub addrs: [u64; N],
    pub floors: [u32; N],
    pub rows: usize,
    pub tops: usize,
}

impl<const N: usize> Lists<N> {
    ghost use Rattle.std.specs.Prelude.{replicate};

    // Fresh lists, of which so many rows are lent.
    pub fn new(rows: usize, tops: usize) -> Self
        ensures addrs { result.addrs ≡ replicate N 0 }
        ensures floors { result.floors ≡ replicate N 0 }
        ensures lent { (result.rows ≡ rows) × (result.tops ≡ tops) }
    {
        Lists {
            addrs: [0; N],
            floors: [0; N],
            rows,
            tops,
        }
    }

    // The rows that are lent, and no more than there are. No clause says what becomes of the lists behind
    // the two: that is what the borrower writes there.
    pub fn lent(&mut self) -> (&mut [u64], &mut [u32])
        ensures addrs { result.0.now ≡ take self.old.rows self.old.addrs }
        ensures floors { result.1.now ≡ take self.old.tops self.old.floors }
    {
        let rows = self.rows;
        let tops = self.tops;
        (
            front_of(&mut self.addrs, rows),
            front_of(&mut self.floors, tops),
        )
    }
}

// The first n elements of the list, or all of it where it has fewer.
fn front_of<T, const N: usize>(list: &mut [T; N], n: usize) -> &mut [T]
    ensures { result.now ≡ take n list.old }
{
    &mut list[..n.min(N)]
}

#[cfg(test)]
mod tests {
    use super::*;

    // What a borrower writes into the rows that were lent stands in the lists. The rows behind them stay, and so does how
    // much is lent.
    #[test]
    fn lent_rows_are_written(rt: HostRuntime) {
        let mut lists: Lists<3> = Lists::new(2, 1);
        lists.addrs = [1, 2, 3];
        lists.floors = [4, 5, 6];
        let (addrs, floors) = lists.lent();
        addrs.fill(7);
        floors.fill(8);
        assert_eq!(rt; lists.addrs, [7, 7, 3]);
        assert_eq!(rt; lists.floors, [8, 5, 6]);
        assert_eq!(rt; (lists.rows, lists.tops), (2, 1));
    }

    // No more are lent than there are.
    #[test]
    fn all_rows_are_lent(rt: HostRuntime) {
        let mut lists: Lists<3> = Lists::new(3, 9);
        let (addrs, floors) = lists.lent();
        addrs.fill(7);
        floors.fill(8);
        assert_eq!(rt; lists.addrs, [7, 7, 7]);
        assert_eq!(rt; lists.floors, [8, 8, 8]);
        assert_eq!(rt; (lists.rows, lists.tops), (3, 9));
    }
}
