// Sending a sealed frame: who sends it, whether it may go out, and the counter behind it.
ghost use Rattle.std.specs.Prelude.{◌≡◌};
ghost use Rattle.answers.specs.Numbers.{told, told_sealed};
ghost use Rattle.board.specs.Sending.{sending_of, may_send, counter_after};

use crate::{Board, Sending};
use answers::Refusal;
use settings::TOP;

// What sealing needs of the board.
pub fn sending_of(board: Board) -> Sending
    ensures { result ≡ sending_of board }
{
    Sending {
        own: board.own,
        counter: board.outgoing,
        mark: board.mark,
    }
}

// Whether a frame may go out: 7 where the counter is at its top, then 17 where it is not below the mark.
#[tactic(auto, unfolding(crate::specs::Sending::may_send))]
pub fn may_send(sending: Sending) -> Result<(), Refusal>
    ensures { told result ≡ may_send sending }
{
    if sending.counter == TOP {
        return Err(Refusal::Top);
    }
    if sending.mark <= sending.counter {
        return Err(Refusal::Mark);
    }
    Ok(())
}

// The outgoing counter behind an answer: sealing raises it by 1, and at its top it stays.
pub fn counter_after(answer: Result<usize, Refusal>, counter: u32) -> u32
    ensures { result ≡ counter_after (told_sealed answer) counter }
{
    match answer {
        Ok(_) => counter.saturating_add(1),
        Err(_) => counter,
    }
}
