// The mark, moved ahead in steps. A step is two requests, and between them the host writes: a board
// that lost power then starts above every counter that it sent, wherever the cut fell.
ghost use Rattle.std.specs.Prelude.{◌≡◌};
ghost use Rattle.answers.specs.Numbers.{told};
ghost use Rattle.board.specs.Mark.{next_mark, with_mark, move_mark};
ghost use Rattle.board.specs.Requests.{changed};

use crate::answered::{did, refuse};
use crate::{After, Board};
use answers::Refusal;
use settings::MARK_STEP;

// The first request of a step: the next mark, which the host now writes. At the top it stays.
#[tactic(auto, unfolding(crate::specs::Mark::next_mark))]
pub fn next_mark(board: Board) -> u32
    ensures { result ≡ next_mark board.mark }
{
    board.mark.saturating_add(MARK_STEP)
}

// The board that the definition of the second request names.
fn with_mark(board: Board, mark: u32) -> Board
    ensures { result ≡ with_mark board mark }
{
    Board { mark, ..board }
}

// The second request: the store now holds that mark. Only if it is the next one is it the board's;
// any other is 14.
#[tactic(auto, unfolding(crate::specs::Mark::move_mark))]
pub fn move_mark(board: Board, stored: u32) -> After<()>
    ensures { changed (told result.answer) result.board ≡ move_mark board stored }
{
    if stored == next_mark(board) {
        return did(with_mark(board, stored));
    }
    refuse(Refusal::Argument, board)
}
