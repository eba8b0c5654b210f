// What a request that hands nothing back leaves: done or refused, beside the board.
ghost use Rattle.std.specs.Prelude.{◌≡◌};
ghost use Rattle.answers.specs.Numbers.{told, done, refused, number_of};
ghost use Rattle.board.specs.Requests.{changed};

use crate::{After, Board};
use answers::Refusal;

pub(crate) fn did(board: Board) -> After<()>
    ensures { changed (told result.answer) result.board ≡ changed done board }
{
    After {
        answer: Ok(()),
        board,
    }
}

pub(crate) fn refuse(why: Refusal, board: Board) -> After<()>
    ensures { changed (told result.answer) result.board ≡ changed (refused (number_of why)) board }
{
    After {
        answer: Err(why),
        board,
    }
}
