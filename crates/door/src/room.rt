// The room of a lent list or place buffer: row 12 of the refusal table.
ghost use Rattle.std.specs.Prelude.{◌≡◌, leb};
ghost use Rattle.meaning.specs.declared.Refusal.{Refusal};
ghost use Rattle.card.specs.Rows.{row_answer};

use card::check::row;
use meaning::{Answer, Refusal};

// Row 12: "the lent list or place buffer is too short" for n entries or bytes.
pub fn judge_room(n: usize, room: usize) -> Answer
    ensures { result ≡ row_answer (leb n room) Refusal.NoRoom }
{
    row(n <= room, Refusal::NoRoom)
}
