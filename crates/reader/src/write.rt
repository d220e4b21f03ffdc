// A card that a text stands for, checked and written to a lent buffer: how many bytes it has, or the refusal.
ghost use Rattle.std.specs.Prelude.{◌≡◌, ◌≤◌, length};
ghost use Rattle.door.specs.InPlace.{written_by};
ghost use Rattle.lines.specs.InPlace.{Bounded, made_in};
ghost use Rattle.reader.specs.Written.{WroteCard, WroteMade};

use crate::assemble::assemble;
use card::check::check;
use door::room::judge_room;
use lines::made::Made;
use meaning::Refusal;

// A card, if it is good and there is room for it. A refusal writes nothing.
fn write_card(card: &[u8], out: &mut [u8]) -> Result<u16, Refusal>
    requires { length card.now ≤ 24128 }
    ensures { WroteCard card.now out.old (written_by result) out.new }
{
    check(card)?;
    let n = card.len();
    judge_room(n, out.len())?;
    out[..n].copy_from_slice(card);
    Ok(n as u16)
}

// What was made of the lines, if nothing was too large, as a card.
pub fn write_made(card: &mut [u8], m: Made, out: &mut [u8]) -> Result<u16, Refusal>
    requires { Bounded m × (length card.old ≡ 24128) }
    ensures { WroteMade (made_in m card.old) out.old (written_by result) out.new }
{
    if m.large {
        return Err(Refusal::Large);
    }
    let n = assemble(card, m);
    write_card(&card[0..n], out)
}
