// A text card read: the card that it stands for, written to a lent buffer.
ghost use Rattle.std.specs.Prelude.{length};
ghost use Rattle.notation.specs.Reading.{Reads};
ghost use Rattle.notation.specs.Values.{items_of};
ghost use Rattle.door.specs.InPlace.{written_by};
ghost use Rattle.lines.specs.Lines.{Blank};
ghost use Rattle.reader.specs.Written.{WroteLines};

use crate::write::write_made;
use conditions::read::Nested;
use door::in_place::{WrittenInPlace, written};
use lines::lines::read_lines;
use meaning::Refusal;
use scan::lines::scan_text;

// The lines of a text, read into a blank card, and what they make.
fn read_into(text: &[u8], card: &mut [u8], out: &mut [u8]) -> Result<u16, Refusal>
    requires { Blank card.old }
    ensures { WroteLines (items_of (length text.now) text.now) out.old (written_by result) out.new }
{
    match read_lines(text, card) {
        Ok(m) => write_made(card, m, out),
        Err(Nested) => Err(Refusal::Nested),
    }
}

// A text of the grammar, read into the largest card's bytes, with nothing in them.
fn read_text(text: &[u8], out: &mut [u8]) -> Result<u16, Refusal>
    ensures { WroteLines (items_of (length text.now) text.now) out.old (written_by result) out.new }
{
    let mut card = [0; 24128];
    read_into(text, &mut card, out)
}

// Any bytes: how many bytes the card has, or the refusal.
fn read_any(text: &[u8], out: &mut [u8]) -> Result<u16, Refusal>
    ensures { Reads text.now out.old (written_by result).answer (written_by result).count out.new }
{
    match scan_text(text) {
        Ok(()) => read_text(text, out),
        Err(wrong) => Err(Refusal::Text(wrong.at)),
    }
}

// Any bytes: 02, Wish 2: "The reader accepts exactly this grammar and builds an edition 1 card". A refusal writes nothing.
pub fn read(text: &[u8], out: &mut [u8]) -> WrittenInPlace
    ensures { Reads text.now out.old result.answer result.count out.new }
{
    written(read_any(text, out))
}
