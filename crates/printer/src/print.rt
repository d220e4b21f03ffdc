// The printer's one call: a condition of a card, by its node, as text in a lent buffer.
ghost use Rattle.std.specs.Prelude.{◌≡◌, ◌<◌, leb};
ghost use Rattle.meaning.specs.declared.Refusal.{Refusal};
ghost use Rattle.meaning.specs.Refusals.{and_then};
ghost use Rattle.card.specs.GoodCard.{GoodCard};
ghost use Rattle.card.specs.Rows.{row_answer};
ghost use Rattle.door.specs.InPlace.{written_by};
ghost use Rattle.notation.specs.Printing.{Prints};
ghost use Rattle.printer.specs.Answers.{NodePrinted};

use crate::measure::measure;
use crate::write::write_text;
use card::check::{accept, row};
use door::in_place::{WrittenInPlace, written};
use door::room::judge_room;
use layout::card::Card;
use meaning::{Answer, Refusal};

// "18 if the text nests more than 32 deep; 25 if it has more than 256 nodes"
fn judge_measures(depth: u8, size: u16) -> Answer
    ensures { result ≡ and_then (row_answer (leb depth 32) Refusal.Nested) (row_answer (leb size 256) Refusal.Large) }
{
    row(depth <= 32, Refusal::Nested)?;
    row(size <= 256, Refusal::Large)
}

// A node of an accepted card: how many bytes its text has, or the refusal.
fn print_node(card: &Card, node: usize, out: &mut [u8]) -> Result<u16, Refusal>
    requires { GoodCard card.now.layout card.now.bytes.now × (node < card.now.layout.nodes.count) }
    ensures { NodePrinted card.now.layout card.now.bytes.now node out.old (written_by result).answer (written_by result).count out.new }
{
    let m = measure(card, node);
    judge_measures(m.depth, m.size)?;
    judge_room(m.length as usize, out.len())?;
    write_text(card, node, out);
    Ok(m.length)
}

// Any card's node.
fn print_any(card: &[u8], node: usize, out: &mut [u8]) -> Result<u16, Refusal>
    ensures { Prints card.now node out.old (written_by result).answer (written_by result).count out.new }
{
    let card = accept(card)?;
    row(node < (card.layout.nodes.count as usize), Refusal::Rule)?;
    print_node(&card, node, out)
}

// The text of a card's node in a lent buffer; how many bytes it has. A refusal writes nothing.
pub fn print(card: &[u8], node: usize, out: &mut [u8]) -> WrittenInPlace
    ensures { Prints card.now node out.old result.answer result.count out.new }
{
    written(print_any(card, node, out))
}
