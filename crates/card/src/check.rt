// The check: rows 1 to 9 of the refusal table in their order, for every byte string.
ghost use Rattle.std.specs.Prelude.{◌≡◌, true, ◌≤◌, length};
ghost use Rattle.meaning.specs.Refusals.{card_mark_good, card_long_enough};
ghost use Rattle.meaning.specs.Calls.{checks};
ghost use Rattle.card.specs.Accepted.{Accepted};
ghost use Rattle.card.specs.Rows.{row_answer, HeaderRead, answer_of};

use crate::contents::{pool_good, sets_good, weights_good};
use crate::nodes::nodes_good;
use crate::rules::rules_good;
use layout::bytes::{has_edition, mark_good, number_at, two_bytes_at};
use layout::card::Card;
use layout::header::{counts_good, offsets_good, read_layout};
use layout::sizes::edition_header;
use meaning::{Answer, Checked, Refusal};

// The answer of one row.
pub fn row(good: bool, refusal: Refusal) -> Answer
    ensures { result ≡ row_answer good refusal }
{
    if good { Ok(()) } else { Err(refusal) }
}

// Not row 2: "bytes 33 41 hex", and the edition is 1 or 2.
fn card_mark_good(card: &[u8]) -> bool
    requires { 4 ≤ length card.now }
    ensures { result ≡ card_mark_good card.now }
{
    let edition = number_at(card, 2);
    mark_good(card, 0x41) & ((edition == 1) | (edition == 2))
}

// Not row 1: a card has all of its edition's header.
fn long_enough(card: &[u8]) -> bool
    requires { 4 ≤ length card.now }
    ensures { (result ≡ card_long_enough card.now) × (result ≡ true → 32 ≤ length card.now) }
{
    edition_header(two_bytes_at(card, 2)) <= card.len()
}

// "a file under 4 bytes is 1, then a wrong mark or edition is 2, then one shorter than its edition's header is 1": the layout that
// a header says, or the refusal.
fn read_header(card: &[u8]) -> Checked
    ensures { HeaderRead card.now result }
{
    row(has_edition(card), Refusal::Short)?;
    row(card_mark_good(card), Refusal::Mark)?;
    row(long_enough(card), Refusal::Short)?;
    Ok(read_layout(card))
}

// The card that bytes are, once each row of the table has passed in its order, or the refusal.
pub fn accept(bytes: &[u8]) -> Result<Card<'_>, Refusal>
    ensures { Accepted bytes.entry.now result }
{
    let layout = read_header(bytes)?;
    row(counts_good(layout), Refusal::Count)?;
    row(offsets_good(layout, bytes.len()), Refusal::Offsets)?;
    let card = Card { bytes, layout };
    row(weights_good(&card), Refusal::Weight)?;
    row(nodes_good(&card), Refusal::Node)?;
    row(rules_good(&card), Refusal::Rule)?;
    row(pool_good(&card), Refusal::ActionByte)?;
    row(sets_good(&card), Refusal::Atom)?;
    Ok(card)
}

// A card's layout, or the refusal.
pub fn check(card: &[u8]) -> Checked
    ensures { result ≡ checks card.now }
{
    match accept(card) {
        Ok(accepted) => Ok(accepted.layout),
        Err(refusal) => Err(refusal),
    }
}

// The answer of a checked card: done, or the refusal.
pub fn answer_of<T: Copy>(v: Result<T, Refusal>) -> Answer
    ensures { result ≡ answer_of v }
{
    match v {
        Ok(_) => Ok(()),
        Err(refusal) => Err(refusal),
    }
}
