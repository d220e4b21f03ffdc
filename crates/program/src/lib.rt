// A deliberation program: its entries, judged for a card by row 19 (02, Wish 6). Whatever its bytes, the answer is document 02's.
#![tactic(auto)]

ghost use Rattle.std.specs.Prelude.{◌≡◌, ◌&&◌, ◌+◌, ◌*◌, ◌≤◌, ltb, length};
ghost use Rattle.meaning.specs.declared.Refusal.{Refusal};
ghost use Rattle.meaning.specs.Card.{Bytes};
ghost use Rattle.meaning.specs.Refusals.{every, containing};
ghost use Rattle.card.specs.Marks.{Marks};
ghost use Rattle.card.specs.Rows.{row_answer};
ghost use Rattle.card.specs.GoodCard.{GoodCard};
ghost use Rattle.deliberation.specs.Kinds.{entry_kind};
ghost use Rattle.deliberation.specs.Entries.{entry_of, length_good, kind_good, entry_good, program_good};

use card::check::row;
use card::nodes::{AtomKind, free_of, mark_nodes};
use layout::bytes::byte_below;
use layout::card::Card;
use layout::header::in_range;
use meaning::{Answer, Layout, Node, Refusal};

// "entries shaped like nodes": entry i.
pub fn read_entry(program: &[u8], i: usize) -> Node
    requires { 4 * i + 4 ≤ length program.now }
    ensures { result ≡ entry_of program.now i }
{
    let at = 4 * i;
    Node {
        kind: program[at],
        a: program[at + 1],
        b: program[at + 2],
        zero: program[at + 3],
    }
}

// "1 to 128 entries", of 4 bytes each and no byte more.
fn length_good(n: usize) -> bool
    ensures { result ≡ length_good n }
{
    in_range(1, 128, n / 4) & (n % 4 == 0)
}

// Whether entry i keeps the rule of its kind: "unused bytes are 0, part numbers are lower than their own". The nodes that contain a
// goal atom are marked, and the unknown ones.
fn kind_good(e: Node, l: Layout, marks: &[u8; 256], i: usize) -> bool
    ensures { (b : Bytes) → Marks 2 l b marks.now
        → result ≡ ltb e.kind 7 && kind_good (containing 2 l b) l i (entry_kind e.kind) e.a e.b }
{
    match e.kind {
        0 => (e.a == 0) & (e.b == 0),
        1 => byte_below(e.a, l.revisions.count as usize) & (e.b == 0),
        2 => byte_below(e.a, l.selections.count as usize) & (e.b == 0),
        3 => (e.a == 0) & byte_below(e.b, i),
        4 => free_of(marks, AtomKind::HasGoal, e.a) & byte_below(e.b, i),
        5..=6 => byte_below(e.a, i) & byte_below(e.b, i),
        _ => false,
    }
}

// Every entry, "used or not".
fn entries_good(program: &[u8], l: Layout, marks: &[u8; 256], n: usize) -> bool
    requires { 4 * n ≤ length program.now }
    ensures { (b : Bytes) → Marks 2 l b marks.now
        → result ≡ every n (λ i. entry_good (containing 2 l b) l i (entry_of program.now i)) }
{
    let mut good = true;
    for i in 0..n {
        let e = read_entry(program, i);
        good &= kind_good(e, l, marks, i) & (e.zero == 0);
    }
    good
}

// Not row 19: "a program breaking these rules or naming an unknown rule or node".
fn program_good(card: &Card, program: &[u8]) -> bool
    requires { GoodCard card.now.layout card.now.bytes.now }
    ensures { result ≡ program_good (containing 2 card.now.layout card.now.bytes.now) card.now.layout program.now }
{
    let n = program.len();
    if !length_good(n) {
        return false;
    }
    let mut marks = [3; 256];
    mark_nodes(card, &mut marks);
    entries_good(program, card.layout, &marks, n / 4)
}

// Row 19, of an accepted card.
pub fn judge_program(card: &Card, program: &[u8]) -> Answer
    requires { GoodCard card.now.layout card.now.bytes.now }
    ensures { result ≡ row_answer (program_good (containing 2 card.now.layout card.now.bytes.now) card.now.layout program.now) Refusal.Program }
{
    row(program_good(card, program), Refusal::Program)
}
