// A card's nodes and rules in flat tables (02, Wish 12: "it unpacks nodes and rules into flat tables of 256 entries").
ghost use Rattle.std.specs.Prelude.{◌≡◌, ℕ, ◌≤◌, ◌<◌, slice_index_or};
ghost use Rattle.unpacked.specs.Tables.{Tabled, specified_at};

use layout::card::Card;
use meaning::{Node, RevisionEntry, SelectionEntry, Span};

// Of a specification its action and its node; Add and Del are read from the card.
#[derive(Clone, Copy)]
pub struct Specified {
    pub action: u8,
    pub node: u8,
}

// The four tables.
#[derive(Clone, Copy)]
pub struct Tables {
    pub nodes: [Node; 256],
    pub specifications: [Specified; 256],
    pub selections: [SelectionEntry; 256],
    pub revisions: [RevisionEntry; 256],
}

// What stands in a table past the card's last node, specification, selection rule and revision rule.
const NO_NODE: Node = Node {
    kind: 0,
    a: 0,
    b: 0,
    zero: 0,
};

const NO_SPECIFICATION: Specified = Specified { action: 0, node: 0 };

const NO_SPAN: Span = Span {
    start: 0,
    length: 0,
};

const NO_SELECTION: SelectionEntry = SelectionEntry {
    belief: 0,
    goal: 0,
    plan: NO_SPAN,
    zero: 0,
};

const NO_REVISION: RevisionEntry = RevisionEntry {
    node: 0,
    plain: 0,
    head: NO_SPAN,
    body: NO_SPAN,
    zero: 0,
};

// The table that has under each number below n what is read there, and none past them.
pub(crate) fn table<T: Copy, F: Fn(usize) -> T>(none: T, n: usize, read: F) -> [T; 256]
    requires room { n ≤ 256 }
    requires callable { (i : ℕ) → i < n → F.pre read i }
    ensures { (i : ℕ) → i < n → F.post read i (slice_index_or result i none) }
{
    let mut entries = [none; 256];
    for i in 0..n {
        entries[i] = read(i);
    }
    entries
}

// Action and node of a specification.
fn read_specified(card: &Card, i: usize) -> Specified
    requires { i < card.now.layout.specifications.count }
    ensures { result ≡ specified_at card.now.layout card.now.bytes.now i }
{
    let e = card.specification(i);
    Specified {
        action: e.action,
        node: e.node,
    }
}

// All four, of an accepted card.
pub fn unpack_card(card: &Card) -> Tables
    ensures { Tabled card.now.layout card.now.bytes.now result }
{
    Tables {
        nodes: table(NO_NODE, card.layout.nodes.count as usize, |i| card.node(i)),
        specifications: table(
            NO_SPECIFICATION,
            card.layout.specifications.count as usize,
            |i| read_specified(card, i),
        ),
        selections: table(
            NO_SELECTION,
            card.layout.selections.count as usize,
            |i| card.selection(i),
        ),
        revisions: table(
            NO_REVISION,
            card.layout.revisions.count as usize,
            |i| card.revision(i),
        ),
    }
}
