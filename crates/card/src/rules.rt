// Specifications, rules and the initial plan: row 7 of the refusal table. `marks` tells the nodes that contain a belief atom, and
// those that contain a goal atom; the unknown ones are marked for both.
ghost use Rattle.std.specs.Prelude.{◌≡◌, true, ◌<◌};
ghost use Rattle.runs.specs.Kinds.{kind_number};
ghost use Rattle.meaning.specs.Card.{Bytes};
ghost use Rattle.meaning.specs.Refusals.{every, nodes_good, containing, span_good, specification_good, selection_good, revision_good, rules_good};
ghost use Rattle.layout.specs.Entries.{count_of};
ghost use Rattle.layout.specs.GoodLayout.{TwoByteSpan};
ghost use Rattle.card.specs.Marks.{Marks};
ghost use Rattle.card.specs.Entries.{entry_good};

use crate::nodes::{AtomKind, free_of, mark_nodes};
use layout::bytes::byte_below;
use layout::card::Card;
use layout::header::in_range;
use layout::limits::longest_plan;
use meaning::{Layout, RevisionEntry, SelectionEntry, Span, SpecificationEntry};
use runs::Kind;

// A plan of a length from least to 1,024 that lies within the pool.
fn span_good(l: Layout, least: usize, s: Span) -> bool
    requires { TwoByteSpan s }
    ensures { result ≡ span_good l least s }
{
    in_range(least, longest_plan(), s.length as usize)
        & ((s.start as usize) + (s.length as usize) <= l.pool.count as usize)
}

// "Specification, 36 bytes: action, node, 0, 0, Add, Del."
fn specification_good(l: Layout, marks: &[u8; 256], e: SpecificationEntry) -> bool
    ensures { (b : Bytes) → Marks 2 l b marks.now → result ≡ specification_good (containing 2 l b) l e }
{
    byte_below(e.action, l.actions as usize)
        & free_of(marks, AtomKind::HasGoal, e.node)
        & (e.zero == 0)
}

// "Selection rule, 8 bytes: belief node, goal node, start, length (1..1,024), zero number."
fn selection_good(l: Layout, marks: &[u8; 256], e: SelectionEntry) -> bool
    requires { TwoByteSpan e.plan }
    ensures { (b : Bytes) → Marks 1 l b marks.now → Marks 2 l b marks.now
        → result ≡ selection_good (containing 1 l b) (containing 2 l b) l e }
{
    free_of(marks, AtomKind::HasGoal, e.belief)
        & free_of(marks, AtomKind::Believes, e.goal)
        & span_good(l, 1, e.plan)
        & (e.zero == 0)
}

// "Revision rule, 12 bytes: node, 0, head start, head length (1..1,024), body start, body length (0..1,024), zero number."
fn revision_good(l: Layout, marks: &[u8; 256], e: RevisionEntry) -> bool
    requires { TwoByteSpan e.head × TwoByteSpan e.body }
    ensures { (b : Bytes) → Marks 2 l b marks.now → result ≡ revision_good (containing 2 l b) l e }
{
    free_of(marks, AtomKind::HasGoal, e.node)
        & (e.plain == 0)
        & span_good(l, 1, e.head)
        & span_good(l, 0, e.body)
        & (e.zero == 0)
}

// Whether entry i of a kind keeps its kind's rule: a match that names each kind is as plain as a table.
fn entry_good(card: &Card, marks: &[u8; 256], kind: Kind, i: usize) -> bool
    requires there { i < count_of card.now.layout (kind_number kind) }
    requires marks { Marks 1 card.now.layout card.now.bytes.now marks.now × Marks 2 card.now.layout card.now.bytes.now marks.now }
    ensures { result ≡ entry_good card.now.layout card.now.bytes.now (kind_number kind) i }
{
    match kind {
        Kind::Selection => selection_good(card.layout, marks, card.selection(i)),
        Kind::Action => specification_good(card.layout, marks, card.specification(i)),
        Kind::Revision => revision_good(card.layout, marks, card.revision(i)),
    }
}

// Every entry of a kind.
fn entries_good(card: &Card, marks: &[u8; 256], kind: Kind) -> bool
    requires marks { Marks 1 card.now.layout card.now.bytes.now marks.now × Marks 2 card.now.layout card.now.bytes.now marks.now }
    ensures { result ≡ every (count_of card.now.layout (kind_number kind)) (entry_good card.now.layout card.now.bytes.now (kind_number kind)) }
{
    let mut good = true;
    for i in 0..card.count_of(kind) {
        good &= entry_good(card, marks, kind, i);
    }
    good
}

// Not row 7: every entry and the initial plan keep their rules.
pub fn rules_good(card: &Card) -> bool
    requires { (nodes_good card.now.layout card.now.bytes.now ≡ true) × TwoByteSpan card.now.layout.initial }
    ensures { result ≡ rules_good (containing 1 card.now.layout card.now.bytes.now) (containing 2 card.now.layout card.now.bytes.now) card.now.layout card.now.bytes.now }
{
    let mut marks = [3; 256];
    mark_nodes(card, &mut marks);
    entries_good(card, &marks, Kind::Action)
        & entries_good(card, &marks, Kind::Selection)
        & entries_good(card, &marks, Kind::Revision)
        & span_good(card.layout, 0, card.layout.initial)
}
