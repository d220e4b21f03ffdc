// The entries of a card's sections, by their numbers; its weights and its initial sets.
ghost use Rattle.std.specs.Prelude.{◌≡◌, ◌+◌, ◌≤◌, ◌<◌};
ghost use Rattle.paper.specs.Atoms.{◌∪◌, ◌∖◌};
ghost use Rattle.runs.specs.Kinds.{kind_number};
ghost use Rattle.meaning.specs.Card.{entry_at, weight_at, node_at, specification_at, selection_at, revision_at, initial_beliefs, initial_goals};
ghost use Rattle.meaning.specs.Sizes.{set_bytes, specification_bytes};
ghost use Rattle.meaning.specs.Refusals.{end_of};
ghost use Rattle.layout.specs.GoodLayout.{TwoByteSpan};
ghost use Rattle.layout.specs.Entries.{count_of};

use crate::bytes::{add_set, number_at, remove_set, set_at, two_bytes_at};
use crate::card::Card;
use crate::header::read_span;
use crate::sizes::{del_at, goals_at, header_bytes, specification_bytes};
use meaning::{Layout, Node, RevisionEntry, Section, SelectionEntry, Set, SpecificationEntry};
use runs::Kind;

// Where entry i of a section stands, whose entries have a size: it ends within the section.
fn entry_at(s: Section, size: usize, i: usize) -> usize
    requires { (i < s.count) × (end_of size s ≤ 65535) }
    ensures { (result ≡ entry_at size s i) × (result + size ≤ end_of size s) }
{
    (s.offset as usize) + size * i
}

// Where specification i stands.
pub fn specification_at(l: Layout, i: usize) -> usize
    requires { (i < l.specifications.count) × (end_of (specification_bytes (set_bytes l)) l.specifications ≤ 65535) }
    ensures value { result ≡ entry_at (specification_bytes (set_bytes l)) l.specifications i }
    ensures l_bound { result + specification_bytes (set_bytes l) ≤ end_of (specification_bytes (set_bytes l)) l.specifications }
{
    entry_at(l.specifications, specification_bytes(l), i)
}

// Where action i of the pool stands: "The pool is one byte an action."
pub fn pool_at(l: Layout, i: u16) -> usize
    ensures { result ≡ l.pool.offset + i }
{
    (l.pool.offset as usize) + (i as usize)
}

impl Card<'_> {
    // How many choices a card has of a kind.
    pub fn count_of(&self, kind: Kind) -> usize
        ensures { result ≡ count_of self.now.layout (kind_number kind) }
    {
        match kind {
            Kind::Selection => self.layout.selections.count as usize,
            Kind::Action => self.layout.specifications.count as usize,
            Kind::Revision => self.layout.revisions.count as usize,
        }
    }

    // "weights, one for each action": that of an action.
    pub fn weight(&self, action: usize) -> usize
        requires { action < self.now.layout.actions }
        ensures { (result ≡ weight_at self.now.layout self.now.bytes.now action) × (result ≤ 65535) }
    {
        number_at(self.bytes, header_bytes(self.layout) + 2 * action)
    }

    // "Node, 4 bytes: kind, a, b, 0."
    pub fn node(&self, i: usize) -> Node
        requires { i < self.now.layout.nodes.count }
        ensures { result ≡ node_at self.now.layout self.now.bytes.now i }
    {
        let at = entry_at(self.layout.nodes, 4, i);
        Node {
            kind: self.bytes[at],
            a: self.bytes[at + 1],
            b: self.bytes[at + 2],
            zero: self.bytes[at + 3],
        }
    }

    // Where specification i stands.
    pub fn specification_at(&self, i: usize) -> usize
        requires { i < self.now.layout.specifications.count }
        ensures value { result
            ≡ entry_at (specification_bytes (set_bytes self.now.layout)) self.now.layout.specifications i }
        ensures l_bound { result + specification_bytes (set_bytes self.now.layout)
            ≤ end_of (specification_bytes (set_bytes self.now.layout)) self.now.layout.specifications }
    {
        specification_at(self.layout, i)
    }

    // "Specification, 36 bytes: action, node, 0, 0, Add, Del."
    pub fn specification(&self, i: usize) -> SpecificationEntry
        requires { i < self.now.layout.specifications.count }
        ensures { result ≡ specification_at self.now.layout self.now.bytes.now i }
    {
        let at = self.specification_at(i);
        SpecificationEntry {
            action: self.bytes[at],
            node: self.bytes[at + 1],
            zero: two_bytes_at(self.bytes, at + 2),
            add: set_at(self.bytes, at + 4, self.layout.edition),
            del: set_at(self.bytes, at + del_at(self.layout), self.layout.edition),
        }
    }

    // "Beliefs become (beliefs with Add) without Del.", by specification i, whose sets are read where they stand.
    pub fn act_on(&self, beliefs: &mut Set, i: usize)
        requires { i < self.now.layout.specifications.count }
        ensures { beliefs.new
            ≡ (beliefs.old ∪ (specification_at self.now.layout self.now.bytes.now i).add)
            ∖ (specification_at self.now.layout self.now.bytes.now i).del }
    {
        let at = self.specification_at(i);
        add_set(beliefs, self.bytes, at + 4, self.layout.edition);
        remove_set(
            beliefs,
            self.bytes,
            at + del_at(self.layout),
            self.layout.edition,
        );
    }

    // "Selection rule, 8 bytes: belief node, goal node, start, length (1..1,024), zero number."
    pub fn selection(&self, i: usize) -> SelectionEntry
        requires { i < self.now.layout.selections.count }
        ensures { (result ≡ selection_at self.now.layout self.now.bytes.now i) × TwoByteSpan result.plan }
    {
        let at = entry_at(self.layout.selections, 8, i);
        SelectionEntry {
            belief: self.bytes[at],
            goal: self.bytes[at + 1],
            plan: read_span(self.bytes, at + 2),
            zero: two_bytes_at(self.bytes, at + 6),
        }
    }

    // "Revision rule, 12 bytes: node, 0, head start, head length (1..1,024), body start, body length (0..1,024), zero number."
    pub fn revision(&self, i: usize) -> RevisionEntry
        requires { i < self.now.layout.revisions.count }
        ensures { (result ≡ revision_at self.now.layout self.now.bytes.now i)
            × TwoByteSpan result.head
            × TwoByteSpan result.body }
    {
        let at = entry_at(self.layout.revisions, 12, i);
        RevisionEntry {
            node: self.bytes[at],
            plain: self.bytes[at + 1],
            head: read_span(self.bytes, at + 2),
            body: read_span(self.bytes, at + 6),
            zero: two_bytes_at(self.bytes, at + 10),
        }
    }

    // Where action i of the pool stands: "The pool is one byte an action."
    pub fn pool_at(&self, i: u16) -> usize
        ensures { result ≡ self.now.layout.pool.offset + i }
    {
        pool_at(self.layout, i)
    }

    // "initial beliefs"
    pub fn initial_beliefs(&self) -> Set
        ensures { result ≡ initial_beliefs self.now.layout self.now.bytes.now }
    {
        set_at(self.bytes, 32, self.layout.edition)
    }

    // "initial goals"
    pub fn initial_goals(&self) -> Set
        ensures { result ≡ initial_goals self.now.layout self.now.bytes.now }
    {
        set_at(self.bytes, goals_at(self.layout), self.layout.edition)
    }
}
