// A card's header: its layout by name, and rows 3 and 4 of the refusal table over it.
ghost use Rattle.std.specs.Prelude.{◌≡◌, ◌+◌, ◌*◌, ◌≤◌, length};
ghost use Rattle.meaning.specs.Card.{section, span, layout};
ghost use Rattle.meaning.specs.Refusals.{within, counts_good, end_of, offsets_good};
ghost use Rattle.layout.specs.GoodLayout.{TwoByteSection, TwoByteSpan, TwoByteLayout};

use crate::bytes::two_bytes_at;
use crate::sizes::{header_bytes, most_atoms, specification_bytes};
use meaning::{Layout, Section, Span};

// A section's count and offset.
fn read_section(card: &[u8], at: usize) -> Section
    requires { at + 4 ≤ length card.now }
    ensures { (result ≡ section card.now at) × TwoByteSection result }
{
    Section {
        count: two_bytes_at(card, at),
        offset: two_bytes_at(card, at + 2),
    }
}

// A plan's start and length.
pub fn read_span(card: &[u8], at: usize) -> Span
    requires { at + 4 ≤ length card.now }
    ensures { (result ≡ span card.now at) × TwoByteSpan result }
{
    Span {
        start: two_bytes_at(card, at),
        length: two_bytes_at(card, at + 2),
    }
}

// What the header says.
pub fn read_layout(card: &[u8]) -> Layout
    requires { 32 ≤ length card.now }
    ensures { (result ≡ layout card.now) × TwoByteLayout result }
{
    Layout {
        edition: two_bytes_at(card, 2),
        atoms: two_bytes_at(card, 4),
        actions: two_bytes_at(card, 6),
        nodes: read_section(card, 8),
        specifications: read_section(card, 12),
        selections: read_section(card, 16),
        revisions: read_section(card, 20),
        pool: read_section(card, 24),
        initial: read_span(card, 28),
    }
}

// Whether n is from low to high.
pub fn in_range(low: usize, high: usize, n: usize) -> bool
    ensures { result ≡ within low high n }
{
    (low <= n) & (n <= high)
}

// Not row 3: every count is in its range.
pub fn counts_good(l: Layout) -> bool
    ensures { result ≡ counts_good l }
{
    in_range(1, most_atoms(l), l.atoms as usize)
        & in_range(1, 256, l.actions as usize)
        & in_range(1, 256, l.nodes.count as usize)
        & (l.specifications.count <= 256)
        & (l.selections.count <= 256)
        & (l.revisions.count <= 256)
        & (l.pool.count <= 8192)
}

// Where a section ends, whose entries have a size.
fn end_of(s: Section, size: usize) -> usize
    requires { TwoByteSection s × (size ≤ 256) }
    ensures { result ≡ end_of size s }
{
    (s.offset as usize) + size * (s.count as usize)
}

// Not row 4: every offset, and the length n of the whole, is the required one.
pub fn offsets_good(l: Layout, n: usize) -> bool
    requires { TwoByteLayout l }
    ensures { result ≡ offsets_good l n }
{
    (l.nodes.offset as usize == header_bytes(l) + 2 * (l.actions as usize))
        & (l.specifications.offset as usize == end_of(l.nodes, 4))
        & (l.selections.offset as usize == end_of(l.specifications, specification_bytes(l)))
        & (l.revisions.offset as usize == end_of(l.selections, 8))
        & (l.pool.offset as usize == end_of(l.revisions, 12))
        & (n == end_of(l.pool, 1))
}
