// The sizes, offsets and limits that follow from how many bytes a set of atoms has: of a card with a layout, and of a place that is
// judged against it.
ghost use Rattle.std.specs.Prelude.{◌≡◌, ◌≤◌};
ghost use Rattle.meaning.specs.Sizes.{edition1_set, edition_set, set_bytes, most_atoms, goals_at, header_bytes, del_at, specification_bytes, place_goals_at, plan_at};

use meaning::Layout;

// "A set of atoms is 16 bytes"; 02, Wish 9: "Edition 2 of card and place has sets of 32 bytes".
pub fn edition_set(edition: u16) -> usize
    ensures { (result ≡ edition_set edition) × (result ≤ 32) }
{
    if edition == 2 { 32 } else { 16 }
}

// The same, of a card with a layout.
pub fn set_bytes(l: Layout) -> usize
    ensures { (result ≡ set_bytes l) × (result ≤ 32) }
{
    edition_set(l.edition)
}

// "atom k is bit (k modulo 8) of byte (k divided by 8)": how many atoms there may be.
pub fn most_atoms(l: Layout) -> usize
    ensures { (result ≡ most_atoms (set_bytes l)) × (result ≤ 256) }
{
    8 * set_bytes(l)
}

// "initial beliefs, initial goals": where the goals stand; the beliefs stand at 32.
pub fn goals_at(l: Layout) -> usize
    ensures { (result ≡ goals_at (set_bytes l)) × (result ≤ 64) }
{
    32 + set_bytes(l)
}

// "weights, one for each action": where they begin, by the edition; and of a card with a layout.
pub fn edition_header(edition: u16) -> usize
    ensures { (result ≡ header_bytes (edition_set edition)) × (result ≤ 96) }
{
    32 + 2 * edition_set(edition)
}

pub fn header_bytes(l: Layout) -> usize
    ensures { (result ≡ header_bytes (set_bytes l)) × (result ≤ 96) }
{
    edition_header(l.edition)
}

// "Specification, 36 bytes: action, node, 0, 0, Add, Del.": where Del stands in it; Add stands at 4.
pub fn del_at(l: Layout) -> usize
    ensures { (result ≡ del_at (set_bytes l)) × (result ≤ 36) }
{
    4 + set_bytes(l)
}

// "Specification, 36 bytes"; in edition 2 it has 68.
pub fn specification_bytes(l: Layout) -> usize
    ensures { (result ≡ specification_bytes (set_bytes l)) × (result ≤ 68) }
{
    4 + 2 * set_bytes(l)
}

// "beliefs at 12; goals at 28": where a place's goals stand.
pub fn place_goals_at(l: Layout) -> usize
    ensures { (result ≡ place_goals_at (set_bytes l)) × (result ≤ 44) }
{
    12 + set_bytes(l)
}

// "the plan's L bytes at 44": where they begin, and where all before them has ended.
pub fn plan_at(l: Layout) -> usize
    ensures { (result ≡ plan_at (set_bytes l)) × (result ≤ 76) }
{
    12 + 2 * set_bytes(l)
}

// Where the weights of a card as text begin: "Text cards stay edition 1".
pub fn edition_1_header() -> usize
    ensures { result ≡ header_bytes edition1_set }
{
    64
}
