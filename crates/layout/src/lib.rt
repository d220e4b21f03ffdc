// Bytes in one room: numbers and sets read from bytes, a card's layout by name with rows 3 and 4 of the refusal table over it, the
// entries of its sections, the parts of a place, the sizes and the limits.
#![tactic(auto)]

pub mod bytes;
pub mod card;
pub mod entries;
pub mod header;
pub mod limits;
pub mod place;
pub mod sizes;
