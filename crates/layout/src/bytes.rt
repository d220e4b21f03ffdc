// Bytes, a card's or a place's: a number or a set from an offset on, a number's two bytes, the mark, and bytes copied.
ghost use Rattle.std.specs.Prelude.{◌≡◌, true, ◌+◌, ◌≤◌, ltb, length, drop};
ghost use Rattle.std.proofs.Math.Seq.{paste};
ghost use Rattle.paper.specs.Atoms.{◌∪◌, ◌∖◌};
ghost use Rattle.meaning.specs.Sizes.{edition_set};
ghost use Rattle.meaning.specs.Card.{number_at, part, widened};
ghost use Rattle.meaning.specs.Refusals.{has_edition, marked};

use meaning::Set;

// The number at an offset, to be held: "Numbers are two bytes, low byte first".
pub fn two_bytes_at(bytes: &[u8], at: usize) -> u16
    requires { at + 2 ≤ length bytes.now }
    ensures { (result ≡ number_at bytes.now at) × (result ≤ 65535) }
{
    u16::from_le_bytes([bytes[at], bytes[at + 1]])
}

// The number at an offset, to count with.
pub fn number_at(bytes: &[u8], at: usize) -> usize
    requires { at + 2 ≤ length bytes.now }
    ensures { (result ≡ number_at bytes.now at) × (result ≤ 65535) }
{
    two_bytes_at(bytes, at) as usize
}

// Whether a byte is below a number.
pub fn byte_below(x: u8, n: usize) -> bool
    ensures { result ≡ ltb x n }
{
    (x as usize) < n
}

// Not row 1: "a file under 4 bytes is 1": its mark and its edition are there.
pub fn has_edition(bytes: &[u8]) -> bool
    ensures { (result ≡ has_edition bytes.now) × (result ≡ true → 4 ≤ length bytes.now) }
{
    4 <= bytes.len()
}

// Not row 2: "first two bytes … differ". The first byte is 33 hex, the second is given.
pub fn mark_good(bytes: &[u8], second: u8) -> bool
    requires { 2 ≤ length bytes.now }
    ensures { result ≡ marked second bytes.now }
{
    (bytes[0] == 0x33) & (bytes[1] == second)
}

// n bytes of src, from `from` on, over those of dst from `to` on.
pub fn copy(dst: &mut [u8], to: usize, src: &[u8], from: usize, n: usize)
    requires { (to + n ≤ length dst.old) × (from + n ≤ length src.now) }
    ensures { dst.new ≡ paste dst.old to (drop from src.now) n }
{
    dst[to..to + n].copy_from_slice(&src[from..from + n]);
}

// n bytes move down in place.
pub fn down(s: &mut [u8], to: usize, from: usize, n: usize)
    requires { (to ≤ from) × (from + n ≤ length s.old) }
    ensures { s.new ≡ paste s.old to (drop from s.old) n }
{
    s.copy_within(from..from + n, to);
}

// The set at an offset, of as many bytes as its edition's sets have, with zeros above. Each number is written out, so that the
// compiler knows how many bytes are moved.
pub fn set_at(bytes: &[u8], at: usize, edition: u16) -> Set
    requires { at + edition_set edition ≤ length bytes.now }
    ensures { result ≡ widened (part bytes.now at (edition_set edition)) }
{
    let mut set = [0u8; 32];
    if edition == 2 {
        copy(&mut set, 0, bytes, at, 32);
    } else {
        copy(&mut set, 0, bytes, at, 16);
    }
    set
}

// The bytes of a set of n bytes at an offset join those of another in place.
pub fn add_bytes(s: &mut [u8], bytes: &[u8], at: usize, n: usize)
    requires { (n ≤ length s.old) × (at + n ≤ length bytes.now) }
    ensures { s.new ≡ s.old ∪ part bytes.now at n }
{
    sets::add(s, &bytes[at..at + n]);
}

// The set at an offset, of an edition, joins one in place.
pub fn add_set(s: &mut Set, bytes: &[u8], at: usize, edition: u16)
    requires { at + edition_set edition ≤ length bytes.now }
    ensures { s.new ≡ s.old ∪ widened (part bytes.now at (edition_set edition)) }
{
    sets::add(s, &set_at(bytes, at, edition));
}

// And leaves it.
pub fn remove_set(s: &mut Set, bytes: &[u8], at: usize, edition: u16)
    requires { at + edition_set edition ≤ length bytes.now }
    ensures { s.new ≡ s.old ∖ widened (part bytes.now at (edition_set edition)) }
{
    sets::remove(s, &set_at(bytes, at, edition));
}

// How many bytes a slice has. An array that is lent as a slice is known to be as long as its type says.
pub fn size(s: &[u8]) -> usize
    ensures { result ≡ length s.now }
{
    s.len()
}
