// Sets of atoms, 32 bytes by value: "atom k is bit (k modulo 8) of byte (k divided by 8)" (document 01).
#![tactic(auto)]

ghost use Rattle.std.specs.Prelude.{◌≡◌, ℕ, ◌+◌, ◌/◌, ◌≤◌, ◌<◌, length, take, drop, slice_index};
ghost use Rattle.paper.specs.Atoms.{◌∈◌, ◌∪◌, ◌∖◌};
ghost use Rattle.meaning.specs.Looking.{size};
ghost use Rattle.meaning.specs.Sizes.{edition2_set, most_atoms};
ghost use Rattle.meaning.specs.Refusals.{set_good, both_good};
ghost use Rattle.sets.specs.Sets.{is_empty, with_member};
ghost use Rattle.sets.specs.Ones.{ones_of};

use meaning::Set;

// Whether atom k is in s.
pub fn member(s: Set, k: u8) -> bool
    ensures { result ≡ (k ∈ s) }
{
    has_member(&s, k as usize)
}

// Whether number k is in a set of any number of bytes.
pub fn has_member(s: &[u8], k: usize) -> bool
    requires { k / 8 < length s.now }
    ensures { result ≡ (k ∈ s.now) }
{
    (s[k / 8] >> (k % 8)) % 2 == 1
}

// A set of any number of bytes, with number k too.
pub fn add_member(s: &mut [u8], k: usize)
    requires { k / 8 < length s.old }
    ensures { s.new ≡ with_member k s.old }
{
    s[k / 8] |= 1u8 << (k % 8);
}

// Each byte of t is put together with the byte of s that stands where it does, which becomes what f says.
fn put_together<F: Fn(u8, u8) -> u8>(s: &mut [u8], t: &[u8], f: F)
    requires room { length t.now ≤ length s.old }
    requires callable { F.IsAlwaysCallable f }
    ensures len { length s.new ≡ length s.old }
    ensures each { (i : ℕ) → i < length t.now → F.post f (slice_index s.old i) (slice_index t.now i) (slice_index s.new i) }
    ensures rest { (i : ℕ) → length t.now ≤ i → slice_index s.new i ≡ slice_index s.old i }
{
    for i in 0..t.len() {
        s[i] = f(s[i], t[i]);
    }
}

// What t has joins s in place.
pub fn add(s: &mut [u8], t: &[u8])
    requires { length t.now ≤ length s.old }
    ensures { s.new ≡ s.old ∪ t.now }
{
    put_together(s, t, |x, y| x | y);
}

// And leaves it.
pub fn remove(s: &mut [u8], t: &[u8])
    requires { length t.now ≤ length s.old }
    ensures { s.new ≡ s.old ∖ t.now }
{
    put_together(s, t, |x, y| x & !y);
}

// The atoms of a and those of b.
pub fn union(a: Set, b: Set) -> Set
    ensures { result ≡ a ∪ b }
{
    let mut r = a;
    add(&mut r, &b);
    r
}

// The atoms of a that are not in b.
pub fn difference(a: Set, b: Set) -> Set
    ensures { result ≡ a ∖ b }
{
    let mut r = a;
    remove(&mut r, &b);
    r
}

// Whether every byte from one on is zero: the bits of all of them are gathered, and looked at once.
pub fn zeros_from(s: &[u8], from: usize) -> bool
    requires { from ≤ length s.now }
    ensures { result ≡ is_empty (drop from s.now) }
{
    let mut bits: u8 = 0;
    for x in &s[from..] {
        bits |= *x;
    }
    bits == 0
}

// Whether s has only atoms below a number: those of the byte that it lies in, and no byte behind.
pub fn known(s: Set, atoms: usize) -> bool
    requires { atoms ≤ most_atoms edition2_set }
    ensures { result ≡ set_good atoms s }
{
    let i = atoms / 8;
    if 32 <= i {
        true
    } else {
        (s[i] >> (atoms % 8) == 0) & zeros_from(&s, i + 1)
    }
}

// Whether a and b both have only atoms below a number.
pub fn both_known(a: Set, b: Set, atoms: usize) -> bool
    requires { atoms ≤ most_atoms edition2_set }
    ensures { result ≡ both_good atoms a b }
{
    known(union(a, b), atoms)
}

// The ones of a word of a set, its eight bytes from byte i on.
fn word_ones(s: &Set, i: usize) -> u32
    requires { i + 8 ≤ 32 }
    ensures { result ≡ ones_of (take 8 (drop i s.now)) }
{
    let word = [
        s[i],
        s[i + 1],
        s[i + 2],
        s[i + 3],
        s[i + 4],
        s[i + 5],
        s[i + 6],
        s[i + 7],
    ];
    u64::from_le_bytes(word).count_ones()
}

// How many atoms are in s: "ones counted per word of the goal set".
pub fn size(s: Set) -> u16
    ensures { result ≡ size s }
{
    let mut n: u32 = 0;
    for word in 0..4 {
        n += word_ones(&s, 8 * word);
    }
    n as u16
}
