// A set as one truth value an atom (02, Wish 12: "keeps beliefs and goals as one truth value an atom").
ghost use Rattle.std.specs.Prelude.{◌≡◌, false, not, ◌&&◌, ◌||◌, get_or};
ghost use Rattle.runs.specs.Order.{numbers};
ghost use Rattle.meaning.specs.Looking.{how_many};
ghost use Rattle.meaning.specs.Sizes.{edition2_set};
ghost use Rattle.unpacked.specs.Truths.{values, packed};
ghost use Rattle.unpacked.specs.Tables.{Holds};

use crate::tables::table;
use meaning::Set;

// One truth value an atom.
pub type Truths = [bool; 256];

// No atom is true.
pub fn none_true() -> Truths
    ensures { Holds false (λ k. false) 256 result }
{
    [false; 256]
}

// The truth values of a set: that of atom k is whether k is in it.
pub fn unpack_set(s: Set) -> Truths
    ensures { result ≡ values s }
{
    table(false, 256, |k| sets::has_member(&s, k))
}

// The set of truth values: atom k is in it where its value is true.
pub fn pack_set(truths: Truths) -> Set
    ensures { result ≡ packed edition2_set truths }
{
    let mut s = [0u8; 32];
    for k in 0..256 {
        if truths[k] {
            sets::add_member(&mut s, k);
        }
    }
    s
}

// How many are true.
pub fn count_true(truths: Truths) -> usize
    ensures { result ≡ how_many (λ k. get_or truths k false) (numbers 0 256) }
{
    let mut n: usize = 0;
    for k in 0..256 {
        if truths[k] {
            n += 1;
        }
    }
    n
}

// "Beliefs become (beliefs with Add) without Del."
pub fn act_on(beliefs: Truths, add: Truths, del: Truths) -> Truths
    ensures { Holds false (λ k. (get_or beliefs k false || get_or add k false) && not (get_or del k false)) 256 result }
{
    table(false, 256, |k| (beliefs[k] | add[k]) & !del[k])
}

// "the goals are those not believed"
pub fn strike(goals: Truths, beliefs: Truths) -> Truths
    ensures { Holds false (λ k. get_or goals k false && not (get_or beliefs k false)) 256 result }
{
    table(false, 256, |k| goals[k] & !beliefs[k])
}
