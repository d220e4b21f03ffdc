// The list: "The list of enabled choices goes as two-byte numbers, rising, each once, into the lent list".
ghost use Rattle.std.specs.Prelude.{◌≡◌, ◌+◌, ◌*◌, ◌≤◌, ◌<◌, length};
ghost use Rattle.runs.specs.Kinds.{kind_number};
ghost use Rattle.meaning.specs.Calls.{over, lists, list_leaves};
ghost use Rattle.door.specs.Words.{configured};
ghost use Rattle.listing.specs.Listed.{codes_in, CardCodes, over_from};
ghost use Rattle.listing.specs.Looking.{listed_with};

use crate::gather::gather;
use card::check::answer_of;
use door::admit::admit;
use door::asked::{kind_of, number_of};
use door::room::judge_room;
use layout::card::Card;
use meaning::{Answer, Plan, Set, Standing};
use runs::Kind;

// The codes of a byte of a set over a lent list, from an entry on; answers where the next may go.
fn write_byte(codes: &[u8; 96], b: usize, out: &mut [u16], at: usize) -> usize
    requires { (b < 96) × (length codes.now ≡ 96) × (at + length (codes_in codes.now (8 * b) 8) ≤ length out.old) }
    ensures value { result ≡ at + length (codes_in codes.now (8 * b) 8) }
    ensures out_after { out.new ≡ over_from at (codes_in codes.now (8 * b) 8) out.old }
{
    let bits = codes[b];
    if bits == 0 {
        return at;
    }
    let mut j = at;
    for i in 0..8 {
        if (bits >> i) % 2 == 1 {
            out[j] = (8 * b + i) as u16;
            j += 1;
        }
    }
    j
}

// The codes of a kind over a lent list, from an entry on; answers where the next may go.
fn write_kind(codes: &[u8; 96], card: &Card, kind: Kind, out: &mut [u16], at: usize) -> usize
    requires kind_bound { CardCodes card.now.layout codes.now }
    requires kind_in_bounds { at + length (codes_in codes.now (256 * kind_number kind) 256) ≤ length out.old }
    ensures value { result ≡ at + length (codes_in codes.now (256 * kind_number kind) 256) }
    ensures out_after { out.new ≡ over_from at (codes_in codes.now (256 * kind_number kind) 256) out.old }
{
    let first = 32 * (number_of(kind) as usize);
    let end = first + (card.count_of(kind) + 7) / 8;
    let mut j = at;
    for b in first..end {
        j = write_byte(codes, b, out, j);
    }
    j
}

// All codes of a set over the front of a lent list: one kind after the other.
fn write(codes: &[u8; 96], card: &Card, out: &mut [u16])
    requires { CardCodes card.now.layout codes.now × (length (codes_in codes.now 0 768) ≤ length out.old) }
    ensures { out.new ≡ over (codes_in codes.now 0 768) out.old }
{
    let mut at = 0;
    for t in 0..3 {
        at = write_kind(codes, card, kind_of(t), out, at);
    }
}

// What `list` answers where sets and plan are lent: all of `Listed` but what these hold.
#[derive(Clone, Copy)]
pub struct ListedInPlace {
    pub answer: Answer,
    pub count: u16,
    pub judged: u16,
    pub goals: u16,
}

// "Any count in a refusal is 0."
fn refused_list(answer: Answer) -> ListedInPlace
    ensures { result ≡ record { answer = answer; count = 0; judged = 0; goals = 0 } }
{
    ListedInPlace {
        answer,
        count: 0,
        judged: 0,
        goals: 0,
    }
}

// All enabled choices into a lent list: how many, how many conditions were judged and how many goals are open; 12 if the room is
// too short, and nothing is written.
pub fn list(
    card: &[u8],
    beliefs: &Set,
    goals: &Set,
    m: Standing,
    plan: &Plan,
    out: &mut [u16],
) -> ListedInPlace
    ensures plan_value { listed_with result (configured beliefs.now goals.now m plan.now)
        ≡ lists card.now (configured beliefs.now goals.now m plan.now) out.old }
    ensures out_after { out.new
        ≡ list_leaves card.now (configured beliefs.now goals.now m plan.now) out.old }
{
    let admitted = admit(card, beliefs, goals, m, plan);
    let Ok(card) = admitted else {
        return refused_list(answer_of(admitted));
    };
    let mut codes = [0u8; 96];
    let looked = gather(&card, beliefs, goals, m, plan, &mut codes);
    let room = judge_room(looked.enabled, out.len());
    let Ok(()) = room else {
        return refused_list(room);
    };
    write(&codes, &card, out);
    ListedInPlace {
        answer: Ok(()),
        count: looked.enabled as u16,
        judged: looked.judged as u16,
        goals: sets::size(*goals),
    }
}
