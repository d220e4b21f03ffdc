// A place judged against the card that it is given with: rows 1, 2, 1, 3, 4, 8 and 9 of the refusal table in their order,
// for every byte string.
ghost use Rattle.std.specs.Prelude.{◌≡◌, ◌≤◌, length, drop};
ghost use Rattle.meaning.specs.Sizes.{set_bytes, place_goals_at, plan_at};
ghost use Rattle.meaning.specs.Card.{set_at};
ghost use Rattle.meaning.specs.Refusals.{actions_good, both_good, place_mark_good, place_long_enough, place_counts_good, place_offsets_good, first_given, place_table};
ghost use Rattle.layout.specs.GoodLayout.{Counted};
ghost use Rattle.layout.specs.PlaceParts.{place_parts};

use card::check::row;
use card::contents::actions_good;
use layout::bytes::{has_edition, mark_good, two_bytes_at};
use layout::limits::longest_plan;
use layout::place::{PlaceParts, place_size, read_parts};
use layout::sizes::plan_at;
use meaning::{Answer, Layout, Refusal};

// Not row 2: "Bytes 33 50 hex", and the edition of its card.
fn place_mark_good(l: Layout, p: &[u8]) -> bool
    requires { 4 ≤ length p.now }
    ensures { result ≡ place_mark_good l p.now }
{
    let edition = two_bytes_at(p, 2);
    mark_good(p, 0x50) & (edition == l.edition)
}

// Not row 1: "place under 44", or under its edition's 76.
fn length_good(l: Layout, p: &[u8]) -> bool
    ensures { result ≡ place_long_enough l p.now }
{
    plan_at(l) <= p.len()
}

// Not row 3: "in a place L over 1,024, phase over 2". The finished count, which any two bytes are, has no rule.
fn counts_good(l: Layout, p: &[u8], h: PlaceParts) -> bool
    requires { h ≡ place_parts l p.now }
    ensures { result ≡ place_counts_good p.now }
{
    (h.length <= longest_plan()) & (h.phase <= 2)
}

// Not row 4: "an offset or the total length is not the required one". "plan offset 44 at 6 … Exactly 44 + L bytes."
fn offsets_good(l: Layout, p: &[u8], h: PlaceParts) -> bool
    requires { (h ≡ place_parts l p.now) × (h.length ≤ 65535) }
    ensures { result ≡ place_offsets_good l p.now }
{
    (h.offset == plan_at(l)) & (p.len() == place_size(l, h.length))
}

// Not row 8: "a pool or plan byte is not below the number of actions".
fn plan_good(l: Layout, p: &[u8]) -> bool
    requires { (plan_at (set_bytes l) ≤ length p.now) × Counted l }
    ensures { result ≡ actions_good l.actions (drop (plan_at (set_bytes l)) p.now) }
{
    let at = plan_at(l);
    actions_good(p, at, p.len() - at, l.actions as usize)
}

// Not row 9: "a set has a bit at or above the number of atoms".
fn sets_good(l: Layout, p: &[u8], h: PlaceParts) -> bool
    requires { (h ≡ place_parts l p.now) × Counted l }
    ensures { result ≡ both_good l.atoms (set_at l p.now 12) (set_at l p.now (place_goals_at (set_bytes l))) }
{
    sets::both_known(h.beliefs, h.goals, l.atoms as usize)
}

// The number that a place is answered with: each row of the table in its order.
pub fn judge_place(l: Layout, p: &[u8]) -> Answer
    requires { Counted l }
    ensures { result ≡ first_given (place_table l) p.now }
{
    row(has_edition(p), Refusal::Short)?;
    row(place_mark_good(l, p), Refusal::Mark)?;
    row(length_good(l, p), Refusal::Short)?;
    let h = read_parts(l, p);
    row(counts_good(l, p, h), Refusal::Count)?;
    row(offsets_good(l, p, h), Refusal::Offsets)?;
    row(plan_good(l, p), Refusal::ActionByte)?;
    row(sets_good(l, p, h), Refusal::Atom)
}
