// Every choice of a kind asked for: whether it is enabled, or why it is closed.
ghost use Rattle.std.specs.Prelude.{◌≡◌, true, ◌+◌, ◌≤◌, ◌<◌, length, take};
ghost use Rattle.paper.specs.Next.{is_prefix};
ghost use Rattle.door.specs.Asking.{asked_by};
ghost use Rattle.door.specs.Words.{kind_number, state_of, asked, choice_of, Ready};
ghost use Rattle.layout.specs.Entries.{count_of};
ghost use Rattle.unpacked.specs.Tables.{Tabled};
ghost use Rattle.unpacked.specs.Truths.{configuration_from};
ghost use Rattle.plain.specs.Judging.{pair_of, JudgedAll};
ghost use Rattle.plain.specs.Asking.{ask_selection, ask_specification, ask_revision, AsksKind, plan_of};

use crate::judge::{Judgement, Judgements, both_of};
use door::asked::{Asked, Choice};
use layout::card::Card;
use meaning::{Plan, Span};
use runs::Kind;
use unpacked::configuration::Unpacked;
use unpacked::tables::Tables;

// An answer for each choice of a kind.
pub type Answers = [Asked; 256];

// By whether the plan's front fits, and what was judged of the conditions, in this order.
fn asked_by(front: bool, conditions: Judgement) -> Asked
    ensures { result ≡ asked_by true front (pair_of conditions) }
{
    if !front {
        Asked::Front
    } else if !conditions.value {
        Asked::Condition(conditions.node)
    } else {
        Asked::Enabled
    }
}

// A selection rule: "Enabled if the plan is empty and both conditions of the rule hold."
fn ask_selection(t: &Tables, u: &Unpacked, judged: &Judgements, i: usize) -> Asked
    requires { i < 256 }
    ensures { result ≡ ask_selection t.now u.now judged.now i }
{
    let e = t.selections[i];
    asked_by(
        u.standing.length == 0,
        both_of(judged[e.belief as usize], judged[e.goal as usize]),
    )
}

// A specification: "Enabled … if the plan is not empty, its first action is that of the specification, and the precondition
// holds."
fn ask_specification(t: &Tables, u: &Unpacked, judged: &Judgements, i: usize) -> Asked
    requires { i < 256 }
    ensures { result ≡ ask_specification t.now u.now judged.now i }
{
    let e = t.specifications[i];
    asked_by(
        (u.standing.length != 0) & (e.action == u.plan[0]),
        judged[e.node as usize],
    )
}

// Whether a head of the pool is a prefix of the plan.
fn is_head(card: &Card, head: Span, plan: &Plan, len: usize) -> bool
    requires { (card.now.layout.pool.offset + head.start + head.length ≤ length card.now.bytes.now) × (len ≤ 1024) × (length plan.now ≡ 1024) }
    ensures { result ≡ is_prefix (plan_of card.now.layout card.now.bytes.now head) (take len plan.now) }
{
    let at = card.pool_at(head.start);
    plan[..len].starts_with(&card.bytes[at..at + head.length as usize])
}

// A revision rule: "Enabled if the head is a prefix of the plan and the condition holds."
fn ask_revision(card: &Card, t: &Tables, u: &Unpacked, judged: &Judgements, i: usize) -> Asked
    requires { Ready card.now.layout card.now.bytes.now (configuration_from u.now) × Tabled card.now.layout card.now.bytes.now t.now
        × (i < card.now.layout.revisions.count) }
    ensures { result ≡ ask_revision card.now.layout card.now.bytes.now t.now u.now judged.now i }
{
    let e = t.revisions[i];
    let front = is_head(card, e.head, &u.plan, u.standing.length as usize);
    asked_by(front, judged[e.node as usize])
}

// A choice that the card has.
fn ask(card: &Card, t: &Tables, u: &Unpacked, judged: &Judgements, choice: Choice) -> Asked
    requires ready { Ready card.now.layout card.now.bytes.now (configuration_from u.now) × Tabled card.now.layout card.now.bytes.now t.now
        × (choice.number < count_of card.now.layout (kind_number choice.kind)) }
    requires judged_all { JudgedAll card.now.layout card.now.bytes.now (configuration_from u.now) judged.now }
    ensures { result ≡ asked card.now.layout card.now.bytes.now (state_of (configuration_from u.now)).mental (choice_of choice) }
{
    match choice.kind {
        Kind::Selection => ask_selection(t, u, judged, choice.number),
        Kind::Action => ask_specification(t, u, judged, choice.number),
        Kind::Revision => ask_revision(card, t, u, judged, choice.number),
    }
}

// Every choice of a kind. Past those that the card has there is no rule.
pub fn ask_kind(card: &Card, t: &Tables, u: &Unpacked, judged: &Judgements, kind: Kind) -> Answers
    requires ready { Ready card.now.layout card.now.bytes.now (configuration_from u.now) × Tabled card.now.layout card.now.bytes.now t.now }
    requires judged_all { JudgedAll card.now.layout card.now.bytes.now (configuration_from u.now) judged.now }
    ensures { AsksKind card.now.layout card.now.bytes.now (configuration_from u.now) (kind_number kind) result }
{
    let mut answers = [Asked::NoRule; 256];
    for number in 0..card.count_of(kind) {
        answers[number] = ask(card, t, u, judged, Choice { kind, number });
    }
    answers
}
