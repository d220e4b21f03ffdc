// Whether a choice is enabled, or why it is closed, by the marks of the nodes; and the first enabled one in the guide's order.
ghost use Rattle.std.specs.Prelude.{◌≡◌, true, ◌<◌};
ghost use Rattle.paper.specs.Transitions.{select, act, revise};
ghost use Rattle.paper.specs.Next.{enabled};
ghost use Rattle.runs.specs.Kinds.{kind_number};
ghost use Rattle.runs.specs.Order.{guide};
ghost use Rattle.door.specs.Words.{agent_for, state_of, asked, choice_of, chosen, first_of_kind};
ghost use Rattle.layout.specs.Entries.{count_of};
ghost use Rattle.choices.specs.Judged.{of_mark, SomeSets, AllSets};
ghost use Rattle.door.specs.Asking.{asked_by};

use crate::truth::{Marks, both_of, is_true, settler};
use door::asked::{Asked, Choice, kind_of};
use layout::card::Card;
use meaning::{Plan, Standing};
use runs::Kind;

// By whether the plan's front fits, and the mark of the conditions: in this order. "Whoever judges a condition passes it on".
fn asked_by(front: bool, conditions: u16) -> Asked
    ensures { result ≡ asked_by true front (of_mark conditions) }
{
    if !front {
        Asked::Front
    } else if !is_true(conditions) {
        Asked::Condition(settler(conditions))
    } else {
        Asked::Enabled
    }
}

// Selection rule i: "Enabled if the plan is empty and both conditions of the rule hold."; "the belief condition before the goal
// condition".
fn ask_selection(card: &Card, m: Standing, plan: &Plan, marks: &Marks, i: usize) -> Asked
    requires { SomeSets card.now.layout card.now.bytes.now m plan.now marks.now × (i < card.now.layout.selections.count) }
    ensures { AllSets card.now.layout card.now.bytes.now m plan.now marks.now
        (λ c. result ≡ asked card.now.layout card.now.bytes.now (state_of c).mental (select i)) }
{
    let e = card.selection(i);
    asked_by(
        m.length == 0,
        both_of(marks[e.belief as usize], marks[e.goal as usize]),
    )
}

// Specification i: "Enabled … if the plan is not empty, its first action is that of the specification, and the precondition
// holds."
fn ask_specification(card: &Card, m: Standing, plan: &Plan, marks: &Marks, i: usize) -> Asked
    requires { SomeSets card.now.layout card.now.bytes.now m plan.now marks.now × (i < card.now.layout.specifications.count) }
    ensures { AllSets card.now.layout card.now.bytes.now m plan.now marks.now
        (λ c. result ≡ asked card.now.layout card.now.bytes.now (state_of c).mental (act i)) }
{
    let e = card.specification(i);
    asked_by(
        (m.length != 0) & (e.action == plan[0]),
        marks[e.node as usize],
    )
}

// Revision rule i: "Enabled if the head is a prefix of the plan and the condition holds."
fn ask_revision(card: &Card, m: Standing, plan: &Plan, marks: &Marks, i: usize) -> Asked
    requires { SomeSets card.now.layout card.now.bytes.now m plan.now marks.now × (i < card.now.layout.revisions.count) }
    ensures { AllSets card.now.layout card.now.bytes.now m plan.now marks.now
        (λ c. result ≡ asked card.now.layout card.now.bytes.now (state_of c).mental (revise i)) }
{
    let e = card.revision(i);
    let at = card.pool_at(e.head.start);
    let front = plans::starts_with(
        card.bytes,
        at,
        e.head.length as usize,
        plan,
        m.length as usize,
    );
    asked_by(front, marks[e.node as usize])
}

// A choice that the card has, by its kind and number: whether it is enabled, or why it is closed.
fn ask_entry(card: &Card, m: Standing, plan: &Plan, marks: &Marks, choice: Choice) -> Asked
    requires { SomeSets card.now.layout card.now.bytes.now m plan.now marks.now × (choice.number < count_of card.now.layout (kind_number choice.kind)) }
    ensures { AllSets card.now.layout card.now.bytes.now m plan.now marks.now
        (λ c. result ≡ asked card.now.layout card.now.bytes.now (state_of c).mental (choice_of choice)) }
{
    match choice.kind {
        Kind::Selection => ask_selection(card, m, plan, marks, choice.number),
        Kind::Action => ask_specification(card, m, plan, marks, choice.number),
        Kind::Revision => ask_revision(card, m, plan, marks, choice.number),
    }
}

// A choice of any number.
pub fn ask(card: &Card, m: Standing, plan: &Plan, marks: &Marks, choice: Choice) -> Asked
    requires { SomeSets card.now.layout card.now.bytes.now m plan.now marks.now }
    ensures { AllSets card.now.layout card.now.bytes.now m plan.now marks.now
        (λ c. result ≡ asked card.now.layout card.now.bytes.now (state_of c).mental (choice_of choice)) }
{
    if choice.number < card.count_of(choice.kind) {
        ask_entry(card, m, plan, marks, choice)
    } else {
        Asked::NoRule
    }
}

// Whether selection rule i is enabled: the plan is looked at first. Each of the three looks at another cheap thing first and leaves
// the rest unread: one function over them would take all of it as closures.
fn selection_enabled(card: &Card, m: Standing, plan: &Plan, marks: &Marks, i: usize) -> bool
    requires { SomeSets card.now.layout card.now.bytes.now m plan.now marks.now × (i < card.now.layout.selections.count) }
    ensures { AllSets card.now.layout card.now.bytes.now m plan.now marks.now
        (λ c. result ≡ enabled (agent_for card.now.layout card.now.bytes.now) (state_of c).mental (select i)) }
{
    if m.length != 0 {
        return false;
    }
    let e = card.selection(i);
    is_true(marks[e.belief as usize]) & is_true(marks[e.goal as usize])
}

// Whether specification i is enabled: its action is looked at first.
fn specification_enabled(card: &Card, m: Standing, plan: &Plan, marks: &Marks, i: usize) -> bool
    requires { SomeSets card.now.layout card.now.bytes.now m plan.now marks.now × (i < card.now.layout.specifications.count) }
    ensures { AllSets card.now.layout card.now.bytes.now m plan.now marks.now
        (λ c. result ≡ enabled (agent_for card.now.layout card.now.bytes.now) (state_of c).mental (act i)) }
{
    let e = card.specification(i);
    if e.action != plan[0] {
        return false;
    }
    (m.length != 0) & is_true(marks[e.node as usize])
}

// Whether revision rule i is enabled: its condition is looked at first.
fn revision_enabled(card: &Card, m: Standing, plan: &Plan, marks: &Marks, i: usize) -> bool
    requires { SomeSets card.now.layout card.now.bytes.now m plan.now marks.now × (i < card.now.layout.revisions.count) }
    ensures { AllSets card.now.layout card.now.bytes.now m plan.now marks.now
        (λ c. result ≡ enabled (agent_for card.now.layout card.now.bytes.now) (state_of c).mental (revise i)) }
{
    let e = card.revision(i);
    if !is_true(marks[e.node as usize]) {
        return false;
    }
    let at = card.pool_at(e.head.start);
    plans::starts_with(
        card.bytes,
        at,
        e.head.length as usize,
        plan,
        m.length as usize,
    )
}

// Whether a choice that the card has is enabled: beside `ask_entry`, by the cheaper questions above.
pub fn is_enabled(card: &Card, m: Standing, plan: &Plan, marks: &Marks, choice: Choice) -> bool
    requires { SomeSets card.now.layout card.now.bytes.now m plan.now marks.now × (choice.number < count_of card.now.layout (kind_number choice.kind)) }
    ensures { AllSets card.now.layout card.now.bytes.now m plan.now marks.now
        (λ c. result ≡ enabled (agent_for card.now.layout card.now.bytes.now) (state_of c).mental (choice_of choice)) }
{
    match choice.kind {
        Kind::Selection => selection_enabled(card, m, plan, marks, choice.number),
        Kind::Action => specification_enabled(card, m, plan, marks, choice.number),
        Kind::Revision => revision_enabled(card, m, plan, marks, choice.number),
    }
}

// The lowest enabled choice of a kind.
pub fn first_of_kind(
    card: &Card,
    m: Standing,
    plan: &Plan,
    marks: &Marks,
    kind: Kind,
) -> Option<Choice>
    requires { SomeSets card.now.layout card.now.bytes.now m plan.now marks.now }
    ensures { AllSets card.now.layout card.now.bytes.now m plan.now marks.now
        (λ c. result ≡ first_of_kind card.now.layout card.now.bytes.now c (kind_number kind)) }
{
    for number in 0..card.count_of(kind) {
        let choice = Choice { kind, number };
        if is_enabled(card, m, plan, marks, choice) {
            return Some(choice);
        }
    }
    None
}

// "From phase p the kinds p, p+1, p+2 (modulo 3) are tried in turn. In the first kind with an enabled transition, the lowest
// number is taken."
pub fn choose(card: &Card, m: Standing, plan: &Plan, marks: &Marks) -> Option<Choice>
    requires { SomeSets card.now.layout card.now.bytes.now m plan.now marks.now }
    ensures { AllSets card.now.layout card.now.bytes.now m plan.now marks.now
        (λ c. result ≡ chosen (guide (agent_for card.now.layout card.now.bytes.now) (state_of c))) }
{
    for t in 0..3 {
        let kind = kind_of(m.phase + t);
        if let Some(choice) = first_of_kind(card, m, plan, marks, kind) {
            return Some(choice);
        }
    }
    None
}
