// A transition is made: sets and plan in place. Each is one of Definitions 9 to 11.
ghost use Rattle.std.specs.Prelude.{◌≡◌, ◌+◌, ◌-◌, ◌%◌, ◌≤◌, ◌<◌};
ghost use Rattle.paper.specs.Transitions.{select, act, revise};
ghost use Rattle.layout.specs.GoodLayout.{TwoByteSpan};
ghost use Rattle.door.specs.Words.{configured, Ready, choice_of};
ghost use Rattle.moves.specs.Steps.{Enabled, SomeOpen, AllOpen, StepsBy, finished_at, taken_to};

use door::asked::{Choice, number_of};
use layout::card::Card;
use layout::limits::{longest_plan, most_finished};
use meaning::{Plan, RevisionEntry, Set, Standing};
use runs::Kind;

// What a transition comes to: it is taken, by a choice; there is none; or its plan would be too long.
#[derive(Clone, Copy)]
pub enum Transition {
    Taken(Choice),
    Nothing,
    Full,
}

// What a transition comes to, and all after it but the sets and the plan. One that is not taken leaves everything as it was.
#[derive(Clone, Copy)]
pub struct Stepped {
    pub standing: Standing,
    pub transition: Transition,
}

// "how many transitions have left the plan empty since load, stopping at 65,535": after one more, which leaves n actions.
fn finished_with(finished: u16, n: usize) -> u16
    ensures { result ≡ finished_at finished n }
{
    if (n == 0) & (finished < most_finished()) {
        finished + 1
    } else {
        finished
    }
}

// "After any transition, the guide's or a chosen one, the phase is the kind taken plus 1, modulo 3."
fn taken(n: usize, finished: u16, choice: Choice) -> Stepped
    requires { n ≤ 1024 }
    ensures { result ≡ taken_to n finished choice }
{
    Stepped {
        standing: Standing {
            length: n as u16,
            phase: (number_of(choice.kind) + 1) % 3,
            finished: finished_with(finished, n),
        },
        transition: Transition::Taken(choice),
    }
}

// Selection rule i: "The rule's plan becomes the plan."
fn step_selection(card: &Card, m: Standing, plan: &mut Plan, i: usize) -> Stepped
    requires { SomeOpen card.now.layout card.now.bytes.now m plan.old (select i) }
    ensures { AllOpen card.now.layout card.now.bytes.now m plan.old (select i) (λ σ γ.
        StepsBy card.now.layout card.now.bytes.now (configured σ γ m plan.old) (select i)
        result.transition (configured σ γ result.standing plan.new)) }
{
    let e = card.selection(i);
    let n = e.plan.length as usize;
    plans::replace_front(plan, 0, 0, card.bytes, card.pool_at(e.plan.start), n);
    let choice = Choice {
        kind: Kind::Selection,
        number: i,
    };
    taken(n, m.finished, choice)
}

// Specification i: "Beliefs become (beliefs with Add) without Del.", "after an action the goals are those not believed", "The first
// action leaves the plan." The sets are changed in copies, which the compiler knows to lie apart.
fn step_action(
    card: &Card,
    beliefs: &mut Set,
    goals: &mut Set,
    m: Standing,
    plan: &mut Plan,
    i: usize,
) -> Stepped
    requires { Ready card.now.layout card.now.bytes.now (configured beliefs.old goals.old m plan.old)
        × Enabled card.now.layout card.now.bytes.now (configured beliefs.old goals.old m plan.old) (act i) }
    ensures { StepsBy card.now.layout card.now.bytes.now (configured beliefs.old goals.old m plan.old) (act i)
        result.transition (configured beliefs.new goals.new result.standing plan.new) }
{
    let n = m.length as usize;
    let mut believed = *beliefs;
    card.act_on(&mut believed, i);
    *goals = sets::difference(*goals, believed);
    *beliefs = believed;
    plans::drop_front(plan, n, 1);
    let choice = Choice {
        kind: Kind::Action,
        number: i,
    };
    taken(n - 1, m.finished, choice)
}

// How many actions a revision leaves of a plan of n, whose front is its head: "The body takes the head's place; the rest stays."
pub fn revised_length(e: RevisionEntry, n: usize) -> usize
    requires { (e.head.length ≤ n) × (n ≤ 1024) × TwoByteSpan e.body }
    ensures { result ≡ e.body.length + (n - e.head.length) }
{
    e.body.length as usize + (n - e.head.length as usize)
}

// Revision rule i: "The body takes the head's place; the rest stays." A plan that would be too long is not made.
fn step_revision(card: &Card, m: Standing, plan: &mut Plan, i: usize) -> Stepped
    requires { SomeOpen card.now.layout card.now.bytes.now m plan.old (revise i) }
    ensures { AllOpen card.now.layout card.now.bytes.now m plan.old (revise i) (λ σ γ.
        StepsBy card.now.layout card.now.bytes.now (configured σ γ m plan.old) (revise i)
        result.transition (configured σ γ result.standing plan.new)) }
{
    let e = card.revision(i);
    let n = m.length as usize;
    let after = revised_length(e, n);
    if longest_plan() < after {
        return Stepped {
            standing: m,
            transition: Transition::Full,
        };
    }
    plans::replace_front(
        plan,
        n,
        e.head.length as usize,
        card.bytes,
        card.pool_at(e.body.start),
        e.body.length as usize,
    );
    let choice = Choice {
        kind: Kind::Revision,
        number: i,
    };
    taken(after, m.finished, choice)
}

// The transition of an enabled choice.
pub fn step(
    card: &Card,
    beliefs: &mut Set,
    goals: &mut Set,
    m: Standing,
    plan: &mut Plan,
    choice: Choice,
) -> Stepped
    requires { Ready card.now.layout card.now.bytes.now (configured beliefs.old goals.old m plan.old)
        × Enabled card.now.layout card.now.bytes.now (configured beliefs.old goals.old m plan.old) (choice_of choice) }
    ensures { StepsBy card.now.layout card.now.bytes.now (configured beliefs.old goals.old m plan.old)
        (choice_of choice) result.transition (configured beliefs.new goals.new result.standing plan.new) }
{
    match choice.kind {
        Kind::Selection => step_selection(card, m, plan, choice.number),
        Kind::Action => step_action(card, beliefs, goals, m, plan, choice.number),
        Kind::Revision => step_revision(card, m, plan, choice.number),
    }
}
