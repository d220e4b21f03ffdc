// A transition is made, by one of Definitions 9 to 11: what changes is copied.
ghost use Rattle.std.specs.Prelude.{◌≡◌, ◌++◌, ◌+◌, ◌-◌, ◌≤◌, ◌<◌, length, take, drop};
ghost use Rattle.paper.specs.Transitions.{select, act, revise};
ghost use Rattle.meaning.specs.Card.{part, selection_at, revision_at};
ghost use Rattle.meaning.specs.Configurations.{padded};
ghost use Rattle.door.specs.Words.{Ready, choice_of};
ghost use Rattle.moves.specs.Steps.{Enabled, StepsBy, finished_at};
ghost use Rattle.unpacked.specs.Tables.{Tabled};
ghost use Rattle.unpacked.specs.Truths.{configuration_from};
ghost use Rattle.plain.specs.Calls.{taken_from};

use door::asked::Choice;
use layout::card::Card;
use meaning::{Plan, RevisionEntry, SelectionEntry, Standing};
use moves::step::Transition;
use runs::Kind;
use unpacked::configuration::Unpacked;
use unpacked::tables::Tables;
use unpacked::truths::{act_on, strike, unpack_set};

// What a transition comes to, and the configuration afterwards: as it was, unless one was taken.
#[derive(Clone, Copy)]
pub struct Made {
    pub transition: Transition,
    pub unpacked: Unpacked,
}

// A new plan: n actions of the card from `at` on, then the plan's own from `from` to its end.
pub fn copy_plan(card: &[u8], at: usize, n: usize, plan: Plan, from: usize, len: usize) -> Plan
    requires { (at + n ≤ length card.now) × (from ≤ len) × (len ≤ 1024) × (n + (len - from) ≤ 1024) }
    ensures { result ≡ padded (part card.now at n ++ drop from (take len plan)) }
{
    let mut copied = [0u8; 1024];
    layout::bytes::copy(&mut copied, 0, card, at, n);
    layout::bytes::copy(&mut copied, n, &plan, from, len - from);
    copied
}

// "how many transitions have left the plan empty since load, stopping at 65,535": after one more, which leaves n actions.
fn finished_with(finished: u16, n: usize) -> u16
    ensures { result ≡ finished_at finished n }
{
    if (n == 0) & (finished < 65535) {
        finished + 1
    } else {
        finished
    }
}

// A move taken, which leaves a plan of n actions: "After any transition, the guide's or a chosen one, the phase is the kind taken
// plus 1, modulo 3."
fn taken(choice: Choice, u: Unpacked, plan: Plan, n: usize) -> Made
    requires { n ≤ 1024 }
    ensures { result ≡ taken_from choice u plan n }
{
    Made {
        transition: Transition::Taken(choice),
        unpacked: Unpacked {
            plan,
            standing: Standing {
                length: n as u16,
                phase: (choice.kind as u8 + 1) % 3,
                finished: finished_with(u.standing.finished, n),
            },
            ..u
        },
    }
}

// Selection rule i: "The rule's plan becomes the plan."
fn make_selection(card: &Card, e: SelectionEntry, u: Unpacked, i: usize) -> Made
    requires { Ready card.now.layout card.now.bytes.now (configuration_from u)
        × Enabled card.now.layout card.now.bytes.now (configuration_from u) (select i)
        × (e ≡ selection_at card.now.layout card.now.bytes.now i) }
    ensures { StepsBy card.now.layout card.now.bytes.now (configuration_from u) (select i) result.transition (configuration_from result.unpacked) }
{
    let len = u.standing.length as usize;
    let n = e.plan.length as usize;
    let after = copy_plan(card.bytes, card.pool_at(e.plan.start), n, u.plan, len, len);
    let choice = Choice {
        kind: Kind::Selection,
        number: i,
    };
    taken(choice, u, after, n)
}

// Specification i: "Beliefs become (beliefs with Add) without Del.", "after an action the goals are those not believed", "The first
// action leaves the plan."
fn make_action(card: &Card, u: Unpacked, i: usize) -> Made
    requires { Ready card.now.layout card.now.bytes.now (configuration_from u) × Enabled card.now.layout card.now.bytes.now (configuration_from u) (act i) }
    ensures { StepsBy card.now.layout card.now.bytes.now (configuration_from u) (act i) result.transition (configuration_from result.unpacked) }
{
    let len = u.standing.length as usize;
    let e = card.specification(i);
    let beliefs = act_on(u.beliefs, unpack_set(e.add), unpack_set(e.del));
    let acted = Unpacked {
        beliefs,
        goals: strike(u.goals, beliefs),
        ..u
    };
    let choice = Choice {
        kind: Kind::Action,
        number: i,
    };
    taken(
        choice,
        acted,
        copy_plan(card.bytes, 0, 0, u.plan, 1, len),
        len - 1,
    )
}

// Revision rule i: "The body takes the head's place; the rest stays." A plan that would be too long is not made.
fn make_revision(card: &Card, e: RevisionEntry, u: Unpacked, i: usize) -> Made
    requires { Ready card.now.layout card.now.bytes.now (configuration_from u)
        × Enabled card.now.layout card.now.bytes.now (configuration_from u) (revise i)
        × (e ≡ revision_at card.now.layout card.now.bytes.now i) }
    ensures { StepsBy card.now.layout card.now.bytes.now (configuration_from u) (revise i) result.transition (configuration_from result.unpacked) }
{
    let len = u.standing.length as usize;
    let n = e.body.length as usize;
    let from = e.head.length as usize;
    if 1024 < n + (len - from) {
        return Made {
            transition: Transition::Full,
            unpacked: u,
        };
    }
    let after = copy_plan(card.bytes, card.pool_at(e.body.start), n, u.plan, from, len);
    let choice = Choice {
        kind: Kind::Revision,
        number: i,
    };
    taken(choice, u, after, n + (len - from))
}

// The transition of an enabled choice.
pub fn make(card: &Card, t: Tables, u: Unpacked, choice: Choice) -> Made
    requires ready { Ready card.now.layout card.now.bytes.now (configuration_from u) × Tabled card.now.layout card.now.bytes.now t }
    requires enabled { Enabled card.now.layout card.now.bytes.now (configuration_from u) (choice_of choice) }
    ensures { StepsBy card.now.layout card.now.bytes.now (configuration_from u) (choice_of choice) result.transition (configuration_from result.unpacked) }
{
    let i = choice.number;
    match choice.kind {
        Kind::Selection => make_selection(card, t.selections[i], u, i),
        Kind::Action => make_action(card, u, i),
        Kind::Revision => make_revision(card, t.revisions[i], u, i),
    }
}
