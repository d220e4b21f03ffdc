// Which entries of a program have a first move: in one pass from the lowest upward, with one bit an entry, for parts are shared.
ghost use Rattle.std.specs.Prelude.{◌≡◌, ℕ, ◌≤◌, ◌<◌};
ghost use Rattle.paper.specs.Atoms.{◌∈◌};
ghost use Rattle.paper.specs.Next.{is_some};
ghost use Rattle.door.specs.Words.{agent_for, state_of};
ghost use Rattle.choices.specs.Judged.{SomeSets, AllSets};
ghost use Rattle.deliberation.specs.Kinds.{entry_kind};
ghost use Rattle.deliberation.specs.FirstMove.{lowest_action};
ghost use Rattle.deliberation.specs.Entries.{entry_count};
ghost use Rattle.program.specs.GoodProgram.{GoodEntry, GoodProgram};
ghost use Rattle.deliberate.specs.First.{movable_of, Movable};

use choices::ask::is_enabled;
use choices::truth::Marks;
use door::asked::Choice;
use layout::card::Card;
use meaning::{Node, Plan, Standing};
use program::read_entry;
use runs::Kind;
use sets::{add_member, has_member};

// Whether an entry has a first move: an execute where an action is enabled, an apply and a select whose rule is enabled, a while
// always, a sequence whose left has one, a choice one of whose parts has one.
fn has_move(
    card: &Card,
    m: Standing,
    plan: &Plan,
    marks: &Marks,
    acts: bool,
    e: Node,
    movable: &[u8; 16],
) -> bool
    requires { SomeSets card.now.layout card.now.bytes.now m plan.now marks.now × ((i : ℕ) × ((i < 128) × GoodEntry card.now.layout card.now.bytes.now i e)) }
    ensures { AllSets card.now.layout card.now.bytes.now m plan.now marks.now
        (λ c. acts ≡ is_some (lowest_action (agent_for card.now.layout card.now.bytes.now) (state_of c).mental)
        → result ≡ movable_of (agent_for card.now.layout card.now.bytes.now) (state_of c).mental (entry_kind e.kind) e.a e.b (λ j. j ∈ movable.now)) }
{
    let a = e.a as usize;
    match e.kind {
        0 => acts,
        1 => {
            let revision = Choice {
                kind: Kind::Revision,
                number: a,
            };
            is_enabled(card, m, plan, marks, revision)
        }
        2 => {
            let selection = Choice {
                kind: Kind::Selection,
                number: a,
            };
            is_enabled(card, m, plan, marks, selection)
        }
        3..=4 => true,
        5 => has_member(movable, a),
        _ => has_member(movable, a) | has_member(movable, e.b as usize),
    }
}

// The entries below n that have a first move, where it is known whether an action is enabled.
pub fn mark_moves(
    card: &Card,
    m: Standing,
    plan: &Plan,
    marks: &Marks,
    program: &[u8],
    acts: bool,
    n: usize,
) -> [u8; 16]
    requires { SomeSets card.now.layout card.now.bytes.now m plan.now marks.now × GoodProgram card.now.layout card.now.bytes.now program.now × (n ≤ entry_count program.now) }
    ensures { AllSets card.now.layout card.now.bytes.now m plan.now marks.now
        (λ c. acts ≡ is_some (lowest_action (agent_for card.now.layout card.now.bytes.now) (state_of c).mental)
        → Movable card.now.layout card.now.bytes.now program.now c n result) }
{
    let mut movable = [0u8; 16];
    for i in 0..n {
        let e = read_entry(program, i);
        if has_move(card, m, plan, marks, acts, e, &movable) {
            add_member(&mut movable, i);
        }
    }
    movable
}
