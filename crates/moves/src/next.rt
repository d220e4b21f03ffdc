// What comes next: the guide's own choice, and whether its plan fits. No move is made, and no plan is copied.
ghost use Rattle.std.specs.Prelude.{◌≡◌};
ghost use Rattle.runs.specs.Step.{step};
ghost use Rattle.meaning.specs.Calls as Calls;
ghost use Rattle.door.specs.Words.{agent_for, state_of, configured, choice_of};
ghost use Rattle.choices.specs.Judged.{SomeSets, AllSets};
ghost use Rattle.moves.specs.Steps.{SomeOpen, AllOpen};
ghost use Rattle.moves.specs.Next.{is_full, next_with};

use crate::step::revised_length;
use card::check::answer_of;
use choices::ask::choose;
use choices::truth::{Marks, judge_nodes};
use door::admit::admit;
use door::asked::Choice;
use layout::card::Card;
use layout::limits::longest_plan;
use meaning::{Answer, Coming, Plan, Set, Standing};
use runs::Kind;

// What `next` answers where sets and plan are lent: all of `Next` but the configuration, which stays.
#[derive(Clone, Copy)]
pub struct NextInPlace {
    pub answer: Answer,
    pub coming: Coming,
}

// Whether an enabled choice "would leave more than 1,024 actions": a revision alone can.
fn too_long(card: &Card, m: Standing, plan: &Plan, choice: Choice) -> bool
    requires { SomeOpen card.now.layout card.now.bytes.now m plan.now (choice_of choice) }
    ensures { AllOpen card.now.layout card.now.bytes.now m plan.now (choice_of choice)
        (λ σ γ. result ≡ is_full (step (agent_for card.now.layout card.now.bytes.now) (state_of (configured σ γ m plan.now)) (choice_of choice))) }
{
    match choice.kind {
        Kind::Selection | Kind::Action => false,
        Kind::Revision => {
            let e = card.revision(choice.number);
            longest_plan() < revised_length(e, m.length as usize)
        }
    }
}

// What comes next, where every node's truth is known.
fn coming(card: &Card, m: Standing, plan: &Plan, marks: &Marks) -> Coming
    requires { SomeSets card.now.layout card.now.bytes.now m plan.now marks.now }
    ensures { AllSets card.now.layout card.now.bytes.now m plan.now marks.now
        (λ c. result ≡ Calls.coming (agent_for card.now.layout card.now.bytes.now) (state_of c)) }
{
    let Some(choice) = choose(card, m, plan, marks) else {
        return Coming::Rest;
    };
    let code = choice.code();
    if too_long(card, m, plan, choice) {
        Coming::Full(code)
    } else {
        Coming::Move(code)
    }
}

// "The guide shows the next move.": told, and not made. A refusal says rest.
pub fn next(card: &[u8], beliefs: &Set, goals: &Set, m: Standing, plan: &Plan) -> NextInPlace
    ensures { next_with result (configured beliefs.now goals.now m plan.now)
        ≡ Calls.nexts card.now (configured beliefs.now goals.now m plan.now) }
{
    let admitted = admit(card, beliefs, goals, m, plan);
    let Ok(card) = admitted else {
        return NextInPlace {
            answer: answer_of(admitted),
            coming: Coming::Rest,
        };
    };
    let mut marks = [0; 256];
    judge_nodes(&card, beliefs, goals, &mut marks);
    NextInPlace {
        answer: Ok(()),
        coming: coming(&card, m, plan, &marks),
    }
}
