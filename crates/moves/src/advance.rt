// One move of the guide's own: it chooses, and makes the transition.
ghost use Rattle.std.specs.Prelude.{◌≡◌};
ghost use Rattle.meaning.specs.Refusals.{configuration_answer};
ghost use Rattle.layout.specs.PlaceParts.{configured};
ghost use Rattle.choices.specs.Judged.{Judged};
ghost use Rattle.moves.specs.Steps.{Advances, Steps, own_move};

use crate::step::{Stepped, Transition, step};
use card::check::answer_of;
use choices::ask::choose;
use choices::truth::{Marks, judge_nodes};
use door::admit::admit;
use layout::card::Card;
use meaning::{Answer, Plan, Set, Standing};

// The guide's own move, where every node's truth is known.
pub fn advance(
    card: &Card,
    beliefs: &mut Set,
    goals: &mut Set,
    m: Standing,
    plan: &mut Plan,
    marks: &Marks,
) -> Stepped
    requires { Judged card.now.layout card.now.bytes.now (configured beliefs.old goals.old m plan.old) marks.now }
    ensures { Advances card.now.layout card.now.bytes.now (configured beliefs.old goals.old m plan.old)
        result.transition (configured beliefs.new goals.new result.standing plan.new) }
{
    let Some(choice) = choose(card, m, plan, marks) else {
        return Stepped {
            standing: m,
            transition: Transition::Nothing,
        };
    };
    step(card, beliefs, goals, m, plan, choice)
}

// What making one move answers beside the sets and the plan.
#[derive(Clone, Copy)]
pub struct AdvancedInPlace {
    pub answer: Answer,
    pub step: Stepped,
}

// One move of the guide's own, with the choice that it took: what a program shows that tells move after move.
pub fn advance_once(
    card: &[u8],
    beliefs: &mut Set,
    goals: &mut Set,
    m: Standing,
    plan: &mut Plan,
) -> AdvancedInPlace
    ensures answer_value { result.answer
        ≡ configuration_answer card.now (configured beliefs.old goals.old m plan.old) }
    ensures steps { Steps (own_move card.now (configured beliefs.old goals.old m plan.old))
        (configured beliefs.old goals.old m plan.old) result.step.transition
        (configured beliefs.new goals.new result.step.standing plan.new) }
{
    let admitted = admit(card, beliefs, goals, m, plan);
    let Ok(card) = admitted else {
        return AdvancedInPlace {
            answer: answer_of(admitted),
            step: Stepped {
                standing: m,
                transition: Transition::Nothing,
            },
        };
    };
    let mut marks = [0; 256];
    judge_nodes(&card, beliefs, goals, &mut marks);
    AdvancedInPlace {
        answer: Ok(()),
        step: advance(&card, beliefs, goals, m, plan, &marks),
    }
}
