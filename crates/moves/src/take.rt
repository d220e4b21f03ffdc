// Taking a choice: "A chosen move is taken exactly if it is such a transition and its plan fits."
ghost use Rattle.std.specs.Prelude.{◌≡◌};
ghost use Rattle.runs.specs.Step.{step_by};
ghost use Rattle.door.specs.Words.{agent_for, state_of, configured, Ready, reply_with};
ghost use Rattle.meaning.specs.declared.Refusal.{Refusal};
ghost use Rattle.meaning.specs.Why.{why_closed};
ghost use Rattle.meaning.specs.Calls.{choice, takes};
ghost use Rattle.door.specs.Asking.{answer_asked};
ghost use Rattle.moves.specs.Steps.{answer_to, taken_by};

use crate::step::{Transition, step};
use card::check::answer_of;
use choices::ask::ask;
use choices::truth::judge_nodes;
use door::admit::admit;
use door::asked::{Asked, Choice};
use door::in_place::ReplyInPlace;
use layout::card::Card;
use meaning::{Answer, Plan, Refusal, Set, Standing};

// 02, Wish 1: "Refusals: 10 gives way to three in its place and this order", "only a refused choice shows it".
fn answer_asked(asked: Asked) -> Answer
    ensures { result ≡ answer_asked asked }
{
    match asked {
        Asked::Enabled => Ok(()),
        Asked::NoRule => Err(Refusal::NoRule),
        Asked::Front => Err(Refusal::Front),
        Asked::Condition(node) => Err(Refusal::Condition(node as usize)),
    }
}

// Row 11: what is answered of what a transition comes to. Of an enabled choice there is one, and done or 11 is answered.
fn answer_to(transition: Transition) -> Answer
    ensures { result ≡ answer_to Refusal.NoRule transition }
{
    match transition {
        Transition::Taken(_) => Ok(()),
        Transition::Nothing => Err(Refusal::NoRule),
        Transition::Full => Err(Refusal::PlanFull),
    }
}

// A choice is asked for by its code and, where it is enabled and its plan fits, made: rows 10 and 11.
pub fn take_choice(
    card: &Card,
    beliefs: &mut Set,
    goals: &mut Set,
    m: Standing,
    plan: &mut Plan,
    code: u16,
) -> ReplyInPlace
    requires { Ready card.now.layout card.now.bytes.now (configured beliefs.old goals.old m plan.old) }
    ensures { reply_with result beliefs.new goals.new plan.new
        ≡ taken_by (why_closed card.now.layout card.now.bytes.now
        (state_of (configured beliefs.old goals.old m plan.old)).mental (choice code))
        (step_by (agent_for card.now.layout card.now.bytes.now) (state_of (configured beliefs.old goals.old m plan.old)) (choice code))
        (configured beliefs.old goals.old m plan.old) }
{
    let Some(choice) = Choice::of_code(code) else {
        return ReplyInPlace {
            answer: Err(Refusal::NoRule),
            standing: m,
        };
    };
    let mut marks = [0; 256];
    judge_nodes(card, beliefs, goals, &mut marks);
    let answer = answer_asked(ask(card, m, plan, &marks, choice));
    let Ok(()) = answer else {
        return ReplyInPlace {
            answer,
            standing: m,
        };
    };
    let s = step(card, beliefs, goals, m, plan, choice);
    ReplyInPlace {
        answer: answer_to(s.transition),
        standing: s.standing,
    }
}

// The chosen move, in place; what is not taken is as it came in.
pub fn take(
    card: &[u8],
    beliefs: &mut Set,
    goals: &mut Set,
    m: Standing,
    plan: &mut Plan,
    choice: u16,
) -> ReplyInPlace
    ensures { reply_with result beliefs.new goals.new plan.new
        ≡ takes card.now (configured beliefs.old goals.old m plan.old) choice }
{
    let admitted = admit(card, beliefs, goals, m, plan);
    let Ok(card) = admitted else {
        return ReplyInPlace {
            answer: answer_of(admitted),
            standing: m,
        };
    };
    take_choice(&card, beliefs, goals, m, plan, choice)
}
