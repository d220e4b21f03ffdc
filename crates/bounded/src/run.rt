// A run for bounded cards: `run_on` as `run` of all cards makes it, behind another door and in words without "full".
ghost use Rattle.demands.specs.CallContracts.{BoundedRuns};
ghost use Rattle.layout.specs.PlaceParts.{configured};
ghost use Rattle.bounded.specs.InPlace.{bounded_ran_with};

use crate::admit::admit_bounded;
use crate::in_place::BoundedRanInPlace;
use crate::words::{answer_word, ending_word};
use card::check::answer_of;
use meaning::{BoundedEnding, Plan, Set, Standing};
use moves::run::run_on;

// What is reached, the count, and why the run ended; sets and plan are changed in place. The card is graded before the first move.
pub fn run(
    card: &[u8],
    beliefs: &mut Set,
    goals: &mut Set,
    m: Standing,
    plan: &mut Plan,
    budget: u16,
) -> BoundedRanInPlace
    ensures { BoundedRuns card.now (configured beliefs.old goals.old m plan.old) budget
        (bounded_ran_with result beliefs.new goals.new plan.new) }
{
    let admitted = admit_bounded(card, beliefs, goals, m, plan);
    let Ok(card) = admitted else {
        return BoundedRanInPlace {
            answer: answer_word(answer_of(admitted)),
            count: 0,
            ending: BoundedEnding::Spent,
            standing: m,
        };
    };
    let ran = run_on(&card, beliefs, goals, m, plan, budget);
    BoundedRanInPlace {
        answer: answer_word(ran.answer),
        count: ran.count,
        ending: ending_word(ran.ending),
        standing: ran.standing,
    }
}
