// A chosen move for bounded cards: `take_choice` as `take` of all cards makes it, behind another door and in words without 11.
ghost use Rattle.demands.specs.CallContracts.{BoundedTakes};
ghost use Rattle.layout.specs.PlaceParts.{configured};
ghost use Rattle.bounded.specs.InPlace.{bounded_reply_with};

use crate::admit::admit_bounded;
use crate::in_place::BoundedReplyInPlace;
use crate::words::answer_word;
use card::check::answer_of;
use meaning::{Plan, Set, Standing};
use moves::take::take_choice;

// The chosen move, in place; what is not taken is as it came in.
pub fn take(
    card: &[u8],
    beliefs: &mut Set,
    goals: &mut Set,
    m: Standing,
    plan: &mut Plan,
    choice: u16,
) -> BoundedReplyInPlace
    ensures { BoundedTakes card.now (configured beliefs.old goals.old m plan.old) choice
        (bounded_reply_with result beliefs.new goals.new plan.new) }
{
    let admitted = admit_bounded(card, beliefs, goals, m, plan);
    let Ok(card) = admitted else {
        return BoundedReplyInPlace {
            answer: answer_word(answer_of(admitted)),
            standing: m,
        };
    };
    let taken = take_choice(&card, beliefs, goals, m, plan, choice);
    BoundedReplyInPlace {
        answer: answer_word(taken.answer),
        standing: taken.standing,
    }
}
