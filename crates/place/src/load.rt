// Loading: "Loading answers the card's initial beliefs, goals and plan with phase 0", where "the goals are those not believed, and
// at load likewise".
ghost use Rattle.std.specs.Prelude.{◌≡◌, length};
ghost use Rattle.door.specs.Words.{start, configuration_of, empty, configured, GoodCard, reply_with};
ghost use Rattle.meaning.specs.Calls.{loads};

use card::check::{accept, answer_of};
use door::in_place::ReplyInPlace;
use layout::bytes::size;
use layout::card::Card;
use meaning::{Plan, Set, Standing};

// What an accepted card starts with, in the lent sets and plan.
fn first(card: &Card, beliefs: &mut Set, goals: &mut Set, plan: &mut Plan) -> Standing
    requires { GoodCard card.now.layout card.now.bytes.now × (length plan.old ≡ 1024) }
    ensures { configured beliefs.new goals.new result plan.new ≡ configuration_of (start card.now.bytes.now) }
{
    let initial = card.layout.initial;
    let n = initial.length;
    let at = card.pool_at(initial.start);
    let believed = card.initial_beliefs();
    *beliefs = believed;
    *goals = sets::difference(card.initial_goals(), believed);
    plans::fill(plan, card.bytes, at, n as usize);
    Standing {
        length: n,
        phase: 0,
        finished: 0,
    }
}

// "the empty one (no atoms, empty plan, phase 0)", in the lent sets and plan.
pub fn set_empty(beliefs: &mut Set, goals: &mut Set, plan: &mut Plan) -> Standing
    ensures { configured beliefs.new goals.new result plan.new ≡ empty }
{
    let room = size(plan);
    *beliefs = [0u8; 32];
    *goals = [0u8; 32];
    plans::fill(plan, b"", 0, 0);
    Standing {
        length: 0,
        phase: 0,
        finished: 0,
    }
}

// The configuration that a card starts with, in the lent sets and plan; the empty one in a refusal.
pub fn load(card: &[u8], beliefs: &mut Set, goals: &mut Set, plan: &mut Plan) -> ReplyInPlace
    ensures { reply_with result beliefs.new goals.new plan.new ≡ loads card.now }
{
    let room = size(plan);
    let accepted = accept(card);
    let Ok(card) = accepted else {
        let none = set_empty(beliefs, goals, plan);
        return ReplyInPlace {
            answer: answer_of(accepted),
            standing: none,
        };
    };
    let m = first(&card, beliefs, goals, plan);
    ReplyInPlace {
        answer: Ok(()),
        standing: m,
    }
}
