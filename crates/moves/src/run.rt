// A run: "A run takes a budget of 0 to 65,535 transitions", each the guide's own.
ghost use Rattle.std.specs.Prelude.{◌≡◌, true, length, Ok};
ghost use Rattle.runs.specs.Run.{run};
ghost use Rattle.door.specs.Words.{agent_for, state_of, configured, GoodCard, Ready, ran_with};
ghost use Rattle.meaning.specs.Calls.{ran, runs};
ghost use Rattle.choices.specs.Judged.{Marked};

use crate::advance::advance;
use crate::step::Transition;
use card::check::answer_of;
use choices::truth::{Marks, judge_nodes};
use door::admit::admit;
use door::in_place::RanInPlace;
use layout::card::Card;
use meaning::{Plan, Set, Standing};
use runs::{Ending, Kind};

// The nodes are judged, unless their marks are known to be true.
pub fn refresh(card: &Card, beliefs: &Set, goals: &Set, known: bool, marks: &mut Marks)
    requires { GoodCard card.now.layout card.now.bytes.now × (length marks.old ≡ 256)
        × (known ≡ true → Marked card.now.layout card.now.bytes.now beliefs.now goals.now marks.old) }
    ensures { Marked card.now.layout card.now.bytes.now beliefs.now goals.now marks.new
        × (length marks.new ≡ 256) }
{
    if !known {
        judge_nodes(card, beliefs, goals, marks);
    }
}

// Where a run ends.
fn ended(m: Standing, count: u16, ending: Ending) -> RanInPlace
    ensures { result ≡ record { answer = Ok tt; count = count; ending = ending; standing = m } }
{
    RanInPlace {
        answer: Ok(()),
        count,
        ending,
        standing: m,
    }
}

// At most budget moves of the guide's own. The budget is looked at first. The nodes are judged at most once a move: their marks
// stay true until an action.
pub fn run_on(
    card: &Card,
    beliefs: &mut Set,
    goals: &mut Set,
    m: Standing,
    plan: &mut Plan,
    budget: u16,
) -> RanInPlace
    requires { Ready card.now.layout card.now.bytes.now (configured beliefs.old goals.old m plan.old) }
    ensures { ran_with result beliefs.new goals.new plan.new
        ≡ ran (run (agent_for card.now.layout card.now.bytes.now) budget (state_of (configured beliefs.old goals.old m plan.old))) }
{
    let mut cur = m;
    let mut marks = [0; 256];
    let mut known = false;
    for count in 0..budget {
        refresh(card, beliefs, goals, known, &mut marks);
        let s = advance(card, beliefs, goals, cur, plan, &marks);
        cur = s.standing;
        match s.transition {
            Transition::Taken(choice) => known = !matches!(choice.kind, Kind::Action),
            Transition::Nothing => return ended(cur, count, Ending::Rest),
            Transition::Full => return ended(cur, count, Ending::Full),
        }
    }
    ended(cur, budget, Ending::Spent)
}

// What is reached, the count, and why the run ended; sets and plan are changed in place.
pub fn run(
    card: &[u8],
    beliefs: &mut Set,
    goals: &mut Set,
    m: Standing,
    plan: &mut Plan,
    budget: u16,
) -> RanInPlace
    ensures { ran_with result beliefs.new goals.new plan.new
        ≡ runs card.now (configured beliefs.old goals.old m plan.old) budget }
{
    let admitted = admit(card, beliefs, goals, m, plan);
    let Ok(card) = admitted else {
        return RanInPlace {
            answer: answer_of(admitted),
            count: 0,
            ending: Ending::Spent,
            standing: m,
        };
    };
    run_on(&card, beliefs, goals, m, plan, budget)
}
