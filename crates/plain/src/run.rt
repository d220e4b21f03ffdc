// A run: the guide's own moves, one after the other.
ghost use Rattle.std.specs.Prelude.{◌≡◌};
ghost use Rattle.demands.specs.CallContracts.{Runs};
ghost use Rattle.runs.specs.Run.{run};
ghost use Rattle.meaning.specs.Calls.{ran};
ghost use Rattle.door.specs.Words.{agent_for, state_of, Ready};
ghost use Rattle.moves.specs.Steps.{Advances};
ghost use Rattle.unpacked.specs.Tables.{Tabled};
ghost use Rattle.unpacked.specs.Truths.{configuration_from};
ghost use Rattle.plain.specs.Calls.{ran_from};

use crate::choose::choose;
use crate::judge::judge_all;
use crate::load::admit_configuration;
use crate::make::{Made, make};
use card::check::answer_of;
use layout::card::Card;
use meaning::{Configuration, Ran};
use moves::step::Transition;
use runs::Ending;
use unpacked::configuration::{Unpacked, pack, unpack};
use unpacked::tables::{Tables, unpack_card};

// What a run comes to.
#[derive(Clone, Copy)]
pub struct RunsTo {
    pub count: u16,
    pub ending: Ending,
    pub unpacked: Unpacked,
}

// A run that ends.
fn ended(count: u16, ending: Ending, u: Unpacked) -> RunsTo
    ensures { result ≡ record { count = count; ending = ending; unpacked = u } }
{
    RunsTo {
        count,
        ending,
        unpacked: u,
    }
}

// One move of the guide's own: every node is judged, the choice found, and the transition made.
fn advance(card: &Card, t: Tables, u: Unpacked) -> Made
    requires { Ready card.now.layout card.now.bytes.now (configuration_from u) × Tabled card.now.layout card.now.bytes.now t }
    ensures { Advances card.now.layout card.now.bytes.now (configuration_from u) result.transition (configuration_from result.unpacked) }
{
    let judged = judge_all(card.layout, t, u);
    let Some(choice) = choose(card, t, u, judged) else {
        return Made {
            transition: Transition::Nothing,
            unpacked: u,
        };
    };
    make(card, t, u, choice)
}

// At most budget moves of the guide's own. "The budget is looked at first".
fn run_on(card: &Card, t: Tables, u: Unpacked, budget: u16) -> RunsTo
    requires { Ready card.now.layout card.now.bytes.now (configuration_from u) × Tabled card.now.layout card.now.bytes.now t }
    ensures { ran_from result ≡ ran (run (agent_for card.now.layout card.now.bytes.now) budget (state_of (configuration_from u))) }
{
    let mut here = u;
    for count in 0..budget {
        let made = advance(card, t, here);
        here = made.unpacked;
        match made.transition {
            Transition::Taken(_) => {}
            Transition::Nothing => return ended(count, Ending::Rest, here),
            Transition::Full => return ended(count, Ending::Full, here),
        }
    }
    ended(budget, Ending::Spent, here)
}

// What is reached, the count, and why the run ended.
pub fn run(card: &[u8], c: Configuration, budget: u16) -> Ran
    ensures { Runs card.now c budget result }
{
    let admitted = admit_configuration(card, c);
    let Ok(card) = admitted else {
        return Ran {
            answer: answer_of(admitted),
            count: 0,
            ending: Ending::Spent,
            configuration: c,
        };
    };
    let reached = run_on(&card, unpack_card(&card), unpack(c), budget);
    Ran {
        answer: Ok(()),
        count: reached.count,
        ending: reached.ending,
        configuration: pack(reached.unpacked),
    }
}
