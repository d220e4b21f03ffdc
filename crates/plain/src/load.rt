// The card and the configuration that are handed in, and the configuration that a card starts with.
ghost use Rattle.std.specs.Prelude.{◌≡◌};
ghost use Rattle.demands.specs.CallContracts.{Loads};
ghost use Rattle.door.specs.Admitted.{Admitted};
ghost use Rattle.door.specs.Words.{start, configuration_of, empty, GoodCard};
ghost use Rattle.unpacked.specs.Truths.{configuration_from};

use crate::make::copy_plan;
use card::check::{accept, answer_of};
use door::admit::admit;
use layout::card::Card;
use meaning::{Answer, Configuration, Refusal, Reply, Standing};
use unpacked::configuration::{Unpacked, pack};
use unpacked::truths::{none_true, strike, unpack_set};

// An answer, and the configuration with it.
#[derive(Clone, Copy)]
pub struct Answered {
    pub answer: Answer,
    pub unpacked: Unpacked,
}

// An accepted card, where the configuration is accepted too, or the refusal: rows 1 to 9, then row 13.
pub fn admit_configuration(card: &[u8], c: Configuration) -> Result<Card<'_>, Refusal>
    ensures { Admitted card.now c result }
{
    let standing = Standing {
        length: c.mind.length,
        phase: c.mind.phase,
        finished: c.mind.finished,
    };
    admit(card, &c.mind.beliefs, &c.mind.goals, standing, &c.plan)
}

// "phase 0", and nothing finished, with a plan of n actions.
fn at_first(n: u16) -> Standing
    ensures { result ≡ record { length = n; phase = 0; finished = 0 } }
{
    Standing {
        length: n,
        phase: 0,
        finished: 0,
    }
}

// "the card's initial beliefs, goals and plan with phase 0", where "the goals are those not believed, and at load likewise".
fn first(card: &Card) -> Unpacked
    requires { GoodCard card.now.layout card.now.bytes.now }
    ensures { configuration_from result ≡ configuration_of (start card.now.bytes.now) }
{
    let n = card.layout.initial.length;
    let beliefs = unpack_set(card.initial_beliefs());
    let goals = unpack_set(card.initial_goals());
    let plan = copy_plan(
        card.bytes,
        card.pool_at(card.layout.initial.start),
        n as usize,
        [0u8; 1024],
        0,
        0,
    );
    Unpacked {
        beliefs,
        goals: strike(goals, beliefs),
        plan,
        standing: at_first(n),
    }
}

// "the empty one (no atoms, empty plan, phase 0)"
fn nothing() -> Unpacked
    ensures { configuration_from result ≡ empty }
{
    Unpacked {
        beliefs: none_true(),
        goals: none_true(),
        plan: [0u8; 1024],
        standing: at_first(0),
    }
}

// The configuration that a card starts with; the empty one in a refusal.
pub fn load(card: &[u8]) -> Reply
    ensures { Loads card.now result }
{
    let accepted = accept(card);
    let Ok(card) = accepted else {
        return Reply {
            answer: answer_of(accepted),
            configuration: pack(nothing()),
        };
    };
    Reply {
        answer: Ok(()),
        configuration: pack(first(&card)),
    }
}
