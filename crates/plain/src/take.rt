// A chosen move.
ghost use Rattle.std.specs.Prelude.{◌≡◌, ◌<◌};
ghost use Rattle.demands.specs.CallContracts.{Takes};
ghost use Rattle.meaning.specs.Calls.{choice};
ghost use Rattle.meaning.specs.Why.{why_closed};
ghost use Rattle.runs.specs.Step.{step_by};
ghost use Rattle.meaning.specs.declared.Refusal.{Refusal};
ghost use Rattle.door.specs.Asking.{answer_asked};
ghost use Rattle.door.specs.Words.{agent_for, state_of, asked, choice_of, chosen, Ready};
ghost use Rattle.moves.specs.Steps.{answer_to, taken_by};
ghost use Rattle.unpacked.specs.Tables.{Tabled};
ghost use Rattle.unpacked.specs.Truths.{configuration_from};
ghost use Rattle.plain.specs.Calls.{reply_from};

use crate::ask::ask_kind;
use crate::judge::judge_all;
use crate::load::{Answered, admit_configuration};
use crate::make::make;
use card::check::answer_of;
use door::asked::{Asked, Choice};
use layout::card::Card;
use meaning::{Answer, Configuration, Refusal, Reply};
use moves::step::Transition;
use runs::Kind;
use unpacked::configuration::{Unpacked, pack, unpack};
use unpacked::tables::{Tables, unpack_card};

// The choice of a code, "256 times the kind … plus the number of the rule or specification": there is no kind past 2.
fn choice_by(code: u16) -> Option<Choice>
    ensures { result ≡ chosen (choice code) }
{
    let kind = match code / 256 {
        0 => Kind::Selection,
        1 => Kind::Action,
        2 => Kind::Revision,
        _ => return None,
    };
    let number = (code % 256) as usize;
    Some(Choice { kind, number })
}

// A choice of any number: "no such rule or specification" where there is none.
fn ask_choice(card: &Card, t: Tables, u: Unpacked, choice: Choice) -> Asked
    requires { Ready card.now.layout card.now.bytes.now (configuration_from u) × Tabled card.now.layout card.now.bytes.now t × (choice.number < 256) }
    ensures { result ≡ asked card.now.layout card.now.bytes.now (state_of (configuration_from u)).mental (choice_of choice) }
{
    let judged = judge_all(card.layout, t, u);
    ask_kind(card, &t, &u, &judged, choice.kind)[choice.number]
}

// Rows 14, 15 and 16: why a choice is closed, or done.
fn answer_asked(asked: Asked) -> Answer
    ensures { result ≡ answer_asked asked }
{
    match asked {
        Asked::Enabled => Ok(()),
        Asked::NoRule => Err(Refusal::NoRule),
        Asked::Front => Err(Refusal::Front),
        Asked::Condition(node) => Err(Refusal::Condition(node as usize)),
    }
}

// Row 11, or done: of an enabled choice there is a transition.
fn answer_made(transition: Transition) -> Answer
    ensures { result ≡ answer_to Refusal.NoRule transition }
{
    match transition {
        Transition::Taken(_) => Ok(()),
        Transition::Nothing => Err(Refusal::NoRule),
        Transition::Full => Err(Refusal::PlanFull),
    }
}

// The choice of a code is asked for and, where it is enabled and its plan fits, made.
fn take_choice(card: &Card, t: Tables, u: Unpacked, code: u16) -> Answered
    requires { Ready card.now.layout card.now.bytes.now (configuration_from u) × Tabled card.now.layout card.now.bytes.now t }
    ensures { reply_from result ≡ taken_by (why_closed card.now.layout card.now.bytes.now (state_of (configuration_from u)).mental (choice code))
        (step_by (agent_for card.now.layout card.now.bytes.now) (state_of (configuration_from u)) (choice code)) (configuration_from u) }
{
    let Some(choice) = choice_by(code) else {
        return Answered {
            answer: Err(Refusal::NoRule),
            unpacked: u,
        };
    };
    let answer = answer_asked(ask_choice(card, t, u, choice));
    let Ok(()) = answer else {
        return Answered {
            answer,
            unpacked: u,
        };
    };
    let made = make(card, t, u, choice);
    Answered {
        answer: answer_made(made.transition),
        unpacked: made.unpacked,
    }
}

// The chosen move, if it is a transition and its plan fits; else the configuration as it came in.
pub fn take(card: &[u8], c: Configuration, choice: u16) -> Reply
    ensures { Takes card.now c choice result }
{
    let admitted = admit_configuration(card, c);
    let Ok(card) = admitted else {
        return Reply {
            answer: answer_of(admitted),
            configuration: c,
        };
    };
    let taken = take_choice(&card, unpack_card(&card), unpack(c), choice);
    Reply {
        answer: taken.answer,
        configuration: pack(taken.unpacked),
    }
}
