// The guide's own choice: the kinds are tried in turn.
ghost use Rattle.std.specs.Prelude.{◌≡◌, ◌%◌, ◌≤◌};
ghost use Rattle.runs.specs.Order.{guide};
ghost use Rattle.listing.specs.Looking.{look_by};
ghost use Rattle.door.specs.Words.{kind_number, agent_for, state_of, chosen, Ready};
ghost use Rattle.unpacked.specs.Tables.{Tabled};
ghost use Rattle.unpacked.specs.Truths.{configuration_from};
ghost use Rattle.plain.specs.Judging.{JudgedAll};
ghost use Rattle.plain.specs.Asking.{FindsFirst};

use crate::ask::{Answers, ask_kind};
use crate::judge::Judgements;
use door::asked::{Asked, Choice};
use layout::card::Card;
use runs::Kind;
use unpacked::configuration::Unpacked;
use unpacked::tables::Tables;

// Whether a choice that was asked for is enabled.
pub fn is_enabled(asked: Asked) -> bool
    ensures { result ≡ (look_by asked).enabled }
{
    matches!(asked, Asked::Enabled)
}

// The kind of a number, modulo 3: "the kind (0 selection, 1 action, 2 revision)".
fn kind_of(number: u8) -> Kind
    ensures { kind_number result ≡ number % 3 }
{
    match number % 3 {
        0 => Kind::Selection,
        1 => Kind::Action,
        _ => Kind::Revision,
    }
}

// The lowest enabled of the first n choices of a kind, which is told by its number, modulo 3.
pub fn first_enabled(answers: Answers, n: usize, kind: u8) -> Option<Choice>
    requires { n ≤ 256 }
    ensures { FindsFirst answers n (kind % 3) result }
{
    let kind = kind_of(kind);
    for number in 0..n {
        if is_enabled(answers[number]) {
            return Some(Choice { kind, number });
        }
    }
    None
}

// "From phase p the kinds p, p+1, p+2 (modulo 3) are tried in turn. In the first kind with an enabled transition, the lowest
// number is taken."
pub fn choose(card: &Card, t: Tables, u: Unpacked, judged: Judgements) -> Option<Choice>
    requires ready { Ready card.now.layout card.now.bytes.now (configuration_from u) × Tabled card.now.layout card.now.bytes.now t }
    requires judged_all { JudgedAll card.now.layout card.now.bytes.now (configuration_from u) judged }
    ensures { result ≡ chosen (guide (agent_for card.now.layout card.now.bytes.now) (state_of (configuration_from u))) }
{
    for turn in 0..3 {
        let number = u.standing.phase + turn;
        let kind = kind_of(number);
        let answers = ask_kind(card, &t, &u, &judged, kind);
        if let Some(choice) = first_enabled(answers, card.count_of(kind), number) {
            return Some(choice);
        }
    }
    None
}
