// The list of all enabled choices, how many conditions are judged for it, and how many goals are open.
ghost use Rattle.std.specs.Prelude.{◌≡◌, ◌++◌, ◌+◌, ◌*◌, ◌≤◌, ◌<◌, length, take};
ghost use Rattle.runs.specs.Order.{enabled_codes};
ghost use Rattle.demands.specs.CallContracts.{Lists};
ghost use Rattle.meaning.specs.Calls.{over};
ghost use Rattle.meaning.specs.Looking.{conditions_judged};
ghost use Rattle.listing.specs.Looking.{sum_of};
ghost use Rattle.door.specs.Words.{kind_number, agent_for, state_of, Ready};
ghost use Rattle.unpacked.specs.Tables.{Tabled};
ghost use Rattle.unpacked.specs.Truths.{configuration_from};
ghost use Rattle.plain.specs.Judging.{JudgedAll};
ghost use Rattle.plain.specs.Asking.{judged_by, judged_selecting};
ghost use Rattle.plain.specs.Calls.{codes_from};

use crate::ask::{Answers, ask_kind};
use crate::choose::is_enabled;
use crate::judge::{Judgements, judge_all};
use crate::load::admit_configuration;
use card::check::answer_of;
use door::asked::Asked;
use layout::card::Card;
use meaning::{Answer, Configuration, Layout, Listed, Refusal};
use runs::Kind;
use unpacked::configuration::{Unpacked, unpack};
use unpacked::tables::{Tables, unpack_card};
use unpacked::truths::count_true;

// Codes of choices, and how many they are.
#[derive(Clone, Copy)]
pub struct Codes {
    pub codes: [u16; 768],
    pub count: usize,
}

// "A choice is coded as 256 times the kind … plus the number".
fn code_of(kind: Kind, number: usize) -> u16
    requires { number < 256 }
    ensures { result ≡ 256 * kind_number kind + number }
{
    256 * (kind as u16) + (number as u16)
}

// The codes of a kind's enabled choices too.
fn add_kind(before: Codes, answers: Answers, kind: Kind) -> Codes
    requires { before.count ≤ 512 }
    ensures codes_value { take result.count result.codes ≡ take before.count before.codes ++ codes_from answers (kind_number kind) }
    ensures count_bound { result.count ≤ before.count + 256 }
{
    let mut codes = before.codes;
    let mut count = before.count;
    for number in 0..256 {
        if is_enabled(answers[number]) {
            codes[count] = code_of(kind, number);
            count += 1;
        }
    }
    Codes { codes, count }
}

// All of them, "rising, each once".
fn gather(card: &Card, t: Tables, u: Unpacked, judged: Judgements) -> Codes
    requires ready { Ready card.now.layout card.now.bytes.now (configuration_from u) × Tabled card.now.layout card.now.bytes.now t }
    requires judged_all { JudgedAll card.now.layout card.now.bytes.now (configuration_from u) judged }
    ensures codes_value { take result.count result.codes
        ≡ enabled_codes (agent_for card.now.layout card.now.bytes.now) (state_of (configuration_from u)).mental }
    ensures count_bound { result.count ≤ 768 }
{
    let none = Codes {
        codes: [0u16; 768],
        count: 0,
    };
    let one = add_kind(
        none,
        ask_kind(card, &t, &u, &judged, Kind::Selection),
        Kind::Selection,
    );
    let two = add_kind(
        one,
        ask_kind(card, &t, &u, &judged, Kind::Action),
        Kind::Action,
    );
    add_kind(
        two,
        ask_kind(card, &t, &u, &judged, Kind::Revision),
        Kind::Revision,
    )
}

// "one for each selection rule, and one more where its belief condition holds"
fn judged_selecting(l: Layout, t: Tables, judged: Judgements) -> usize
    requires { l.selections.count ≤ 256 }
    ensures { (result ≡ sum_of (judged_selecting t judged) l.selections.count) × (result ≤ 512) }
{
    let mut count: usize = 0;
    for i in 0..l.selections.count as usize {
        count += if judged[t.selections[i].belief as usize].value {
            2
        } else {
            1
        };
    }
    count
}

// One for each whose plan's front fits: "one for each specification of the first action", "one for each revision rule whose head is
// a prefix".
fn judged_otherwise(answers: Answers) -> usize
    ensures { (result ≡ sum_of (judged_by answers) 256) × (result ≤ 256) }
{
    let mut count: usize = 0;
    for i in 0..256 {
        if matches!(answers[i], Asked::Enabled | Asked::Condition(_)) {
            count += 1;
        }
    }
    count
}

// "how many conditions one listing judges": "with an empty plan …; otherwise …".
fn conditions_judged(card: &Card, t: Tables, u: Unpacked, judged: Judgements) -> usize
    requires ready { Ready card.now.layout card.now.bytes.now (configuration_from u) × Tabled card.now.layout card.now.bytes.now t }
    requires judged_all { JudgedAll card.now.layout card.now.bytes.now (configuration_from u) judged }
    ensures { (result ≡ conditions_judged (agent_for card.now.layout card.now.bytes.now) (state_of (configuration_from u)).mental) × (result ≤ 512) }
{
    if u.standing.length == 0 {
        return judged_selecting(card.layout, t, judged);
    }
    let specifications = ask_kind(card, &t, &u, &judged, Kind::Action);
    let revisions = ask_kind(card, &t, &u, &judged, Kind::Revision);
    judged_otherwise(specifications) + judged_otherwise(revisions)
}

// The codes into the front of a lent list that has room for them; "what lies after them stays".
fn copy_codes(found: Codes, out: &mut [u16])
    requires { (found.count ≤ 768) × (found.count ≤ length out.old) }
    ensures { out.new ≡ over (take found.count found.codes) out.old }
{
    out[..found.count].copy_from_slice(&found.codes[..found.count]);
}

// "Any count in a refusal is 0."
fn refused(answer: Answer, c: Configuration) -> Listed
    ensures { result ≡ record { answer = answer; count = 0; judged = 0; goals = 0; configuration = c } }
{
    Listed {
        answer,
        count: 0,
        judged: 0,
        goals: 0,
        configuration: c,
    }
}

// All enabled choices, into a lent list.
pub fn list(card: &[u8], c: Configuration, out: &mut [u16]) -> Listed
    ensures { Lists card.now c out.old result out.new }
{
    let admitted = admit_configuration(card, c);
    let Ok(card) = admitted else {
        return refused(answer_of(admitted), c);
    };
    let t = unpack_card(&card);
    let u = unpack(c);
    let judged = judge_all(card.layout, t, u);
    let found = gather(&card, t, u, judged);
    if out.len() < found.count {
        return refused(Err(Refusal::NoRoom), c);
    }
    copy_codes(found, out);
    Listed {
        answer: Ok(()),
        count: found.count as u16,
        judged: conditions_judged(&card, t, u, judged) as u16,
        goals: count_true(u.goals) as u16,
        configuration: c,
    }
}
