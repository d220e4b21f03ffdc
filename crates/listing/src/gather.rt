// The enabled choices gathered into a set of codes, and the conditions counted that are judged for them (02, Wish 11).
ghost use Rattle.std.specs.Prelude.{◌≡◌, ◌+◌, ◌*◌, ◌≤◌, ◌<◌, length, replicate};
ghost use Rattle.runs.specs.Kinds.{kind_number};
ghost use Rattle.meaning.specs.Looking.{conditions_judged};
ghost use Rattle.door.specs.Words.{agent_for, state_of, configured, Ready};
ghost use Rattle.layout.specs.Entries.{count_of};
ghost use Rattle.choices.specs.Judged.{SomeSets, AllSets};
ghost use Rattle.listing.specs.Listed.{enabled_code, Gathered};
ghost use Rattle.listing.specs.Looking.{look_at, look_by, judged_in};

use choices::ask::{ask, is_enabled};
use choices::truth::{Marks, is_true, judge_nodes};
use door::asked::{Asked, Choice};
use layout::card::Card;
use meaning::{Plan, Set, Standing};
use runs::Kind;
use sets::add_member;

// Of a choice: whether it is enabled, and how many conditions are judged for it, also where it is not.
#[derive(Clone, Copy)]
pub struct Look {
    pub enabled: bool,
    pub judged: usize,
}

// Of the choices so far: how many are enabled, and how many conditions are judged for them.
#[derive(Clone, Copy)]
pub struct Looked {
    pub enabled: usize,
    pub judged: usize,
}

// Selection rule i, with an empty plan: "one for each selection rule, and one more where its belief condition holds".
fn look_at_selection(card: &Card, m: Standing, plan: &Plan, marks: &Marks, i: usize) -> Look
    requires { SomeSets card.now.layout card.now.bytes.now m plan.now marks.now × (i < card.now.layout.selections.count) × (m.length ≡ 0) }
    ensures { AllSets card.now.layout card.now.bytes.now m plan.now marks.now (λ c. result ≡ look_at card.now.layout card.now.bytes.now c 0 i) }
{
    let e = card.selection(i);
    let choice = Choice {
        kind: Kind::Selection,
        number: i,
    };
    Look {
        enabled: is_enabled(card, m, plan, marks, choice),
        judged: if is_true(marks[e.belief as usize]) {
            2
        } else {
            1
        },
    }
}

// A specification or a revision rule, by what asking for it answers: its condition is judged where the plan's front fits.
fn look_by(asked: Asked) -> Look
    ensures { result ≡ look_by asked }
{
    match asked {
        Asked::Enabled => Look {
            enabled: true,
            judged: 1,
        },
        Asked::Condition(_) => Look {
            enabled: false,
            judged: 1,
        },
        Asked::Front | Asked::NoRule => Look {
            enabled: false,
            judged: 0,
        },
    }
}

// A choice that the card has: a selection rule with an empty plan, or another choice.
fn look_at(card: &Card, m: Standing, plan: &Plan, marks: &Marks, choice: Choice) -> Look
    requires { SomeSets card.now.layout card.now.bytes.now m plan.now marks.now × (choice.number < count_of card.now.layout (kind_number choice.kind))
        × (kind_number choice.kind ≡ 0 → m.length ≡ 0) }
    ensures { AllSets card.now.layout card.now.bytes.now m plan.now marks.now
        (λ c. result ≡ look_at card.now.layout card.now.bytes.now c (kind_number choice.kind) choice.number) }
{
    match choice.kind {
        Kind::Selection => look_at_selection(card, m, plan, marks, choice.number),
        Kind::Action | Kind::Revision => look_by(ask(card, m, plan, marks, choice)),
    }
}

// The codes of a kind's enabled choices into a set that has those of the kinds before, and the conditions judged for them.
fn gather_kind(
    card: &Card,
    m: Standing,
    plan: &Plan,
    marks: &Marks,
    kind: Kind,
    codes: &mut [u8; 96],
    before: Looked,
) -> Looked
    requires some_sets { SomeSets card.now.layout card.now.bytes.now m plan.now marks.now × (length codes.old ≡ 96)
        × (kind_number kind ≡ 0 → m.length ≡ 0) }
    requires enabled_bound { (before.enabled ≤ 512) × (before.judged ≤ 512) }
    ensures all_sets { AllSets card.now.layout card.now.bytes.now m plan.now marks.now
        (λ c. Gathered (enabled_code card.now.layout card.now.bytes.now c) (256 * kind_number kind) codes.old before.enabled
        → Gathered (enabled_code card.now.layout card.now.bytes.now c) (256 * kind_number kind + 256) codes.new result.enabled) }
    ensures all_sets_2 { AllSets card.now.layout card.now.bytes.now m plan.now marks.now
        (λ c. result.judged ≡ before.judged + judged_in card.now.layout card.now.bytes.now c (kind_number kind) (count_of card.now.layout (kind_number kind))) }
    ensures codes_len { (length codes.new ≡ 96) × (result.enabled ≤ before.enabled + 256) }
{
    let mut enabled = before.enabled;
    let mut judged = before.judged;
    for number in 0..card.count_of(kind) {
        let choice = Choice { kind, number };
        let look = look_at(card, m, plan, marks, choice);
        judged += look.judged;
        if look.enabled {
            add_member(codes, choice.code() as usize);
            enabled += 1;
        }
    }
    Looked { enabled, judged }
}

// Into the empty set: with an empty plan the selection rules, "otherwise" the specifications and the revision rules.
pub fn gather(
    card: &Card,
    beliefs: &Set,
    goals: &Set,
    m: Standing,
    plan: &Plan,
    codes: &mut [u8; 96],
) -> Looked
    requires { Ready card.now.layout card.now.bytes.now (configured beliefs.now goals.now m plan.now) × (codes.old ≡ replicate 96 0) }
    ensures gathered { Gathered (enabled_code card.now.layout card.now.bytes.now (configured beliefs.now goals.now m plan.now))
        768 codes.new result.enabled }
    ensures judged_value { result.judged ≡ conditions_judged (agent_for card.now.layout card.now.bytes.now)
        (state_of (configured beliefs.now goals.now m plan.now)).mental }
    ensures codes_len { length codes.new ≡ 96 }
{
    let mut marks = [0; 256];
    judge_nodes(card, beliefs, goals, &mut marks);
    let nothing = Looked {
        enabled: 0,
        judged: 0,
    };
    if m.length == 0 {
        return gather_kind(card, m, plan, &marks, Kind::Selection, codes, nothing);
    }
    let acting = gather_kind(card, m, plan, &marks, Kind::Action, codes, nothing);
    gather_kind(card, m, plan, &marks, Kind::Revision, codes, acting)
}
