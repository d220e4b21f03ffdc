// Grading: bounded, or open with the first offender.
ghost use Rattle.std.specs.Prelude.{◌≡◌, ◌<◌, leb, ltb};
ghost use Rattle.runs.specs.Limits.{heaviest_plan};
ghost use Rattle.runs.specs.Weight.{verdict};
ghost use Rattle.meaning.specs.Card.{selection_at, revision_at, weight, agent, initial_plan};
ghost use Rattle.meaning.specs.Configurations.{empty};
ghost use Rattle.meaning.specs.Calls.{grades};
ghost use Rattle.card.specs.GoodCard.{GoodCard};
ghost use Rattle.verdict.specs.Summed.{Summed};
ghost use Rattle.verdict.specs.Verdicts.{plan_weight, revisions_verdict, selections_verdict, graded_with};

use crate::sums::{plan_weight, sum};
use card::check::{accept, answer_of};
use layout::card::Card;
use layout::limits::heaviest_plan;
use layout::sizes::header_bytes;
use meaning::Answer;
use runs::{Offender, Verdict};

// Whether selection rule i's plan weighs at most 1,024.
fn selection_light(card: &Card, sums: &[u32; 257], i: usize) -> bool
    requires { GoodCard card.now.layout card.now.bytes.now × Summed card.now.layout.pool card.now.bytes.now sums.now × (i < card.now.layout.selections.count) }
    ensures { result ≡ leb (plan_weight card.now.layout card.now.bytes.now (selection_at card.now.layout card.now.bytes.now i).plan) heaviest_plan }
{
    let plan = card.selection(i).plan;
    plan_weight(
        card.bytes,
        header_bytes(card.layout),
        card.layout.pool,
        sums,
        plan,
    ) <= heaviest_plan()
}

// Whether revision rule i's body weighs less than its head.
fn revision_lowers(card: &Card, sums: &[u32; 257], i: usize) -> bool
    requires { GoodCard card.now.layout card.now.bytes.now × Summed card.now.layout.pool card.now.bytes.now sums.now × (i < card.now.layout.revisions.count) }
    ensures { result ≡ ltb (plan_weight card.now.layout card.now.bytes.now (revision_at card.now.layout card.now.bytes.now i).body)
        (plan_weight card.now.layout card.now.bytes.now (revision_at card.now.layout card.now.bytes.now i).head) }
{
    let e = card.revision(i);
    let weights = header_bytes(card.layout);
    let head = plan_weight(card.bytes, weights, card.layout.pool, sums, e.head);
    let body = plan_weight(card.bytes, weights, card.layout.pool, sums, e.body);
    body < head
}

// The first revision rule that does not lower the weight. The two walks ask another question, name another offender and go on to
// something else, so one with closures for these is no plainer.
fn from_revisions(card: &Card, sums: &[u32; 257]) -> Verdict
    requires { GoodCard card.now.layout card.now.bytes.now × Summed card.now.layout.pool card.now.bytes.now sums.now }
    ensures { result ≡ revisions_verdict card.now.layout card.now.bytes.now }
{
    for i in 0..card.layout.revisions.count as usize {
        if !revision_lowers(card, sums, i) {
            return Verdict::Open(Offender::Revision(i));
        }
    }
    Verdict::Bounded
}

// The first selection rule whose plan is too heavy; then the revision rules.
fn from_selections(card: &Card, sums: &[u32; 257]) -> Verdict
    requires { GoodCard card.now.layout card.now.bytes.now × Summed card.now.layout.pool card.now.bytes.now sums.now }
    ensures { result ≡ selections_verdict card.now.layout card.now.bytes.now }
{
    for i in 0..card.layout.selections.count as usize {
        if !selection_light(card, sums, i) {
            return Verdict::Open(Offender::Selection(i));
        }
    }
    from_revisions(card, sums)
}

// The initial plan, if it is too heavy; then the selection rules.
fn from_initial(card: &Card, sums: &[u32; 257]) -> Verdict
    requires { GoodCard card.now.layout card.now.bytes.now × Summed card.now.layout.pool card.now.bytes.now sums.now }
    ensures { result ≡ verdict (weight card.now.bytes.now) (agent card.now.bytes.now) (initial_plan card.now.bytes.now) }
{
    if plan_weight(
        card.bytes,
        header_bytes(card.layout),
        card.layout.pool,
        sums,
        card.layout.initial,
    ) <= heaviest_plan()
    {
        from_selections(card, sums)
    } else {
        Verdict::Open(Offender::InitialPlan)
    }
}

// The verdict on an accepted card.
pub fn judge(card: &Card) -> Verdict
    requires { GoodCard card.now.layout card.now.bytes.now }
    ensures { result ≡ verdict (weight card.now.bytes.now) (agent card.now.bytes.now) (initial_plan card.now.bytes.now) }
{
    let mut sums = [0; 257];
    sum(
        card.bytes,
        header_bytes(card.layout),
        card.layout.pool,
        &mut sums,
    );
    from_initial(card, &sums)
}

// Of `Graded`: all but the configuration, which is the empty one.
#[derive(Clone, Copy)]
pub struct GradedInPlace {
    pub answer: Answer,
    pub verdict: Verdict,
}

// The verdict on a card. A refused card is never called bounded.
pub fn grade(card: &[u8]) -> GradedInPlace
    ensures { graded_with result empty ≡ grades card.now }
{
    let v = accept(card);
    let Ok(card) = v else {
        return GradedInPlace {
            answer: answer_of(v),
            verdict: Verdict::Open(Offender::InitialPlan),
        };
    };
    GradedInPlace {
        answer: Ok(()),
        verdict: judge(&card),
    }
}
