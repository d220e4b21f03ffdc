// A configuration that is handed in: row 13 of the refusal table.
ghost use Rattle.std.specs.Prelude.{◌≡◌, ◌&&◌, ◌≤◌, length, take, drop};
ghost use Rattle.meaning.specs.Refusals.{actions_good, configuration_good};
ghost use Rattle.sets.specs.Sets.{is_empty};
ghost use Rattle.layout.specs.GoodLayout.{Counted};
ghost use Rattle.layout.specs.PlaceParts.{configured};
ghost use Rattle.meaning.specs.declared.Refusal.{Refusal};
ghost use Rattle.card.specs.Rows.{row_answer};

use card::check::row;
use card::contents::actions_good;
use layout::bytes::size;
use layout::limits::longest_plan;
use meaning::{Answer, Layout, Plan, Refusal, Set, Standing};
use sets::{both_known, zeros_from};

// Whether a plan of n actions knows only so many, and zeros stand after its end.
fn plan_good(plan: &Plan, n: usize, actions: usize) -> bool
    requires { (n ≤ 1024) × (1 ≤ actions) × (actions ≤ 256) }
    ensures { result ≡ (actions_good actions (take n plan.now) && is_empty (drop n plan.now)) }
{
    let room = size(plan);
    let known = actions_good(plan, 0, n, actions);
    known & zeros_from(plan, n)
}

// Not row 13: "the configuration handed in has a plan over 1,024, an action or atom unknown to the card, a phase over 2, or
// anything but zero after the plan's end". The plan has its 1,024 bytes.
pub fn configuration_good(l: Layout, beliefs: &Set, goals: &Set, m: Standing, plan: &Plan) -> bool
    requires { Counted l }
    ensures value { result ≡ configuration_good l (configured beliefs.now goals.now m plan.now) }
    ensures plan_len { length plan.now ≡ 1024 }
{
    let room = size(plan);
    let n = m.length as usize;
    if longest_plan() < n {
        return false;
    }
    let actions = plan_good(plan, n, l.actions as usize);
    let atoms = both_known(*beliefs, *goals, l.atoms as usize);
    actions & (atoms & (m.phase <= 2))
}

// Row 13, of an accepted card.
pub fn judge_configuration(
    l: Layout,
    beliefs: &Set,
    goals: &Set,
    m: Standing,
    plan: &Plan,
) -> Answer
    requires { Counted l }
    ensures value { result ≡ row_answer (configuration_good l (configured beliefs.now goals.now m plan.now))
        Refusal.Configuration }
    ensures plan_len { length plan.now ≡ 1024 }
{
    row(
        configuration_good(l, beliefs, goals, m, plan),
        Refusal::Configuration,
    )
}
