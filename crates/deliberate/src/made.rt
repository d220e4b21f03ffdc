// A move is made: the first move of the next of the numbers that remain. 02, Wish 6: "Each move is one of the document's
// meta-level transitions, with selection added".
ghost use Rattle.std.specs.Prelude.{◌≡◌, Bool, [], ℕ, ◌≤◌, ◌<◌, length, drop};
ghost use Rattle.door.specs.Words.{Bytes, kind_number, agent_for, state_of, configured, Ready, choice_of, chosen, first_of_kind};
ghost use Rattle.layout.specs.Entries.{count_of};
ghost use Rattle.choices.specs.Judged.{mark_at, Judged, SomeSets, AllSets};
ghost use Rattle.deliberation.specs.Kinds.{EntryKind, entry_kind};
ghost use Rattle.deliberation.specs.FirstMove.{by_choice, if_enabled};
ghost use Rattle.deliberation.specs.Entries.{move_at};
ghost use Rattle.deliberation.specs.Deliberate.{move_result};
ghost use Rattle.program.specs.GoodProgram.{GoodEntry, GoodProgram};
ghost use Rattle.deliberate.specs.Descent.{Stack, AtLeaf};
ghost use Rattle.deliberate.specs.Made.{Makes, MakesNext, Remains, stayed, taken, Found, moved_by, HoldsBy, again, kept_as, kept_in};

use crate::descent::{Leaf, descend, lead};
use crate::first::mark_moves;
use choices::ask::{first_of_kind, is_enabled};
use choices::truth::{Marks, is_true};
use door::asked::Choice;
use layout::card::Card;
use meaning::{Node, Plan, Set, Standing};
use moves::step::{Stepped, Transition, step};
use runs::Kind;

// What a move comes to: it is made; there is none; or the plan that it leaves is too long.
#[derive(Clone, Copy)]
pub enum MoveMade {
    On,
    Stuck,
    Full,
}

// Where a deliberation stands beside the sets, the plan and the numbers that remain: where these begin.
#[derive(Clone, Copy)]
pub struct Point {
    pub standing: Standing,
    pub top: usize,
}

// What a move comes to, where it leaves the deliberation, and whether the marks of the nodes are still true. The flag goes with
// each of the others, so that it is no Option.
#[derive(Clone, Copy)]
pub struct AfterMove {
    pub standing: Standing,
    pub made: MoveMade,
    pub known: bool,
    pub top: usize,
}

// A move that leaves the configuration, or none: "idle moves, which leave the whole configuration as it is, phase and finished
// count too".
fn stays(m: Standing, made: MoveMade, top: usize) -> AfterMove
    ensures { result ≡ stayed m made top }
{
    AfterMove {
        standing: m,
        made,
        known: true,
        top,
    }
}

// A choice that the card has, if it is enabled.
fn if_enabled(
    card: &Card,
    m: Standing,
    plan: &Plan,
    marks: &Marks,
    choice: Choice,
) -> Option<Choice>
    requires { SomeSets card.now.layout card.now.bytes.now m plan.now marks.now × (choice.number < count_of card.now.layout (kind_number choice.kind)) }
    ensures { AllSets card.now.layout card.now.bytes.now m plan.now marks.now
        (λ c. result ≡ chosen (if_enabled (agent_for card.now.layout card.now.bytes.now) (state_of c).mental (choice_of choice))) }
{
    if is_enabled(card, m, plan, marks, choice) {
        Some(choice)
    } else {
        None
    }
}

// The choice of an execute, an apply or a select, if it has one: "Execute takes the lowest enabled specification."
fn choice_of(
    card: &Card,
    m: Standing,
    plan: &Plan,
    marks: &Marks,
    e: Node,
    action: Option<Choice>,
) -> Option<Choice>
    requires { SomeSets card.now.layout card.now.bytes.now m plan.now marks.now × (e.kind < 3) × ((i : ℕ) × GoodEntry card.now.layout card.now.bytes.now i e) }
    ensures { AllSets card.now.layout card.now.bytes.now m plan.now marks.now
        (λ c. (e.kind ≡ 0 → action ≡ first_of_kind card.now.layout card.now.bytes.now c 1)
        → result ≡ chosen (taken (agent_for card.now.layout card.now.bytes.now) (state_of c).mental (entry_kind e.kind) e.a)) }
{
    let number = e.a as usize;
    match e.kind {
        0 => action,
        1 => {
            let kind = Kind::Revision;
            if_enabled(card, m, plan, marks, Choice { kind, number })
        }
        _ => {
            let kind = Kind::Selection;
            if_enabled(card, m, plan, marks, Choice { kind, number })
        }
    }
}

// What a transition comes to, as a move.
fn moved_by(s: Stepped, top: usize) -> AfterMove
    ensures { result ≡ moved_by s.standing s.transition top }
{
    match s.transition {
        Transition::Taken(choice) => AfterMove {
            standing: s.standing,
            made: MoveMade::On,
            known: !matches!(choice.kind, Kind::Action),
            top,
        },
        Transition::Nothing => stays(s.standing, MoveMade::Stuck, top),
        Transition::Full => stays(s.standing, MoveMade::Full, top),
    }
}

// The transition of an execute, an apply or a select, by its choice.
fn make_choice(
    card: &Card,
    beliefs: &mut Set,
    goals: &mut Set,
    m: Standing,
    plan: &mut Plan,
    choice: Option<Choice>,
    top: usize,
) -> AfterMove
    requires { Ready card.now.layout card.now.bytes.now (configured beliefs.old goals.old m plan.old) × ((κ : EntryKind) × ((a : ℕ)
        × (choice ≡ chosen (taken (agent_for card.now.layout card.now.bytes.now) (state_of (configured beliefs.old goals.old m plan.old)).mental κ a)))) }
    ensures { (κ : EntryKind) (a : ℕ)
        → choice ≡ chosen (taken (agent_for card.now.layout card.now.bytes.now)
        (state_of (configured beliefs.old goals.old m plan.old)).mental κ a)
        → (stack : Bytes) → top ≤ 128 → length stack ≡ 128
        → Makes card.now.layout card.now.bytes.now (configured beliefs.old goals.old m plan.old) (drop top stack)
        (move_result (agent_for card.now.layout card.now.bytes.now) (state_of (configured beliefs.old goals.old m plan.old))
        (by_choice (taken (agent_for card.now.layout card.now.bytes.now)
        (state_of (configured beliefs.old goals.old m plan.old)).mental κ a) [])
        (drop top stack)) result (configured beliefs.new goals.new result.standing plan.new) stack }
{
    let Some(choice) = choice else {
        return stays(m, MoveMade::Stuck, top);
    };
    moved_by(step(card, beliefs, goals, m, plan, choice), top)
}

// Whether a while's condition holds: "3 while the plan is not empty do b, 4 while belief condition a holds do b".
fn holds(e: Node, m: Standing, marks: &Marks) -> bool
    requires { (3 ≤ e.kind) × (e.kind < 5) }
    ensures { HoldsBy e m.length (mark_at marks.now e.a).0 result }
{
    match e.kind {
        3 => m.length != 0,
        _ => is_true(marks[e.a as usize]),
    }
}

// The idle move of a while with number i: if its condition holds, its body and itself go before the numbers. Answers where these
// then begin.
fn turn(e: Node, i: usize, m: Standing, marks: &Marks, stack: &mut [u8; 128], top: usize) -> usize
    requires { (3 ≤ e.kind) × (e.kind < 5) × (i < 128) × (2 ≤ top) × (top ≤ 128) × (length stack.old ≡ 128) }
    ensures upper_bound { (result ≤ 128) × (length stack.new ≡ 128) }
    ensures holds_by { (t : Bool) × (HoldsBy e m.length (mark_at marks.now e.a).0 t
        × (drop result stack.new ≡ again t e.b i (drop top stack.old))) }
{
    if !holds(e, m, marks) {
        return top;
    }
    stack[top - 1] = i as u8;
    stack[top - 2] = e.b;
    top - 2
}

// The entry in which a first move is made, and the lowest enabled action where that is an execute.
#[derive(Clone, Copy)]
pub struct Reached {
    pub leaf: Leaf,
    pub action: Option<Choice>,
}

// The move of an entry without parts, or of a while: where a descent ends.
fn move_leaf(
    card: &Card,
    beliefs: &mut Set,
    goals: &mut Set,
    m: Standing,
    plan: &mut Plan,
    marks: &Marks,
    reached: Reached,
    stack: &mut [u8; 128],
) -> AfterMove
    requires judged { Judged card.now.layout card.now.bytes.now (configured beliefs.old goals.old m plan.old) marks.now
        × (reached.leaf.entry.kind ≡ 0 → reached.action ≡ first_of_kind card.now.layout card.now.bytes.now (configured beliefs.old goals.old m plan.old) 1) }
    requires good_program { (p : Bytes) × (GoodProgram card.now.layout card.now.bytes.now p × AtLeaf p stack.old reached.leaf) }
    ensures { (p : Bytes) → GoodProgram card.now.layout card.now.bytes.now p → AtLeaf p stack.old reached.leaf
        → Makes card.now.layout card.now.bytes.now (configured beliefs.old goals.old m plan.old)
        (drop reached.leaf.top stack.old)
        (move_result (agent_for card.now.layout card.now.bytes.now) (state_of (configured beliefs.old goals.old m plan.old))
        (move_at card.now.layout card.now.bytes.now p (state_of (configured beliefs.old goals.old m plan.old)).mental reached.leaf.at)
        (drop reached.leaf.top stack.old)) result
        (configured beliefs.new goals.new result.standing plan.new) stack.new }
{
    let leaf = reached.leaf;
    let e = leaf.entry;
    if 3 <= e.kind {
        let rest = turn(e, leaf.at, m, marks, stack, leaf.top);
        return stays(m, MoveMade::On, rest);
    }
    let choice = choice_of(card, m, plan, marks, e, reached.action);
    make_choice(card, beliefs, goals, m, plan, choice, leaf.top)
}

// A move that is not made leaves the numbers as they were: `next` stands at top again.
fn put_back(made: MoveMade, stack: &mut [u8; 128], top: usize, next: u8)
    requires { (top < 128) × (length stack.old ≡ 128) }
    ensures { stack.new ≡ kept_in made stack.old top next }
{
    match made {
        MoveMade::On => {}
        MoveMade::Stuck | MoveMade::Full => stack[top] = next,
    }
}

// The lowest enabled action, where an entry of this kind, a byte as a node's is, is an execute.
fn action_for(card: &Card, m: Standing, plan: &Plan, marks: &Marks, kind: u8) -> Option<Choice>
    requires { SomeSets card.now.layout card.now.bytes.now m plan.now marks.now }
    ensures { AllSets card.now.layout card.now.bytes.now m plan.now marks.now
        (λ c. kind ≡ 0 → result ≡ first_of_kind card.now.layout card.now.bytes.now c 1) }
{
    if kind == 0 {
        first_of_kind(card, m, plan, marks, Kind::Action)
    } else {
        None
    }
}

// Down from an entry to the one in which its first move is made. An entry without parts and a while are asked about themselves
// alone; the others are marked for a choice, whose left part is taken if it has a first move.
fn reach(
    card: &Card,
    m: Standing,
    plan: &Plan,
    marks: &Marks,
    program: &[u8],
    stack: &mut [u8; 128],
    from: usize,
    top: usize,
) -> Reached
    requires { SomeSets card.now.layout card.now.bytes.now m plan.now marks.now × GoodProgram card.now.layout card.now.bytes.now program.now × Stack program.now stack.old from top }
    ensures all_sets { AllSets card.now.layout card.now.bytes.now m plan.now marks.now
        (λ c. Found card.now.layout card.now.bytes.now program.now c from (drop top stack.old) result stack.new) }
    ensures top_le_top { (result.leaf.top ≤ top) × (drop top stack.new ≡ drop top stack.old) }
{
    let first = lead(program, stack, from, top);
    if first.entry.kind < 5 {
        return Reached {
            leaf: first,
            action: action_for(card, m, plan, marks, first.entry.kind),
        };
    }
    let action = first_of_kind(card, m, plan, marks, Kind::Action);
    let movable = mark_moves(card, m, plan, marks, program, action.is_some(), first.at);
    Reached {
        leaf: descend(program, &movable, stack, first.at, first.top),
        action,
    }
}

// The first move of the number at top, where every node's truth is known. Where it is not made, the numbers begin at top as before.
pub fn make_move(
    card: &Card,
    beliefs: &mut Set,
    goals: &mut Set,
    at: Point,
    plan: &mut Plan,
    marks: &Marks,
    program: &[u8],
    stack: &mut [u8; 128],
) -> AfterMove
    requires judged { Judged card.now.layout card.now.bytes.now (configured beliefs.old goals.old at.standing plan.old) marks.now
        × GoodProgram card.now.layout card.now.bytes.now program.now }
    requires remains { Remains program.now stack.old at.top × (at.top < 128) }
    ensures { MakesNext card.now.layout card.now.bytes.now program.now
        (configured beliefs.old goals.old at.standing plan.old) stack.old at.top
        (kept_as result.made result at.top) (configured beliefs.new goals.new result.standing plan.new) stack.new }
{
    let m = at.standing;
    let top = at.top;
    let next = stack[top];
    let reached = reach(card, m, plan, marks, program, stack, next as usize, top + 1);
    let moved = move_leaf(card, beliefs, goals, m, plan, marks, reached, stack);
    put_back(moved.made, stack, top, next);
    moved
}
