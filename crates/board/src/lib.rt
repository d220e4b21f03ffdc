// The board: the guide's sixteen calls for C, as include/rigtemple.h declares them. A configuration is lent in its six parts;
// the return value is the answer's number. The parts, the calls that are alike and the numbers are as C takes them.
#![tactic(auto)]

ghost use Rattle.std.specs.Prelude.{◌≡◌};
ghost use Rattle.meaning.specs.Refusals.{answer_number};
ghost use Rattle.deliberation.specs.Deliberate.{deliberation_ending_number};
ghost use Rattle.names.specs.Naming.{asked};
ghost use Rattle.board.specs.Header.{whole};
ghost use Rattle.board.specs.Determined.{Checks, Loads, Grades, Lists, ListLooks, Takes, Runs, Nexts, Deliberates, GoesOn, Saves, Restores};
ghost use Rattle.board.specs.Determined.{BoundedTakes, BoundedRuns, ReadsText, Prints, Names};

use answers::{
    answer_carried, answer_number, bounded_answer_carried, bounded_answer_number,
    bounded_ending_number, coming_choice, coming_number, deliberation_ending_number, ending_number,
    refusal_number, sheet_number, verdict_number, verdict_offender, verdict_rule,
};
use card::check::check;
use deliberate::call::DeliberatedInPlace;
use meaning::{Plan, Set, Standing};

// All of a configuration that is lent in its parts but its sets and its plan.
fn standing(length: u16, phase: u8, finished: u16) -> Standing
    ensures { result ≡ record { length = length; phase = phase; finished = finished } }
{
    Standing {
        length,
        phase,
        finished,
    }
}

// The same into the lent parts.
fn put(m: Standing, length: &mut u16, phase: &mut u8, finished: &mut u16)
    ensures { (length.new ≡ m.length) × (phase.new ≡ m.phase) × (finished.new ≡ m.finished) }
{
    *length = m.length;
    *phase = m.phase;
    *finished = m.finished;
}

// How many moves a deliberation made, why it ended and how many numbers remain, into the lent parts; the answer's number.
fn tell(made: DeliberatedInPlace, count: &mut u16, ending: &mut u8, length: &mut u8) -> u16
    ensures { (count.new ≡ made.count) × (ending.new ≡ deliberation_ending_number made.ending)
        × (length.new ≡ made.length) × (result ≡ answer_number made.answer) }
{
    *count = made.count;
    *length = made.length;
    *ending = deliberation_ending_number(made.ending);
    answer_number(made.answer)
}

// Whether a card is good.
#[tactic(auto, unfolding(meaning::specs::Numbers::checked_number))]
#[unsafe(no_mangle)]
pub extern "C" fn rigtemple_4_check_parts(card: &[u8]) -> u16
    ensures { Checks card.now result }
{
    match check(card) {
        Ok(_) => 0,
        Err(r) => refusal_number(r),
    }
}

// The configuration that a card starts with; the empty one in a refusal.
#[unsafe(no_mangle)]
pub extern "C" fn rigtemple_4_load_parts(
    card: &[u8],
    beliefs: &mut Set,
    goals: &mut Set,
    plan: &mut Plan,
    length: &mut u16,
    phase: &mut u8,
    finished: &mut u16,
) -> u16
    ensures { Loads card.now result
        (whole beliefs.new goals.new plan.new length.new phase.new
        finished.new) }
{
    let loaded = place::load::load(card, beliefs, goals, plan);
    put(loaded.standing, length, phase, finished);
    answer_number(loaded.answer)
}

// The configuration after the chosen move; as it came in, in a refusal. With 16 the node that settled the condition.
#[unsafe(no_mangle)]
pub extern "C" fn rigtemple_4_take_parts(
    card: &[u8],
    beliefs: &mut Set,
    goals: &mut Set,
    plan: &mut Plan,
    length: &mut u16,
    phase: &mut u8,
    finished: &mut u16,
    choice: u16,
    node: &mut u16,
) -> u16
    ensures { Takes card.now
        (whole beliefs.old goals.old plan.old length.old phase.old
        finished.old) choice result
        (whole beliefs.new goals.new plan.new length.new phase.new
        finished.new)
        node.new }
{
    let taken = moves::take::take(
        card,
        beliefs,
        goals,
        standing(*length, *phase, *finished),
        plan,
        choice,
    );
    put(taken.standing, length, phase, finished);
    *node = answer_carried(taken.answer) as u16;
    answer_number(taken.answer)
}

// The configuration after at most budget moves of the guide's own, how many they were, and how the run ended.
#[unsafe(no_mangle)]
pub extern "C" fn rigtemple_4_run_parts(
    card: &[u8],
    beliefs: &mut Set,
    goals: &mut Set,
    plan: &mut Plan,
    length: &mut u16,
    phase: &mut u8,
    finished: &mut u16,
    budget: u16,
    count: &mut u16,
    ending: &mut u8,
) -> u16
    ensures { Runs card.now
        (whole beliefs.old goals.old plan.old length.old phase.old
        finished.old) budget result
        (whole beliefs.new goals.new plan.new length.new phase.new
        finished.new)
        count.new ending.new }
{
    let ran = moves::run::run(
        card,
        beliefs,
        goals,
        standing(*length, *phase, *finished),
        plan,
        budget,
    );
    put(ran.standing, length, phase, finished);
    *count = ran.count;
    *ending = ending_number(ran.ending);
    answer_number(ran.answer)
}

// The configuration after the chosen move on a bounded card; as it came in, in a refusal. With 16 the node that settled the
// condition.
#[unsafe(no_mangle)]
pub extern "C" fn rigtemple_4_take_bounded_parts(
    card: &[u8],
    beliefs: &mut Set,
    goals: &mut Set,
    plan: &mut Plan,
    length: &mut u16,
    phase: &mut u8,
    finished: &mut u16,
    choice: u16,
    node: &mut u16,
) -> u16
    ensures { BoundedTakes card.now
        (whole beliefs.old goals.old plan.old length.old phase.old
        finished.old) choice result
        (whole beliefs.new goals.new plan.new length.new phase.new
        finished.new)
        node.new }
{
    let taken = bounded::take::take(
        card,
        beliefs,
        goals,
        standing(*length, *phase, *finished),
        plan,
        choice,
    );
    put(taken.standing, length, phase, finished);
    *node = bounded_answer_carried(taken.answer) as u16;
    bounded_answer_number(taken.answer)
}

// The configuration after at most budget moves of the guide's own on a bounded card, how many they were, and how the run ended.
#[unsafe(no_mangle)]
pub extern "C" fn rigtemple_4_run_bounded_parts(
    card: &[u8],
    beliefs: &mut Set,
    goals: &mut Set,
    plan: &mut Plan,
    length: &mut u16,
    phase: &mut u8,
    finished: &mut u16,
    budget: u16,
    count: &mut u16,
    ending: &mut u8,
) -> u16
    ensures { BoundedRuns card.now
        (whole beliefs.old goals.old plan.old length.old phase.old
        finished.old) budget result
        (whole beliefs.new goals.new plan.new length.new phase.new
        finished.new)
        count.new ending.new }
{
    let ran = bounded::run::run(
        card,
        beliefs,
        goals,
        standing(*length, *phase, *finished),
        plan,
        budget,
    );
    put(ran.standing, length, phase, finished);
    *count = ran.count;
    *ending = bounded_ending_number(ran.ending);
    bounded_answer_number(ran.answer)
}

// The configuration after at most budget moves of a deliberation program, how many they were, how it ended, and the numbers that
// remain: all 128 are written, the next first, then zeros. A refusal writes none of them.
#[unsafe(no_mangle)]
pub extern "C" fn rigtemple_4_deliberate_parts(
    card: &[u8],
    program: &[u8],
    beliefs: &mut Set,
    goals: &mut Set,
    plan: &mut Plan,
    length: &mut u16,
    phase: &mut u8,
    finished: &mut u16,
    budget: u16,
    count: &mut u16,
    ending: &mut u8,
    remaining: &mut [u8; 128],
    remaining_length: &mut u8,
) -> u16
    ensures { Deliberates card.now program.now
        (whole beliefs.old goals.old plan.old length.old phase.old finished.old)
        budget remaining.old result
        (whole beliefs.new goals.new plan.new length.new phase.new finished.new)
        count.new ending.new remaining.new remaining_length.new }
{
    let made = deliberate::call::deliberate(
        card,
        program,
        beliefs,
        goals,
        standing(*length, *phase, *finished),
        plan,
        budget,
        remaining,
    );
    put(made.standing, length, phase, finished);
    tell(made, count, ending, remaining_length)
}

// The same from given numbers that remain of the program, the next first.
#[unsafe(no_mangle)]
pub extern "C" fn rigtemple_4_go_on_parts(
    card: &[u8],
    program: &[u8],
    numbers: &[u8],
    beliefs: &mut Set,
    goals: &mut Set,
    plan: &mut Plan,
    length: &mut u16,
    phase: &mut u8,
    finished: &mut u16,
    budget: u16,
    moves: &mut u16,
    ending: &mut u8,
    remaining: &mut [u8; 128],
    remaining_length: &mut u8,
) -> u16
    ensures { GoesOn card.now program.now numbers.now
        (whole beliefs.old goals.old plan.old length.old phase.old finished.old)
        budget remaining.old result
        (whole beliefs.new goals.new plan.new length.new phase.new finished.new)
        moves.new ending.new remaining.new remaining_length.new }
{
    let made = deliberate::call::go_on(
        card,
        program,
        numbers,
        beliefs,
        goals,
        standing(*length, *phase, *finished),
        plan,
        budget,
        remaining,
    );
    put(made.standing, length, phase, finished);
    tell(made, moves, ending, remaining_length)
}

// The configuration that a place holds; the empty one in a refusal.
#[unsafe(no_mangle)]
pub extern "C" fn rigtemple_4_restore_parts(
    card: &[u8],
    place: &[u8],
    beliefs: &mut Set,
    goals: &mut Set,
    plan: &mut Plan,
    length: &mut u16,
    phase: &mut u8,
    finished: &mut u16,
) -> u16
    ensures { Restores card.now place.now result
        (whole beliefs.new goals.new plan.new length.new phase.new
        finished.new) }
{
    let restored = place::restore::restore(card, place, beliefs, goals, plan);
    put(restored.standing, length, phase, finished);
    answer_number(restored.answer)
}

// All enabled choices, into a lent list, and how many they are.
#[unsafe(no_mangle)]
pub extern "C" fn rigtemple_4_list_parts(
    card: &[u8],
    beliefs: &Set,
    goals: &Set,
    plan: &Plan,
    length: u16,
    phase: u8,
    finished: u16,
    list: &mut [u16],
    count: &mut u16,
) -> u16
    ensures { Lists card.now
        (whole beliefs.now goals.now plan.now length phase finished) list.old result
        list.new count.new }
{
    let listed = listing::list::list(
        card,
        beliefs,
        goals,
        standing(length, phase, finished),
        plan,
        list,
    );
    *count = listed.count;
    answer_number(listed.answer)
}

// The same; and how many conditions were judged for it, and how many goals are open. A refusal says 0 of each.
#[unsafe(no_mangle)]
pub extern "C" fn rigtemple_4_list_looks_parts(
    card: &[u8],
    beliefs: &Set,
    goals: &Set,
    plan: &Plan,
    length: u16,
    phase: u8,
    finished: u16,
    list: &mut [u16],
    count: &mut u16,
    judged: &mut u16,
    open_goals: &mut u16,
) -> u16
    ensures { ListLooks card.now
        (whole beliefs.now goals.now plan.now length phase finished) list.old result
        list.new count.new judged.new open_goals.new }
{
    let listed = listing::list::list(
        card,
        beliefs,
        goals,
        standing(length, phase, finished),
        plan,
        list,
    );
    *count = listed.count;
    *judged = listed.judged;
    *open_goals = listed.goals;
    answer_number(listed.answer)
}

// The guide's own next move, which is not made: whether there is one, and its code. A refusal says rest.
#[unsafe(no_mangle)]
pub extern "C" fn rigtemple_4_next_parts(
    card: &[u8],
    beliefs: &Set,
    goals: &Set,
    plan: &Plan,
    length: u16,
    phase: u8,
    finished: u16,
    coming: &mut u8,
    choice: &mut u16,
) -> u16
    ensures { Nexts card.now
        (whole beliefs.now goals.now plan.now length phase finished) result
        coming.new choice.new }
{
    let next = moves::next::next(
        card,
        beliefs,
        goals,
        standing(length, phase, finished),
        plan,
    );
    *coming = coming_number(next.coming);
    *choice = coming_choice(next.coming);
    answer_number(next.answer)
}

// The configuration into a lent buffer, and how many bytes were written.
#[unsafe(no_mangle)]
pub extern "C" fn rigtemple_4_save_parts(
    card: &[u8],
    beliefs: &Set,
    goals: &Set,
    plan: &Plan,
    length: u16,
    phase: u8,
    finished: u16,
    place: &mut [u8],
    count: &mut u16,
) -> u16
    ensures { Saves card.now
        (whole beliefs.now goals.now plan.now length phase finished) place.old result
        place.new count.new }
{
    let saved = place::save::save(
        card,
        beliefs,
        goals,
        standing(length, phase, finished),
        plan,
        place,
    );
    *count = saved.count;
    answer_number(saved.answer)
}

// Bounded, or open with the first offender: its kind and its number.
#[unsafe(no_mangle)]
pub extern "C" fn rigtemple_4_grade_parts(
    card: &[u8],
    verdict: &mut u8,
    offender: &mut u8,
    number: &mut u16,
) -> u16
    ensures { Grades card.now result verdict.new offender.new number.new }
{
    let graded = verdict::grade::grade(card);
    *verdict = verdict_number(graded.verdict);
    *offender = verdict_offender(graded.verdict);
    *number = verdict_rule(graded.verdict);
    answer_number(graded.answer)
}

// The card that a text stands for, into a lent buffer, and how many bytes it has; with 17 the place of the first wrong byte.
#[unsafe(no_mangle)]
pub extern "C" fn rigtemple_4_text_parts(
    text: &[u8],
    card: &mut [u8],
    count: &mut u16,
    place: &mut usize,
) -> u16
    ensures { ReadsText text.now card.old result card.new count.new place.new }
{
    let read = reader::read::read(text, card);
    *count = read.count;
    *place = answer_carried(read.answer);
    answer_number(read.answer)
}

// A condition of a card as text, into a lent buffer, and how many bytes were written.
#[unsafe(no_mangle)]
pub extern "C" fn rigtemple_4_print_parts(
    card: &[u8],
    node: u16,
    text: &mut [u8],
    count: &mut u16,
) -> u16
    ensures { Prints card.now node text.old result text.new count.new }
{
    let printed = printer::print::print(card, node as usize, text);
    *count = printed.count;
    answer_number(printed.answer)
}

// The part that holds an action's name: which sheet it lies in, where it starts there and how many bytes it has; with 20 which
// sheet is refused.
#[unsafe(no_mangle)]
pub extern "C" fn rigtemple_4_name_parts(
    card: &[u8],
    shed: &[u8],
    master: &[u8],
    action: u16,
    sheet: &mut u8,
    start: &mut u16,
    length: &mut u16,
) -> u16
    ensures { Names card.now (asked shed.now master.now action) result
        sheet.new start.new length.new }
{
    let named = names::name::named(card, shed, master, action as usize);
    *sheet = sheet_number(named.answer, named.sheet.number());
    *start = named.part.start;
    *length = named.part.length;
    answer_number(named.answer)
}
