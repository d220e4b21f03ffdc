// Saving: a configuration's place written into a lent buffer. "Saving writes 44 + L bytes and no others."
ghost use Rattle.std.specs.Prelude.{◌≡◌};
ghost use Rattle.meaning.specs.Calls.{saves, save_leaves};
ghost use Rattle.door.specs.Words.{configured, written_with};

use card::check::answer_of;
use door::admit::admit;
use door::in_place::{WrittenInPlace, refused_write};
use door::room::judge_room;
use layout::bytes::size;
use layout::place::{place_size, write_place};
use meaning::{Plan, Set, Standing};

// A configuration's place in a lent buffer; how many bytes it has. A refusal writes nothing.
pub fn save(
    card: &[u8],
    beliefs: &Set,
    goals: &Set,
    m: Standing,
    plan: &Plan,
    out: &mut [u8],
) -> WrittenInPlace
    ensures plan_value { written_with result (configured beliefs.now goals.now m plan.now)
        ≡ saves card.now (configured beliefs.now goals.now m plan.now) out.old }
    ensures out_after { out.new
        ≡ save_leaves card.now (configured beliefs.now goals.now m plan.now) out.old }
{
    let believed = size(beliefs);
    let wanted = size(goals);
    let admitted = admit(card, beliefs, goals, m, plan);
    let Ok(card) = admitted else {
        return refused_write(answer_of(admitted));
    };
    let n = place_size(card.layout, m.length as usize);
    let room = judge_room(n, out.len());
    let Ok(()) = room else {
        return refused_write(room);
    };
    let count = n as u16;
    write_place(card.layout, beliefs, goals, m, plan, out);
    WrittenInPlace {
        answer: Ok(()),
        count: count,
    }
}
