// Restoring: the configuration that a place stands for, or the refusal.
ghost use Rattle.std.specs.Prelude.{◌≡◌, length};
ghost use Rattle.door.specs.Words.{configuration_of, configured, reply_with};
ghost use Rattle.meaning.specs.Place.{placed};
ghost use Rattle.meaning.specs.Calls.{restores};
ghost use Rattle.place.specs.Rows.{Sized};

use crate::judge::judge_place;
use crate::load::set_empty;
use card::check::{accept, answer_of};
use door::in_place::ReplyInPlace;
use layout::bytes::size;
use layout::place::read_parts;
use layout::sizes::plan_at;
use meaning::{Layout, Plan, Set, Standing};

// "plan length L at 4; … phase at 8; … beliefs at 12; goals at 28; the plan's L bytes at 44.", and the finished count "in bytes 10
// and 11".
fn read(l: Layout, p: &[u8], beliefs: &mut Set, goals: &mut Set, plan: &mut Plan) -> Standing
    requires { Sized l p.now × (length plan.old ≡ 1024) }
    ensures { configured beliefs.new goals.new result plan.new ≡ configuration_of (placed l p.now) }
{
    let h = read_parts(l, p);
    let n = h.length;
    let length = n as u16;
    let phase = h.phase as u8;
    let finished = h.finished as u16;
    let believed = h.beliefs;
    let wanted = h.goals;
    *beliefs = believed;
    *goals = wanted;
    plans::fill(plan, p, plan_at(l), n);
    Standing {
        length: length,
        phase: phase,
        finished: finished,
    }
}

// The configuration that a place stands for, in the lent sets and plan; the empty one in a refusal.
pub fn restore(
    card: &[u8],
    p: &[u8],
    beliefs: &mut Set,
    goals: &mut Set,
    plan: &mut Plan,
) -> ReplyInPlace
    ensures { reply_with result beliefs.new goals.new plan.new
        ≡ restores card.now p.now }
{
    let room = size(plan);
    let accepted = accept(card);
    let Ok(card) = accepted else {
        let none = set_empty(beliefs, goals, plan);
        return ReplyInPlace {
            answer: answer_of(accepted),
            standing: none,
        };
    };
    let a = judge_place(card.layout, p);
    let Ok(()) = a else {
        let none = set_empty(beliefs, goals, plan);
        return ReplyInPlace {
            answer: a,
            standing: none,
        };
    };
    let m = read(card.layout, p, beliefs, goals, plan);
    ReplyInPlace {
        answer: Ok(()),
        standing: m,
    }
}
