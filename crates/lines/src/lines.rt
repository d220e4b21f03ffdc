// The lines of a text: what each of them adds to the card in the making.
ghost use Rattle.std.specs.Prelude.{◌≡◌, ◌++◌, ◌+◌, ◌≤◌, ◌<◌, length, drop, get_or};
ghost use Rattle.notation.specs.Values.{do_item, select_item, revise_item, begin_item, number_item, second_byte, line_by, items_of};
ghost use Rattle.lines.specs.Lines.{Held, Puts, PartOver, ReadsLine, last_in, pool_in, specified, effects, behind_effects};
ghost use Rattle.lines.specs.Lines.{plan_selected, behind_plan, body_revised, behind_body, start_planned};
ghost use Rattle.lines.specs.Lines.{AtomsRead, WeightRead, Blank, LinesRead};

use crate::lists::{Edition1Set, behind_line, read_set, skip};
use crate::made::Made;
use crate::parts::{Placed, plan_in, read_tree};
use crate::put::{
    count_in, put_atoms, put_revision, put_selection, put_specification, put_start, put_weight,
    too_large,
};
use conditions::nodes::last_node;
use conditions::number::read_number;
use conditions::read::Nested;

// The number of the last node, 0 if there is none or something is too large.
fn last_in(m: Made) -> u8
    requires { m.nodes ≤ 256 }
    ensures { result ≡ last_in m }
{
    last_node(count_in(m, m.nodes))
}

// How many actions the pool has, 0 if something is too large.
fn pool_size(m: Made) -> usize
    ensures { result ≡ pool_in m }
{
    if m.large { 0 } else { m.pool }
}

// ---- do lines

// A specification, if its action and its sets fit.
fn specify(
    card: &mut [u8],
    m: Made,
    action: usize,
    fits: bool,
    add: Edition1Set,
    del: Edition1Set,
) -> Made
    requires { Held m card.old }
    ensures { Puts (specified action fits (last_in m) add del) m card.old result card.new }
{
    if action > 255 {
        return too_large(m);
    }
    if !fits {
        return too_large(m);
    }
    put_specification(card, m, action as u8, last_in(m), add, del)
}

// Behind a do line's condition: "" add" list " del" list end".
fn read_effects(text: &[u8], at: usize, card: &mut [u8], m: Made, action: usize) -> Placed
    requires { (at ≤ length text.now) × Held m card.old }
    ensures { PartOver behind_effects (effects action) text.now at m card.old result card.new }
{
    let add = read_set(text, skip(text, at, 4));
    let del = read_set(text, skip(text, add.next, 4));
    Placed {
        next: behind_line(text, del.next),
        made: specify(card, m, action, add.fits & del.fits, add.set, del.set),
    }
}

// ""do " number " if " condition " add" list " del" list end"
fn read_do(text: &[u8], at: usize, card: &mut [u8], m: Made) -> Result<Placed, Nested>
    requires { (at < length text.now) × Held m card.old }
    ensures { ReadsLine do_item text.now at m card.old result card.new }
{
    let action = read_number(text, skip(text, at, 3));
    let asked = read_tree(text, skip(text, action.next, 4), card, m)?;
    Ok(read_effects(text, asked.next, card, asked.made, action.value))
}

// ---- select lines

// Behind a select line's conditions: "" plan" list end", with the number of the belief condition's node.
fn read_selected(text: &[u8], at: usize, card: &mut [u8], m: Made, belief: u8) -> Placed
    requires { (at ≤ length text.now) × Held m card.old }
    ensures { PartOver behind_plan (plan_selected belief) text.now at m card.old result card.new }
{
    let plan = plan_in(text, skip(text, at, 5), card, m);
    let start = pool_size(m);
    let len = pool_size(plan.made).saturating_sub(start);
    Placed {
        next: behind_line(text, plan.next),
        made: put_selection(card, plan.made, belief, last_in(m), start, len),
    }
}

// ""select if " condition " goal " condition " plan" list end"
fn read_select(text: &[u8], at: usize, card: &mut [u8], m: Made) -> Result<Placed, Nested>
    requires { (at < length text.now) × Held m card.old }
    ensures { ReadsLine select_item text.now at m card.old result card.new }
{
    let belief = read_tree(text, skip(text, at, 10), card, m)?;
    let goal = read_tree(text, skip(text, belief.next, 6), card, belief.made)?;
    let node = last_in(belief.made);
    Ok(read_selected(text, goal.next, card, goal.made, node))
}

// ---- revise lines

// Behind a revise line's condition: "" to" list end", with where its head starts in the pool, how long it is, and where it ends.
fn read_body(
    text: &[u8],
    at: usize,
    card: &mut [u8],
    m: Made,
    head: usize,
    h: usize,
    body: usize,
) -> Placed
    requires { (at ≤ length text.now) × Held m card.old }
    ensures { PartOver behind_body (body_revised head h body) text.now at m card.old result card.new }
{
    let plan = plan_in(text, skip(text, at, 3), card, m);
    let len = pool_size(plan.made).saturating_sub(body);
    Placed {
        next: behind_line(text, plan.next),
        made: put_revision(card, plan.made, last_in(m), head, h, body, len),
    }
}

// ""revise" list " if " condition " to" list end"
fn read_revise(text: &[u8], at: usize, card: &mut [u8], m: Made) -> Result<Placed, Nested>
    requires { (at < length text.now) × Held m card.old }
    ensures { ReadsLine revise_item text.now at m card.old result card.new }
{
    let plan = plan_in(text, skip(text, at, 6), card, m);
    let asked = read_tree(text, skip(text, plan.next, 4), card, plan.made)?;
    let head = pool_size(m);
    let body = pool_size(plan.made);
    let len = body.saturating_sub(head);
    Ok(read_body(text, asked.next, card, asked.made, head, len, body))
}

// ---- the begin line

// Behind the begin line's sets: "" plan" list end".
fn read_start(
    text: &[u8],
    at: usize,
    card: &mut [u8],
    m: Made,
    fits: bool,
    beliefs: Edition1Set,
    goals: Edition1Set,
) -> Placed
    requires { (at ≤ length text.now) × Held m card.old }
    ensures { PartOver behind_plan (start_planned fits (beliefs ++ goals)) text.now at m card.old result card.new }
{
    let plan = plan_in(text, skip(text, at, 5), card, m);
    let next = behind_line(text, plan.next);
    if !fits {
        return Placed {
            next,
            made: too_large(plan.made),
        };
    }
    let start = pool_size(m);
    let len = pool_size(plan.made).saturating_sub(start);
    Placed {
        next,
        made: put_start(card, plan.made, beliefs, goals, start, len),
    }
}

// ""begin beliefs" list " goals" list " plan" list end"
fn read_begin(text: &[u8], at: usize, card: &mut [u8], m: Made) -> Result<Placed, Nested>
    requires { (at < length text.now) × Held m card.old }
    ensures { ReadsLine begin_item text.now at m card.old result card.new }
{
    let b = read_set(text, skip(text, at, 13));
    let g = read_set(text, skip(text, b.next, 6));
    let fits = b.fits & g.fits;
    Ok(read_start(text, g.next, card, m, fits, b.set, g.set))
}

// ---- atoms and action lines

// ""atoms " number end"
fn read_atoms(text: &[u8], at: usize, m: Made) -> Placed
    requires { at < length text.now }
    ensures { AtomsRead text.now at m result }
{
    let n = read_number(text, skip(text, at, 6));
    Placed {
        next: behind_line(text, n.next),
        made: put_atoms(m, n.value),
    }
}

// ""action " number end"
fn read_action(text: &[u8], at: usize, card: &mut [u8], m: Made) -> Placed
    requires { (at < length text.now) × Held m card.old }
    ensures { WeightRead text.now at m card.old result card.new }
{
    let n = read_number(text, skip(text, at, 7));
    let next = behind_line(text, n.next);
    if n.value > 65535 {
        return Placed {
            next,
            made: too_large(m),
        };
    }
    Placed {
        next,
        made: put_weight(card, m, n.value),
    }
}

// The second byte from a place on, 0 if there is none.
fn second_byte(text: &[u8], at: usize) -> u8
    requires { at < length text.now }
    ensures { result ≡ second_byte (drop at text.now) }
{
    if text.len() - at < 2 { 0 } else { text[at + 1] }
}

// ""atoms " number end" or "action " number end"
fn read_number_line(text: &[u8], at: usize, card: &mut [u8], m: Made) -> Result<Placed, Nested>
    requires { (at < length text.now) × Held m card.old }
    ensures { ReadsLine number_item text.now at m card.old result card.new }
{
    let second = second_byte(text, at);
    if second == b't' {
        Ok(read_atoms(text, at, m))
    } else {
        Ok(read_action(text, at, card, m))
    }
}

// ---- all lines

// A line, by its first byte.
fn read_line(text: &[u8], at: usize, card: &mut [u8], m: Made) -> Result<Placed, Nested>
    requires { (at < length text.now) × Held m card.old }
    ensures { ReadsLine (line_by (get_or text.now at 0)) text.now at m card.old result card.new }
{
    match text[at] {
        b'a' => read_number_line(text, at, card, m),
        b'd' => read_do(text, at, card, m),
        b's' => read_select(text, at, card, m),
        b'r' => read_revise(text, at, card, m),
        b'b' => read_begin(text, at, card, m),
        _ => Ok(Placed {
            next: behind_line(text, at),
            made: m,
        }),
    }
}

// The lines of a text, one behind the other.
pub fn read_lines(text: &[u8], card: &mut [u8]) -> Result<Made, Nested>
    requires { Blank card.old }
    ensures { LinesRead (items_of (length text.now) text.now) result card.new }
{
    let mut m = Made::default();
    let mut n = 0;
    // no `for`: each line says where the next one begins
    while n < text.len() {
        let line = read_line(text, n, card, m)?;
        n = line.next;
        m = line.made;
    }
    Ok(m)
}
