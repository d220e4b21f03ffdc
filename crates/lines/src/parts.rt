// A condition and a plan of a line, added to the card in the making.
ghost use Rattle.std.specs.Prelude.{◌≡◌, ◌≤◌, length};
ghost use Rattle.notation.specs.Values.{behind_list};
ghost use Rattle.lines.specs.Lines.{Held, PartOver, ReadsTree, plan_there, with_nodes, with_pool};

use crate::lists::read_plan;
use crate::made::Made;
use crate::put::{count_in, too_large};
use conditions::read::{Nested, read_condition};

// The place behind a part of a line, and what is made then.
#[derive(Clone, Copy)]
pub struct Placed {
    pub next: usize,
    pub made: Made,
}

// So many nodes. It and with_pool are no one function: what they differ in is the field, which no parameter can name.
fn with_nodes(m: Made, k: Option<usize>) -> Made
    ensures { result ≡ with_nodes m k }
{
    match k {
        Some(nodes) => Made { nodes, ..m },
        None => too_large(m),
    }
}

// "condition = or-list": its nodes.
pub fn read_tree(text: &[u8], at: usize, card: &mut [u8], m: Made) -> Result<Placed, Nested>
    requires { (at ≤ length text.now) × Held m card.old }
    ensures { ReadsTree text.now at m card.old result card.new }
{
    let k = count_in(m, m.nodes);
    let tree = read_condition(text, at, &mut card[576..1600], k)?;
    Ok(Placed {
        next: tree.next,
        made: with_nodes(m, tree.count),
    })
}

// So many actions of the pool.
fn with_pool(m: Made, k: Option<usize>) -> Made
    ensures { result ≡ with_pool m k }
{
    match k {
        Some(pool) => Made { pool, ..m },
        None => too_large(m),
    }
}

// "list = { " " number }": a plan's actions.
pub fn plan_in(text: &[u8], at: usize, card: &mut [u8], m: Made) -> Placed
    requires { (at ≤ length text.now) × Held m card.old }
    ensures { PartOver behind_list plan_there text.now at m card.old result card.new }
{
    let k = count_in(m, m.pool);
    let plan = read_plan(text, at, &mut card[15936..24128], k);
    Placed {
        next: plan.next,
        made: with_pool(m, plan.count),
    }
}
