// What the sections hold: rows 5, 8 and 9 of the refusal table.
ghost use Rattle.std.specs.Prelude.{◌≡◌, true, ◌+◌, ◌*◌, ◌≤◌, length};
ghost use Rattle.meaning.specs.Sizes.{set_bytes};
ghost use Rattle.meaning.specs.Card.{part};
ghost use Rattle.meaning.specs.Refusals.{weights_good, actions_good, pool, set_good, sets_good};
ghost use Rattle.card.specs.AddDel.{all_add_del};

use layout::bytes::add_bytes;
use layout::card::Card;
use layout::header::in_range;
use layout::limits::heaviest_action;
use meaning::Set;

// Not row 5: every weight is from 1 to 1,024.
pub fn weights_good(card: &Card) -> bool
    ensures { result ≡ weights_good card.now.layout card.now.bytes.now }
{
    let mut good = true;
    for a in 0..card.layout.actions as usize {
        good &= in_range(1, heaviest_action(), card.weight(a));
    }
    good
}

// Whether each of n bytes from one on is one of 1 to 256 actions, as any byte is one of 256.
pub fn actions_good(bytes: &[u8], from: usize, n: usize, actions: usize) -> bool
    requires { (from + n ≤ length bytes.now) × (1 ≤ actions) × (actions ≤ 256) }
    ensures { result ≡ actions_good actions (part bytes.now from n) }
{
    if actions == 256 {
        return true;
    }
    let last = (actions - 1) as u8;
    let mut good = true;
    for x in &bytes[from..from + n] {
        good &= *x <= last;
    }
    good
}

// Not row 8: every byte of the pool is an action.
pub fn pool_good(card: &Card) -> bool
    ensures { result ≡ actions_good card.now.layout.actions (pool card.now.layout card.now.bytes.now) }
{
    let pool = card.layout.pool;
    actions_good(
        card.bytes,
        pool.offset as usize,
        pool.count as usize,
        card.layout.actions as usize,
    )
}

// The atoms of every Add and, behind them, those of every Del, in two sets as the card's edition has them: both stand beside each
// other in a specification. Their size is a number of the type, so that the compiler keeps the array in registers.
fn all_add_del<const N: usize>(card: &Card) -> [u8; N]
    requires { 2 * set_bytes card.now.layout ≡ N }
    ensures { result ≡ all_add_del card.now.layout card.now.bytes.now }
{
    let mut all = [0; N];
    for i in 0..card.layout.specifications.count as usize {
        add_bytes(&mut all, card.bytes, card.specification_at(i) + 4, N);
    }
    all
}

// The atoms of all the card's sets: the initial beliefs and goals, and each Add and Del.
fn all_sets<const N: usize>(card: &Card) -> Set
    requires { 2 * set_bytes card.now.layout ≡ N }
    ensures { set_good card.now.layout.atoms result ≡ sets_good card.now.layout card.now.bytes.now }
{
    let mut all = sets::union(card.initial_beliefs(), card.initial_goals());
    let both = all_add_del::<N>(card);
    add_bytes(&mut all, &both, 0, N / 2);
    add_bytes(&mut all, &both, N / 2, N / 2);
    all
}

// Not row 9: no set has an atom at or above the number of atoms.
pub fn sets_good(card: &Card) -> bool
    ensures { result ≡ sets_good card.now.layout card.now.bytes.now }
{
    let all = if card.layout.edition == 2 {
        all_sets::<64>(card)
    } else {
        all_sets::<32>(card)
    };
    sets::known(all, card.layout.atoms as usize)
}
