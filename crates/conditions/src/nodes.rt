// The nodes of a condition: 01, "The card, edition 1": "Node, 4 bytes: kind, a, b, 0." How many there are goes up to 256, and is
// None once something is too large.
ghost use Rattle.std.specs.Prelude.{◌≡◌, ◌≤◌, length, leb, IfSome};
ghost use Rattle.notation.specs.Built.{node};
ghost use Rattle.notation.specs.Making.{added_to, when};
ghost use Rattle.conditions.specs.Reads.{nodes_of, last_of, joined_nodes};

// A node behind k others. Its kind is the byte that a card has.
pub fn put_node(nodes: &mut [u8], k: Option<usize>, kind: u8, a: u8, b: u8) -> Option<usize>
    requires nodes_len { length nodes.old ≡ 1024 }
    requires k_bound { IfSome k (λ n. n ≤ 256) }
    ensures upper_bound { IfSome result (λ n. n ≤ 256) }
    ensures nodes_len_2 { length nodes.new ≡ 1024 }
    ensures nodes_after { nodes_of result nodes.new ≡ added_to 1024 (node kind a b) (nodes_of k nodes.old) }
{
    let n = k?;
    if n == 256 {
        return None;
    }
    nodes[4 * n..4 * n + 4].copy_from_slice(&[kind, a, b, 0]);
    Some(n + 1)
}

// The number of the last of k nodes, 0 if there is none or something is too large.
pub fn last_node(k: Option<usize>) -> u8
    requires { IfSome k (λ n. n ≤ 256) }
    ensures { result ≡ last_of k }
{
    match k {
        Some(n) => n.saturating_sub(1) as u8,
        None => 0,
    }
}

// An operator's node, where there are so many nodes behind its left side and so many behind its right side: it is put behind the
// right side.
pub fn put_operator(
    nodes: &mut [u8],
    kind: u8,
    left: Option<usize>,
    right: Option<usize>,
) -> Option<usize>
    requires nodes_len { length nodes.old ≡ 1024 }
    requires left_bound { IfSome left (λ n. n ≤ 256) × IfSome right (λ n. n ≤ 256) }
    ensures upper_bound { IfSome result (λ n. n ≤ 256) }
    ensures nodes_len_2 { length nodes.new ≡ 1024 }
    ensures nodes_after { nodes_of result nodes.new ≡ added_to 1024 (node kind (last_of left) (last_of right)) (nodes_of right nodes.old) }
{
    put_node(nodes, right, kind, last_node(left), last_node(right))
}

// A list's member, where there are so many nodes behind the members before it and so many behind it: the first one stands by
// itself, each other one is the right side of the list's operator.
pub fn put_member(
    nodes: &mut [u8],
    kind: u8,
    first: bool,
    left: Option<usize>,
    right: Option<usize>,
) -> Option<usize>
    requires nodes_len { length nodes.old ≡ 1024 }
    requires left_bound { IfSome left (λ n. n ≤ 256) × IfSome right (λ n. n ≤ 256) }
    ensures upper_bound { IfSome result (λ n. n ≤ 256) }
    ensures nodes_len_2 { length nodes.new ≡ 1024 }
    ensures nodes_after { nodes_of result nodes.new ≡ joined_nodes first kind left right nodes.old }
{
    if first {
        right
    } else {
        put_operator(nodes, kind, left, right)
    }
}

// A node for `!` behind the nodes of what it stands before.
pub fn put_not(nodes: &mut [u8], k: Option<usize>) -> Option<usize>
    requires nodes_len { length nodes.old ≡ 1024 }
    requires k_bound { IfSome k (λ n. n ≤ 256) }
    ensures upper_bound { IfSome result (λ n. n ≤ 256) }
    ensures nodes_len_2 { length nodes.new ≡ 1024 }
    ensures nodes_after { nodes_of result nodes.new ≡ added_to 1024 (node 3 (last_of k) 0) (nodes_of k nodes.old) }
{
    put_node(nodes, k, 3, last_node(k), 0)
}

// A node for an atom, which may be up to 255.
pub fn put_atom(nodes: &mut [u8], k: Option<usize>, kind: u8, atom: usize) -> Option<usize>
    requires nodes_len { length nodes.old ≡ 1024 }
    requires k_bound { IfSome k (λ n. n ≤ 256) }
    ensures upper_bound { IfSome result (λ n. n ≤ 256) }
    ensures nodes_len_2 { length nodes.new ≡ 1024 }
    ensures nodes_after { nodes_of result nodes.new ≡ when (leb atom 255) (added_to 1024 (node kind atom 0) (nodes_of k nodes.old)) }
{
    if atom > 255 {
        None
    } else {
        put_node(nodes, k, kind, atom as u8, 0)
    }
}
