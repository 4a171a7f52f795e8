// Nodes of a value list behind names: a node is two words, (kind, number). Nothing else reads or stores them.
ghost use Rattle.std.specs.Prelude.{◌≡◌, ◌+◌, ◌*◌, ◌/◌, ◌<◌, ◌≤◌, length, get_or, [], ◌∷◌};
ghost use Rattle.std.proofs.lemmas.List.Edits.{sets};

use crate::words::put;

// The kind of node i, which is there.
pub fn node_kind(nodes: &[u64], i: usize) -> u64
    requires { i < length nodes.now / 2 }
    ensures { result ≡ get_or nodes.now (i * 2) 0 }
{
    nodes[i * 2]
}

// The number of node i, which is there.
pub fn node_number(nodes: &[u64], i: usize) -> u64
    requires { i < length nodes.now / 2 }
    ensures { result ≡ get_or nodes.now (i * 2 + 1) 0 }
{
    nodes[i * 2 + 1]
}

// Stores node i if there is room.
pub fn put_node(nodes: &mut [u64], i: usize, kind: u64, number: u64)
    requires { i ≤ 4096 }
    ensures { nodes.new ≡ sets nodes.old (i * 2) (kind ∷ number ∷ []) }
{
    put(nodes, i * 2, kind);
    put(nodes, i * 2 + 1, number);
}
