// Parts of the writers of groups: a component that is not carried, a presence bit set.
ghost use Rattle.std.specs.Prelude.{◌≡◌, true, not, ◌&&◌, ◌+◌, ◌*◌, ◌/◌, ◌^◌, ◌<◌, ◌≤◌, length, get_or, eqb};
ghost use Rattle.x696.specs.Value.{node_width};
ghost use Rattle.x696.specs.Table.{row_width, row_kind, item_width, component_default};
ghost use Rattle.writing.specs.Noted.{missing_at, marked};

use octets::nodes::{node_kind, node_number};
use octets::presence::put_presence;
use table::words::{component_default, row_kind};

// Whether node `at`, which is there, has this kind and number.
fn is_node(nodes: &[u64], at: usize, kind: u64, number: u64) -> bool
    requires { at < length nodes.now / 2 }
    ensures { result ≡ eqb (get_or nodes.now (at * node_width) 0) kind && eqb (get_or nodes.now (at * node_width + 1) 0) number }
{
    if node_kind(nodes, at) == kind {
        node_number(nodes, at) == number
    } else {
        false
    }
}

// Whether node `at` is the one that stands for a component that is not carried: ABSENT of an OPTIONAL one, else the DEFAULT, a node of
// the type's kind.
pub fn is_missing(nodes: &[u64], at: usize, kind: u64, mark: u64, default: u64) -> bool
    requires { at ≤ 4096 }
    ensures { result ≡ missing_at nodes.now at kind mark «default» }
{
    if nodes.len() / 2 <= at {
        return false;
    }
    if mark == 1 {
        return is_node(nodes, at, 0, 0);
    }
    is_node(nodes, at, kind, default)
}

// The same of a group's member; the default is that of item i.
pub fn member_missing(
    rows: &[u64],
    items: &[u64],
    row: usize,
    mark: u64,
    i: usize,
    nodes: &[u64],
    at: usize,
) -> bool
    requires { (row < length rows.now / row_width) × ((mark ≡ 0 → ⊥) → i < length items.now / item_width) × (at ≤ 4096) }
    ensures { result ≡ not (eqb mark 0) && missing_at nodes.now at (row_kind rows.now row) mark (component_default items.now i) }
{
    if mark == 0 {
        return false;
    }
    is_missing(
        nodes,
        at,
        row_kind(rows, row),
        mark,
        component_default(items, i),
    )
}

// Sets presence bit b of the preamble at `pre` where a component with this mark has one.
pub fn note_presence(out: &mut [u8], pre: usize, b: usize, mark: u64)
    requires { (pre < 2 ^ 48) × ((mark ≡ 0 → ⊥) → b < 1024) }
    ensures { out.new ≡ marked mark out.old pre b }
{
    if mark != 0 {
        put_presence(out, pre, b, true);
    }
}
