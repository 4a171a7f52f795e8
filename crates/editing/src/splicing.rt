// The new message: the octets before the component, its new own octets, those behind it, and its presence bit.
ghost use Rattle.std.specs.Prelude.{◌≡◌, Bool, true, not, cond, ℕ, ◌+◌, ◌-◌, ◌/◌, ◌^◌, ◌<◌, ◌≤◌, eqb, length};
ghost use Rattle.x696.specs.Table.{row_width, row_kind, type_of};
ghost use Rattle.x696.specs.TableCheck.{default_sound};
ghost use Rattle.octets.specs.Presence.{set_bit};
ghost use Rattle.writing.specs.Noted.{missing_at};
ghost use Rattle.editing.specs.Splicing.{Spliced};

use finding::spot::Spot;
use octets::presence::put_presence;
use octets::words::copy;
use table::sound::Table;
use writing::parts::is_missing;
use writing::value::write_component;

// A component that equals its missing value is not carried: an edit back to the DEFAULT clears the bit (31.9).
fn put_mark(table: &Table, s: Spot, nodes: &[u64], out: &mut [u8])
    requires { (s.component.row < length table.now.rows.now / row_width) × ((s.component.mark ≡ 0 → ⊥) → s.pre < 2 ^ 48) × (s.bit < 1024) }
    ensures { out.new ≡ cond (eqb s.component.mark 0) out.old (set_bit out.old s.pre s.bit (not (missing_at nodes.now 0 (row_kind table.now.rows.now s.component.row) s.component.mark s.component.given))) }
{
    if s.component.mark == 0 {
        return;
    }
    let missing = is_missing(
        nodes,
        0,
        table.row_kind(s.component.row).number(),
        s.component.mark,
        s.component.given,
    );
    put_presence(out, s.pre, s.bit, !missing);
}

// Writes the new message at the front of the lent buffer; n is the number of the component's new own octets.
pub fn splice(
    table: &Table,
    s: Spot,
    nodes: &[u64],
    contents: &[u8],
    n: usize,
    msg: &[u8],
    out: &mut [u8],
)
    requires { (s.component.row < length table.now.rows.now / row_width) × ((1 < s.component.mark) → default_sound (type_of table.now.rows.now table.now.items.now s.component.row) s.component.given ≡ true) × (length nodes.now ≤ 8192) × (length contents.now ≤ 65535) × (length msg.now ≤ 65535) × (s.start ≤ length msg.now) × (s.end ≤ length msg.now) × (n ≤ 65535) × ((s.component.mark ≡ 0 → ⊥) → s.pre < 2 ^ 48) × (s.bit < 1024) }
    ensures { Spliced (type_of table.now.rows.now table.now.items.now s.component.row) s nodes.now contents.now n msg.now out.old out.new }
{
    let start = s.start;
    let end = s.end;
    copy(msg, 0, start, out, 0);
    let _new = write_component(table, s.component, nodes, contents, 0, 0, start, out);
    copy(msg, end, msg.len() - end, out, start + n);
    put_mark(table, s, nodes, out);
}
