// One step of a path: the group that it enters is opened, and the components before the step's own are passed.
ghost use Rattle.std.specs.Prelude.{◌≡◌, ℕ, ◌+◌, ◌/◌, ◌<◌, ◌≤◌, length, drop};
ghost use Rattle.x696.specs.Read.{message, read_component};
ghost use Rattle.x696.specs.Operations.{node_limit};
ghost use Rattle.x696.specs.Table.{row_width, row_kind, type_of};
ghost use Rattle.octets.specs.Presence.{bit_at};
ghost use Rattle.kinds.specs.Run.{inside_at};
ghost use Rattle.finding.specs.Passing.{Fitting};
ghost use Rattle.finding.specs.Leading.{Opens};

use crate::passing::{pass_components, pass_elements};
use crate::spot::Opening;
use octets::faults::{Cause, Fault};
use octets::presence::is_present;
use octets::tags::read_tag;
use octets::variable::read_quantity;
use reading::parts::{count_marked, is_marked, is_padded};
use reading::tags::find_tag;
use table::component::ComponentType;
use table::kind::Kind;
use table::sound::Table;

// Kind 10: preamble, then the components before the step's own (16.1).
fn open_sequence(
    table: &Table,
    row: usize,
    msg: &[u8],
    at: usize,
    count: usize,
    step: u64,
) -> Result<Option<Opening>, Fault>
    requires { (row < length table.now.rows.now / row_width) × (at ≤ length msg.now) × (length msg.now ≤ 65535) × (count < 4096) × (row_kind table.now.rows.now row ≡ 10) }
    ensures { Opens table.now.rows.now table.now.items.now msg.now row at step (inside_at (type_of table.now.rows.now table.now.items.now row) msg.now at count) result }
{
    let first = table.row_first(row);
    let n = table.row_count(row) as u64;
    if n <= step {
        return Ok(None);
    }
    let own = first + step as usize;
    let bit = count_marked(table.items, first, step as usize);
    let bits = bit + count_marked(table.items, own, (n - step) as usize);
    // `div_ceil` would be five instructions in place of two, here and below
    if msg.len() - at < (bits + 7) / 8 {
        return Err(Cause::Short.at(at));
    }
    // the unused bits are 0 (16.2.4)
    if !is_padded(msg, at, bits) {
        return Err(Cause::NotCanonical.at(at));
    }
    let before = pass_components(
        table,
        row,
        first,
        step as usize,
        msg,
        at,
        0,
        at + (bits + 7) / 8,
        count + 1,
    )?;
    Ok(Some(Opening {
        component: ComponentType {
            row: table.component_row(own),
            mark: table.component_mark(own),
            given: table.component_default(own),
        },
        bit,
        at: before.at,
        count: before.count,
        after: own + 1,
        later: bit + is_marked(table.items, own),
        left: n - (step + 1),
    }))
}

// Kind 11: quantity, then the elements before the step's own (17.1).
fn open_sequence_of(
    table: &Table,
    row: usize,
    msg: &[u8],
    at: usize,
    count: usize,
    step: u64,
) -> Result<Option<Opening>, Fault>
    requires { (row < length table.now.rows.now / row_width) × (at ≤ length msg.now) × (length msg.now ≤ 65535) × (count < 4096) × (row_kind table.now.rows.now row ≡ 11) }
    ensures { Opens table.now.rows.now table.now.items.now msg.now row at step (inside_at (type_of table.now.rows.now table.now.items.now row) msg.now at count) result }
{
    let inner = table.component_row(table.row_first(row));
    let q = read_quantity(msg, at, at)?;
    let many = q.many.0;
    if many <= step {
        return Ok(None);
    }
    let before = pass_elements(table, inner, step, msg, q.next, count + 1)?;
    Ok(Some(Opening {
        component: ComponentType {
            row: inner,
            mark: 0,
            given: 0,
        },
        bit: 0,
        at: before.at,
        count: before.count,
        after: 0,
        later: 0,
        left: many - (step + 1),
    }))
}

// Kind 12: tag (20.1). The step 0 alone leads into the alternative.
fn open_choice(
    table: &Table,
    row: usize,
    msg: &[u8],
    at: usize,
    count: usize,
    step: u64,
) -> Result<Option<Opening>, Fault>
    requires { (row < length table.now.rows.now / row_width) × (at ≤ length msg.now) × (length msg.now ≤ 65535) × (count < 4096) × (row_kind table.now.rows.now row ≡ 12) }
    ensures { Opens table.now.rows.now table.now.items.now msg.now row at step (inside_at (type_of table.now.rows.now table.now.items.now row) msg.now at count) result }
{
    if step != 0 {
        return Ok(None);
    }
    let first = table.row_first(row);
    let n = table.row_count(row);
    let g = read_tag(msg, at, at)?;
    // a tag of the type
    let Some(k) = find_tag(table.items, first, n, g.class, g.number) else {
        return Err(Cause::NotAllowed.at(at));
    };
    Ok(Some(Opening {
        component: ComponentType {
            row: table.alternative_row(first + k),
            mark: 0,
            given: 0,
        },
        bit: 0,
        at: g.next,
        count: count + 1,
        after: 0,
        later: 0,
        left: 0,
    }))
}

// A group of any kind; a kind without components has no step.
fn open_group(
    table: &Table,
    row: usize,
    msg: &[u8],
    at: usize,
    count: usize,
    step: u64,
) -> Result<Option<Opening>, Fault>
    requires { (row < length table.now.rows.now / row_width) × (at ≤ length msg.now) × (length msg.now ≤ 65535) × (count < 4096) }
    ensures { Opens table.now.rows.now table.now.items.now msg.now row at step (inside_at (type_of table.now.rows.now table.now.items.now row) msg.now at count) result }
{
    match table.row_kind(row) {
        Kind::Sequence => open_sequence(table, row, msg, at, count, step),
        Kind::SequenceOf => open_sequence_of(table, row, msg, at, count, step),
        Kind::Choice => open_choice(table, row, msg, at, count, step),
        _ => Ok(None),
    }
}

// A component with its mark and default, and presence bit b of the preamble at `pre`. Where it is not carried, or no
// node more may be counted, no step leads into it.
pub fn open_component(
    table: &Table,
    component: ComponentType,
    msg: &[u8],
    pre: usize,
    b: usize,
    at: usize,
    count: usize,
    step: u64,
) -> Result<Option<Opening>, Fault>
    requires { (component.row < length table.now.rows.now / row_width) × (at ≤ length msg.now) × (length msg.now ≤ 65535) × Fitting (type_of table.now.rows.now table.now.items.now component.row) component.mark component.given × (pre ≤ length msg.now) × (b < 1024) }
    ensures { Opens table.now.rows.now table.now.items.now msg.now component.row at step (read_component node_limit component.mark component.given (type_of table.now.rows.now table.now.items.now component.row) (bit_at msg.now pre b) (length msg.now) (message (drop at msg.now) count)) result }
{
    if 4096 <= count {
        return Ok(None);
    }
    if component.mark == 0 {
        return open_group(table, component.row, msg, at, count, step);
    }
    if !is_present(msg, pre, b) {
        return Ok(None);
    }
    open_group(table, component.row, msg, at, count, step)
}
