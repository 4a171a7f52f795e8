// A whole value list, walked with nothing lent: the octets that its value comes to, or the refusal.
ghost use Rattle.std.specs.Prelude.{◌≡◌, true, ◌/◌, ◌<◌, length};
ghost use Rattle.x696.specs.Table.{row_width, type_of};
ghost use Rattle.x696.specs.TableCheck.{default_sound};
ghost use Rattle.encoding.specs.Measures.{ListAnswer};

use octets::faults::{Cause, Part, Refusal};
use table::component::ComponentType;
use table::sound::Table;
use writing::value::write_component;

// A list for a component with its mark and default: an odd word 11, 10, 4, the walk, left over nodes 11, left over contents 11.
pub fn survey_list(
    table: &Table,
    component: ComponentType,
    nodes: &[u64],
    contents: &[u8],
) -> Result<usize, Refusal>
    requires { (component.row < length table.now.rows.now / row_width) × ((1 < component.mark) → default_sound (type_of table.now.rows.now table.now.items.now component.row) component.given ≡ true) }
    ensures { ListAnswer component.mark component.given (type_of table.now.rows.now table.now.items.now component.row) nodes.now contents.now result }
{
    let count = nodes.len() / 2;
    if nodes.len() % 2 != 0 {
        return Err(Cause::BadList.at(count).in_part(Part::List));
    }
    if 4096 < count {
        return Err(Cause::Nodes.at(0).in_part(Part::List));
    }
    let long = 65535 < contents.len();
    if long {
        return Err(Cause::Long.at(0).in_part(Part::List));
    }
    let mut out = [0u8; 1];
    match write_component(table, component, nodes, contents, 0, 0, 0, &mut out[..0]) {
        Err(fault) => Err(fault.in_part(Part::List)),
        Ok(end) => {
            if end.at < count {
                return Err(Cause::BadList.at(end.at).in_part(Part::List));
            }
            let left_over = end.used < contents.len();
            if left_over {
                return Err(Cause::BadList.at(end.at).in_part(Part::List));
            }
            Ok(end.to)
        }
    }
}
