// A single setting: the component at a path, read by its type (document 01, "Editing and reading by path").
ghost use Rattle.std.specs.Prelude.{◌≡◌, ◌^◌, ◌<◌};
ghost use Rattle.x696.specs.Editing.{read_setting};
ghost use Rattle.table.specs.Kind.{code_of};
ghost use Rattle.table.specs.declared.kind.Kind.TheVariants.{Single};
ghost use Rattle.showing.specs.Settings.{integer_setting, kind_setting, setting_as, answer_as, told};

use crate::numbers::{double_of, signed_of, single_of};
use finding::places::find_in;
use octets::faults::Refusal;
use table::bounds::Bounds;
use table::kind::Kind;
use table::words::{known_kind, row_bounds};

#[derive(Clone, Copy)]
pub enum Setting {
    Absent,
    Truth(bool),
    Unsigned(u64),
    Signed(i64),
    Single(f32),
    Double(f64),
    Size(u64),
    Group(u64),
}

// INTEGER is unsigned or signed by its type, not by its value.
fn integer_setting(bounds: Bounds, number: u64) -> Setting
    ensures { result ≡ setting_as (integer_setting bounds.flags bounds.a number) }
{
    if bounds.is_unsigned() {
        Setting::Unsigned(number)
    } else {
        Setting::Signed(signed_of(number))
    }
}

// The setting of a value that is there, by its row's kind.
fn setting_of(kind: Kind, bounds: Bounds, number: u64) -> Setting
    requires { kind ≡ Single → number < 2 ^ 32 }
    ensures { result ≡ setting_as (kind_setting (code_of kind) bounds.flags bounds.a number) }
{
    match kind {
        Kind::Boolean => Setting::Truth(number == 1),
        Kind::Integer => integer_setting(bounds, number),
        Kind::Enumerated => Setting::Signed(signed_of(number)),
        Kind::Single => Setting::Single(single_of(number as u32)),
        Kind::Double => Setting::Double(double_of(number)),
        Kind::Null => Setting::Group(0),
        Kind::OctetString | Kind::BitString | Kind::VisibleString => Setting::Size(number),
        Kind::Sequence | Kind::SequenceOf => Setting::Group(number),
        Kind::Choice => Setting::Group(1),
    }
}

// Reads a setting, with the refusals of an edit up to PATH.
// Ruled out, for instance: the setting of another component, and a DEFAULT one that is read as absent.
pub fn read_setting(
    rows: &[u64],
    items: &[u64],
    row: u64,
    msg: &[u8],
    path: &[u64],
) -> Result<Setting, Refusal>
    ensures { told result ≡ answer_as (read_setting rows.now items.now row msg.now path.now) }
{
    let s = find_in(rows, items, row, msg, path)?.spot;
    if s.absent {
        return Ok(Setting::Absent);
    }
    Ok(setting_of(
        known_kind(rows, s.component.row),
        row_bounds(rows, s.component.row),
        s.number,
    ))
}
