// INTEGER (10): its bounds, then its octets by the form that they give.
ghost use Rattle.std.specs.Prelude.{◌≡◌, ◌^◌, ◌<◌, ◌≤◌};
ghost use Rattle.x696.specs.Integer.{integer_form, form_octets};
ghost use Rattle.x696.specs.Leaf.{integer};
ghost use Rattle.pens.specs.Flat.{Numbered, Stored, form_width};

use kinds::widths::{signed_width, unsigned_width};
use octets::faults::Cause;
use octets::numbers::put_number;
use octets::variable::{put_signed, put_unsigned};
use table::bounds::Bounds;

// How many octets a number has by its bounds, and not by its value (10.3 a to d, 10.4 a to d); 0 where that varies.
fn fixed_width(bounds: Bounds) -> usize
    ensures { (result ≡ form_width (integer_form bounds.flags bounds.a bounds.b)) × (result ≤ 8) }
{
    if !bounds.has_upper() {
        return 0;
    }
    if bounds.is_unsigned() {
        return unsigned_width(bounds.b);
    }
    if bounds.has_lower() {
        signed_width(bounds.a, bounds.b)
    } else {
        0
    }
}

// Its octets by the form that the bounds give.
fn put_form(bounds: Bounds, n: u64, to: usize, out: &mut [u8]) -> usize
    requires { to < 2 ^ 40 }
    ensures { Stored out.old out.new to result (form_octets (integer_form bounds.flags bounds.a bounds.b) n) }
{
    let k = fixed_width(bounds);
    if k != 0 {
        put_number(out, to, k, n);
        return to + k;
    }
    if bounds.is_unsigned() {
        put_unsigned(out, to, n)
    } else {
        put_signed(out, to, n)
    }
}

pub fn write_integer(bounds: Bounds, n: u64, to: usize, out: &mut [u8]) -> Result<usize, Cause>
    requires { to < 2 ^ 40 }
    ensures { Numbered (integer bounds.flags bounds.a bounds.b) n to out.old out.new result }
{
    if !bounds.allows(n) {
        return Err(Cause::NotAllowed);
    }
    Ok(put_form(bounds, n, to, out))
}
