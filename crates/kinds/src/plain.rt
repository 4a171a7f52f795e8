// BOOLEAN (9, 31.3).
ghost use Rattle.std.specs.Prelude.{◌≡◌, ℕ, ◌≤◌, length};
ghost use Rattle.x696.specs.Leaf.{boolean};
ghost use Rattle.kinds.specs.Run.{ScalarAnswer, leaf_at};

use octets::answers::Number;
use octets::faults::{Cause, Fault};
use octets::words::octet;

pub fn read_boolean(msg: &[u8], at: usize) -> Result<Number, Fault>
    requires { at ≤ length msg.now }
    ensures { (count : ℕ) → ScalarAnswer msg.now (leaf_at boolean msg.now at count) 1 at count result }
{
    if msg.len() <= at {
        return Err(Cause::Short.at(at));
    }
    let o = octet(msg, at);
    if o == 0 {
        return Ok(Number {
            value: 0,
            next: at + 1,
        });
    }
    // TRUE is FF (31.3)
    if o != 255 {
        return Err(Cause::NotCanonical.at(at));
    }
    Ok(Number {
        value: 1,
        next: at + 1,
    })
}
