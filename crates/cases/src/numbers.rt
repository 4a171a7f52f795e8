// Decimal numbers of a text, one after another. A number ends behind one octet that is no digit.
ghost use Rattle.std.specs.Prelude.{◌≤◌, ◌-◌, length};
ghost use Rattle.cases.specs.Ends.{IsEndOf};

// The largest number that one more digit can follow.
const TENTH: u64 = u64::MAX / 10;

// A place in a text: the octets that are left to read.
#[derive(Clone, Copy)]
pub struct Numbers<'a> {
    pub left: &'a [u8],
}

impl Numbers<'_> {
    // The next number, modulo 2^64: 0 at the end of the text, and where a number above TENTH has one more digit, behind
    // which it ends.
    #[tactic(auto, using(crate::proofs::EndLaws::end_step))]
    pub fn number(&mut self) -> u64
        ensures shorter { length self.new.left.now ≤ length self.old.left.now - 1 }
        ensures inside { IsEndOf self.new.left.now self.old.left.now }
    {
        let mut value = 0;
        // No `for`: the cursor moves with each octet, and the next number begins where this one stops.
        while let Some(octet) = self.left.split_off_first() {
            let digit = match *octet {
                b'0'..=b'9' => u64::from(*octet - b'0'),
                _ => return value,
            };
            if TENTH < value {
                return 0;
            }
            value = (value * 10).wrapping_add(digit);
        }
        value
    }

    // A list, which begins with how many numbers there are, put into the slice as far as it goes: the part that it
    // fills.
    fn list<'b, T: Copy, F: Fn(u64) -> T>(&mut self, out: &'b mut [T], of: F) -> &'b [T]
        requires { F.IsAlwaysCallable of }
        ensures filled { length result.now ≤ length out.old }
        ensures inside { IsEndOf self.new.left.now self.old.left.now }
    {
        let n = self.number().min(out.len() as u64) as usize;
        let filled = &mut out[..n];
        for place in filled.iter_mut() {
            *place = of(self.number());
        }
        filled
    }

    // A list of words.
    pub fn words<'b>(&mut self, out: &'b mut [u64]) -> &'b [u64]
        ensures filled { length result.now ≤ length out.old }
        ensures inside { IsEndOf self.new.left.now self.old.left.now }
    {
        self.list(out, |x| x)
    }

    // A list of octets; a number above 255 counts as 255.
    pub fn octets<'b>(&mut self, out: &'b mut [u8]) -> &'b [u8]
        ensures filled { length result.now ≤ length out.old }
        ensures inside { IsEndOf self.new.left.now self.old.left.now }
    {
        self.list(out, |x| u8::try_from(x).unwrap_or(255))
    }
}
