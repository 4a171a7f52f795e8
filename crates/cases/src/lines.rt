// The lines of a text.
ghost use Rattle.std.specs.Prelude.{◌≡◌, ◌<◌, ◌≤◌, ◌++◌, MatchOption, length, drop};
ghost use Rattle.std.specs.Iterator.{at_most};

use crate::numbers::Numbers;

// A line with its line feed, and the text from its first octet on: the numbers of a case may go past the line.
#[derive(Clone, Copy)]
pub struct Line<'a> {
    pub octets: &'a [u8],
    pub text: &'a [u8],
    ghost inside: { (0 < length octets.now) × (length octets.now ≤ length text.now) },
}

impl<'a> Line<'a> {
    // The numbers behind a letter and a space.
    pub fn numbers(self) -> Numbers<'a>
        requires { 2 ≤ length self.octets.now }
        ensures { result.left.now ≡ drop 2 self.entry.text.now }
    {
        Numbers {
            left: &self.text[2..],
        }
    }
}

// The lines of this text.
#[derive(Clone, Copy)]
pub struct Lines<'a>(pub &'a [u8]);

impl<'a> Iterator for Lines<'a> {
    type Item = Line<'a>;

    // Ruled out, for instance: a line that is left out, and an end before the text's.
    ghost next_gives = { λ lines result left. MatchOption result (length lines.0.now ≡ 0)
        (λ line. (line.text.now ≡ lines.0.now) × (line.octets.now ++ left.0.now ≡ lines.0.now)) };

    ghost remaining = { λ lines. at_most (length lines.0.now) };

    fn next(&mut self) -> Option<Line<'a>> {
        let text = self.0;
        if text.is_empty() {
            return None;
        }
        let end = match text.iter().position(|octet| *octet == b'\n') {
            Some(i) => i + 1,
            None => text.len(),
        };
        let (octets, after) = text.split_at(end);
        self.0 = after;
        Some(Line { octets, text })
    }
}
