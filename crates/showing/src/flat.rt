// A setting as five numbers, for print and for callers that cannot have an enum.
ghost use Rattle.std.specs.Prelude.{◌≡◌};
ghost use Rattle.std.specs.Float.{binary32, binary64};
ghost use Rattle.std.specs.Float.Ieee.{to_bits};
ghost use Rattle.showing.specs.Settings.{told};
ghost use Rattle.showing.specs.Flat.{there_flat, flat_of, flat_answer};

use crate::settings::Setting;
use octets::faults::Refusal;

// A refusal's number, part and place, all 0 if there is none; what the setting is, and its word, both 0 if it is
// refused.
#[repr(C)]
#[derive(Clone, Copy)]
pub struct FlatSetting {
    pub number: u64,
    pub part: u64,
    pub place: u64,
    pub what: u64,
    pub word: u64,
}

// The bits of a single real; a NaN has those of the one NaN (document 01, REAL).
fn single_word(x: f32) -> u64
    ensures { result ≡ to_bits binary32 x }
{
    if x != x {
        0x7fc0_0000
    } else {
        f32::to_bits(x) as u64
    }
}

fn double_word(x: f64) -> u64
    ensures { result ≡ to_bits binary64 x }
{
    if x != x {
        0x7ff8_0000_0000_0000
    } else {
        f64::to_bits(x)
    }
}

fn there(what: u64, word: u64) -> FlatSetting
    ensures { result ≡ there_flat what word }
{
    FlatSetting {
        number: 0,
        part: 0,
        place: 0,
        what,
        word,
    }
}

// Ruled out, for instance: a signed number as an unsigned one, and a real's value in place of its bits.
impl From<Setting> for FlatSetting {
    ghost from_gives = { λ s f. f ≡ flat_of s };

    fn from(setting: Setting) -> Self {
        match setting {
            Setting::Absent => there(1, 0),
            Setting::Truth(b) => there(2, u64::from(b)),
            Setting::Unsigned(n) => there(3, n),
            Setting::Signed(x) => there(4, x.cast_unsigned()),
            Setting::Single(x) => there(5, single_word(x)),
            Setting::Double(x) => there(6, double_word(x)),
            Setting::Size(n) => there(7, n),
            Setting::Group(n) => there(8, n),
        }
    }
}

impl From<Result<Setting, Refusal>> for FlatSetting {
    ghost from_gives = { λ a f. f ≡ flat_answer (told a) };

    fn from(answer: Result<Setting, Refusal>) -> Self {
        match answer {
            Ok(setting) => FlatSetting::from(setting),
            Err(refusal) => FlatSetting {
                number: refusal.cause.number(),
                part: refusal.part.number(),
                place: refusal.place as u64,
                what: 0,
                word: 0,
            },
        }
    }
}

// A setting, or the answer of a reading, refused or not.
pub fn flatten<A: Into<FlatSetting>>(answer: A) -> FlatSetting
    ensures { A.converts answer result }
{
    answer.into()
}

// The five numbers, parted by spaces.
impl std::fmt::Display for FlatSetting {
    ghost use Rattle.std.specs.Prelude.{Some, codes, decimal, ◌++◌};

    ghost output = { λ r. Some (decimal r.number ++ (codes " " ++ (decimal r.part ++ (codes " " ++
        (decimal r.place ++ (codes " " ++ (decimal r.what ++ (codes " " ++ decimal r.word)))))))) };

    fn fmt<W: std::fmt::Write>(&self, f: &mut std::fmt::Formatter<W>) -> std::fmt::Result {
        write!(
            f,
            "{} {} {} {} {}",
            self.number, self.part, self.place, self.what, self.word
        )
    }
}
