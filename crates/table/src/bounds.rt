// Bounds of INTEGER (10.2) and sizes of strings (13, 14): what flags, A and B allow.
ghost use Rattle.std.specs.Prelude.{◌≡◌, true, false, not, ◌||◌, leb};
ghost use Rattle.x696.specs.Integer.{has_lower, has_upper, rank, is_unsigned, allowed};
ghost use Rattle.x696.specs.String.{fixed_size, size_allowed};
ghost use Rattle.table.specs.Orders.{bounds_ordered, sizes_ordered};

use octets::numbers::rank_of;

// The three words of a row that say them.
#[derive(Clone, Copy)]
pub struct Bounds {
    pub flags: u64,
    pub a: u64,
    pub b: u64,
}

impl Bounds {
    #[tactic(auto, unfolding(x696::specs::Integer::has_lower))]
    pub fn has_lower(self) -> bool
        ensures { result ≡ has_lower self.flags }
    {
        self.flags % 2 == 1
    }

    #[tactic(auto, unfolding(x696::specs::Integer::has_upper))]
    pub fn has_upper(self) -> bool
        ensures { result ≡ has_upper self.flags }
    {
        self.flags / 2 % 2 == 1
    }

    // A lower bound that is zero or positive (10.2 a).
    #[tactic(auto, unfolding(x696::specs::Integer::is_unsigned))]
    pub fn is_unsigned(self) -> bool
        ensures { result ≡ is_unsigned self.flags self.a }
    {
        self.has_lower() && self.a < 0x8000_0000_0000_0000
    }

    #[tactic(auto, unfolding(x696::specs::Integer::allowed))]
    fn allows_unsigned(self, w: u64) -> bool
        requires { is_unsigned self.flags self.a ≡ true }
        ensures { result ≡ allowed self.flags self.a self.b w }
    {
        self.a <= w && (!self.has_upper() || w <= self.b)
    }

    #[tactic(auto, unfolding(x696::specs::Integer::allowed))]
    fn allows_signed(self, w: u64) -> bool
        requires { is_unsigned self.flags self.a ≡ false }
        ensures { result ≡ allowed self.flags self.a self.b w }
    {
        (!self.has_lower() || rank_of(self.a) <= rank_of(w))
            && (!self.has_upper() || rank_of(w) <= rank_of(self.b))
    }

    // Whether the bounds of an INTEGER allow a word.
    pub fn allows(self, w: u64) -> bool
        ensures { result ≡ allowed self.flags self.a self.b w }
    {
        if self.is_unsigned() {
            self.allows_unsigned(w)
        } else {
            self.allows_signed(w)
        }
    }

    // Whether a string has one size only.
    #[tactic(auto, unfolding(x696::specs::String::fixed_size))]
    pub fn is_fixed(self) -> bool
        ensures { result ≡ fixed_size self.flags self.a self.b }
    {
        self.has_upper() && self.a == self.b
    }

    // Whether a string may have this size.
    #[tactic(auto, unfolding(x696::specs::String::size_allowed))]
    pub fn allows_size(self, n: u64) -> bool
        ensures { result ≡ size_allowed self.flags self.a self.b n }
    {
        self.a <= n && (!self.has_upper() || n <= self.b)
    }

    // A at most B, as numbers, where both are present.
    pub fn is_ordered(self) -> bool
        ensures { result ≡ bounds_ordered self.flags self.a self.b }
    {
        if !self.has_lower() || !self.has_upper() {
            return true;
        }
        let unsigned = self.is_unsigned();
        if unsigned {
            self.a <= self.b
        } else {
            rank_of(self.a) <= rank_of(self.b)
        }
    }

    // Of sizes: A at most B where B is present; else B is 0.
    pub fn has_ordered_sizes(self) -> bool
        ensures { result ≡ sizes_ordered self.flags self.a self.b }
    {
        if self.has_upper() {
            self.a <= self.b
        } else {
            self.b == 0
        }
    }
}
