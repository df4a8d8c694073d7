//! What a field may hold.

ghost use Rattle.std.specs.Prelude.{◌≡◌};
ghost use Rattle.layout.specs.Rules.{allows};

/// What a field may hold.
#[derive(Clone, Copy, Debug)]
pub enum Rule {
    /// Whatever stands there.
    Any,
    /// A number that is not above this one.
    AtMost(u64),
    /// This number alone.
    Only(u64),
    /// A number from the first to the second, both of them allowed.
    Between(u64, u64),
    /// A power of two from the first to the second, both of them allowed.
    PowerOfTwo(u64, u64),
}

impl Rule {
    /// Whether a field may hold this number.
    pub fn allows(&self, n: u64) -> bool
        ensures { result ≡ allows self.now n }
    {
        match *self {
            Rule::Any => true,
            Rule::AtMost(most) => n <= most,
            Rule::Only(one) => n == one,
            Rule::Between(least, most) => least <= n && n <= most,
            Rule::PowerOfTwo(least, greatest) => {
                n.is_power_of_two() && least <= n && n <= greatest
            }
        }
    }
}
