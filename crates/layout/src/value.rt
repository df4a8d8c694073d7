//! The values of fields.

ghost use Rattle.std.specs.Prelude.{◌≡◌};
ghost use Rattle.layout.specs.Values.{number};

/// A field's value, with the form of its bytes. Numbers stand with the lowest byte first.
#[derive(Clone, Copy, Debug)]
pub enum Value {
    /// A number of one byte.
    Byte(u8),
    /// A number of two bytes.
    Half(u16),
    /// A number of four bytes.
    Word(u32),
    /// A number of eight bytes.
    Long(u64),
    /// A signed number of eight bytes, in two's complement.
    Signed(i64),
    /// Thirty-two bytes that are no number.
    Raw([u8; 32]),
}

impl Value {
    /// The number that a rule speaks of: 0 for a signed number and for raw bytes.
    pub fn number(&self) -> u64
        ensures { result ≡ number self.now }
    {
        match *self {
            Value::Byte(n) => u64::from(n),
            Value::Half(n) => u64::from(n),
            Value::Word(n) => u64::from(n),
            Value::Long(n) => n,
            Value::Signed(_) | Value::Raw(_) => 0,
        }
    }
}
