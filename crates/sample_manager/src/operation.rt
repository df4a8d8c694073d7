//! The operations of the sample's manager.

ghost use Rattle.std.specs.Prelude.{◌≡◌};
ghost use Rattle.sample_manager.specs.Operation.{sample_op_of, is_listed, is_init};

/// An operation of the sample's manager.
#[derive(Clone, Copy, Debug, PartialEq, Eq)]
pub enum SampleOp {
    /// A page of slots is made, each with 0.
    Init,
    /// A slot gets a value.
    Update,
    /// An operation that the manager does not have.
    Unlisted,
}

impl SampleOp {
    /// The operation of a record with this `info`, whose low four bits belong to every manager alike.
    #[tactic(auto, unfolding(crate::specs::Operation::sample_op_of))]
    pub fn of(info: u8) -> SampleOp
        ensures { result ≡ sample_op_of info }
    {
        match info & 0xF0 {
            0x00 => SampleOp::Init,
            0x10 => SampleOp::Update,
            _ => SampleOp::Unlisted,
        }
    }

    /// Whether the manager has it.
    pub fn is_listed(self) -> bool
        ensures { result ≡ is_listed self }
    {
        match self {
            SampleOp::Init | SampleOp::Update => true,
            SampleOp::Unlisted => false,
        }
    }

    /// Whether it makes its page anew.
    pub fn is_init(self) -> bool
        ensures { result ≡ is_init self }
    {
        match self {
            SampleOp::Init => true,
            SampleOp::Update | SampleOp::Unlisted => false,
        }
    }
}
