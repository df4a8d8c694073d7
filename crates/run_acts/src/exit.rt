// How the program ends.
ghost use Rattle.std.specs.Prelude.{◌≡◌};
ghost use Rattle.run_acts.specs.Causes.{status_of};

use crate::Cause;

/// The status of the program, and why it ended.
#[derive(Drop)]
pub struct Exit {
    /// 0 where the command was carried out, 3 for a fault of a device, 4 for want of memory, and
    /// 1 for every other cause.
    pub status: u8,
    /// Why it ended.
    pub cause: Cause,
}

impl Exit {
    /// The exit for a cause.
    pub fn of(cause: Cause) -> Exit
        ensures status { result.status ≡ status_of cause }
        ensures cause { result.cause ≡ cause }
    {
        let status = match &cause {
            Cause::Done => 0,
            Cause::ReadFault | Cause::WriteFault | Cause::SinkFault => 3,
            Cause::OutOfMemory => 4,
            Cause::Usage
            | Cause::Changed(_)
            | Cause::Unfinished(_)
            | Cause::Paths(_)
            | Cause::Control(_)
            | Cause::History(_)
            | Cause::Rewind(_)
            | Cause::Log(_)
            | Cause::Replay(_)
            | Cause::Differs(_, _) => 1,
        };
        Exit { status, cause }
    }
}
