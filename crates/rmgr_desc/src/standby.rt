//! Texts of the manager Standby.

ghost use Rattle.std.specs.Prelude.{◌≡◌, ◌++◌, IfOk, string_bytes};
ghost use Rattle.record_layouts.specs.Standby.{running_xacts_of};
ghost use Rattle.rmgr_desc.specs.Pieces.{or_short};
ghost use Rattle.rmgr_desc.specs.Standby.{running_text, standby_text};

use crate::pieces::add_short;
use record_layouts::{RunningXacts, StandbyOp};
use std::alloc::AllocError;

/// Adds the text of an operation with these main bytes.
pub fn add_standby(text: &mut String, op: StandbyOp, main: &[u8]) -> Result<(), AllocError>
    ensures { IfOk result (λ _. string_bytes text.new
        ≡ string_bytes text.old ++ standby_text op main.now) }
{
    match op {
        StandbyOp::RunningXacts => add_running(text, main),
        StandbyOp::Lock | StandbyOp::Invalidations => Ok(()),
        StandbyOp::Unlisted(_) => Ok(()),
    }
}

fn add_running(text: &mut String, main: &[u8]) -> Result<(), AllocError>
    ensures { IfOk result (λ _. string_bytes text.new
        ≡ string_bytes text.old ++ or_short running_text (running_xacts_of main.now)) }
{
    let Some(running) = RunningXacts::read(main) else {
        return add_short(text);
    };
    let next = running.next_xid;
    let latest = running.latest_xid;
    let oldest = running.oldest_xid;
    write!(
        text,
        "nextXid {next}; latestCompletedXid {latest}; oldestRunningXid {oldest}"
    )
}
