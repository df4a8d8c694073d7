//! Texts of the manager Sequence.

ghost use Rattle.std.specs.Prelude.{◌≡◌, ◌++◌, IfOk, string_bytes};
ghost use Rattle.record_layouts.specs.Sequence.{sequence_log_of};
ghost use Rattle.rmgr_desc.specs.Pieces.{or_short};
ghost use Rattle.rmgr_desc.specs.Standby.{sequence_log_text, sequence_text};

use crate::pieces::add_short;
use record_layouts::{SequenceLog, SequenceOp};
use std::alloc::AllocError;

/// Adds the text of an operation with these main bytes.
pub fn add_sequence(text: &mut String, op: SequenceOp, main: &[u8]) -> Result<(), AllocError>
    ensures { IfOk result (λ _. string_bytes text.new
        ≡ string_bytes text.old ++ sequence_text op main.now) }
{
    match op {
        SequenceOp::Log => add_log(text, main),
        SequenceOp::Unlisted(_) => Ok(()),
    }
}

fn add_log(text: &mut String, main: &[u8]) -> Result<(), AllocError>
    ensures { IfOk result (λ _. string_bytes text.new
        ≡ string_bytes text.old ++ or_short sequence_log_text (sequence_log_of main.now)) }
{
    let Some(log) = SequenceLog::read(main) else {
        return add_short(text);
    };
    let rel = log.rel;
    write!(text, "rel {rel}")
}
