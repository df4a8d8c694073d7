// The first page of the new segment.
ghost use Rattle.std.specs.Prelude.{◌≡◌, ◌*◌, ◌<◌, ◌^◌, [], ◌∷◌, IfErr, IfOk, length};
ghost use Rattle.control_file.specs.Writing.{checkpoint_bytes};
ghost use Rattle.wal_base.specs.Segment.{bytes_of};
ghost use Rattle.wal_records.specs.Writer.{begun, written};
ghost use Rattle.reset_plan.specs.NewSegment.{checkpoint_record, origin_of};
ghost use Rattle.reset_plan.specs.ResetFaults.{no_memory};

use crate::ResetFault;
use clusters::ClusterFault;
use control_file::{Checkpoint, Control, write_checkpoint};
use std::alloc::Global;
use wal_base::Segment;
use wal_records::{LogWriteFault, LogWriter};

// The main bytes' header, and the checkpoint: 88 bytes behind the id of the last fragment.
fn body_of(cp: &Checkpoint) -> [u8; 90]
    ensures value { result ≡ 255 ∷ 88 ∷ checkpoint_bytes cp.now }
    ensures size { length result ≡ 90 }
{
    let mut body = [0; 90];
    body[0] = 255;
    body[1] = 88;
    write_checkpoint(cp, &mut body[2..]);
    body
}

// A log of no records from this segment on.
fn begin_log(alloc: Global, system: u64, segment: Segment) -> Result<LogWriter, ResetFault>
    requires { segment.number * bytes_of segment.size < 2 ^ 63 }
    ensures begun { IfOk result (λ writer. writer ≡ begun (origin_of system segment)) }
    ensures memory { IfErr result (λ e. e ≡ no_memory) }
{
    let start = segment.start();
    Ok(LogWriter::new(alloc, start, segment.tli, system, segment.size)?)
}

/// The log with the one record of the new segment, whose pages `LogWriter::bytes` has: a shutdown
/// checkpoint of the manager XLOG, of no transaction. The only fault is want of memory.
pub(crate) fn first_page(
    alloc: Global,
    control: &Control,
    segment: Segment,
) -> Result<LogWriter, ResetFault>
    requires { segment.number * bytes_of segment.size < 2 ^ 63 }
    ensures page { IfOk result (λ writer. writer ≡ written (origin_of control.now.sysid segment)
        (checkpoint_record control.now.cp ∷ [])) }
    ensures memory { IfErr result (λ e. e ≡ no_memory) }
{
    let mut writer = begin_log(alloc, control.sysid, segment)?;
    let body = body_of(&control.cp);
    match writer.append(0, 0, 0, &body) {
        Ok(_) => Ok(writer),
        Err(LogWriteFault::TooLong(total)) => unreachable!(),
        Err(LogWriteFault::OutOfMemory) => Err(ResetFault::Cluster(ClusterFault::OutOfMemory)),
    }
}
