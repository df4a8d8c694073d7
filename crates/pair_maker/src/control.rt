// The control files of a pair.
ghost use Rattle.std.specs.Prelude.{◌≡◌, IfOk};
ghost use Rattle.control_file.specs.Admission.{IsControl};
ghost use Rattle.control_file.specs.Writing.{control_bytes};
ghost use Rattle.pair_maker.specs.Files.{control_with};
ghost use Rattle.pair_maker.specs.Logs.{last_checkpoint};
ghost use Rattle.rewound_tree.specs.RewoundControl.{rewound_control};

use crate::logs::{MADE_AT, SYSTEM, last_checkpoint};
use crate::side::Side;
use cluster_tree::OutOfMemory;
use control_file::{Checkpoint, Control, write_control};
use std::alloc::Global;

// The control file of a cluster that was shut down with this checkpoint.
fn control_with(cp: Checkpoint) -> Control
    ensures { result ≡ control_with cp }
{
    Control {
        sysid: SYSTEM,
        version: 1300,
        catalog: 202307071,
        state: 1,
        time: MADE_AT,
        checkPoint: cp.redo,
        cp,
        unloggedLsn: 1000,
        minRecoveryPoint: 0,
        minRecoveryPointTli: 0,
        backupStart: 0,
        backupEnd: 0,
        endRequired: 0,
        walLevel: 1,
        walLogHints: 1,
        maxConnections: 100,
        maxWorkers: 8,
        maxSenders: 10,
        maxPrepared: 0,
        maxLocks: 64,
        trackCommitTs: 0,
        maxAlign: 8,
        floatFormat: 0x4132_D687_0000_0000,
        blcksz: 8192,
        relseg: 131072,
        walBlcksz: 8192,
        walSegSize: 0x10_0000,
        nameLen: 64,
        indexKeys: 32,
        toastChunk: 1996,
        loBlock: 2048,
        float8ByVal: 1,
        checksumVersion: 0,
        nonce: [0; 32],
    }
}

/// The control file of a cluster whose last record stands there.
pub(crate) fn control_at(side: Side, place: u64) -> Control
    ensures value { result ≡ control_with (last_checkpoint side place) }
    ensures control { IsControl result }
{
    control_with(last_checkpoint(side, place))
}

/// The one that a rewind to this cluster leaves.
pub(crate) fn rewound_at(side: Side, place: u64) -> Control
    ensures value { result
        ≡ rewound_control (control_with (last_checkpoint side place)) MADE_AT }
    ensures control { IsControl result }
{
    let source = control_at(side, place);
    Control {
        state: 5,
        time: MADE_AT,
        minRecoveryPoint: source.checkPoint,
        minRecoveryPointTli: source.cp.tli,
        ..source
    }
}

/// The bytes of a control file.
pub(crate) fn control_bytes(alloc: Global, control: &Control) -> Result<Vec<u8>, OutOfMemory>
    requires { IsControl control.now }
    ensures { IfOk result (λ bytes. bytes.items ≡ control_bytes control.now) }
{
    let mut bytes = [0; 8192];
    write_control(control, &mut bytes);
    Ok(bytes.to_vec(alloc)?)
}
