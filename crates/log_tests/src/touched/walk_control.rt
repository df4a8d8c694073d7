//! A control file with the two positions that a walk looks at.
use control_file::{Checkpoint, Control};

/// A checkpoint of zeros.
const CHECKPOINT: Checkpoint = Checkpoint {
    redo: 0,
    tli: 0,
    prevTli: 0,
    fpw: 0,
    nextXid: 0,
    nextOid: 0,
    nextMulti: 0,
    nextMultiOffset: 0,
    oldestXid: 0,
    oldestXidDb: 0,
    oldestMulti: 0,
    oldestMultiDb: 0,
    time: 0,
    oldestCommitTs: 0,
    newestCommitTs: 0,
    oldestActiveXid: 0,
};

/// Zeros, but for the position of the last checkpoint's record and `minRecoveryPoint`.
pub(crate) fn control(checkpoint: u64, least: u64) -> Control {
    Control {
        sysid: 7,
        version: 0,
        catalog: 0,
        state: 1,
        time: 0,
        checkPoint: checkpoint,
        cp: CHECKPOINT,
        unloggedLsn: 0,
        minRecoveryPoint: least,
        minRecoveryPointTli: 0,
        backupStart: 0,
        backupEnd: 0,
        endRequired: 0,
        walLevel: 0,
        walLogHints: 0,
        maxConnections: 0,
        maxWorkers: 0,
        maxSenders: 0,
        maxPrepared: 0,
        maxLocks: 0,
        trackCommitTs: 0,
        maxAlign: 0,
        floatFormat: 0,
        blcksz: 0,
        relseg: 0,
        walBlcksz: 0,
        walSegSize: 0,
        nameLen: 0,
        indexKeys: 0,
        toastChunk: 0,
        loBlock: 0,
        float8ByVal: 0,
        checksumVersion: 0,
        nonce: [0; 32],
    }
}
