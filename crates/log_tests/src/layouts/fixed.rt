//! Layouts of a fixed size, by their names.
use crate::told::Told;
use record_layouts::*;

/// Tells the redo of a checkpoint.
fn checkpoint(told: &mut Told<'_>, bytes: &[u8]) {
    match read_checkpoint(bytes) {
        Some(found) => told.shows("", &found.redo),
        None => told.text("none"),
    }
}

/// Tells what a layout says of XLOG, Storage and Database.
pub fn xlog(told: &mut Told<'_>, name: &str, bytes: &[u8]) -> bool {
    match name {
        "NextOid" => told.read(NextOid::read(bytes)),
        "BackupEnd" => told.read(BackupEnd::read(bytes)),
        "FpwChange" => told.read(FpwChange::read(bytes)),
        "EndOfRecovery" => told.read(EndOfRecovery::read(bytes)),
        "OverwriteContrecord" => told.read(OverwriteContrecord::read(bytes)),
        "ParameterChange" => told.read(ParameterChange::read(bytes)),
        "Checkpoint" => checkpoint(told, bytes),
        "StorageCreate" => told.read(StorageCreate::read(bytes)),
        "StorageTruncate" => told.read(StorageTruncate::read(bytes)),
        "DatabaseCopy" => told.read(DatabaseCopy::read(bytes)),
        "DatabaseCreate" => told.read(DatabaseCreate::read(bytes)),
        _ => return false,
    }
    true
}

/// Tells what a layout says of Transaction, CLOG, MultiXact and Standby.
pub fn transaction(told: &mut Told<'_>, name: &str, bytes: &[u8]) -> bool {
    match name {
        "Assignment" => told.read(Assignment::read(bytes)),
        "ClogZeroPage" => told.read(ClogZeroPage::read(bytes)),
        "ClogTruncate" => told.read(ClogTruncate::read(bytes)),
        "MultiXactZeroPage" => told.read(MultiXactZeroPage::read(bytes)),
        "MultiXactTruncate" => told.read(MultiXactTruncate::read(bytes)),
        "RunningXacts" => told.read(RunningXacts::read(bytes)),
        _ => return false,
    }
    true
}

/// Tells what a layout says of Heap.
pub fn heap(told: &mut Told<'_>, name: &str, bytes: &[u8]) -> bool {
    match name {
        "HeapInsert" => told.read(HeapInsert::read(bytes)),
        "HeapDelete" => told.read(HeapDelete::read(bytes)),
        "HeapUpdate" => told.read(HeapUpdate::read(bytes)),
        "HeapTruncate" => told.read(HeapTruncate::read(bytes)),
        "HeapConfirm" => told.read(HeapConfirm::read(bytes)),
        "HeapLock" => told.read(HeapLock::read(bytes)),
        "HeapInplace" => told.read(HeapInplace::read(bytes)),
        _ => return false,
    }
    true
}

/// Tells what a layout says of Heap2 and Btree.
pub fn page(told: &mut Told<'_>, name: &str, bytes: &[u8]) -> bool {
    match name {
        "HeapVacuum" => told.read(HeapVacuum::read(bytes)),
        "HeapVisible" => told.read(HeapVisible::read(bytes)),
        "HeapPrune" => told.read(HeapPrune::read(bytes)),
        "HeapFreezePage" => told.read(HeapFreezePage::read(bytes)),
        "BtreeInsert" => told.read(BtreeInsert::read(bytes)),
        "BtreeSplit" => told.read(BtreeSplit::read(bytes)),
        "BtreeDedup" => told.read(BtreeDedup::read(bytes)),
        "BtreeDelete" => told.read(BtreeDelete::read(bytes)),
        "BtreeVacuum" => told.read(BtreeVacuum::read(bytes)),
        "BtreeNewRoot" => told.read(BtreeNewRoot::read(bytes)),
        _ => return false,
    }
    true
}
