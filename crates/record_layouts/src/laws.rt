//! Laws: what holds of the definitions, whatever calls them.

ghost use Rattle.std.specs.Prelude.{true, ◌≡◌, ◌<◌, ◌++◌, ℕ, Bool, List, Some, take};
ghost use Rattle.layout_readers.specs.Rows.{AllFit, AreBytes, row_bytes};
ghost use Rattle.control_file.specs.declared.checkpoint.Checkpoint.{Checkpoint};
ghost use Rattle.control_file.specs.Reading.{checkpoint_of};
ghost use Rattle.record_layouts.specs.declared.database.DatabaseCreate.{DatabaseCreate};
ghost use Rattle.record_layouts.specs.declared.database.DatabaseDrop.{DatabaseDrop};
ghost use Rattle.record_layouts.specs.declared.end.TransactionEnd.{TransactionEnd};
ghost use Rattle.record_layouts.specs.declared.end_parts.Outcome.{Outcome};
ghost use Rattle.record_layouts.specs.declared.heap.HeapUpdate.{HeapUpdate};
ghost use Rattle.record_layouts.specs.declared.heap2.HeapPrune.{HeapPrune};
ghost use Rattle.record_layouts.specs.declared.storage.StorageCreate.{StorageCreate};
ghost use Rattle.record_layouts.specs.declared.storage.StorageTruncate.{StorageTruncate};
ghost use Rattle.record_layouts.specs.declared.xlog.ParameterChange.{ParameterChange};
ghost use Rattle.record_layouts.specs.Database.{create_prefix_of, database_create_of, database_drop_of, drop_prefix_of};
ghost use Rattle.record_layouts.specs.End.{dropped_prefix_of, end_of};
ghost use Rattle.record_layouts.specs.Heap.{heap_update_of};
ghost use Rattle.record_layouts.specs.Heap2.{heap_prune_of};
ghost use Rattle.record_layouts.specs.HeapSpelling.{MayFollow, prune_values, update_values};
ghost use Rattle.record_layouts.specs.Operation.{manager_of, number_of, numbered, operation_of};
ghost use Rattle.record_layouts.specs.PrefixLaws.{checkpoint_there, created_there, dropped_there, parameters_there};
ghost use Rattle.record_layouts.specs.Spelling.{IsEnd, end_then};
ghost use Rattle.record_layouts.specs.Storage.{created_name_of, cut_name_of, storage_create_of, storage_truncate_of};
ghost use Rattle.record_layouts.specs.Xlog.{parameter_change_of};
ghost use Rattle.record_layouts.specs.XlogPrefixes.{checkpoint_prefix_of, parameter_prefix_of};

/// A commit or an abort that is written with its flags is read again, whatever stands behind it.
#[tactic(auto, using(crate::proofs::EndLemmas::end_again))]
pub fn ends_are_read_again()
    ensures { (outcome : Outcome) (end : TransactionEnd) (rest : List ℕ) → IsEnd outcome end →
        end_of outcome true (end_then outcome end rest) ≡ Some end }
{}

/// The operation of a record is of its manager, and has the number that `info` has.
#[tactic(auto, using(crate::proofs::NumberLemmas::manager_is, crate::proofs::NumberLemmas::number_is))]
pub fn operations_have_their_numbers()
    ensures manager { (manager info : ℕ) → manager_of (operation_of manager info) ≡ manager }
    ensures number { (manager info : ℕ) → info < 256 →
        number_of (operation_of manager info) ≡ numbered manager info }
{}

/// Where a layout is whole, its names and values that are read from a cut one are its own.
pub fn prefixes_are_of_their_layouts()
    ensures settings { (bytes : List ℕ) (change : ParameterChange) →
        parameter_change_of bytes ≡ Some change →
        parameter_prefix_of bytes ≡ parameters_there change }
    ensures checkpoints { (bytes : List ℕ) (cp : Checkpoint) → checkpoint_of bytes ≡ Some cp →
        checkpoint_prefix_of bytes ≡ checkpoint_there cp }
    ensures made { (bytes : List ℕ) (create : DatabaseCreate) →
        database_create_of bytes ≡ Some create → create_prefix_of bytes ≡ created_there create }
    ensures gone { (bytes : List ℕ) (drop : DatabaseDrop) → database_drop_of bytes ≡ Some drop →
        drop_prefix_of bytes ≡ dropped_there drop }
    ensures created { (bytes : List ℕ) (create : StorageCreate) →
        storage_create_of bytes ≡ Some create → created_name_of bytes ≡ Some create.rel }
    ensures dropped { (outcome : Outcome) (has_xinfo : Bool) (bytes : List ℕ)
        (end : TransactionEnd) → end_of outcome has_xinfo bytes ≡ Some end →
        dropped_prefix_of has_xinfo bytes ≡ end.dropped }
    ensures cut { (bytes : List ℕ) (cut : StorageTruncate) → storage_truncate_of bytes ≡ Some cut →
        cut_name_of bytes ≡ Some cut.rel }
{}

/// The main bytes of an UPDATE that are spelled are read, whatever stands behind them; and what is
/// read was spelled so.
pub fn updates_are_spelled()
    ensures read { (update : HeapUpdate) (rest : List ℕ) → AllFit (update_values update) →
        heap_update_of (row_bytes (update_values update) ++ rest) ≡ Some update }
    ensures fit { (update : HeapUpdate) (bytes : List ℕ) → AreBytes bytes →
        heap_update_of bytes ≡ Some update → AllFit (update_values update) }
    ensures spelled { (update : HeapUpdate) (bytes : List ℕ) → AreBytes bytes →
        heap_update_of bytes ≡ Some update → row_bytes (update_values update) ≡ take 14 bytes }
{}

/// The same of a PRUNE, with or without its last byte.
pub fn prunes_are_spelled()
    ensures read { (prune : HeapPrune) (rest : List ℕ) → AllFit (prune_values prune) →
        MayFollow prune.catalog rest →
        heap_prune_of (row_bytes (prune_values prune) ++ rest) ≡ Some prune }
    ensures fit { (prune : HeapPrune) (bytes : List ℕ) → AreBytes bytes →
        heap_prune_of bytes ≡ Some prune → AllFit (prune_values prune) }
    ensures spelled { (prune : HeapPrune) (bytes : List ℕ) → AreBytes bytes →
        heap_prune_of bytes ≡ Some prune → row_bytes (prune_values prune) ≡ take 9 bytes }
{}
