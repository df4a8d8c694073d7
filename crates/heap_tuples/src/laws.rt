//! Redo of one tuple can't tell heap pages with equal masks.

ghost use Rattle.std.specs.Prelude.{ℕ, ◌≡◌, List, Ok};
ghost use Rattle.page_masks.specs.Law.{SameMasks, view};
ghost use Rattle.page_masks.specs.Mask.{mask};
ghost use Rattle.page_laws.specs.Results.{TrimmedHeap};
ghost use Rattle.record_layouts.specs.declared.heap.HeapDelete.{HeapDelete};
ghost use Rattle.record_layouts.specs.declared.heap.HeapConfirm.{HeapConfirm};
ghost use Rattle.record_layouts.specs.declared.heap.HeapLock.{HeapLock};
ghost use Rattle.heap_tuples.specs.Delete.{delete_page};
ghost use Rattle.heap_tuples.specs.Confirm.{confirm_page};
ghost use Rattle.heap_tuples.specs.Lock.{lock_page, lock_updated_page};

/// DELETE respects the mask, and leaves a trimmed heap page.
pub fn delete_respects()
    ensures mask { (block xid : ℕ) (op : HeapDelete) (p q : List ℕ) → TrimmedHeap p → TrimmedHeap q →
        mask block p ≡ mask block q →
        SameMasks (view block) (delete_page xid block op p) (delete_page xid block op q) }
    ensures page { (block xid : ℕ) (op : HeapDelete) (p r : List ℕ) → TrimmedHeap p →
        delete_page xid block op p ≡ Ok r → TrimmedHeap r }
{}

/// HEAP_CONFIRM respects the mask, and leaves a trimmed heap page.
pub fn confirm_respects()
    ensures mask { (block : ℕ) (op : HeapConfirm) (p q : List ℕ) → TrimmedHeap p → TrimmedHeap q →
        mask block p ≡ mask block q →
        SameMasks (view block) (confirm_page block op p) (confirm_page block op q) }
    ensures page { (block : ℕ) (op : HeapConfirm) (p r : List ℕ) → TrimmedHeap p →
        confirm_page block op p ≡ Ok r → TrimmedHeap r }
{}

/// LOCK and LOCK_UPDATED respect the mask, and leave a trimmed heap page.
pub fn locks_respect()
    ensures lock { (block : ℕ) (op : HeapLock) (p q : List ℕ) → TrimmedHeap p → TrimmedHeap q →
        mask block p ≡ mask block q →
        SameMasks (view block) (lock_page block op p) (lock_page block op q) }
    ensures lock_kept { (block : ℕ) (op : HeapLock) (p r : List ℕ) → TrimmedHeap p →
        lock_page block op p ≡ Ok r → TrimmedHeap r }
    ensures updated { (block : ℕ) (op : HeapLock) (p q : List ℕ) → TrimmedHeap p → TrimmedHeap q →
        mask block p ≡ mask block q →
        SameMasks (view block) (lock_updated_page op p) (lock_updated_page op q) }
    ensures updated_kept { (op : HeapLock) (p r : List ℕ) → TrimmedHeap p →
        lock_updated_page op p ≡ Ok r → TrimmedHeap r }
{}
