//! Laws: what holds of the definitions, whatever calls them.

ghost use Rattle.std.specs.Prelude.{◌≡◌, ◌↔◌, ◌+◌, ◌*◌, ◌<◌, ℕ, Bool, List, Some, length, slice_get, sum_by};
ghost use Rattle.layout.specs.Readers.{u16_at};
ghost use Rattle.layout_readers.specs.Rows.{AreBytes};
ghost use Rattle.block_layouts.specs.declared.posting.PostingUpdates.{PostingUpdates};
ghost use Rattle.block_layouts.specs.declared.prune.PrunePlaces.{PrunePlaces};
ghost use Rattle.block_layouts.specs.declared.update.OldParts.{OldParts};
ghost use Rattle.block_layouts.specs.Dedup.{interval_at, intervals_from};
ghost use Rattle.block_layouts.specs.Freeze.{first_plan, plan_at, plans_from};
ghost use Rattle.block_layouts.specs.IndexTuples.{restored_tuples_of};
ghost use Rattle.block_layouts.specs.Laws.{AreIndexTuples, AreTuplesFrom, HoldsPrune, HoldsSplit, HoldsUpdate};
ghost use Rattle.block_layouts.specs.MultiInsert.{multi_insert_tuples_of};
ghost use Rattle.block_layouts.specs.Places.{places_from};
ghost use Rattle.block_layouts.specs.Posting.{posting_updates_of};
ghost use Rattle.block_layouts.specs.Prune.{prune_places_of};
ghost use Rattle.block_layouts.specs.Redirects.{redirect_at, redirects_from};
ghost use Rattle.block_layouts.specs.Spelling.{CanWriteUpdate, SpellsPosting, SpellsPrune, update_bytes};
ghost use Rattle.block_layouts.specs.Split.{SplitView, split_tuples_of};
ghost use Rattle.block_layouts.specs.Tuple.{TupleView};
ghost use Rattle.block_layouts.specs.Update.{UpdateView, update_tuple_of};

/// A list of places, of pairs or of intervals has as many as it was asked for, and the one at an index
/// is what stands at its offset.
pub fn places_stand()
    ensures places { (count at index : ℕ) (bytes : List ℕ) → index < count →
        slice_get (places_from count bytes at) index ≡ Some (u16_at (at + 2 * index) bytes) }
    ensures redirects { (count at index : ℕ) (bytes : List ℕ) → index < count →
        slice_get (redirects_from count bytes at) index
        ≡ Some (redirect_at bytes (at + 4 * index)) }
    ensures place_count { (count at : ℕ) (bytes : List ℕ) →
        length (places_from count bytes at) ≡ count }
    ensures redirect_count { (count at : ℕ) (bytes : List ℕ) →
        length (redirects_from count bytes at) ≡ count }
    ensures intervals { (count at index : ℕ) (bytes : List ℕ) → index < count →
        slice_get (intervals_from count bytes at) index
        ≡ Some (interval_at bytes (at + 4 * index)) }
    ensures interval_count { (count at : ℕ) (bytes : List ℕ) →
        length (intervals_from count bytes at) ≡ count }
{}

/// The plan at an index is the one at its offset, and its places stand behind all plans and behind
/// the places of the plans before it.
pub fn plans_stand()
    ensures plans { (count index : ℕ) (bytes : List ℕ) → index < count →
        slice_get (plans_from count bytes (first_plan count)) index
        ≡ Some (plan_at bytes (record {
          plan = 12 * index;
          places = 12 * count + 2 * sum_by (λ plan. length plan.places)
              (plans_from index bytes (first_plan count));
        })) }
    ensures plan_count { (count : ℕ) (bytes : List ℕ) →
        length (plans_from count bytes (first_plan count)) ≡ count }
{}

/// The tuples of a MULTI_INSERT are read exactly where they are all of the bytes.
pub fn inserted_tuples_are_the_bytes()
    ensures { (count : ℕ) (bytes : List ℕ) (tuples : List TupleView) →
        (multi_insert_tuples_of count bytes ≡ Some tuples)
        ↔ ((length tuples ≡ count) × AreTuplesFrom bytes 0 tuples) }
{}

/// The new tuple of an update has all bytes behind its header: with a part of the old tuple those to
/// its hoff apart, else all as one.
pub fn updates_hold_their_bytes()
    ensures { (parts : OldParts) (bytes : List ℕ) (tuple : UpdateView) →
        update_tuple_of parts bytes ≡ Some tuple → HoldsUpdate parts bytes tuple }
{}

/// A prune has as many pairs and dead places as its main bytes say, and an unused place for each two
/// bytes behind them.
pub fn prunes_hold_their_bytes()
    ensures { (redirected dead : ℕ) (bytes : List ℕ) (places : PrunePlaces) →
        prune_places_of redirected dead bytes ≡ Some places →
        HoldsPrune redirected dead bytes places }
{}

/// The new tuple of an update is read exactly where the bytes are those that it is written as.
pub fn updates_are_spelled()
    ensures { (parts : OldParts) (bytes : List ℕ) (tuple : UpdateView) → AreBytes bytes →
        (update_tuple_of parts bytes ≡ Some tuple)
        ↔ (CanWriteUpdate parts tuple × (update_bytes parts tuple ≡ bytes)) }
{}

/// What a prune makes of lines is read exactly where the bytes spell it.
pub fn prunes_are_spelled()
    ensures { (redirected dead : ℕ) (bytes : List ℕ) (places : PrunePlaces) → AreBytes bytes →
        (prune_places_of redirected dead bytes ≡ Some places)
        ↔ SpellsPrune redirected dead bytes places }
{}

/// What a DELETE or a VACUUM with updates does to tuples is read exactly where the bytes spell it.
pub fn posting_updates_are_spelled()
    ensures { (deleted updated : ℕ) (bytes : List ℕ) (lists : PostingUpdates) → AreBytes bytes →
        (posting_updates_of deleted updated bytes ≡ Some lists)
        ↔ SpellsPosting deleted updated bytes lists }
{}

/// The tuples of a split are read exactly where the bytes begin with them, and they are index tuples.
pub fn splits_begin_the_bytes()
    ensures { (with_new : Bool) (bytes : List ℕ) (split : SplitView) →
        (split_tuples_of with_new bytes ≡ Some split) ↔ HoldsSplit with_new bytes split }
{}

/// The tuples of a restored page are read exactly where the bytes are these index tuples, one behind
/// another.
pub fn restored_tuples_are_the_bytes()
    ensures { (bytes : List ℕ) (tuples : List (List ℕ)) →
        (restored_tuples_of bytes ≡ Some tuples) ↔ AreIndexTuples bytes tuples }
{}
