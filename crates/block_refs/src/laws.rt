//! Laws: what holds of the definitions, whatever calls them.

ghost use Rattle.std.specs.Prelude.{◌≡◌, ◌↔◌, ◌<◌, ◌^◌, ℕ, List, ◌++◌, None, Some, drop, length, map, Ok, Err};
ghost use Rattle.std.specs.List.{flat_map, slice_get};
ghost use Rattle.block_refs.specs.declared.fault.Flaw.{Flaw};
ghost use Rattle.block_refs.specs.declared.placed.Placed.{Placed};
ghost use Rattle.block_refs.specs.declared.names.BlockName.{BlockName};
ghost use Rattle.block_refs.specs.Order.{block_cmp, compared};
ghost use Rattle.block_refs.specs.Parts.{PartsView, parts_of};
ghost use Rattle.block_refs.specs.Spelling.{HasParts, IsFirstFlaw, IdsRise};
ghost use Rattle.block_refs.specs.Bytes.{block_with, block_part, main_bytes, placed_bytes, stored_image};
ghost use Rattle.block_refs.specs.Written.{CanWriteAll, Written, body_bytes, written_parts};

/// A body has one reading: the parts that it spells, or its first flaw.
pub fn bodies_have_one_reading()
    ensures read { (body : List ℕ) (parts : PartsView) →
        (parts_of body ≡ Ok parts) ↔ HasParts body parts }
    ensures flawed { (body : List ℕ) (flaw : Flaw) →
        (parts_of body ≡ Err flaw) ↔ IsFirstFlaw body flaw }
    ensures one { (body : List ℕ) (parts other : PartsView) →
        HasParts body parts → HasParts body other → parts ≡ other }
    ensures first { (body : List ℕ) (flaw other : Flaw) →
        IsFirstFlaw body flaw → IsFirstFlaw body other → flaw ≡ other }
    ensures either { (body : List ℕ) (parts : PartsView) (flaw : Flaw) →
        HasParts body parts → ¬ (IsFirstFlaw body flaw) }
{}

/// Behind the headers a body has, for each block in order, its image and its bytes, then the main
/// bytes, and nothing else.
pub fn parts_fill_a_body()
    ensures { (body : List ℕ) (parts : PartsView) → HasParts body parts → drop parts.start body
        ≡ flat_map (block_part body parts) parts.blocks ++ main_bytes body parts }
{}

/// The ids of a body's blocks rise, so that each names one block.
pub fn ids_rise()
    ensures rise { (body : List ℕ) (parts : PartsView) → HasParts body parts →
        IdsRise None parts.blocks }
    ensures named { (body : List ℕ) (parts : PartsView) (at : ℕ) (placed : Placed) →
        HasParts body parts → slice_get parts.blocks at ≡ Some placed →
        block_with placed.block.id parts.blocks ≡ Some placed }
{}

/// Blocks are ordered by tablespace, database, relation, fork and number.
pub fn blocks_are_ordered()
    ensures { (a b : BlockName) → compared a b ≡ block_cmp a b }
{}

/// A body that is written is read again: it has the references that were given, in order, and each
/// has its image and its bytes; the main bytes are those that were given.
pub fn written_bodies_are_read_again()
    ensures read { (blocks : List Written) (main : List ℕ) → CanWriteAll None blocks →
        length main < 2 ^ 32 → parts_of (body_bytes blocks main) ≡ Ok (written_parts blocks main) }
    ensures references { (blocks : List Written) (main : List ℕ) →
        map (λ placed. placed.block) (written_parts blocks main).blocks ≡ map (λ w. w.block) blocks }
    ensures images { (blocks : List Written) (main : List ℕ) → CanWriteAll None blocks →
        map (stored_image (body_bytes blocks main) (written_parts blocks main))
        (written_parts blocks main).blocks ≡ map (λ w. w.image) blocks }
    ensures bytes { (blocks : List Written) (main : List ℕ) → CanWriteAll None blocks →
        map (placed_bytes (body_bytes blocks main) (written_parts blocks main))
        (written_parts blocks main).blocks ≡ map (λ w. w.bytes) blocks }
    ensures rest { (blocks : List Written) (main : List ℕ) →
        main_bytes (body_bytes blocks main) (written_parts blocks main) ≡ main }
{}
