// Forks that are made, relations that are dropped, and bits of the map.
ghost use Rattle.storage_laws.specs.ChangeLaws.{CreatedBlocks, DroppedBlocks, EditedBlocks, EditedWhole};

/// What each block is once `create` has made a fork, `drop_relation` has dropped a relation, or
/// `map_bits` has cleared bits of the visibility map.
pub fn change_laws()
    ensures created { CreatedBlocks }
    ensures dropped { DroppedBlocks }
    ensures edited { EditedBlocks }
    ensures whole { EditedWhole }
{}
