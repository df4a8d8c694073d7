// What is there lies in a folder.
ghost use Rattle.storage_laws.specs.TreeLaws.{CreatedTree, DatabaseDroppedTree, DroppedTree, EditedTree, MadeTree, MapWrittenTree, TruncatedTree, WrittenTree};

/// Where whatever is there lies in a folder, it does so after each call.
pub fn tree_laws()
    ensures written { WrittenTree }
    ensures truncated { TruncatedTree }
    ensures created { CreatedTree }
    ensures dropped { DroppedTree }
    ensures edited { EditedTree }
    ensures made { MadeTree }
    ensures database_dropped { DatabaseDroppedTree }
    ensures map_written { MapWrittenTree }
{}
