// Folders of databases, and relation maps.
ghost use Rattle.storage_laws.specs.DatabaseLaws.{DatabaseDroppedBlocks, MadeBlocks, MapWrittenBlocks};

/// What each block is once `make_database` has made a database, `drop_database` has dropped one, or
/// `write_relation_map` has written a map.
pub fn database_laws()
    ensures made { MadeBlocks }
    ensures dropped { DatabaseDroppedBlocks }
    ensures map { MapWrittenBlocks }
{}
