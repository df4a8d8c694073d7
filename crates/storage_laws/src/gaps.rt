// Forks without a gap.
ghost use Rattle.storage_laws.specs.GapLaws.{CreatedGaps, DatabaseDroppedGaps, DroppedGaps, EditedGaps, MadeGaps, MapWrittenGaps, TruncatedGaps};
ghost use Rattle.storage_laws.specs.WrittenLaws.{WrittenHasNoGap};

/// A fork without a gap has none after each call.
pub fn gap_laws()
    ensures written { WrittenHasNoGap }
    ensures truncated { TruncatedGaps }
    ensures created { CreatedGaps }
    ensures dropped { DroppedGaps }
    ensures edited { EditedGaps }
    ensures made { MadeGaps }
    ensures database_dropped { DatabaseDroppedGaps }
    ensures map_written { MapWrittenGaps }
{}
