//! Laws: what holds of the definitions, whatever calls them.

ghost use Rattle.local_replays.specs.Laws.{RecordsLookThere};

/// Where the same is seen of two clusters, the root and the folders that replay changes among it, the
/// records of a log leave both the same so, or are refused alike.
pub fn records_look_there()
    ensures { RecordsLookThere }
{}
