// What a list tells of a cluster: contracts that are laws.
ghost use Rattle.replay_areas.specs.Laws.{AreasAreLists, ListsTellAreas};

/// What is listed of a cluster tells of each path at or below the folders that replay changes what stands there, and of the label.
pub fn lists_tell_areas()
    ensures { ListsTellAreas }
{}

/// What is listed of a cluster is a list below its root, where a program holds it.
pub fn areas_are_lists()
    ensures { AreasAreLists }
{}
