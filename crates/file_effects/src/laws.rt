// Laws: which paths replay changes.
ghost use Rattle.file_effects.specs.Laws.{AreaIsReplayed, ControlIsNotReplayed, DatabaseIsReplayed, ElsewhereStays, MapIsReplayed, MultisAreReplayed, OthersAreNotReplayed, RelationIsReplayed, RootIsNotReplayed, VersionIsReplayed};

/// The paths of each call on files are of the part of a cluster that replay changes; the root, the
/// control file and the other entries of the root are not, and all that is not stays.
pub fn replayed_laws()
    ensures relation { RelationIsReplayed }
    ensures area { AreaIsReplayed }
    ensures multis { MultisAreReplayed }
    ensures version { VersionIsReplayed }
    ensures database { DatabaseIsReplayed }
    ensures map { MapIsReplayed }
    ensures root { RootIsNotReplayed }
    ensures control { ControlIsNotReplayed }
    ensures others { OthersAreNotReplayed }
    ensures elsewhere { ElsewhereStays }
{}
