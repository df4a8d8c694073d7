// What stands below the roots of the clusters, and below that of the copy.
ghost use Rattle.std.specs.Prelude.{◌≡◌, ℕ, ◌≤◌, ◌++◌, List, [], ◌∷◌, IfOk, OnOk, codes, length, map};
ghost use Rattle.std.specs.List.{range_with_len};
ghost use Rattle.backup_label.specs.Text.{label_text};
ghost use Rattle.wal_records.specs.Writer.{NewRecord, written};
ghost use Rattle.pair_maker.specs.Clusters.{common_entries, copy_entries, file, first_log, folder_entries, second_log, shared_entries, source_entries, target_entries, version_entries};
ghost use Rattle.pair_maker.specs.Files.{pair_label, relation_bytes, segment_bytes};
ghost use Rattle.pair_maker.specs.Entries.{AddsBelow};
ghost use Rattle.pair_maker.specs.Logs.{block_end, last_place, origin_of};

use crate::block_ends::BlockEnds;
use crate::control::{control_at, control_bytes, rewound_at};
use crate::entries::{NewEntry, Placed, add, add_at, add_file, add_folder};
use crate::logs::{COMMON_PLACE, MADE_AT, WholeLog, begun_log, megabyte, whole_log};
use crate::side::Side;
use backup_label::Label;
use cluster_tree::{OutOfMemory, Path};
use std::alloc::Global;
use std::collections::VecDeque;
use wal_base::Lsn;
use wal_records::LogWriter;

// The file PG_VERSION.
const VERSION: [u8; 3] = *b"16\n";

// The history of timeline 2.
const HISTORY: [u8; 20] = *b"1\t0/1000A0\tpromoted\n";

// A copy of these bytes.
fn copy_of(alloc: Global, bytes: &[u8]) -> Result<Vec<u8>, OutOfMemory>
    ensures { IfOk result (λ copy. copy.items ≡ bytes.now) }
{
    Ok(bytes.to_vec(alloc)?)
}

// The text of the label, as bytes.
fn label_bytes(alloc: Global) -> Result<Vec<u8>, OutOfMemory>
    ensures { IfOk result (λ bytes. bytes.items ≡ label_text pair_label) }
{
    let label = Label {
        start: Lsn(COMMON_PLACE),
        tli: 1,
        size: megabyte(),
        checkpoint: Lsn(COMMON_PLACE),
        time: MADE_AT,
    };
    match label.text(alloc) {
        Ok(text) => copy_of(alloc, text.as_str().as_bytes()),
        Err(_) => Err(OutOfMemory),
    }
}

// Adds the folders of a root, with the root itself.
#[tactic(auto, using(crate::proofs::RoomLemmas::room_steps))]
fn add_folders(
    alloc: Global,
    entries: &mut VecDeque<Placed>,
    root: &Path,
) -> Result<(), OutOfMemory>
    requires { length root.now.parts ≤ 61 }
    ensures { OnOk result (AddsBelow root.now entries.old.items entries.new.items
        folder_entries) }
{
    let own = root.copy(alloc)?;
    add_at(entries, own, NewEntry::Folder)?;
    add_folder(alloc, entries, root, "base")?;
    add_folder(alloc, entries, root, "base/5")?;
    add_folder(alloc, entries, root, "global")?;
    add_folder(alloc, entries, root, "pg_wal")
}

// Adds what says the version, at the root and in the database's folder.
#[tactic(auto, using(crate::proofs::RoomLemmas::room_steps))]
fn add_versions(
    alloc: Global,
    entries: &mut VecDeque<Placed>,
    root: &Path,
) -> Result<(), OutOfMemory>
    requires { length root.now.parts ≤ 61 }
    ensures { OnOk result (AddsBelow root.now entries.old.items entries.new.items
        version_entries) }
{
    let version = copy_of(alloc, &VERSION)?;
    add_file(alloc, entries, root, "PG_VERSION", version)?;
    let version = copy_of(alloc, &VERSION)?;
    add_file(alloc, entries, root, "base/5/PG_VERSION", version)
}

// Adds the relation's file.
#[tactic(auto, using(crate::proofs::RoomLemmas::room_steps))]
fn add_relation(
    alloc: Global,
    entries: &mut VecDeque<Placed>,
    root: &Path,
    side: Side,
    seed: u64,
    blocks: u32,
    ends: Vec<Option<u64>>,
) -> Result<(), OutOfMemory>
    requires depth { length root.now.parts ≤ 61 }
    requires ends { ends.items ≡ map (block_end side seed) (range_with_len 0 blocks) }
    requires few { blocks ≤ 4096 }
    ensures { OnOk result (AddsBelow root.now entries.old.items entries.new.items
        (file (codes "base/5/16384") (relation_bytes side seed blocks) ∷ [])) }
{
    let relation = BlockEnds { seed, ends };
    add(
        alloc,
        entries,
        root,
        "base/5/16384",
        NewEntry::Relation(relation),
    )
}

// Adds what each of the three roots has.
fn add_common(
    alloc: Global,
    entries: &mut VecDeque<Placed>,
    root: &Path,
    side: Side,
    seed: u64,
    blocks: u32,
    ends: Vec<Option<u64>>,
) -> Result<(), OutOfMemory>
    requires depth { length root.now.parts ≤ 61 }
    requires ends { ends.items ≡ map (block_end side seed) (range_with_len 0 blocks) }
    requires few { blocks ≤ 4096 }
    ensures { OnOk result (AddsBelow root.now entries.old.items entries.new.items
        (common_entries side seed blocks)) }
{
    add_folders(alloc, entries, root)?;
    add_versions(alloc, entries, root)?;
    add_relation(alloc, entries, root, side, seed, blocks, ends)
}

// Adds a control file of these bytes.
#[tactic(auto, using(crate::proofs::RoomLemmas::room_steps))]
fn add_control(
    alloc: Global,
    entries: &mut VecDeque<Placed>,
    root: &Path,
    bytes: Vec<u8>,
) -> Result<(), OutOfMemory>
    requires { length root.now.parts ≤ 61 }
    ensures { OnOk result (AddsBelow root.now entries.old.items entries.new.items
        (file (codes "global/pg_control") bytes.items ∷ [])) }
{
    add_file(alloc, entries, root, "global/pg_control", bytes)
}

// Adds the first segment of timeline 1, with this log.
#[tactic(auto, using(crate::proofs::RoomLemmas::room_steps))]
fn add_first_log(
    alloc: Global,
    entries: &mut VecDeque<Placed>,
    root: &Path,
    log: LogWriter,
) -> Result<(), OutOfMemory>
    requires { length root.now.parts ≤ 61 }
    ensures { (records : List NewRecord) → log ≡ written (origin_of Side.Target) records →
        OnOk result (AddsBelow root.now entries.old.items entries.new.items
        (first_log (segment_bytes Side.Target records) ∷ [])) }
{
    add(
        alloc,
        entries,
        root,
        "pg_wal/000000010000000000000001",
        NewEntry::Log(log),
    )
}

/// Adds the target.
pub(crate) fn add_target(
    alloc: Global,
    entries: &mut VecDeque<Placed>,
    root: &Path,
    seed: u64,
    blocks: u32,
) -> Result<(), OutOfMemory>
    requires depth { length root.now.parts ≤ 61 }
    requires few { blocks ≤ 4096 }
    ensures { OnOk result (AddsBelow root.now entries.old.items entries.new.items
        (target_entries seed blocks)) }
{
    let WholeLog { writer, ends, last } = whole_log(alloc, Side::Target, seed, blocks)?;
    add_common(alloc, entries, root, Side::Target, seed, blocks, ends)?;
    add_first_log(alloc, entries, root, writer)?;
    let control = control_bytes(alloc, &control_at(Side::Target, last))?;
    add_control(alloc, entries, root, control)
}

// Adds the history of timeline 2, and its first segment, with this log.
#[tactic(auto, using(crate::proofs::RoomLemmas::room_steps))]
fn add_second_log(
    alloc: Global,
    entries: &mut VecDeque<Placed>,
    root: &Path,
    log: LogWriter,
) -> Result<(), OutOfMemory>
    requires { length root.now.parts ≤ 61 }
    ensures { (records : List NewRecord) → log ≡ written (origin_of Side.Source) records →
        OnOk result (AddsBelow root.now entries.old.items entries.new.items
        (second_log (segment_bytes Side.Source records))) }
{
    let history = copy_of(alloc, &HISTORY)?;
    add_file(alloc, entries, root, "pg_wal/00000002.history", history)?;
    add(
        alloc,
        entries,
        root,
        "pg_wal/000000020000000000000001",
        NewEntry::Log(log),
    )
}

// Adds what the source and its copy have alike. Answers where the last record of their log stands.
fn add_shared(
    alloc: Global,
    entries: &mut VecDeque<Placed>,
    root: &Path,
    seed: u64,
    blocks: u32,
) -> Result<u64, OutOfMemory>
    requires depth { length root.now.parts ≤ 61 }
    requires few { blocks ≤ 4096 }
    ensures last { IfOk result (λ last. last ≡ last_place Side.Source seed blocks) }
    ensures added { OnOk result (AddsBelow root.now entries.old.items entries.new.items
        (shared_entries seed blocks)) }
{
    let WholeLog { writer, ends, last } = whole_log(alloc, Side::Source, seed, blocks)?;
    add_common(alloc, entries, root, Side::Source, seed, blocks, ends)?;
    let first = begun_log(alloc, Side::Target)?;
    add_first_log(alloc, entries, root, first)?;
    add_second_log(alloc, entries, root, writer)?;
    Ok(last)
}

/// Adds the source.
pub(crate) fn add_source(
    alloc: Global,
    entries: &mut VecDeque<Placed>,
    root: &Path,
    seed: u64,
    blocks: u32,
) -> Result<(), OutOfMemory>
    requires depth { length root.now.parts ≤ 61 }
    requires few { blocks ≤ 4096 }
    ensures { OnOk result (AddsBelow root.now entries.old.items entries.new.items
        (source_entries seed blocks)) }
{
    let last = add_shared(alloc, entries, root, seed, blocks)?;
    let control = control_bytes(alloc, &control_at(Side::Source, last))?;
    add_control(alloc, entries, root, control)
}

/// Adds the whole copy of the source, with the control file and the label of a rewind.
#[tactic(auto, using(crate::proofs::RoomLemmas::room_steps))]
pub(crate) fn add_copy(
    alloc: Global,
    entries: &mut VecDeque<Placed>,
    root: &Path,
    seed: u64,
    blocks: u32,
) -> Result<(), OutOfMemory>
    requires depth { length root.now.parts ≤ 61 }
    requires few { blocks ≤ 4096 }
    ensures { OnOk result (AddsBelow root.now entries.old.items entries.new.items
        (copy_entries seed blocks)) }
{
    let last = add_shared(alloc, entries, root, seed, blocks)?;
    let control = control_bytes(alloc, &rewound_at(Side::Source, last))?;
    add_control(alloc, entries, root, control)?;
    let label = label_bytes(alloc)?;
    add_file(alloc, entries, root, "backup_label", label)
}
