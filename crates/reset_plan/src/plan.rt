// A reset, made ready: all that it needs is there before the first change.
ghost use Rattle.std.specs.Prelude.{◌≡◌, ◌≢◌, ℕ, ◌*◌, ◌<◌, ◌≤◌, ◌^◌, List, ◌∷◌, ◌++◌, ◌==◌, ◌||◌, ◌⊎◌, Err, IfErr, IfOk, IsErrOf, IsTrue, codes, is_some, length, true};
ghost use Rattle.std.specs.List.{list_all};
ghost use Rattle.cluster_tree.specs.Causes.{Passes, Rose};
ghost use Rattle.cluster_tree.specs.Change.{Writes};
ghost use Rattle.cluster_tree.specs.Frame.{Reads};
ghost use Rattle.cluster_tree.specs.Marks.{marks_of};
ghost use Rattle.cluster_tree.specs.PathValue.{PathValue, is_part};
ghost use Rattle.clusters.specs.Roots.{path_in, wal_folder};
ghost use Rattle.control_file.specs.Writing.{control_bytes};
ghost use Rattle.wal_base.specs.Segment.{bytes_of, name_of};
ghost use Rattle.reset_plan.specs.Plan.{body_changes, files_changes, plan_changes};
ghost use Rattle.reset_plan.specs.Removals.{Looks, Stand, both_refusal, going};
ghost use Rattle.reset_plan.specs.Reset.{changes_of, files_after, gone_in, gone_of, gone_refusal, in_folder, not_clean};
ghost use Rattle.reset_plan.specs.ResetFaults.{IsFree, changed_at, no_memory, read_failed};

use crate::ResetFault;
use crate::page::first_page;
use crate::removals::{Area, add_all, status_names};
use cluster_tree::{Names, Path, Tree};
use clusters::{ClusterFault, path_in};
use control_file::Control;
use reset_numbers::ResetOptions;
use std::alloc::Global;
use std::collections::VecDeque;
use wal_base::Segment;
use wal_records::LogWriter;

/// The files of the log that a reset changes.
#[derive(Drop)]
pub struct Files {
    /// Those that go, in ascending order.
    pub gone: VecDeque<Path>,
    /// The path of the new segment.
    pub path: Path,
    /// Its first page.
    pub page: LogWriter,
    /// How many bytes it has.
    pub size: u32,
}

/// What a reset changes under its mark.
#[derive(Drop)]
pub struct Body {
    /// The path of the control file.
    pub path: Path,
    /// What it will say.
    pub control: Control,
    /// The files of the log.
    pub files: Files,
}

/// What a reset changes.
#[derive(Drop)]
pub struct Plan {
    /// The path of the mark.
    pub mark: Path,
    /// What is changed under it.
    pub body: Body,
}

/// A reset that was looked at: what the control file will say, and unless it is dry all that is changed.
#[derive(Drop)]
pub enum Prepared {
    /// A dry run, which changes nothing.
    Dry(Control),
    /// The changes.
    Ready(Plan),
}

// The folder of what is said of segments.
#[tactic(auto, using(crate::proofs::PathLemmas::room_steps))]
fn status_folder(alloc: Global, wal: &Path) -> Result<Path, ResetFault>
    requires { length wal.now.parts ≤ 62 }
    ensures is { IfOk result (λ folder. folder ≡ in_folder wal.now (codes "archive_status")) }
    ensures memory { IfErr result (λ e. e ≡ no_memory) }
{
    Ok(wal.below(alloc, "archive_status")?)
}

// The files that go of pg_wal, and of archive_status with these names.
fn both_gone<F: Tree>(
    alloc: Global,
    tree: &mut F,
    wal: &Path,
    names: &Names,
    folder: &Path,
    statuses: &Names,
) -> Result<VecDeque<Path>, ResetFault>
    requires depth { length wal.now.parts ≤ 63 }
    requires below { length folder.now.parts ≤ 63 }
    requires parts { list_all is_part names.now ≡ true }
    requires others { list_all is_part statuses.now ≡ true }
    requires there { IsTrue F.tells → Stand (F.contents tree.old) wal.now names.now }
    requires stand { IsTrue F.tells → Stand (F.contents tree.old) folder.now statuses.now }
    ensures exact { IsTrue F.tells → Looks (both_refusal (F.contents tree.old) wal.now names.now
        folder.now statuses.now) result }
    ensures gone { IfOk result (λ gone. gone.items ≡ going Area.Segments wal.now names.now
        ++ going Area.Statuses folder.now statuses.now) }
    ensures reads { Reads F.Tree tree.old tree.new }
    ensures read_fault { IsErrOf result read_failed →
        Rose (F.failed_reads tree.old) (F.failed_reads tree.new) }
    ensures write_fault { result ≢ Err ResetFault.WriteFault }
    ensures changed { IsTrue F.tells → (p : PathValue) → result ≢ Err (changed_at p) }
{
    let mut gone = VecDeque::new(alloc);
    match add_all(alloc, tree, &mut gone, Area::Segments, wal, names) {
        Ok(()) => (),
        Err(fault) => return Err(fault),
    }
    let added = add_all(alloc, tree, &mut gone, Area::Statuses, folder, statuses);
    match added {
        Ok(()) => Ok(gone),
        Err(fault) => Err(fault),
    }
}

// The files that go.
fn files_gone<F: Tree>(
    alloc: Global,
    tree: &mut F,
    wal: &Path,
    names: &Names,
) -> Result<VecDeque<Path>, ResetFault>
    requires depth { length wal.now.parts ≤ 62 }
    requires parts { list_all is_part names.now ≡ true }
    requires there { IsTrue F.tells → Stand (F.contents tree.old) wal.now names.now }
    ensures exact { IsTrue F.tells → Looks (gone_refusal (F.contents tree.old) wal.now names.now)
        result }
    ensures gone { IsTrue F.tells → IfOk result (λ gone.
        gone.items ≡ gone_in (F.contents tree.old) wal.now names.now) }
    ensures form { IfOk result (λ gone. (statuses : List (List ℕ)) ×
        (gone.items ≡ gone_of wal.now names.now statuses)) }
    ensures reads { Reads F.Tree tree.old tree.new }
    ensures read_fault { IsErrOf result read_failed →
        Rose (F.failed_reads tree.old) (F.failed_reads tree.new) }
    ensures write_fault { result ≢ Err ResetFault.WriteFault }
    ensures changed { IsTrue F.tells → (p : PathValue) → result ≢ Err (changed_at p) }
{
    let folder = match status_folder(alloc, wal) {
        Ok(folder) => folder,
        Err(fault) => return Err(fault),
    };
    let statuses = match status_names(alloc, tree, &folder) {
        Ok(statuses) => statuses,
        Err(fault) => return Err(fault),
    };
    match both_gone(alloc, tree, wal, names, &folder, &statuses) {
        Ok(gone) => Ok(gone),
        Err(fault) => Err(fault),
    }
}

// The path of a segment's file.
#[tactic(auto, using(crate::proofs::PathLemmas::part_steps))]
fn segment_path(alloc: Global, wal: &Path, segment: Segment) -> Result<Path, ResetFault>
    requires depth { length wal.now.parts ≤ 63 }
    requires fits { segment.number * bytes_of segment.size < 2 ^ 64 }
    ensures is { IfOk result (λ path. path ≡ in_folder wal.now (name_of segment)) }
    ensures memory { IfErr result (λ e. e ≡ no_memory) }
{
    let name = segment.name(alloc)?;
    Ok(wal.below(alloc, name.as_str())?)
}

// The files of the log.
fn files_of(
    alloc: Global,
    wal: &Path,
    gone: VecDeque<Path>,
    control: &Control,
    segment: Segment,
) -> Result<Files, ResetFault>
    requires depth { length wal.now.parts ≤ 63 }
    requires low { segment.number * bytes_of segment.size < 2 ^ 63 }
    ensures changes { IfOk result (λ files. files_changes files
        ≡ files_after wal.now gone.items control.now segment) }
    ensures memory { IfErr result (λ e. e ≡ no_memory) }
{
    let path = segment_path(alloc, wal, segment)?;
    let page = first_page(alloc, control, segment)?;
    let size = segment.size.bytes();
    Ok(Files {
        gone,
        path,
        page,
        size,
    })
}

// What is changed under the mark.
#[tactic(auto, using(crate::proofs::PathLemmas::room_steps))]
fn body_of(alloc: Global, root: &Path, files: Files, control: Control) -> Result<Body, ResetFault>
    requires { length root.now.parts ≤ 61 }
    ensures changes { IfOk result (λ body. body_changes body ≡ Writes (path_in root.now
        (codes "global/pg_control")) 0 (control_bytes control) ∷ files_changes files) }
    ensures control { IfOk result (λ body. body.control ≡ control) }
    ensures memory { IfErr result (λ e. e ≡ no_memory) }
{
    let path = match path_in(alloc, root, "global/pg_control") {
        Ok(path) => path,
        Err(_) => return Err(ResetFault::Cluster(ClusterFault::OutOfMemory)),
    };
    Ok(Body {
        path,
        control,
        files,
    })
}

// The path of the mark.
#[tactic(auto, using(crate::proofs::PathLemmas::room_steps))]
fn mark_of(alloc: Global, root: &Path) -> Result<Path, ResetFault>
    requires { length root.now.parts ≤ 61 }
    ensures is { IfOk result (λ mark. mark ≡ (marks_of root.now).reset) }
    ensures memory { IfErr result (λ e. e ≡ no_memory) }
{
    Ok(root.below(alloc, "pg_resetwal.unfinished")?)
}

// Whether the state of a cluster lets it be reset: it was shut down, or that isn't asked.
fn may_reset(old: &Control, options: &ResetOptions) -> bool
    ensures { result ≡ ((old.now.state == 1) || is_some options.now.force) }
{
    old.state == 1 || options.force.is_some()
}

// A cluster was not shut down, or want of memory for its root.
fn unclean(alloc: Global, root: &Path, state: u32) -> ResetFault
    ensures value { (result ≡ ResetFault.NotClean root.now state)
        ⊎ (result ≡ no_memory) }
    ensures read { result ≢ read_failed }
    ensures write_fault { result ≢ ResetFault.WriteFault }
    ensures changed { (p : PathValue) → result ≢ changed_at p }
{
    match root.copy(alloc) {
        Ok(path) => ResetFault::NotClean(path, state),
        Err(_) => ResetFault::Cluster(ClusterFault::OutOfMemory),
    }
}

/// Refuses a cluster that was not shut down, unless that is forced.
pub(crate) fn check_clean(
    alloc: Global,
    root: &Path,
    old: &Control,
    options: &ResetOptions,
) -> Result<(), ResetFault>
    ensures answer { Passes IsFree (not_clean root.now old.now options.now.force) result }
    ensures read_fault { result ≢ Err read_failed }
    ensures write_fault { result ≢ Err ResetFault.WriteFault }
    ensures changed { (p : PathValue) → result ≢ Err (changed_at p) }
{
    if may_reset(old, options) {
        return Ok(());
    }
    Err(unclean(alloc, root, old.state))
}

// The plan of a reset by which these files go.
fn plan_of(
    alloc: Global,
    root: &Path,
    wal: &Path,
    gone: VecDeque<Path>,
    control: Control,
    segment: Segment,
) -> Result<Plan, ResetFault>
    requires root { length root.now.parts ≤ 61 }
    requires wal { wal.now ≡ wal_folder root.now }
    requires low { segment.number * bytes_of segment.size < 2 ^ 63 }
    ensures changes { IfOk result (λ plan. plan_changes plan
        ≡ changes_of root.now gone.items control segment) }
    ensures control { IfOk result (λ plan. plan.body.control ≡ control) }
    ensures memory { IfErr result (λ e. e ≡ no_memory) }
{
    let files = files_of(alloc, wal, gone, &control, segment)?;
    let body = body_of(alloc, root, files, control)?;
    let mark = mark_of(alloc, root)?;
    Ok(Plan { mark, body })
}

/// Makes a reset ready, after which the control file says this and the log begins at this segment.
///
/// Answers `NotFolder`, `Link` or `NameNotText` with `archive_status`; then `Link` or `KindsDiffer`
/// with the first path that is to go and is no file.
pub(crate) fn make_ready<F: Tree>(
    alloc: Global,
    tree: &mut F,
    root: &Path,
    wal: &Path,
    names: &Names,
    control: Control,
    segment: Segment,
) -> Result<Plan, ResetFault>
    requires root { length root.now.parts ≤ 61 }
    requires wal { wal.now ≡ wal_folder root.now }
    requires low { segment.number * bytes_of segment.size < 2 ^ 63 }
    requires parts { list_all is_part names.now ≡ true }
    requires there { IsTrue F.tells → Stand (F.contents tree.old) wal.now names.now }
    ensures exact { IsTrue F.tells → Looks (gone_refusal (F.contents tree.old) wal.now names.now)
        result }
    ensures changes { IsTrue F.tells → IfOk result (λ plan. plan_changes plan ≡ changes_of root.now
        (gone_in (F.contents tree.old) wal.now names.now) control segment) }
    ensures form { IfOk result (λ plan. (statuses : List (List ℕ)) × (plan_changes plan
        ≡ changes_of root.now (gone_of wal.now names.now statuses) control segment)) }
    ensures control { IfOk result (λ plan. plan.body.control ≡ control) }
    ensures reads { Reads F.Tree tree.old tree.new }
    ensures read_fault { IsErrOf result read_failed →
        Rose (F.failed_reads tree.old) (F.failed_reads tree.new) }
    ensures write_fault { result ≢ Err ResetFault.WriteFault }
    ensures changed { IsTrue F.tells → (p : PathValue) → result ≢ Err (changed_at p) }
{
    let gone = match files_gone(alloc, tree, wal, names) {
        Ok(gone) => gone,
        Err(fault) => return Err(fault),
    };
    match plan_of(alloc, root, wal, gone, control, segment) {
        Ok(plan) => Ok(plan),
        Err(fault) => Err(fault),
    }
}
