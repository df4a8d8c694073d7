// A reset, looked at: nothing is changed here.
ghost use Rattle.std.specs.Prelude.{◌≡◌, ◌≢◌, ◌⊎◌, ℕ, ◌*◌, ◌<◌, ◌≤◌, ◌^◌, List, Err, IfErr, IfOk, IsErrOf, IsSome, IsTrue, length, true};
ghost use Rattle.std.specs.List.{list_all};
ghost use Rattle.cluster_tree.specs.Causes.{Meets, Rose};
ghost use Rattle.cluster_tree.specs.Folders.{names_in};
ghost use Rattle.cluster_tree.specs.Frame.{Reads};
ghost use Rattle.cluster_tree.specs.PathValue.{PathValue, is_part};
ghost use Rattle.clusters.specs.Roots.{wal_folder};
ghost use Rattle.control_file.specs.Admission.{IsControl};
ghost use Rattle.wal_base.specs.Segment.{bytes_of};
ghost use Rattle.reset_numbers.specs.Behind.{new_segment};
ghost use Rattle.reset_numbers.specs.Options.{IsFit};
ghost use Rattle.reset_plan.specs.Prepared.{IsDry, IsOfNames, Prepares, control_in, reset_by, reset_with};
ghost use Rattle.reset_plan.specs.Removals.{Looks};
ghost use Rattle.reset_plan.specs.Reset.{control_after, gone_of, reset_known, reset_of, reset_to, segment_found, wal_refusal};
ghost use Rattle.reset_plan.specs.ResetFaults.{IsFree, changed_at, no_memory, read_failed};

use crate::ResetFault;
use crate::plan::{Prepared, check_clean, make_ready};
use crate::roots::{check_marks, control_at, listing_fault};
use cluster_tree::{Names, Path, Tree};
use clusters::ClusterFault;
use control_file::Control;
use reset_numbers::{ResetOptions, new_control, new_segment};
use std::alloc::Global;
use wal_base::Segment;

// The folder of a root's log.
fn wal_folder(alloc: Global, root: &Path) -> Result<Path, ResetFault>
    requires { length root.now.parts ≤ 61 }
    ensures is { IfOk result (λ path. path ≡ wal_folder root.now) }
    ensures memory { IfErr result (λ e. e ≡ no_memory) }
{
    match clusters::wal_folder(alloc, root) {
        Ok(path) => Ok(path),
        Err(_) => Err(ResetFault::Cluster(ClusterFault::OutOfMemory)),
    }
}

// The names in it.
fn wal_names<F: Tree>(alloc: Global, tree: &mut F, wal: &Path) -> Result<Names, ResetFault>
    ensures exact { IsTrue F.tells → Looks (wal_refusal (F.contents tree.old) wal.now) result }
    ensures names { IsTrue F.tells →
        IfOk result (λ names. names ≡ names_in (F.contents tree.old) wal.now) }
    ensures parts { IfOk result (λ names. list_all is_part names ≡ true) }
    ensures reads { Reads F.Tree tree.old tree.new }
    ensures read_fault { IsErrOf result read_failed →
        Rose (F.failed_reads tree.old) (F.failed_reads tree.new) }
    ensures write_fault { result ≢ Err ResetFault.WriteFault }
    ensures changed { (p : PathValue) → result ≢ Err (changed_at p) }
{
    match tree.list(alloc, wal) {
        Ok(names) => Ok(names),
        Err(fault) => Err(listing_fault(alloc, wal, fault)),
    }
}

// No new segment can be, or want of memory for the folder's path.
fn no_segment(alloc: Global, wal: &Path) -> ResetFault
    ensures value { (result ≡ ResetFault.BadSegment wal.now) ⊎ (result ≡ no_memory) }
    ensures read { result ≢ read_failed }
    ensures write_fault { result ≢ ResetFault.WriteFault }
    ensures changed { (p : PathValue) → result ≢ changed_at p }
{
    match wal.copy(alloc) {
        Ok(path) => ResetFault::BadSegment(path),
        Err(_) => ResetFault::Cluster(ClusterFault::OutOfMemory),
    }
}

// The new segment, where there can be one.
fn segment_of(
    alloc: Global,
    wal: &Path,
    options: &ResetOptions,
    old: &Control,
    names: &Names,
) -> Result<Segment, ResetFault>
    requires fit { IsFit options.now }
    requires control { IsControl old.now }
    ensures exact { Meets IsFree
        (segment_found wal.now (new_segment options.now old.now names.now)) result }
    ensures low { IfOk result (λ segment. segment.number * bytes_of segment.size < 2 ^ 63) }
    ensures read_fault { result ≢ Err read_failed }
    ensures write_fault { result ≢ Err ResetFault.WriteFault }
    ensures changed { (p : PathValue) → result ≢ Err (changed_at p) }
{
    match new_segment(options, old, names) {
        Some(segment) => Ok(segment),
        None => Err(no_segment(alloc, wal)),
    }
}

// The control file after the reset, whose checkpoint is behind the header of the segment's first page.
#[tactic(auto, unfolding(crate::specs::Reset::control_after))]
fn control_after(options: &ResetOptions, now: i64, segment: Segment, old: &Control) -> Control
    requires control { IsControl old.now }
    requires low { segment.number * bytes_of segment.size < 2 ^ 63 }
    ensures value { result ≡ control_after options.now now segment old.now }
    ensures control { IsControl result }
{
    new_control(options, now, segment.start().0 + 40, segment.size, old)
}

// A reset after which the log begins at this segment.
fn prepare_to<F: Tree>(
    alloc: Global,
    tree: &mut F,
    root: &Path,
    wal: &Path,
    names: &Names,
    options: &ResetOptions,
    old: &Control,
    control: Control,
    segment: Segment,
) -> Result<Prepared, ResetFault>
    requires root { length root.now.parts ≤ 61 }
    requires wal { wal.now ≡ wal_folder root.now }
    requires low { segment.number * bytes_of segment.size < 2 ^ 63 }
    requires parts { list_all is_part names.now ≡ true }
    requires names { IsTrue F.tells → names.now ≡ names_in (F.contents tree.old) wal.now }
    requires control { IsControl control }
    ensures exact { IsTrue F.tells → Prepares
        (reset_to (F.contents tree.old) root.now options.now old.now control segment) result }
    ensures control { IfOk result (λ prepared. IsControl (control_in prepared)) }
    ensures form { IfOk result (λ prepared. (statuses : List (List ℕ)) × (reset_by prepared
        ≡ reset_with root.now options.now control (gone_of wal.now names.now statuses) segment)) }
    ensures dry { IsSome options.now.dry → IfOk result IsDry }
    ensures reads { Reads F.Tree tree.old tree.new }
    ensures read_fault { IsErrOf result read_failed →
        Rose (F.failed_reads tree.old) (F.failed_reads tree.new) }
    ensures write_fault { result ≢ Err ResetFault.WriteFault }
    ensures changed { IsTrue F.tells → (p : PathValue) → result ≢ Err (changed_at p) }
{
    if options.dry.is_some() {
        return Ok(Prepared::Dry(control));
    }
    match check_clean(alloc, root, old, options) {
        Ok(()) => (),
        Err(fault) => return Err(fault),
    }
    match make_ready(alloc, tree, root, wal, names, control, segment) {
        Ok(plan) => Ok(Prepared::Ready(plan)),
        Err(fault) => Err(fault),
    }
}

// A reset of a cluster with this control file.
fn prepare_known<F: Tree>(
    alloc: Global,
    tree: &mut F,
    root: &Path,
    options: &ResetOptions,
    now: i64,
    old: &Control,
) -> Result<Prepared, ResetFault>
    requires root { length root.now.parts ≤ 61 }
    requires fit { IsFit options.now }
    requires control { IsControl old.now }
    ensures exact { IsTrue F.tells → Prepares
        (reset_known (F.contents tree.old) root.now options.now now old.now) result }
    ensures control { IfOk result (λ prepared. IsControl (control_in prepared)) }
    ensures form { IfOk result (λ prepared.
        IsOfNames root.now options.now now (reset_by prepared)) }
    ensures dry { IsSome options.now.dry → IfOk result IsDry }
    ensures reads { Reads F.Tree tree.old tree.new }
    ensures read_fault { IsErrOf result read_failed →
        Rose (F.failed_reads tree.old) (F.failed_reads tree.new) }
    ensures write_fault { result ≢ Err ResetFault.WriteFault }
    ensures changed { IsTrue F.tells → (p : PathValue) → result ≢ Err (changed_at p) }
{
    let wal = match wal_folder(alloc, root) {
        Ok(wal) => wal,
        Err(fault) => return Err(fault),
    };
    let names = match wal_names(alloc, tree, &wal) {
        Ok(names) => names,
        Err(fault) => return Err(fault),
    };
    let segment = match segment_of(alloc, &wal, options, old, &names) {
        Ok(segment) => segment,
        Err(fault) => return Err(fault),
    };
    let control = control_after(options, now, segment, old);
    prepare_to(
        alloc, tree, root, &wal, &names, options, old, control, segment,
    )
}

/// Looks whether a log can be reset, and makes ready what that takes.
pub fn prepare<F: Tree>(
    alloc: Global,
    tree: &mut F,
    root: &Path,
    options: &ResetOptions,
    now: i64,
) -> Result<Prepared, ResetFault>
    requires root { length root.now.parts ≤ 61 }
    requires fit { IsFit options.now }
    ensures exact { IsTrue F.tells → Prepares
        (reset_of (F.contents tree.old) root.now options.now now) result }
    ensures control { IfOk result (λ prepared. IsControl (control_in prepared)) }
    // over every tree, it is what follows of some control file and of some names that were listed
    ensures form { IfOk result (λ prepared.
        IsOfNames root.now options.now now (reset_by prepared)) }
    ensures dry { IsSome options.now.dry → IfOk result IsDry }
    ensures reads { Reads F.Tree tree.old tree.new }
    ensures read_fault { IsErrOf result read_failed →
        Rose (F.failed_reads tree.old) (F.failed_reads tree.new) }
    ensures write_fault { result ≢ Err ResetFault.WriteFault }
    ensures changed { IsTrue F.tells → (p : PathValue) → result ≢ Err (changed_at p) }
{
    match check_marks(alloc, tree, root) {
        Ok(()) => (),
        Err(fault) => return Err(fault),
    }
    let old = match control_at(alloc, tree, root) {
        Ok(old) => old,
        Err(fault) => return Err(fault),
    };
    prepare_known(alloc, tree, root, options, now, &old)
}
