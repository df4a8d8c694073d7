// A dry run: the paths of the files that go, on standard output.
ghost use Rattle.std.specs.Prelude.{◌≡◌, ◌≤◌, ◌++◌, Bool, List, true, length, string_bytes, IfErr, IfOk, IsErrOf, OnOk};
ghost use Rattle.std.specs.List.{flat_map, list_all};
ghost use Rattle.cluster_tree.specs.Causes.{Rose};
ghost use Rattle.cluster_tree.specs.Contents.{Contents};
ghost use Rattle.cluster_tree.specs.PathValue.{is_part};
ghost use Rattle.cluster_tree.specs.declared.tree.ChangeCall.{ChangeCall};
ghost use Rattle.acts.specs.Acts.{Performs, Sunk, seen, sunk};
ghost use Rattle.run_acts.specs.Causes.{cause_of, ending_of};
ghost use Rattle.cmd_archivecleanup.specs.Archivecleanup.{path_line, printed};

use cluster_tree::{Names, OutOfMemory, Path, Sink};
use run_acts::{Cause, tell};
use std::alloc::Global;
use wal_base::Text;

// Adds the path of a file in a folder, as a line.
#[tactic(auto, using(crate::proofs::PartLemmas::part_steps))]
fn add_path(alloc: Global, text: &mut String, folder: &Path, name: &str) -> Result<(), OutOfMemory>
    requires depth { length folder.now.parts ≤ 62 }
    requires part { is_part name.now ≡ true }
    ensures { OnOk result (string_bytes text.new ≡ string_bytes text.old ++ path_line folder.now name.now) }
{
    let path = folder.below(alloc, name)?;
    let line = format!(in alloc; "{path}\n")?;
    text.push_str(&line)?;
    Ok(())
}

/// The paths of the files with these names in a folder, a line each.
pub(crate) fn path_lines(alloc: Global, folder: &Path, names: &Names) -> Result<Text, OutOfMemory>
    requires depth { length folder.now.parts ≤ 62 }
    requires parts { list_all is_part names.now ≡ true }
    ensures { IfOk result (λ text. text ≡ flat_map (path_line folder.now) names.now) }
{
    let mut text = String::new(alloc);
    for at in 0..names.len() {
        let Some(name) = names.get(at) else {
            unreachable!()
        };
        add_path(alloc, &mut text, folder, name)?;
    }
    Ok(Text::from(text))
}

/// Puts a text on standard output, unless it is empty.
pub(crate) fn print_text<O: Sink>(out: &mut O, text: &Text) -> Result<(), Cause>
    ensures performs { (err_tells : Bool) (err : Sunk) (c : Contents) (k : List ChangeCall) →
        Performs O.tells err_tells (ending_of (cause_of result)) (printed text.now)
        (seen c k (sunk (O.written out.old) (O.failed_writes out.old)) err)
        (seen c k (sunk (O.written out.new) (O.failed_writes out.new)) err) }
    ensures only { IfErr result (λ e. e ≡ Cause.SinkFault) }
    ensures sink_fault { IsErrOf result Cause.SinkFault →
        Rose (O.failed_writes out.old) (O.failed_writes out.new) }
    ensures later { O.failed_writes out.old ≤ O.failed_writes out.new }
{
    let text = text.as_str();
    if text.is_empty() {
        return Ok(());
    }
    tell(out, text)
}
