// Where the roots of a rewind lie on the machine.
use cluster_tree::Path;
use commands::Command;
use run_acts::{Cause, PathCause};
use std::alloc::Global;
use std::rt::Files;
use std::{fs, io};
use tool_words::read_command;

fn overlap<R: Files + AllocGlobal>(
    rt: &R,
    alloc: Global,
    target: &Path,
    source: &Path,
) -> io::Result<bool> {
    let target = fs::canonicalize(rt, format!(in alloc; "{target}")?.as_str())?;
    let source = fs::canonicalize(rt, format!(in alloc; "{source}")?.as_str())?;
    Ok(target.starts_with(&source) || source.starts_with(&target))
}

/// Why a rewind is refused where one of its roots lies in the other. Texts don't tell it where only
/// one of them is absolute, so the machine is asked; a root that it doesn't know is left to the run.
pub fn refusal<R: Files + AllocGlobal>(rt: &R, alloc: Global, words: &[String]) -> Option<Cause> {
    let asked = match read_command(alloc, words) {
        Ok(Command::Rewind(asked)) => asked,
        Ok(Command::Resume(asked)) => asked,
        _ => return None,
    };
    match overlap(rt, alloc, &asked.target, &asked.source) {
        Ok(true) => Some(Cause::Paths(PathCause::PathsOverlap)),
        _ => None,
    }
}
