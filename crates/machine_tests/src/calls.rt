// Lines of calls on a tree, as texts for one driver: a call, the path below a folder, what else it
// takes, and what it answers behind a bar.
use cluster_tree::{Names, Path, Tree, TreeFault};
use std::alloc::Global;
use std::process::Abort;
use std::str;
use std::test::Fail;
use wal_base::decimal_u64;

fn first_word(text: &str) -> (&str, &str) {
    match text.split_once(' ') {
        Some(parts) => parts,
        None => (text, ""),
    }
}

fn number(text: &str) -> Result<u64, Fail> {
    Ok(decimal_u64(text.as_bytes()).ok_or("no number")?)
}

fn refused(alloc: Global, fault: TreeFault) -> Result<String, Fail> {
    Ok(format!(in alloc; "{fault:?}")?)
}

fn done(alloc: Global, answer: Result<(), TreeFault>) -> Result<String, Fail> {
    match answer {
        Ok(()) => Ok(String::from_str(alloc, "ok")?),
        Err(fault) => refused(alloc, fault),
    }
}

// The names in order, each in brackets.
fn listed(alloc: Global, names: &Names) -> Result<String, Fail> {
    let mut text = String::new(alloc);
    for at in 0..names.len() {
        if let Some(name) = names.get(at) {
            write!(&mut text, "[{name}]")?;
        }
    }
    Ok(text)
}

// Four bytes of a file.
fn read<F: Tree>(alloc: Global, tree: &mut F, path: &Path, at: u64) -> Result<String, Fail> {
    let mut four = [0; 4];
    match tree.read_at(path, at, &mut four) {
        Ok(()) => Ok(String::from_str(alloc, str::from_utf8(&four)?)?),
        Err(fault) => refused(alloc, fault),
    }
}

fn seen<F: Tree>(
    alloc: Global,
    tree: &mut F,
    call: &str,
    path: &Path,
    more: &str,
) -> Result<String, Fail> {
    match call {
        "kind" => match tree.kind(path) {
            Ok(kind) => Ok(format!(in alloc; "it is {kind:?}")?),
            Err(fault) => refused(alloc, fault),
        },
        "size" => match tree.size(path) {
            Ok(size) => Ok(format!(in alloc; "{size}")?),
            Err(fault) => refused(alloc, fault),
        },
        "list" => match tree.list(alloc, path) {
            Ok(names) => listed(alloc, &names),
            Err(fault) => refused(alloc, fault),
        },
        "read" => read(alloc, tree, path, number(more)?),
        _ => Err("no call".into()),
    }
}

fn answer<F: Tree>(alloc: Global, tree: &mut F, folder: &Path, line: &str) -> Result<String, Fail> {
    let (call, behind) = first_word(line);
    let (text, more) = first_word(behind);
    let path = folder.join(alloc, text)?;
    match call {
        "write" => {
            let (at, bytes) = first_word(more);
            done(alloc, tree.write_at(&path, number(at)?, bytes.as_bytes()))
        }
        "cut" => done(alloc, tree.cut(&path, number(more)?)),
        "file" => done(alloc, tree.make_file(&path)),
        "folder" => done(alloc, tree.make_folder(&path)),
        "remove" => done(alloc, tree.remove(&path)),
        "sync" => done(alloc, tree.sync()),
        _ => seen(alloc, tree, call, &path, more),
    }
}

/// Makes the calls of these lines, of which each has to be answered as it says.
pub(crate) fn check<F: Tree>(
    rt: &impl Abort,
    alloc: Global,
    tree: &mut F,
    folder: &Path,
    lines: &str,
) -> Result<(), Fail> {
    for line in lines.split('\n') {
        let (call, wanted) = line.split_once('|').ok_or("no answer")?;
        let answer = answer(alloc, tree, folder, call)?;
        assert_eq!(rt; answer.as_str(), wanted, "{line}");
    }
    Ok(())
}
