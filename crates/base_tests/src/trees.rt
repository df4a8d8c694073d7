//! A small tree, and what is written in it.
use crate::callers::rewrite;
use crate::texts::{first_word, number, owned, path_of, said, shown, text_of};
use cluster_tree::{ChangeCall, Marks, Names, Path, Tree, TreeFault, mark_present};
use memory_tree::MemoryTree;
use std::process::Abort;

fn put_folder<R: AllocGlobal + Abort>(rt: &R, tree: &mut MemoryTree, text: &str) {
    tree.make_folder(&path_of(rt, text)).expect(rt, "no folder");
}

fn put_link<R: AllocGlobal + Abort>(rt: &R, tree: &mut MemoryTree, text: &str) {
    tree.add_link(&path_of(rt, text)).expect(rt, "no link");
}

// A file of the bytes `hello`.
fn put_hello<R: AllocGlobal + Abort>(rt: &R, tree: &mut MemoryTree, text: &str) {
    let file = path_of(rt, text);
    tree.make_file(&file).expect(rt, "no file");
    tree.write_at(&file, 0, b"hello").expect(rt, "no bytes");
}

// A folder that holds a name that isn't UTF-8.
fn put_bad<R: AllocGlobal + Abort>(rt: &R, tree: &mut MemoryTree, text: &str) {
    let folder = path_of(rt, text);
    tree.make_folder(&folder).expect(rt, "no folder");
    tree.add_bad_name(&folder).expect(rt, "no name");
}

/// A tree with the folder `t`, in it the file `t/f` of the bytes `hello`, the link `t/l` and the
/// folder `t/b`, which holds a name that isn't UTF-8.
pub(crate) fn small_tree<R: AllocGlobal + Abort>(rt: &R) -> MemoryTree {
    let mut tree = MemoryTree::new(rt.alloc());
    put_folder(rt, &mut tree, "t");
    put_hello(rt, &mut tree, "t/f");
    put_link(rt, &mut tree, "t/l");
    put_bad(rt, &mut tree, "t/b");
    tree
}

/// The bytes of a file.
pub(crate) fn bytes_in<R: AllocGlobal + Abort>(
    rt: &R,
    tree: &mut MemoryTree,
    file: &Path,
) -> Vec<u8> {
    let size = tree.size(file).expect(rt, "no file");
    let mut bytes = vec![in rt.alloc(); 0; size as usize].expect(rt, "no memory");
    tree.read_at(file, 0, &mut bytes).expect(rt, "no bytes");
    bytes
}

// Writes a text at a place of a file, shortens the file, or writes it anew.
fn change<R: Abort>(
    rt: &R,
    tree: &mut MemoryTree,
    file: &Path,
    verb: &str,
    words: &str,
) -> Result<(), TreeFault> {
    let (at, text) = first_word(words);
    match verb {
        "write" => tree.write_at(file, number(rt, at), text.as_bytes()),
        "shorten" => tree.cut(file, number(rt, at)),
        _ => rewrite(tree, file, words.as_bytes()),
    }
}

/// What `t/f` has once it is changed, or why it isn't.
pub(crate) fn changed<R: AllocGlobal + Abort>(
    rt: &R,
    tree: &mut MemoryTree,
    verb: &str,
    words: &str,
) -> String {
    let file = path_of(rt, "t/f");
    match change(rt, tree, &file, verb, words) {
        Ok(()) => text_of(rt, &bytes_in(rt, tree, &file)),
        Err(fault) => shown(rt, &fault),
    }
}

// The marks of `t`.
fn marks<R: AllocGlobal + Abort>(rt: &R) -> Marks {
    Marks::new(rt.alloc(), &path_of(rt, "t")).expect(rt, "no marks")
}

// Makes a file in a folder.
fn make_file<R: AllocGlobal + Abort>(rt: &R, tree: &mut MemoryTree, folder: &Path, name: &str) {
    let file = folder.join(rt.alloc(), name).expect(rt, "no path");
    tree.make_file(&file).expect(rt, "no file");
}

/// Makes a file of this name in `t`, and tells which mark then stands there first.
pub(crate) fn first_mark<R: AllocGlobal + Abort>(
    rt: &R,
    tree: &mut MemoryTree,
    name: &str,
) -> String {
    make_file(rt, tree, &path_of(rt, "t"), name);
    let marks = marks(rt);
    match mark_present(tree, &marks) {
        Ok(mark) => shown(rt, &mark),
        Err(fault) => shown(rt, &fault),
    }
}

/// The path of a mark of `t`, by its number.
pub(crate) fn mark_path<R: AllocGlobal + Abort>(rt: &R, text: &str) -> String {
    let marks = marks(rt);
    match marks.path(number(rt, text)) {
        Some(path) => said(rt, path),
        None => owned(rt, "none"),
    }
}

fn make_files<R: AllocGlobal + Abort>(rt: &R, tree: &mut MemoryTree, folder: &Path, names: &str) {
    for name in names.split(' ') {
        make_file(rt, tree, folder, name);
    }
}

fn joined<R: AllocGlobal + Abort>(rt: &R, names: &Names) -> String {
    let mut text = String::new(rt.alloc());
    for at in 0..names.len() {
        let name = names.get(at).expect(rt, "no name");
        write!(text, "{name} ").expect(rt, "no memory");
    }
    text
}

/// The names of a folder in which these files are made, each with a blank behind it.
pub(crate) fn names_of<R: AllocGlobal + Abort>(rt: &R, names: &str) -> String {
    let mut tree = MemoryTree::new(rt.alloc());
    let folder = path_of(rt, ".");
    make_files(rt, &mut tree, &folder, names);
    match tree.list(rt.alloc(), &folder) {
        Ok(names) => joined(rt, &names),
        Err(fault) => shown(rt, &fault),
    }
}

/// Whether the change of a number is a sync.
pub(crate) fn is_sync<R: Abort>(rt: &R, tree: &MemoryTree, text: &str) -> bool {
    matches!(tree.change(number(rt, text)), Some(ChangeCall::Sync))
}
