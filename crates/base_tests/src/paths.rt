// Paths and names. The expected values follow from the rules of paths, worked by hand.
use crate::texts::{first_word, number, path_of, said, shown};
use cluster_tree::{Names, Path, is_part};
use std::process::Abort;

// A text of 64 parts.
const DEEPEST: &str = "a/b/c/d/e/f/g/h/a/b/c/d/e/f/g/h/a/b/c/d/e/f/g/h/a/b/c/d/e/f/g/h/\
    a/b/c/d/e/f/g/h/a/b/c/d/e/f/g/h/a/b/c/d/e/f/g/h/a/b/c/d/e/f/g/h";

pub(crate) const PATHS: &str = "\
path text / = true 0 /
path text ./.// = false 0 .
path text a//b/./c = false 3 a/b/c
path text //a/ = true 1 /a
path text ... = false 1 ...
path text a/b/c/d/e/f/g/h/a/b/c/d/e/f/g/h/a/b/c/d/e/f/g/h/a/b/c/d/e/f/g/h/a/b/c/d/e/f/g/h/a/b/c/d/e\
    /f/g/h/a/b/c/d/e/f/g/h/a/b/c/d/e/f/g/h = false 64 \
    a/b/c/d/e/f/g/h/a/b/c/d/e/f/g/h/a/b/c/d/e/f/g/h/a/b/c/d/e/f/g/h/a/b/c/d/e/f/g/h/a/b/c/d/e/f/g/h\
    /a/b/c/d/e/f/g/h/a/b/c/d/e/f/g/h";

// What is joined to a path of 64 parts.
pub(crate) const JOINED: &str = "\
path join  = Err(Empty)
path join a/../b = Err(DotDot)
path join a = Err(TooDeep)
path join a/.. = Err(DotDot)
path join ./ = Ok(64)";

pub(crate) const PARTS: &str = "\
path part a. = true
path part ... = true
path part  = false
path part . = false
path part .. = false
path part a/b = false";

pub(crate) const HELD: &str = "\
path holds t t = true
path holds t t/base/1 = true
path holds . t = true
path holds t/base t = false
path holds t t2 = false
path holds t /t = false";

pub(crate) const ORDER: &str = "\
path nth 2 /t /global//pg_control = Some(\"pg_control\")
path nth 3 /t /global//pg_control = None";

// Two names, of which the second is empty.
pub(crate) const NAMES: &str = "\
path names b  = 2 Some(\"b\") Some(\"\") None";

/// Whether a path is absolute, how many parts it has, and its text.
fn described<R: AllocGlobal + Abort>(rt: &R, path: &Path) -> String {
    let path = path.copy(rt.alloc()).expect(rt, "no memory");
    let texts = path.text(rt.alloc()).expect(rt, "no memory");
    let shown = texts.get(0).expect(rt, "no text");
    format!(in rt.alloc(); "{} {} {shown}", path.is_absolute(), path.len()).expect(rt, "no memory")
}

/// The path of a text, or why there is none.
fn parsed<R: AllocGlobal + Abort>(rt: &R, text: &str) -> String {
    match Path::parse(rt.alloc(), text) {
        Ok(path) => described(rt, &path),
        Err(fault) => shown(rt, &fault),
    }
}

/// How many parts a path has that is joined to one of 64.
fn joined<R: AllocGlobal + Abort>(rt: &R, text: &str) -> String {
    let deepest = path_of(rt, DEEPEST);
    let parts = deepest.join(rt.alloc(), text).map(|path| path.len());
    shown(rt, &parts)
}

/// Whether a path holds another.
fn holds<R: AllocGlobal + Abort>(rt: &R, words: &str) -> bool {
    let (root, path) = first_word(words);
    path_of(rt, root).holds(&path_of(rt, path))
}

/// A part, by its number, of a path that is joined to another.
fn nth<R: AllocGlobal + Abort>(rt: &R, words: &str) -> String {
    let (place, words) = first_word(words);
    let (front, back) = first_word(words);
    let path = path_of(rt, front).join(rt.alloc(), back);
    let path = path.expect(rt, "no path");
    shown(rt, &path.part(number(rt, place)))
}

fn names_of<R: AllocGlobal + Abort>(rt: &R, words: &str) -> Names {
    let mut names = Names::new(rt.alloc());
    for word in words.split(' ') {
        names.push(word).expect(rt, "no memory");
    }
    names
}

/// How many names there are, each of the first two, and what stands at place 2.
fn kept<R: AllocGlobal + Abort>(rt: &R, words: &str) -> String {
    let names = names_of(rt, words);
    format!(in rt.alloc();
        "{} {:?} {:?} {:?}",
        names.len(),
        names.get(0),
        names.get(1),
        names.get(2)
    )
    .expect(rt, "no memory")
}

/// `text PATH`, `join TEXT`, `nth NUMBER PATH PATH`, `part TEXT`, `holds PATH PATH` or `names NAME ..`.
pub(crate) fn of_path<R: AllocGlobal + Abort>(rt: &R, words: &str) -> String {
    let (call, given) = first_word(words);
    match call {
        "text" => parsed(rt, given),
        "join" => joined(rt, given),
        "nth" => nth(rt, given),
        "part" => said(rt, &is_part(given)),
        "holds" => said(rt, &holds(rt, given)),
        "names" => kept(rt, given),
        _ => panic!(rt; "no such call"),
    }
}
