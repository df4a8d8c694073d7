// The machine's files as a tree, over a folder of the test's own.
use crate::calls::check;
use cluster_tree::Path;
use machine::DirTree;
use std::fs::OpenOptions;
use std::os::unix::fs::{MetadataExt, symlink};
use std::test::Fail;
use std::{env, fs, process};

// A folder of the test of this name alone, which is not there yet.
fn fresh_folder(rt: &HostRuntime, name: &str) -> Result<String, Fail> {
    let above = env::temp_dir(rt)?;
    let number = process::id(rt.process());
    let folder = format!(in rt.alloc(); "{}/wal_tools_{name}_{number}", above.display())?;
    Ok(folder)
}

// A link in a folder to the folder itself.
fn make_link(rt: &HostRuntime, folder: &str) -> Result<(), Fail> {
    let link = format!(in rt.alloc(); "{folder}/l")?;
    symlink(rt, folder, link.as_str())?;
    Ok(())
}

// The bits that say who may do what with a file or a folder.
fn mode(rt: &HostRuntime, path: &str) -> Result<u32, Fail> {
    Ok(fs::metadata(rt, path)?.mode() & 0o777)
}

const FILES: &str = "\
file a|Absent
folder .|ok
folder .|Exists
file a|ok
file a/b|NotFolder
write a 0 hello|ok
write a 3 LOWER|ok
write a 9 x|PastEnd
read a 2|lLOW
read a 5|PastEnd
size a|8
size .|IsFolder
kind a|it is File
kind .|it is Folder
kind a/b|it is Absent";

// No link is followed.
const BEHIND_THE_LINK: &str = "\
kind l|Link
size l|Link
kind l/a|it is Absent
read l/a 0|Absent
file l/a|Link";

#[test]
fn files_of_the_machine_are_a_tree(rt: HostRuntime) -> Result<(), Fail> {
    let alloc = rt.alloc();
    let text = fresh_folder(&rt, "files")?;
    let folder = Path::parse(alloc, &text)?;
    let mut tree = DirTree::new(rt, alloc);
    check(&rt, alloc, &mut tree, &folder, FILES)?;
    make_link(&rt, &text)?;
    check(&rt, alloc, &mut tree, &folder, BEHIND_THE_LINK)?;
    let file = format!(in alloc; "{text}/a")?;
    assert_eq!(rt; mode(&rt, &file)?, 0o600);
    assert_eq!(rt; mode(&rt, &text)?, 0o700);
    fs::remove_dir_all(&rt, text.as_str())?;
    Ok(())
}

const FOLDERS: &str = "\
folder .|ok
file b|ok
folder a|ok";

const EMPTIED: &str = "\
list .|[a][b][l]
list a|
list b|NotFolder
list l|Link
list x|Absent
write b 0 hello|ok
cut b 6|PastEnd
cut b 2|ok
size b|2
cut a 0|IsFolder
cut l 0|Link
sync .|ok
remove .|NotEmpty
remove l|Link
remove x|Absent
remove b|ok
remove a|ok
kind a|it is Absent
sync .|ok";

#[test]
fn folders_of_the_machine_are_listed_and_emptied(rt: HostRuntime) -> Result<(), Fail> {
    let alloc = rt.alloc();
    let text = fresh_folder(&rt, "folders")?;
    let folder = Path::parse(alloc, &text)?;
    let mut tree = DirTree::new(rt, alloc);
    check(&rt, alloc, &mut tree, &folder, FOLDERS)?;
    make_link(&rt, &text)?;
    check(&rt, alloc, &mut tree, &folder, EMPTIED)?;
    fs::remove_dir_all(&rt, text.as_str())?;
    Ok(())
}

// Four files, which all stay open.
const MADE: &str = "\
folder .|ok
folder d|ok
folder e|ok
file d/a|ok
write d/a 0 first|ok
file e/a|ok
write e/a 0 other!|ok
file b|ok
write b 0 second|ok
file c|ok
write c 0 third|ok
read d/a 0|firs
read c 0|thir";

// Someone else has put b in the place of a, and cut c.
const REPLACED: &str = "\
size d/a|6
read d/a 0|seco
size c|2
write c 2 ese|ok
read d/a 2|cond
kind b|it is Absent
file b|ok
read b 0|PastEnd
read c 0|thes";

// A link to the folder e stands in the place of d.
const LINKED: &str = "\
size d/a|Absent
read d/a 0|Absent
write d/a 0 x|Absent
read e/a 0|othe";

// Puts b in the place of d/a, and shortens c, as another program would.
fn replace_files(rt: &HostRuntime, text: &str) -> Result<(), Fail> {
    let from = format!(in rt.alloc(); "{text}/b")?;
    let to = format!(in rt.alloc(); "{text}/d/a")?;
    fs::rename(rt, from.as_str(), to.as_str())?;
    let cut = format!(in rt.alloc(); "{text}/c")?;
    OpenOptions::new()
        .write(true)
        .open(rt, cut.as_str())?
        .set_len(2)?;
    Ok(())
}

// Puts a link to e in the place of d.
fn replace_folder(rt: &HostRuntime, text: &str) -> Result<(), Fail> {
    let from = format!(in rt.alloc(); "{text}/d")?;
    let to = format!(in rt.alloc(); "{text}/moved")?;
    fs::rename(rt, from.as_str(), to.as_str())?;
    let led = format!(in rt.alloc(); "{text}/e")?;
    symlink(rt, led.as_str(), from.as_str())?;
    Ok(())
}

// Files that stay open are not taken for what stands at their paths.
#[test]
fn what_others_put_in_the_place_of_open_files_is_seen(rt: HostRuntime) -> Result<(), Fail> {
    let alloc = rt.alloc();
    let text = fresh_folder(&rt, "replaced")?;
    let folder = Path::parse(alloc, &text)?;
    let mut tree = DirTree::new(rt, alloc);
    check(&rt, alloc, &mut tree, &folder, MADE)?;
    replace_files(&rt, &text)?;
    check(&rt, alloc, &mut tree, &folder, REPLACED)?;
    replace_folder(&rt, &text)?;
    check(&rt, alloc, &mut tree, &folder, LINKED)?;
    fs::remove_dir_all(&rt, text.as_str())?;
    Ok(())
}

// A test can make no name that isn't UTF-8: tests/commands makes one, and names its folder here.
#[test]
fn a_folder_with_a_bad_name_is_not_listed(rt: HostRuntime) -> Result<(), Fail> {
    let alloc = rt.alloc();
    let Ok(text) = env::var(&rt, "FOLDER_WITH_A_BAD_NAME") else {
        return Ok(());
    };
    let folder = Path::parse(alloc, &text)?;
    let mut tree = DirTree::new(rt, alloc);
    check(
        &rt,
        alloc,
        &mut tree,
        &folder,
        "list .|NameNotText\nremove .|NotEmpty",
    )
}
