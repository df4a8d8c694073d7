// The expected values follow from the calls since the last sync.
use crate::texts::path_of;
use crate::trees::{bytes_in, small_tree};
use cluster_tree::{Kind, Tree};
use memory_tree::MemoryTree;
use std::process::Abort;

/// An image of the tree has these bytes in `t/f`, and this at `t/g`.
fn check_image<R: AllocGlobal + Abort>(
    rt: &R,
    tree: &MemoryTree,
    choice: u8,
    bytes: &[u8],
    kind: Kind,
) {
    let mut image = tree.image(rt.alloc(), choice).expect(rt, "no memory");
    let found = bytes_in(rt, &mut image, &path_of(rt, "t/f"));
    let told = (found.as_slice(), image.kind(&path_of(rt, "t/g")));
    assert!(rt; told == (bytes, Ok(kind)), "{choice}");
}

#[test]
fn an_image_is_what_a_stop_may_leave(rt: HostRuntime) {
    let file = path_of(&rt, "t/f");
    let made = path_of(&rt, "t/g");
    let mut tree = small_tree(&rt);
    tree.write_at(&file, 3, b"LOWER").expect(&rt, "no bytes");
    tree.make_file(&made).expect(&rt, "no file");
    check_image(&rt, &tree, 0, b"hello", Kind::Absent);
    check_image(&rt, &tree, 1, b"helLOWER", Kind::File);
    check_image(&rt, &tree, 2, b"hel\xa5\xa5\xa5\xa5\xa5", Kind::File);
}

#[test]
fn a_stop_keeps_what_was_synced(rt: HostRuntime) {
    let file = path_of(&rt, "t/f");
    let link = path_of(&rt, "t/l");
    let mut tree = small_tree(&rt);
    tree.write_at(&file, 0, b"H").expect(&rt, "no bytes");
    tree.sync().expect(&rt, "no sync");
    tree.cut(&file, 1).expect(&rt, "no cut");
    let mut image = tree.image(rt.alloc(), 0).expect(&rt, "no memory");
    let told = (image.size(&file), image.changes(), image.kind(&link));
    assert!(rt; told == (Ok(5), 0, tree.kind(&link)));
}
