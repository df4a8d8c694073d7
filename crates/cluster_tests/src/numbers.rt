//! The numbers of resets of clusters in memory. The names, positions and checksums that are wanted come
//! from a script of its own that follows the formats (the checksum of the first 288 bytes of the control
//! file).
ghost use Rattle.std.specs.Prelude.{◌*◌, ◌<◌, ◌^◌};
ghost use Rattle.wal_base.specs.Segment.{bytes_of};
ghost use Rattle.control_file.specs.Admission.{IsControl};

use crate::options::options_of;
use crate::resets::cluster;
use crate::texts::{says, tell, tell_sum};
use crate::trees::{names_in, root_of};
use clusters::control_at;
use control_file::{Control, write_control};
use memory_tree::MemoryTree;
use reset_numbers::{ResetOptions, is_fit, is_segment, is_status, new_control, new_segment};
use std::process::Abort;
use tree_lines::{cut_at, sum_of};
use wal_base::{Lsn, Segment};

/// Options, the fields of the control file that differ, and files: the new segment's timeline and number, its
/// checkpoint's place, and the checksum of the new control file.
pub(crate) const NUMBERS: &str = "\
numbers - | plain | NAMES = 1 4 0/400028 B40D4A1B
numbers s 16 | plain | NAMES = 1 1 0/1000028 20409FD8
numbers l 2 0 16 | plain | NAMES = 2 16 0/1000028 2771EE8B
numbers l 1 0 2 | plain | NAMES = 1 4 0/400028 B40D4A1B
numbers c 0 20 | plain | NAMES = 1 4 0/400028 EEE6DAC9
numbers c 21 0 | plain | NAMES = 1 4 0/400028 27DCD0A5
numbers e 7 | plain | NAMES = 1 4 0/400028 EB85D42E
numbers x 1000 | plain | NAMES = 1 4 0/400028 58F4FD99
numbers e 8, x 2000 | plain | NAMES = 1 4 0/400028 9CE3A02F
numbers u 600 | plain | NAMES = 1 4 0/400028 9A2398D3
numbers m 50 40 | plain | NAMES = 1 4 0/400028 FD7A19D0
numbers o 20000 | plain | NAMES = 1 4 0/400028 B1E51A13
numbers O 123 | plain | NAMES = 1 4 0/400028 12E7BF67";

/// A segment that is given lies below the limit.
pub(crate) const LIMITS: &str = "\
numbers l 2 2147483647 4095 | plain | NAMES = 2 8796093022207 7FFFFFFF/FFF00028 C8FDECBF
numbers l 2 0 4096 | plain | NAMES = none
numbers l 2 2147483648 0 | plain | NAMES = none";

/// The new segment is behind all others.
pub(crate) const BEHIND: &str = "\
numbers s 1 | 228 4 67108864, 40 8 67108904 | h t/pg_wal/000000010000000000000002 78, h t/pg_wal/x \
    78 = 1 192 0/C000028 ED9C7A2F
numbers - | 40 8 9437224 | NAMES = 1 10 0/A00028 56FA596F";

/// Options fit unless they are faulty words.
pub(crate) const FIT: &str = "\
fit c 1 2 = false
fit c 2 1 = false
fit x 2 = false
fit u 0 = false
fit m 0 1 = false
fit m 1 0 = false
fit o 0 = false
fit O 4294967295 = false
fit l 1 4294967296 0 = false
fit l 1 0 4294967296 = false
fit s 0 = false
fit s 3 = false
fit s 2048 = false
fit s 4097 = false
fit c 0 2 = true
fit x 3 = true
fit u 3 = true
fit m 1 1 = true
fit o 1 = true
fit O 4294967294 = true
fit l 0 4294967295 4294967295 = true
fit s 1 = true
fit s 1024 = true";

/// Names are told apart.
pub(crate) const NAMES: &str = "\
segment 0000000100000000000000AF = true
segment 0000000100000000000000AF.partial = true
segment 0000000100000000000000af = false
segment 00000001.history = false
status 0000000100000000000000AF.ready = true
status 0000000100000000000000AF.partial.done = true
status 00000001.history.done = false
status 0000000100000000000000AF = false";

/// The checksum of the new control file, whose checkpoint stands at a position.
fn control_sum(options: &ResetOptions, old: &Control, segment: Segment, at: u64) -> u32
    requires control { IsControl old.now }
{
    let control = new_control(options, 1700000000, at, segment.size, old);
    let mut bytes = [0; 8192];
    write_control(&control, &mut bytes);
    sum_of(&bytes, 288)
}

fn tell_segment<R: Abort>(
    rt: &R,
    out: &mut String,
    options: &ResetOptions,
    old: &Control,
    segment: Segment,
)
    requires control { IsControl old.now }
    requires low { segment.number * bytes_of segment.size < 2 ^ 63 }
{
    let at = segment.start().0.saturating_add(40);
    says(rt, out, "", &segment.tli);
    says(rt, out, " ", &segment.number);
    says(rt, out, " ", &Lsn(at));
    tell_sum(rt, out, control_sum(options, old, segment, at));
}

fn tell_new<R: AllocGlobal + Abort>(
    rt: &R,
    out: &mut String,
    tree: &mut MemoryTree,
    options: &ResetOptions,
) {
    assert!(rt; is_fit(options), "unfit");
    let old = control_at(rt.alloc(), tree, &root_of(rt, "t")).expect(rt, "no control file");
    match new_segment(options, &old, &names_in(rt, tree, "t/pg_wal")) {
        Some(segment) => tell_segment(rt, out, options, &old, segment),
        None => tell(rt, out, "none"),
    }
}

/// `numbers OPTIONS | CONTROL | FILES`, `fit OPTIONS`, `segment NAME` or `status NAME`.
pub(crate) fn tell_numbers<R: AllocGlobal + Abort>(
    rt: &R,
    out: &mut String,
    verb: &str,
    words: &str,
) {
    let (options, behind) = cut_at(words, " | ");
    let yes = match verb {
        "numbers" => {
            let (control, files) = cut_at(behind, " | ");
            let mut tree = cluster(rt, control, files);
            return tell_new(rt, out, &mut tree, &options_of(rt, options));
        }
        "fit" => is_fit(&options_of(rt, options)),
        "segment" => is_segment(words.as_bytes()),
        _ => is_status(words.as_bytes()),
    };
    says(rt, out, "", &yes);
}
