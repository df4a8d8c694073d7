//! Labels, as a script of its own writes and reads them. In rows the end of a line is written as `;`.
use crate::texts::{long, number, says, shows, tell};
use backup_label::{Label, read_label};
use std::process::Abort;
use tree_lines::cut_at;
use wal_base::{Lsn, SegSize};

/// The start, the timeline, the size of segments, the checkpoint and the time; how many bytes the label has, and its text.
pub(crate) const WRITTEN: &str = "\
label 1048616 1 1048576 1048616 1700000000 = 173 START WAL LOCATION: 0/100028 (file \
    000000010000000000000001);CHECKPOINT LOCATION: 0/100028;BACKUP METHOD: pg_rewind;BACKUP FROM: \
    standby;START TIME: 2023-11-14 22:13:20 UTC;
label 137422176352 10 1073741824 137438953640 -62135596801 = 162 START WAL LOCATION: 1F/FF000060 \
    (file 0000000A0000001F00000003);CHECKPOINT LOCATION: 20/A8;BACKUP METHOD: pg_rewind;BACKUP \
    FROM: standby;START TIME: -62135596801;";

/// Texts, and the start and the checkpoint that they name.
pub(crate) const READ: &str = "\
read START WAL LOCATION: 0/100028 (file 000000010000000000000001);CHECKPOINT LOCATION: \
    0/100028;BACKUP METHOD: pg_rewind;BACKUP FROM: standby;START TIME: 2023-11-14 22:13:20 UTC; = \
    Ok((1048616, 1048616))
read START WAL LOCATION: 1F/FF000060 (file 0000000A0000001F00000003);CHECKPOINT LOCATION: \
    20/A8;BACKUP METHOD: pg_rewind;BACKUP FROM: standby;START TIME: -62135596801; = \
    Ok((137422176352, 137438953640))
read START WAL LOCATION: a/b (file FFFFFFFFFFFFFFFFFFFFFFFF);CHECKPOINT LOCATION: 0/00000c; = \
    Ok((42949672971, 12))
read  = Err(Start)
read START WAL LOCATION: 0/100028 (file 000000010000000000000001) = Err(Start)
read START WAL LOCATION: 0/100028;CHECKPOINT LOCATION: 0/1; = Err(Start)
read START WAL LOCATION: 0/1 (file 00000001000000000000000a);CHECKPOINT LOCATION: 0/1; = Err(Start)
read START WAL LOCATION: 01 (file 000000010000000000000001);CHECKPOINT LOCATION: 0/1; = Err(Start)
read START WAL LOCATION: 0/1 (file 000000010000000000000001) ;CHECKPOINT LOCATION: 0/1; = Err(Start)
read START WAL LOCATION: 0/1 (file 000000010000000000000001);CHECKPOINT LOCATION: 0/1 = \
    Err(Checkpoint)
read START WAL LOCATION: 0/1 (file 000000010000000000000001);CHECKPOINT LOCATION:0/1; = \
    Err(Checkpoint)";

fn label_of<R: Abort>(rt: &R, words: &str) -> Label {
    let (start, behind) = cut_at(words, " ");
    let (tli, behind) = cut_at(behind, " ");
    let (size, behind) = cut_at(behind, " ");
    let (checkpoint, time) = cut_at(behind, " ");
    Label {
        start: Lsn(long(rt, start)),
        tli: number(rt, tli),
        size: SegSize::new(number(rt, size)).expect(rt, "no size"),
        checkpoint: Lsn(long(rt, checkpoint)),
        time: time.parse().expect(rt, "no time"),
    }
}

fn tell_label<R: AllocGlobal + Abort>(rt: &R, out: &mut String, words: &str) {
    let label = label_of(rt, words);
    let text = label.text(rt.alloc()).expect(rt, "no memory");
    let shown = text.as_str().replace(rt.alloc(), '\n', ";");
    says(rt, out, "", &text.as_str().len());
    says(rt, out, " ", &shown.expect(rt, "no memory").as_str());
}

fn tell_read<R: AllocGlobal + Abort>(rt: &R, out: &mut String, words: &str) {
    let text = words.replace(rt.alloc(), ';', "\n").expect(rt, "no memory");
    match read_label(text.as_bytes()) {
        Ok(places) => {
            says(rt, out, "Ok((", &places.start.0);
            says(rt, out, ", ", &places.checkpoint.0);
            tell(rt, out, "))");
        }
        Err(fault) => {
            shows(rt, out, "Err(", &fault);
            tell(rt, out, ")");
        }
    }
}

/// `label START TIMELINE SIZE CHECKPOINT TIME` or `read TEXT`.
pub(crate) fn tell_labels<R: AllocGlobal + Abort>(
    rt: &R,
    out: &mut String,
    verb: &str,
    words: &str,
) {
    match verb {
        "label" => tell_label(rt, out, words),
        _ => tell_read(rt, out, words),
    }
}
