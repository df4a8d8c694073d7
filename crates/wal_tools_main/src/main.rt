//! The program over the machine's files: its words and its exit.
#![tactic(auto)]

mod places;
mod streams;

use commands::{CommandName, named};
use machine::{DirTree, StdSink};
use run_acts::Cause;
use sample_manager::SampleManager;
use std::io::ErrorKind;
use std::process::ExitCode;
use std::rt::{Clock, Env};
use std::time::{SystemTime, UNIX_EPOCH};
use std::{env, io, str};
use streams::Held;
use wal_tools::{finish, run_with};

// Longer than any command's name.
const NAME_ROOM: usize = 32;

// The command and its words, without the program's own name.
fn words_of<R: Env + AllocGlobal>(rt: &R) -> io::Result<Vec<String>> {
    let mut words = Vec::new(rt.alloc());
    for word in env::args(rt)?.skip(1) {
        words.push(word)?;
    }
    Ok(words)
}

// The command that the first word names, which is looked at without memory, and whatever the other
// words are.
fn first_name<R: Env>(rt: &R) -> Option<CommandName> {
    let mut bytes = [0; NAME_ROOM];
    let Ok(size) = rt.arg(1, &mut bytes) else {
        return None;
    };
    match str::from_utf8(&bytes[..size]) {
        Ok(word) => named(word),
        Err(_) => None,
    }
}

// The cause of words that aren't text, or that there is no memory for.
fn unread_cause(error: &io::Error) -> Cause {
    match error.kind() {
        ErrorKind::OutOfMemory => Cause::OutOfMemory,
        _ => Cause::Usage,
    }
}

// Seconds since 1970, and 0 where the clock can't be read.
fn seconds_now(rt: &impl Clock) -> i64 {
    let Ok(now) = SystemTime::now(rt) else {
        return 0;
    };
    match now.duration_since(UNIX_EPOCH) {
        Ok(since) => i64::try_from(since.as_secs()).unwrap_or(i64::MAX),
        Err(_) => 0,
    }
}

fn main(rt: HostRuntime) -> ExitCode {
    let _held = Held::open(&rt);
    let alloc = rt.alloc();
    let mut out = StdSink::new(rt.stdout());
    let mut err = StdSink::new(rt.stderr());
    let exit = match words_of(&rt) {
        Ok(words) => match places::refusal(&rt, alloc, &words) {
            Some(cause) => finish(alloc, first_name(&rt), cause, &mut err),
            None => {
                let now = seconds_now(&rt);
                let mut tree = DirTree::new(rt, alloc);
                let custom = Some(&SampleManager);
                run_with(alloc, &words, &mut tree, &mut out, &mut err, now, custom)
            }
        },
        Err(error) => finish(alloc, first_name(&rt), unread_cause(&error), &mut err),
    };
    ExitCode::from(exit.status)
}
