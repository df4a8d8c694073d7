// Which file a name is of.
ghost use Rattle.std.specs.Prelude.{◌≡◌, ◌==◌, bytes_eq, position};
ghost use Rattle.std.specs.Option.{option_copied};
ghost use Rattle.relation_files.specs.Reading.{before, behind, file_named, fork_named, fork_read, segment_read};

use crate::file_name::FileName;
use block_refs::Fork;
use wal_base::decimal_u32;

// Where the first byte of a kind stands in a text.
fn place_of(text: &[u8], byte: u8) -> Option<usize>
    ensures { result ≡ position (λ b. b == byte) text.now }
{
    text.iter().position(|b| *b == byte)
}

// A text up to its first byte of a kind.
#[tactic(auto, using(crate::proofs::CutLemmas::cut_steps))]
fn before(text: &[u8], byte: u8) -> &[u8]
    ensures { result.now ≡ before byte text.now }
{
    match place_of(text, byte) {
        Some(at) => &text[..at],
        None => text,
    }
}

// What stands behind that byte.
#[tactic(auto, using(crate::proofs::CutLemmas::cut_steps))]
fn behind(text: &[u8], byte: u8) -> Option<&[u8]>
    ensures { option_copied result ≡ behind byte text.now }
{
    match place_of(text, byte) {
        Some(at) => Some(&text[at + 1..]),
        None => None,
    }
}

fn is(name: &[u8], text: &str) -> bool
    ensures { result ≡ bytes_eq name.now text.now }
{
    name == text.as_bytes()
}

fn fork_named(name: &[u8]) -> Option<Fork>
    ensures { result ≡ fork_named name.now }
{
    if is(name, "fsm") {
        Some(Fork::FreeSpace)
    } else if is(name, "vm") {
        Some(Fork::Visibility)
    } else if is(name, "init") {
        Some(Fork::Init)
    } else {
        None
    }
}

// The fork of what stands behind the underscore.
fn fork_read(behind: Option<&[u8]>) -> Option<Fork>
    ensures { result ≡ fork_read (option_copied behind.entry) }
{
    match behind {
        None => Some(Fork::Main),
        Some(name) => fork_named(name),
    }
}

// The segment of what stands behind the dot.
fn segment_read(behind: Option<&[u8]>) -> Option<u32>
    ensures { result ≡ segment_read (option_copied behind.entry) }
{
    match behind {
        None => Some(0),
        Some(text) => match decimal_u32(text) {
            Some(0) | None => None,
            Some(segment) => Some(segment),
        },
    }
}

impl FileName {
    /// The file of a relation that has this name, or `None`: a relation's number, `_fsm`, `_vm` or
    /// `_init` for a fork but the main one, and for a segment but the first a dot and its number.
    /// Numbers are decimal, below 2^32 and without leading zeros.
    #[tactic(auto, unfolding(crate::specs::Reading::file_named))]
    pub fn read(name: &str) -> Option<FileName>
        ensures value { result ≡ file_named name.now }
    {
        let name = name.as_bytes();
        let front = before(name, b'.');
        let relation = decimal_u32(before(front, b'_'))?;
        let fork = fork_read(behind(front, b'_'))?;
        let segment = segment_read(behind(name, b'.'))?;
        Some(FileName {
            relation,
            fork,
            segment,
        })
    }
}
