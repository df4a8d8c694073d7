// The forms of names in an archive.
ghost use Rattle.std.specs.Prelude.{◌≡◌, ◌==◌, ◌&&◌, ◌≤◌, drop, is_some, length, option_map, take, IfOk, IsTrue, true};
ghost use Rattle.std.specs.Cmp.Lexicographic.{slice_cmp};
ghost use Rattle.std.specs.List.{list_all};
ghost use Rattle.std.specs.Ordering.{is_lt, nat_cmp};
ghost use Rattle.wal_base.specs.Hex.{is_long_name, is_upper_hex};
ghost use Rattle.archive_names.specs.Cleanup.{ends_backup, ends_segment, goes, is_kept, is_segment, kept_of, less, stands_before, without_end};

use wal_base::is_long_name;

// The digits of a segment's name.
const DIGITS: usize = 24;

// Those of its timeline.
const TIMELINE: usize = 8;

// A name without this end, where it has it.
fn without_end<'a>(end: &[u8], name: &'a [u8]) -> &'a [u8]
    ensures { result.now ≡ without_end end.now name.now }
{
    let front = name.len().saturating_sub(end.len());
    if &name[front..] == end {
        &name[..front]
    } else {
        name
    }
}

fn less<'a>(extension: Option<&str>, name: &'a [u8]) -> &'a [u8]
    ensures { result.now ≡ less (option_map (λ s. s.now) extension.entry) name.now }
{
    match extension {
        None => name,
        Some(end) => without_end(end.as_bytes(), name),
    }
}

// The digits of a segment's name at the front of a name, and what follows them.
fn head(name: &[u8]) -> &[u8]
    ensures { result.now ≡ take 24 name.now }
{
    &name[..name.len().min(DIGITS)]
}

fn tail(name: &[u8]) -> &[u8]
    ensures { result.now ≡ drop 24 name.now }
{
    &name[name.len().min(DIGITS)..]
}

fn ends_segment(end: &[u8]) -> bool
    ensures { result ≡ ends_segment end.now }
{
    end.is_empty() || end == b".partial".as_slice()
}

fn all_digits(bytes: &[u8]) -> bool
    ensures { result ≡ list_all is_upper_hex bytes.now }
{
    bytes
        .iter()
        .all(|byte| matches!(byte, b'0'..=b'9' | b'A'..=b'F'))
}

// Eight digits 0 to 9 and A to F.
fn are_digits(bytes: &[u8]) -> bool
    ensures { result ≡ ((length bytes.now == 8) && list_all is_upper_hex bytes.now) }
{
    bytes.len() == 8 && all_digits(bytes)
}

fn ends_backup(end: &[u8]) -> bool
    ensures { result ≡ ends_backup end.now }
{
    let dot = end.len().min(1);
    let digits = end.len().min(9);
    &end[..dot] == b".".as_slice()
        && are_digits(&end[dot..digits])
        && &end[digits..] == b".backup".as_slice()
}

fn is_segment(name: &[u8]) -> bool
    ensures { result ≡ is_segment name.now }
{
    is_long_name(head(name)) && ends_segment(tail(name))
}

fn is_kept(name: &[u8]) -> bool
    ensures { result ≡ is_kept name.now }
{
    is_long_name(head(name)) && (ends_segment(tail(name)) || ends_backup(tail(name)))
}

/// The segment from which on files are kept, by the name that is given and the extension that names
/// may have; `None` where that name is none of a segment's file, finished or not, or of a backup's
/// history.
#[tactic(auto, unfolding(crate::specs::Cleanup::kept_of))]
pub(crate) fn kept_of<'a>(extension: Option<&str>, kept: &'a [u8]) -> Option<&'a [u8]>
    ensures value { option_map (λ s. s.now) result
        ≡ kept_of (option_map (λ s. s.now) extension.entry) kept.now }
{
    let name = less(extension, kept);
    if is_kept(name) {
        Some(head(name))
    } else {
        None
    }
}

/// Whether a clean-up can be given this name to keep: less the extension at its end, that of a
/// segment's file, finished or not (`.partial`), or of a backup's history.
#[tactic(auto, unfolding(crate::specs::Cleanup::kept_of))]
pub fn is_kept_name(kept: &str, extension: Option<&str>) -> bool
    ensures { result ≡ is_some (kept_of (option_map (λ s. s.now) extension.entry) kept.now) }
{
    kept_of(extension, kept.as_bytes()).is_some()
}

// What follows the timeline's digits.
fn number(name: &[u8]) -> &[u8]
    ensures { result.now ≡ drop 8 name.now }
{
    &name[name.len().min(TIMELINE)..]
}

// Whether bytes stand before others.
fn is_less(bytes: &[u8], others: &[u8]) -> bool
    ensures { result ≡ is_lt (slice_cmp nat_cmp bytes.now others.now) }
{
    bytes < others
}

fn stands_before(name: &[u8], other: &[u8]) -> bool
    ensures { result ≡ stands_before name.now other.now }
{
    is_less(number(name), number(other))
}

/// Whether a file of this name goes, where this segment is the first that is kept.
#[tactic(auto, unfolding(crate::specs::Cleanup::goes))]
pub(crate) fn goes(extension: Option<&str>, first: &[u8], name: &[u8]) -> bool
    ensures { result ≡ goes (option_map (λ s. s.now) extension.entry) first.now name.now }
{
    let name = less(extension, name);
    is_segment(name) && stands_before(name, first)
}
