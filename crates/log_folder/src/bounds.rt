// From where to where a log is shown, and on which timeline.
ghost use Rattle.std.specs.Prelude.{◌≡◌, ◌*◌, ◌<◌, ◌^◌, IfErr};
ghost use Rattle.wal_base.specs.Segment.{bytes_of};
ghost use Rattle.log_folder.specs.Bounds.{bounds_in, bounds_of, goes_on, holds_start, start_from, stop_at, stretch_given, stretch_named, stretch_of, timeline_of};

use crate::FolderFault;
use commands::DumpWords;
use wal_base::{Lsn, SegSize, Segment, Text};

/// From where to where a log is shown, and on which timeline.
#[derive(Clone, Copy)]
pub(crate) struct Bounds {
    pub(crate) tli: u32,
    pub(crate) start: Lsn,
    pub(crate) stop: Option<Lsn>,
}

// What a segment holds of the log. One that ends at 2^64 has no end.
#[derive(Clone, Copy)]
struct Stretch {
    tli: u32,
    start: Lsn,
    end: Option<Lsn>,
}

#[tactic(auto, unfolding(crate::specs::Bounds::end_at, crate::specs::Bounds::stretch_of))]
fn stretch_of(segment: Segment) -> Stretch
    requires { segment.number * bytes_of segment.size < 2 ^ 64 }
    ensures { result ≡ stretch_of segment }
{
    let start = segment.start();
    let size = u64::from(segment.size.bytes());
    Stretch {
        tli: segment.tli,
        start,
        end: start.0.checked_add(size).map(Lsn),
    }
}

// What the segment of this size and name holds.
#[tactic(auto, using(crate::proofs::NamedLemmas::named_steps), unfolding(crate::specs::Bounds::stretch_named))]
fn stretch_named(size: SegSize, name: &str) -> Result<Stretch, FolderFault>
    ensures value { result ≡ stretch_named size name.now }
    ensures fault { IfErr result (λ e. e ≡ FolderFault.Usage) }
{
    match Segment::parse_name(name, size) {
        Some(segment) => Ok(stretch_of(segment)),
        None => Err(FolderFault::Usage),
    }
}

// What STARTSEG or ENDSEG holds, where it is given.
fn stretch_given(size: SegSize, name: &Option<Text>) -> Result<Option<Stretch>, FolderFault>
    ensures value { result ≡ stretch_given size name.now }
    ensures fault { IfErr result (λ e. e ≡ FolderFault.Usage) }
{
    match name {
        Some(name) => Ok(Some(stretch_named(size, name.as_str())?)),
        None => Ok(None),
    }
}

// Whether a start lies in STARTSEG.
#[tactic(auto, unfolding(crate::specs::Bounds::holds_start))]
fn holds_start(first: Option<Stretch>, start: Option<Lsn>) -> bool
    ensures { result ≡ holds_start first start }
{
    match (first, start) {
        (Some(first), Some(start)) => {
            first.start.0 <= start.0
                && match first.end {
                    Some(end) => start.0 < end.0,
                    None => true,
                }
        }
        _ => true,
    }
}

// Whether ENDSEG is on the timeline of STARTSEG, and not below it.
#[tactic(auto, unfolding(crate::specs::Bounds::goes_on))]
fn goes_on(first: Option<Stretch>, last: Option<Stretch>) -> bool
    ensures { result ≡ goes_on first last }
{
    match (first, last) {
        (Some(first), Some(last)) => last.tli == first.tli && first.start.0 <= last.start.0,
        _ => true,
    }
}

// The start: the one that is given, else that of STARTSEG.
#[tactic(auto, unfolding(crate::specs::Bounds::start_from))]
fn start_from(first: Option<Stretch>, start: Option<Lsn>) -> Result<Lsn, FolderFault>
    ensures value { result ≡ start_from first start }
    ensures fault { IfErr result (λ e. e ≡ FolderFault.Usage) }
{
    match (start, first) {
        (Some(start), _) => Ok(start),
        (None, Some(first)) => Ok(first.start),
        (None, None) => Err(FolderFault::Usage),
    }
}

// The stop: the one that is given, else the end of ENDSEG, else that of STARTSEG.
#[tactic(auto, unfolding(crate::specs::Bounds::stop_at))]
fn stop_at(first: Option<Stretch>, last: Option<Stretch>, stop: Option<Lsn>) -> Option<Lsn>
    ensures { result ≡ stop_at first last stop }
{
    match (stop, last, first) {
        (Some(stop), _, _) => Some(stop),
        (None, Some(last), _) => last.end,
        (None, None, Some(first)) => first.end,
        (None, None, None) => None,
    }
}

// The timeline: that of STARTSEG, else the one that is given, else 1.
#[tactic(auto, unfolding(crate::specs::Bounds::timeline_of))]
fn timeline_of(first: Option<Stretch>, timeline: Option<u32>) -> u32
    ensures { result ≡ timeline_of first timeline }
{
    match first {
        Some(first) => first.tli,
        None => timeline.unwrap_or(1),
    }
}

// The bounds, unless the segments and the start break a rule.
#[tactic(auto, unfolding(crate::specs::Bounds::bounds_in))]
fn bounds_in(
    first: Option<Stretch>,
    last: Option<Stretch>,
    words: &DumpWords,
) -> Result<Bounds, FolderFault>
    ensures value { result ≡ bounds_in first last words.now }
    ensures fault { IfErr result (λ e. e ≡ FolderFault.Usage) }
{
    if !(holds_start(first, words.start) && goes_on(first, last)) {
        return Err(FolderFault::Usage);
    }
    Ok(Bounds {
        tli: timeline_of(first, words.timeline),
        start: start_from(first, words.start)?,
        stop: stop_at(first, last, words.stop),
    })
}

/// The bounds that the words give, where segments have this size.
///
/// The only fault is `Usage`: where STARTSEG or ENDSEG is no name of such a segment, the start lies
/// out of STARTSEG, ENDSEG is below STARTSEG or on another timeline, or there is no start.
#[tactic(auto, unfolding(crate::specs::Bounds::bounds_of))]
pub(crate) fn bounds_of(size: SegSize, words: &DumpWords) -> Result<Bounds, FolderFault>
    ensures value { result ≡ bounds_of size words.now }
    ensures fault { IfErr result (λ e. e ≡ FolderFault.Usage) }
{
    let first = stretch_given(size, &words.first)?;
    let last = stretch_given(size, &words.last)?;
    bounds_in(first, last, words)
}
