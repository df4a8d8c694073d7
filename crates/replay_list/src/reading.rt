// The whole of a list.
ghost use Rattle.std.specs.Prelude.{◌≡◌, ◌+◌, ◌<◌, ◌^◌, map, MatchResult, Ok};
ghost use Rattle.mark_lines.specs.Lines.{end_of, said_first};
ghost use Rattle.replay_list.specs.Faults.{IsFault};
ghost use Rattle.replay_list.specs.Reading.{closing_in, listed_from, listed_in};

use crate::fault::ListFault;
use crate::front::front_in;
use crate::listed::Listed;
use cluster_tree::Path;
use mark_lines::{end_of, first_line, pieces_of};
use std::alloc::Global;

/// What stands behind the last line.
fn end_at<'a>(
    alloc: Global,
    number: u64,
    pieces: &'a [&'a [u8]],
) -> Result<&'a [&'a [u8]], ListFault>
    ensures { MatchResult result
        (λ rest. said_first end_of number (map (λ piece. piece.now) pieces.now)
        ≡ Ok (tt, map (λ piece. piece.now) rest.now))
        (IsFault (said_first end_of number (map (λ piece. piece.now) pieces.now))) }
{
    let (line, behind) = first_line(pieces).ok_or(ListFault::BadLine(number))?;
    end_of(alloc, line)?.ok_or(ListFault::BadLine(number))?;
    Ok(behind)
}

/// The last line, behind which nothing stands.
fn closing(alloc: Global, number: u64, pieces: &[&[u8]]) -> Result<(), ListFault>
    requires { number + 1 < 2 ^ 64 }
    ensures { MatchResult result
        (λ end. closing_in number (map (λ piece. piece.now) pieces.now) ≡ Ok tt)
        (IsFault (closing_in number (map (λ piece. piece.now) pieces.now))) }
{
    match end_at(alloc, number, pieces)? {
        [[]] => Ok(()),
        _ => Err(ListFault::BadLine(number + 1)),
    }
}

/// The list that pieces say.
fn listed_from(alloc: Global, root: &Path, pieces: &[&[u8]]) -> Result<Vec<Listed>, ListFault>
    ensures { MatchResult result
        (λ listed. listed_from root.now (map (λ piece. piece.now) pieces.now) ≡ Ok listed.items)
        (IsFault (listed_from root.now (map (λ piece. piece.now) pieces.now))) }
{
    let listed = front_in(alloc, root, pieces)?;
    match closing(alloc, listed.len() as u64 + 1, &pieces[listed.len()..]) {
        Ok(()) => Ok(listed),
        Err(fault) => Err(fault),
    }
}

/// The list below a root that a text says: that of a mark from byte 18 on.
///
/// Answers `BadLine` with the number, from 1, of the first line that isn't of its form or its place, or of the line
/// behind the last where the list doesn't end; and `OutOfMemory` only for want of memory.
pub fn stored_list(alloc: Global, root: &Path, text: &[u8]) -> Result<Vec<Listed>, ListFault>
    ensures said { MatchResult result
        (λ listed. listed_in root.now text.now ≡ Ok listed.items)
        (IsFault (listed_in root.now text.now)) }
{
    let pieces = pieces_of(alloc, text)?;
    listed_from(alloc, root, &pieces)
}
