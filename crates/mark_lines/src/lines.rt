// Texts cut at a byte. The lines of a text are its pieces between newlines, of which the last is none.
ghost use Rattle.std.specs.Prelude.{◌≡◌, ◌==◌, map, IfOk};
ghost use Rattle.std.specs.List.{slice_split};
ghost use Rattle.std.specs.Option.{option_map};
ghost use Rattle.mark_lines.specs.Lines.{end_of, first_line, pieces_of};
ghost use Rattle.mark_lines.specs.Words.{words_of};

use cluster_tree::OutOfMemory;
use std::alloc::{AllocError, Global};

fn cut_at_newlines(alloc: Global, text: &[u8]) -> Result<Vec<&[u8]>, AllocError>
    ensures { IfOk result (λ pieces. map (λ piece. piece.now) pieces.items
        ≡ slice_split (λ byte. byte == 10) text.now) }
{
    text.split(|byte| *byte == b'\n').collect(alloc)
}

fn cut_at_spaces(alloc: Global, text: &[u8]) -> Result<Vec<&[u8]>, AllocError>
    ensures { IfOk result (λ pieces. map (λ piece. piece.now) pieces.items
        ≡ slice_split (λ byte. byte == 32) text.now) }
{
    text.split(|byte| *byte == b' ').collect(alloc)
}

/// The pieces of a text between its newlines: its lines, and what stands behind the last newline, which is no line. Answers
/// `OutOfMemory` only for want of memory.
pub fn pieces_of(alloc: Global, text: &[u8]) -> Result<Vec<&[u8]>, OutOfMemory>
    ensures value { IfOk result (λ pieces. map (λ piece. piece.now) pieces.items ≡ pieces_of text.now) }
{
    Ok(cut_at_newlines(alloc, text)?)
}

/// The words of a line without its newline. Answers `OutOfMemory` only for want of memory.
pub fn words_of(alloc: Global, line: &[u8]) -> Result<Vec<&[u8]>, OutOfMemory>
    ensures value { IfOk result (λ words. map (λ word. word.now) words.items ≡ words_of line.now) }
{
    Ok(cut_at_spaces(alloc, line)?)
}

/// The first line, and what stands behind it, or `None` where there is no line.
pub fn first_line<'a>(pieces: &'a [&'a [u8]]) -> Option<(&'a [u8], &'a [&'a [u8]])>
    ensures value { option_map (λ cut. (cut.0.now, map (λ piece. piece.now) cut.1.now)) result
        ≡ first_line (map (λ piece. piece.now) pieces.now) }
{
    match pieces {
        [line, rest @ ..] if !rest.is_empty() => Some((*line, rest)),
        _ => None,
    }
}

/// Nothing more where these are the words of the last line, which is `end`, and `None` where a line is another. Answers
/// `OutOfMemory` only for want of memory.
pub fn end_of(alloc: Global, line: &[u8]) -> Result<Option<()>, OutOfMemory>
    ensures value { IfOk result (λ end. end ≡ end_of (words_of line.now)) }
{
    match words_of(alloc, line)?.as_slice() {
        [verb] if *verb == b"end".as_slice() => Ok(Some(())),
        _ => Ok(None),
    }
}
