//! Pages before redo, and what it changed.
use crate::fault::RowFault;
use crate::texts::{byte, bytes_of, cut_at, narrow, number};
use crate::trees::zero_page;
use page_layout::{Line, Page, PageRefusal, RedoWhy};
use std::alloc::{AllocError, Global};

/// xmin 600, xmax 7, command id 9, an address with the mark of a speculative insertion, infomask2
/// 4001, infomask DD22, hoff 24, and a value of eight bytes.
const TUPLE: [u8; 32] = [
    0x58, 0x02, 0, 0, 7, 0, 0, 0, 9, 0, 0, 0, 1, 0, 2, 0, 0xFE, 0xFF, 0x01, 0x40, 0x22, 0xDD, 24,
    0, 1, 2, 3, 4, 5, 6, 7, 8,
];

/// An index tuple of 16 bytes for a line N of block 1, its key eight bytes of A0 + N.
fn index_tuple(n: u8) -> [u8; 16] {
    let key = 160 + n % 16;
    [
        0, 0, 1, 0, n, 0, 16, 0, key, key, key, key, key, key, key, key,
    ]
}

/// A place on a page.
fn place(text: &str) -> Result<u16, RowFault> {
    narrow(text)
}

/// Adds an item behind the others.
fn add(page: &mut Page, item: &[u8]) -> Result<(), RowFault> {
    let count = page.count().ok_or(PageRefusal::BadPage)?;
    page.add_item(item, count.saturating_add(1), true)?;
    Ok(())
}

/// Lays bytes over those of the page.
fn lay(page: &mut [u8], at: usize, bytes: &[u8]) -> Result<(), RowFault> {
    if at > page.len() || bytes.len() > page.len() - at {
        return Err(RowFault::PastTheEnd);
    }
    page[at..at + bytes.len()].copy_from_slice(bytes);
    Ok(())
}

/// Adds dead lines up to so many.
fn add_lines(page: &mut Page, lines: u16) -> Result<(), RowFault> {
    for place in 1..lines.saturating_add(1) {
        if page.line(place).is_none() {
            let lower = 24 + 4 * u32::from(place);
            lay(page.bytes_mut(), 12, &lower.to_le_bytes()[..2])?;
            page.set_line(place, Line::Dead { at: 0, len: 0 })?;
        }
    }
    Ok(())
}

/// What a line becomes by a command.
fn line_of(verb: &str, to: &str) -> Result<Line, RowFault> {
    match verb {
        "unused" => Ok(Line::Unused),
        "dead" => Ok(Line::Dead { at: 0, len: 0 }),
        "redirect" => Ok(Line::Redirect(place(to)?)),
        _ => Err(RowFault::NotACommand),
    }
}

/// One command: what it does to the page.
fn change(alloc: Global, page: &mut Page, command: &str) -> Result<(), RowFault> {
    let (verb, words) = cut_at(command, " ");
    let (first, second) = cut_at(words, " ");
    match verb {
        "zeros" => {}
        "empty" => page.init(0)?,
        "index" => page.init(16)?,
        "tuple" => add(page, &TUPLE)?,
        "key" => add(page, &index_tuple(byte(first)?))?,
        "add" => add(page, &bytes_of(alloc, first)?)?,
        "at" => {
            let bytes = bytes_of(alloc, second)?;
            lay(page.bytes_mut(), number(first)? as usize, &bytes)?;
        }
        "lines" => add_lines(page, place(first)?)?,
        _ => page.set_line(place(first)?, line_of(verb, second)?)?,
    }
    Ok(())
}

/// The page that commands make.
pub(crate) fn made(alloc: Global, commands: &str) -> Result<Page, RowFault> {
    let mut page = zero_page(alloc)?;
    for command in commands.split(", ") {
        change(alloc, &mut page, command)?;
    }
    Ok(page)
}

/// Adds a byte to the runs, and where its run begins.
fn add_byte(runs: &mut String, at: usize, byte: u8, begins: bool) -> Result<(), AllocError> {
    if begins {
        let gap = if runs.is_empty() { "" } else { " " };
        write!(runs, "{gap}{at} ")?;
    }
    write!(runs, "{byte:02X}")
}

/// Each run of bytes that differ: where it begins, and its bytes in the second page.
pub(crate) fn changes(alloc: Global, old: &[u8], new: &[u8]) -> Result<String, RowFault> {
    let mut runs = String::new(alloc);
    let mut running = false;
    for (at, &byte) in new.iter().enumerate() {
        let differs = old.get(at) != Some(&byte);
        if differs {
            add_byte(&mut runs, at, byte, !running)?;
        }
        running = differs;
    }
    Ok(runs)
}

/// What redo says of a page, and what it left of the page.
pub(crate) fn left(
    alloc: Global,
    answer: Result<(), RedoWhy>,
    before: &Page,
    page: &Page,
) -> Result<String, RowFault> {
    let left = changes(alloc, before.bytes(), page.bytes())?;
    match answer {
        Ok(()) => Ok(left),
        Err(why) => Ok(format!(in alloc; "{why:?}{left}")?),
    }
}
