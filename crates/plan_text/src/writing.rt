// The text of a plan.
ghost use Rattle.std.specs.Prelude.{◌≡◌, ◌++◌, ◌<◌, ◌^◌, [], ◌∷◌, codes, decimal, string_bytes, true, IfOk, OnOk};
ghost use Rattle.std.specs.Str.{is_utf8};
ghost use Rattle.mark_lines.specs.Words.{line};
ghost use Rattle.mark_lines.specs.Paths.{path_word, way_of};
ghost use Rattle.hex.specs.Hex.{IsBytes};
ghost use Rattle.plan_text.specs.Laws.{AllAreSized, IsHeld, IsSized, IsTold, are_texts, is_text};
ghost use Rattle.plan_text.specs.Steps.{step_words};
ghost use Rattle.plan_text.specs.Text.{bytes_line, plan_text, said_by, source_line, step_lines, told_line};

use crate::stored::StoredPlan;
use cluster_tree::{OutOfMemory, Path};
use mark_lines::{add_pathed, add_sized, path_word};
use rewind_survey::Told;
use rewind_writes::Step;
use std::alloc::Global;
use std::collections::VecDeque;
use wal_base::Text;

/// Adds the line of bytes that are copied.
fn add_range(
    alloc: Global,
    text: &mut String,
    root: &Path,
    path: &Path,
    at: u64,
    size: u64,
) -> Result<(), OutOfMemory>
    ensures line { OnOk result (string_bytes text.new ≡ string_bytes text.old
        ++ line (codes "range" ∷ path_word root.now path.now ∷ decimal at ∷ decimal size ∷ [])) }
    ensures text { OnOk result (is_utf8 (way_of root.now path.now) ≡ true) }
{
    let path = path_word(alloc, root, path)?;
    writeln!(text, "range {path} {at} {size}")?;
    Ok(())
}

/// Adds the line of a step.
fn add_step(alloc: Global, text: &mut String, root: &Path, step: &Step) -> Result<(), OutOfMemory>
    ensures line { OnOk result (string_bytes text.new
        ≡ string_bytes text.old ++ line (step_words root.now step.now)) }
    ensures text { OnOk result (is_text root.now step.now ≡ true) }
    ensures size { IsSized step.now }
{
    match step {
        Step::Folder(path) => add_pathed(alloc, text, "folder", root, path),
        Step::Whole { to, size, .. } => add_sized(alloc, text, "whole", root, to, *size),
        Step::Cut(path, size) => add_sized(alloc, text, "cut", root, path, *size),
        Step::Range { to, at, size, .. } => add_range(alloc, text, root, to, *at, *size),
        Step::Remove(path) => add_pathed(alloc, text, "remove", root, path),
    }
}

/// Adds the lines of all steps.
fn add_steps(
    alloc: Global,
    text: &mut String,
    root: &Path,
    steps: &VecDeque<Step>,
) -> Result<(), OutOfMemory>
    ensures lines { OnOk result (string_bytes text.new
        ≡ string_bytes text.old ++ step_lines root.now steps.now.items) }
    ensures texts { OnOk result (are_texts root.now steps.now.items ≡ true) }
    ensures sizes { OnOk result (AllAreSized steps.now.items) }
{
    for step in steps {
        add_step(alloc, text, root, step)?;
    }
    Ok(())
}

/// Adds the first line.
fn add_source(text: &mut String, source: u32) -> Result<(), OutOfMemory>
    ensures line { OnOk result (string_bytes text.new ≡ string_bytes text.old ++ source_line source) }
    ensures sum { source < 2 ^ 32 }
{
    writeln!(text, "source {source:08X}")?;
    Ok(())
}

/// Adds the second line.
fn add_told(text: &mut String, told: Told) -> Result<(), OutOfMemory>
    ensures line { OnOk result (string_bytes text.new ≡ string_bytes text.old ++ told_line told) }
    ensures told { IsTold told }
{
    let (tli, at) = (told.fork.tli, told.fork.at);
    let (checkpoint, theirs) = (told.checkpoint, told.tli);
    writeln!(text, "told {tli} {at} {checkpoint} {theirs}")?;
    Ok(())
}

/// Adds the line of some bytes.
fn add_bytes(alloc: Global, text: &mut String, name: &str, bytes: &[u8]) -> Result<(), OutOfMemory>
    ensures line { OnOk result (string_bytes text.new
        ≡ string_bytes text.old ++ bytes_line name.now bytes.now) }
    ensures bytes { IsBytes bytes.now }
{
    let digits = hex::encode(alloc, bytes)?;
    writeln!(text, "{name} {digits}")?;
    Ok(())
}

/// The text of a plan, paths below the target's root. Answers `OutOfMemory` only for want of memory.
#[tactic(auto, unfolding(crate::specs::Text::plan_text))]
pub fn plan_text(alloc: Global, target: &Path, stored: &StoredPlan) -> Result<Text, OutOfMemory>
    ensures value { IfOk result (λ text. text ≡ plan_text target.now (said_by stored.now)) }
    // what a program holds has numbers of their widths, ways in UTF-8, and bytes
    ensures held { OnOk result (IsHeld target.now (said_by stored.now)) }
{
    let mut text = String::new(alloc);
    add_source(&mut text, stored.source)?;
    add_told(&mut text, stored.told)?;
    add_steps(alloc, &mut text, target, &stored.plan.steps)?;
    add_bytes(alloc, &mut text, "label", &stored.plan.label.bytes)?;
    add_bytes(alloc, &mut text, "control", &stored.plan.control.bytes)?;
    text.push_str("end\n")?;
    Ok(Text::from(text))
}
