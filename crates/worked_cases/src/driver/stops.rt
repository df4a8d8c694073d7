// What the stops of a run leave: the tree as it was, the mark, or the tree as the run leaves it.
use super::outcome::{Ran, run_on};
use case_lines::{Asked, Fails, LineFault, Told, command_of, inventory, zeros};
use cluster_tree::{Kind, Path, Tree};
use memory_tree::{FailPlan, MemoryTree};
use std::alloc::Global;

// More calls than any run of a case makes.
const MOST: u64 = 10_000;

// Seconds from the run that is stopped to the one that completes it.
const LATER: i64 = 9999;

/// A run that is stopped, and what its stops may leave.
#[derive(Drop)]
struct Stopped<'a> {
    alloc: Global,
    asked: &'a Asked,
    mark: &'a Path,
    /// What stood before the run, what stands once it is done, and once it is done at the later time.
    before: String,
    after: String,
    anew: String,
}

// The time of the run that completes it.
fn later(asked: &Asked) -> i64 {
    asked.now.saturating_add(LATER)
}

// What words leave of a tree at a time.
fn left_at(
    alloc: Global,
    tree: &MemoryTree,
    words: &[String],
    now: i64,
) -> Result<String, LineFault> {
    let start = tree.image(alloc, 1)?;
    let fails = Fails::of_tree(FailPlan::Never);
    let mut left = run_on(alloc, start, words, now, fails, false).tree;
    inventory(alloc, &mut left)
}

// Whether a file has more bytes than this, and begins with these.
fn begins_with(
    alloc: Global,
    tree: &mut MemoryTree,
    path: &Path,
    least: u64,
    head: &[u8],
) -> Result<bool, LineFault> {
    if tree.size(path)? <= least {
        return Ok(false);
    }
    let mut found = zeros(alloc, head.len())?;
    tree.read_at(path, 0, &mut found)?;
    Ok(found.as_slice() == head)
}

// Whether a mark is a complete one of a rewind, or of a replay that can be started again.
fn is_complete(alloc: Global, tree: &mut MemoryTree, mark: &Path) -> Result<bool, LineFault> {
    Ok(
        begins_with(alloc, tree, mark, 14, b"pg_rewind 2\n+")?
            || begins_with(alloc, tree, mark, 18, b"pg_walreplay 2\n+")?,
    )
}

impl Stopped<'_> {
    // Runs words in an image.
    fn run_in(&self, image: &MemoryTree, words: &[String], now: i64) -> Result<Ran, LineFault> {
        let tree = image.image(self.alloc, 1)?;
        let fails = Fails::of_tree(FailPlan::Never);
        Ok(run_on(self.alloc, tree, words, now, fails, false))
    }

    // Whether a run was refused for the mark, and changed nothing.
    fn is_refused(&self, ran: &Ran, words: &[String]) -> Result<bool, LineFault> {
        let mut line = String::new(self.alloc);
        let name = command_of(words);
        writeln!(line, "{name}: error: Unfinished {}", self.mark)?;
        let same = ran.err.bytes() == line.as_bytes() && ran.out.bytes().is_empty();
        Ok(same && ran.status == 1 && ran.tree.changes() == 0)
    }

    // Tells the runs that the mark doesn't refuse.
    fn tell_refused(&self, image: &MemoryTree, told: &mut Told) -> Result<(), LineFault> {
        for words in &self.asked.refused {
            let ran = self.run_in(image, words, self.asked.now)?;
            if !self.is_refused(&ran, words)? {
                told.tell(&["the mark doesn't refuse ", command_of(words)])?;
            }
        }
        Ok(())
    }

    // Whether a tree is this one.
    fn is_left(&self, mut tree: MemoryTree, wanted: &str) -> Result<bool, LineFault> {
        let left = inventory(self.alloc, &mut tree)?;
        Ok(left.as_str() == wanted)
    }

    // Whether a tree is what stood before the run, or what it leaves.
    fn is_whole(&self, mut tree: MemoryTree) -> Result<bool, LineFault> {
        let left = inventory(self.alloc, &mut tree)?;
        Ok(left.as_str() == self.before.as_str() || left.as_str() == self.after.as_str())
    }

    // Completes the run in an image that has the mark: it goes on where that is complete, and else is begun anew. Tells where
    // another tree is left. Answers whether it goes on.
    fn resumes(&self, image: &mut MemoryTree, told: &mut Told) -> Result<bool, LineFault> {
        let goes_on = is_complete(self.alloc, image, self.mark)?;
        let wanted = if goes_on { &self.after } else { &self.anew };
        let ran = self.run_in(image, &self.asked.resumed, later(self.asked))?;
        if ran.status != 0 || !self.is_left(ran.tree, wanted)? {
            told.tell(&["a stopped run isn't completed"])?;
        }
        Ok(goes_on)
    }

    // Tells what differs in an image that has the mark. Answers whether the run goes on there.
    fn tell_marked(&self, image: &mut MemoryTree, told: &mut Told) -> Result<bool, LineFault> {
        self.tell_refused(image, told)?;
        if self.asked.resumed.is_empty() {
            return Ok(false);
        }
        self.resumes(image, told)
    }

    // Tells what differs in an image. Answers whether the run goes on there.
    fn tell_image(&self, mut image: MemoryTree, told: &mut Told) -> Result<bool, LineFault> {
        if image.kind(self.mark)? != Kind::Absent {
            return self.tell_marked(&mut image, told);
        }
        if !self.is_whole(image)? {
            told.tell(&["a stop leaves another tree, without the mark"])?;
        }
        Ok(false)
    }

    // Tells what differs in the images that a run leaves, unless it has changed nothing. Answers whether the run goes on in one.
    fn tell_images(&self, tree: &MemoryTree, told: &mut Told) -> Result<bool, LineFault> {
        let mut goes_on = false;
        if tree.changes() == 0 {
            return Ok(goes_on);
        }
        for choice in 0..3 {
            let image = tree.image(self.alloc, choice)?;
            goes_on = self.tell_image(image, told)? || goes_on;
        }
        Ok(goes_on)
    }

    // Lets the calls of the run fail from each one on, in turn, until it is done. Answers whether it goes on in an image.
    fn tell_all(&self, tree: &MemoryTree, told: &mut Told) -> Result<bool, LineFault> {
        let mut goes_on = false;
        for n in 1..MOST {
            let start = tree.image(self.alloc, 1)?;
            let fails = Fails::of_tree(FailPlan::From(n));
            let ran = run_on(
                self.alloc,
                start,
                &self.asked.words,
                self.asked.now,
                fails,
                false,
            );
            goes_on = self.tell_images(&ran.tree, told)? || goes_on;
            if ran.status == 0 {
                return Ok(goes_on);
            }
        }
        told.tell(&["a run without a call that fails isn't done"])?;
        Ok(goes_on)
    }
}

/// Stops a run at each of its calls, and tells what of the images that are left is neither the tree as it was, nor the tree
/// as the run leaves it, nor has the mark; and what in those that have it isn't refused, or isn't completed.
pub(crate) fn tell_stops(
    alloc: Global,
    tree: &MemoryTree,
    asked: &Asked,
    mark: &Path,
    told: &mut Told,
) -> Result<(), LineFault> {
    let stopped = Stopped {
        alloc,
        asked,
        mark,
        before: inventory(alloc, &mut tree.image(alloc, 1)?)?,
        after: left_at(alloc, tree, &asked.words, asked.now)?,
        anew: left_at(alloc, tree, &asked.words, later(asked))?,
    };
    if !stopped.tell_all(tree, told)? && !asked.resumed.is_empty() {
        told.tell(&["no stopped run was completed"])?;
    }
    Ok(())
}
