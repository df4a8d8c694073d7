// What the lines so far made.
use super::begins::begins;
use super::outcome::run_and_compare;
use super::pairs::{are_broken_off, pair, writes_at_most};
use super::stops::tell_stops;
use case_lines::{
    Asked, LineFault, Named, NewLog, TextFault, Told, first_word, holds, narrow, path, set_up,
};
use cluster_tree::Path;
use memory_tree::MemoryTree;
use std::alloc::Global;
use std::mem;

/// What the lines so far made: a tree, maybe a log that is being written, and what is asked next.
#[derive(Drop)]
pub(crate) struct Scene {
    named: Named,
    tree: MemoryTree,
    log: Option<NewLog>,
    asked: Asked,
    told: Told,
    cases: u64,
}

impl Scene {
    /// No line was taken.
    pub(crate) fn new(alloc: Global) -> Scene {
        Scene {
            named: Named::new(alloc),
            tree: MemoryTree::new(alloc),
            log: None,
            asked: Asked::new(alloc),
            told: Told::new(alloc),
            cases: 0,
        }
    }

    // `case NAME`: an empty tree.
    fn begin(&mut self, alloc: Global, name: &str) -> Result<(), LineFault> {
        self.end_run(alloc)?;
        self.log = None;
        self.tree = MemoryTree::new(alloc);
        self.told.case = String::from_str(alloc, name)?;
        self.cases = self.cases.saturating_add(1);
        Ok(())
    }

    // Tells words that were not run.
    fn end_run(&mut self, alloc: Global) -> Result<(), LineFault> {
        if !self.asked.words.is_empty() {
            self.asked = Asked::new(alloc);
            self.told.tell(&["words without a status"])?;
        }
        Ok(())
    }

    // Runs what was asked.
    fn run(&mut self, alloc: Global, asked: &Asked) -> Result<(), LineFault> {
        let tree = mem::replace(&mut self.tree, MemoryTree::new(alloc));
        self.tree = run_and_compare(alloc, tree, asked, &mut self.told)?;
        Ok(())
    }

    // `status N`: runs what was asked, which has to end so.
    fn take_status(&mut self, alloc: Global, behind: &str) -> Result<(), LineFault> {
        let mut asked = mem::replace(&mut self.asked, Asked::new(alloc));
        asked.wanted.status = narrow(behind)?;
        self.run(alloc, &asked)
    }

    // `stops MARK`: stops what was asked at each of its calls, and then runs it, which has to end with status 0.
    fn take_stops(&mut self, alloc: Global, behind: &str) -> Result<(), LineFault> {
        let asked = mem::replace(&mut self.asked, Asked::new(alloc));
        let mark = path(alloc, behind)?;
        tell_stops(alloc, &self.tree, &asked, &mark, &mut self.told)?;
        self.run(alloc, &asked)
    }

    // `log FOLDER ..`: begins a log.
    fn begin_log(&mut self, alloc: Global, behind: &str) -> Result<(), LineFault> {
        self.log = Some(NewLog::new(alloc, behind)?);
        Ok(())
    }

    // A line of the log that is being written. `end` puts its segments into its folder.
    fn take_log(&mut self, alloc: Global, verb: &str, behind: &str) -> Result<(), LineFault> {
        let Some(log) = self.log.as_mut() else {
            return Err(LineFault::NoLog);
        };
        match verb {
            "record" => log.add_record(alloc, behind),
            "filler" => log.add_filler(alloc, behind),
            _ => log.put(alloc, &mut self.tree),
        }
    }

    // Whether the tree is as a line says, if it says what has to stand at a path.
    fn is_so(
        &mut self,
        alloc: Global,
        verb: &str,
        at: &Path,
        words: &str,
    ) -> Result<bool, LineFault> {
        match verb {
            "begins" => begins(alloc, &mut self.tree, at, words),
            _ => holds(alloc, &mut self.tree, verb, at, words),
        }
    }

    // A line of what has to stand at a path.
    fn check(
        &mut self,
        alloc: Global,
        verb: &str,
        at: &Path,
        behind: &str,
    ) -> Result<(), LineFault> {
        let (_, words) = first_word(behind);
        if !self.is_so(alloc, verb, at, words)? {
            self.told.tell(&["not so: ", verb, " ", behind])?;
        }
        Ok(())
    }

    // A line of a path: what stands there, or has to.
    fn take_path(&mut self, alloc: Global, verb: &str, behind: &str) -> Result<(), LineFault> {
        let (text, words) = first_word(behind);
        let at = path(alloc, text)?;
        match set_up(alloc, &mut self.tree, verb, &at, words) {
            Err(LineFault::NotALine) => self.check(alloc, verb, &at, behind),
            done => done,
        }
    }

    // `pair SEED BLOCKS`: the tree of a pair, in the place of what stood so far.
    fn take_pair(&mut self, alloc: Global, behind: &str) -> Result<(), LineFault> {
        self.tree = pair(alloc, behind)?;
        Ok(())
    }

    // A line that asks for something without a path.
    fn take_asked(&mut self, alloc: Global, verb: &str, behind: &str) -> Result<(), LineFault> {
        let is_so = match verb {
            "writes" => writes_at_most(&self.tree, behind)?,
            _ => are_broken_off(alloc, behind)?,
        };
        if !is_so {
            self.told.tell(&["not so: ", verb, " ", behind])?;
        }
        Ok(())
    }

    // Takes a line that belongs to no run.
    fn take_other(&mut self, alloc: Global, verb: &str, behind: &str) -> Result<(), LineFault> {
        match verb {
            "" | "#" => Ok(()),
            "name" => self.named.add(alloc, behind),
            "log" => self.begin_log(alloc, behind),
            "record" | "filler" | "end" => self.take_log(alloc, verb, behind),
            "pair" => self.take_pair(alloc, behind),
            "writes" | "broken_pairs" => self.take_asked(alloc, verb, behind),
            _ => self.take_path(alloc, verb, behind),
        }
    }

    // Takes a line by its first word and what stands behind it.
    fn take_words(&mut self, alloc: Global, verb: &str, behind: &str) -> Result<(), LineFault> {
        match verb {
            "case" => return self.begin(alloc, behind),
            "status" => return self.take_status(alloc, behind),
            "stops" => return self.take_stops(alloc, behind),
            _ => {}
        }
        match self.asked.take(alloc, verb, behind) {
            Err(LineFault::NotALine) => self.take_other(alloc, verb, behind),
            taken => taken,
        }
    }

    // Takes a line that belongs to no part.
    fn take_line(&mut self, alloc: Global, line: &str) -> Result<(), LineFault> {
        let (verb, behind) = first_word(line);
        let behind = self.named.text_of(alloc, behind)?;
        self.take_words(alloc, verb, &behind)
    }

    // `take NAME ROOT`: takes the lines of a part.
    fn take_part(&mut self, alloc: Global, behind: &str) -> Result<(), LineFault> {
        for line in self.named.lines_of(alloc, behind)?.split('\n') {
            self.take_line(alloc, line)?;
        }
        Ok(())
    }

    // Takes a line.
    fn take(&mut self, alloc: Global, line: &str) -> Result<(), LineFault> {
        if self.named.keep(alloc, line)? {
            return Ok(());
        }
        match line.strip_prefix("take ") {
            Some(part) => self.take_part(alloc, part),
            None => self.take_line(alloc, line),
        }
    }

    /// Takes the lines of a text in turn, or answers the first that can't be taken.
    pub(crate) fn take_text(&mut self, alloc: Global, text: &str) -> Result<(), TextFault> {
        for (before, line) in text.split('\n').enumerate() {
            if let Err(fault) = self.take(alloc, line) {
                let line = before.saturating_add(1);
                return Err(TextFault { line, fault });
            }
        }
        Ok(())
    }

    /// How many cases were begun since the last such call, and all that differed in them, a line for each difference.
    pub(crate) fn end(&mut self, alloc: Global) -> Result<(u64, String), LineFault> {
        self.end_run(alloc)?;
        let cases = mem::replace(&mut self.cases, 0);
        let told = mem::replace(&mut self.told, Told::new(alloc));
        Ok((cases, told.text))
    }
}
