// The lines that say what is run, and what it has to do.
use crate::fault::LineFault;
use crate::line::{first_word, narrow, number, plan};
use memory_tree::FailPlan;
use std::alloc::Global;

/// Which calls of a run fail.
#[derive(Clone, Copy)]
pub struct Fails {
    pub tree: FailPlan,
    pub out: FailPlan,
    pub err: FailPlan,
    /// How many of the first reads are made to fail once each, before the words run as they are asked to.
    pub reads: u64,
}

/// How a run has to end, and what it has to write and to change.
#[derive(Drop)]
pub struct Wanted {
    pub status: u8,
    pub out: String,
    pub err: String,
    /// Lines that standard output has among others, in place of `out`.
    pub has: String,
    pub calls: String,
    /// Whether it may make any changing calls, in place of `calls`.
    pub any_calls: bool,
}

/// What a run is asked to do, and what it has to do then.
#[derive(Drop)]
pub struct Asked {
    pub words: Vec<String>,
    pub now: i64,
    pub fails: Fails,
    /// Whether the manager of an extension is handed in.
    pub has_manager: bool,
    pub wanted: Wanted,
    /// The words of each run that the mark of a stopped run has to refuse.
    pub refused: Vec<Vec<String>>,
    /// The words of the run that has to complete a stopped one, or none.
    pub resumed: Vec<String>,
}

impl Fails {
    /// Of the tree's calls these, and no others.
    pub fn of_tree(tree: FailPlan) -> Fails {
        Fails {
            tree,
            out: FailPlan::Never,
            err: FailPlan::Never,
            reads: 0,
        }
    }

    // `failing tree|out|err at|from N`: which calls fail.
    fn add(&mut self, behind: &str) -> Result<(), LineFault> {
        let (what, behind) = first_word(behind);
        let plan = plan(behind)?;
        match what {
            "tree" => self.tree = plan,
            "out" => self.out = plan,
            "err" => self.err = plan,
            _ => return Err(LineFault::NotCalls),
        }
        Ok(())
    }

    // `reads N`: each of the first N reads fails once, and then the one behind them, if there is one.
    fn add_reads(&mut self, behind: &str) -> Result<(), LineFault> {
        self.reads = number(behind)?;
        self.tree = FailPlan::At(self.reads.saturating_add(1));
        Ok(())
    }
}

// Adds a text.
fn add_text(alloc: Global, texts: &mut Vec<String>, text: &str) -> Result<(), LineFault> {
    texts.push(String::from_str(alloc, text)?)?;
    Ok(())
}

// Adds the words of a text, of which none is empty or has a blank.
fn add_words(alloc: Global, words: &mut Vec<String>, text: &str) -> Result<(), LineFault> {
    for word in text.split(' ') {
        add_text(alloc, words, word)?;
    }
    Ok(())
}

// Adds a line to a text.
fn add_line(text: &mut String, line: &str) -> Result<(), LineFault> {
    text.push_str(line)?;
    text.push_str("\n")?;
    Ok(())
}

impl Wanted {
    // Nothing is wanted.
    fn new(alloc: Global) -> Wanted {
        Wanted {
            status: 0,
            out: String::new(alloc),
            err: String::new(alloc),
            has: String::new(alloc),
            calls: String::new(alloc),
            any_calls: false,
        }
    }

    // `any`: its changing calls aren't looked at.
    fn let_change(&mut self) -> Result<(), LineFault> {
        self.any_calls = true;
        Ok(())
    }

    // Takes a line that says what is wanted.
    fn take(&mut self, verb: &str, behind: &str) -> Result<(), LineFault> {
        match verb {
            "out" => add_line(&mut self.out, behind),
            "err" => add_line(&mut self.err, behind),
            "has" => add_line(&mut self.has, behind),
            "call" => add_line(&mut self.calls, behind),
            "any" => self.let_change(),
            _ => Err(LineFault::NotALine),
        }
    }
}

impl Asked {
    /// Nothing is asked for yet.
    pub fn new(alloc: Global) -> Asked {
        Asked {
            words: Vec::new(alloc),
            now: 1700000000,
            fails: Fails::of_tree(FailPlan::Never),
            has_manager: false,
            wanted: Wanted::new(alloc),
            refused: Vec::new(alloc),
            resumed: Vec::new(alloc),
        }
    }

    // `now N`: the time of the run.
    fn add_now(&mut self, behind: &str) -> Result<(), LineFault> {
        self.now = narrow(behind)?;
        Ok(())
    }

    // `manager`: the manager of an extension is handed in.
    fn add_manager(&mut self) -> Result<(), LineFault> {
        self.has_manager = true;
        Ok(())
    }

    // `refused WORD ..`: the words of a run that the mark has to refuse.
    fn add_refused(&mut self, alloc: Global, behind: &str) -> Result<(), LineFault> {
        let mut words = Vec::new(alloc);
        add_words(alloc, &mut words, behind)?;
        self.refused.push(words)?;
        Ok(())
    }

    /// Takes a line that says what is run or wanted. Answers `NotALine` where it says something else.
    pub fn take(&mut self, alloc: Global, verb: &str, behind: &str) -> Result<(), LineFault> {
        match verb {
            "run" => add_words(alloc, &mut self.words, behind),
            "word" => add_text(alloc, &mut self.words, behind),
            "now" => self.add_now(behind),
            "failing" => self.fails.add(behind),
            "reads" => self.fails.add_reads(behind),
            "manager" => self.add_manager(),
            "refused" => self.add_refused(alloc, behind),
            "resumed" => add_words(alloc, &mut self.resumed, behind),
            _ => self.wanted.take(verb, behind),
        }
    }
}

/// The command's name, as it stands in the line of a cause.
pub fn command_of(words: &[String]) -> &str {
    match words.first() {
        Some(word) => word.as_str(),
        None => "",
    }
}
