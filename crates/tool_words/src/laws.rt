// Laws of the grammar: what it comes to at the words that are usual, for every value.
ghost use Rattle.tool_words.specs.Laws.{IsPlainText, ReadsRestart, ReadsResume, ReadsRoot, ReadsRoots, ReadsStart};

/// Each usual way to give the root of `pg_controldata` gives it, given twice or not at all it is
/// refused, and so is a call for help.
pub fn a_root_is_read(name: &str, dir: &str)
    requires { IsPlainText dir.now }
    ensures { ReadsRoot name.now dir.now }
{}

/// The two roots of `pg_rewind` are read in either order, with and without the flag for a dry run;
/// where one is not given the words are refused.
pub fn two_roots_are_read(name: &str, target: &str, source: &str)
    requires target { IsPlainText target.now }
    requires source { IsPlainText source.now }
    ensures { ReadsRoots name.now target.now source.now }
{}

/// With `--resume` behind its roots `pg_rewind` goes on with a rewind, as a dry run too where it is asked
/// for; given twice it is refused.
pub fn a_resume_is_read(name: &str, target: &str, source: &str)
    requires target { IsPlainText target.now }
    requires source { IsPlainText source.now }
    ensures { ReadsResume name.now target.now source.now }
{}

/// The root of `pg_walreplay` is read alone, and with `--restart` before or behind it, which asks for a
/// replay that can be started again; given twice, with a value or without a root, the flag is refused.
pub fn a_restart_is_read(name: &str, dir: &str)
    requires { IsPlainText dir.now }
    ensures { ReadsRestart name.now dir.now }
{}

/// `pg_waldump` begins with a segment's file, or in a folder at a position; with neither of them it is
/// refused, unless the names of the resource managers are asked for.
pub fn a_start_is_read(name: &str, word: &str, dir: &str, at: &str)
    requires word { IsPlainText word.now }
    requires at { IsPlainText at.now }
    ensures { ReadsStart name.now word.now dir.now at.now }
{}
