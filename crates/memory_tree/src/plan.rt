// Which calls of a fake fail.
ghost use Rattle.std.specs.Prelude.{◌≡◌, ◌+◌, ◌<◌, ◌≤◌, ℕ};
ghost use Rattle.std.specs.Bool.{OnTrue, OnFalse};
ghost use Rattle.cluster_tree.specs.Causes.{Rose};

/// Which calls of a fake fail, by their number from 1.
#[derive(Clone, Copy, Debug, PartialEq, Eq)]
pub enum FailPlan {
    /// None fails.
    Never,
    /// The call of this number fails.
    At(u64),
    /// The call of this number fails, and each later one.
    From(u64),
}

impl FailPlan {
    ghost use Rattle.memory_tree.specs.Plan.{fails_at};

    /// Whether the next call fails, which is then counted. What is left is the plan of the calls
    /// after it.
    pub(crate) fn fails_next(&mut self, failed: &mut u64) -> bool
        ensures next { result ≡ fails_at self.old 1 }
        ensures left { (n : ℕ) → 0 < n → fails_at self.new n ≡ fails_at self.old (n + 1) }
        ensures counted { OnTrue result (Rose failed.old failed.new) }
        ensures uncounted { OnFalse result (failed.new ≡ failed.old) }
        ensures later { failed.old ≤ failed.new }
    {
        let fails = self.take_turn();
        if fails {
            *failed = failed.saturating_add(1);
        }
        fails
    }

    // Whether the next call fails.
    fn take_turn(&mut self) -> bool
        ensures next { result ≡ fails_at self.old 1 }
        ensures left { (n : ℕ) → 0 < n → fails_at self.new n ≡ fails_at self.old (n + 1) }
    {
        match *self {
            FailPlan::Never => false,
            FailPlan::At(n) => {
                *self = FailPlan::At(n.saturating_sub(1));
                n == 1
            }
            FailPlan::From(n) => {
                *self = FailPlan::From(n.saturating_sub(1));
                n <= 1
            }
        }
    }
}
