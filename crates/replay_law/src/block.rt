ghost use Rattle.std.specs.Prelude.{ℕ, ◌≡◌, List, Option, Ok, length};
ghost use Rattle.page_masks.specs.Law.{PageView};
ghost use Rattle.replay_law.specs.Effect.{Step};
ghost use Rattle.replay_law.specs.Replay.{Held, found, replay_block};
ghost use Rattle.replay_law.specs.Stage.{stage, BeginsAnew, Fits};
ghost use Rattle.replay_law.specs.Premises.{IsHistory, IsState, HasNoChange};
ghost use Rattle.replay_law.specs.Law.{EndsAs, EndAlike};

/// Two states of a block that fit one base end alike under its log, with no refusal and no skipped
/// change.
pub fn block_converges()
    ensures { (v : PageView) (redo : ℕ) (base a b : Option (List ℕ)) (log : List Step) →
        IsHistory v redo base log → IsState v a → IsState v b →
        Fits v base a log → Fits v base b log →
        EndAlike v a b log }
{}

/// A state that fits a base ends as the last stage of the base.
pub fn block_ends()
    ensures { (v : PageView) (redo : ℕ) (base state : Option (List ℕ)) (log : List Step) →
        IsHistory v redo base log → IsState v state → Fits v base state log →
        EndsAs v (stage base log (length log)) (replay_block v (found state) log) }
{}

/// A block whose log begins anew ends the same, byte for byte or with the same refusal, whatever
/// stood there.
pub fn anew_same()
    ensures { (v : PageView) (a b : Held) (log : List Step) → a.skipped ≡ b.skipped →
        BeginsAnew log → replay_block v a log ≡ replay_block v b log }
{}

/// A block that no record changes ends as its own last stage, byte for byte, whatever the base.
pub fn no_change_ends()
    ensures { (v : PageView) (state : Option (List ℕ)) (log : List Step) → HasNoChange log →
        replay_block v (found state) log ≡ Ok (found (stage state log (length log))) }
{}
