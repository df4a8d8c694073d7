ghost use Rattle.std.specs.Prelude.{ℕ, ◌≡◌, ◌<◌, List, [], ◌∷◌, IsTrue, Some, None, Ok};
ghost use Rattle.page_masks.specs.Law.{PageView, Redone, SamePage, SameAnswer, IsChange};
ghost use Rattle.replay_law.specs.Effect.{FullPageImage, Change, At};
ghost use Rattle.replay_law.specs.Stage.{stage, Fits};
ghost use Rattle.replay_law.specs.Premises.{
  EndsRise,
  IsNoNewer,
  AreEffects,
  RunsOn,
  IsHistory,
};
ghost use Rattle.replay_law.specs.Law.{EndAlike};
ghost use Rattle.replay_law.specs.SmallLogs.{
  clear_view,
  unsound_view,
  bare,
  numbered,
  with_third,
  one_more,
  one_change,
  equal_ends,
  keeps_lsn,
  then_zeros,
  shows_third,
  two_changes,
  then_gone,
};

/// Premises and conclusion hold together: of states at the first two stages, and of one that is
/// gone where its change would be skipped.
pub fn premises_can_hold()
    ensures history { IsHistory clear_view 0 (bare 0) two_changes }
    ensures fits { Fits clear_view (bare 0) (bare 0) two_changes ×
        Fits clear_view (bare 0) (numbered 1 9) two_changes }
    ensures alike { EndAlike clear_view (bare 0) (numbered 1 9) two_changes }
    ensures gone_history { IsHistory clear_view 0 (bare 0) then_gone }
    ensures gone_fits { Fits clear_view (bare 0) None then_gone }
    ensures gone_alike { EndAlike clear_view (bare 0) None then_gone }
{}

/// Why no page of the base may be newer than redo: its change is passed over, and a later stage
/// has it.
pub fn a_newer_base_differs()
    ensures others { EndsRise 0 one_change × AreEffects clear_view one_change ×
        RunsOn clear_view (bare 5) one_change }
    ensures fits { Fits clear_view (bare 5) (bare 5) one_change ×
        Fits clear_view (bare 5) (numbered 1 9) one_change }
    ensures differ { EndAlike clear_view (bare 5) (numbered 1 9) one_change → ⊥ }
    ensures anywhere { (v : PageView) (end : ℕ) (change : List ℕ → Redone) (p q : List ℕ) →
        IsTrue (v.is_page p) → IsChange v end change → change p ≡ Ok q → end < v.lsn p →
        EndAlike v (Some p) (Some q) (At end (Change change) ∷ []) → ⊥ }
{}

/// Why a change has to find a page: else it is skipped, and nothing takes the block away.
pub fn a_change_needs_a_page()
    ensures others { EndsRise 0 one_change × AreEffects clear_view one_change ×
        IsNoNewer clear_view 0 None }
    ensures fits { Fits clear_view None None one_change }
    ensures differ { EndAlike clear_view None None one_change → ⊥ }
    ensures anywhere { (v : PageView) (end : ℕ) (change : List ℕ → Redone) →
        EndAlike v None None (At end (Change change) ∷ []) → ⊥ }
{}

/// Why no image of zeros may fall on a page: a cluster that has the zeros already skips the change
/// before it, and nothing takes the block away.
pub fn zeros_on_a_page_leave_a_skipped_change()
    ensures others { EndsRise 0 then_zeros × AreEffects clear_view then_zeros ×
        IsNoNewer clear_view 0 (bare 0) × RunsOn clear_view (bare 0) one_change }
    ensures fits { Fits clear_view (bare 0) None then_zeros }
    ensures differ { EndAlike clear_view None None then_zeros → ⊥ }
    ensures anywhere { (v : PageView) (end later : ℕ) (change : List ℕ → Redone) →
        EndAlike v None None (At end (Change change) ∷ At later (FullPageImage None) ∷ []) → ⊥ }
{}

/// Why each page that is changed has to be sound: else a change may show what the mask hid.
pub fn an_unsound_page_differs()
    ensures others { EndsRise 0 shows_third × AreEffects unsound_view shows_third ×
        IsNoNewer unsound_view 0 (with_third 7) }
    ensures carried_out { stage (with_third 7) shows_third 1 ≡ numbered 1 7 }
    ensures fits { Fits unsound_view (with_third 7) (with_third 7) shows_third ×
        Fits unsound_view (with_third 7) (with_third 8) shows_third }
    ensures differ { EndAlike unsound_view (with_third 7) (with_third 8) shows_third → ⊥ }
{}

/// Why the ends of records have to rise: of two with one end the second is passed over.
pub fn equal_ends_differ()
    ensures others { AreEffects clear_view equal_ends × IsNoNewer clear_view 0 (bare 0) ×
        RunsOn clear_view (bare 0) equal_ends }
    ensures fits { Fits clear_view (bare 0) (bare 0) equal_ends ×
        Fits clear_view (bare 0) (numbered 1 9) equal_ends }
    ensures differ { EndAlike clear_view (bare 0) (numbered 1 9) equal_ends → ⊥ }
{}

/// Why a change has to leave the record's end as LSN: else it is applied to a page that has it.
pub fn a_change_without_its_lsn_differs()
    ensures others { EndsRise 0 keeps_lsn × IsNoNewer clear_view 0 (numbered 0 5) ×
        RunsOn clear_view (numbered 0 5) keeps_lsn }
    ensures respects { (p q : List ℕ) → SamePage clear_view p q →
        SameAnswer clear_view (Ok (one_more p)) (Ok (one_more q)) }
    ensures fits { Fits clear_view (numbered 0 5) (numbered 0 5) keeps_lsn ×
        Fits clear_view (numbered 0 5) (numbered 0 6) keeps_lsn }
    ensures differ { EndAlike clear_view (numbered 0 5) (numbered 0 6) keeps_lsn → ⊥ }
{}

/// Why both states have to fit the base: a page from elsewhere keeps what it has.
pub fn a_state_that_fits_none_differs()
    ensures others { IsHistory clear_view 0 (bare 0) one_change }
    ensures fits { Fits clear_view (bare 0) (bare 0) one_change }
    ensures differ { EndAlike clear_view (bare 0) (bare 7) one_change → ⊥ }
{}
