//! Laws: what holds of the definitions, whatever calls them.

ghost use Rattle.std.specs.Prelude.{◌≡◌, ◌≢◌, ◌↔◌, ℕ, ◌<◌, ◌≤◌, Ok, Err, List, [], ◌∷◌, ◌++◌};
ghost use Rattle.std.specs.List.{AllByRecursion};
ghost use Rattle.wal_base.specs.declared.spans.Span.{Span};
ghost use Rattle.timeline_history.specs.declared.ancestor.Ancestor.TheVariants.{Common};
ghost use Rattle.timeline_history.specs.declared.ancestor.Divergence.{Divergence};
ghost use Rattle.timeline_history.specs.declared.fault.HistoryFault.{HistoryFault};
ghost use Rattle.timeline_history.specs.declared.line.Entry.{Entry};
ghost use Rattle.timeline_history.specs.declared.line.Line.TheVariants.{Ends};
ghost use Rattle.timeline_history.specs.Lines.{newline, lines_of, IsLine, text_of};
ghost use Rattle.timeline_history.specs.Line.{reading_of, NamesEntry};
ghost use Rattle.timeline_history.specs.History.{IsFirstFault, IsFaultless, IsHistory, entries_of, history_of, spans_of};
ghost use Rattle.timeline_history.specs.Ancestor.{SharesSpan, last_tli, divergence_of, tli_at};

/// Lines have no newline, they are all of a text that ends with one, and a last newline may be left out.
pub fn texts_are_their_lines()
    ensures each { (text : List ℕ) → AllByRecursion IsLine (lines_of text) }
    ensures ended { (text : List ℕ) → text_of (lines_of (text ++ newline ∷ [])) ≡ text ++ newline ∷ [] }
    ensures left_out { (text : List ℕ) (byte : ℕ) → byte ≢ newline →
        lines_of (text ++ byte ∷ []) ≡ lines_of (text ++ byte ∷ newline ∷ []) }
{}

/// A line is read as an entry exactly where it names it.
pub fn entries_are_named()
    ensures { (line : List ℕ) (entry : Entry) → (reading_of line ≡ Ends entry) ↔ NamesEntry line entry }
{}

/// Two histories share a span of the fork's timeline, give the same timeline to every position below the fork, and from
/// the fork on are never both on that timeline. Past each position is one to which they give different timelines, where
/// they don't end on the same.
pub fn histories_part_at_the_fork()
    ensures shared { (a b : List Span) (fork : Divergence) →
        divergence_of a b ≡ Common fork → SharesSpan a b fork }
    ensures below { (a b : List Span) (fork : Divergence) (at : ℕ) → IsHistory a → IsHistory b →
        divergence_of a b ≡ Common fork → at < fork.at.0 → tli_at a at ≡ tli_at b at }
    ensures left { (a b : List Span) (fork : Divergence) (at : ℕ) → IsHistory a → IsHistory b →
        last_tli a ≢ last_tli b → divergence_of a b ≡ Common fork → fork.at.0 ≤ at →
        ¬ ((tli_at a at ≡ fork.tli) × (tli_at b at ≡ fork.tli)) }
    ensures past { (a b : List Span) (from : ℕ) → IsHistory a → IsHistory b →
        last_tli a ≢ last_tli b → (at : ℕ) × (from ≤ at) × (tli_at a at ≢ tli_at b at) }
{}

/// A file tells the spans of its entries exactly where no line has a fault, and else its first fault.
pub fn files_tell_histories()
    ensures told { (tli : ℕ) (bytes : List ℕ) (spans : List Span) → (history_of tli bytes ≡ Ok spans) ↔
        (IsFaultless tli (lines_of bytes) × (spans ≡ spans_of tli (entries_of (lines_of bytes)))) }
    ensures refused { (tli : ℕ) (bytes : List ℕ) (fault : HistoryFault) →
        (history_of tli bytes ≡ Err fault) ↔ IsFirstFault tli (lines_of bytes) fault }
{}

/// A file has at most one first fault, and none where no line has a fault.
pub fn files_have_one_first_fault()
    ensures single { (tli : ℕ) (lines : List (List ℕ)) (one other : HistoryFault) →
        IsFirstFault tli lines one → IsFirstFault tli lines other → one ≡ other }
    ensures none { (tli : ℕ) (lines : List (List ℕ)) (fault : HistoryFault) →
        IsFaultless tli lines → ¬ (IsFirstFault tli lines fault) }
{}
