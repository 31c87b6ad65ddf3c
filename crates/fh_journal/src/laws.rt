// What holds of all files.
ghost use Rattle.std.specs.Prelude.{◌≡◌, ◌<◌, ℕ, List, length};
ghost use Rattle.fh_journal.specs.Journal.{Stands, IsJournalOf};
ghost use Rattle.fh_journal.specs.Mounting.{BreaksAt, IsForeign};
ghost use Rattle.fh_journal.specs.declared.faults.FrameRule.{FrameRule};

/// A law: a file has one reading at most. None stands for two lists of payloads or has two next gates, and
/// none is broken first at two places or by two rules. None with more than 7 bytes both stands for payloads
/// and is broken, and one without the header is neither.
pub fn files_have_one_reading()
    ensures stands { (file : List ℕ) (payloads others : List (List ℕ)) (gate place : ℕ)
        → Stands file payloads gate → Stands file others place → (payloads ≡ others) × (gate ≡ place) }
    ensures journal { (file : List ℕ) (payloads others : List (List ℕ))
        → IsJournalOf file payloads → IsJournalOf file others → payloads ≡ others }
    ensures broken { (file : List ℕ) (at : ℕ) (rule : FrameRule) (payloads : List (List ℕ))
        → 7 < length file → BreaksAt file at rule → IsJournalOf file payloads → ⊥ }
    ensures breaks { (file : List ℕ) (at place : ℕ) (rule other : FrameRule)
        → BreaksAt file at rule → BreaksAt file place other → (at ≡ place) × (rule ≡ other) }
    ensures foreign { (file : List ℕ) (payloads : List (List ℕ)) → IsForeign file → IsJournalOf file payloads → ⊥ }
    ensures headed { (file : List ℕ) (at : ℕ) (rule : FrameRule) → IsForeign file → BreaksAt file at rule → ⊥ }
{}
