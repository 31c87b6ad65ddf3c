// What a refusal keeps for itself.
ghost use Rattle.std.specs.Prelude.{◌≡◌, ℕ, Err};
ghost use Rattle.fh_base.specs.declared.rule.Rule.TheVariants.{TooLarge, OutOfRange, PopReceiptMismatch, LeaseHeld, LeaseMismatch, StoreFull, JournalFull, OldJournal, TokensFull};
ghost use Rattle.fh_event.specs.declared.faults.StepFault.TheVariants.{Rule};
ghost use Rattle.fh_front.specs.Responses.{response_of};

/// The response to a refusal is the same whatever the values of its rule are: nobody learns a message's
/// receipt from it, nor a lease's holder.
pub fn refusals_tell_no_values()
    ensures receipt { (current other : ℕ)
        → response_of (Err (Rule (PopReceiptMismatch current))) ≡ response_of (Err (Rule (PopReceiptMismatch other))) }
    ensures held { (holder until another later : ℕ)
        → response_of (Err (Rule (LeaseHeld holder until))) ≡ response_of (Err (Rule (LeaseHeld another later))) }
    ensures holder { (holder another : ℕ)
        → response_of (Err (Rule (LeaseMismatch holder))) ≡ response_of (Err (Rule (LeaseMismatch another))) }
    ensures sizes { (size limit more most : ℕ)
        → response_of (Err (Rule (TooLarge size limit))) ≡ response_of (Err (Rule (TooLarge more most))) }
    ensures ranges { (given low high another least most : ℕ)
        → response_of (Err (Rule (OutOfRange given low high))) ≡ response_of (Err (Rule (OutOfRange another least most))) }
    ensures live { (live other : ℕ)
        → response_of (Err (Rule (StoreFull live))) ≡ response_of (Err (Rule (StoreFull other))) }
    ensures length { (length other : ℕ)
        → response_of (Err (Rule (JournalFull length))) ≡ response_of (Err (Rule (JournalFull other))) }
    ensures version { (version other : ℕ)
        → response_of (Err (Rule (OldJournal version))) ≡ response_of (Err (Rule (OldJournal other))) }
    ensures kept { (kept other : ℕ)
        → response_of (Err (Rule (TokensFull kept))) ≡ response_of (Err (Rule (TokensFull other))) }
{}
