//! What holds of every file and of every history. The world and the history of a hub are such a pair.

ghost use Rattle.std.specs.Prelude.{◌≡◌, ◌<◌, ℕ, ◌≤◌, List, length};
ghost use Rattle.std.specs.List.{All};
ghost use Rattle.fh_hub.specs.Replay.{Entry, trace, replay, IsLegal};
ghost use Rattle.fh_hub.specs.Hub.{StandsForHistory};
ghost use Rattle.fh_hub.specs.Mounting.{IsBrokenAt, StandsForNone};
ghost use Rattle.fh_hub.specs.declared.faults.HubRule.{HubRule};
ghost use Rattle.fh_hub.specs.Laws.{births, receipts, IsGivenInTurn};
ghost use Rattle.fh_queues.specs.Whole.{IsWhole};
ghost use Rattle.fh_hub.specs.Places.{IsInOnePlace, IsLocated};
ghost use Rattle.fh_hub.specs.Guards.{GuardsMessages, RisesOver, HasOwnMoment};
ghost use Rattle.fh_hub.specs.Holders.{IsHeldByOne};
ghost use Rattle.fh_hub.specs.Noting.{IsNotedOnce, NotesByMessage};
ghost use Rattle.fh_hub.specs.Timing.{IsDueInTime, RunsInTurn};
ghost use Rattle.fh_hub.specs.Bringing.{KeepsToBounds};

/// A file stands for one legal history at most, or is broken first at one place by one rule; where it has
/// more than 7 bytes, not both.
pub fn files_have_one_history()
    ensures one { (file : List ℕ) (history other : List Entry) → IsLegal history → IsLegal other
        → StandsForHistory history file → StandsForHistory other file → history ≡ other }
    ensures broken { (file : List ℕ) (at : ℕ) (rule : HubRule)
        → 7 < length file → IsBrokenAt file at rule → StandsForNone file }
    ensures first { (file : List ℕ) (at place : ℕ) (rule other : HubRule)
        → IsBrokenAt file at rule → IsBrokenAt file place other → (at ≡ place) × (rule ≡ other) }
{}

/// Messages are numbered from 1 on, each number given to one message and none left out.
pub fn numbers_are_given_once()
    ensures once { (history : List Entry) (n : ℕ) → births n (trace history) ≤ 1 }
    ensures in_turn { (history : List Entry) (n : ℕ)
        → IsGivenInTurn n (replay history).parts.queues.next_number (births n (trace history)) }
{}

/// Receipts are given out from 1 on, each once over all replies and none left out.
pub fn receipts_are_given_once()
    ensures once { (history : List Entry) (k : ℕ) → receipts k (trace history) ≤ 1 }
    ensures in_turn { (history : List Entry) (k : ℕ)
        → IsGivenInTurn k (replay history).parts.queues.next_receipt (receipts k (trace history)) }
{}

/// Rows stand in order of number, a count is at most its receipt, and a message whose number was given has
/// a row or has ended, and not both.
pub fn queues_are_whole()
    ensures { (history : List Entry) → IsWhole (replay history).parts.queues }
{}

/// At each moment from the last one on, a message that was born stands in exactly one place: it waits, it
/// is held, a client removed it, or it has expired, which one without a time to live never does.
pub fn messages_are_in_one_place()
    ensures { (history : List Entry) (n t : ℕ) → (replay history).last ≤ t → IsInOnePlace history n t }
{}

/// Where the world says that a message is, there it is by the events: waiting or held in the queue into
/// which it was put, until the end of its last hold, removed, expired, or unknown where it isn't born.
pub fn messages_are_located()
    ensures { (history : List Entry) (n t : ℕ) → (replay history).last ≤ t → IsLocated history n t }
{}

/// No old receipt changes a message. In each event a live one stays as it is, unless a take or a
/// fetch of its queue lists it, an update or a delete has its newest receipt, or its queue is cleared; and a message that
/// changes has a newer receipt.
pub fn receipts_guard_messages()
    ensures { (history : List Entry) → All GuardsMessages (trace history) }
{}

/// Over any later entries, a message that still stands is the same or has a newer receipt.
pub fn receipts_only_rise()
    ensures { (history entries : List Entry) → RisesOver history entries }
{}

/// Events of a legal history act at the moments of their entries.
pub fn legal_events_have_their_moments()
    ensures { (history : List Entry) → IsLegal history → All HasOwnMoment (trace history) }
{}

/// At each moment from the last one on, a lease has at most one holder: the one to whom it was granted last
/// until a later moment, and from whom nothing took it since. That one and that end the world tells.
pub fn leases_have_one_holder()
    ensures { (history : List Entry) (x : List ℕ) (t : ℕ) → (replay history).last ≤ t → IsHeldByOne history x t }
{}

/// A version of a blob is noted for a function once at most, and exactly where the function has its receipt.
pub fn versions_are_noted_once()
    ensures { (history : List Entry) (f : ℕ) (c b : List ℕ) (v : ℕ) → IsNotedOnce history f c b v }
{}

/// A note is answered by the number of a new message that waits in the function's own queue, never expires,
/// and tells of the blob as it was.
pub fn notes_have_their_messages()
    ensures { (history : List Entry) → All NotesByMessage (trace history) }
{}

/// The due times that replies tell of one function number rise, each above the one before, also where the timer
/// is armed or configured anew; and a function has at most one run ready.
pub fn runs_come_in_turn()
    ensures { (history : List Entry) (f : ℕ) → RunsInTurn history f }
{}

/// A due time that a reply tells is one of the schedule in force.
pub fn due_times_are_scheduled()
    ensures { (history : List Entry) → All IsDueInTime (trace history) }
{}

/// Behind each fetch its function has no more jobs in work than a batch beside its threshold, by the settings in
/// force. No other event brings a function more jobs, but an arm or a tick of its timer.
pub fn fetches_keep_to_their_bounds()
    ensures { (history : List Entry) → All KeepsToBounds (trace history) }
{}
