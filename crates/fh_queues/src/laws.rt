//! What holds of each ask that changes something, where the part before is whole. The first law carries that
//! over every list of asks, from no queues on.

ghost use Rattle.std.specs.Prelude.{◌≡◌, ℕ};
ghost use Rattle.fh_event.specs.Judging.{Makes};
ghost use Rattle.fh_queues.specs.declared.done.QueueDone.{QueueDone};
ghost use Rattle.fh_queues.specs.Asks.{Ask};
ghost use Rattle.fh_queues.specs.Part.{QueuePart, no_queues};
ghost use Rattle.fh_queues.specs.Outcome.{outcome};
ghost use Rattle.fh_queues.specs.Whole.{IsWhole};
ghost use Rattle.fh_queues.specs.Tellings.{TellsOfMessages};
ghost use Rattle.fh_queues.specs.Laws.{OfEachAsk, StaysWhole, MovesLittle, GoesOnAsAnswered, GivesNumbersInTurn, GivesReceiptsInTurn, KeepsUntouched, RaisesReceipts, TakesVisible, HasShortTexts, IsKnownByNumber, ListsInOrder, AnswersTheAsk, TakesFew};

/// Rows stand in order of number, a count is at most its receipt, and a message whose number was given
/// has a row or has ended, and not both.
pub fn parts_stay_whole()
    ensures none { IsWhole no_queues }
    ensures each { OfEachAsk StaysWhole }
{}

/// One number and 32 receipts are given at once, at most, but by a completion one of each for each output to a
/// queue, and by a renewal one receipt for each message.
pub fn counters_move_little()
    ensures { (part : QueuePart) (ask : Ask) (m : ℕ) (after : QueuePart) (answer : QueueDone)
        → outcome part ask m ≡ Makes after answer → MovesLittle part m ask after answer }
{}

/// A message whose row isn't live expires, a live one is changed or ends as the ask and its answer say, a put, a
/// completion and a poisoning make messages, and an end stays.
pub fn messages_go_on_as_answered()
    ensures { OfEachAsk GoesOnAsAnswered }
{}

/// Messages are numbered from 1 on, each number given once and none left out.
pub fn numbers_are_given_in_turn()
    ensures { OfEachAsk GivesNumbersInTurn }
{}

/// Receipts are given from 1 on, each once and none left out.
pub fn receipts_are_given_in_turn()
    ensures { OfEachAsk GivesReceiptsInTurn }
{}

/// No old receipt changes a message: a live one stays as it is, unless a take of its queue lists it, its queue
/// is cleared, or the ask names it with its newest receipt.
pub fn receipts_guard_messages()
    ensures { OfEachAsk KeepsUntouched }
{}

/// A message that changes has a newer receipt.
pub fn receipts_only_rise()
    ensures { OfEachAsk RaisesReceipts }
{}

/// What a take lists was visible in its queue, and has its text and one more count.
pub fn takes_list_visible_messages()
    ensures { OfEachAsk TakesVisible }
{}

/// A take lists no more messages than were asked for.
pub fn takes_list_few()
    ensures { TakesFew }
{}

/// What a peek lists stands in order of number.
pub fn peeks_list_in_order_of_number()
    ensures { (part : QueuePart) → IsWhole part → ListsInOrder part }
{}

/// A message has a place at every moment exactly where its number was given.
pub fn places_are_known()
    ensures { (part : QueuePart) → IsWhole part → IsKnownByNumber part }
{}

/// What an ask and its answer tell of a message is what becomes of its row: who is held, freed, removed or moved
/// has a live row, a message that comes is new, and a row goes on with its queue and its expiry, and the newest
/// hold.
pub fn messages_are_as_told()
    ensures { OfEachAsk TellsOfMessages }
{}

/// No text that is taken in is longer than a message.
pub fn texts_are_short()
    ensures { OfEachAsk HasShortTexts }
{}

/// Each ask that changes something has its own answer.
pub fn asks_have_their_answers()
    ensures { AnswersTheAsk }
{}
