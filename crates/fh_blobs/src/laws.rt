//! What holds of each ask that changes something, where the part before is whole. The first law carries that
//! over every list of asks, from no blobs on.

ghost use Rattle.fh_blobs.specs.Part.{BlobPart, no_blobs};
ghost use Rattle.fh_blobs.specs.Laws.{IsWhole, OfEachAsk, StaysWhole, GivesVersionsInTurn, MakesReceiptsOnce, HasNoReceipt, MovesVersions, AnswersTheAsk, NotesTheCurrentVersion};

/// Blobs and receipts have versions that were given.
pub fn parts_stay_whole()
    ensures none { IsWhole no_blobs }
    ensures each { OfEachAsk StaysWhole }
{}

/// Versions are given from 1 on, each once and none left out.
pub fn versions_are_given_in_turn()
    ensures { OfEachAsk GivesVersionsInTurn }
{}

/// An ask takes no more versions than it puts texts, whether the part before is whole or not.
pub fn versions_move_little()
    ensures { MovesVersions }
{}

/// The receipt of a function for a version of a blob is made where it isn't there, and stays.
pub fn receipts_are_made_once()
    ensures { OfEachAsk MakesReceiptsOnce }
{}

/// A version that is still to be given has no receipt.
pub fn new_versions_have_no_receipt()
    ensures { (part : BlobPart) → IsWhole part → HasNoReceipt part }
{}

/// Each ask that changes something has its own answer.
pub fn asks_have_their_answers()
    ensures { AnswersTheAsk }
{}

/// What a function notes is the blob as it is.
pub fn current_versions_are_noted()
    ensures { OfEachAsk NotesTheCurrentVersion }
{}
