// How a planned change is staged, and then settled or let go.
ghost use Rattle.std.specs.Prelude.{◌≡◌, ◌+◌, ◌<◌, ◌≤◌, ◌^◌, IfOk, OnErr};
ghost use Rattle.fh_blobs.specs.Acts.{by_acts, acted, with_blob, without_blob, with_receipt};
ghost use Rattle.fh_blobs.specs.Marks.{with_note};
ghost use Rattle.fh_blobs.specs.Edits.{HasNumbers, IsIdle, IsStaged, made};

use crate::act::Act;
use crate::blob::{BlobKey, KeptBlob};
use crate::receipt::NewReceipt;
use crate::{BlobChange, BlobDone, Blobs, StagedBlobs};
use fh_base::{NoMemory, QueueName};

impl Blobs {
    /// Takes all the memory of a change that isn't quiet.
    pub fn stage(&mut self, change: BlobChange) -> Result<StagedBlobs, NoMemory>
        requires idle { IsIdle self.old }
        requires numbers { HasNumbers self.old.part }
        ensures part { self.new.part ≡ self.old.part }
        ensures change { IfOk result
            (λ staged. made self.new staged ≡ (by_acts self.old.part change.acts, change.done)) }
        ensures staged { IfOk result (λ staged. IsStaged self.new staged) }
        ensures err { OnErr result (IsIdle self.new) }
    {
        let BlobChange { acts, done } = change;
        // Each act adds one blob, or one receipt with its mark, at most.
        self.blobs.reserve(acts.len())?;
        self.receipts.reserve(acts.len())?;
        self.marks.reserve(acts.len())?;
        Ok(StagedBlobs { acts, done })
    }

    /// Makes a staged change. Takes no memory.
    pub fn settle(&mut self, staged: StagedBlobs) -> BlobDone
        requires { IsStaged self.old staged }
        ensures after { (self.new.part, result) ≡ made self.old staged }
        ensures idle { IsIdle self.new }
    {
        let StagedBlobs { acts, done } = staged;
        for act in acts {
            self.act(act);
        }
        done
    }

    /// Lets a staged change go. Takes no memory.
    pub fn unstage(&mut self, staged: StagedBlobs)
        requires { IsStaged self.old staged }
        ensures part { self.new.part ≡ self.old.part }
        ensures idle { IsIdle self.new }
    {
        let StagedBlobs { acts: _, done: _ } = staged;
    }

    #[tactic(auto, unfolding(crate::specs::Acts::acted))]
    fn act(&mut self, act: Act)
        requires blobs { 1 ≤ self.old.blob_room }
        requires receipts { 1 ≤ self.old.receipt_room }
        requires marks { 1 ≤ self.old.marks.mark_room }
        requires functions { 1 ≤ self.old.marks.function_room }
        requires numbers { self.old.part.next_version + 1 < 2 ^ 64 }
        ensures part { self.new.part ≡ acted self.old.part act }
        ensures blobs { self.old.blob_room ≤ self.new.blob_room + 1 }
        ensures receipts { self.old.receipt_room ≤ self.new.receipt_room + 1 }
        ensures marks { self.old.marks.mark_room ≤ self.new.marks.mark_room + 1 }
        ensures functions { self.old.marks.function_room ≤ self.new.marks.function_room + 1 }
        ensures numbers { self.new.part.next_version ≤ self.old.part.next_version + 1 }
    {
        match act {
            Act::Put { blob } => self.put(blob),
            Act::Remove { container, name } => self.remove(container, name.as_str()),
            Act::Note { receipt } => self.note(receipt),
        }
    }

    fn put(&mut self, blob: KeptBlob)
        requires blobs { 1 ≤ self.old.blob_room }
        requires numbers { self.old.part.next_version + 1 < 2 ^ 64 }
        ensures part { self.new.part ≡ with_blob blob self.old.part }
        ensures blobs { self.old.blob_room ≤ self.new.blob_room + 1 }
        ensures receipts { self.new.receipt_room ≡ self.old.receipt_room }
        ensures marks { self.old.marks.mark_room ≤ self.new.marks.mark_room }
        ensures functions { self.new.marks.function_room ≡ self.old.marks.function_room }
    {
        let mut blob = blob;
        blob.set_version(self.next_version);
        let row = blob.row();
        self.marks.remove(&row.container, row.blob.as_str());
        self.blobs.set(blob);
        self.next_version += 1;
    }

    fn remove(&mut self, container: QueueName, name: &str)
        ensures part { self.new.part ≡ without_blob container name.now self.old.part }
        ensures blobs { self.old.blob_room ≤ self.new.blob_room }
        ensures receipts { self.new.receipt_room ≡ self.old.receipt_room }
        ensures marks { self.old.marks.mark_room ≤ self.new.marks.mark_room }
        ensures functions { self.new.marks.function_room ≡ self.old.marks.function_room }
    {
        self.marks.remove(&container, name);
        self.blobs.remove(&BlobKey { container, name });
    }

    fn note(&mut self, new: NewReceipt)
        requires receipts { 1 ≤ self.old.receipt_room }
        requires marks { 1 ≤ self.old.marks.mark_room }
        requires functions { 1 ≤ self.old.marks.function_room }
        ensures part { self.new.part ≡ with_receipt new self.old.part }
        ensures marked { self.new.marks.marks ≡ with_note self.old.part new self.old.marks.marks }
        ensures blobs { self.new.blob_room ≡ self.old.blob_room }
        ensures receipts { self.old.receipt_room ≤ self.new.receipt_room + 1 }
        ensures marks { self.old.marks.mark_room ≤ self.new.marks.mark_room + 1 }
        ensures functions { self.old.marks.function_room ≤ self.new.marks.function_room + 1 }
    {
        let NewReceipt { receipt, mark } = new;
        let is_current = self.is_current(receipt.row());
        self.receipts.set(receipt);
        self.marks.set_if(is_current, mark);
    }
}
