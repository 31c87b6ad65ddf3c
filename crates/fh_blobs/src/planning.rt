// What an ask comes to, before anything changes.
ghost use Rattle.std.specs.Prelude.{◌≡◌, ◌∷◌, [], IfOk};
ghost use Rattle.fh_blobs.specs.Asks.{ask_of};
ghost use Rattle.fh_blobs.specs.Acts.{new_row, receipt_of};
ghost use Rattle.fh_blobs.specs.Outcome.{puts, putting, removing, noting, putting_all, made_by, outcome};
ghost use Rattle.fh_blobs.specs.Edits.{IsIdle, HasNumbers};
ghost use Rattle.fh_blobs.specs.Faults.{IsPlanOf};

use crate::act::Act;
use crate::blob::KeptBlob;
use crate::receipt::NewReceipt;
use crate::rules::{text_rule, texts_rule};
use crate::{BlobAsk, BlobChange, BlobDone, BlobRow, Blobs, NewBlob, Receipt};
use fh_base::{Moment, NoMemory, QueueName, Rule, Text};
use fh_event::PlanFault;
use std::alloc::Global;

impl Blobs {
    /// The change that an ask makes, or the rule that refuses it. A change that is quiet makes nothing. No
    /// ask depends on the moment.
    #[tactic(auto, unfolding(crate::specs::Outcome::acting, crate::specs::Outcome::outcome))]
    pub fn plan(&self, alloc: Global, ask: &BlobAsk<'_>, m: Moment) -> Result<BlobChange, PlanFault>
        requires idle { IsIdle self.now }
        requires numbers { HasNumbers self.now.part }
        ensures { IsPlanOf self.now.part (outcome self.now.part (ask_of ask.now) m) result }
    {
        match ask {
            BlobAsk::Put {
                container,
                name,
                text,
            } => self.plan_put(alloc, container, name, text),
            BlobAsk::Remove { container, name } => self.plan_remove(alloc, container, name),
            BlobAsk::Note {
                function,
                container,
                name,
            } => self.plan_note(alloc, *function, container, name),
            BlobAsk::PutAll { blobs } => self.plan_put_all(alloc, blobs),
            BlobAsk::Nothing => Ok(BlobChange {
                acts: Vec::new(alloc),
                done: BlobDone::Nothing,
            }),
        }
    }

    fn plan_put(
        &self,
        alloc: Global,
        container: &QueueName,
        name: &str,
        text: &Text,
    ) -> Result<BlobChange, PlanFault>
        ensures { IsPlanOf self.now.part
            (made_by self.now.part (putting self.now.part container.now name.now text.now)) result }
    {
        if let Some(rule) = text_rule(text) {
            return Err(PlanFault::Rule(rule));
        }
        let blob = new_row(alloc, container, name, text)?;
        let acts = one_act(alloc, Act::Put { blob })?;
        Ok(BlobChange {
            acts,
            done: BlobDone::Stored {
                version: self.next_version,
            },
        })
    }

    fn plan_remove(
        &self,
        alloc: Global,
        container: &QueueName,
        name: &str,
    ) -> Result<BlobChange, PlanFault>
        ensures { IsPlanOf self.now.part
            (made_by self.now.part (removing self.now.part container.now name.now)) result }
    {
        if self.get(container, name).is_none() {
            return Err(PlanFault::Rule(Rule::BlobNotFound));
        }
        let acts = one_act(
            alloc,
            Act::Remove {
                container: *container,
                name: Text::from_str(alloc, name)?,
            },
        )?;
        Ok(BlobChange {
            acts,
            done: BlobDone::Removed,
        })
    }

    fn plan_note(
        &self,
        alloc: Global,
        function: u64,
        container: &QueueName,
        name: &str,
    ) -> Result<BlobChange, PlanFault>
        ensures { IsPlanOf self.now.part
            (made_by self.now.part (noting self.now.part function container.now name.now)) result }
    {
        let Some(row) = self.get(container, name) else {
            return Err(PlanFault::Rule(Rule::BlobNotFound));
        };
        if self.is_noted(function, row) {
            return Ok(BlobChange {
                acts: Vec::new(alloc),
                done: BlobDone::Noted,
            });
        }
        let receipt = receipt_of(alloc, function, row)?;
        let acts = one_act(alloc, Act::Note { receipt })?;
        Ok(BlobChange {
            acts,
            done: BlobDone::NowNoted {
                version: row.version,
            },
        })
    }

    fn plan_put_all(&self, alloc: Global, blobs: &[NewBlob]) -> Result<BlobChange, PlanFault>
        ensures { IsPlanOf self.now.part
            (made_by self.now.part (putting_all self.now.part blobs.now)) result }
    {
        if let Some(rule) = texts_rule(blobs) {
            return Err(PlanFault::Rule(rule));
        }
        let acts = puts(alloc, blobs)?;
        Ok(BlobChange {
            acts,
            done: BlobDone::AllStored {
                first: self.next_version,
                count: blobs.len() as u64,
            },
        })
    }
}

// The row of a blob that is put, without its version.
fn new_row(
    alloc: Global,
    container: &QueueName,
    name: &str,
    text: &Text,
) -> Result<KeptBlob, NoMemory>
    ensures { IfOk result (λ kept. kept ≡ new_row container.now name.now text.now) }
{
    let blob = Text::from_str(alloc, name)?;
    let text = text.copy(alloc)?;
    KeptBlob::new(
        alloc,
        BlobRow {
            container: *container,
            blob,
            version: 0,
            text,
        },
    )
}

fn receipt_of(alloc: Global, function: u64, row: &BlobRow) -> Result<NewReceipt, NoMemory>
    ensures { IfOk result (λ kept. kept ≡ receipt_of function row.now) }
{
    let blob = row.blob.copy(alloc)?;
    NewReceipt::new(
        alloc,
        Receipt {
            function,
            container: row.container,
            blob,
            version: row.version,
        },
    )
}

fn one_act(alloc: Global, act: Act) -> Result<Vec<Act>, NoMemory>
    ensures { IfOk result (λ acts. acts.items ≡ act ∷ []) }
{
    let mut acts = Vec::new(alloc);
    acts.push(act)?;
    Ok(acts)
}

fn puts(alloc: Global, blobs: &[NewBlob]) -> Result<Vec<Act>, NoMemory>
    ensures { IfOk result (λ acts. acts.items ≡ puts blobs.now) }
{
    let mut acts = Vec::new(alloc);
    for new in blobs {
        let blob = new_row(alloc, &new.container, new.name.as_str(), &new.text)?;
        acts.push(Act::Put { blob })?;
    }
    Ok(acts)
}
