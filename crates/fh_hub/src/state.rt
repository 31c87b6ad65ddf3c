// What a hub keeps in memory.
ghost use Rattle.std.specs.Prelude.{◌≡◌, ℕ, ◌-◌, ◌^◌, ◌≤◌, ◌∷◌, ◌++◌, [], min, max, length, IfOk, IfErr, OnErr};
ghost use Rattle.fh_base.specs.Moments.{greatest_moment};
ghost use Rattle.fh_event.specs.Entries.{IsEntry, HasShortTexts, GivesGoodMasks, GivesShortList};
ghost use Rattle.fh_journal.specs.Journal.{gate_behind};
ghost use Rattle.fh_queues.specs.Places.{place_of};
ghost use Rattle.fh_hub.specs.Asked.{AsksAll, asked};
ghost use Rattle.fh_hub.specs.World.{Recorded, empty, step, step_at, effective_moment, full_rule, size_rule};
ghost use Rattle.fh_hub.specs.History.{entry_of};
ghost use Rattle.fh_hub.specs.Replay.{Entry, entry_for};
ghost use Rattle.fh_hub.specs.State.{world_of, IsIdle, IsUnchanged, IsFaithful};
ghost use Rattle.fh_hub.specs.StoreEdits.{asks_of, parts_of};
ghost use Rattle.fh_hub.specs.Plans.{entry_at, step_of_asks, IsPlanFor, IsPlannedAs, IsFaultOfStep, IsStaged};

use crate::asking::Asked;
use crate::history::History;
use crate::plan::{Change, Plan, Staged};
use crate::replies::reply_of;
use crate::stores::{StoreAsks, Stores};
use fh_base::{Bytes, LONGEST_PAYLOAD, Moment, NoMemory, Rule};
use fh_event::{Command, Place, PlanFault, Reply, encode, entry_size};
use fh_journal::{FIRST_GATE, gate_behind, room_behind};
use std::alloc::Global;
use std::marker::Model;

/// The stores, the last moment, the place of the journal's next gate, and the history.
#[derive(Drop)]
pub struct State {
    stores: Stores,
    last: u64,
    gate: u64,
    history: History,
}

impl Model for State {
    ghost use Rattle.fh_hub.specs.State.{HubState, IsBounded};

    ghost Value = { HubState };

    ghost view = { λ s. record {
      stores = s.stores;
      last = s.last;
      gate = s.gate;
      history = s.history.entries;
      room = s.history.room;
    } };

    ghost invariant = { λ s. IsBounded (record {
      stores = s.stores;
      last = s.last;
      gate = s.gate;
      history = s.history.entries;
      room = s.history.room;
    }) };
}

impl State {
    /// Nothing yet. Takes no memory.
    pub fn new(alloc: Global) -> State
        ensures history { result.history ≡ [] }
        ensures world { world_of result ≡ empty }
        ensures idle { IsIdle result }
        ensures faithful { IsFaithful result }
    {
        State {
            stores: Stores::new(alloc),
            last: 0,
            gate: FIRST_GATE,
            history: History::new(alloc),
        }
    }

    /// The history.
    pub fn history(&self) -> &History
        ensures { result.now.entries ≡ self.now.history }
    {
        &self.history
    }

    /// The moment of the last entry, in milliseconds.
    pub fn last(&self) -> u64
        ensures { result ≡ self.now.last }
    {
        self.last
    }

    /// The place of the journal's next gate, in bytes.
    pub fn gate(&self) -> u64
        ensures { result ≡ self.now.gate }
    {
        self.gate
    }

    /// Where a message is at the effective moment.
    pub fn place_of(&self, number: u64, now: Moment) -> Place
        ensures { result ≡ place_of self.now.stores.queues.part number (effective_moment (world_of self.now) now) }
    {
        self.stores.place_of(number, effective(now, self.last))
    }

    /// What a command comes to at the moment that is handed in, in milliseconds.
    #[tactic(auto, unfolding(crate::specs::World::step))]
    pub fn plan(&self, alloc: Global, command: &Command, now: u64) -> Result<Plan, PlanFault>
        requires { IsIdle self.now }
        ensures ok { IfOk result (IsPlanFor self.now
            (step (world_of self.now) command.now now) (entry_at self.now command.now now)) }
        ensures err { IfErr result
            (λ fault. IsFaultOfStep fault (step (world_of self.now) command.now now)) }
    {
        let Some(now) = Moment::new(now) else {
            return Err(PlanFault::Rule(Rule::MomentTooLate));
        };
        self.plan_at(alloc, command, effective(now, self.last))
    }

    // What a command comes to that acts at this moment.
    #[tactic(auto, unfolding(crate::specs::World::step_at))]
    fn plan_at(&self, alloc: Global, command: &Command, m: Moment) -> Result<Plan, PlanFault>
        requires idle { IsIdle self.now }
        requires own_moment { self.now.last ≤ m }
        ensures ok { IfOk result (IsPlanFor self.now
            (step_at (world_of self.now) command.now m) (entry_for command.now m)) }
        ensures err { IfErr result
            (λ fault. IsFaultOfStep fault (step_at (world_of self.now) command.now m)) }
    {
        match Asked::of(alloc, &self.stores, command, m)? {
            Asked::Refuses(rule) => Err(PlanFault::Rule(rule)),
            Asked::Reads(reply) => Ok(Plan::Reads(reply)),
            Asked::Notes(note) => self.plan_asks(alloc, command, &note.asks(), m),
            Asked::Asks(asks) => self.plan_asks(alloc, command, &asks, m),
        }
    }

    fn plan_asks(
        &self,
        alloc: Global,
        command: &Command,
        asks: &StoreAsks<'_>,
        m: Moment,
    ) -> Result<Plan, PlanFault>
        requires idle { IsIdle self.now }
        requires own_moment { self.now.last ≤ m }
        requires asks { asked (parts_of self.now.stores) command.now m ≡ AsksAll (asks_of asks.now) }
        ensures ok { IfOk result (IsPlanFor self.now
            (step_of_asks self.now command.now (asks_of asks.now) m) (entry_for command.now m)) }
        ensures err { IfErr result
            (λ fault. IsFaultOfStep fault (step_of_asks self.now command.now (asks_of asks.now) m)) }
    {
        let stores = self.stores.plan(alloc, asks, m)?;
        if stores.is_quiet() {
            return Ok(Plan::Quiet(reply_of(stores.into_done())));
        }
        let full = self.stores.too_full(asks, m);
        if let Some(rule) = self.full_rule(entry_size(command), full) {
            return Err(PlanFault::Rule(rule));
        }
        Ok(Plan::Records(Change { stores, moment: m }))
    }

    // What an entry of so many bytes is too large for, or its stores or the journal too full for.
    fn full_rule(&self, size: u64, full: Option<Rule>) -> Option<Rule>
        ensures { (long : ℕ) → size ≡ min long (2 ^ 64 - 1) → result ≡ full_rule self.now.gate long full }
    {
        if let Some(rule) = size_rule(size) {
            return Some(rule);
        }
        if full.is_some() {
            return full;
        }
        let length = room_behind(self.gate, size)?;
        Some(Rule::JournalFull { length })
    }

    /// Takes all the memory of a change whose entry has these bytes.
    pub fn stage(&mut self, change: Change, payload: Bytes) -> Result<Staged, NoMemory>
        ghost e: { Entry }
        requires idle { IsIdle self.old }
        requires planned { IsPlannedAs self.old change e }
        requires moment { change.moment ≡ e.moment }
        requires spelled { IsEntry payload e.moment e.command }
        ensures same { IsUnchanged self.old self.new }
        ensures err { OnErr result (IsIdle self.new) }
        ensures ok { IfOk result
            (λ staged. IsStaged self.new staged e × (staged.payload ≡ payload)) }
        ensures gate { self.new.gate ≡ self.old.gate }
    {
        let Change { stores, moment } = change;
        self.history.reserve()?;
        let stores = self.stores.stage(stores)?;
        Ok(Staged {
            stores,
            payload,
            moment,
        })
    }

    /// Makes a staged change. Takes no memory.
    pub fn settle(&mut self, staged: Staged) -> Reply
        ghost e: { Entry }
        requires { IsStaged self.old staged e }
        ensures step { step (world_of self.old) e.command e.moment ≡ Recorded (world_of self.new) result }
        ensures idle { IsIdle self.new }
        ensures history { self.new.history ≡ self.old.history ++ e ∷ [] }
        ensures gate { self.new.gate ≡ gate_behind self.old.gate (length staged.payload) }
        ensures faithful { IsFaithful self.old → IsFaithful self.new }
    {
        let Staged {
            stores,
            payload,
            moment,
        } = staged;
        let done = self.stores.settle(stores);
        self.last = moment.ms();
        self.gate = gate_behind(self.gate, payload.len() as u64);
        self.history.add(payload);
        reply_of(done)
    }

    /// Lets a staged change go. Takes no memory.
    pub fn unstage(&mut self, staged: Staged)
        ghost e: { Entry }
        requires { IsStaged self.old staged e }
        ensures same { IsUnchanged self.old self.new }
        ensures idle { IsIdle self.new }
        ensures gate { self.new.gate ≡ self.old.gate }
    {
        let Staged {
            stores,
            payload: _,
            moment: _,
        } = staged;
        self.stores.unstage(stores);
    }
}

fn effective(now: Moment, last: u64) -> Moment
    requires { last ≤ greatest_moment }
    ensures { result ≡ max now last }
{
    if last <= now.ms() {
        return now;
    }
    Moment::new(last).unwrap()
}

// An entry is too large for a frame.
fn size_rule(size: u64) -> Option<Rule>
    ensures { (long : ℕ) → size ≡ min long (2 ^ 64 - 1) → result ≡ size_rule long }
{
    if (LONGEST_PAYLOAD as u64) < size {
        return Some(Rule::TooLarge {
            size,
            limit: LONGEST_PAYLOAD as u64,
        });
    }
    None
}

/// The bytes of a command's entry.
pub(crate) fn payload_of(alloc: Global, command: &Command, m: Moment) -> Result<Bytes, NoMemory>
    requires texts { HasShortTexts command.now }
    requires masks { GivesGoodMasks command.now }
    requires list { GivesShortList command.now }
    ensures spelled { IfOk result (λ payload. IsEntry payload m command.now) }
    ensures entry { IfOk result (λ payload. entry_of payload ≡ entry_for command.now m) }
{
    let mut bytes = Vec::new(alloc);
    encode(command, m, &mut bytes)?;
    Ok(Bytes::new(bytes))
}
