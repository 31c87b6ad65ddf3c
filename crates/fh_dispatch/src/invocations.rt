// The invocations that are running, as they are kept.
ghost use Rattle.std.specs.Prelude.{◌≡◌, ℕ, ◌+◌, ◌-◌, ◌<◌, ◌≤◌, ◌^◌, [], length, map, option_copied, slice_index, vec_len, IfOk, OnOk};
ghost use Rattle.fh_dispatch.specs.Invocations.{run_of, runs_of, first_due, due_by, lowest, with_run, with_renewal, without_run, without_runs_of};
ghost use Rattle.fh_dispatch.specs.Runs.{function_at, key_of, HasKey, HasNoKeys, IsLengthened, IsFirstKey, IsNextDue};

use crate::Running;
use crate::running::{OfFunction, Renewal, RunKey};
use fh_base::NoMemory;
use fh_minima::Minima;
use fh_rows::Rows;
use std::alloc::Global;
use std::marker::Model;

// The key of an invocation that isn't running.
const NO_KEY: u64 = u64::MAX;

// The greatest key of one that is.
const LAST_KEY: u64 = u64::MAX - 1;

/// Running invocations in order of number. Numbers are given in turn from 1 on.
///
/// They are kept in order of function and number. The function of each number that was given is kept too, and
/// for each number a key: when it is due, or that it isn't running.
#[derive(Drop)]
pub struct Invocations {
    rows: Rows<Running>,
    functions: Vec<u64>,
    dues: Minima,
    room: usize,
}

impl Model for Invocations {
    ghost use Rattle.std.specs.Prelude.{◌+◌, ◌-◌, vec_len, vec_capacity, length};
    ghost use Rattle.fh_dispatch.specs.Invocations.{InvocationsState};
    ghost use Rattle.fh_dispatch.specs.Runs.{IsHeld, in_turn};

    ghost Value = { InvocationsState };

    ghost view = { λ v. record {
      running = in_turn (length v.functions.items) v.rows.rows;
      next = length v.functions.items + 1;
      room = v.room;
    } };

    ghost invariant = { λ v. IsHeld v.rows.rows v.functions.items v.dues v.room v.rows.room
        (vec_capacity v.functions - vec_len v.functions) };
}

impl Invocations {
    /// None is running, and none was. Takes no memory.
    pub fn new(alloc: Global) -> Invocations
        ensures running { result.running ≡ [] }
        ensures next { result.next ≡ 1 }
    {
        Invocations {
            rows: Rows::new(alloc),
            functions: Vec::new(alloc),
            dues: Minima::new(alloc),
            room: 0,
        }
    }

    /// The number that the next one gets. Takes no memory.
    pub fn next(&self) -> u64
        ensures { result ≡ self.now.next }
    {
        self.functions.len() as u64 + 1
    }

    /// The invocation of a number, where it is running. Takes no memory.
    pub fn get(&self, invocation: u64) -> Option<&Running>
        ensures { option_copied result ≡ run_of invocation self.now.running }
    {
        let function = function_at(&self.functions, invocation)?;
        self.rows.get(&RunKey {
            function,
            invocation,
        })
    }

    /// Those of the function of this number, in order of their own numbers. Takes no memory.
    pub fn of(&self, function: u64) -> &[Running]
        ensures { result.now ≡ runs_of function self.now.running }
    {
        self.rows.all_at(&OfFunction { function })
    }

    /// The first one from a number on that is due at or before a moment in milliseconds. Takes no memory.
    pub fn first_due(&self, from: u64, most: u64) -> Option<&Running>
        requires { most < 2 ^ 64 - 2 }
        ensures first { option_copied result ≡ first_due from most self.now.running }
        ensures next { IsNextDue from most self.now.next self.now.running (option_copied result) }
    {
        let invocation = first_key(&self.dues, from, most)?;
        self.get(invocation)
    }

    /// Those that are due at or before a moment in milliseconds, in order of number.
    pub fn due_by(&self, alloc: Global, most: u64) -> Result<Vec<&Running>, NoMemory>
        requires { most < 2 ^ 64 - 2 }
        ensures { IfOk result (λ runs. map (λ run. run.now) runs.items ≡ due_by most self.now.running) }
    {
        let mut runs = Vec::new(alloc);
        let mut from = 0;
        while let Some(run) = self.first_due(from, most) {
            runs.push(run)?;
            from = run.invocation + 1;
        }
        Ok(runs)
    }

    /// The least number of a running invocation. Takes no memory.
    pub fn lowest(&self) -> Option<u64>
        ensures { result ≡ lowest self.now.running }
    {
        first_key(&self.dues, 0, LAST_KEY)
    }

    /// Makes room for so many more.
    pub fn reserve(&mut self, more: usize) -> Result<(), NoMemory>
        ensures running { self.new.running ≡ self.old.running }
        ensures next { self.new.next ≡ self.old.next }
        ensures room { OnOk result (more ≤ self.new.room) }
    {
        self.room = 0;
        self.rows.reserve(more)?;
        self.functions.reserve(more)?;
        lengthen(&mut self.dues, self.functions.len() + more)?;
        self.room = more;
        Ok(())
    }

    /// Another invocation, with the next number. Takes no memory.
    pub fn begin(&mut self, run: Running)
        requires room { 1 ≤ self.old.room }
        requires number { run.invocation ≡ self.old.next }
        ensures running { self.new.running ≡ with_run run self.old.running }
        ensures next { self.new.next ≡ self.old.next + 1 }
        ensures room { self.new.room + 1 ≡ self.old.room }
    {
        self.room -= 1;
        set_key(&mut self.dues, run.invocation, key_of(run.due));
        let _added = self.functions.push(run.function);
        self.rows.set(run);
    }

    /// Ends the invocation of a number, where it is running. Takes no memory.
    pub fn finish(&mut self, invocation: u64)
        ensures running { self.new.running ≡ without_run invocation self.old.running }
        ensures next { self.new.next ≡ self.old.next }
        ensures room { self.new.room ≡ self.old.room }
    {
        let Some(function) = function_at(&self.functions, invocation) else {
            return;
        };
        self.rows.remove(&RunKey {
            function,
            invocation,
        });
        set_key(&mut self.dues, invocation, NO_KEY);
    }

    /// Gives the invocation of a number, where it is running, another receipt of its message, and another moment
    /// in milliseconds at which it is due. Takes no memory.
    pub fn renew(&mut self, invocation: u64, receipt: u64, due: u64)
        ensures running { self.new.running ≡ with_renewal invocation receipt due self.old.running }
        ensures next { self.new.next ≡ self.old.next }
        ensures room { self.new.room ≡ self.old.room }
    {
        let Some(run) = self.get(invocation) else {
            return;
        };
        let key = RunKey {
            function: run.function,
            invocation,
        };
        self.rows.change(&key, &Renewal { receipt, due });
        set_key(&mut self.dues, invocation, key_of(due));
    }

    /// Ends all of the function of this number. Takes no memory.
    pub fn drop_of(&mut self, function: u64)
        ensures running { self.new.running ≡ without_runs_of function self.old.running }
        ensures next { self.new.next ≡ self.old.next }
        ensures room { self.new.room ≡ self.old.room }
    {
        let span = OfFunction { function };
        clear_keys(&mut self.dues, self.rows.all_at(&span));
        self.rows.remove_all(&span);
    }

    /// Ends all. Takes no memory.
    pub fn clear(&mut self)
        ensures running { self.new.running ≡ [] }
        ensures next { self.new.next ≡ self.old.next }
        ensures room { self.new.room ≡ self.old.room }
    {
        clear_keys(&mut self.dues, self.rows.as_slice());
        self.rows.clear();
    }
}

// The function of which the invocation of a number was begun.
#[tactic(auto, using(crate::proofs::Keys::function_from_place))]
fn function_at(functions: &[u64], invocation: u64) -> Option<u64>
    ensures { result ≡ function_at functions.now invocation }
{
    if invocation == 0 {
        return None;
    }
    functions.get((invocation - 1) as usize).copied()
}

// The key of an invocation that is running.
fn key_of(due: u64) -> u64
    ensures { result ≡ key_of due }
{
    due.min(LAST_KEY)
}

// The first number from one on whose key is at most that.
fn first_key(dues: &Minima, from: u64, most: u64) -> Option<u64>
    ensures { IsFirstKey dues.now from most result }
{
    let start = from.saturating_sub(1) as usize;
    if dues.len() < start {
        return None;
    }
    let place = dues.first(start, most)?;
    Some(place as u64 + 1)
}

// Changes the key of a number.
fn set_key(dues: &mut Minima, invocation: u64, key: u64)
    ensures len { length dues.new ≡ length dues.old }
    ensures key { HasKey invocation key dues.old dues.new }
{
    let Some(place) = invocation.checked_sub(1) else {
        return;
    };
    if (place as usize) < dues.len() {
        dues.set(place as usize, key);
    }
}

// Lets the keys of these go.
fn clear_keys(dues: &mut Minima, gone: &[Running])
    ensures len { length dues.new ≡ length dues.old }
    ensures keys { HasNoKeys gone.now dues.old dues.new }
{
    for run in gone {
        set_key(dues, run.invocation, NO_KEY);
    }
}

// Keys that count for nothing, up to that many in all.
fn lengthen(dues: &mut Minima, len: usize) -> Result<(), NoMemory>
    ensures keys { IsLengthened dues.old dues.new }
    ensures len { OnOk result (len ≤ length dues.new) }
{
    for _place in dues.len()..len {
        if dues.push(NO_KEY).is_err() {
            return Err(NoMemory);
        }
    }
    Ok(())
}
