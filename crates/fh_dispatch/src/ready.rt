// The jobs that are ready.
ghost use Rattle.std.specs.Prelude.{◌≡◌, ◌+◌, ◌<◌, ◌≤◌, [], length, slice_range, vec_len, vec_capacity, MatchOption, OnOk};
ghost use Rattle.std.specs.List.{remove};
ghost use Rattle.std.specs.List.Sorted.{IsPartitionPoint};
ghost use Rattle.fh_dispatch.specs.Ready.{AreInOrder, jobs_of, with_job, without_first, without_jobs_of};

use fh_timers::TimerRun;
use std::alloc::{AllocError, Global};
use std::marker::Model;

/// What a function is to run for.
#[derive(Clone, Copy, Debug, PartialEq, Eq)]
pub enum Job {
    /// A message that is held with this receipt.
    Message { number: u64, receipt: u64 },
    Timer { run: TimerRun },
}

/// A job of a function that is ready to begin.
#[derive(Clone, Copy, Debug, PartialEq, Eq)]
pub struct ReadyJob {
    /// The function's number.
    pub function: u64,
    pub job: Job,
}

/// Ready jobs in order of function number, and those of a function in the order in which they came.
#[derive(Drop)]
pub(crate) struct ReadyJobs {
    jobs: Vec<ReadyJob>,
}

#[derive(Clone, Copy)]
struct Bounds {
    start: usize,
    end: usize,
}

impl Model for ReadyJobs {
    ghost use Rattle.std.specs.Prelude.{◌-◌, vec_len, vec_capacity};
    ghost use Rattle.fh_rows.specs.Rows.{RowsState};
    ghost use Rattle.fh_dispatch.specs.declared.ready.ReadyJob.{ReadyJob};
    ghost use Rattle.fh_dispatch.specs.Ready.{AreInOrder};

    ghost Value = { RowsState ReadyJob };

    ghost view = { λ r. record { rows = r.jobs.items; room = vec_capacity r.jobs - vec_len r.jobs } };

    ghost invariant = { λ r. AreInOrder r.jobs.items };
}

impl ReadyJobs {
    /// No jobs. Takes no memory.
    pub(crate) fn new(alloc: Global) -> ReadyJobs
        ensures { result.rows ≡ [] }
    {
        ReadyJobs {
            jobs: Vec::new(alloc),
        }
    }

    /// The jobs of a function. Takes no memory.
    pub(crate) fn of(&self, function: u64) -> &[ReadyJob]
        ensures { result.now ≡ jobs_of function self.now.rows }
    {
        let part = bounds_of(&self.jobs, function);
        &self.jobs[part.start..part.end]
    }

    /// Makes room for so many more jobs.
    pub(crate) fn reserve(&mut self, more: usize) -> Result<(), AllocError>
        ensures jobs { self.new.rows ≡ self.old.rows }
        ensures room { OnOk result (more ≤ self.new.room) }
    {
        self.jobs.reserve(more)
    }

    /// Puts a job behind those that its function has. Takes no memory.
    pub(crate) fn add(&mut self, job: ReadyJob)
        requires { 1 ≤ self.old.room }
        ensures jobs { self.new.rows ≡ with_job job self.old.rows }
        ensures room { self.old.room ≤ self.new.room + 1 }
    {
        put(&mut self.jobs, job);
    }

    /// Takes the first job of a function out, where it has one. Takes no memory.
    pub(crate) fn take_first(&mut self, function: u64)
        ensures jobs { self.new.rows ≡ without_first function self.old.rows }
        ensures room { self.old.room ≤ self.new.room }
    {
        take_first(&mut self.jobs, function);
    }

    /// Takes all jobs out. Takes no memory.
    pub(crate) fn clear(&mut self)
        ensures jobs { self.new.rows ≡ [] }
        ensures room { self.old.room ≤ self.new.room }
    {
        self.jobs.clear();
    }

    /// Takes all jobs of a function out. Takes no memory.
    pub(crate) fn drop_of(&mut self, function: u64)
        ensures jobs { self.new.rows ≡ without_jobs_of function self.old.rows }
        ensures room { self.old.room ≤ self.new.room }
    {
        take_out(&mut self.jobs, function);
    }
}

// Where the jobs of a function begin and end.
fn bounds_of(jobs: &[ReadyJob], function: u64) -> Bounds
    requires { AreInOrder jobs.now }
    ensures order { result.start ≤ result.end }
    ensures within { result.end ≤ length jobs.now }
    ensures part { jobs_of function jobs.now ≡ slice_range jobs.now result.start result.end }
{
    Bounds {
        start: place_before(jobs, function),
        end: place_behind(jobs, function),
    }
}

// Puts a job behind those of its function, where there is room for one more.
fn put(jobs: &mut Vec<ReadyJob>, job: ReadyJob)
    requires ordered { AreInOrder jobs.old.items }
    requires room { vec_len jobs.old < vec_capacity jobs.old }
    ensures jobs { jobs.new.items ≡ with_job job jobs.old.items }
    ensures ordered { AreInOrder jobs.new.items }
    ensures more { vec_len jobs.new ≡ vec_len jobs.old + 1 }
    ensures room { vec_capacity jobs.old ≤ vec_capacity jobs.new }
{
    let place = place_behind(jobs, job.function);
    let _added = jobs.insert(place, job);
}

// How many jobs are of functions before this one.
fn place_before(jobs: &[ReadyJob], function: u64) -> usize
    requires { AreInOrder jobs.now }
    ensures within { result ≤ length jobs.now }
    ensures place { IsPartitionPoint (λ job. job.function < function) (λ job. function ≤ job.function)
        jobs.now result }
{
    jobs.partition_point(|job| job.function < function)
}

// How many jobs are of this function or of one before it.
fn place_behind(jobs: &[ReadyJob], function: u64) -> usize
    requires { AreInOrder jobs.now }
    ensures within { result ≤ length jobs.now }
    ensures place { IsPartitionPoint (λ job. job.function ≤ function) (λ job. function < job.function)
        jobs.now result }
{
    jobs.partition_point(|job| job.function <= function)
}

// Takes the first job of a function out, where it has one.
#[tactic(auto, using(crate::proofs::FirstJobs::ordered_without_first))]
fn take_first(jobs: &mut Vec<ReadyJob>, function: u64)
    requires { AreInOrder jobs.old.items }
    ensures jobs { jobs.new.items ≡ without_first function jobs.old.items }
    ensures ordered { AreInOrder jobs.new.items }
    ensures fewer { vec_len jobs.new ≤ vec_len jobs.old }
    ensures room { vec_capacity jobs.new ≡ vec_capacity jobs.old }
{
    if let Some(place) = first_place(jobs, function) {
        let _gone = jobs.remove(place);
    }
}

// Where the first job of a function stands, if it has one.
fn first_place(jobs: &[ReadyJob], function: u64) -> Option<usize>
    requires { AreInOrder jobs.now }
    ensures { MatchOption result (jobs.now ≡ without_first function jobs.now)
        (λ place. (place < length jobs.now) × (remove jobs.now place ≡ without_first function jobs.now)) }
{
    let place = place_before(jobs, function);
    if jobs.len() <= place {
        return None;
    }
    if jobs[place].function == function {
        return Some(place);
    }
    None
}

// Takes the jobs of a function out.
fn take_out(jobs: &mut Vec<ReadyJob>, function: u64)
    requires { AreInOrder jobs.old.items }
    ensures jobs { jobs.new.items ≡ without_jobs_of function jobs.old.items }
    ensures ordered { AreInOrder jobs.new.items }
    ensures fewer { vec_len jobs.new ≤ vec_len jobs.old }
    ensures room { vec_capacity jobs.new ≡ vec_capacity jobs.old }
{
    jobs.retain(|job| job.function != function);
}
