// The rows, as they are kept.
ghost use Rattle.std.specs.Prelude.{◌≡◌, ◌+◌, ◌<◌, ◌≤◌, [], true, insert, slice_range, length, option_copied, vec_len, vec_capacity, OnOk};
ghost use Rattle.std.specs.List.{remove_range};
ghost use Rattle.fh_rows.specs.Rows.{row_at, rows_at, with_row, with_change_at, without_row_at, are_in_order};
ghost use Rattle.fh_rows.specs.Places.{IsPlace};

use crate::{Change, Key, Row, Span};
use std::alloc::{AllocError, Global};
use std::marker::Model;

/// Rows in order, each key once.
#[derive(Drop)]
pub struct Rows<R: Row> {
    rows: Vec<R>,
}

impl<R: Row> Model for Rows<R> {
    ghost use Rattle.std.specs.Prelude.{◌≡◌, ◌-◌, true, vec_len, vec_capacity};
    ghost use Rattle.fh_rows.specs.Rows.{RowsState, are_in_order};

    ghost Value = { RowsState R };

    ghost view = { λ r. record { rows = r.rows.items; room = vec_capacity r.rows - vec_len r.rows } };

    ghost invariant = { λ r. are_in_order R.order r.rows.items ≡ true };
}

#[derive(Clone, Copy)]
struct Bounds {
    start: usize,
    end: usize,
}

impl<R: Row> Rows<R> {
    /// No rows. Takes no memory.
    pub fn new(alloc: Global) -> Rows<R>
        ensures { result.rows ≡ [] }
    {
        Rows {
            rows: Vec::new(alloc),
        }
    }

    /// The rows in order.
    pub fn as_slice(&self) -> &[R]
        ensures { result.now ≡ self.now.rows }
    {
        self.rows.as_slice()
    }

    /// The row at a key.
    pub fn get<K: Key<R>>(&self, key: &K) -> Option<&R>
        ensures { option_copied result ≡ row_at (λ row. R.order row (K.as_row key.now)) self.now.rows }
    {
        match place_of(&self.rows, key) {
            Ok(place) => Some(&self.rows[place]),
            Err(_) => None,
        }
    }

    /// The rows of a part of the order.
    pub fn all_at<S: Span<R>>(&self, span: &S) -> &[R]
        ensures { result.now ≡ rows_at (S.place span.now) self.now.rows }
    {
        let part = bounds_of(&self.rows, span);
        &self.rows[part.start..part.end]
    }

    /// Makes room for so many more rows.
    pub fn reserve(&mut self, more: usize) -> Result<(), AllocError>
        ensures rows { self.new.rows ≡ self.old.rows }
        ensures room { OnOk result (more ≤ self.new.room) }
    {
        self.rows.reserve(more)
    }

    /// Puts a row in its place, instead of one with the same key. Takes no memory.
    pub fn set(&mut self, row: R)
        requires { 1 ≤ self.old.room }
        ensures rows { self.new.rows ≡ with_row R.order row self.old.rows }
        ensures room { self.old.room ≤ self.new.room + 1 }
    {
        put(&mut self.rows, row);
    }

    /// Takes the row at a key out, where there is one. Takes no memory.
    pub fn remove<K: Key<R>>(&mut self, key: &K)
        ensures rows { self.new.rows ≡ without_row_at (λ row. R.order row (K.as_row key.now)) self.old.rows }
        ensures room { self.old.room ≤ self.new.room }
    {
        take_out(&mut self.rows, key);
    }

    /// Changes the row at a key, where there is one. Takes no memory.
    pub fn change<K: Key<R>, C: Change<R>>(&mut self, key: &K, change: &C)
        ensures rows { self.new.rows
            ≡ with_change_at (λ row. R.order row (K.as_row key.now)) (C.changed change.now) self.old.rows }
        ensures room { self.old.room ≤ self.new.room }
    {
        change_at(&mut self.rows, key, change);
    }

    /// Takes the rows of a part of the order out. Takes no memory.
    pub fn remove_all<S: Span<R>>(&mut self, span: &S)
        ensures rows { self.new.rows ≡ without_row_at (S.place span.now) self.old.rows }
        ensures room { self.old.room ≤ self.new.room }
    {
        cut(&mut self.rows, span);
    }

    /// Takes all rows out. Takes no memory.
    pub fn clear(&mut self)
        ensures rows { self.new.rows ≡ [] }
        ensures room { self.old.room ≤ self.new.room }
    {
        self.rows.clear();
    }
}

// Where the rows of a part begin and end.
fn bounds_of<R: Row, S: Span<R>>(rows: &[R], span: &S) -> Bounds
    requires { are_in_order R.order rows.now ≡ true }
    ensures order { result.start ≤ result.end }
    ensures within { result.end ≤ length rows.now }
    ensures part { rows_at (S.place span.now) rows.now ≡ slice_range rows.now result.start result.end }
    ensures rest { without_row_at (S.place span.now) rows.now ≡ remove_range rows.now result.start result.end }
{
    Bounds {
        start: rows.partition_point(|row| span.compare(row).is_lt()),
        end: rows.partition_point(|row| span.compare(row).is_le()),
    }
}

// Puts a row in its place, where there is room for one more.
fn put<R: Row>(rows: &mut Vec<R>, row: R)
    requires ordered { are_in_order R.order rows.old.items ≡ true }
    requires room { vec_len rows.old < vec_capacity rows.old }
    ensures rows { rows.new.items ≡ with_row R.order row rows.old.items }
    ensures fewer { vec_len rows.new ≤ vec_len rows.old + 1 }
    ensures room { vec_capacity rows.old ≤ vec_capacity rows.new }
{
    match own_place(rows, &row) {
        Ok(place) => rows[place] = row,
        Err(place) => insert(rows, place, row),
    }
}

fn insert<R: Row>(rows: &mut Vec<R>, place: usize, row: R)
    requires place { place ≤ vec_len rows.old }
    requires room { vec_len rows.old < vec_capacity rows.old }
    ensures rows { rows.new.items ≡ insert rows.old.items place row }
    ensures fewer { vec_len rows.new ≡ vec_len rows.old + 1 }
    ensures room { vec_capacity rows.old ≤ vec_capacity rows.new }
{
    let _added = rows.insert(place, row);
}

// Takes the row at a key out, where there is one.
fn take_out<R: Row, K: Key<R>>(rows: &mut Vec<R>, key: &K)
    requires { are_in_order R.order rows.old.items ≡ true }
    ensures rows { rows.new.items ≡ without_row_at (λ row. R.order row (K.as_row key.now)) rows.old.items }
    ensures fewer { vec_len rows.new ≤ vec_len rows.old }
    ensures room { vec_capacity rows.old ≤ vec_capacity rows.new }
{
    if let Ok(place) = place_of(rows, key) {
        let _removed = rows.remove(place);
    }
}

// Changes the row at a key, where there is one.
fn change_at<R: Row, K: Key<R>, C: Change<R>>(rows: &mut Vec<R>, key: &K, change: &C)
    requires { are_in_order R.order rows.old.items ≡ true }
    ensures rows { rows.new.items
        ≡ with_change_at (λ row. R.order row (K.as_row key.now)) (C.changed change.now) rows.old.items }
    ensures few { vec_len rows.new ≤ vec_len rows.old }
    ensures room { vec_capacity rows.old ≤ vec_capacity rows.new }
{
    if let Ok(place) = place_of(rows, key) {
        change.apply(&mut rows[place]);
    }
}

// Takes the rows of a part of the order out.
fn cut<R: Row, S: Span<R>>(rows: &mut Vec<R>, span: &S)
    requires { are_in_order R.order rows.old.items ≡ true }
    ensures rows { rows.new.items ≡ without_row_at (S.place span.now) rows.old.items }
    ensures fewer { vec_len rows.new ≤ vec_len rows.old }
    ensures room { vec_capacity rows.old ≤ vec_capacity rows.new }
{
    let part = bounds_of(rows, span);
    take_range(rows, part);
}

fn take_range<R: Row>(rows: &mut Vec<R>, part: Bounds)
    requires order { part.start ≤ part.end }
    requires within { part.end ≤ vec_len rows.old }
    ensures rows { rows.new.items ≡ remove_range rows.old.items part.start part.end }
    ensures fewer { vec_len rows.new ≤ vec_len rows.old }
    ensures room { vec_capacity rows.old ≤ vec_capacity rows.new }
{
    drop(rows.drain(part.start..part.end));
}

fn place_of<R: Row, K: Key<R>>(rows: &[R], key: &K) -> Result<usize, usize>
    requires { are_in_order R.order rows.now ≡ true }
    ensures { IsPlace (λ row. R.order row (K.as_row key.now)) rows.now result }
{
    rows.binary_search_by(|row| key.compare(row))
}

fn own_place<R: Row>(rows: &[R], new: &R) -> Result<usize, usize>
    requires { are_in_order R.order rows.now ≡ true }
    ensures { IsPlace (λ row. R.order row new.now) rows.now result }
{
    rows.binary_search_by(|row| row.compare(new))
}
