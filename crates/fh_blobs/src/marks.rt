// The marks, as they are kept: which blobs a function has noted as they are.
ghost use Rattle.std.specs.Prelude.{◌≡◌, ◌+◌, ◌≤◌, [], OnOk};
ghost use Rattle.fh_rows.specs.Rows.{rows_at};
ghost use Rattle.fh_blobs.specs.Marks.{by_function, with_mark_if, with_number_if, without_marks};

use crate::mark::{Function, KeptMark, MarkKey, OfFunction};
use fh_base::{NoMemory, QueueName};
use fh_rows::Rows;
use std::alloc::Global;
use std::marker::Model;

/// Marks in order, and the functions that they are of.
#[derive(Drop)]
pub(crate) struct Marks {
    marks: Rows<KeptMark>,
    functions: Rows<Function>,
}

impl Model for Marks {
    ghost use Rattle.fh_blobs.specs.Marks.{MarkState};

    ghost Value = { MarkState };

    ghost view = { λ m. record {
      marks = m.marks.rows;
      functions = m.functions.rows;
      mark_room = m.marks.room;
      function_room = m.functions.room;
    } };
}

impl Marks {
    /// No marks. Takes no memory.
    pub(crate) fn new(alloc: Global) -> Marks
        ensures marks { result.marks ≡ [] }
        ensures functions { result.functions ≡ [] }
    {
        Marks {
            marks: Rows::new(alloc),
            functions: Rows::new(alloc),
        }
    }

    /// The marks of a function in a container, in order of the blobs' names.
    pub(crate) fn of(&self, function: u64, container: &QueueName) -> &[KeptMark]
        ensures { result.now ≡ rows_at (by_function function container.now) self.now.marks }
    {
        self.marks.all_at(&OfFunction {
            function,
            container: *container,
        })
    }

    /// Makes room for so many more marks.
    pub(crate) fn reserve(&mut self, more: usize) -> Result<(), NoMemory>
        ensures marks { self.new.marks ≡ self.old.marks }
        ensures functions { self.new.functions ≡ self.old.functions }
        ensures room { OnOk result (more ≤ self.new.mark_room) }
        ensures numbers { OnOk result (more ≤ self.new.function_room) }
    {
        self.marks.reserve(more)?;
        self.functions.reserve(more)?;
        Ok(())
    }

    /// The mark is there, if it is current. Takes no memory.
    pub(crate) fn set_if(&mut self, is_current: bool, mark: KeptMark)
        requires room { 1 ≤ self.old.mark_room }
        requires numbers { 1 ≤ self.old.function_room }
        ensures marks { self.new.marks ≡ with_mark_if is_current mark self.old.marks }
        ensures functions { self.new.functions
            ≡ with_number_if is_current mark.function self.old.functions }
        ensures room { self.old.mark_room ≤ self.new.mark_room + 1 }
        ensures numbers { self.old.function_room ≤ self.new.function_room + 1 }
    {
        if is_current {
            self.functions.set(Function {
                number: mark.function(),
            });
            self.marks.set(mark);
        }
    }

    /// No function has a mark of the blob. Takes no memory.
    pub(crate) fn remove(&mut self, container: &QueueName, name: &str)
        ensures marks { self.new.marks
            ≡ without_marks container.now name.now self.old.functions self.old.marks }
        ensures functions { self.new.functions ≡ self.old.functions }
        ensures room { self.old.mark_room ≤ self.new.mark_room }
        ensures numbers { self.new.function_room ≡ self.old.function_room }
    {
        unmark(&mut self.marks, self.functions.as_slice(), container, name);
    }
}

// Takes the marks of a blob out, of each of these functions.
fn unmark(marks: &mut Rows<KeptMark>, functions: &[Function], container: &QueueName, name: &str)
    ensures marks { marks.new.rows ≡ without_marks container.now name.now functions.now marks.old.rows }
    ensures room { marks.old.room ≤ marks.new.room }
{
    for function in functions {
        marks.remove(&MarkKey {
            function: function.number,
            container: *container,
            name,
        });
    }
}
