//! The reads and edges of the problem under way.

ghost use Rattle.std.specs.Prelude.{◌≡◌, OnOk};
ghost use Rattle.problem_lines.specs.Seen.{word_seen};
ghost use Rattle.problem_tables.specs.Faults.{delay_fault, first_of};
ghost use Rattle.problem_tables.specs.Seen.{problem_parts, Refuses};
ghost use Rattle.problem_tables.specs.Tables.{made_before, order_faults, order_goes, order_of, read_faults, read_goes, read_of, with_order, with_read};
ghost use Rattle.problem_tables.specs.inner.Spots.{on_spot};

use crate::fault::{Refusal, Told};
use crate::judging::{
    Spot, delay_fault, known_fault, number_or_0, offset_fault, range_fault, word_fault,
};
use crate::lines::problem::ProblemTables;
use crate::room::push_with_room;
use machine_data::limits::{MAX_DISTANCE, MAX_OFFSET, MAX_ORDER_DISTANCE, MAX_ORDERS, MAX_READS};
use problem_faults::refused_problems::{Part, Wrong};
use problem_lines::{Integer, Number, Word};
use problems::{Order, Value};
use registers::Read;

/// The words of a `read` line.
#[derive(Clone, Copy)]
pub(crate) struct ReadWords<'a> {
    pub(crate) reader: Word<'a>,
    pub(crate) value: Word<'a>,
    pub(crate) distance: Option<Number>,
    pub(crate) offset: Option<Number>,
}

/// The words of an `edge` line.
#[derive(Clone, Copy)]
pub(crate) struct EdgeWords<'a> {
    pub(crate) from: Word<'a>,
    pub(crate) to: Word<'a>,
    pub(crate) delay: Integer,
    pub(crate) distance: Number,
}

/// Whether the value with this number, if there is one, is made before an operation.
fn is_made_before(values: &[Value], number: usize, reader: usize) -> bool
    ensures { result ≡ made_before values.now number reader }
{
    number >= values.len() || values[number].maker < reader
}

/// Whether an order goes forward within an iteration.
fn goes_forward(order: Order) -> bool
    ensures { result ≡ order_goes order }
{
    order.distance > 0 || order.from < order.to
}

impl<'a> ProblemTables<'a> {
    /// What a `read` line says.
    fn read_of(&self, words: ReadWords<'a>) -> Read
        ensures { result ≡ read_of (problem_parts self.now) (word_seen words.entry.reader) (word_seen words.entry.value) words.entry.distance words.entry.offset }
    {
        Read {
            value: self.value_names.index(words.value.bytes),
            reader: self.operation_names.index(words.reader.bytes),
            distance: number_or_0(words.distance),
            offset: number_or_0(words.offset),
        }
    }

    /// Whether a read is of a value that is there by then.
    fn reads_forward(&self, read: Read) -> bool
        ensures { result ≡ read_goes (problem_parts self.now) read }
    {
        read.distance > 0 || is_made_before(self.values.as_slice(), read.value, read.reader)
    }

    /// The fault of a `read` line that says this.
    fn read_fault(&self, at: Spot, words: ReadWords<'a>, read: Read) -> Option<Told>
        requires { read ≡ read_of (problem_parts self.now) (word_seen words.reader) (word_seen words.value) words.distance words.offset }
        ensures { result ≡ first_of (read_faults (problem_parts self.now) (on_spot at) (word_seen words.entry.reader) (word_seen words.entry.value) words.entry.distance words.entry.offset) }
    {
        if let Some(told) = at.room(self.reads.len(), MAX_READS, Part::Reads) {
            return Some(told);
        }
        let readers = &self.operation_names;
        if let Some(told) = known_fault(readers, read.reader, Part::Operations, words.reader) {
            return Some(told);
        }
        if let Some(told) = known_fault(&self.value_names, read.value, Part::Values, words.value) {
            return Some(told);
        }
        if let Some(told) = offset_fault(u64::from(MAX_DISTANCE), words.distance) {
            return Some(told);
        }
        if let Some(told) = offset_fault(u64::from(MAX_OFFSET), words.offset) {
            return Some(told);
        }
        word_fault(words.value, self.reads_forward(read), Wrong::Backward)
    }

    /// Takes a `read` line in.
    pub(crate) fn take_read(&mut self, at: Spot, words: ReadWords<'a>) -> Result<(), Refusal>
        ensures fault { Refuses result (first_of (read_faults (problem_parts self.old) (on_spot at) (word_seen words.entry.reader) (word_seen words.entry.value) words.entry.distance words.entry.offset)) }
        ensures taken { OnOk result (problem_parts self.new ≡ with_read (problem_parts self.old)
            (read_of (problem_parts self.old) (word_seen words.entry.reader) (word_seen words.entry.value) words.entry.distance words.entry.offset)) }
    {
        let read = self.read_of(words);
        if let Some(told) = self.read_fault(at, words, read) {
            return Err(Refusal::Fault(told));
        }
        push_with_room(&mut self.reads, read)
    }

    /// What an `edge` line says.
    fn order_of(&self, words: EdgeWords<'a>) -> Order
        ensures { result ≡ order_of (problem_parts self.now) (word_seen words.entry.from) (word_seen words.entry.to) words.entry.delay words.entry.distance }
    {
        Order {
            from: self.operation_names.index(words.from.bytes),
            to: self.operation_names.index(words.to.bytes),
            delay: words.delay.value.unwrap_or(0),
            distance: words.distance.value,
        }
    }

    /// The fault of an `edge` line that says this.
    fn order_fault(&self, at: Spot, words: EdgeWords<'a>, order: Order) -> Option<Told>
        requires { order ≡ order_of (problem_parts self.now) (word_seen words.from) (word_seen words.to) words.delay words.distance }
        ensures { result ≡ first_of (order_faults (problem_parts self.now) (on_spot at) (word_seen words.entry.from) (word_seen words.entry.to) words.entry.delay words.entry.distance) }
    {
        if let Some(told) = at.room(self.orders.len(), MAX_ORDERS, Part::Edges) {
            return Some(told);
        }
        let ends = &self.operation_names;
        if let Some(told) = known_fault(ends, order.from, Part::Operations, words.from) {
            return Some(told);
        }
        if let Some(told) = known_fault(ends, order.to, Part::Operations, words.to) {
            return Some(told);
        }
        if let Some(told) = delay_fault(words.delay) {
            return Some(told);
        }
        if let Some(told) = range_fault(0, MAX_ORDER_DISTANCE, words.distance) {
            return Some(told);
        }
        word_fault(words.to, goes_forward(order), Wrong::Backward)
    }

    /// Takes an `edge` line in.
    pub(crate) fn take_edge(&mut self, at: Spot, words: EdgeWords<'a>) -> Result<(), Refusal>
        ensures fault { Refuses result (first_of (order_faults (problem_parts self.old) (on_spot at) (word_seen words.entry.from) (word_seen words.entry.to) words.entry.delay words.entry.distance)) }
        ensures taken { OnOk result (problem_parts self.new ≡ with_order (problem_parts self.old)
            (order_of (problem_parts self.old) (word_seen words.entry.from) (word_seen words.entry.to) words.entry.delay words.entry.distance)) }
    {
        let order = self.order_of(words);
        if let Some(told) = self.order_fault(at, words, order) {
            return Err(Refusal::Fault(told));
        }
        push_with_room(&mut self.orders, order)
    }
}
