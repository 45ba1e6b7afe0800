//! What belongs to one operation, found without a look at what belongs to others: chains of reads by their readers, and of values
//! by their makers.

ghost use Rattle.std.specs.Prelude.{◌≡◌, ◌^◌, ◌<◌, ◌≤◌, length, map, slice_index, slice_set};
ghost use Rattle.std.specs.List.{All};
ghost use Rattle.machine_data.specs.declared.limits.TheConstants.{MAX_READS, MAX_VALUES};
ghost use Rattle.problems.specs.declared.draft.Value.{Value};
ghost use Rattle.registers.specs.declared.value.Read.{Read};
ghost use Rattle.solution_text.specs.inner.Chains.{AreChained, makers_of, readers_of};

use problems::Value;
use registers::Read;

/// Chains of items by the operations that they belong to.
#[derive(Clone, Copy)]
pub(crate) struct Chains<'a> {
    /// Of each operation the number of its first item; where it has none, how many items there are.
    pub(crate) firsts: &'a [u16],
    /// Of each item the number of the next one of its operation; where there is none, how many items there are.
    pub(crate) nexts: &'a [u16],
}

/// The chains of reads by their readers, and of values by their makers.
#[derive(Clone, Copy)]
pub(crate) struct Uses<'a> {
    /// The reads of each operation.
    pub(crate) of_readers: Chains<'a>,
    /// The values that each operation makes.
    pub(crate) of_makers: Chains<'a>,
}

impl<'a> Chains<'a> {
    /// The number of the first item of an operation.
    pub(crate) fn first(self, op: usize) -> usize
        requires { op < length self.firsts.now }
        ensures { result ≡ slice_index self.entry.firsts.now op }
    {
        usize::from(self.firsts[op])
    }

    /// The number of the next item of the same operation.
    pub(crate) fn next(self, item: usize) -> usize
        requires { item < length self.nexts.now }
        ensures { result ≡ slice_index self.entry.nexts.now item }
    {
        usize::from(self.nexts[item])
    }
}

/// Puts the item with a number, which is written as a `u16`, in front of the chain of its owner.
fn link(owner: usize, number: usize, firsts: &mut [u16], nexts: &mut [u16])
    requires owner { owner < length firsts.old }
    requires there { number < length nexts.old }
    requires few { number < 2 ^ 16 }
    ensures firsts { firsts.new ≡ slice_set firsts.old owner number }
    ensures nexts { nexts.new ≡ slice_set nexts.old number (slice_index firsts.old owner) }
{
    nexts[number] = firsts[owner];
    firsts[owner] = number as u16;
}

/// Writes the chains of reads by their readers.
pub(crate) fn chain_reads(reads: &[Read], firsts: &mut [u16], nexts: &mut [u16])
    requires few { length reads.now ≤ MAX_READS }
    requires readers { All (λ (r : Read). r.reader < length firsts.old) reads.now }
    requires each { length nexts.old ≡ length reads.now }
    ensures { AreChained (readers_of reads.now) 0 firsts.new nexts.new }
{
    firsts.fill(reads.len() as u16);
    let mut number = reads.len();
    while number > 0 {
        number -= 1;
        link(reads[number].reader, number, firsts, nexts);
    }
}

/// Writes the chains of values by their makers.
pub(crate) fn chain_values(values: &[Value], firsts: &mut [u16], nexts: &mut [u16])
    requires few { length values.now ≤ MAX_VALUES }
    requires makers { All (λ (v : Value). v.maker < length firsts.old) values.now }
    requires each { length nexts.old ≡ length values.now }
    ensures { AreChained (makers_of values.now) 0 firsts.new nexts.new }
{
    firsts.fill(values.len() as u16);
    let mut number = values.len();
    while number > 0 {
        number -= 1;
        link(values[number].maker, number, firsts, nexts);
    }
}
