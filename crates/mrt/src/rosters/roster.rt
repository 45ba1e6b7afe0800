//! Operations with their alternatives at one initiation interval, and their placements.

ghost use Rattle.std.specs.Prelude.{◌≡◌, ◌+◌, ◌++◌, ◌∷◌, [], ◌%◌, ◌^◌, ◌<◌, ◌≤◌, ℕ, length, map, replicate, Some, None, IfOk, IfSome, MatchOption, true, false, option_map, slice_set, slice_index_or};
ghost use Rattle.std.specs.List.{All};
ghost use Rattle.machine_data.specs.Alternative.{IsAlternative, collides};
ghost use Rattle.mrt.specs.Placements.{placement_of, alternatives_of, rows_of};
ghost use Rattle.mrt.specs.inner.Rosters.{IsGroup, group_of};
ghost use Rattle.mrt.specs.inner.Slots.{IsSlot, rows_in, HasUnits};
ghost use Rattle.mrt.specs.Taken.{takes, Takes};
ghost use Rattle.machine_data.specs.declared.limits.TheConstants.{MAX_INTERVAL};

use crate::rosters::choices::Choices;
use crate::rosters::kinds::{Kind, of_kind};
use crate::rosters::slot::Slot;
use machine_data::{Alternative, Alternatives, OutOfMemory};
use smallvec::SmallVec;
use std::alloc::Global;
use std::marker::Model;

/// Where the alternatives of one operation stand among all.
#[derive(Clone, Copy)]
struct Group {
    first: usize,
    end: usize,
}

/// When an operation is issued, and by which of its alternatives.
#[derive(Clone, Copy)]
pub(crate) struct Issue {
    pub(crate) time: u32,
    /// The time modulo the interval.
    pub(crate) base: u32,
    pub(crate) alternative: usize,
}

/// Operations and their placements. Contracts see the interval, the alternatives and the placements.
#[derive(Drop)]
pub(crate) struct Roster {
    choices: Choices,
    groups: Vec<Group>,
    issues: Vec<Option<Issue>>,
}

impl Model for Roster {
    ghost use Rattle.mrt.specs.inner.Rosters.{Table, table_of, IsRoster};

    ghost Value = { Table };

    ghost view = { λ r. table_of r.choices.interval r.choices.alternatives r.groups.items r.issues.items };

    ghost invariant = { λ r. IsRoster r.choices.interval r.choices.alternatives r.groups.items r.issues.items };
}

impl Roster {
    ghost use Rattle.mrt.specs.inner.Rosters.{placement, IsIssue};

    /// These operations, with nothing placed. Operations that have the same alternatives share one group
    /// of them.
    pub(crate) fn new(
        alloc: Global,
        operations: &[Alternatives],
        ii: usize,
    ) -> Result<Roster, OutOfMemory>
        requires some { 0 < ii }
        requires few { ii ≤ MAX_INTERVAL }
        ensures short { length operations.now < 2 ^ 64 }
        ensures value { IfOk result
            (λ r. r ≡ record { interval = ii; operations = operations.now; placed = replicate (length operations.now) None }) }
    {
        let mut choices = Choices::new(alloc, ii)?;
        let mut groups = Vec::with_capacity(alloc, operations.len())?;
        let mut kinds: SmallVec<Kind, 16> = SmallVec::new(alloc);
        for operation in operations {
            let alternatives = operation.as_slice();
            let earlier = match of_kind(operations, kinds.as_slice(), operation) {
                Some(kind) => Some(kind.operation),
                None => {
                    kinds.push(Kind::new(groups.len(), alternatives))?;
                    None
                }
            };
            push_group(&mut choices, &mut groups, alternatives, earlier)?;
        }
        Roster::unplaced(alloc, choices, groups)
    }

    /// Operations of these kinds, with nothing placed; `alternatives` has those of each kind. The operations of a kind
    /// share one group of them, and a kind that no operation has takes no room.
    pub(crate) fn of_kinds(
        alloc: Global,
        alternatives: &[Alternatives],
        kinds: &[usize],
        ii: usize,
    ) -> Result<Roster, OutOfMemory>
        requires some { 0 < ii }
        requires few { ii ≤ MAX_INTERVAL }
        requires kinds { All (λ kind. kind < length alternatives.now) kinds.now }
        ensures short { length kinds.now < 2 ^ 64 }
        ensures value { IfOk result
            (λ r. r ≡ record { interval = ii; operations = map (λ kind. slice_index_or alternatives.now kind []) kinds.now; placed = replicate (length kinds.now) None }) }
    {
        let mut choices = Choices::new(alloc, ii)?;
        let mut groups = Vec::with_capacity(alloc, kinds.len())?;
        let mut latest = vec![in alloc; None; alternatives.len()]?;
        for kind in kinds {
            let earlier = latest[*kind];
            latest[*kind] = Some(groups.len());
            let own = alternatives[*kind].as_slice();
            push_group(&mut choices, &mut groups, own, earlier)?;
        }
        Roster::unplaced(alloc, choices, groups)
    }

    /// Operations that have these groups of alternatives, with nothing placed.
    fn unplaced(alloc: Global, choices: Choices, groups: Vec<Group>) -> Result<Roster, OutOfMemory>
        requires { All (IsGroup (length choices.alternatives)) groups.items }
        ensures { IfOk result
            (λ r. r ≡ record { interval = choices.interval; operations = map (group_of choices.alternatives) groups.items; placed = replicate (length groups.items) None }) }
    {
        let issues = vec![in alloc; None; groups.len()]?;
        Ok(Roster {
            choices,
            groups,
            issues,
        })
    }

    /// The same operations at another interval, with nothing placed.
    pub(crate) fn reset(&mut self, ii: usize)
        requires some { 0 < ii }
        requires few { ii ≤ MAX_INTERVAL }
        ensures { self.new ≡ record { interval = ii; operations = self.old.operations; placed = replicate (length self.old.operations) None } }
    {
        self.choices.reset(ii);
        self.issues.fill(None);
    }

    /// The interval, in cycles.
    pub(crate) fn ii(&self) -> usize
        ensures value { result ≡ self.now.interval }
        ensures some { 0 < self.now.interval }
        ensures few { self.now.interval ≤ MAX_INTERVAL }
    {
        self.choices.ii()
    }

    /// A time modulo the interval.
    pub(crate) fn residue(&self, time: u64) -> usize
        ensures value { result ≡ time % self.now.interval }
        ensures below { result < self.now.interval }
    {
        (time % self.ii() as u64) as usize
    }

    /// How many operations there are.
    pub(crate) fn len(&self) -> usize
        ensures value { result ≡ length self.now.operations }
        ensures placed { result ≡ length self.now.placed }
    {
        self.groups.len()
    }

    /// One more than the greatest unit of an alternative, or 0.
    pub(crate) fn units(&self) -> usize
        ensures few { result ≤ 64 }
        ensures covered { (op alternative : ℕ) → All (λ r. r.unit < result) (rows_of self.now.operations op alternative) }
    {
        self.choices.units()
    }

    /// How many alternatives an operation has.
    pub(crate) fn count(&self, op: usize) -> usize
        requires { op < length self.now.operations }
        ensures { result ≡ length (alternatives_of self.now.operations op) }
    {
        let group = self.groups[op];
        group.end - group.first
    }

    /// Whether two rows of an alternative meet.
    fn collides(&self, op: usize, alternative: usize) -> bool
        requires there { op < length self.now.operations }
        requires alternative { alternative < length (alternatives_of self.now.operations op) }
        ensures { result ≡ collides self.now.interval (rows_of self.now.operations op alternative) }
    {
        let group = self.groups[op];
        self.choices.collides(group.first + alternative)
    }

    /// The slots of an alternative.
    pub(crate) fn slots(&self, op: usize, alternative: usize) -> &[Slot]
        requires there { op < length self.now.operations }
        requires alternative { alternative < length (alternatives_of self.now.operations op) }
        ensures rows { rows_in result.now ≡ rows_of self.now.operations op alternative }
        ensures slots { All (IsSlot self.now.interval) result.now }
    {
        let group = self.groups[op];
        self.choices.slots(group.first + alternative)
    }

    /// The slots of an alternative, unless two of its rows meet: then nothing can be issued by it.
    pub(crate) fn usable(&self, op: usize, alternative: usize) -> Option<&[Slot]>
        requires there { op < length self.now.operations }
        requires alternative { alternative < length (alternatives_of self.now.operations op) }
        ensures sound { let met = collides self.now.interval (rows_of self.now.operations op alternative) in MatchOption result (met ≡ true) (λ _. met ≡ false) }
        ensures rows { IfSome result (λ s. rows_in s.now ≡ rows_of self.now.operations op alternative) }
        ensures slots { IfSome result (λ s. All (IsSlot self.now.interval) s.now) }
    {
        if self.collides(op, alternative) {
            return None;
        }
        Some(self.slots(op, alternative))
    }

    /// Where an operation is placed.
    pub(crate) fn issue(&self, op: usize) -> Option<Issue>
        requires { op < length self.now.operations }
        ensures value { option_map placement result ≡ placement_of self.now.placed op }
        ensures kept { IfSome result (IsIssue self.now.interval self.now.operations op) }
    {
        self.issues[op]
    }

    /// The bits of the units of an alternative's rows.
    fn unit_bits(&self, op: usize, alternative: usize) -> u64
        requires there { op < length self.now.operations }
        requires alternative { alternative < length (alternatives_of self.now.operations op) }
        ensures { HasUnits result (rows_of self.now.operations op alternative) }
    {
        let group = self.groups[op];
        self.choices.unit_bits(group.first + alternative)
    }

    /// Whether an operation that is issued so takes the slot of a unit at a residue.
    fn takes(&self, op: usize, issue: Issue, slot: &Slot, residue: usize) -> bool
        requires there { op < length self.now.operations }
        requires issue { IsIssue self.now.interval self.now.operations op issue }
        requires slot { IsSlot self.now.interval slot.now }
        ensures { result ≡ takes self.now.interval (rows_of self.now.operations op issue.alternative) issue.time slot.now.row.unit residue }
    {
        if self.unit_bits(op, issue.alternative) & slot.mask == 0 {
            return false;
        }
        let slots = self.slots(op, issue.alternative);
        let base = issue.base as usize;
        takes(slots, self.ii(), base, slot.row.unit, residue)
    }

    /// An operation that takes the slot of a unit at a residue, if there is one.
    pub(crate) fn taker(&self, slot: &Slot, residue: usize) -> Option<usize>
        requires { IsSlot self.now.interval slot.now }
        ensures { MatchOption result
            ((op : ℕ) → Takes self.now.interval self.now.operations self.now.placed slot.now.row.unit residue op → ⊥)
            (Takes self.now.interval self.now.operations self.now.placed slot.now.row.unit residue) }
    {
        for op in 0..self.len() {
            if let Some(issue) = self.issue(op) {
                if self.takes(op, issue, slot, residue) {
                    return Some(op);
                }
            }
        }
        None
    }

    /// Places an operation.
    pub(crate) fn place(&mut self, op: usize, issue: Issue)
        requires there { op < length self.old.operations }
        requires issue { IsIssue self.old.interval self.old.operations op issue }
        ensures { self.new ≡ record self.old { placed = slice_set self.old.placed op (Some (placement issue)) } }
    {
        self.issues[op] = Some(issue);
    }

    /// Takes an operation out.
    pub(crate) fn remove(&mut self, op: usize)
        requires { op < length self.old.operations }
        ensures { self.new ≡ record self.old { placed = slice_set self.old.placed op None } }
    {
        self.issues[op] = None;
    }
}

/// Whether one of the slots, for an operation issued at a time whose residue is `base`, is this one.
fn takes(slots: &[Slot], ii: usize, base: usize, unit: u8, residue: usize) -> bool
    requires slots { All (IsSlot ii) slots.now }
    requires base { base < ii }
    requires few { ii ≤ MAX_INTERVAL }
    ensures { (time : ℕ) → time % ii ≡ base → result ≡ takes ii (rows_in slots.now) time unit residue }
{
    for slot in slots {
        if slot.row.unit == unit && slot.residue(base, ii) == residue {
            return true;
        }
    }
    false
}

/// Adds the group of one operation more: that of an earlier operation, where one has the same alternatives, and else one
/// of its own.
fn push_group(
    choices: &mut Choices,
    groups: &mut Vec<Group>,
    alternatives: &[Alternative],
    earlier: Option<usize>,
) -> Result<(), OutOfMemory>
    requires well_formed { All IsAlternative alternatives.now }
    requires each_group { All (IsGroup (length choices.old.alternatives)) groups.old.items }
    requires earlier { IfSome earlier (λ e. (e < length groups.old.items) × (slice_index_or (map (group_of choices.old.alternatives) groups.old.items) e [] ≡ alternatives.now)) }
    ensures interval { choices.new.interval ≡ choices.old.interval }
    ensures each_group { IfOk result (λ _. All (IsGroup (length choices.new.alternatives)) groups.new.items) }
    ensures count { IfOk result (λ _. length groups.new.items ≡ length groups.old.items + 1) }
    ensures pushed { IfOk result (λ _. map (group_of choices.new.alternatives) groups.new.items ≡ map (group_of choices.old.alternatives) groups.old.items ++ alternatives.now ∷ []) }
{
    let group = match earlier {
        Some(operation) => groups[operation],
        None => added(choices, alternatives)?,
    };
    groups.push(group)?;
    Ok(())
}

/// The group of some alternatives, which are added.
#[inline(never)]
fn added(choices: &mut Choices, alternatives: &[Alternative]) -> Result<Group, OutOfMemory>
    requires { All IsAlternative alternatives.now }
    ensures interval { choices.new.interval ≡ choices.old.interval }
    ensures pushed { IfOk result (λ _. choices.new.alternatives ≡ choices.old.alternatives ++ alternatives.now) }
    ensures first { IfOk result (λ g. g.first ≡ length choices.old.alternatives) }
    ensures end { IfOk result (λ g. g.end ≡ length choices.new.alternatives) }
{
    let first = choices.len();
    push_all(choices, alternatives)?;
    let end = choices.len();
    Ok(Group { first, end })
}

/// Adds alternatives.
fn push_all(choices: &mut Choices, alternatives: &[Alternative]) -> Result<(), OutOfMemory>
    requires { All IsAlternative alternatives.now }
    ensures interval { choices.new.interval ≡ choices.old.interval }
    ensures pushed { IfOk result (λ _. choices.new.alternatives ≡ choices.old.alternatives ++ alternatives.now) }
{
    for alternative in alternatives {
        choices.push(alternative.rows())?;
    }
    Ok(())
}
