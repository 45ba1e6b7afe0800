//! Relaxation at an interval: numbers of operations that are raised in place, along edges, until they
//! are the heights or a circuit is seen that does not fit.

ghost use Rattle.std.specs.Prelude.{◌≡◌, ℕ, pos, ◌*◌, ◌+ℤ◌, ◌-ℤ◌, ◌≤ℤ◌, ◌<ℤ◌, ◌+◌, ◌-◌, ◌<◌, ◌≤◌, length, slice_index, IfSome, Some, None};
ghost use Rattle.std.specs.List.{All};
ghost use Rattle.edges.specs.declared.edge.Edge.{Edge};
ghost use Rattle.edges.specs.Graphs.{IsGraph};
ghost use Rattle.std.specs.Bool.{OnTrue};
ghost use Rattle.walks.specs.inner.Reaches.{AreReaches, AreVias, IsRaised, IsRise, KeepsNumbers, IsAbove, Relaxes};
ghost use Rattle.walks.specs.inner.Sweeps.{KeepsBack, KeepsOnward};
ghost use Rattle.machine_data.specs.declared.limits.TheConstants.{MAX_INTERVAL};

use edges::{Edge, Edges};
use machine_data::limits::MAX_STATEMENTS;

/// What an operation's number comes to by the edges from it.
#[derive(Clone, Copy)]
pub(crate) struct Climb {
    pub(crate) number: u64,
    /// The place of the edge that gives the number, where it rises.
    pub(crate) via: usize,
}

/// What relaxation at an interval comes to.
#[derive(Drop)]
pub(crate) enum Relaxed {
    /// Every circuit fits, and the numbers are the operations' heights.
    Heights,
    /// Some circuit does not fit, nor at any interval below this one, which is longer.
    Above(u64),
}

/// What an edge makes of its target's number.
///
/// Numbers stay below 2^21: each edge adds 64 cycles at most, and 128 sweeps raise each of 128
/// operations.
fn through(edge: Edge, number: u64, interval: u64) -> i64
    requires short { interval ≤ MAX_INTERVAL }
    requires small { number ≤ 2097152 }
    ensures exact { result ≡ ((pos number +ℤ edge.delay) -ℤ pos (interval * edge.distance)) }
    ensures near { result ≤ℤ pos (number + 127) }
{
    number as i64 + i64::from(edge.delay) - (interval * u64::from(edge.distance)) as i64
}

/// The greatest of an operation's own number and of what the edges from it make of their targets'
/// numbers.
pub(crate) fn raised(
    own: u64,
    outgoing: &[Edge],
    numbers: &[u64; MAX_STATEMENTS],
    interval: u64,
) -> Climb
    requires short { interval ≤ MAX_INTERVAL }
    requires own_small { own ≤ 2097152 }
    requires small { All (λ (e : Edge). (e.to < 128) × (slice_index numbers.now e.to ≤ 2097152)) outgoing.now }
    ensures raised { IsRaised outgoing.now interval numbers.now own result.number }
    ensures via { own < result.number → result.via < length outgoing.now }
{
    let mut number = own;
    let mut via = 0;
    for (place, edge) in outgoing.iter().enumerate() {
        let reached = through(*edge, numbers[edge.to as usize], interval);
        if reached > number as i64 {
            number = reached as u64;
            via = place;
        }
    }
    Climb { number, via }
}

/// Sets the numbers to what they are at first: the latencies.
pub(crate) fn set_first(edges: &Edges, interval: u64, numbers: &mut [u64; MAX_STATEMENTS])
    ensures { AreReaches edges.now interval 0 0 numbers.new }
{
    for operation in 0..edges.operations() {
        numbers[operation] = u64::from(edges.latency(operation));
    }
}

/// Raises the number of each operation, from the last one to the first, after `made` sweeps, and keeps
/// the edge by which it rose. Returns the last operation whose number rose, if any. An edge to a later
/// operation raises no number any more, since that operation's number was raised before.
fn raise_all(
    edges: &Edges,
    interval: u64,
    made: usize,
    numbers: &mut [u64; MAX_STATEMENTS],
    via: &mut [Option<Edge>; MAX_STATEMENTS],
) -> Option<usize>
    requires short { interval ≤ MAX_INTERVAL }
    requires few { made < length edges.now.latencies }
    requires reaches { AreReaches edges.now interval (128 * made) made numbers.old }
    requires via { AreVias edges.now via.old }
    ensures reaches { AreReaches edges.now interval (128 * (made + 1)) (made + 1) numbers.new }
    ensures via { AreVias edges.now via.new }
    ensures rises { (p : ℕ) → result ≡ Some p → IsRise edges.now interval made p }
    ensures stays { result ≡ None → KeepsNumbers edges.now interval numbers.new }
    ensures onward { KeepsOnward edges.now interval numbers.new }
    ensures well_formed { IsGraph edges.now }
{
    let mut rising = None;
    for operation in (0..edges.operations()).rev() {
        let own = numbers[operation];
        let outgoing = edges.out_of(operation);
        let raised = raised(own, outgoing, numbers, interval);
        if own < raised.number {
            numbers[operation] = raised.number;
            via[operation] = Some(outgoing[raised.via]);
            rising = Some(operation);
        }
    }
    rising
}

/// Whether no edge that leads to its own operation or to one before it raises a number.
fn keeps_back(edges: &Edges, interval: u64, numbers: &[u64; MAX_STATEMENTS]) -> bool
    requires short { interval ≤ MAX_INTERVAL }
    requires small { (p : ℕ) → p < length edges.now.latencies → slice_index numbers.now p ≤ 2097152 }
    ensures { OnTrue result (KeepsBack edges.now interval numbers.now) }
{
    for edge in edges.all() {
        if edge.to <= edge.from
            && through(*edge, numbers[edge.to as usize], interval)
                > numbers[edge.from as usize] as i64
        {
            return false;
        }
    }
    true
}

/// Makes one more sweep, after `made` sweeps. Returns an operation whose number rose, or `None` once no
/// edge can raise one, which it checks itself.
fn sweep(
    edges: &Edges,
    interval: u64,
    made: usize,
    numbers: &mut [u64; MAX_STATEMENTS],
    via: &mut [Option<Edge>; MAX_STATEMENTS],
) -> Option<usize>
    requires short { interval ≤ MAX_INTERVAL }
    requires few { made < length edges.now.latencies }
    requires reaches { AreReaches edges.now interval (128 * made) made numbers.old }
    requires via { AreVias edges.now via.old }
    ensures reaches { AreReaches edges.now interval (128 * (made + 1)) (made + 1) numbers.new }
    ensures via { AreVias edges.now via.new }
    ensures rises { (p : ℕ) → result ≡ Some p → IsRise edges.now interval made p }
    ensures stays { result ≡ None → KeepsNumbers edges.now interval numbers.new }
{
    let rising = raise_all(edges, interval, made, numbers, via)?;
    if keeps_back(edges, interval, numbers) {
        return None;
    }
    Some(rising)
}

/// Follows kept edges from `start`, one for each operation of the loop. Returns the operation that they
/// lead to, or `None` if no edge is kept for one on the way.
fn far_along(edges: &Edges, via: &[Option<Edge>; MAX_STATEMENTS], start: usize) -> Option<usize>
    requires there { start < length edges.now.latencies }
    requires via { AreVias edges.now via.now }
    ensures { IfSome result (λ p. p < length edges.now.latencies) }
{
    let mut at = start;
    for _step in 0..edges.operations() {
        let Some(edge) = via[at] else {
            return None;
        };
        at = edge.to as usize;
    }
    Some(at)
}

/// The least interval that a circuit of `delay` cycles and `distance` iterations fits, where it is
/// longer than `interval`.
///
/// A circuit is of at most 128 edges, each over at most 255 iterations: the bound on its distance only
/// keeps the product within 64 bits.
pub(crate) fn longer_interval(delay: i64, distance: u64, interval: u64) -> Option<u64>
    requires short { interval ≤ MAX_INTERVAL }
    requires near { distance ≤ 32768 }
    ensures { IfSome result (λ next. (interval < next) × (pos ((next - 1) * distance) <ℤ delay)) }
{
    if distance == 0 || delay <= (interval * distance) as i64 {
        return None;
    }
    Some((delay as u64 - 1) / distance + 1)
}

/// The least interval that the circuit of kept edges through an operation fits, where there is one that
/// does not fit this interval.
fn around(
    edges: &Edges,
    interval: u64,
    via: &[Option<Edge>; MAX_STATEMENTS],
    start: usize,
) -> Option<u64>
    requires short { interval ≤ MAX_INTERVAL }
    requires there { start < length edges.now.latencies }
    requires via { AreVias edges.now via.now }
    ensures { IfSome result (IsAbove edges.now.edges interval) }
{
    let mut at = start;
    let mut delay = 0;
    let mut distance = 0;
    for _step in 0..edges.operations() {
        let Some(edge) = via[at] else {
            return None;
        };
        delay += i64::from(edge.delay);
        distance += u64::from(edge.distance);
        at = edge.to as usize;
        if at == start {
            return longer_interval(delay, distance, interval);
        }
    }
    None
}

/// The least interval that the circuit fits which kept edges lead to from an operation, where it does not
/// fit this interval.
fn circuit(
    edges: &Edges,
    interval: u64,
    via: &[Option<Edge>; MAX_STATEMENTS],
    start: usize,
) -> Option<u64>
    requires short { interval ≤ MAX_INTERVAL }
    requires there { start < length edges.now.latencies }
    requires via { AreVias edges.now via.now }
    ensures { IfSome result (IsAbove edges.now.edges interval) }
{
    match far_along(edges, via, start) {
        Some(operation) => around(edges, interval, via, operation),
        None => None,
    }
}

/// Sets the numbers to the heights at an interval, or tells an interval that is nearer to the
/// recurrence-constrained lower bound.
///
/// Each sweep raises the numbers of all operations along their edges. They are the heights once a sweep
/// changes nothing, and they never settle where a circuit does not fit. The edges by which numbers last
/// rose lead to such a circuit, mostly after a sweep or two, and none of the intervals below its cycles
/// for each of its iterations is the bound. If no such circuit is found, the sweeps end after one for
/// each operation, and only this interval is known to be too short.
pub(crate) fn relax(edges: &Edges, interval: u64, numbers: &mut [u64; MAX_STATEMENTS]) -> Relaxed
    requires short { interval ≤ MAX_INTERVAL }
    ensures exact { Relaxes edges.now interval numbers.new result }
    ensures well_formed { IsGraph edges.now }
{
    set_first(edges, interval, numbers);
    let mut via = [None; MAX_STATEMENTS];
    for made in 0..edges.operations() {
        let Some(operation) = sweep(edges, interval, made, numbers, &mut via) else {
            return Relaxed::Heights;
        };
        if let Some(next) = circuit(edges, interval, &via, operation) {
            return Relaxed::Above(next);
        }
    }
    Relaxed::Above(interval + 1)
}
