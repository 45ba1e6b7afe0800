//! Calls in threads of their own.

ghost use Rattle.std.specs.Prelude.{◌≡◌, ◌<◌, ◌^◌, ℕ, length, IfOk, vec_len};
ghost use denote.Param.Send.{IsSend, IsSync};
ghost use Rattle.std.specs.Fn.{FnReturns};
ghost use Rattle.std.specs.Fork.{AcceptsAt, AcceptsEach, ChangesAt, ChangesEach, GivesEach};
ghost use Rattle.thread_calls.specs.inner.Changes.{AreChanged, IsChanged};

use machine_data::OutOfMemory;
use std::alloc::Global;
use std::thread::{Threads, join, join_mut, yield_now};

/// What `call` gives for each number below `count`, in order. Each call has a thread of its own where one can be started, and
/// else the calling thread makes it. The calling thread starts all threads, one after another, and then waits for them.
/// It does nothing else meanwhile: a system may put a new thread on the processor of the thread that started it, where it
/// would wait although other processors are idle. So each new thread first lets others run: else the calling thread, on the
/// same processor, may have to wait before it starts the next one, on Linux for up to four milliseconds.
///
/// # Errors
/// Memory was refused. Then what the calls gave is lost.
#[cycle(calls)]
pub fn call_in_threads<R: Threads + Sync, T: Send + Drop, F: Fn(usize) -> T + Sync>(
    rt: &R,
    alloc: Global,
    count: usize,
    call: &F,
) -> Result<Vec<T>, OutOfMemory>
    requires { (k : ℕ) → k < count → F.pre call.now k }
    ensures len { IfOk result (λ given. vec_len given ≡ count) }
    ensures each { IfOk result (λ given. GivesEach F.Fn call.now count given.items) }
{
    if count == 0 {
        return Ok(Vec::new(alloc));
    }
    let last = count - 1;
    let one = move || -> T
        requires { F.pre call.now last }
        ensures { FnReturns F.Fn call.entry.now (last, tt) result }
    {
        yield_now();
        call(last)
    };
    let others = move || -> Result<Vec<T>, OutOfMemory>
        requires { IsSync R.row × IsSync F.row × IsSend T.row × (last < 2 ^ 64) × ((k : ℕ) → k < last → F.pre call.now k) }
        ensures { IfOk result (λ given. (vec_len given ≡ last) × GivesEach F.Fn call.entry.now last given.items) }
    { call_in_threads(rt, alloc, last, call) };
    let (given, before) = join(rt, one, others);
    let mut all = before?;
    all.push(given)?;
    Ok(all)
}

/// Calls `call` with the number of each item, from 0 on, and the item. The calls have threads as those of [`call_in_threads`]
/// have.
pub fn change_in_threads<R: Threads + Sync, T: Send, F: Fn(usize, &mut T) + Sync>(
    rt: &R,
    items: &mut [T],
    call: &F,
)
    requires { AcceptsEach F.Fn call.now items.old }
    ensures { ChangesEach F.Fn call.now items.old items.new }
{
    change_all(rt, call, items);
}

/// Does the same. (The items stand last, since the borrow checker does not cover a closure that reads what it captured after it
/// lent what it may change.)
#[cycle(changes)]
fn change_all<R: Threads + Sync, T: Send, F: Fn(usize, &mut T) + Sync>(
    rt: &R,
    call: &F,
    items: &mut [T],
)
    requires { AcceptsEach F.Fn call.now items.old }
    ensures { ChangesEach F.Fn call.now items.old items.new }
{
    let count = items.len();
    if count == 0 {
        return;
    }
    let last = count - 1;
    let (others, own) = items.split_at_mut(last);
    change_both(rt, call, others, last, &mut own[0]);
}

/// Calls `call` with an item of this number and, side by side with that, with each of the others.
#[cycle(changes)]
fn change_both<R: Threads + Sync, T: Send, F: Fn(usize, &mut T) + Sync>(
    rt: &R,
    call: &F,
    others: &mut [T],
    number: usize,
    own: &mut T,
)
    requires others { AcceptsEach F.Fn call.now others.old }
    requires own { AcceptsAt F.Fn call.now number own.old }
    ensures others { AreChanged F.Fn call.now others.old others.new }
    ensures own { IsChanged F.Fn call.now number own.old own.new }
{
    let mut one = ||
        requires { AcceptsAt F.Fn call.now number own.now }
        ensures { IsChanged F.Fn call.entry.now number own.entry.now own.exit.now }
    {
        yield_now();
        change(call, number, own);
    };
    let mut rest = ||
        requires { IsSync R.row × IsSync F.row × IsSend T.row × AcceptsEach F.Fn call.now others.now }
        ensures { AreChanged F.Fn call.entry.now others.entry.now others.exit.now }
    { change_all(rt, call, others) };
    join_mut(rt, &mut one, &mut rest);
}

/// Calls `call` with an item of this number.
fn change<T, F: Fn(usize, &mut T)>(call: &F, number: usize, item: &mut T)
    requires { AcceptsAt F.Fn call.now number item.old }
    ensures { ChangesAt F.Fn call.now number item.old item.new }
{
    call(number, item);
}

/// What `first` and `second` give. The calls have threads as those of [`call_in_threads`] have.
pub fn both_in_threads<
    R: Threads,
    F: FnOnce() -> A + Send,
    G: FnOnce() -> B + Send,
    A: Send,
    B: Send,
>(rt: &R, first: F, second: G) -> (A, B)
    requires { F.pre first × G.pre second }
    ensures first { F.post first result.0 }
    ensures second { G.post second result.1 }
{
    let one = move || -> A
        requires { F.pre first }
        ensures { F.post first result }
    {
        yield_now();
        first()
    };
    let other = move || -> B
        requires { G.pre second }
        ensures { G.post second result }
    {
        let last = move || -> B
            requires { G.pre second }
            ensures { G.post second result }
        {
            yield_now();
            second()
        };
        join(rt, last, || ()).0
    };
    join(rt, one, other)
}
