//! Workers of a caller, and what is gathered from their reports.

ghost use Rattle.std.specs.Prelude.{◌≡◌, ◌≤◌, IfOk, IsTrue, vec_len};
ghost use Rattle.std.specs.List.{All};
ghost use Rattle.board.specs.Boards.{IsNewPassOf, IsPassOf, sizes_of};
ghost use Rattle.board.specs.Names.{terms_of};
ghost use Rattle.workers.specs.Entries.{HasNoRefusal};

use super::boards::{Count, Strange};
use super::gates::{Limited, Roll, came, once};
use super::given::{LISTING, LOOPS, MACHINE};
use board::{Board, WordBoard, WordPass};
use candidates::{Choice, Listing, Pieces, Settings, listing_text};
use loop_schedules::Prepared;
use std::alloc::{AllocError, Global};
use std::fmt::Debug;
use std::process::Abort;
use std::thread::{Threads, join};
use workers::{
    Entry, Gate, OpenGate, Report, choose_by_workers, gather, pipeline, run_workers, work,
};

/// The three loops, prepared with a ceiling of 3. By one interval a piece that is 12 pieces.
#[derive(Drop)]
struct Three {
    loops: Vec<Prepared>,
    ghost number: { vec_len loops ≡ 3 },
    ghost ceilings: { All (λ (p : _). p.ceiling ≡ 3) loops.items },
}

impl Three {
    fn new<R: Threads + Abort + Sync>(rt: &R, alloc: Global) -> Three {
        let settings = Settings::new(6, 3, 1, 1).expect(rt, "settings");
        let (loops, _) = pipeline(
            rt,
            alloc,
            MACHINE.as_bytes(),
            LOOPS.as_bytes(),
            &settings,
            &OpenGate,
        )
        .expect(rt, "a listing");
        assert!(rt; loops.len() == 3 && have_ceiling(loops.as_slice()));
        Three { loops }
    }

    /// What a worker leaves of a pass, and its report.
    fn work<'a, B: Board, G: Gate>(
        &'a self,
        alloc: Global,
        worker: usize,
        board: &B,
        pass: B::Pass,
        gate: &G,
    ) -> (B::Pass, Report<'a>)
        requires of { B.is_of board.now pass }
        requires loops { B.loops board.now ≡ 3 }
        requires pieces { B.pieces board.now ≡ 12 }
        ensures of { B.is_of board.now result.0 }
        ensures same { result.1.loops ≡ self.entry.now.loops.items }
    {
        let pieces = Pieces::of(3, 3, 1);
        work(
            alloc,
            worker,
            board,
            pass,
            self.loops.as_slice(),
            &pieces,
            gate,
        )
    }

    /// How many intervals are tried when the reports are gathered, which must come to the listing.
    fn retried<E: Debug>(
        &self,
        rt: &impl Abort,
        alloc: Global,
        reports: Result<Vec<Report<'_>>, E>,
    ) -> u64
        requires { IfOk reports (λ rs. All (λ (r : _). r.loops ≡ self.now.loops.items) rs.items) }
    {
        let reports = reports.expect(rt, "memory");
        let chosen = gather(alloc, self.loops.as_slice(), reports).expect(rt, "memory");
        let retried = chosen.retried();
        self.lists(rt, alloc, chosen.into_choices());
        retried
    }

    /// The listing with these choices is the one of one thread.
    fn lists(&self, rt: &impl Abort, alloc: Global, choices: Vec<Choice>) {
        assert_eq!(rt; choices.len(), 3);
        let listing = Listing::of(alloc, 3, self.loops.as_slice(), choices).expect(rt, "memory");
        let text = listing_text(alloc, &listing).expect(rt, "memory");
        assert_eq!(rt; text.as_str(), LISTING);
    }
}

/// Whether each loop is tried at 3 intervals above its least one.
fn have_ceiling(loops: &[Prepared]) -> bool
    ensures { IsTrue result → All (λ (p : _). p.ceiling ≡ 3) loops.now }
{
    loops.iter().all(|prepared| prepared.ceiling() == 3)
}

/// How often a worker alone draws from the board; how many entries its report has, and whether it is dry; and how many intervals are tried afterwards.
fn alone_on(
    rt: &impl Abort,
    alloc: Global,
    three: &Three,
    board: &Strange,
) -> (u64, usize, bool, u64) {
    let (count, report) = three.work(alloc, 0, board, Count::new(), &OpenGate);
    let (entries, dry) = (report.entries().len(), report.is_dry());
    let retried = three.retried(rt, alloc, vec![in alloc; report]);
    (count.draws, entries, dry, retried)
}

/// One that answers each look with an interval of 0, so that each interval is beaten: of the first loop 3 intervals are tried, of the
/// others 1 each. One without a piece. And one that always has another: its worker ends after one draw more than there are pieces, and as the
/// first loop has no kernel at its first interval, the other four are left to try.
const STRANGE: &[(Strange, (u64, usize, bool, u64))] = &[
    (
        Strange {
            draws: 12,
            last: 11,
            least: Some(0),
        },
        (12, 12, true, 5),
    ),
    (
        Strange {
            draws: 0,
            last: 0,
            least: None,
        },
        (0, 0, true, 5),
    ),
    (
        Strange {
            draws: u64::MAX,
            last: 0,
            least: None,
        },
        (13, 13, false, 4),
    ),
];

// Boards that tell nothing true; and no report leaves all to try, too.
#[test]
fn strange_boards_change_no_choice(rt: HostRuntime) {
    let alloc = rt.alloc();
    let three = Three::new(&rt, alloc);
    for (board, wanted) in STRANGE {
        assert_eq!(rt; alone_on(&rt, alloc, &three, board), *wanted);
    }
    let none = Ok::<_, AllocError>(Vec::new(alloc));
    assert_eq!(rt; three.retried(&rt, alloc, none), 5);
}

/// A board of words for the three loops, with two passes.
fn shared(rt: &impl Abort, alloc: Global) -> (WordBoard, WordPass, WordPass)
    ensures sizes { sizes_of result.0 ≡ terms_of 3 12 2 }
    ensures one { IsNewPassOf result.0 result.1 }
    ensures two { IsNewPassOf result.0 result.2 }
{
    let (board, mut passes) = WordBoard::new(alloc, 1, 3, 12, 2).expect(rt, "memory");
    let one = passes.pop().expect(rt, "a pass");
    let two = passes.pop().expect(rt, "another pass");
    (board, one, two)
}

/// How many numbers were drawn from a board, and the least interval posted for each of the three loops.
type Words = (u64, Option<u64>, Option<u64>, Option<u64>);

/// What the board tells when it is closed with both of its passes.
fn close(rt: &impl Abort, alloc: Global, board: WordBoard, one: WordPass, two: WordPass) -> Words
    requires one { IsPassOf board one }
    requires two { IsPassOf board two }
    requires sizes { sizes_of board ≡ terms_of 3 12 2 }
{
    let passes = vec![in alloc; one, two].expect(rt, "memory");
    let closed = board.close(passes).expect(rt, "both passes");
    (
        closed.drawn(),
        closed.least(0),
        closed.least(1),
        closed.least(2),
    )
}

/// What is left to try where a worker stops after `most` pieces: the number of intervals, and what the board tells.
fn stopped(rt: &impl Abort, alloc: Global, three: &Three, most: u64) -> (u64, Words) {
    let (board, one, two) = shared(rt, alloc);
    let (one, report) = three.work(alloc, 0, &board, one, &Limited::new(most));
    assert!(rt; !report.is_dry());
    let retried = three.retried(rt, alloc, vec![in alloc; report]);
    (retried, close(rt, alloc, board, one, two))
}

// The worker stops after the first interval of each loop. The first loop has no kernel there, and the others have one, so two
// intervals are left to try. One that stops at once leaves all. The other pass comes back unused.
#[test]
fn a_pass_comes_back_early(rt: HostRuntime) {
    let alloc = rt.alloc();
    let three = Three::new(&rt, alloc);
    let left = stopped(&rt, alloc, &three, 3);
    assert_eq!(rt; left, (2, (3, None, Some(5), Some(2))));
    let left = stopped(&rt, alloc, &three, 0);
    assert_eq!(rt; left, (5, (0, None, None, None)));
}

/// How often a report tells of each of the 12 pieces, in four bits each.
fn told_pieces(loops: &[Prepared], report: &Report<'_>) -> u64 {
    let mut told: u64 = 0;
    for entry in report.entries() {
        told = told.wrapping_add(once(piece_of(loops, entry)));
    }
    told
}

/// The number of the piece of an entry, where a piece has one interval.
fn piece_of(loops: &[Prepared], entry: &Entry) -> u64 {
    let number = usize::from(entry.loop_number);
    let Some(prepared) = loops.get(number) else {
        return 12;
    };
    let above = u64::from(entry.interval).saturating_sub(prepared.mii());
    above.saturating_mul(3).saturating_add(number as u64)
}

/// What two workers come to.
#[derive(Drop)]
struct Together {
    /// How often the report of each tells of each piece, in four bits each.
    pieces: (u64, u64),
    both_dry: bool,
    lost: u64,
    retried: u64,
    words: Words,
}

/// Two workers in two threads of the caller.
fn at_once<'a, R: Threads + Sync, G: Gate + Sync>(
    rt: &R,
    alloc: Global,
    three: &'a Three,
    board: &WordBoard,
    one: WordPass,
    two: WordPass,
    gate: &G,
) -> ((WordPass, Report<'a>), (WordPass, Report<'a>))
    requires one { IsNewPassOf board.now one }
    requires two { IsNewPassOf board.now two }
    requires sizes { sizes_of board.now ≡ terms_of 3 12 2 }
    ensures one { IsPassOf board.now result.0.0 × (result.0.1.loops ≡ three.entry.now.loops.items) }
    ensures two { IsPassOf board.now result.1.0 × (result.1.1.loops ≡ three.entry.now.loops.items) }
{
    join(
        rt,
        || -> (WordPass, Report<'_>)
            requires { IsNewPassOf board.now one × (sizes_of board.now ≡ terms_of 3 12 2) }
            ensures { IsPassOf board.entry.now result.0 × (result.1.loops ≡ three.entry.now.loops.items) }
        { three.work(alloc, 0, board, one, gate) },
        || -> (WordPass, Report<'_>)
            requires { IsNewPassOf board.now two × (sizes_of board.now ≡ terms_of 3 12 2) }
            ensures { IsPassOf board.entry.now result.0 × (result.1.loops ≡ three.entry.now.loops.items) }
        { three.work(alloc, 1, board, two, gate) },
    )
}

/// What two reports come to, beside what the board tells.
fn summed_up(
    rt: &impl Abort,
    alloc: Global,
    three: &Three,
    first: Report<'_>,
    second: Report<'_>,
    words: Words,
) -> Together
    requires first { first.loops ≡ three.now.loops.items }
    requires second { second.loops ≡ three.now.loops.items }
{
    let loops = three.loops.as_slice();
    Together {
        pieces: (told_pieces(loops, &first), told_pieces(loops, &second)),
        both_dry: first.is_dry() && second.is_dry(),
        lost: first.lost().saturating_add(second.lost()),
        retried: three.retried(rt, alloc, vec![in alloc; first, second]),
        words,
    }
}

/// What two workers in two threads of the caller come to.
fn by_two<R: Threads + Abort + Sync, G: Gate + Sync>(
    rt: &R,
    alloc: Global,
    three: &Three,
    gate: &G,
) -> Together {
    let (board, one, two) = shared(rt, alloc);
    let ((one, first), (two, second)) = at_once(rt, alloc, three, &board, one, two, gate);
    let words = close(rt, alloc, board, one, two);
    summed_up(rt, alloc, three, first, second, words)
}

// Twelve pieces and two dry draws. Nothing is left to try, and each loop's word is its interval.
fn left_nothing(rt: &impl Abort, all: &Together) {
    assert_eq!(rt; (all.both_dry, all.lost, all.retried), (true, 0, 0));
    assert_eq!(rt; all.words, (14, Some(4), Some(5), Some(2)));
}

// The gate is called by the number of the worker whose report tells of the piece.
#[test]
fn two_threads_of_a_caller_are_at_work_at_once(rt: HostRuntime) {
    let alloc = rt.alloc();
    let three = Three::new(&rt, alloc);
    left_nothing(&rt, &by_two(&rt, alloc, &three, &OpenGate));
    let gate = Roll::new();
    let all = by_two(&rt, alloc, &three, &gate);
    left_nothing(&rt, &all);
    assert_eq!(rt; gate.pieces(), all.pieces);
    came(&rt, &gate, 0x1111_1111_1111);
}

/// Whether nothing was refused to the workers of the reports.
fn all_whole(reports: &[Report<'_>]) -> bool
    ensures { IsTrue result → All (λ (r : _). HasNoRefusal r.loops r) reports.now }
{
    reports.iter().all(|report| report.is_whole())
}

/// How many intervals are left to try after `workers` workers on a board of their own, to none of whom memory was refused.
fn left_by<R: Threads + Abort + Sync>(rt: &R, alloc: Global, three: &Three, workers: usize) -> u64
    requires some { 1 ≤ workers }
    requires few { workers ≤ 64 }
    ensures left { result ≡ 0 }
{
    let pieces = Pieces::of(3, 3, 1);
    let loops = three.loops.as_slice();
    let reports = run_workers(rt, alloc, loops, &pieces, workers, &OpenGate).expect(rt, "memory");
    if !all_whole(reports.as_slice()) {
        panic!(rt; "a worker was refused memory");
    }
    let chosen = gather(alloc, loops, reports).expect(rt, "memory");
    chosen.retried()
}

// By its contract nothing is left to try where no memory was refused, and here none is.
#[test]
fn workers_to_whom_nothing_is_refused_leave_nothing(rt: HostRuntime) {
    let alloc = rt.alloc();
    let three = Three::new(&rt, alloc);
    let left = (
        left_by(&rt, alloc, &three, 1),
        left_by(&rt, alloc, &three, 3),
        left_by(&rt, alloc, &three, 64),
    );
    assert_eq!(rt; left, (0, 0, 0));
}

/// How many loops workers of a file choose for, and how many intervals the calling thread has left to try.
fn chosen_by<R: Threads + Abort + Sync, G: Gate + Sync>(
    rt: &R,
    alloc: Global,
    three: &Three,
    workers: usize,
    cut: u64,
    gate: &G,
) -> (usize, u64)
    requires some { 1 ≤ workers }
    requires few { workers ≤ 64 }
    requires cut { (1 ≤ cut) × (cut ≤ 256) }
{
    let pieces = Pieces::of(3, 3, cut);
    let loops = three.loops.as_slice();
    let chosen = choose_by_workers(rt, alloc, loops, &pieces, workers, gate).expect(rt, "memory");
    (chosen.choices().len(), chosen.retried())
}

// The calling thread of a file has nothing left to try, by whatever cut.
fn left_by_cuts<R: Threads + Abort + Sync>(rt: &R, alloc: Global, three: &Three, workers: usize)
    requires some { 1 ≤ workers }
    requires few { workers ≤ 64 }
{
    let told = (
        chosen_by(rt, alloc, three, workers, 1, &OpenGate),
        chosen_by(rt, alloc, three, workers, 2, &OpenGate),
        chosen_by(rt, alloc, three, workers, 256, &OpenGate),
    );
    assert_eq!(rt; told, ((3, 0), (3, 0), (3, 0)));
}

#[test]
fn workers_of_a_file_leave_nothing_to_try(rt: HostRuntime) {
    let alloc = rt.alloc();
    let three = Three::new(&rt, alloc);
    left_by_cuts(&rt, alloc, &three, 1);
    left_by_cuts(&rt, alloc, &three, 3);
    left_by_cuts(&rt, alloc, &three, 64);
}

// It has all to try where the workers stop at once.
#[test]
fn workers_of_a_file_that_stop_leave_all_to_try(rt: HostRuntime) {
    let alloc = rt.alloc();
    let three = Three::new(&rt, alloc);
    let told = chosen_by(&rt, alloc, &three, 3, 1, &Limited::new(0));
    assert_eq!(rt; told, (3, 5));
}
