//! Workers in threads.
ghost use Rattle.std.specs.Prelude.{◌≡◌, ◌≤◌, ◌+◌, [], IfOk, IsTrue, length, vec_len};
ghost use Rattle.std.specs.List.{All, AllZip};
ghost use Rattle.board.specs.Boards.{IsNewPassOf, sizes_of};
ghost use Rattle.board.specs.Names.{terms_of};
ghost use Rattle.loop_schedules.specs.Problems.{IsProblem};
ghost use Rattle.loop_listings.specs.Pieces.{piece_count};
ghost use Rattle.board_workers.specs.inner.Places.{IsDonePlace, IsReadyPlace, IsReportOn};
ghost use Rattle.board_workers.specs.Settled.{AreOfOneBoard, LeaveNothing};
ghost use Rattle.machine_data.specs.declared.limits.TheConstants.{MAX_WORKERS};

use crate::gate::Gate;
use crate::places::{Place, run_all};
use board::{WordBoard, WordPass};
use candidates::Pieces;
use loop_schedules::Prepared;
use machine_data::OutOfMemory;
use reports::Report;
use std::alloc::Global;
use std::thread::Threads;

/// The reports of `workers` workers, 1 to 64, on a board of their own, each in a thread where one can be
/// started. Where the gate always lets a worker go on, each finds no piece left in the end. Then, unless a
/// worker was refused memory, nothing is left to try when the reports are gathered.
///
/// # Errors
/// Memory ran out before the workers began.
pub fn run_workers<'a, R: Threads + Sync, G: Gate + Sync>(
    rt: &R,
    alloc: Global,
    loops: &'a [Prepared],
    pieces: &Pieces,
    workers: usize,
    gate: &G,
) -> Result<Vec<Report<'a>>, OutOfMemory>
    requires each_loop { pieces.now.loops ≡ length loops.now }
    requires ceilings { All (λ p. p.ceiling ≡ pieces.now.ceiling) loops.now }
    requires some { 1 ≤ workers }
    requires few { workers ≤ MAX_WORKERS }
    ensures same { IfOk result (λ rs. All (λ (r : _). r.loops ≡ loops.entry.now) rs.items) }
    ensures worked { IfOk result (λ rs. AreOfOneBoard pieces.now workers rs.items) }
    ensures ends_dry { IsTrue (G.always_goes_on gate.now) → IfOk result (λ rs. All (λ (r : _). IsTrue r.dry) rs.items) }
    ensures left { IfOk result (λ rs. LeaveNothing loops.entry.now rs.items) }
{
    let (board, passes) = WordBoard::new(alloc, 0, pieces.loops(), pieces.number(), workers)?;
    let back = Back::with_room(alloc, workers)?;
    let mut places = places_of(alloc, &board, passes)?;
    run_all(
        rt,
        alloc,
        &board,
        places.as_mut_slice(),
        loops,
        pieces,
        gate,
    );
    let back = collect_all(back, places, &board, loops, pieces, gate)?;
    Ok(close(board, back, loops, pieces, gate))
}

/// The passes that workers gave back, and the report of what was done with each.
#[derive(Drop)]
struct Back<'a> {
    passes: Vec<WordPass>,
    reports: Vec<Report<'a>>,
}

impl<'a> Back<'a> {
    /// Room for `workers` of each.
    fn with_room(alloc: Global, workers: usize) -> Result<Back<'a>, OutOfMemory>
        ensures passes { IfOk result (λ b. b.passes.items ≡ []) }
        ensures reports { IfOk result (λ b. b.reports.items ≡ []) }
    {
        let passes = Vec::with_capacity(alloc, workers)?;
        let reports = Vec::with_capacity(alloc, workers)?;
        Ok(Back { passes, reports })
    }
}

/// A place for each pass.
fn places_of<'a>(
    alloc: Global,
    _board: &WordBoard,
    mut passes: Vec<WordPass>,
) -> Result<Vec<Place<'a>>, OutOfMemory>
    requires { All (IsNewPassOf _board.now) passes.items }
    ensures ready { IfOk result (λ ps. All (IsReadyPlace _board.now) ps.items) }
    ensures each { IfOk result (λ ps. vec_len ps ≡ vec_len passes) }
{
    let mut places = Vec::new(alloc);
    while let Some(pass) = passes.pop() {
        if let Err(fault) = add_place(&mut places, _board, pass) {
            return Err(fault);
        }
    }
    Ok(places)
}

/// Adds a place for a pass.
fn add_place(
    places: &mut Vec<Place<'_>>,
    _board: &WordBoard,
    pass: WordPass,
) -> Result<(), OutOfMemory>
    requires pass { IsNewPassOf _board.now pass }
    requires others { All (IsReadyPlace _board.now) places.old.items }
    ensures ready { IfOk result (λ _. All (IsReadyPlace _board.now) places.new.items) }
    ensures one { IfOk result (λ _. vec_len places.new ≡ vec_len places.old + 1) }
{
    places.push(Place {
        pass: Some(pass),
        report: None,
    })?;
    Ok(())
}

/// Takes the passes and reports out of all places.
fn collect_all<'a, G: Gate>(
    mut back: Back<'a>,
    mut places: Vec<Place<'a>>,
    _board: &WordBoard,
    _loops: &[Prepared],
    _pieces: &Pieces,
    _gate: &G,
) -> Result<Back<'a>, OutOfMemory>
    requires done { All (IsDonePlace _board.now _loops.now _pieces.now (G.always_goes_on _gate.now)) places.items }
    requires passes { back.passes.items ≡ [] }
    requires reports { back.reports.items ≡ [] }
    ensures on { IfOk result (λ b. AllZip (IsReportOn _board.now _loops.now _pieces.now (G.always_goes_on _gate.now)) b.passes.items b.reports.items) }
    ensures each { IfOk result (λ b. vec_len b.passes ≡ vec_len places.entry) }
{
    while let Some(place) = places.pop() {
        if let Err(fault) = collect(&mut back, place, _board, _loops, _pieces, _gate) {
            return Err(fault);
        }
    }
    Ok(back)
}

/// Takes the pass and the report out of a place.
fn collect<'a, G: Gate>(
    back: &mut Back<'a>,
    place: Place<'a>,
    _board: &WordBoard,
    _loops: &[Prepared],
    _pieces: &Pieces,
    _gate: &G,
) -> Result<(), OutOfMemory>
    requires done { IsDonePlace _board.now _loops.now _pieces.now (G.always_goes_on _gate.now) place }
    requires others { AllZip (IsReportOn _board.now _loops.now _pieces.now (G.always_goes_on _gate.now)) back.old.passes.items back.old.reports.items }
    ensures on { IfOk result (λ _. AllZip (IsReportOn _board.now _loops.now _pieces.now (G.always_goes_on _gate.now)) back.new.passes.items back.new.reports.items) }
    ensures one { IfOk result (λ _. vec_len back.new.passes ≡ vec_len back.old.passes + 1) }
{
    let (pass, report) = place.into_parts();
    let Some(pass) = pass else { unreachable!() };
    let Some(report) = report else { unreachable!() };
    back.passes.push(pass)?;
    back.reports.push(report)?;
    Ok(())
}

/// The reports, once the board is closed over all of its passes.
fn close<'a, G: Gate>(
    board: WordBoard,
    back: Back<'a>,
    loops: &[Prepared],
    pieces: &Pieces,
    _gate: &G,
) -> Vec<Report<'a>>
    requires on { AllZip (IsReportOn board loops.now pieces.now (G.always_goes_on _gate.now)) back.passes.items back.reports.items }
    requires sizes { sizes_of board ≡ terms_of pieces.now.loops (piece_count pieces.now) (vec_len back.passes) }
    requires each_loop { pieces.now.loops ≡ length loops.now }
    requires ceilings { All (λ p. p.ceiling ≡ pieces.now.ceiling) loops.now }
    ensures same { All (λ (r : _). r.loops ≡ loops.now) result.items }
    ensures worked { AreOfOneBoard pieces.now (vec_len back.entry.passes) result.items }
    ensures ends_dry { IsTrue (G.always_goes_on _gate.now) → All (λ (r : _). IsTrue r.dry) result.items }
    ensures left { LeaveNothing loops.now result.items }
{
    know_problems(loops);
    let _ceiling = pieces.ceiling();
    let Back { passes, reports } = back;
    let Ok(_closed) = board.close(passes) else {
        unreachable!()
    };
    reports
}

/// Tells proofs what each prepared loop keeps by its type.
fn know_problems(loops: &[Prepared])
    ensures { All IsProblem loops.now }
{
    for prepared in loops {
        let _ceiling = prepared.ceiling();
    }
}
