//! Workers on a board of words, each in a thread where one can be started.
ghost use Rattle.std.specs.Prelude.{◌≡◌, ◌<◌, length};
ghost use Rattle.std.specs.List.{All};
ghost use Rattle.board.specs.Boards.{sizes_of};
ghost use Rattle.loop_listings.specs.Pieces.{piece_count};
ghost use Rattle.board_workers.specs.inner.Places.{IsDonePlace, IsReadyPlace};

use crate::gate::Gate;
use crate::works::work;
use board::{WordBoard, WordPass};
use candidates::Pieces;
use loop_schedules::Prepared;
use reports::Report;
use std::alloc::Global;
use std::thread::Threads;
use thread_calls::change_in_threads;

/// Where a worker's pass lies before it works, and its pass and report afterwards.
#[derive(Drop)]
pub(crate) struct Place<'a> {
    pub(crate) pass: Option<WordPass>,
    pub(crate) report: Option<Report<'a>>,
}

impl<'a> Place<'a> {
    /// Works with the pass, and leaves it with the report.
    fn run<G: Gate>(
        &mut self,
        alloc: Global,
        worker: usize,
        board: &WordBoard,
        loops: &'a [Prepared],
        pieces: &Pieces,
        gate: &G,
    )
        requires ready { IsReadyPlace board.now self.old }
        requires each_loop { pieces.now.loops ≡ length loops.now }
        requires ceilings { All (λ p. p.ceiling ≡ pieces.now.ceiling) loops.now }
        requires loops { (sizes_of board.now).loops ≡ pieces.now.loops }
        requires pieces { (sizes_of board.now).pieces ≡ piece_count pieces.now }
        ensures { IsDonePlace board.now loops.now pieces.now (G.always_goes_on gate.now) self.new }
    {
        if let Some(pass) = self.pass.take() {
            let (pass, report) = work(alloc, worker, board, pass, loops, pieces, gate);
            self.pass = Some(pass);
            self.report = Some(report);
        }
    }

    /// The pass and the report.
    pub(crate) fn into_parts(self) -> (Option<WordPass>, Option<Report<'a>>)
        ensures pass { result.0 ≡ self.entry.pass }
        ensures report { result.1 ≡ self.entry.report }
    {
        let Place { pass, report } = self;
        (pass, report)
    }
}

/// Works with the pass of each place, each in a thread where one can be started.
pub(crate) fn run_all<'a, R: Threads + Sync, G: Gate + Sync>(
    rt: &R,
    alloc: Global,
    board: &WordBoard,
    places: &mut [Place<'a>],
    loops: &'a [Prepared],
    pieces: &Pieces,
    gate: &G,
)
    requires of { All (IsReadyPlace board.now) places.old }
    requires some { 0 < length places.old }
    requires each_loop { pieces.now.loops ≡ length loops.now }
    requires ceilings { All (λ p. p.ceiling ≡ pieces.now.ceiling) loops.now }
    requires loops { (sizes_of board.now).loops ≡ pieces.now.loops }
    requires pieces { (sizes_of board.now).pieces ≡ piece_count pieces.now }
    ensures all { length places.new ≡ length places.old }
    ensures done { All (IsDonePlace board.now loops.now pieces.now (G.always_goes_on gate.now)) places.new }
{
    change_in_threads(
        rt,
        places,
        &|worker, place| place.run(alloc, worker, board, loops, pieces, gate),
    );
}
