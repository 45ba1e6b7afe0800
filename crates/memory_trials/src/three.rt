//! What calls are lent.

ghost use Rattle.std.specs.Prelude.{◌≡◌, IfOk, IsTrue, vec_len};
ghost use Rattle.std.specs.List.{All};
ghost use Rattle.board.specs.Boards.{IsNewPassOf, sizes_of};
ghost use Rattle.board.specs.Names.{terms_of};

use crate::answers::NotBegun;
use board::{WordBoard, WordPass};
use candidates::Settings;
use loop_schedules::Prepared;
use std::alloc::Global;
use std::thread::Threads;
use worked_texts::{THREE, TWO_REGISTERS};
use workers::{OpenGate, pipeline};

/// Three loops, prepared with a ceiling of 3. By one interval a piece that is 12 pieces.
#[derive(Drop)]
pub struct Three {
    pub loops: Vec<Prepared>,
    pub ghost number: { vec_len loops ≡ 3 },
    pub ghost ceilings: { All (λ (p : _). p.ceiling ≡ 3) loops.items },
}

/// The three loops of the text.
pub fn given_three<R: Threads + Sync>(rt: &R, alloc: Global) -> Result<Three, NotBegun> {
    let settings = Settings::new(6, 3, 1, 1)?;
    let (machine, loops) = (TWO_REGISTERS.as_bytes(), THREE.as_bytes());
    let (loops, _) = pipeline(rt, alloc, machine, loops, &settings, &OpenGate)?;
    if loops.len() != 3 || !have_ceiling(loops.as_slice()) {
        return Err(NotBegun);
    }
    Ok(Three { loops })
}

/// Whether each loop is tried at 3 intervals above its least one.
fn have_ceiling(loops: &[Prepared]) -> bool
    ensures { IsTrue result → All (λ p. p.ceiling ≡ 3) loops.now }
{
    loops.iter().all(|prepared| prepared.ceiling() == 3)
}

/// A board of words for the three loops, with one pass.
pub fn given_board(alloc: Global) -> Result<(WordBoard, WordPass), NotBegun>
    ensures sizes { IfOk result (λ r. sizes_of r.0 ≡ terms_of 3 12 1) }
    ensures pass { IfOk result (λ r. IsNewPassOf r.0 r.1) }
{
    let (board, mut passes) = WordBoard::new(alloc, 1, 3, 12, 1)?;
    let Some(pass) = passes.pop() else {
        return Err(NotBegun);
    };
    Ok((board, pass))
}
