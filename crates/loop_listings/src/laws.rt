//! Laws of pieces, stated by the contract of a function that does nothing.

ghost use Rattle.loop_listings.specs.Pieces.{PiecesData, IsCutting, EachInOnePiece, NoneIsEmpty};

/// Every interval of every loop is in exactly one piece, and no piece is empty.
pub fn pieces_cover()
    ensures each { (pieces : PiecesData) → IsCutting pieces → EachInOnePiece pieces }
    ensures some { (pieces : PiecesData) → IsCutting pieces → NoneIsEmpty pieces }
{}
