//! Pieces.

use candidates::Pieces;

// Three loops with the intervals from 0 to 3 above their least ones, two intervals a piece: the fifth
// piece is the second one of the second loop.
#[test]
fn pieces_are_drawn_loop_by_loop(rt: HostRuntime) {
    let pieces = Pieces::of(3, 3, 2);
    assert_eq!(rt;
        (pieces.loops(), pieces.ceiling(), pieces.number()),
        (3, 3, 6)
    );
    let piece = pieces.piece(4);
    assert_eq!(rt; (piece.loop_number, piece.start, piece.end), (1, 2, 4));
    assert_eq!(rt; Pieces::of(0, 3, 2).number(), 0);
}
