//! The limits of every text, setting and schedule, for all crates. Each constant is the greatest
//! value that is allowed; a text beyond a limit is refused, so no array, sum or table that is sized
//! by one overflows.

/// Bytes of a text: a machine text or a file of loops.
pub const MAX_TEXT: usize = 1_048_576;

/// Bytes of a name: of a unit, a loop, an array, a parameter or a value. The least is 1.
pub const MAX_NAME: usize = 16;

/// Functional units of a machine. The least is 1.
pub const MAX_UNITS: usize = 64;

/// Rotating registers of a machine. The least is 1.
pub const MAX_REGISTERS: u16 = 256;

/// Alternatives of an opcode: the reservation tables by which it may be issued. The least is 1.
pub const MAX_ALTERNATIVES: usize = 8;

/// Alternatives of an operation of a scheduling problem, and so of every operation. The least is 1.
pub const MAX_OPERATION_ALTERNATIVES: usize = 16;

/// Rows of an alternative. The least is 1.
pub const MAX_ROWS: usize = 16;

/// Cycles from the issue of an operation to the one in which a row of its alternative holds a unit.
pub const MAX_OFFSET: u8 = 63;

/// Cycles from the issue of an operation to the one in which its result lands. The least is 1.
pub const MAX_LATENCY: u8 = 64;

/// Loops of a file.
pub const MAX_LOOPS: usize = 1_024;

/// Statements of a loop, which are its operations. The least is 1.
pub const MAX_STATEMENTS: usize = 128;

/// Arrays of a loop.
pub const MAX_ARRAYS: usize = 32;

/// Parameters of a loop.
pub const MAX_PARAMETERS: usize = 64;

/// Opening cells that a loop writes for one of its arrays.
pub const MAX_CELLS: usize = 1_024;

/// Iterations that a use of a value reaches back, and the number of an initial value.
pub const MAX_DISTANCE: u8 = 16;

/// What a subscript adds to the number of the iteration; the least is the same number below 0.
pub const MAX_SUBSCRIPT: i8 = 64;

/// Iterations of a run.
pub const MAX_TRIP: u64 = 100_000;

/// Stages of a schedule: iterations that overlap. The least is 1.
pub const MAX_STAGES: u64 = 64;

/// Budget ratio: how many times as many placements as operations an attempt may make. The least is 1.
pub const MAX_RATIO: u64 = 64;

/// Ceiling: intervals above the lower bound that are tried after it.
pub const MAX_CEILING: u64 = 255;

/// Cut: intervals of one loop in a piece of work. The least is 1.
pub const MAX_CUT: u64 = 256;

/// Workers that schedule a file, and passes of the board that they share. The least is 1.
pub const MAX_WORKERS: usize = 64;

/// Cycles of an initiation interval. It is above every interval that is tried: a lower bound is at most
/// [`MAX_STATEMENTS`] times [`MAX_LATENCY`] cycles, 8,192, and at most [`MAX_CEILING`] more are tried.
pub const MAX_INTERVAL: u64 = 16_384;

/// Placements of one attempt: [`MAX_RATIO`] for each of [`MAX_STATEMENTS`] operations.
pub const MAX_BUDGET: u64 = 8_192;

/// Bytes of a name in a scheduling problem. The least is 1.
pub const MAX_LABEL: usize = 64;

/// Register files of a scheduling problem.
pub const MAX_FILES: usize = 8;

/// Kinds of operations of a scheduling problem. The least is 1.
pub const MAX_KINDS: usize = 256;

/// Values of a scheduling problem, of all its operations together.
pub const MAX_VALUES: usize = 256;

/// Reads of a scheduling problem, of all its operations together.
pub const MAX_READS: usize = 2_048;

/// Edges that a scheduling problem gives beside those that its reads imply.
pub const MAX_ORDERS: usize = 16_384;

/// Delay of a given edge, in cycles; the least is the same number below 0.
pub const MAX_DELAY: i64 = 64;

/// Distance of a given edge, in iterations.
pub const MAX_ORDER_DISTANCE: u64 = 255;

/// Pieces of work of a file: for each of [`MAX_LOOPS`] loops, one for each of [`MAX_CEILING`] + 1
/// intervals, where the cut is 1.
pub const MAX_PIECES: u64 = 262_144;
