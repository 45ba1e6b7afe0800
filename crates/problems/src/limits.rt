//! The limits of texts of scheduling problems and of their solutions. Each constant is the greatest value that is allowed; a
//! text beyond a limit is refused. Those of a machine and of a single problem stand in [`machine_data::limits`].

/// Bytes of a text of problems, and of a text of solutions.
pub const MAX_PROBLEM_TEXT: usize = 16_777_216;

/// Problems of a text of problems, and solutions of a text of solutions.
pub const MAX_PROBLEMS: usize = 4_096;
