//! What outputs promise: a law, stated by the contract of a function that does nothing.

ghost use Rattle.lines_of_runs.specs.Runs.{KernelsTellPlainLines};

/// What `run` tells of a kernel that runs as its loop is what `plain` tells of the loop.
pub fn kernels_tell_plain_lines()
    ensures { KernelsTellPlainLines }
{}
