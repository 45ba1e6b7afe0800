//! Kernels that are refused.

use super::briefs::{Brief, parts_of};
use super::runs::{SHARED_LOAD, SHARED_STORE, SHARED_SUM, SHARING};
use kernel::{BadKernel, Kernel, Rule};
use machine::Opcode::Load;
use std::alloc::Global;
use std::process::Abort;

/// A cell as far away as one can be.
const FAR: Brief = Brief {
    operations: &[
        ((0, 0, 1, 0), Load, Some(0), &[], Some((0, 64))),
        SHARED_LOAD,
        SHARED_SUM,
        SHARED_STORE,
    ],
    ..SHARING
};

/// A cell that is too far away.
const TOO_FAR: Brief = Brief {
    operations: &[
        ((0, 0, 1, 0), Load, Some(0), &[], Some((0, 65))),
        SHARED_LOAD,
        SHARED_SUM,
        SHARED_STORE,
    ],
    ..SHARING
};

const NO_STAGE: Brief = Brief {
    stages: 0,
    ..SHARING
};

/// Two initial values of one register.
const TWICE: Brief = Brief {
    preloads: &[(1, 5), (1, 6)],
    ..SHARING
};

/// Parts, and the rule that they break, if any.
type Broken = (&'static Brief, Option<Rule>);

const CHECKED: &[Broken] = &[
    (&FAR, None),
    (&TOO_FAR, Some(Rule::Place)),
    (&NO_STAGE, Some(Rule::Size)),
    (&TWICE, Some(Rule::Preload)),
];

/// These parts break this rule, or none.
fn breaks(rt: &impl Abort, alloc: Global, checked: &Broken) -> bool {
    match Kernel::check(parts_of(rt, alloc, checked.0)) {
        Ok(_kernel) => checked.1.is_none(),
        Err(
            BadKernel {
                rule,
                parts: _parts,
            },
        ) => checked.1 == Some(rule),
    }
}

fn all_checked() -> &'static [Broken] {
    CHECKED
}

#[test]
fn refuses_kernels(rt: HostRuntime) {
    for checked in all_checked() {
        assert!(rt; breaks(&rt, rt.alloc(), checked), "{:?}", checked.1);
    }
}
