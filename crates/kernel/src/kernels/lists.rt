//! The lists that a kernel is made of. Contracts see each as a list.

use crate::kernels::operation::{Operation, Source};
use crate::kernels::parts::{Out, Preload};
use loop_data::{ListOf, Param, ShortListOf};
use machine_data::Name;

/// What an operation reads, in order.
pub type Sources = ShortListOf<Source>;

/// Operations, by their numbers.
pub type Operations = ListOf<Operation>;

/// Parameters, by their numbers.
pub type Params = ListOf<Param>;

/// The names of arrays, by the arrays' numbers.
pub type ArrayNames = ListOf<Name>;

/// Initial values of registers.
pub type Preloads = ListOf<Preload>;

/// Values that are live at the end.
pub type Outs = ListOf<Out>;
