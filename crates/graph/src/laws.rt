//! What dependences promise: laws, stated by the contracts of functions that do nothing.

ghost use Rattle.graph.specs.Promises.{ValuesInTime, StoresInTime, LoadsInTime, StoresInOrder, CircuitsTakeIterations};

/// A schedule that keeps the dependences of a loop issues no use of a value before it has landed.
pub fn values_in_time()
    ensures { ValuesInTime }
{}

/// A schedule that keeps the dependences of a loop issues no load of a cell before the stores to it
/// have landed that come first in the plain run.
pub fn stores_in_time()
    ensures { StoresInTime }
{}

/// A schedule that keeps the dependences of a loop lets no store land on a cell before the loads of it
/// have been issued that come first in the plain run.
pub fn loads_in_time()
    ensures { LoadsInTime }
{}

/// A schedule that keeps the dependences of a loop lets stores land on a cell in the order of the plain
/// run.
pub fn stores_in_order()
    ensures { StoresInOrder }
{}

/// Each circuit of dependences goes over iterations: none has distance 0.
pub fn circuits_take_iterations()
    ensures { CircuitsTakeIterations }
{}
