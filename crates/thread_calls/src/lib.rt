//! Makes each of several calls in a thread of its own, or in the calling thread where none can be started.
//!
//! What the calls give depends on no thread. Calls go by numbers (`call_in_threads`), there is one for each item
//! (`change_in_threads`), or there are two (`both_in_threads`). No other crate of the program starts threads. A new
//! thread first lets others run: it may stand on the processor of the thread that is starting them.
#![tactic(auto)]

mod calls;

pub use calls::{both_in_threads, call_in_threads, change_in_threads};
