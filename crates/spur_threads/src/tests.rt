//! What the types are to threads.

use crate::NoGate;

/// Takes a value that may be shared between threads.
fn share<T: Sync>(_value: &T) {}

#[test]
fn a_gate_that_does_nothing_may_be_shared(_rt: HostRuntime) {
    share(&NoGate);
}
