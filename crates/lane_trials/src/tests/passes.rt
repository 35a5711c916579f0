//! The record of a lane's passes.
use crate::tests::gates::KeepingGate;
use bank_lanes::Passes;

#[test]
fn a_record_passes_the_gate(rt: HostRuntime) {
    let gate = KeepingGate::new(1);
    let mut passes = Passes::none(2);
    passes.pass(&gate, 1);
    passes.pass(&gate, 0);
    assert!(rt; gate.was_passed_within());
}
