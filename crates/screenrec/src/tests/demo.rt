//! A demo. An independent model of the recorder in Python gave the length of its stream.
use crate::{Status, run, run_demo};
use edges::{CalmShelf, MemorySink};
use gate::NoGate;
use std::test::Fail;

const BYTES: u64 = 158_209;

#[test]
fn the_demo_of_zero(rt: HostRuntime) -> Result<(), Fail> {
    let alloc = rt.alloc();
    let mut report = MemorySink::new(alloc, &[])?;
    let outcome = run_demo(alloc, &["demo", "0"], &mut report);
    assert_eq!(rt; outcome.status, Status::Ok);
    assert_eq!(rt; outcome.status.number(), 0);
    assert_eq!(rt; outcome.order.as_slice().len(), 240);
    assert_eq!(rt; outcome.written, BYTES);
    assert_eq!(rt;
        report.text(),
        b"pictures 6\npaints 234\nbytes 158209\n".as_slice()
    );
    Ok(())
}

#[test]
fn a_report_of_a_demo_that_fails(rt: HostRuntime) -> Result<(), Fail> {
    let alloc = rt.alloc();
    let mut shelf = CalmShelf::new(alloc)?;
    let mut report = MemorySink::new(alloc, &[(0, 3)])?;
    let outcome = run(&rt, alloc, &["demo", "0"], &mut shelf, &mut report, &NoGate);
    assert_eq!(rt; outcome.status, Status::ReportFault);
    assert_eq!(rt; outcome.status.number(), 6);
    assert_eq!(rt; outcome.order.as_slice().len(), 240);
    assert_eq!(rt; outcome.written, BYTES);
    assert_eq!(rt; report.text(), b"pic".as_slice());
    Ok(())
}
