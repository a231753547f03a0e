//! Tasks on a standard output that takes nothing.

ghost use Rattle.std.specs.Prelude.{true};

use channels::{Device, Sink, SinkFault};
use flowc::{Done, perform, task};
use std::alloc::Global;
use std::test::Fail;

// The module that sends 7 on its only channel, the output `pub`, and ends.
const SEVEN: [u8; 76] = [
    70, 76, 79, 66, 0, 0, 0, 1, 0, 0, 0, 0, 0, 0, 0, 0, 0, 0, 0, 0, 0, 0, 0, 1, 1, 0, 0, 0, 3, 112,
    117, 98, 0, 0, 0, 0, 0, 0, 0, 0, 0, 0, 0, 1, 0, 0, 0, 0, 0, 0, 0, 0, 0, 0, 0, 0, 11, 1, 0, 0,
    0, 7, 38, 0, 0, 0, 0, 35, 0, 0, 0, 0, 0, 0, 0, 0,
];

// A sink that takes nothing.
#[derive(Drop)]
struct Closed;

impl Sink for Closed {
    ghost has_failed = { λ _. true };

    fn write(&mut self, _bytes: &[u8]) -> Result<usize, SinkFault> {
        Err(SinkFault)
    }

    fn failed(&self) -> bool {
        true
    }
}

// Runs the module for a standard output that takes nothing, and leaves what goes to standard error in a list.
fn run_closed<E: Sink>(alloc: Global, err: &mut E) -> Result<Done, Fail> {
    let asked = task(alloc, &["flowc", "run", "m.flob", "w.txt"])?;
    let files = [Vec::from_slice(alloc, &SEVEN)?, Vec::new(alloc)];
    Ok(perform(alloc, &asked, &files, &mut Closed, err))
}

#[test]
fn reports_an_output_that_fails(rt: HostRuntime) -> Result<(), Fail> {
    let mut err = Device::new(Vec::new(rt.alloc()));
    let outcome = run_closed(rt.alloc(), &mut err)?;
    assert_eq!(rt; outcome.status, 3);
    assert!(rt; outcome.code.is_none());
    let line = b"flowc: cannot write\n".as_slice();
    assert_eq!(rt; err.into_inner().as_slice(), line);
    Ok(())
}

// Where standard error fails too, the status is the same.
#[test]
fn an_error_that_fails_too_changes_no_status(rt: HostRuntime) -> Result<(), Fail> {
    let outcome = run_closed(rt.alloc(), &mut Closed)?;
    assert_eq!(rt; outcome.status, 3);
    Ok(())
}
