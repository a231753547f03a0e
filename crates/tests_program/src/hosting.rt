//! The example for hosts of the README: `tools/check-docs` compares its lines with those there.

use flowc::{Host, HostFault, Pair, World};
use std::alloc::Global;
use std::test::Fail;

// What a principal sees of the first 10,000 steps of a module, such as `flowc::compile` gives.
fn show(
    alloc: Global,
    module: &[u8],
    world: World,
    principal: u32,
) -> Result<Vec<Pair>, HostFault> {
    let mut host = Host::new(alloc);
    let session = host.open(module, world)?;
    let (_steps, _status) = host.turn(session, 10_000)?;
    host.view(session, principal)
}

// How many pairs two principals see, of whom the first owns the first of two outputs.
fn pairs_seen(alloc: Global) -> Option<(usize, usize)> {
    let hierarchy = b"principal Alice, Bob;";
    let source = b"output{Alice:} own; output{} all; void main() { send own, 1; send all, 2; }";
    let code = flowc::compile(alloc, hierarchy, source).ok()?;
    let alice = show(alloc, code.as_slice(), World::of(Vec::new(alloc)), 0).ok()?;
    let bob = show(alloc, code.as_slice(), World::of(Vec::new(alloc)), 1).ok()?;
    Some((alice.len(), bob.len()))
}

#[test]
fn shows_what_a_principal_may_read(rt: HostRuntime) -> Result<(), Fail> {
    assert!(rt; pairs_seen(rt.alloc()) == Some((2, 1)));
    Ok(())
}
