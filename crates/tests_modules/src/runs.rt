//! Runs of a machine, counted step by step.

use bytecode::{decode, encode};
use channels::World;
use common::{OrNoMemory, Pair};
use machine::{Machine, NewFault, NewRefusal, Status};
use modules::{Cell, Instruction, Module};
use std::alloc::Global;
use std::test::Fail;
use verifier::{Verified, load, verify};

// One output `pub`, and one procedure: PUSH 7, SEND 0, RET.
const SENDS: [u8; 76] = [
    70, 76, 79, 66, 0, 0, 0, 1, 0, 0, 0, 0, 0, 0, 0, 0, 0, 0, 0, 0, 0, 0, 0, 1, 1, 0, 0, 0, 3, 112,
    117, 98, 0, 0, 0, 0, 0, 0, 0, 0, 0, 0, 0, 1, 0, 0, 0, 0, 0, 0, 0, 0, 0, 0, 0, 0, 11, 1, 0, 0,
    0, 7, 38, 0, 0, 0, 0, 35, 0, 0, 0, 0, 0, 0, 0, 0,
];

// The same with an input `q` before the output.
const MODULE: [u8; 86] = [
    70, 76, 79, 66, 0, 0, 0, 1, 0, 0, 0, 0, 0, 0, 0, 0, 0, 0, 0, 0, 0, 0, 0, 3, 0, 0, 0, 0, 1, 113,
    0, 0, 0, 0, 1, 0, 0, 0, 3, 112, 117, 98, 0, 0, 0, 0, 0, 0, 0, 0, 1, 114, 0, 0, 0, 0, 0, 0, 0,
    0, 0, 0, 0, 1, 0, 0, 0, 0, 0, 0, 0, 0, 0, 0, 0, 0, 1, 35, 0, 0, 0, 0, 0, 0, 0, 0,
];

// The first one with a scalar and an array of ten ints as slots.
const SLOTS: [u8; 86] = [
    70, 76, 79, 66, 0, 0, 0, 1, 0, 0, 0, 0, 0, 0, 0, 0, 0, 0, 0, 0, 0, 0, 0, 1, 1, 0, 0, 0, 3, 112,
    117, 98, 0, 0, 0, 0, 0, 0, 0, 0, 0, 0, 0, 1, 0, 0, 0, 0, 0, 0, 0, 0, 2, 0, 0, 0, 0, 0, 0, 0, 0,
    0, 10, 0, 0, 0, 11, 1, 0, 0, 0, 7, 38, 0, 0, 0, 0, 35, 0, 0, 0, 0, 0, 0, 0, 0,
];

// A module, made anew where memory runs out.
fn module_of(alloc: Global, bytes: &[u8]) -> Option<Module> {
    for _ in 0..2 {
        if let Ok(module) = decode(alloc, bytes) {
            return Some(module);
        }
    }
    None
}

// The machine of a module without inputs, or none where memory runs out.
fn machine_once(alloc: Global, bytes: &[u8]) -> Option<Machine> {
    let module = module_of(alloc, bytes)?;
    let world = World::read(alloc, &module, "").ok()?;
    let verified = verify(alloc, module).ok()?;
    Machine::new(alloc, verified, world).ok()
}

// The same, made anew where memory runs out.
fn machine_of(alloc: Global, bytes: &[u8]) -> Option<Machine> {
    for _ in 0..4 {
        if let Some(machine) = machine_once(alloc, bytes) {
            return Some(machine);
        }
    }
    None
}

// Whether a module has these bytes as its spelling.
fn is_spelled(alloc: Global, module: &Module, bytes: &[u8]) -> bool {
    match encode(alloc, module) {
        Ok(spelled) => spelled.as_slice() == bytes,
        Err(_) => false,
    }
}

// The machine of a verified module without inputs, or none where memory runs out.
fn started(alloc: Global, verified: Verified) -> Option<Machine> {
    let world = World::read(alloc, verified.module(), "").ok()?;
    Machine::new(alloc, verified, world).ok()
}

// Whether a run takes the steps that are asked for or ends.
fn goes_on(machine: &mut Machine, steps: u64) -> bool {
    match machine.run(steps) {
        (taken, Status::Running) => taken == steps,
        (_, Status::NoMemory) => false,
        _ => true,
    }
}

// What a test learns of a verified module: that it has no other spelling, and that its run goes on or ends.
fn is_well(alloc: Global, verified: Verified, bytes: &[u8], steps: u64) -> bool {
    if !is_spelled(alloc, verified.module(), bytes) {
        return false;
    }
    match started(alloc, verified) {
        Some(mut machine) => goes_on(&mut machine, steps),
        None => false,
    }
}

// Whether bytes are a module. Such a module has no other spelling, and its run takes the steps that are asked for or ends.
fn is_module(alloc: Global, bytes: &[u8], steps: u64) -> Result<bool, Fail> {
    match load(alloc, bytes) {
        Ok(verified) => {
            if is_well(alloc, verified, bytes, steps) {
                Ok(true)
            } else {
                None.ok_or("another spelling, or a run that stands still")?
            }
        }
        Err(OrNoMemory::NoMemory) => None.ok_or("no memory")?,
        Err(OrNoMemory::Refused(_)) => Ok(false),
    }
}

// Each byte of the first module is changed to each other value.
#[test]
fn a_changed_byte_is_refused_or_runs(rt: HostRuntime) -> Result<(), Fail> {
    let mut accepted: u32 = 0;
    for place in 0..SENDS.len() {
        for other in 1..=255 {
            let mut bytes = SENDS;
            if let Some(byte) = bytes.get_mut(place) {
                *byte ^= other;
            }
            if is_module(rt.alloc(), &bytes, 10_000)? {
                accepted = accepted.wrapping_add(1);
            }
        }
    }
    assert_eq!(rt; accepted, 1200);
    Ok(())
}

// Whether a run takes these steps, and stands so after each call.
fn counts(machine: &mut Machine, calls: &[(u64, u64, Status)]) -> bool {
    for (steps, taken, status) in calls {
        if machine.run(*steps) != (*taken, *status) {
            return false;
        }
    }
    true
}

// Whether a run has sent 7 alone, on the one channel of its module.
fn has_sent_seven(machine: &Machine) -> bool {
    let (channel, number) = (0, 7);
    let is_alone = machine.module().channels().len() == 1;
    is_alone && machine.sent().pairs() == [Pair { channel, number }].as_slice()
}

#[test]
fn counts_its_steps(rt: HostRuntime) -> Result<(), Fail> {
    let mut machine = machine_of(rt.alloc(), &SENDS).ok_or("no machine")?;
    let calls: [(u64, u64, Status); 5] = [
        (0, 0, Status::Running),
        (2, 2, Status::Running),
        (5, 1, Status::Finished),
        (5, 0, Status::Finished),
        (0, 0, Status::Finished),
    ];
    assert!(rt; counts(&mut machine, &calls) && has_sent_seven(&machine));
    Ok(())
}

// Whether a run takes as many steps as it is asked for, stands so then, and lends these values.
fn lends(machine: &mut Machine, steps: u64, status: Status, cells: &[Cell]) -> bool {
    let is_counted = machine.run(steps) == (steps, status);
    is_counted && machine.slab() == cells && machine.cells() == cells.len() as u64
}

// SEND takes the operand, and the run goes on.
fn lends_its_operand(machine: &mut Machine) -> bool {
    let one = [Cell::Int(7)];
    lends(machine, 0, Status::Running, &[])
        && lends(machine, 1, Status::Running, &one)
        && lends(machine, 1, Status::Running, &[])
        && lends(machine, 1, Status::Finished, &[])
}

// Before the first step the slots are there, an array element by element.
fn lends_its_slots(machine: &mut Machine) -> bool {
    let slots = [Cell::Int(0); 11];
    lends(machine, 0, Status::Running, &slots) && lends(machine, 3, Status::Finished, &[])
}

#[test]
fn lends_the_values_of_its_frames(rt: HostRuntime) -> Result<(), Fail> {
    let mut machine = machine_of(rt.alloc(), &SENDS).ok_or("no machine")?;
    assert!(rt; lends_its_operand(&mut machine));
    Ok(())
}

#[test]
fn lends_all_slots_of_the_first_frame(rt: HostRuntime) -> Result<(), Fail> {
    let mut machine = machine_of(rt.alloc(), &SLOTS).ok_or("no machine")?;
    assert!(rt; lends_its_slots(&mut machine));
    Ok(())
}

// Whether a run ends with its third step, at once or, where memory ran out, by a second call, and has sent once then.
fn ends_at_once_or_again(machine: &mut Machine) -> bool {
    let (taken, status) = machine.run(5);
    if status == Status::NoMemory {
        let is_unchanged = taken < 2 && machine.sent().pairs().is_empty();
        is_unchanged && machine.run(5) == (3 - taken, Status::Finished)
    } else {
        taken == 3 && status == Status::Finished
    }
}

// A step for which memory runs out changes nothing, and is taken by the next call.
#[test]
fn tries_a_refused_step_again(rt: HostRuntime) -> Result<(), Fail> {
    let mut machine = machine_of(rt.alloc(), &SENDS).ok_or("no machine")?;
    assert!(rt; ends_at_once_or_again(&mut machine) && has_sent_seven(&machine));
    Ok(())
}

// The fault of a machine of the first module on a world of the second.
fn fault_of_another_world(alloc: Global) -> Option<NewFault> {
    let module = module_of(alloc, &SENDS)?;
    let verified = verify(alloc, module).ok()?;
    let other = module_of(alloc, &MODULE)?;
    let world = World::read(alloc, &other, "").ok()?;
    Machine::new(alloc, verified, world).err()
}

#[test]
fn refuses_the_world_of_another_module(rt: HostRuntime) {
    let mut fault = fault_of_another_world(rt.alloc());
    if fault.is_none() || fault == Some(OrNoMemory::NoMemory) {
        fault = fault_of_another_world(rt.alloc());
    }
    let refused = OrNoMemory::Refused(NewRefusal::UnknownChannel);
    assert_eq!(rt; fault, Some(refused));
}

// Whether a verified module lends its one procedure, and its code with the greatest depth of that.
fn lends_its_code(verified: &Verified) -> bool {
    if verified.module().procedures().len() != 1 || verified.greatest_depth(0) != 1 {
        return false;
    }
    let code = verified.code(0);
    code.len() == 3 && matches!(code[0], Instruction::Push(7))
}

#[test]
fn a_verified_module_is_lent(rt: HostRuntime) -> Result<(), Fail> {
    let verified = load(rt.alloc(), &SENDS)?;
    assert!(rt; lends_its_code(&verified));
    Ok(())
}
