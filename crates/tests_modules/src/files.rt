//! Modules that are read and written again, and what they lend.

use crate::printed::is_printed;
use bytecode::{decode, encode, laws};
use channels::{Device, SinkFault, ViewFault};
use common::{
    Arithmetic, BaseType, BitOperator, Comparison, Direction, OrNoMemory, Order, Sameness,
};
use listing::write_listing;
use modules::{
    Cell, Channel, Global, Handler, Instruction, MachineOperator, Module, Procedure, Slot, Storage,
    Version,
};
use std::alloc::Global as Heap;
use std::io::Cursor;
use std::test::Fail;

// One output `pub`, and one procedure that sends 7 on it.
const SENDS: [u8; 76] = [
    70, 76, 79, 66, 0, 0, 0, 1, 0, 0, 0, 0, 0, 0, 0, 0, 0, 0, 0, 0, 0, 0, 0, 1, 1, 0, 0, 0, 3, 112,
    117, 98, 0, 0, 0, 0, 0, 0, 0, 0, 0, 0, 0, 1, 0, 0, 0, 0, 0, 0, 0, 0, 0, 0, 0, 0, 11, 1, 0, 0,
    0, 7, 38, 0, 0, 0, 0, 35, 0, 0, 0, 0, 0, 0, 0, 0,
];

// The same of version 2, with a procedure that sends (7 ^ 33) << 33.
const BITS: [u8; 88] = [
    70, 76, 79, 66, 0, 0, 0, 2, 0, 0, 0, 0, 0, 0, 0, 0, 0, 0, 0, 0, 0, 0, 0, 1, 1, 0, 0, 0, 3, 112,
    117, 98, 0, 0, 0, 0, 0, 0, 0, 0, 0, 0, 0, 1, 0, 0, 0, 0, 0, 0, 0, 0, 0, 0, 0, 0, 23, 1, 0, 0,
    0, 7, 1, 0, 0, 0, 33, 42, 1, 0, 0, 0, 33, 43, 38, 0, 0, 0, 0, 35, 0, 0, 0, 0, 0, 0, 0, 0,
];

// A, B and C, who acts for both; an input `q` for everyone and an output `p` with two policies; and one procedure with a
// slot, which sends what it receives and -43 more.
const THREE: [u8; 160] = [
    70, 76, 79, 66, 0, 0, 0, 1, 0, 0, 0, 3, 0, 0, 0, 1, 65, 0, 0, 0, 1, 66, 0, 0, 0, 1, 67, 0, 0,
    0, 2, 0, 0, 0, 2, 0, 0, 0, 0, 0, 0, 0, 2, 0, 0, 0, 1, 0, 0, 0, 0, 0, 0, 0, 2, 0, 0, 0, 0, 1,
    113, 0, 0, 0, 0, 1, 0, 0, 0, 1, 112, 0, 0, 0, 2, 0, 0, 0, 0, 0, 0, 0, 2, 0, 0, 0, 1, 0, 0, 0,
    2, 0, 0, 0, 1, 0, 0, 0, 0, 0, 0, 0, 0, 0, 0, 0, 1, 0, 0, 0, 0, 0, 0, 0, 0, 1, 0, 0, 0, 0, 0, 0,
    0, 0, 27, 37, 0, 0, 0, 0, 5, 0, 0, 0, 0, 4, 0, 0, 0, 0, 1, 255, 255, 255, 213, 16, 38, 0, 0, 0,
    1, 35, 0, 0, 0, 0, 0, 0, 0, 0,
];

// An exception `Oops`, an input `q`, an output `p`, globals int -7, boolean true, int[3] and boolean[2], and three procedures:
// `main` with a boolean and an int[2] and one handler, one of an int that returns an int, and one that returns a boolean.
const MANY: [u8; 192] = [
    70, 76, 79, 66, 0, 0, 0, 1, 0, 0, 0, 0, 0, 0, 0, 0, 0, 0, 0, 1, 0, 0, 0, 4, 79, 111, 112, 115,
    0, 0, 0, 2, 0, 0, 0, 0, 1, 113, 0, 0, 0, 0, 1, 0, 0, 0, 1, 112, 0, 0, 0, 0, 0, 0, 0, 4, 0, 0,
    0, 0, 0, 255, 255, 255, 249, 1, 0, 0, 0, 0, 0, 0, 0, 1, 0, 0, 0, 0, 3, 1, 0, 0, 0, 2, 0, 0, 0,
    3, 0, 0, 0, 0, 0, 0, 0, 0, 2, 1, 0, 0, 0, 0, 0, 0, 0, 0, 2, 0, 0, 0, 8, 2, 1, 5, 0, 0, 0, 0,
    35, 0, 0, 0, 1, 0, 0, 0, 0, 0, 0, 0, 2, 0, 0, 0, 3, 0, 0, 0, 7, 1, 0, 0, 0, 1, 0, 0, 0, 1, 0,
    0, 0, 0, 0, 0, 0, 0, 7, 4, 0, 0, 0, 0, 21, 36, 0, 0, 0, 0, 2, 0, 0, 0, 0, 0, 0, 0, 0, 0, 0, 0,
    3, 2, 0, 36, 0, 0, 0, 0, 0, 0, 0, 0,
];

#[test]
fn the_laws_are_called(_rt: HostRuntime) {
    laws::one_spelling();
    laws::no_spelling_is_a_prefix();
    laws::spellings_are_not_refused();
    laws::bytes_are_spelled_or_refused();
    laws::refusals_stand_inside();
    common::laws::limits_are_as_written();
    common::laws::built_in_exceptions_are_as_written();
    modules::laws::instructions_are_spelled();
    modules::laws::modules_have_instructions_of_their_version();
    modules::laws::versions_keep_modules();
    verifier::safety::modules_that_no_rule_refuses_are_never_stuck();
    verifier::safety::refused_modules_break_a_rule();
    verifier::safety::frames_stay_within_their_depth();
    verifier::safety::positions_stand_for_their_offsets();
}

// Whether a module that is read from bytes is written as the same bytes.
fn is_written_again(alloc: Heap, bytes: &[u8]) -> Result<bool, Fail> {
    let module = decode(alloc, bytes)?;
    let written = encode(alloc, &module)?;
    Ok(written.as_slice() == bytes)
}

#[test]
fn writes_what_it_read(rt: HostRuntime) -> Result<(), Fail> {
    let files = [
        SENDS.as_slice(),
        BITS.as_slice(),
        THREE.as_slice(),
        MANY.as_slice(),
    ];
    for bytes in files {
        assert!(rt; is_written_again(rt.alloc(), bytes)?);
    }
    Ok(())
}

// Whether bytes are a module of this version.
fn has_version(alloc: Heap, bytes: &[u8], version: Version) -> Result<bool, Fail> {
    let module = decode(alloc, bytes)?;
    Ok(module.version() == version)
}

#[test]
fn keeps_the_version(rt: HostRuntime) -> Result<(), Fail> {
    for (byte, number, version) in [(1, 1, Version::One), (2, 2, Version::Two)] {
        let mut bytes = SENDS;
        bytes[7] = byte;
        assert!(rt; version.number() == number && has_version(rt.alloc(), &bytes, version)?);
        assert!(rt; is_written_again(rt.alloc(), &bytes)?);
    }
    Ok(())
}

// How many exceptions, globals, channels and procedures a module has, and where it starts.
fn counts_of(module: &Module) -> [usize; 5] {
    let start = module.main() as usize;
    let (exceptions, globals) = (module.exceptions().len(), module.globals().len());
    let (channels, procedures) = (module.channels().len(), module.procedures().len());
    [exceptions, globals, channels, procedures, start]
}

// Whether a module has no principal, and the lists of the first module.
fn has_one_output(module: &Module) -> bool {
    if counts_of(module) != [0, 0, 1, 1, 0] || module.hierarchy().count() != 0 {
        return false;
    }
    let [channel] = module.channels() else {
        return false;
    };
    let is_output = channel.name() == "pub" && channel.direction() == Direction::Output;
    is_output && channel.label().is_empty()
}

// Whether a procedure has no value, parameter, slot and handler, and this code of the first module.
fn sends_seven(procedure: &Procedure) -> bool {
    let plain = procedure.returned().is_none() && procedure.parameters() == 0;
    let bare = procedure.slots().is_empty() && procedure.handlers().is_empty();
    let code = procedure.code();
    let is_wanted = matches!(
        code,
        [
            Instruction::Push(7),
            Instruction::Send(0),
            Instruction::Return
        ]
    );
    plain && bare && is_wanted && code.iter().map(|one| one.width()).max() == Some(5)
}

// Whether a module has one procedure, that of the first module.
fn has_its_code(module: &Module) -> bool {
    let [procedure] = module.procedures() else {
        return false;
    };
    sends_seven(procedure)
}

#[test]
fn lends_its_lists_and_its_code(rt: HostRuntime) -> Result<(), Fail> {
    let module = decode(rt.alloc(), &SENDS)?;
    assert!(rt; has_one_output(&module) && has_its_code(&module));
    Ok(())
}

// Whether the label of a channel has two policies, one for B and C and one of B.
fn has_two_policies(channel: &Channel) -> bool {
    let [first, second] = channel.label().policies() else {
        return false;
    };
    first.readers() == [1, 2].as_slice() && second.owner() == 1
}

// Whether the names, pairs, channels and slots of a module are those of the third one.
fn has_names_and_labels(module: &Module) -> bool {
    let hierarchy = module.hierarchy();
    if hierarchy.name(2) != Some("C") || hierarchy.pairs() != [(2, 0), (2, 1)].as_slice() {
        return false;
    }
    let ([input, output], [procedure]) = (module.channels(), module.procedures()) else {
        return false;
    };
    let slots = [Slot::Scalar(BaseType::Int)];
    let is_named = input.direction() == Direction::Input && output.name() == "p";
    is_named && has_two_policies(output) && procedure.slots() == slots.as_slice()
}

#[test]
fn lends_names_and_labels(rt: HostRuntime) -> Result<(), Fail> {
    let module = decode(rt.alloc(), &THREE)?;
    assert!(rt; has_names_and_labels(&module));
    Ok(())
}

// Whether these are the globals of the last module.
fn are_four(globals: &[Global]) -> bool {
    let four = [
        Global::Int(-7),
        Global::Boolean(true),
        Global::Array(BaseType::Int, 3),
        Global::Array(BaseType::Boolean, 2),
    ];
    globals == four.as_slice()
}

// Whether a procedure has the slots and the handler of the last module's first one.
fn has_a_handler(procedure: &Procedure) -> bool {
    let slots = [
        Slot::Scalar(BaseType::Boolean),
        Slot::Array(BaseType::Int, 2),
    ];
    let handlers = [Handler {
        start: 0,
        end: 2,
        exception: 3,
        target: 7,
    }];
    procedure.slots() == slots.as_slice() && procedure.handlers() == handlers.as_slice()
}

// Whether a procedure has so many parameters, and returns a value of this type.
fn returns(procedure: &Procedure, parameters: u32, returned: BaseType) -> bool {
    procedure.parameters() == parameters && procedure.returned() == Some(returned)
}

// Whether the globals, slots and handlers of a module are those of the last one.
fn has_globals_and_handlers(module: &Module) -> bool {
    if counts_of(module) != [1, 4, 2, 3, 0] || !are_four(module.globals()) {
        return false;
    }
    let [main, first, second] = module.procedures() else {
        return false;
    };
    let are_values = returns(first, 1, BaseType::Int) && returns(second, 0, BaseType::Boolean);
    has_a_handler(main) && are_values
}

#[test]
fn lends_globals_and_handlers(rt: HostRuntime) -> Result<(), Fail> {
    let module = decode(rt.alloc(), &MANY)?;
    assert!(rt; has_globals_and_handlers(&module));
    Ok(())
}

#[test]
fn prints_names_and_operands(rt: HostRuntime) -> Result<(), Fail> {
    let printed = [
        (Instruction::Push(-7), "PUSH -7"),
        (Instruction::PushBoolean(true), "PUSHB true"),
        (Instruction::PushBoolean(false), "PUSHB false"),
        (
            Instruction::Load(Storage::Global, 4294967295),
            "GLOAD 4294967295",
        ),
        (Instruction::StoreElement(Storage::Local, 0), "ASTORE 0"),
        (
            Instruction::Operate(MachineOperator::Compute(Arithmetic::Remainder)),
            "REM",
        ),
        (
            Instruction::Operate(MachineOperator::Compute(Arithmetic::Bits(BitOperator::BitAnd))),
            "AND",
        ),
        (
            Instruction::Operate(MachineOperator::Compute(Arithmetic::Bits(BitOperator::BitOr))),
            "OR",
        ),
        (
            Instruction::Operate(MachineOperator::Compute(Arithmetic::Bits(BitOperator::BitXor))),
            "XOR",
        ),
        (
            Instruction::Operate(MachineOperator::Compute(Arithmetic::Bits(
                BitOperator::ShiftLeft,
            ))),
            "SHL",
        ),
        (
            Instruction::Operate(MachineOperator::Compute(Arithmetic::Bits(
                BitOperator::ShiftRight,
            ))),
            "SHR",
        ),
        (
            Instruction::Operate(MachineOperator::Compute(Arithmetic::Bits(
                BitOperator::ShiftRightUnsigned,
            ))),
            "USHR",
        ),
        (
            Instruction::Operate(MachineOperator::Compare(Comparison::Ordered(Order::AtMost))),
            "LE",
        ),
        (
            Instruction::Operate(MachineOperator::Match(Sameness::Different)),
            "BNE",
        ),
        (Instruction::JumpIfFalse(10), "JFALSE 10"),
        (Instruction::ReturnValue, "RETV"),
        (Instruction::Throw(3), "THROW 3"),
    ];
    for (instruction, text) in printed {
        assert!(rt; is_printed(rt.alloc(), &instruction, text)?, "{text}");
    }
    Ok(())
}

#[test]
fn values_have_kinds(rt: HostRuntime) {
    assert!(rt;
        Cell::zero_of(BaseType::Int) == Cell::Int(0)
            && Cell::zero_of(BaseType::Boolean) == Cell::Bool(false)
    );
    assert!(rt;
        Cell::Int(5).kind() == BaseType::Int && Cell::Bool(true).kind() == BaseType::Boolean
    );
}

// What is listed of the first module where there is room for four bytes, and how listing it ends.
fn listed_in_four(alloc: Heap) -> Result<([u8; 4], Result<(), ViewFault>), Fail> {
    let module = decode(alloc, &SENDS)?;
    let mut device = Device::new(Cursor::new([0u8; 4]));
    let listed = write_listing(alloc, &module, &mut device);
    Ok((device.into_inner().into_inner(), listed))
}

// A sink with room for four bytes takes the first four.
#[test]
fn lists_up_to_a_failure(rt: HostRuntime) -> Result<(), Fail> {
    let (bytes, listed) = listed_in_four(rt.alloc())?;
    assert_eq!(rt; listed, Err(OrNoMemory::Refused(SinkFault)));
    assert_eq!(rt; bytes, *b"outp");
    Ok(())
}
