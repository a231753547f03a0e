//! Worlds, lists of what was sent, and sinks that fail.

use bytecode::decode;
use channels::{Device, InputList, Sent, Sink, SinkFault, World, write_all, write_view};
use common::{OrNoMemory, Pair};
use modules::Module;
use std::alloc::Global;
use std::io::Cursor;
use std::test::Fail;

// Two inputs `q` and `r` with an output `pub` between them, and one procedure that returns at once.
const MODULE: [u8; 86] = [
    70, 76, 79, 66, 0, 0, 0, 1, 0, 0, 0, 0, 0, 0, 0, 0, 0, 0, 0, 0, 0, 0, 0, 3, 0, 0, 0, 0, 1, 113,
    0, 0, 0, 0, 1, 0, 0, 0, 3, 112, 117, 98, 0, 0, 0, 0, 0, 0, 0, 0, 1, 114, 0, 0, 0, 0, 0, 0, 0,
    0, 0, 0, 0, 1, 0, 0, 0, 0, 0, 0, 0, 0, 0, 0, 0, 0, 1, 35, 0, 0, 0, 0, 0, 0, 0, 0,
];

// Whether these are the inputs `q` and `r` with these numbers.
fn are_inputs(inputs: &[InputList], first: &[i32], second: &[i32]) -> bool {
    let [q, r] = inputs else {
        return false;
    };
    q.name() == "q" && r.name() == "r" && q.numbers() == first && r.numbers() == second
}

// Whether a text is a world in which the inputs have these numbers.
fn is_read(alloc: Global, text: &str, first: &[i32], second: &[i32]) -> Result<bool, Fail> {
    let module = decode(alloc, &MODULE)?;
    let world = World::read(alloc, &module, text)?;
    Ok(are_inputs(world.inputs(), first, second))
}

#[test]
fn reads_worlds(rt: HostRuntime) -> Result<(), Fail> {
    let cases: [(&str, &[i32], &[i32]); 4] = [
        ("", &[], &[]),
        ("\n   \nr  =  -0 007 \n q =\n", &[], &[0, 7]),
        (
            "q = -2147483648 2147483647\nr = 5",
            &[i32::MIN, i32::MAX],
            &[5],
        ),
        ("r = 1 2 3\nq = 4 5 6\n", &[4, 5, 6], &[1, 2, 3]),
    ];
    for (text, first, second) in cases {
        assert!(rt; is_read(rt.alloc(), text, first, second)?, "{text}");
    }
    Ok(())
}

#[test]
fn gives_its_inputs_away(rt: HostRuntime) -> Result<(), Fail> {
    let module = decode(rt.alloc(), &MODULE)?;
    let inputs = World::read(rt.alloc(), &module, "q = 4 2")?.into_inputs();
    assert!(rt; are_inputs(&inputs, &[4, 2], &[]));
    Ok(())
}

#[test]
fn gives_its_numbers_away(rt: HostRuntime) -> Result<(), Fail> {
    let alloc = rt.alloc();
    let input = InputList::new(String::from_str(alloc, "q")?, vec![in alloc; 4, 2]?);
    assert_eq!(rt; input.into_numbers().as_slice(), [4, 2].as_slice());
    Ok(())
}

#[test]
fn lists_what_was_sent(rt: HostRuntime) -> Result<(), Fail> {
    let mut sent = Sent::new(rt.alloc());
    assert!(rt; sent.pairs().is_empty());
    let (channel, number) = (3, -7);
    sent.push(Pair { channel, number })?;
    assert_eq!(rt; sent.pairs(), [Pair { channel, number }].as_slice());
    Ok(())
}

// A device over room for two bytes: the write that finds no room is its first failure, and the last thing that it asks for.
#[test]
fn a_device_asks_for_nothing_after_a_failure(rt: HostRuntime) {
    let mut device = Device::new(Cursor::new([0u8; 2]));
    let cases: [(&[u8], Result<usize, SinkFault>, bool); 5] = [
        (b"", Ok(0), false),
        (b"abc", Ok(2), false),
        (b"c", Ok(0), true),
        (b"c", Err(SinkFault), true),
        (b"", Err(SinkFault), true),
    ];
    for (bytes, answer, failed) in cases {
        assert_eq!(rt; device.write(bytes), answer);
        assert_eq!(rt; device.failed(), failed);
    }
}

// What a device over a list has after these bytes.
fn written(alloc: Global, bytes: &[u8]) -> Result<Vec<u8>, SinkFault> {
    let mut device = Device::new(Vec::new(alloc));
    write_all(&mut device, bytes)?;
    Ok(device.into_inner())
}

#[test]
fn writes_all_where_there_is_room(rt: HostRuntime) -> Result<(), Fail> {
    let bytes = written(rt.alloc(), b"ok")?;
    assert_eq!(rt; bytes.as_slice(), b"ok".as_slice());
    let mut small = Device::new(Cursor::new([0u8; 1]));
    assert_eq!(rt; write_all(&mut small, b"ok"), Err(SinkFault));
    Ok(())
}

// A sink that takes one byte at a time, and fails at the first byte for which it has no room.
#[derive(Drop)]
struct Narrow {
    bytes: [u8; 14],
    count: usize,
    room: usize,
    has_failed: bool,
}

impl Sink for Narrow {
    ghost has_failed = { λ sink. sink.has_failed };

    fn write(&mut self, bytes: &[u8]) -> Result<usize, SinkFault> {
        if self.has_failed {
            return Err(SinkFault);
        }
        let Some(byte) = bytes.first() else {
            return Ok(0);
        };
        if self.count >= self.room || self.count >= self.bytes.len() {
            self.has_failed = true;
            return Err(SinkFault);
        }
        self.bytes[self.count] = *byte;
        self.count += 1;
        Ok(1)
    }

    fn failed(&self) -> bool {
        self.has_failed
    }
}

// Whether a view is written as far as there is room, and refused for the sink's fault where that is too small for its text.
fn fills_its_room(alloc: Global, sent: &Sent, module: &Module, text: &[u8], room: usize) -> bool {
    let mut sink = Narrow {
        bytes: [0; 14],
        count: 0,
        room,
        has_failed: false,
    };
    let is_answered = match write_view(alloc, sent, module, None, &mut sink) {
        Ok(()) => room == text.len(),
        Err(OrNoMemory::Refused(SinkFault)) => room < text.len(),
        Err(OrNoMemory::NoMemory) => false,
    };
    is_answered && sink.bytes.get(..sink.count) == text.get(..room)
}

// The first room for which a view does not end where its sink fails.
fn wrong_room(alloc: Global, sent: &Sent, module: &Module) -> Option<usize> {
    let text = b"pub 7\npub 8\n";
    for room in 0..=text.len() {
        if !fills_its_room(alloc, sent, module, text, room) {
            return Some(room);
        }
    }
    None
}

// A device without room takes no byte, which is a failure too.
fn fails_without_room(alloc: Global, sent: &Sent, module: &Module) -> bool {
    let mut device = Device::new(Cursor::new([0u8; 0]));
    let viewed = write_view(alloc, sent, module, None, &mut device);
    viewed == Err(OrNoMemory::Refused(SinkFault)) && device.failed()
}

// The list of 7 and 8, sent on the output.
fn sent_twice(alloc: Global) -> Result<Sent, Fail> {
    let mut sent = Sent::new(alloc);
    for number in [7, 8] {
        sent.push(Pair { channel: 1, number })?;
    }
    Ok(sent)
}

#[test]
fn a_view_ends_where_its_sink_fails(rt: HostRuntime) -> Result<(), Fail> {
    let module = decode(rt.alloc(), &MODULE)?;
    let sent = sent_twice(rt.alloc())?;
    assert_eq!(rt; wrong_room(rt.alloc(), &sent, &module), None);
    assert!(rt; fails_without_room(rt.alloc(), &sent, &module));
    Ok(())
}
