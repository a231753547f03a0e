//! Texts that are read from sources which fail, from sources that have too much, and where growths are refused.

use common::OrNoMemory;
use flowc::{Fault, Feed, ReadFault, RefusalKind, Source, SourceFault, Text, compile, read_text};
use std::alloc::Global;
use std::io::{Error, ErrorKind, Read, Result as ReadResult, repeat};
use std::test::Fail;

// A reader that fails at once.
#[derive(Drop)]
struct Failing;

impl Read for Failing {
    fn read(&mut self, _buffer: &mut [u8]) -> ReadResult<usize> {
        Err(Error::from(ErrorKind::Other))
    }
}

// Whether a text of three bytes whose reader then fails is refused, and the source has failed.
fn is_refused(alloc: Global) -> bool {
    let mut feed = Feed::new(repeat(b'x').take(3).chain(Failing));
    let is_fault = matches!(
        read_text(alloc, &mut feed),
        Err(OrNoMemory::Refused(SourceFault))
    );
    is_fault && feed.failed()
}

#[test]
fn a_reader_that_fails_gives_no_text(rt: HostRuntime) {
    assert!(rt; is_refused(rt.alloc()));
}

// How many bytes are read of a source of a length.
fn count_of(alloc: Global, length: u64) -> Result<usize, Fail> {
    let mut feed = Feed::new(repeat(b' ').take(length));
    Ok(read_text(alloc, &mut feed)?.len())
}

#[test]
fn no_more_is_read_than_shows_that_a_text_is_too_long(rt: HostRuntime) -> Result<(), Fail> {
    for (length, count) in [
        (0, 0),
        (4096, 4096),
        (4097, 4097),
        (1_048_576, 1_048_576),
        (1_048_577, 1_048_577),
        (2_000_000, 1_048_577),
    ] {
        assert_eq!(rt; count_of(rt.alloc(), length)?, count);
    }
    Ok(())
}

// The length of a text that takes several reads, or why it was not read, and whether its source then has failed.
fn length_of(alloc: Global) -> (Result<usize, ReadFault>, bool) {
    let mut feed = Feed::new(repeat(b' ').take(20_000));
    let length = match read_text(alloc, &mut feed) {
        Ok(text) => Ok(text.len()),
        Err(fault) => Err(fault),
    };
    (length, feed.failed())
}

// Whichever growth is refused while a text is read, the answer is that memory ran out or the undisturbed one, the source has not failed,
// and another one like it is read. `tools/out-of-memory` refuses each of them in turn.
#[test]
fn a_refused_growth_is_no_failure_of_a_source(rt: HostRuntime) {
    let (mut length, failed) = length_of(rt.alloc());
    assert!(rt; !failed);
    if matches!(&length, Err(OrNoMemory::NoMemory)) {
        (length, _) = length_of(rt.alloc());
    }
    assert!(rt; matches!(&length, Ok(20_000)));
}

// Whether a source was refused for its length, at its first place.
fn is_refused_for_its_length(compiled: &Result<Vec<u8>, Fault>) -> bool {
    match compiled {
        Err(OrNoMemory::Refused(refusal)) => {
            refusal.text == Text::Source
                && refusal.kind == RefusalKind::TextTooLong
                && refusal.at.line == 1
                && refusal.at.column == 1
        }
        _ => false,
    }
}

// Whether a number of spaces, as they are read, is refused for its length.
fn is_too_long(alloc: Global, length: u64) -> Result<bool, Fail> {
    let mut feed = Feed::new(repeat(b' ').take(length));
    let text = read_text(alloc, &mut feed)?;
    let compiled = compile(alloc, b"", &text);
    Ok(is_refused_for_its_length(&compiled))
}

#[test]
fn what_is_read_of_a_text_that_is_too_long_is_refused(rt: HostRuntime) -> Result<(), Fail> {
    for (length, wanted) in [(1_048_576, false), (1_048_577, true), (2_000_000, true)] {
        assert_eq!(rt; is_too_long(rt.alloc(), length)?, wanted);
    }
    Ok(())
}
