//! Answers as lines: `= ` and the status, `> ` and each line of standard output, `! ` and each line of standard error.

use crate::fault::LineFault;
use std::alloc::Global;

/// Writes the first line of an answer.
pub fn write_status(alloc: Global, answer: &mut Vec<u8>, status: u8) -> Result<(), LineFault> {
    let line = format!(in alloc; "= {status}\n")?;
    write(answer, line.as_bytes())
}

pub fn write(answer: &mut Vec<u8>, bytes: &[u8]) -> Result<(), LineFault> {
    answer.extend_from_slice(bytes)?;
    Ok(())
}

/// Writes each line of some bytes after a sign. A last line that has no end is followed by the line `\`.
pub fn write_lines(answer: &mut Vec<u8>, sign: u8, bytes: &[u8]) -> Result<(), LineFault> {
    let mut is_first = true;
    for byte in bytes {
        if is_first {
            write_sign(answer, sign, *byte)?;
        }
        answer.push(*byte)?;
        is_first = *byte == b'\n';
    }
    if is_first {
        Ok(())
    } else {
        write(answer, b"\n\\\n")
    }
}

// The sign of a line, and a space where the line has a first byte.
fn write_sign(answer: &mut Vec<u8>, sign: u8, first: u8) -> Result<(), LineFault> {
    answer.push(sign)?;
    if first != b'\n' {
        answer.push(b' ')?;
    }
    Ok(())
}
