//! The exceptions of a program by their numbers: the three that are built in, and after them the declared ones.

ghost use Rattle.resolved.specs.Exceptions as spec;
ghost use Rattle.std.specs.Prelude.{[], map, slice_get, unwrap_or, ◌≡◌};
ghost use Rattle.std.specs.String.{string_bytes};

use common::exceptions::{ARITH, ARITH_NAME, BOUNDS, BOUNDS_NAME, BUILT_IN, END, END_NAME};

/// The name of an exception, where these are the declared ones; empty where there is none of this number.
pub fn exception_name(declared: &[String], exception: u32) -> &str
    ensures { result.now ≡ spec.exception_name (map string_bytes declared.now) exception }
{
    match exception {
        ARITH => ARITH_NAME,
        BOUNDS => BOUNDS_NAME,
        END => END_NAME,
        _ => declared_name(declared, (exception - BUILT_IN) as usize),
    }
}

// The name of a declared exception, by its index among these.
fn declared_name(declared: &[String], index: usize) -> &str
    ensures { result.now ≡ unwrap_or (slice_get (map string_bytes declared.now) index) [] }
{
    match declared.get(index) {
        Some(name) => name.as_str(),
        None => "",
    }
}
