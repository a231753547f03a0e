//! The limits and the built-in exceptions with their values written out, so that a constant that is changed is refused here. The
//! functions do nothing when they are called.

ghost use Rattle.std.specs.Prelude.{codes, ◌≡◌};

use crate::exceptions::{ARITH, ARITH_NAME, BOUNDS, BOUNDS_NAME, BUILT_IN, END, END_NAME};
use crate::limits::{
    MAX_CELLS, MAX_ELEMENTS, MAX_FRAMES, MAX_INTEGER, MAX_LEVELS, MAX_PRINCIPALS, MAX_TEXT,
};

/// Each limit has the value that is written here: a constant that is changed is refused here, while the definitions that cite it
/// would follow the change.
pub fn limits_are_as_written()
    ensures text { MAX_TEXT ≡ 1048576 }
    ensures integer { MAX_INTEGER ≡ 2147483647 }
    ensures levels { MAX_LEVELS ≡ 64 }
    ensures principals { MAX_PRINCIPALS ≡ 256 }
    ensures elements { MAX_ELEMENTS ≡ 65536 }
    ensures cells { MAX_CELLS ≡ 1048576 }
    ensures frames { MAX_FRAMES ≡ 512 }
{}

/// The built-in exceptions have the numbers and the names that are written here, and there are no others: a constant that is
/// changed is refused here.
pub fn built_in_exceptions_are_as_written()
    ensures arith { ARITH ≡ 0 }
    ensures bounds { BOUNDS ≡ 1 }
    ensures end { END ≡ 2 }
    ensures how_many { BUILT_IN ≡ 3 }
    ensures arith_name { ARITH_NAME.now ≡ codes "Arith" }
    ensures bounds_name { BOUNDS_NAME.now ≡ codes "Bounds" }
    ensures end_name { END_NAME.now ≡ codes "End" }
{}
