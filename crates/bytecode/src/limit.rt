//! Sizes of variables, in elements and in cells.

ghost use Rattle.common.specs.declared.limits.TheConstants.{MAX_CELLS};
ghost use Rattle.modules.specs.Format.{cells_of_size, is_size};
ghost use Rattle.std.specs.Prelude.{◌≡◌, ◌≤◌};

use common::limits::{MAX_CELLS, MAX_ELEMENTS};

/// The cells of a variable by its size, which is 0 for a scalar.
pub(crate) fn cells_of_size(size: u32) -> u32
    ensures { result ≡ cells_of_size size }
{
    if size == 0 { 1 } else { size }
}

/// Whether a size is not too large, nor are the cells with it.
pub(crate) fn is_size(cells: u32, size: u32) -> bool
    requires { cells ≤ MAX_CELLS }
    ensures { result ≡ is_size cells size }
{
    size <= MAX_ELEMENTS && cells + cells_of_size(size) <= MAX_CELLS
}
