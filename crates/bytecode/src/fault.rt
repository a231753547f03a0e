//! Why a module was not read.

use common::{OrNoMemory, RefusalAt};
use modules::FormatRefusalKind;

/// Why bytes spell no module: the first refusal in reading order, and the byte at which it stands.
pub type FormatRefusal = RefusalAt<FormatRefusalKind>;

/// Why a module was not read.
pub type FormatFault = OrNoMemory<FormatRefusal>;
