//! The lines of refusals, as the program prints them.

ghost use Rattle.flowc.specs.Lines as lines;
ghost use Rattle.std.specs.Prelude.{◌≡◌, IfOk};
ghost use Rattle.std.specs.String.{string_bytes};

use acceptance::RefusalKind;
use bytecode::FormatRefusal;
use channels::WorldRefusal;
use checker::Refusal;
use common::{Message, Reported};
use host::HostRefusal;
use principals::HierarchyRefusalKind;
use std::alloc::{AllocError, Global};
use verifier::{CodeRefusal, LoadRefusal};

// The line that reports something by its message, at one number that says where in a file.
fn line_at<R: Reported>(
    alloc: Global,
    path: &str,
    at: usize,
    reported: &R,
) -> Result<String, AllocError>
    ensures { IfOk result (λ line. string_bytes line
        ≡ lines.at_one path.now at (lines.saying (R.contents reported.now))) }
{
    let Message { number, words } = reported.message();
    format!(in alloc; "{path}:{at}: {number} {words}\n")
}

// The same at two numbers that say where in a file.
fn line_at_two<R: Reported>(
    alloc: Global,
    path: &str,
    first: usize,
    second: usize,
    reported: &R,
) -> Result<String, AllocError>
    ensures { IfOk result (λ line. string_bytes line
        ≡ lines.at_two path.now first second (lines.saying (R.contents reported.now))) }
{
    let Message { number, words } = reported.message();
    format!(in alloc; "{path}:{first}:{second}: {number} {words}\n")
}

/// The line that reports why the bytes of a module are refused: at a byte offset, or at a procedure and a byte offset of its code.
pub fn module_line(alloc: Global, path: &str, refusal: LoadRefusal) -> Result<String, AllocError>
    ensures { IfOk result (λ line. string_bytes line ≡ lines.module_line path.now refusal) }
{
    match refusal {
        LoadRefusal::Bytes(FormatRefusal { kind, at }) => line_at(alloc, path, at, &kind),
        LoadRefusal::Code(
            CodeRefusal {
                kind,
                procedure,
                offset,
            },
        ) => {
            let (first, second) = (procedure as usize, offset as usize);
            line_at_two(alloc, path, first, second, &kind)
        }
    }
}

/// The line that reports what is wrong with a world's text, at a line.
pub fn world_line(alloc: Global, path: &str, refusal: WorldRefusal) -> Result<String, AllocError>
    ensures { IfOk result (λ line. string_bytes line ≡ lines.world_line path.now refusal) }
{
    line_at(alloc, path, refusal.line, &refusal.kind)
}

/// The line that says that the bytes of a world are no text.
pub fn encoding_line(alloc: Global, path: &str) -> Result<String, AllocError>
    ensures { IfOk result (λ line. string_bytes line ≡ lines.encoding_line path.now) }
{
    line_at(alloc, path, 1, &RefusalKind::NotUtf8)
}

/// The line that reports what is wrong with a hierarchy text or a source, at a line and a column.
pub fn text_line(alloc: Global, path: &str, refusal: &Refusal) -> Result<String, AllocError>
    ensures { IfOk result (λ line. string_bytes line ≡ lines.text_line path.now refusal.now) }
{
    let at = refusal.at;
    line_at_two(alloc, path, at.line, at.column, &refusal.kind)
}

/// The line that says that the hierarchy of a text does not contain that of a module.
pub fn not_contained_line(alloc: Global, path: &str) -> Result<String, AllocError>
    ensures { IfOk result (λ line. string_bytes line ≡ lines.not_contained_line path.now) }
{
    line_at_two(alloc, path, 1, 1, &HostRefusal::NotContained)
}

/// The line that says that no principal of a hierarchy has the name of an observer.
pub fn observer_line(alloc: Global, name: &str) -> Result<String, AllocError>
    ensures { IfOk result (λ line. string_bytes line ≡ lines.observer_line name.now) }
{
    let Message { number, words } = HierarchyRefusalKind::UnknownPrincipal.message();
    format!(in alloc; "{name}: {number} {words}\n")
}
