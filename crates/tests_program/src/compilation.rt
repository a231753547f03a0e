//! Kinds of refusal by number and words, and a compilation whose growths are refused.

use common::{OrNoMemory, Reported};
use flowc::{
    ExitRefusalKind, Fault, HierarchyRefusalKind, LexRefusalKind, ParseRefusalKind, RefusalKind,
    TypeRefusalKind, check_texts, compile,
};
use std::alloc::Global;
use std::test::Fail;

// Each kind of refusal with its number and its words, as the formats fix them.
const KINDS: [(RefusalKind, u32, &str); 27] = [
    (RefusalKind::NotUtf8, 100, "not UTF-8"),
    (RefusalKind::Lex(LexRefusalKind::NoToken), 101, "no token"),
    (
        RefusalKind::Lex(LexRefusalKind::LiteralTooLarge),
        102,
        "literal too large",
    ),
    (
        RefusalKind::Lex(LexRefusalKind::UnclosedComment),
        103,
        "open comment",
    ),
    (
        RefusalKind::Hierarchy(HierarchyRefusalKind::Syntax),
        151,
        "syntax",
    ),
    (
        RefusalKind::Hierarchy(HierarchyRefusalKind::DeclaredTwice),
        152,
        "declared twice",
    ),
    (
        RefusalKind::Hierarchy(HierarchyRefusalKind::UnknownPrincipal),
        153,
        "unknown principal",
    ),
    (
        RefusalKind::Hierarchy(HierarchyRefusalKind::TooManyPrincipals),
        154,
        "too many principals",
    ),
    (
        RefusalKind::Parse(ParseRefusalKind::UnexpectedToken),
        201,
        "unexpected token",
    ),
    (
        RefusalKind::Parse(ParseRefusalKind::TooDeep),
        202,
        "nested too deep",
    ),
    (
        RefusalKind::Name(TypeRefusalKind::UnknownName),
        301,
        "unknown name",
    ),
    (
        RefusalKind::Name(TypeRefusalKind::DeclaredTwice),
        302,
        "declared twice",
    ),
    (
        RefusalKind::Name(TypeRefusalKind::UnknownPrincipal),
        303,
        "unknown principal",
    ),
    (
        RefusalKind::Name(TypeRefusalKind::NoProperMain),
        304,
        "no proper main",
    ),
    (
        RefusalKind::Name(TypeRefusalKind::LabelNotWritten),
        305,
        "label not written",
    ),
    (
        RefusalKind::Name(TypeRefusalKind::WrongType),
        401,
        "wrong type",
    ),
    (
        RefusalKind::Name(TypeRefusalKind::WrongArgumentCount),
        402,
        "wrong argument count",
    ),
    (
        RefusalKind::Name(TypeRefusalKind::WrongUse),
        403,
        "wrong use",
    ),
    (
        RefusalKind::End(ExitRefusalKind::Unreachable),
        501,
        "unreachable",
    ),
    (
        RefusalKind::End(ExitRefusalKind::NoValueReturned),
        502,
        "no value returned",
    ),
    (
        RefusalKind::End(ExitRefusalKind::Undeclared),
        503,
        "exception not declared",
    ),
    (
        RefusalKind::End(ExitRefusalKind::NeverRaised),
        504,
        "never raised",
    ),
    (
        RefusalKind::End(ExitRefusalKind::OutsideLoop),
        505,
        "not in a loop",
    ),
    (RefusalKind::FlowNotAllowed, 601, "flow not allowed"),
    (RefusalKind::TextTooLong, 701, "text too long"),
    (
        RefusalKind::Name(TypeRefusalKind::ArraySize),
        703,
        "array size",
    ),
    (
        RefusalKind::Name(TypeRefusalKind::TooManyCells),
        704,
        "too many cells",
    ),
];

#[test]
fn has_a_number_and_words_for_each_refusal(rt: HostRuntime) -> Result<(), Fail> {
    for (kind, number, words) in KINDS {
        assert!(rt;
            kind.number() == number && kind.words() == words,
            "{number}"
        );
    }
    Ok(())
}

// How many bytes a program is compiled to, or its fault.
fn size_of(alloc: Global) -> Result<usize, Fault> {
    let source = b"output{} pub; void main() { send pub, 7; }";
    Ok(compile(alloc, b"", source)?.len())
}

// Whichever growth is refused, the answer is that memory ran out or the undisturbed one, and asked again it is that.
// `tools/out-of-memory` refuses each of them in turn.
#[test]
fn a_refused_growth_changes_no_answer(rt: HostRuntime) -> Result<(), Fail> {
    let mut answer = size_of(rt.alloc());
    if matches!(&answer, Err(OrNoMemory::NoMemory)) {
        answer = size_of(rt.alloc());
    }
    assert!(rt; matches!(&answer, Ok(76)));
    Ok(())
}

#[test]
fn gives_the_label_of_a_local(rt: HostRuntime) -> Result<(), Fail> {
    let source = b"void main() { int{Alice:} x = 1; int a = x; int b = 0; }";
    match check_texts(rt.alloc(), b"principal Alice;", source) {
        Ok(checked) => {
            for (slot, want) in [(0, Some(1)), (1, Some(1)), (2, Some(0)), (3, None)] {
                let label = checked.label(rt.alloc(), 0, slot)?;
                assert_eq!(rt; label.map(|label| label.policies().len()), want);
            }
        }
        Err(_) => assert!(rt; false, "refused"),
    }
    Ok(())
}
