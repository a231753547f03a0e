//! The words that faults are printed as.

use crate::printed::is_printed;
use bytecode::FormatRefusal;
use common::{OrNoMemory, Reported};
use host::{HostFault, HostRefusal};
use machine::NewRefusal;
use modules::FormatRefusalKind;
use std::test::Fail;
use verifier::{CodeRefusal, CodeRefusalKind, LoadRefusal};

#[test]
fn the_refusal_of_a_machine(rt: HostRuntime) -> Result<(), Fail> {
    let (refusal, words) = (NewRefusal::UnknownChannel, "unknown channel");
    assert!(rt; refusal.number() == 852 && refusal.words() == words);
    assert!(rt; is_printed(rt.alloc(), &refusal, words)?);
    Ok(())
}

#[test]
fn the_faults_of_a_host(rt: HostRuntime) -> Result<(), Fail> {
    let in_bytes = FormatRefusal {
        kind: FormatRefusalKind::Trailing,
        at: 9,
    };
    let in_code = CodeRefusal {
        kind: CodeRefusalKind::FallsOffEnd,
        procedure: 0,
        offset: 9,
    };
    for (refusal, number, words) in [
        (HostRefusal::Full, 901, "full"),
        (HostRefusal::UnknownId, 902, "unknown id"),
        (HostRefusal::UnknownPrincipal, 153, "unknown principal"),
        (HostRefusal::NotContained, 903, "hierarchy not contained"),
        (
            HostRefusal::Load(LoadRefusal::Bytes(in_bytes)),
            806,
            "trailing bytes",
        ),
        (
            HostRefusal::Load(LoadRefusal::Code(in_code)),
            815,
            "falls off the end",
        ),
        (
            HostRefusal::New(NewRefusal::UnknownChannel),
            852,
            "unknown channel",
        ),
    ] {
        assert!(rt;
            refusal.number() == number && refusal.words() == words,
            "{words}"
        );
        assert!(rt; is_printed(rt.alloc(), &OrNoMemory::Refused(refusal), words)?);
    }
    let fault: HostFault = OrNoMemory::NoMemory;
    assert!(rt; is_printed(rt.alloc(), &fault, "no memory")?);
    Ok(())
}
