//! Places and names, and the law that each text is cut in one way.

use lexer::{Place, is_name, one_reading, place};

#[test]
fn finds_places(rt: HostRuntime) {
    one_reading();
    for (text, at, line, column) in [
        ("é+1", 2, 1, 2),
        ("a\r\nb", 3, 2, 1),
        ("a\r\nb", 2, 1, 3),
        ("é+1", 1, 1, 2),
        ("a\nb", 9, 2, 2),
        ("", 0, 1, 1),
    ] {
        assert_eq!(rt; place(text.as_bytes(), at), Place { line, column });
    }
}

#[test]
fn knows_names(rt: HostRuntime) {
    for (text, is) in [
        ("x", true),
        ("_", true),
        ("naïve", true),
        ("имя", true),
        ("e\u{301}", true),
        ("While", true),
        ("", false),
        ("while", false),
        ("1a", false),
        ("a b", false),
        ("\u{301}", false),
        ("a ", false),
    ] {
        assert_eq!(rt; is_name(text), is, "at {text}");
    }
}

// The place after a megabyte of lines.
#[test]
fn finds_a_place_far_down(rt: HostRuntime) -> Result<(), std::test::Fail> {
    let size = 1_048_576;
    let mut lines = String::new(rt.alloc());
    for _ in 0..size {
        lines.push('\n')?;
    }
    let text = lines.as_bytes();
    let line = size + 1;
    assert_eq!(rt; place(text, size), Place { line, column: 1 });
    Ok(())
}
