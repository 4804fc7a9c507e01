//! Sources and what `read_source` answers: those that keep the rules, each stage that refuses one, and the lines that are written.

use st_events::Site;
use st_lex::{LexError, MOST_SOURCE_BYTES};
use st_parse::{ParseError, What};
use st_source::{SourceError, read_source, refusal_line};
use st_types::Counts;
use std::alloc::{AllocError, Global};
use std::test::Fail;

/// Why the text is refused, if it is.
pub fn refusal(alloc: Global, text: &[u8]) -> Option<SourceError> {
    match read_source(alloc, text) {
        Ok(_) => None,
        Err(why) => Some(why),
    }
}

/// How many of each the program of the text has, if it has one.
fn counts(alloc: Global, text: &[u8]) -> Option<Counts> {
    match read_source(alloc, text) {
        Ok(typed) => Some(typed.counts()),
        Err(_) => None,
    }
}

/// So many blanks.
fn blanks(alloc: Global, bytes: usize) -> Result<Vec<u8>, AllocError> {
    let mut text = Vec::with_capacity(alloc, bytes)?;
    for _byte in 0..bytes {
        text.push(b' ')?;
    }
    Ok(text)
}

#[test]
fn what_keeps_the_rules_is_accepted(rt: HostRuntime) -> Result<(), Fail> {
    let rows: [&[u8]; 10] = [
        b"",
        b"thread t { check null == null; }",
        b"shared { f: bool; } thread t { var d: bool = cas(shared.f, false, true); }",
        b"class A { } pred p(a: A): bool = a == null && null != a;",
        b"class A { } pred p(a: A): A = true ? a : null;",
        b"class A { } pred p(a: A): A = true ? null : a;",
        b"class A { } pred p(a: A): bool = true; thread t { check p(null); }",
        b"class A { n: A; v: int; } shared { a: A; } thread t { shared.a.n.v = 1; var d: bool = cas(shared.a, null, null); }",
        b"pred even(n: int): bool = n == 0 || odd(n - 1); pred odd(n: int): bool = n != 0 && even(n - 1);",
        b"proc p(n: int) { if (n > 0) { p(n - 1); } else { } } thread t { p(3); }",
    ];
    for text in rows {
        assert_eq!(rt; refusal(rt.alloc(), text), None);
    }
    Ok(())
}

#[test]
fn a_program_is_counted(rt: HostRuntime) -> Result<(), Fail> {
    let two: &[u8] =
        b"class Node { val: int; next: Node; }\nthread t {\n  var n: Node = new Node;\n  check n.val == 0;\n  n.val = 1;\n}\n";
    let wanted = Counts {
        classes: 1,
        preds: 0,
        procs: 0,
        threads: 1,
        checks: 1,
    };
    assert_eq!(rt; counts(rt.alloc(), two), Some(wanted));
    Ok(())
}

#[test]
fn the_first_stage_that_refuses_a_text_says_why(rt: HostRuntime) -> Result<(), Fail> {
    let place = |column: u32| Site { line: 1, column };
    let rows: [(&[u8], SourceError); 5] = [
        (b"#", SourceError::Lex(LexError::BadByte { at: place(1) })),
        (
            b"thread t { x = 1; & }",
            SourceError::Lex(LexError::BadByte { at: place(19) }),
        ),
        (
            b"thread t { x = 9223372036854775808; }",
            SourceError::Lex(LexError::LongNumber { at: place(16) }),
        ),
        (
            b"thread t { x = 1;",
            SourceError::Parse(ParseError::Unexpected { at: place(18) }),
        ),
        (
            b"proc p(a: X, a: X, a: X, a: X, a: X, a: X, a: X, a: X, a: X) { }",
            SourceError::Parse(ParseError::TooMany {
                what: What::Params,
                at: place(56),
            }),
        ),
    ];
    for (text, why) in rows {
        assert_eq!(rt; refusal(rt.alloc(), text), Some(why));
    }
    Ok(())
}

#[test]
fn a_text_has_at_most_so_many_bytes(rt: HostRuntime) -> Result<(), Fail> {
    let longest = blanks(rt.alloc(), MOST_SOURCE_BYTES)?;
    let longer = blanks(rt.alloc(), MOST_SOURCE_BYTES + 1)?;
    assert_eq!(rt; refusal(rt.alloc(), &longest), None);
    assert_eq!(rt; refusal(rt.alloc(), &longer), Some(SourceError::TooLong));
    Ok(())
}

#[test]
fn one_line_says_why_a_text_is_refused(rt: HostRuntime) -> Result<(), Fail> {
    let rows: [(&[u8], &[u8]); 12] = [
        (b"#", b"1:1 bad byte\n"),
        (
            b"thread t { var x: int = 9223372036854775808; }",
            b"1:25 long number\n",
        ),
        (b"thread t {", b"1:11 unexpected\n"),
        (b"{{{{{{{{{{{{{{{{{", b"1:17 too deep\n"),
        (b"thread t { x = 1; }", b"1:12 unknown name\n"),
        (
            b"class A { v: int; }\nclass A { v: int; }",
            b"2:7 declared twice\n",
        ),
        (b"thread t { var x: int = true; }", b"1:25 mismatch\n"),
        (b"proc p() { }\nthread t { check p(); }", b"2:18 not pure\n"),
        (b"proc p() { }\nthread t { p(1); }", b"2:12 wrong count\n"),
        (
            b"pred p(): bool = true;\nthread t { p(); }",
            b"2:12 not here\n",
        ),
        (
            b"proc p(a: X, a: X, a: X, a: X, a: X, a: X, a: X, a: X, a: X) { }",
            b"1:56 too many parameters\n",
        ),
        (
            b"thread t { check a + b + c + d + e; }",
            b"1:34 too many arguments\n",
        ),
    ];
    for (text, line) in rows {
        match refusal(rt.alloc(), text) {
            Some(why) => match refusal_line(rt.alloc(), why) {
                Ok(written) => assert_eq!(rt; written.as_slice(), line),
                Err(_) => assert_eq!(rt; b"".as_slice(), line),
            },
            None => assert_eq!(rt; b"accepted".as_slice(), line),
        }
    }
    Ok(())
}
