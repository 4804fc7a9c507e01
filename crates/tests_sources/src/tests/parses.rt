//! Texts and what `parse` answers: each rule and where a text first breaks it, each limit and one above it.

use st_events::Site;
use st_lex::{MOST_SOURCE_BYTES, tokens};
use st_parse::{ParseError, What, parse};
use std::alloc::{AllocError, Global};
use std::test::Fail;

/// What `parse` answers to the text, without its tree; nothing where the text has no tokens.
fn answer(alloc: Global, text: &[u8]) -> Option<Result<(), ParseError>> {
    if text.len() > MOST_SOURCE_BYTES {
        return None;
    }
    match tokens(alloc, text) {
        Ok(list) => match parse(alloc, text, &list) {
            Ok(_) => Some(Ok(())),
            Err(why) => Some(Err(why)),
        },
        Err(_) => None,
    }
}

#[test]
fn each_rule_is_read(rt: HostRuntime) -> Result<(), Fail> {
    let rows: [&[u8]; 14] = [
        b"",
        b"class A { a: int; b: bool; c: A; }",
        b"shared { a: int; }",
        b"pred p(): bool = true;",
        b"pred p(a: int, b: A): int = a ? b.c : -1;",
        b"proc p() { }",
        b"proc p(a: int) { p(a, 1); p(); }",
        b"thread t { }",
        b"thread t { var a: int = 1; a = 2; }",
        b"thread t { a.b = new A; a.b.c = null; shared.x = false; shared.x.y = (1); }",
        b"thread t { a = cas(shared.x, 1, 2); }",
        b"thread t { if (a) { } else { } if (b) { } while (!a) { } }",
        b"thread t { check a == 1 && p(a) || (b % 2 * 3 - 1 >= 4); }",
        b"class A { } shared { } pred p(): int = 1; proc p() { } thread t { }",
    ];
    for text in rows {
        assert_eq!(rt; answer(rt.alloc(), text), Some(Ok(())));
    }
    Ok(())
}

#[test]
fn a_text_stops_at_the_first_token_that_no_text_goes_on_with(rt: HostRuntime) -> Result<(), Fail> {
    let rows: [(&[u8], u32, u32); 17] = [
        (b"class A { a: int }", 1, 18),
        (b"shared { } class A { }", 1, 12),
        (b"pred p(a: int,): int = a;", 1, 15),
        (b"thread t {", 1, 11),
        (b"thread t { // end\n", 2, 1),
        (b"thread t { var a = 1; }", 1, 18),
        (b"thread t { a.b; }", 1, 15),
        (b"thread t { a = cas(x, 1, 2); }", 1, 21),
        (b"thread t { if (a) { } else a = 1; }", 1, 28),
        (b"thread t { check a }", 1, 20),
        (b"thread t { check 1 < 2 < 3; }", 1, 24),
        (b"thread t { check a ? b; }", 1, 23),
        (b"thread t { check a +; }", 1, 21),
        (b"thread t { p(); p; }", 1, 18),
        (b"thread t { lock = 1; }", 1, 12),
        (b"thread t { } proc p() { }", 1, 14),
        (b"{{{{{{{{{{{{{{{{", 1, 1),
    ];
    for (text, line, column) in rows {
        let at = Site { line, column };
        assert_eq!(rt;
            answer(rt.alloc(), text),
            Some(Err(ParseError::Unexpected { at }))
        );
    }
    Ok(())
}

/// A text with a piece as often as a limit allows, and what is wrong with one piece more.
#[derive(Clone, Copy, Debug)]
struct Row {
    front: &'static [u8],
    piece: &'static [u8],
    most: usize,
    back: &'static [u8],
    above: ParseError,
}

/// The text of a row with so many pieces.
fn text_of(alloc: Global, row: &Row, pieces: usize) -> Result<Vec<u8>, AllocError> {
    let mut text = Vec::from_slice(alloc, row.front)?;
    for _ in 0..pieces {
        text.extend_from_slice(row.piece)?;
    }
    text.extend_from_slice(row.back)?;
    Ok(text)
}

fn too_many(what: What, line: u32, column: u32) -> ParseError {
    let at = Site { line, column };
    ParseError::TooMany { what, at }
}

fn limit(
    front: &'static [u8],
    piece: &'static [u8],
    most: usize,
    back: &'static [u8],
    above: ParseError,
) -> Row {
    Row {
        front,
        piece,
        most,
        back,
        above,
    }
}

/// More declarations and fields than there may be.
fn declarations() -> [Row; 6] {
    use What::{Classes, Fields, Preds, Procs, Threads};
    [
        limit(b"", b"class A { }\n", 64, b"", too_many(Classes, 65, 7)),
        limit(
            b"class A {\n",
            b"a: int;\n",
            12,
            b"}",
            too_many(Fields, 14, 1),
        ),
        limit(
            b"class A { a: int; }\nshared {\n",
            b"a: int;\n",
            12,
            b"}",
            too_many(Fields, 15, 1),
        ),
        limit(
            b"",
            b"pred p(): bool = true;\n",
            64,
            b"",
            too_many(Preds, 65, 6),
        ),
        limit(b"", b"proc p() { }\n", 64, b"", too_many(Procs, 65, 6)),
        limit(b"", b"thread t { }\n", 8, b"", too_many(Threads, 9, 8)),
    ]
}

/// More in a body than there may be.
fn parts() -> [Row; 4] {
    use What::{CheckArgs, Checks, Locals, Params};
    [
        limit(
            b"proc p(a: int\n",
            b", a: int\n",
            7,
            b") { }",
            too_many(Params, 9, 3),
        ),
        limit(
            b"proc p(a: int) {\n",
            b"var a: int = 1;\n",
            31,
            b"}",
            too_many(Locals, 33, 5),
        ),
        limit(
            b"thread t { check a + b + c + d",
            b" + e",
            0,
            b" + a; }",
            too_many(CheckArgs, 1, 34),
        ),
        limit(
            b"proc p() {\n",
            b"check true;\n",
            1_023,
            b"} thread t { check true; }",
            too_many(Checks, 1_026, 14),
        ),
    ]
}

/// More tokens than there may be.
fn token_limits() -> [Row; 2] {
    let deep = Site {
        line: 1,
        column: 154,
    };
    let long = Site {
        line: 1,
        column: 272,
    };
    [
        limit(
            b"thread t {",
            b"while(a){",
            15,
            b"}}}}}}}}}}}}}}}}",
            ParseError::TooDeep { at: deep },
        ),
        limit(
            b"thread t { check 1",
            b" + 1",
            63,
            b"; }",
            ParseError::TooLong { at: long },
        ),
    ]
}

#[test]
fn a_limit_is_allowed_and_one_above_is_told_at_its_place(rt: HostRuntime) -> Result<(), Fail> {
    let alloc = rt.alloc();
    for row in declarations()
        .iter()
        .chain(parts().iter())
        .chain(token_limits().iter())
    {
        assert_eq!(rt;
            answer(alloc, &text_of(alloc, row, row.most)?),
            Some(Ok(()))
        );
        assert_eq!(rt;
            answer(alloc, &text_of(alloc, row, row.most.saturating_add(1))?),
            Some(Err(row.above))
        );
    }
    Ok(())
}

#[test]
fn limits_on_tokens_come_before_the_grammar(rt: HostRuntime) -> Result<(), Fail> {
    let alloc = rt.alloc();
    let at = Site {
        line: 1,
        column: 17,
    };
    assert_eq!(rt;
        answer(alloc, b"{{{{{{{{{{{{{{{{{"),
        Some(Err(ParseError::TooDeep { at }))
    );
    // A brace that closes none counts for nothing.
    let behind = Site {
        line: 1,
        column: 18,
    };
    assert_eq!(rt;
        answer(alloc, b"}{{{{{{{{{{{{{{{{{"),
        Some(Err(ParseError::TooDeep { at: behind }))
    );
    let mut text = Vec::new(alloc);
    for _ in 0..129 {
        text.push(b'(')?;
    }
    let at = Site {
        line: 1,
        column: 129,
    };
    assert_eq!(rt; answer(alloc, &text), Some(Err(ParseError::TooLong { at })));
    Ok(())
}

#[test]
fn an_error_shows_its_place(rt: HostRuntime) -> Result<(), Fail> {
    let alloc = rt.alloc();
    let at = Site { line: 2, column: 7 };
    for (error, wanted) in [
        (ParseError::Unexpected { at }, "2:7 unexpected"),
        (ParseError::TooDeep { at }, "2:7 too deep"),
        (ParseError::TooLong { at }, "2:7 too long"),
        (too_many(What::Preds, 2, 7), "2:7 too many predicates"),
        (too_many(What::CheckArgs, 2, 7), "2:7 too many arguments"),
    ] {
        assert_eq!(rt; format!(in alloc; "{error}")?.as_str(), wanted);
    }
    Ok(())
}
