//! What the other commands write, and what is written of refusals.

use super::calling::{Lent, call, lends};
use super::texts::{NO_CHECKS, SOURCE_OF_ONE, TWO, TWO_ACCEPTED, TWO_JOURNAL};
use std::test::Fail;

#[test]
fn sources_are_checked_generated_and_refused(rt: HostRuntime) -> Result<(), Fail> {
    let rows: [(&str, &[&str], u8, &str); 11] = [
        (TWO, &["check", "source"], 0, TWO_ACCEPTED),
        ("", &["demo", "15"], 0, NO_CHECKS),
        (
            "",
            &["demo", "100"],
            0,
            "checks 12 holds 12 fails 0 other 0\n",
        ),
        ("#", &["run", "source"], 3, "1:1 bad byte\n"),
        (
            "thread t { var x: int = 9223372036854775808; }",
            &["check", "source"],
            3,
            "1:25 long number\n",
        ),
        ("thread t {", &["run", "source"], 3, "1:11 unexpected\n"),
        (
            "thread t { x = 1; }",
            &["run", "source"],
            3,
            "1:12 unknown name\n",
        ),
        (
            "class A { v: int; }\nclass A { v: int; }",
            &["run", "source"],
            3,
            "2:7 declared twice\n",
        ),
        (
            "thread t { var x: int = true; }",
            &["run", "source"],
            3,
            "1:25 mismatch\n",
        ),
        (
            "proc p() { }\nthread t { check p(); }",
            &["run", "source"],
            3,
            "2:18 not pure\n",
        ),
        ("#", &["audit", "source", "none"], 3, "1:1 bad byte\n"),
    ];
    for (source, words, status, written) in rows {
        let (outcome, out) = call(&rt, rt.alloc(), words, &lends(source)).expect(&rt, "memory");
        assert_eq!(rt; outcome.status, status);
        assert_eq!(rt; out.bytes(), written.as_bytes());
    }
    Ok(())
}

#[test]
fn journals_are_audited(rt: HostRuntime) -> Result<(), Fail> {
    for (journal, status, written) in [
        (TWO_JOURNAL, 0, "audit ok\n"),
        (
            "strobe journal 1\nsizes 1 8 4096 4096 65536 100000\nN 0 3 1\nK 0 1 0 1 2\nS 0 2 0 1\nR 1 1\nV 1 holds\nend 4 1\n",
            1,
            "audit not legal 0\n",
        ),
        (
            "strobe journal 1\nsizes 1 8 4096 4096 65536 100000\nN 0 2 1\nK 0 1 0 1 2\nS 0 2 0 7\nR 1 1\nV 1 holds\nend 4 1\n",
            1,
            "audit not trace 0 3\n",
        ),
        (
            "strobe journal 1\nsizes 1 8 4096 4096 65536 100000\nN 0 2 1\nK 0 1 0 1 2\nS 0 2 0 1\nR 1 1\nV 1 fails\nend 4 1\n",
            1,
            "audit wrong verdict 1 holds\n",
        ),
        (
            "strobe journal 1\nsizes 1 8 4096 4096 65536 100000\nN 0 2 1\nK 0 1 0 1 2\nS 0 2 0 1\nR 1 1\nend 4 0\n",
            1,
            "audit verdict count 1 0\n",
        ),
        (
            "strobe journal 1\nsizes 2 8 4096 4096 65536 100000\nN 0 2 1\nK 0 1 0 1 2\nS 0 2 0 1\nR 1 1\nV 1 holds\nend 4 1\n",
            1,
            "audit wrong sizes\n",
        ),
        (
            "strobe journal 1\nsizes 1 8 4096 4096 65536 100000\nN 0 2 1\nK 0 1 0 1 2\nS 0 2 0 1\nR 1 1\nV 1 holds\nend 4 1",
            3,
            "journal line 8\n",
        ),
        ("strobe journal 7\n", 3, "journal version\n"),
    ] {
        let lent = Lent {
            journal,
            ..lends(TWO)
        };
        let words = ["audit", "source", "journal"];
        let (outcome, out) = call(&rt, rt.alloc(), &words, &lent).expect(&rt, "memory");
        assert_eq!(rt; outcome.status, status);
        assert!(rt; outcome.ran.is_none());
        assert_eq!(rt; out.bytes(), written.as_bytes());
    }
    Ok(())
}

#[test]
fn wrong_words_are_refused(rt: HostRuntime) -> Result<(), Fail> {
    let wrong: [&[&str]; 7] = [
        &[],
        &["run"],
        &["run", "source", "--lanes", "9"],
        &["run", "source", "--lanes", "+1"],
        &["run", "source", "--lanes", "1", "--lanes", "2"],
        &["run", "source", "--json", "--journal"],
        &["gen", "0"],
    ];
    for words in wrong {
        let (outcome, out) = call(&rt, rt.alloc(), words, &lends(TWO)).expect(&rt, "memory");
        assert_eq!(rt; outcome.status, 2);
        assert_eq!(rt; out.bytes(), "words refused\n".as_bytes());
    }
    Ok(())
}

#[test]
fn a_generated_source_is_written_and_accepted(rt: HostRuntime) -> Result<(), Fail> {
    let (outcome, made) = call(&rt, rt.alloc(), &["gen", "1"], &lends("")).expect(&rt, "memory");
    assert_eq!(rt; outcome.status, 0);
    assert_eq!(rt; made.bytes(), SOURCE_OF_ONE.as_bytes());
    let words = ["check", "source"];
    let (outcome, out) = call(&rt, rt.alloc(), &words, &lends(SOURCE_OF_ONE)).expect(&rt, "memory");
    assert_eq!(rt; outcome.status, 0);
    assert_eq!(rt;
        out.bytes(),
        b"accepted classes 3 predicates 2 procedures 2 threads 2 checks 2\n".as_slice()
    );
    Ok(())
}
