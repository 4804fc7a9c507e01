//! Sources, their canonical texts, and that these read back.

use crate::reread;
use crate::sources::{
    EVERY_RULE, EVERY_RULE_LINES, IF_ELSE, IF_ELSE_LINES, LISTS_AND_TREES, LISTS_AND_TREES_LINES,
    NO_SHARED, NO_SHARED_LINES,
};
use st_ast::print;
use st_lex::{MOST_SOURCE_BYTES, tokens};
use st_parse::parse;
use std::alloc::Global;
use std::test::Fail;

/// Whether this is the canonical text of the tree of the source, and of the tree that is read from it.
fn is_printed(alloc: Global, source: &[u8], lines: &[u8]) -> bool {
    if source.len() > MOST_SOURCE_BYTES {
        return false;
    }
    let Ok(list) = tokens(alloc, source) else {
        return false;
    };
    let Ok(program) = parse(alloc, source, &list) else {
        return false;
    };
    let Ok(text) = print(alloc, &program) else {
        return false;
    };
    if text.len() > MOST_SOURCE_BYTES {
        return false;
    }
    match reread(alloc, &program) {
        Ok(again) => match print(alloc, &again) {
            Ok(second) => text.as_slice() == lines && second.as_slice() == lines,
            Err(_) => false,
        },
        Err(_) => false,
    }
}

#[test]
fn a_canonical_text_reads_back(rt: HostRuntime) -> Result<(), Fail> {
    let rows = [
        (IF_ELSE, IF_ELSE_LINES),
        (NO_SHARED, NO_SHARED_LINES),
        (EVERY_RULE, EVERY_RULE_LINES),
        (LISTS_AND_TREES, LISTS_AND_TREES_LINES),
    ];
    for (source, lines) in rows {
        assert!(rt; is_printed(rt.alloc(), source, lines));
        assert!(rt; is_printed(rt.alloc(), lines, lines));
    }
    Ok(())
}
