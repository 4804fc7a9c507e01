//! How an error prints.

use crate::tokens;
use std::alloc::Global;
use std::test::Fail;

#[test]
fn an_error_names_its_place_and_its_fault(rt: HostRuntime) -> Result<(), Fail> {
    let alloc = rt.alloc();
    let rows: [(&[u8], &str); 2] = [
        (b"\n  #", "2:3 bad byte"),
        (b"x\n\n9223372036854775808", "3:1 long number"),
    ];
    for (text, wanted) in rows {
        match tokens(alloc, text) {
            Ok(_) => assert!(rt; false),
            Err(error) => assert!(rt; format!(in alloc; "{error}")?.as_str() == wanted),
        }
    }
    Ok(())
}
