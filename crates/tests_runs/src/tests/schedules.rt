//! Many schedules of one source, each audited.

use super::calls::{Account, Amounts, account_for};
use super::texts::FOUR;
use std::test::Fail;

#[test]
fn each_of_200_schedules_is_audited(rt: HostRuntime) -> Result<(), Fail> {
    let amounts = Amounts {
        copies: 1,
        ..Amounts::USUAL
    };
    let mut some_lose = false;
    let mut some_keep_all = false;
    for seed in 0..200 {
        let account = account_for(rt.alloc(), FOUR, amounts, seed)?;
        let wanted = Account {
            finding: None,
            launches: 4,
            verdicts: 4,
            abandoned: account.abandoned,
            finished: 2,
            free: 1,
        };
        assert_eq!(rt; account, wanted, "seed {seed}");
        some_lose = some_lose || account.abandoned > 0;
        some_keep_all = some_keep_all || account.abandoned == 0;
    }
    assert!(rt; some_lose && some_keep_all);
    Ok(())
}
