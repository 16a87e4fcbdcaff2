mod changes;
mod feed;

use std::process::Abort;

/// Fails where there is a case that is wrong.
fn expect_none(rt: &impl Abort, wrong: Option<usize>) {
    assert_eq!(rt; wrong, None);
}
