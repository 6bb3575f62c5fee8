//! The key of an opening.

use crate::assertions::equal;
use aug_core::{Layout, OpeningKey};
use std::mem::size_of;
use std::test::Fail;

// Its contract says what it stands for; that it has no bytes is tested here.
#[test]
fn an_opening_key_has_no_bytes(rt: HostRuntime) -> Result<(), Fail> {
    let layout = Layout::new(2, 3, 2, 2)?;
    let _key = OpeningKey::new(&layout, &[(0, 0), (1, 1)]);
    equal(&rt, size_of::<OpeningKey>(), 0);
    equal(&rt, layout.clone()?, layout);
    Ok(())
}
