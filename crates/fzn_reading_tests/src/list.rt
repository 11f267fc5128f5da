// Lists of one owner and of several, and names.
use fzn_list::{Items, Shared, Text};
use std::alloc::{AllocError, Global};
use std::test::Fail;

fn is_pushed_and_cleared(alloc: Global) -> Result<bool, AllocError> {
    let mut items: Items<u64> = Items::new(alloc);
    items.push(3)?;
    items.push(1)?;
    let is_pushed = items.len() == 2 && items.as_slice() == [3, 1].as_slice();
    items.clear();
    Ok(is_pushed && items.len() == 0)
}

fn is_shared(alloc: Global) -> Result<bool, AllocError> {
    let items: Items<u64> = Items::from_slice(alloc, [3, 1].as_slice())?;
    let list = Shared::new(alloc, items)?;
    let same = list.share()?;
    drop(list);
    Ok(same.len() == 2 && same.as_slice() == [3, 1].as_slice())
}

fn is_kept(alloc: Global) -> Result<bool, AllocError> {
    let text = Text::from_slice(alloc, b"queens")?;
    let copy = text.copy(alloc)?;
    Ok(text.as_slice() == b"queens".as_slice() && copy.as_slice() == b"queens".as_slice())
}

#[test]
fn lists_what_was_put(rt: HostRuntime) -> Result<(), Fail> {
    assert!(rt; is_pushed_and_cleared(rt.alloc())?);
    assert!(rt; is_shared(rt.alloc())?);
    assert!(rt; is_kept(rt.alloc())?);
    Ok(())
}
