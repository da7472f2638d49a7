// A list that fills up.
use crate::{FixedList, ListFull};
use std::test::Fail;

#[test]
fn items_in_their_order(rt: HostRuntime) -> Result<(), Fail> {
    let mut list: FixedList<u32, 2> = FixedList::new();
    assert_eq!(rt; list.len(), 0);
    for (item, pushed) in [(7, Ok(())), (5, Ok(())), (6, Err(ListFull))] {
        assert_eq!(rt; list.push(item), pushed);
    }
    assert_eq!(rt; list.as_slice(), [7, 5].as_slice());
    Ok(())
}
