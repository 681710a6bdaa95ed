//! Each call of a list once.

use bee_list::Sequence;
use std::alloc::AllocError;

#[test]
fn a_list_lends_and_gives_back(rt: HostRuntime) -> Result<(), AllocError> {
    let list = Sequence::from_vec(Vec::from_slice(rt.alloc(), &[7_u8, 0, 7])?);
    assert_eq!(rt; list.as_slice(), [7_u8, 0, 7].as_slice());
    assert_eq!(rt; list.len(), 3);
    assert!(rt; !list.is_empty());
    let copied = Vec::from_slice(list.allocator(), list.as_slice())?;
    assert_eq!(rt; list.into_vec(), copied);
    Ok(())
}

#[test]
fn members_leave_and_come(rt: HostRuntime) -> Result<(), AllocError> {
    let mut list = Sequence::from_vec(Vec::from_slice(rt.alloc(), &[1_u8, 2, 3])?);
    list.drop_front(2);
    list.push(4)?;
    assert_eq!(rt; list.as_slice(), [3_u8, 4].as_slice());
    assert_eq!(rt; list.len(), 2);
    assert_eq!(rt;
        list,
        Sequence::from_vec(Vec::from_slice(rt.alloc(), &[3_u8, 4])?)
    );
    list.push(5)?;
    list.drop_last();
    list.drop_front(1);
    assert_eq!(rt;
        list.clone()?.into_vec(),
        Vec::from_slice(rt.alloc(), &[4_u8])?
    );
    list.drop_front(3);
    list.drop_last();
    assert!(rt; list.is_empty());
    list.push(6)?;
    assert_eq!(rt; list.into_vec(), Vec::from_slice(rt.alloc(), &[6_u8])?);
    Ok(())
}
