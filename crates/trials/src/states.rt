//! Merges settled, opened again and settled once more, and merges that cannot be made.
use edits::{Fault, Id};
use merger::{Gathering, Merge};
use std::test::Fail;

// 1.1 inserts A.
const FIRST: &[u8] = b"L6\x01IN\x01\x00\x01\x00\x00\x00\x00\x01\x00\x00\x00A";

// 1.2 deletes 1.1, and 2.1 inserts B.
const SECOND: &[u8] =
    b"L6\x01DE\x01\x00\x02\x01\x01\x00\x01\x01\x00\x01IN\x02\x00\x01\x00\x00\x00\x00\x01\x00\x00\x00B";

#[test]
fn a_settled_merge_opens_again(rt: HostRuntime) -> Result<(), Fail> {
    let mut merge = Merge::<char, Gathering>::new(rt.alloc(), 2, 1)?;
    merge.gather(FIRST)?;
    let settled = merge.settle().map_err(Fault::from)?;
    let mut merge = settled.reopen();
    merge.gather(SECOND)?;
    let settled = merge.settle().map_err(Fault::from)?;
    assert!(rt;
        settled
            .lookup(Id {
                editor: 1,
                number: 1,
            })
            .is_none()
    );
    assert!(rt;
        settled.lookup(Id {
            editor: 2,
            number: 1,
        }) == Some(0)
    );
    assert!(rt;
        settled
            .lookup(Id {
                editor: 3,
                number: 1,
            })
            .is_none()
    );
    let text = settled.show(rt.alloc())?;
    assert!(rt; text.as_str() == "shown 1 tombstones 1\n2.1 00000042\nclock 1:2 2:1\n");
    Ok(())
}

#[test]
fn an_unsettled_merge_goes_on(rt: HostRuntime) -> Result<(), Fail> {
    let mut merge = Merge::<char, Gathering>::new(rt.alloc(), 2, 1)?;
    merge.gather(SECOND)?;
    let Err(unsettled) = merge.settle() else {
        return Err(Fail::new("no edit waits"));
    };
    assert_eq!(rt;
        unsettled.lowest,
        Id {
            editor: 1,
            number: 2,
        }
    );
    let mut merge = unsettled.merge;
    merge.gather(FIRST)?;
    let settled = merge.settle().map_err(Fault::from)?;
    let text = settled.show(rt.alloc())?;
    assert!(rt; text.as_str() == "shown 1 tombstones 1\n2.1 00000042\nclock 1:2 2:1\n");
    Ok(())
}

#[test]
fn limits(rt: HostRuntime) {
    assert!(rt; Merge::<char, Gathering>::new(rt.alloc(), 0, 1).is_err());
    assert!(rt; Merge::<char, Gathering>::new(rt.alloc(), 65_537, 1).is_err());
    assert!(rt; Merge::<char, Gathering>::new(rt.alloc(), 1, 0).is_err());
    assert!(rt; Merge::<char, Gathering>::new(rt.alloc(), 1, 65).is_err());
    assert!(rt; Merge::<char, Gathering>::new(rt.alloc(), 65_536, 64).is_ok());
}
