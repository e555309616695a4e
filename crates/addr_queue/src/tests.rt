// What no clause says: that a queue can be made with ample memory; and one queue, call by call.
use crate::Queue;
use addr_base::BundleNo;
use std::test::Fail;

#[test]
fn one_leaves_from_the_middle(rt: HostRuntime) -> Result<(), Fail> {
    let mut queue = Queue::new(rt.alloc(), 4)?;
    assert_eq!(rt; queue.first(), None);
    queue.push(BundleNo(3));
    queue.push(BundleNo(0));
    queue.push(BundleNo(2));
    queue.remove(BundleNo(0));
    assert_eq!(rt; queue.len(), 2);
    assert_eq!(rt; queue.first(), Some(BundleNo(3)));
    queue.remove(BundleNo(3));
    queue.push(BundleNo(0));
    assert_eq!(rt; queue.first(), Some(BundleNo(2)));
    Ok(())
}
