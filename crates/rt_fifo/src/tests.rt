use crate::{Rx, Settled, Trail, Tx, make, make_trail, settle};
use std::test::Fail;
use std::thread;

fn can_send<X: Send>(_value: &X) {}

// Proved for every type whose values threads may hand one another.
fn can_send_ends<T: Send>(tx: &Tx<T>, rx: &Rx<T>, settled: &Settled<T>, trail: &Trail<T>) {
    can_send(tx);
    can_send(rx);
    can_send(settled);
    can_send(trail);
}

#[test]
fn ends_in_two_threads_and_joined(rt: HostRuntime) -> Result<(), Fail> {
    let (mut tx, mut rx) = make::<u32>(rt.alloc(), 2)?;
    assert!(rt; tx.push(&rt, 1).is_ok());
    let (theirs, mine) = thread::join(
        &rt,
        move || {
            let sent = tx.push(&rt, 2).is_ok();
            (tx, sent)
        },
        move || {
            let item = rx.pop(&rt);
            (rx, item)
        },
    );
    assert!(rt; theirs.1);
    assert_eq!(rt; mine.1, Some(1));
    let mut settled = settle(theirs.0, mine.0);
    settled.whole();
    assert_eq!(rt; settled.next(&rt), Some(2));
    assert_eq!(rt; settled.next(&rt), None);
    let mut trail = make_trail(rt.alloc())?;
    trail.note(&rt, 3);
    Ok(())
}
