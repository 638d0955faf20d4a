use super::*;
use std::process::Abort;
use std::test::*;

#[test]
fn seats_on_threads_add_up(rt: HostRuntime) -> Result<(), Fail> {
    for (seats, total) in [(2, 1), (8, 28)] {
        let tally = tally_up(&rt, rt.alloc(), seats)?.ok_or("a seat")?;
        assert_eq!(rt; tally.count, u64::from(seats));
        assert_eq!(rt; tally.total, total);
    }
    Ok(())
}

#[test]
fn a_seat_that_only_looks_sees_the_list(rt: HostRuntime) -> Result<(), Fail> {
    let sight = look_at_one(&rt, rt.alloc())?.ok_or("two seats")?;
    assert_eq!(rt; sight.before, 0);
    assert_eq!(rt; sight.after, 1);
    assert!(rt; sight.refused);
    assert_eq!(rt; sight.fronts.0, 1);
    assert_eq!(rt; sight.fronts.1, 1);
    assert_eq!(rt; sight.items.len(), 1);
    Ok(())
}
