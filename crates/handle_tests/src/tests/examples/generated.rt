//! The examples of the library's documentation: `tools/examples --write` makes this file of them.
ghost use Rattle.std.specs.Prelude.{◌≡◌, IfSome};

use super::*;

const FOO: u64 = 1;

const BAR: u64 = 2;

const COMPILE: u64 = 3;

const LINK: u64 = 4;

const TIDY_UP: u64 = 5;

const PUT_OUT_THE_FIRE: u64 = 6;

const CALL_FOR_HELP: u64 = 7;

const FLAKY: u64 = 8;

const STEADY: u64 = 9;

const REINDEX: u64 = 10;

const PAGE_THE_ADMIN: u64 = 11;

const TEST: u64 = 12;

const CALL_BACK: u64 = 13;

const PAUSED: u64 = 14;

const LUNCH: u64 = 15;

const BREAKFAST: u64 = 16;

const WATER_THE_PLANTS: u64 = 17;

const FIRST: u64 = 18;

const SECOND: u64 = 19;

const URGENT: u64 = 20;

const BOIL_THE_WATER: u64 = 21;

const REPORT: u64 = 22;

const THUMBNAIL: u64 = 23;

const PAYMENT: u64 = 24;

const DEPLOY: u64 = 25;

const BAZ: u64 = 26;

const TEA: u64 = 27;

#[test]
fn example_of_receiver_recv_blocking(rt: HostRuntime) {
    let (tx, rx) = bounded(&rt, rt.alloc(), 1).expect(&rt, "bounded");
    let sending = thread::spawn(&rt, move || tx.send_blocking(FOO, 0)).expect(&rt, "spawn");
    let (job, priority) = rx.recv_blocking().expect(&rt, "recv_blocking");
    expect_equal(&rt, (job, priority), (FOO, 0));
    expect_equal(&rt, sending.join(&rt), Ok(()));
    expect_equal(&rt, rx.recv_blocking(), Err(RecvFault::Closed(RecvError)));
}

#[test]
fn example_of_receiver_recv_timeout(rt: HostRuntime) {
    let (tx, rx) = bounded(&rt, rt.alloc(), 1).expect(&rt, "bounded");
    let limit = Duration::from_millis(5);
    expect_equal(&rt, rx.recv_timeout(limit), Err(RecvTimeoutError::Timeout));
    tx.try_send(FOO, 0).expect(&rt, "try_send");
    expect_equal(&rt, rx.recv_timeout(limit), Ok((FOO, 0)));
    drop(tx);
    expect_equal(&rt, rx.recv_timeout(limit), Err(RecvTimeoutError::Closed));
}

#[test]
fn example_of_receiver_recv_deadline(rt: HostRuntime) {
    let (tx, rx) = bounded(&rt, rt.alloc(), 1).expect(&rt, "bounded");
    tx.try_send(FOO, 0).expect(&rt, "try_send");
    let limit = Duration::from_millis(5);
    let deadline = Instant::now(&rt)
        .expect(&rt, "now")
        .checked_add(limit)
        .expect(&rt, "too late");
    expect_equal(&rt, rx.recv_deadline(deadline), Ok((FOO, 0)));
    expect_equal(
        &rt,
        rx.recv_deadline(deadline),
        Err(RecvTimeoutError::Timeout),
    );
    expect_true(&rt, deadline <= Instant::now(&rt).expect(&rt, "now"));
}

#[test]
fn example_of_sender_send_blocking(rt: HostRuntime) {
    let (tx, rx) = bounded(&rt, rt.alloc(), 1).expect(&rt, "bounded");
    tx.send_blocking(FOO, 0).expect(&rt, "send_blocking");
    let sending = thread::spawn(&rt, move || tx.send_blocking(BAR, 2)).expect(&rt, "spawn");
    expect_equal(&rt, rx.recv_blocking(), Ok((FOO, 0)));
    expect_equal(&rt, rx.recv_blocking(), Ok((BAR, 2)));
    expect_equal(&rt, sending.join(&rt), Ok(()));
}

#[test]
fn example_of_sender_send_timeout(rt: HostRuntime) {
    let (tx, rx) = bounded(&rt, rt.alloc(), 1).expect(&rt, "bounded");
    let limit = Duration::from_millis(5);
    tx.send_timeout(FOO, 0, limit).expect(&rt, "send_timeout");
    let late = tx.send_timeout(BAR, 2, limit);
    expect_equal(&rt, late, Err(SendTimeoutError::Timeout((BAR, 2))));
    drop(rx);
    let late = tx.send_timeout(BAR, 2, limit);
    expect_equal(&rt, late, Err(SendTimeoutError::Closed((BAR, 2))));
}

#[test]
fn example_of_sender_send_deadline(rt: HostRuntime) {
    let (tx, _rx) = bounded(&rt, rt.alloc(), 1).expect(&rt, "bounded");
    let limit = Duration::from_millis(5);
    let deadline = Instant::now(&rt)
        .expect(&rt, "now")
        .checked_add(limit)
        .expect(&rt, "too late");
    tx.send_deadline(FOO, 0, deadline)
        .expect(&rt, "send_deadline");
    let late = tx.send_deadline(BAR, 2, deadline);
    expect_equal(&rt, late, Err(SendTimeoutError::Timeout((BAR, 2))));
}

#[test]
fn example_of_sender_sendv_blocking(rt: HostRuntime) {
    let (tx, rx) = bounded(&rt, rt.alloc(), 1).expect(&rt, "bounded");
    let jobs = [(3, 1), (4, 2)].into_iter().peekable();
    let receiving = thread::spawn(&rt, move || (rx.recv_blocking(), rx)).expect(&rt, "spawn");
    expect_true(&rt, tx.sendv_blocking(jobs).is_ok());
    let (received, rx) = receiving.join(&rt);
    expect_equal(&rt, received, Ok((3, 1)));
    expect_equal(&rt, rx.try_recv(), Ok((4, 2)));
}

#[test]
fn example_of_sender_sendv_timeout(rt: HostRuntime) {
    let (tx, rx) = bounded(&rt, rt.alloc(), 1).expect(&rt, "bounded");
    let jobs = [(COMPILE, 1), (LINK, 2)].into_iter().peekable();
    if let Err(error) = tx.sendv_timeout(jobs, Duration::from_millis(5)) {
        expect_true(&rt, error.is_timeout());
        expect_equal(&rt, rx.try_recv(), Ok((COMPILE, 1)));
        expect_true(&rt, tx.try_sendv(error.into_inner()).is_ok());
    }
    expect_equal(&rt, rx.try_recv(), Ok((LINK, 2)));
}

#[test]
fn example_of_sender_sendv_deadline(rt: HostRuntime) {
    let (tx, rx) = bounded(&rt, rt.alloc(), 1).expect(&rt, "bounded");
    let limit = Duration::from_millis(5);
    let deadline = Instant::now(&rt)
        .expect(&rt, "now")
        .checked_add(limit)
        .expect(&rt, "too late");
    let jobs = [(COMPILE, 1), (LINK, 2)].into_iter().peekable();
    if let Err(error) = tx.sendv_deadline(jobs, deadline) {
        expect_true(&rt, error.is_timeout());
        expect_equal(&rt, error.into_inner().next(), Some((LINK, 2)));
    }
    expect_equal(&rt, rx.try_recv(), Ok((COMPILE, 1)));
}

fn numbers<R: Wait + Clone>(rt: &R, alloc: Global) -> Result<Ends<u64, u64, R>, AllocError> {
    bounded(rt, alloc, 10)
}

#[test]
fn example_of_ends(rt: HostRuntime) {
    let (tx, rx) = numbers(&rt, rt.alloc()).expect(&rt, "numbers");
    tx.try_send(3, 0).expect(&rt, "try_send");
    expect_equal(&rt, rx.capacity(), Some(10));
}

#[test]
fn example_of_bounded(rt: HostRuntime) {
    let (tx, rx) = bounded(&rt, rt.alloc(), 10).expect(&rt, "bounded");
    tx.try_send(FOO, 0).expect(&rt, "try_send");
    tx.try_send(BAR, 2).expect(&rt, "try_send");
    expect_equal(&rt, rx.try_recv(), Ok((BAR, 2)));
}

#[test]
fn example_of_bounded_reserved(rt: HostRuntime) {
    let (tx, rx) = bounded_reserved(&rt, rt.alloc(), 1).expect(&rt, "bounded_reserved");
    tx.try_send(FOO, 0).expect(&rt, "try_send");
    expect_true(&rt, tx.is_full());
    expect_equal(&rt, rx.try_recv(), Ok((FOO, 0)));
}

#[test]
fn example_of_unbounded(rt: HostRuntime) {
    let (tx, rx) = unbounded(&rt, rt.alloc()).expect(&rt, "unbounded");
    wait_for(&rt, tx.send(FOO, 0)).expect(&rt, "wait_for");
    wait_for(&rt, tx.send(BAR, 2)).expect(&rt, "wait_for");
    expect_equal(&rt, wait_for(&rt, rx.recv()), Ok((BAR, 2)));
}

#[test]
fn example_of_end_close_on_drop(rt: HostRuntime) {
    let (tx, rx) = unbounded(&rt, rt.alloc()).expect(&rt, "unbounded");
    let other = tx.clone().expect(&rt, "clone");
    let guard = tx.close_on_drop();
    other.try_send(FOO, 0).expect(&rt, "try_send");
    drop(guard);
    expect_true(&rt, other.is_closed());
    expect_equal(&rt, rx.try_recv(), Ok((FOO, 0)));
}

#[test]
fn example_of_end_close_on_drop_2(rt: HostRuntime) {
    let (answer, answers) = unbounded::<u64, u64, _, _>(&rt, rt.alloc()).expect(&rt, "unbounded");
    let (tx, requests) = unbounded(&rt, rt.alloc()).expect(&rt, "unbounded");
    expect_true(&rt, tx.try_send(answer, 0).is_ok());
    let guard = requests.close_on_drop();
    drop(guard);
    drop(requests);
    expect_equal(&rt, answers.try_recv(), Err(TryRecvError::Closed));
}

#[test]
fn example_of_end_closed(rt: HostRuntime) {
    let (tx, rx) = unbounded::<u64, u64, _, _>(&rt, rt.alloc()).expect(&rt, "unbounded");
    let receiving = thread::spawn(&rt, move || drop(rx)).expect(&rt, "spawn");
    expect_equal(&rt, wait_for(&rt, tx.closed()), Ok(()));
    expect_true(&rt, tx.is_closed());
    receiving.join(&rt);
}

#[test]
fn example_of_end_closed_blocking(rt: HostRuntime) {
    let (tx, rx) = unbounded(&rt, rt.alloc()).expect(&rt, "unbounded");
    let waiting = thread::spawn(&rt, move || (tx.closed_blocking(), tx)).expect(&rt, "spawn");
    drop(rx);
    let (waited, tx) = waiting.join(&rt);
    expect_equal(&rt, waited, Ok(()));
    expect_equal(
        &rt,
        tx.try_send(FOO, 0),
        Err(TrySendError::Closed((FOO, 0))),
    );
}

#[test]
fn example_of_end_closed_timeout(rt: HostRuntime) {
    let (tx, rx) = unbounded::<u64, u64, _, _>(&rt, rt.alloc()).expect(&rt, "unbounded");
    let limit = Duration::from_millis(5);
    expect_equal(&rt, tx.closed_timeout(limit), Ok(false));
    drop(rx);
    expect_equal(&rt, tx.closed_timeout(limit), Ok(true));
}

#[test]
fn example_of_end_closed_deadline(rt: HostRuntime) {
    let (tx, rx) = unbounded::<u64, u64, _, _>(&rt, rt.alloc()).expect(&rt, "unbounded");
    let limit = Duration::from_millis(5);
    let deadline = Instant::now(&rt)
        .expect(&rt, "now")
        .checked_add(limit)
        .expect(&rt, "too late");
    expect_equal(&rt, tx.closed_deadline(deadline), Ok(false));
    drop(rx);
    expect_equal(&rt, tx.closed_deadline(deadline), Ok(true));
}

#[test]
fn example_of_end(rt: HostRuntime) {
    let (tx, rx) = bounded(&rt, rt.alloc(), 2).expect(&rt, "bounded");
    tx.try_send(FOO, 0).expect(&rt, "try_send");
    expect_equal(&rt, (rx.len(), rx.capacity()), (1, Some(2)));
    expect_true(&rt, !rx.is_empty() && !rx.is_full());
    expect_equal(&rt, (tx.sender_count(), tx.receiver_count()), (1, 1));
    drop(tx);
    expect_true(&rt, rx.is_closed() && rx.len() == 1);
}

#[test]
fn example_of_end_close(rt: HostRuntime) {
    let (tx, rx) = unbounded(&rt, rt.alloc()).expect(&rt, "unbounded");
    tx.try_send(FOO, 0).expect(&rt, "try_send");
    expect_true(&rt, tx.close());
    expect_true(&rt, !rx.close());
    let refused = tx.try_send(BAR, 2);
    expect_equal(&rt, refused, Err(TrySendError::Closed((BAR, 2))));
    expect_equal(&rt, rx.try_recv(), Ok((FOO, 0)));
    expect_equal(&rt, rx.try_recv(), Err(TryRecvError::Closed));
}

#[test]
fn example_of_end_close_when_done(rt: HostRuntime) {
    let (tx, rx) = unbounded(&rt, rt.alloc()).expect(&rt, "unbounded");
    tx.try_send(FOO, 0).expect(&rt, "try_send");
    tx.close_when_done();
    let lease = rx.try_lease().expect(&rt, "try_lease");
    expect_true(&rt, !tx.is_closed());
    tx.try_send(BAR, 2).expect(&rt, "try_send");
    lease.finish();
    expect_true(&rt, !tx.is_closed());
    rx.try_lease().expect(&rt, "try_lease").finish();
    expect_true(&rt, tx.is_closed());
}

#[test]
fn example_of_end_held(rt: HostRuntime) {
    let (tx, rx) = bounded(&rt, rt.alloc(), 2).expect(&rt, "bounded");
    let permit = tx.try_reserve().expect(&rt, "try_reserve");
    expect_equal(&rt, (rx.held(), rx.len()), (1, 0));
    permit.send(FOO, 0);
    expect_equal(&rt, (rx.held(), rx.len()), (0, 1));
}

#[test]
fn example_of_end_shrink_to_fit(rt: HostRuntime) {
    let (tx, rx) = unbounded(&rt, rt.alloc()).expect(&rt, "unbounded");
    tx.try_send(FOO, 0).expect(&rt, "try_send");
    tx.try_send(BAR, 2).expect(&rt, "try_send");
    expect_equal(&rt, rx.try_recv(), Ok((BAR, 2)));
    rx.shrink_to_fit();
    expect_equal(&rt, rx.try_recv(), Ok((FOO, 0)));
}

#[test]
fn example_of_end_same_channel(rt: HostRuntime) {
    let (tx, _rx) = unbounded::<u64, u64, _, _>(&rt, rt.alloc()).expect(&rt, "unbounded");
    let (other, _other_rx) = unbounded(&rt, rt.alloc()).expect(&rt, "unbounded");
    expect_true(&rt, tx.same_channel(&tx.clone().expect(&rt, "clone")));
    expect_true(&rt, !tx.same_channel(&other));
}

#[test]
fn example_of_clone_for_end(rt: HostRuntime) {
    let (tx, rx) = unbounded(&rt, rt.alloc()).expect(&rt, "unbounded");
    let other = tx.clone().expect(&rt, "clone");
    let sending = thread::spawn(&rt, move || other.try_send(FOO, 0)).expect(&rt, "spawn");
    expect_equal(&rt, sending.join(&rt), Ok(()));
    expect_true(&rt, !rx.is_closed());
    drop(tx);
    expect_true(&rt, rx.is_closed());
}

#[test]
fn example_of_receiver_iter(rt: HostRuntime) {
    let (tx, rx) = unbounded(&rt, rt.alloc()).expect(&rt, "unbounded");
    tx.try_send(TIDY_UP, 1).expect(&rt, "try_send");
    tx.try_send(PUT_OUT_THE_FIRE, 9).expect(&rt, "try_send");
    drop(tx);
    let mut jobs = rx.iter().map(|(job, _)| job);
    expect_equal(&rt, jobs.next(), Some(PUT_OUT_THE_FIRE));
    expect_equal(&rt, jobs.next(), Some(TIDY_UP));
    expect_equal(&rt, jobs.next(), None);
}

#[test]
fn example_of_receiver_try_iter(rt: HostRuntime) {
    let (tx, rx) = unbounded(&rt, rt.alloc()).expect(&rt, "unbounded");
    tx.try_send(TIDY_UP, 1).expect(&rt, "try_send");
    tx.try_send(PUT_OUT_THE_FIRE, 9).expect(&rt, "try_send");
    let mut jobs = rx.try_iter();
    expect_equal(&rt, jobs.next(), Some((PUT_OUT_THE_FIRE, 9)));
    expect_equal(&rt, jobs.next(), Some((TIDY_UP, 1)));
    expect_equal(&rt, jobs.next(), None);
    tx.try_send(CALL_FOR_HELP, 9).expect(&rt, "try_send");
    expect_equal(&rt, jobs.next(), None);
}

#[test]
fn example_of_lease(rt: HostRuntime) {
    let (tx, rx) = bounded(&rt, rt.alloc(), 1).expect(&rt, "bounded");
    tx.try_send(COMPILE, 2).expect(&rt, "try_send");
    let lease = rx.try_lease().expect(&rt, "try_lease");
    expect_equal(&rt, (*lease.message(), *lease.priority()), (COMPILE, 2));
    expect_true(&rt, rx.is_empty() && tx.is_full());
    drop(lease);
    expect_equal(
        &rt,
        rx.try_lease().expect(&rt, "try_lease").finish(),
        (COMPILE, 2),
    );
    expect_true(&rt, rx.is_empty() && !tx.is_full());
}

#[test]
fn example_of_lease_message_mut(rt: HostRuntime) {
    let (tx, rx) = unbounded(&rt, rt.alloc()).expect(&rt, "unbounded");
    tx.try_send(3, 0).expect(&rt, "try_send");
    let mut lease = rx.try_lease().expect(&rt, "try_lease");
    let job = lease.message_mut();
    *job = 4;
    drop(lease);
    expect_equal(&rt, rx.try_recv(), Ok((4, 0)));
}

#[test]
fn example_of_lease_put_back(rt: HostRuntime) {
    let (tx, rx) = unbounded(&rt, rt.alloc()).expect(&rt, "unbounded");
    tx.try_send(FLAKY, 5).expect(&rt, "try_send");
    tx.try_send(STEADY, 3).expect(&rt, "try_send");
    rx.try_lease().expect(&rt, "try_lease").put_back(1);
    expect_equal(&rt, rx.try_recv(), Ok((STEADY, 3)));
    expect_equal(&rt, rx.try_recv(), Ok((FLAKY, 1)));
}

#[test]
fn example_of_lease_into_parts(rt: HostRuntime) {
    let (tx, rx) = bounded(&rt, rt.alloc(), 1).expect(&rt, "bounded");
    tx.try_send(COMPILE, 2).expect(&rt, "try_send");
    let (job, priority, permit) = rx.try_lease().expect(&rt, "try_lease").into_parts();
    expect_equal(&rt, (job, priority), (COMPILE, 2));
    permit.send(LINK, 1);
    expect_equal(&rt, rx.try_recv(), Ok((LINK, 1)));
}

#[test]
fn example_of_receiver_try_lease(rt: HostRuntime) {
    let (tx, rx) = bounded(&rt, rt.alloc(), 1).expect(&rt, "bounded");
    expect_true(&rt, rx.try_lease().is_err_and(|error| error.is_empty()));
    tx.try_send(FOO, 0).expect(&rt, "try_send");
    expect_equal(
        &rt,
        rx.try_lease().expect(&rt, "try_lease").finish(),
        (FOO, 0),
    );
}

#[test]
fn example_of_receiver_lease_blocking(rt: HostRuntime) {
    let (tx, rx) = bounded(&rt, rt.alloc(), 1).expect(&rt, "bounded");
    let sending = thread::spawn(&rt, move || tx.send_blocking(FOO, 0)).expect(&rt, "spawn");
    expect_equal(
        &rt,
        rx.lease_blocking().expect(&rt, "lease_blocking").finish(),
        (FOO, 0),
    );
    expect_equal(&rt, sending.join(&rt), Ok(()));
    expect_true(&rt, rx.lease_blocking().is_err());
}

#[test]
fn example_of_receiver_lease_timeout(rt: HostRuntime) {
    let (tx, rx) = bounded(&rt, rt.alloc(), 1).expect(&rt, "bounded");
    let limit = Duration::from_millis(5);
    expect_true(
        &rt,
        rx.lease_timeout(limit)
            .is_err_and(|error| error.is_timeout()),
    );
    tx.try_send(FOO, 0).expect(&rt, "try_send");
    expect_equal(
        &rt,
        rx.lease_timeout(limit)
            .expect(&rt, "lease_timeout")
            .finish(),
        (FOO, 0),
    );
}

#[test]
fn example_of_receiver_lease_deadline(rt: HostRuntime) {
    let (tx, rx) = bounded(&rt, rt.alloc(), 1).expect(&rt, "bounded");
    let limit = Duration::from_millis(5);
    let deadline = Instant::now(&rt)
        .expect(&rt, "now")
        .checked_add(limit)
        .expect(&rt, "too late");
    expect_true(
        &rt,
        rx.lease_deadline(deadline)
            .is_err_and(|error| error.is_timeout()),
    );
    tx.try_send(FOO, 0).expect(&rt, "try_send");
    expect_equal(
        &rt,
        rx.lease_deadline(deadline)
            .expect(&rt, "lease_deadline")
            .finish(),
        (FOO, 0),
    );
}

#[test]
fn example_of_receiver_lease(rt: HostRuntime) {
    let (tx, rx) = bounded(&rt, rt.alloc(), 1).expect(&rt, "bounded");
    let sending = thread::spawn(&rt, move || tx.send_blocking(FOO, 0)).expect(&rt, "spawn");
    expect_equal(
        &rt,
        wait_for(&rt, rx.lease()).expect(&rt, "wait_for").finish(),
        (FOO, 0),
    );
    expect_equal(&rt, sending.join(&rt), Ok(()));
}

#[test]
fn example_of_receiver_leases(rt: HostRuntime) {
    let (tx, rx) = unbounded(&rt, rt.alloc()).expect(&rt, "unbounded");
    tx.try_send(COMPILE, 2).expect(&rt, "try_send");
    tx.close_when_done();
    for lease in rx.leases() {
        if *lease.message() == COMPILE {
            tx.try_send(LINK, 1).expect(&rt, "try_send"); // `compile` is still in hand, so the channel is open
        }
        lease.finish();
    }
    expect_true(&rt, tx.is_closed());
}

#[test]
fn example_of_receiver_try_lease_if(rt: HostRuntime) {
    let (tx, rx) = unbounded(&rt, rt.alloc()).expect(&rt, "unbounded");
    tx.try_send(REINDEX, 1).expect(&rt, "try_send");
    expect_true(
        &rt,
        rx.try_lease_if(|_, priority| *priority > 5)
            .expect(&rt, "try_lease_if")
            .is_none(),
    );
    tx.try_send(PAGE_THE_ADMIN, 9).expect(&rt, "try_send");
    let urgent = rx
        .try_lease_if(|_, priority| *priority > 5)
        .expect(&rt, "try_lease_if")
        .expect(&rt, "none");
    expect_equal(&rt, urgent.finish(), (PAGE_THE_ADMIN, 9));
}

#[test]
fn example_of_receiver_try_lease_where(rt: HostRuntime) {
    let (tx, rx) = unbounded(&rt, rt.alloc()).expect(&rt, "unbounded");
    let jobs = [(COMPILE, 2), (LINK, 1), (TEST, 3)];
    tx.try_sendv(jobs.into_iter().peekable())
        .expect(&rt, "try_sendv");
    let lease = rx
        .try_lease_where(|job, _| *job == LINK)
        .expect(&rt, "try_lease_where")
        .expect(&rt, "none");
    expect_equal(&rt, *lease.message(), LINK);
    drop(lease);
    expect_equal(&rt, rx.len(), 3);
}

#[test]
fn example_of_receiver_lease_when_blocking(rt: HostRuntime) {
    let (tx, rx) = unbounded(&rt, rt.alloc()).expect(&rt, "unbounded");
    let now = Instant::now(&rt).expect(&rt, "now");
    tx.try_send(CALL_BACK, Reverse(now)).expect(&rt, "try_send");
    let later = now
        .checked_add(Duration::from_millis(5))
        .expect(&rt, "too late");
    rx.lease_when_blocking(|_, due| Due::At(due.0))
        .expect(&rt, "lease_when_blocking")
        .put_back(Reverse(later));
    rx.lease_when_blocking(|_, due| Due::At(due.0))
        .expect(&rt, "lease_when_blocking")
        .finish();
    expect_true(&rt, later <= Instant::now(&rt).expect(&rt, "now"));
}

#[test]
fn example_of_receiver_lease_when_timeout(rt: HostRuntime) {
    let (tx, rx) = unbounded(&rt, rt.alloc()).expect(&rt, "unbounded");
    tx.try_send(PAUSED, 1).expect(&rt, "try_send");
    let limit = Duration::from_millis(5);
    let late = rx.lease_when_timeout(|_, _| Due::Never, limit);
    expect_true(&rt, late.is_err_and(|error| error.is_timeout()));
    let lease = rx
        .lease_when_timeout(|_, _| Due::Now, limit)
        .expect(&rt, "lease_when_timeout");
    expect_equal(&rt, lease.finish(), (PAUSED, 1));
}

#[test]
fn example_of_receiver_lease_when_deadline(rt: HostRuntime) {
    let (tx, rx) = unbounded(&rt, rt.alloc()).expect(&rt, "unbounded");
    tx.try_send(FOO, 0).expect(&rt, "try_send");
    let now = Instant::now(&rt).expect(&rt, "now");
    let lease = rx
        .lease_when_deadline(|_, _| Due::At(now), now)
        .expect(&rt, "lease_when_deadline");
    expect_equal(&rt, lease.finish(), (FOO, 0));
}

#[test]
fn example_of_receiver_lease_where_blocking(rt: HostRuntime) {
    let (tx, rx) = unbounded(&rt, rt.alloc()).expect(&rt, "unbounded");
    tx.try_send(COMPILE, 2).expect(&rt, "try_send");
    tx.try_send(LINK, 1).expect(&rt, "try_send");
    let lease = rx
        .lease_where_blocking(|job, _| *job == LINK)
        .expect(&rt, "lease_where_blocking");
    expect_equal(&rt, lease.finish(), (LINK, 1));
}

#[test]
fn example_of_receiver_lease_where_timeout(rt: HostRuntime) {
    let (tx, rx) = unbounded(&rt, rt.alloc()).expect(&rt, "unbounded");
    tx.try_send(COMPILE, 2).expect(&rt, "try_send");
    let limit = Duration::from_millis(5);
    let late = rx.lease_where_timeout(|job, _| *job == LINK, limit);
    expect_true(&rt, late.is_err_and(|error| error.is_timeout()));
    expect_equal(&rt, rx.len(), 1);
}

#[test]
fn example_of_receiver_lease_where_deadline(rt: HostRuntime) {
    let (tx, rx) = unbounded(&rt, rt.alloc()).expect(&rt, "unbounded");
    tx.try_send(FOO, 0).expect(&rt, "try_send");
    let now = Instant::now(&rt).expect(&rt, "now");
    let lease = rx
        .lease_where_deadline(|_, _| true, now)
        .expect(&rt, "lease_where_deadline");
    expect_equal(&rt, lease.finish(), (FOO, 0));
}

#[test]
fn example_of_receiver_lease_where(rt: HostRuntime) {
    let (tx, rx) = unbounded(&rt, rt.alloc()).expect(&rt, "unbounded");
    tx.try_send(COMPILE, 2).expect(&rt, "try_send");
    tx.try_send(LINK, 1).expect(&rt, "try_send");
    let lease = wait_for(&rt, rx.lease_where(|job, _| *job == LINK)).expect(&rt, "wait_for");
    expect_equal(&rt, lease.finish(), (LINK, 1));
}

#[test]
fn example_of_order(rt: HostRuntime) {
    let (tx, rx) = unbounded(&rt, rt.alloc()).expect(&rt, "unbounded");
    let jobs = [(TIDY_UP, 1), (PUT_OUT_THE_FIRE, 9)];
    tx.try_sendv(jobs.into_iter().peekable())
        .expect(&rt, "try_sendv");
    tx.try_send(CALL_FOR_HELP, 9).expect(&rt, "try_send");
    expect_equal(&rt, rx.try_recv(), Ok((PUT_OUT_THE_FIRE, 9)));
    expect_equal(&rt, rx.try_recv(), Ok((CALL_FOR_HELP, 9)));
    expect_equal(&rt, rx.try_recv(), Ok((TIDY_UP, 1)));
}

#[test]
fn example_of_order_2(rt: HostRuntime) {
    let (tx, rx) = unbounded(&rt, rt.alloc()).expect(&rt, "unbounded");
    tx.try_send(LUNCH, Reverse(12)).expect(&rt, "try_send");
    tx.try_send(BREAKFAST, Reverse(7)).expect(&rt, "try_send");
    expect_equal(&rt, rx.try_recv(), Ok((BREAKFAST, Reverse(7))));
}

#[test]
fn example_of_sharing(rt: HostRuntime) {
    let (tx, rx) = bounded(&rt, rt.alloc(), 10).expect(&rt, "bounded");
    let other = tx.clone().expect(&rt, "clone");
    let working = thread::spawn(&rt, move || rx.iter().count()).expect(&rt, "spawn");
    let sending = thread::spawn(&rt, move || other.send_blocking(3, 0)).expect(&rt, "spawn");
    tx.send_blocking(4, 2).expect(&rt, "send_blocking");
    expect_equal(&rt, sending.join(&rt), Ok(()));
    drop(tx);
    expect_equal(&rt, working.join(&rt), 2);
}

fn send_all<R: Wait + Clone>(tx: &Sender<u64, u64, R>, numbers: &[u64]) -> bool {
    numbers
        .iter()
        .all(|number| tx.send_blocking(*number, 0).is_ok())
}

#[test]
fn example_of_sharing_2(rt: HostRuntime) {
    let (tx, rx) = unbounded(&rt, rt.alloc()).expect(&rt, "unbounded");
    expect_true(&rt, send_all(&tx, &[3, 4]));
    expect_equal(&rt, rx.len(), 2);
}

#[test]
fn example_of_closing(rt: HostRuntime) {
    let (tx, rx) = unbounded(&rt, rt.alloc()).expect(&rt, "unbounded");
    tx.try_send(FOO, 0).expect(&rt, "try_send");
    drop(tx);
    expect_true(&rt, rx.is_closed());
    expect_equal(&rt, rx.try_recv(), Ok((FOO, 0)));
    expect_equal(&rt, rx.try_recv(), Err(TryRecvError::Closed));
}

#[test]
fn example_of_held_places(rt: HostRuntime) {
    let mut done = Vec::new(rt.alloc());
    let (tx, rx) = unbounded(&rt, rt.alloc()).expect(&rt, "unbounded");
    tx.try_send(3, ()).expect(&rt, "try_send");
    tx.close_when_done();
    for lease in rx.leases() {
        if *lease.message() > 0 {
            tx.try_send(*lease.message() - 1, ())
                .expect(&rt, "try_send");
        }
        done.push(lease.finish().0).expect(&rt, "push");
    }
    expect_equal(&rt, done.as_slice(), [3, 2, 1, 0].as_slice());
}

#[test]
fn example_of_time_limits(rt: HostRuntime) {
    let (tx, rx) = bounded(&rt, rt.alloc(), 1).expect(&rt, "bounded");
    let limit = Duration::from_millis(5);
    expect_equal(&rt, rx.recv_timeout(limit), Err(RecvTimeoutError::Timeout));
    tx.send_timeout(FOO, 0, limit).expect(&rt, "send_timeout");
    if let Err(late) = tx.send_timeout(BAR, 2, limit) {
        expect_equal(&rt, late.into_inner(), (BAR, 2));
    }
}

#[test]
fn example_of_conditions(rt: HostRuntime) {
    let (tx, rx) = unbounded(&rt, rt.alloc()).expect(&rt, "unbounded");
    let free = 4;
    for (job, memory, urgency) in [(COMPILE, 8, 2), (TEST, 1, 1)] {
        tx.try_send((job, memory), urgency).expect(&rt, "try_send");
    }
    let (job, _) = rx
        .recv_where_blocking(|(_, memory), _| *memory <= free)
        .expect(&rt, "recv_where_blocking");
    expect_equal(&rt, job, (TEST, 1));
}

#[test]
fn example_of_iterating(rt: HostRuntime) {
    let mut done = Vec::new(rt.alloc());
    let (tx, rx) = bounded(&rt, rt.alloc(), 1).expect(&rt, "bounded");
    let sending = thread::spawn(&rt, move || tx.send_blocking(FOO, 0)).expect(&rt, "spawn");
    for (job, priority) in &rx {
        done.push((job, priority)).expect(&rt, "push");
    }
    expect_equal(&rt, sending.join(&rt), Ok(()));
    expect_equal(&rt, done.as_slice(), [(FOO, 0)].as_slice());
}

#[test]
fn example_of_futures(rt: HostRuntime) {
    let (tx, rx) = bounded(&rt, rt.alloc(), 1).expect(&rt, "bounded");
    let (received, sent) = wait_for(&rt, join(rx.recv(), tx.send(FOO, 0)));
    expect_equal(&rt, (received, sent), (Ok((FOO, 0)), Ok(())));
    drop(tx);
    expect_equal(&rt, wait_for(&rt, rx.stream().next()), None);
}

#[test]
fn example_of_futures_2(rt: HostRuntime) {
    let (tx, jobs) = unbounded(&rt, rt.alloc()).expect(&rt, "unbounded");
    let (_stop, stops) = unbounded::<(), (), _, _>(&rt, rt.alloc()).expect(&rt, "unbounded");
    tx.try_send(FOO, 0).expect(&rt, "try_send");
    let has_come = match wait_for(&rt, select(jobs.recv(), stops.recv())) {
        Either::Left((job, _)) => job == Ok((FOO, 0)),
        Either::Right(_) => false,
    };
    expect_true(&rt, has_come);
}

#[test]
fn example_of_memory(rt: HostRuntime) {
    let (tx, rx) = bounded_reserved(&rt, rt.alloc(), 100).expect(&rt, "bounded_reserved");
    let sent = tx.try_send(FOO, 0);
    expect_true(&rt, !sent.is_err_and(|error| error.is_memory()));
    expect_equal(&rt, rx.len(), 1);
}

fn offer<R: Wait + Clone>(tx: &Sender<u64, u64, R>, number: u64) -> Option<u64>
    ensures { IfSome result (λ unsent. unsent ≡ number) }
{
    match tx.try_send(number, 0) {
        Ok(()) => None,
        Err(refusal) => Some(refusal.into_inner().0),
    }
}

#[test]
fn example_of_what_is_proved(rt: HostRuntime) {
    let (tx, rx) = bounded(&rt, rt.alloc(), 1).expect(&rt, "bounded");
    expect_equal(&rt, offer(&tx, 3), None);
    expect_equal(&rt, offer(&tx, 4), Some(4));
    expect_equal(&rt, rx.len(), 1);
}

#[test]
fn example_of_receiver_try_recv_many(rt: HostRuntime) {
    let (tx, rx) = unbounded(&rt, rt.alloc()).expect(&rt, "unbounded");
    let jobs = [(COMPILE, 2), (LINK, 1), (TEST, 3)];
    tx.try_sendv(jobs.into_iter().peekable())
        .expect(&rt, "try_sendv");
    let mut batch = Vec::new(rt.alloc());
    expect_equal(&rt, rx.try_recv_many(&mut batch, 2), Ok(2));
    expect_equal(&rt, batch.as_slice(), [(TEST, 3), (COMPILE, 2)].as_slice());
    expect_equal(&rt, rx.len(), 1);
}

#[test]
fn example_of_receiver_recv_many_blocking(rt: HostRuntime) {
    let (tx, rx) = bounded(&rt, rt.alloc(), 10).expect(&rt, "bounded");
    let sending = thread::spawn(&rt, move || tx.send_blocking(FOO, 0)).expect(&rt, "spawn");
    let mut batch = Vec::new(rt.alloc());
    expect_equal(&rt, rx.recv_many_blocking(&mut batch, 64), Ok(1));
    expect_equal(&rt, batch.pop(), Some((FOO, 0)));
    expect_equal(&rt, sending.join(&rt), Ok(()));
    let ended = rx.recv_many_blocking(&mut batch, 64);
    expect_equal(&rt, ended, Err(RecvFault::Closed(RecvError)));
}

#[test]
fn example_of_receiver_recv_many_timeout(rt: HostRuntime) {
    let (tx, rx) = bounded(&rt, rt.alloc(), 10).expect(&rt, "bounded");
    let limit = Duration::from_millis(5);
    let mut batch = Vec::new(rt.alloc());
    let late = rx.recv_many_timeout(&mut batch, 8, limit);
    expect_equal(&rt, late, Err(RecvTimeoutError::Timeout));
    tx.try_send(FOO, 0).expect(&rt, "try_send");
    tx.try_send(BAR, 2).expect(&rt, "try_send");
    expect_equal(&rt, rx.recv_many_timeout(&mut batch, 8, limit), Ok(2));
    expect_equal(&rt, batch.as_slice(), [(BAR, 2), (FOO, 0)].as_slice());
}

#[test]
fn example_of_receiver_recv_many_deadline(rt: HostRuntime) {
    let (tx, rx) = bounded(&rt, rt.alloc(), 10).expect(&rt, "bounded");
    let limit = Duration::from_millis(5);
    let deadline = Instant::now(&rt)
        .expect(&rt, "now")
        .checked_add(limit)
        .expect(&rt, "too late");
    let mut batch = Vec::new(rt.alloc());
    tx.try_send(FOO, 0).expect(&rt, "try_send");
    expect_equal(&rt, rx.recv_many_deadline(&mut batch, 8, deadline), Ok(1));
    let late = rx.recv_many_deadline(&mut batch, 8, deadline);
    expect_equal(&rt, late, Err(RecvTimeoutError::Timeout));
}

#[test]
fn example_of_receiver_recv_many(rt: HostRuntime) {
    let (tx, rx) = unbounded(&rt, rt.alloc()).expect(&rt, "unbounded");
    tx.try_send(FOO, 0).expect(&rt, "try_send");
    let mut batch = Vec::new(rt.alloc());
    let count = wait_for(&rt, rx.recv_many(&mut batch, 64)).expect(&rt, "wait_for");
    expect_equal(&rt, count, 1);
    expect_equal(&rt, batch.first(), Some(&(FOO, 0)));
}

#[test]
fn example_of_receiver_peek_with(rt: HostRuntime) {
    let (tx, rx) = unbounded(&rt, rt.alloc()).expect(&rt, "unbounded");
    tx.try_send(WATER_THE_PLANTS, Reverse(30))
        .expect(&rt, "try_send");
    let now = 20;
    let is_due = rx.peek_with(|_, Reverse(due)| *due <= now);
    expect_equal(&rt, is_due, Some(false));
    expect_equal(&rt, rx.len(), 1);
}

#[test]
fn example_of_receiver_peek_priority(rt: HostRuntime) {
    let (tx, rx) = unbounded(&rt, rt.alloc()).expect(&rt, "unbounded");
    expect_equal(&rt, rx.peek_priority().expect(&rt, "peek_priority"), None);
    tx.try_send(FOO, 7).expect(&rt, "try_send");
    expect_equal(
        &rt,
        rx.peek_priority().expect(&rt, "peek_priority"),
        Some(7),
    );
    expect_equal(&rt, rx.try_recv(), Ok((FOO, 7)));
}

#[test]
fn example_of_permit(rt: HostRuntime) {
    let (tx, rx) = bounded(&rt, rt.alloc(), 1).expect(&rt, "bounded");
    let permit = tx.try_reserve().expect(&rt, "try_reserve");
    expect_true(&rt, tx.is_full());
    tx.close();
    permit.send(FOO, 0);
    expect_equal(&rt, rx.try_recv(), Ok((FOO, 0)));
}

#[test]
fn example_of_sender_try_reserve(rt: HostRuntime) {
    let (tx, rx) = bounded(&rt, rt.alloc(), 1).expect(&rt, "bounded");
    let permit = tx.try_reserve().expect(&rt, "try_reserve");
    expect_equal(&rt, tx.try_send(BAR, 2), Err(TrySendError::Full((BAR, 2))));
    drop(permit);
    expect_equal(&rt, tx.try_send(BAR, 2), Ok(()));
}

#[test]
fn example_of_sender_reserve_blocking(rt: HostRuntime) {
    let (tx, rx) = bounded(&rt, rt.alloc(), 1).expect(&rt, "bounded");
    tx.try_send(FOO, 0).expect(&rt, "try_send");
    let receiving = thread::spawn(&rt, move || (rx.recv_blocking(), rx)).expect(&rt, "spawn");
    let permit = tx.reserve_blocking().expect(&rt, "reserve_blocking");
    let (received, rx) = receiving.join(&rt);
    expect_equal(&rt, received, Ok((FOO, 0)));
    permit.send(BAR, 2);
    expect_equal(&rt, rx.try_recv(), Ok((BAR, 2)));
}

#[test]
fn example_of_sender_reserve_timeout(rt: HostRuntime) {
    let (tx, _rx) = bounded::<u64, u64, _, _>(&rt, rt.alloc(), 1).expect(&rt, "bounded");
    let limit = Duration::from_millis(5);
    let permit = tx.reserve_timeout(limit).expect(&rt, "reserve_timeout");
    let refused = tx.reserve_timeout(limit);
    expect_true(&rt, refused.is_err_and(|error| error.is_timeout()));
    drop(permit);
}

#[test]
fn example_of_sender_reserve_deadline(rt: HostRuntime) {
    let (tx, _rx) = bounded::<u64, u64, _, _>(&rt, rt.alloc(), 1).expect(&rt, "bounded");
    let limit = Duration::from_millis(5);
    let deadline = Instant::now(&rt)
        .expect(&rt, "now")
        .checked_add(limit)
        .expect(&rt, "too late");
    let permit = tx
        .reserve_deadline(deadline)
        .expect(&rt, "reserve_deadline");
    let refused = tx.reserve_deadline(deadline);
    expect_true(&rt, refused.is_err_and(|error| error.is_timeout()));
    drop(permit);
}

#[test]
fn example_of_sender_reserve(rt: HostRuntime) {
    let (tx, rx) = bounded(&rt, rt.alloc(), 1).expect(&rt, "bounded");
    tx.try_send(FOO, 0).expect(&rt, "try_send");
    let (reserved, received) = wait_for(&rt, join(tx.reserve(), rx.recv()));
    expect_equal(&rt, received, Ok((FOO, 0)));
    reserved.expect(&rt, "reserve").send(BAR, 2);
    expect_equal(&rt, rx.try_recv(), Ok((BAR, 2)));
}

#[test]
fn example_of_receiver(rt: HostRuntime) {
    let (tx, rx) = unbounded(&rt, rt.alloc()).expect(&rt, "unbounded");
    tx.try_send(FIRST, 5).expect(&rt, "try_send");
    tx.try_send(SECOND, 5).expect(&rt, "try_send");
    tx.try_send(URGENT, 9).expect(&rt, "try_send");
    expect_equal(&rt, rx.try_recv(), Ok((URGENT, 9)));
    expect_equal(&rt, rx.try_recv(), Ok((FIRST, 5)));
    expect_equal(&rt, rx.try_recv(), Ok((SECOND, 5)));
}

#[test]
fn example_of_receiver_recv(rt: HostRuntime) {
    let (tx, rx) = unbounded(&rt, rt.alloc()).expect(&rt, "unbounded");
    let sending = thread::spawn(&rt, move || tx.try_send(FOO, 0)).expect(&rt, "spawn");
    let (job, priority) = wait_for(&rt, rx.recv()).expect(&rt, "wait_for");
    expect_equal(&rt, (job, priority), (FOO, 0));
    expect_equal(&rt, sending.join(&rt), Ok(()));
}

#[test]
fn example_of_receiver_try_recv(rt: HostRuntime) {
    let (tx, rx) = unbounded(&rt, rt.alloc()).expect(&rt, "unbounded");
    expect_equal(&rt, rx.try_recv(), Err(TryRecvError::Empty));
    tx.try_send(FOO, 0).expect(&rt, "try_send");
    drop(tx);
    expect_equal(&rt, rx.try_recv(), Ok((FOO, 0)));
    expect_equal(&rt, rx.try_recv(), Err(TryRecvError::Closed));
}

#[test]
fn example_of_receiver_recv_when_blocking(rt: HostRuntime) {
    let (tx, rx) = unbounded(&rt, rt.alloc()).expect(&rt, "unbounded");
    let now = Instant::now(&rt).expect(&rt, "now");
    let soon = now
        .checked_add(Duration::from_millis(5))
        .expect(&rt, "too late");
    tx.try_send(BOIL_THE_WATER, Reverse(soon))
        .expect(&rt, "try_send");
    let (job, _) = rx
        .recv_when_blocking(|_, due| Due::At(due.0))
        .expect(&rt, "recv_when_blocking");
    expect_equal(&rt, job, BOIL_THE_WATER);
    expect_true(&rt, soon <= Instant::now(&rt).expect(&rt, "now"));
}

#[test]
fn example_of_receiver_recv_when_timeout(rt: HostRuntime) {
    let (tx, rx) = unbounded(&rt, rt.alloc()).expect(&rt, "unbounded");
    tx.try_send(PAUSED, 1).expect(&rt, "try_send");
    let limit = Duration::from_millis(5);
    let late = rx.recv_when_timeout(|_, _| Due::Never, limit);
    expect_equal(&rt, late, Err(RecvTimeoutError::Timeout));
    expect_equal(
        &rt,
        rx.recv_when_timeout(|_, _| Due::Now, limit),
        Ok((PAUSED, 1)),
    );
}

#[test]
fn example_of_receiver_recv_when_deadline(rt: HostRuntime) {
    let (tx, rx) = unbounded(&rt, rt.alloc()).expect(&rt, "unbounded");
    tx.try_send(FOO, 0).expect(&rt, "try_send");
    let now = Instant::now(&rt).expect(&rt, "now");
    expect_equal(
        &rt,
        rx.recv_when_deadline(|_, _| Due::At(now), now),
        Ok((FOO, 0)),
    );
}

#[test]
fn example_of_receiver_recv_where_blocking(rt: HostRuntime) {
    let (tx, rx) = unbounded(&rt, rt.alloc()).expect(&rt, "unbounded");
    tx.try_send(COMPILE, 2).expect(&rt, "try_send");
    tx.try_send(LINK, 1).expect(&rt, "try_send");
    let job = rx.recv_where_blocking(|job, _| *job == LINK);
    expect_equal(&rt, job, Ok((LINK, 1)));
}

#[test]
fn example_of_receiver_recv_where_timeout(rt: HostRuntime) {
    let (tx, rx) = unbounded(&rt, rt.alloc()).expect(&rt, "unbounded");
    tx.try_send(COMPILE, 2).expect(&rt, "try_send");
    let limit = Duration::from_millis(5);
    let late = rx.recv_where_timeout(|job, _| *job == LINK, limit);
    expect_equal(&rt, late, Err(RecvTimeoutError::Timeout));
    expect_equal(&rt, rx.len(), 1);
}

#[test]
fn example_of_receiver_recv_where_deadline(rt: HostRuntime) {
    let (tx, rx) = unbounded(&rt, rt.alloc()).expect(&rt, "unbounded");
    tx.try_send(FOO, 0).expect(&rt, "try_send");
    let now = Instant::now(&rt).expect(&rt, "now");
    expect_equal(&rt, rx.recv_where_deadline(|_, _| true, now), Ok((FOO, 0)));
}

#[test]
fn example_of_receiver_recv_where(rt: HostRuntime) {
    let (tx, rx) = unbounded(&rt, rt.alloc()).expect(&rt, "unbounded");
    tx.try_send(COMPILE, 2).expect(&rt, "try_send");
    tx.try_send(LINK, 1).expect(&rt, "try_send");
    let received = wait_for(&rt, rx.recv_where(|job, _| *job == LINK));
    expect_equal(&rt, received, Ok((LINK, 1)));
}

#[test]
fn example_of_sender(rt: HostRuntime) {
    let (tx, rx) = unbounded(&rt, rt.alloc()).expect(&rt, "unbounded");
    let other = tx.clone().expect(&rt, "clone");
    tx.try_send(FOO, 0).expect(&rt, "try_send");
    drop(tx);
    expect_true(&rt, !rx.is_closed());
    drop(other);
    expect_true(&rt, rx.is_closed());
    expect_equal(&rt, rx.try_recv(), Ok((FOO, 0)));
}

#[test]
fn example_of_sender_try_sendv(rt: HostRuntime) {
    let (tx, rx) = bounded(&rt, rt.alloc(), 2).expect(&rt, "bounded");
    let jobs = [(COMPILE, 2), (LINK, 1), (TEST, 0)];
    if let Err(refusal) = tx.try_sendv(jobs.into_iter().peekable()) {
        expect_true(&rt, refusal.is_full());
        expect_equal(&rt, refusal.into_inner().next(), Some((TEST, 0)));
    }
    expect_equal(&rt, rx.try_recv(), Ok((COMPILE, 2)));
}

#[test]
fn example_of_sender_send(rt: HostRuntime) {
    let (tx, rx) = bounded(&rt, rt.alloc(), 1).expect(&rt, "bounded");
    wait_for(&rt, tx.send(FOO, 0)).expect(&rt, "wait_for");
    let (sent, received) = wait_for(&rt, join(tx.send(BAR, 2), rx.recv()));
    expect_equal(&rt, received, Ok((FOO, 0)));
    expect_equal(&rt, sent, Ok(()));
}

#[test]
fn example_of_sender_sendv(rt: HostRuntime) {
    let (tx, rx) = bounded(&rt, rt.alloc(), 1).expect(&rt, "bounded");
    let jobs = [(3, 2), (4, 1)].into_iter().peekable();
    let receiving = thread::spawn(&rt, move || (rx.recv_blocking(), rx)).expect(&rt, "spawn");
    expect_true(&rt, wait_for(&rt, tx.sendv(jobs)).is_ok());
    let (received, rx) = receiving.join(&rt);
    expect_equal(&rt, received, Ok((3, 2)));
    expect_equal(&rt, rx.try_recv(), Ok((4, 1)));
}

#[test]
fn example_of_sender_try_send(rt: HostRuntime) {
    let (tx, rx) = bounded(&rt, rt.alloc(), 1).expect(&rt, "bounded");
    tx.try_send(FOO, 0).expect(&rt, "try_send");
    expect_equal(&rt, tx.try_send(BAR, 2), Err(TrySendError::Full((BAR, 2))));
    drop(rx);
    let refused = tx.try_send(BAR, 2);
    expect_equal(&rt, refused, Err(TrySendError::Closed((BAR, 2))));
}

#[test]
fn example_of_sender_try_send_evicting(rt: HostRuntime) {
    let (tx, rx) = bounded(&rt, rt.alloc(), 2).expect(&rt, "bounded");
    tx.try_send(REPORT, 1).expect(&rt, "try_send");
    tx.try_send(THUMBNAIL, 0).expect(&rt, "try_send");
    expect_equal(
        &rt,
        tx.try_send_evicting(PAYMENT, 9),
        Ok(Some((THUMBNAIL, 0))),
    );
    let refused = tx.try_send_evicting(THUMBNAIL, 0);
    expect_equal(&rt, refused, Err(TrySendError::Full((THUMBNAIL, 0))));
    expect_equal(&rt, rx.try_recv(), Ok((PAYMENT, 9)));
}

#[test]
fn example_of_receiver_stream(rt: HostRuntime) {
    let (tx, rx) = unbounded(&rt, rt.alloc()).expect(&rt, "unbounded");
    let jobs = [(COMPILE, 2), (LINK, 1), (TEST, 3)];
    tx.try_sendv(jobs.into_iter().peekable())
        .expect(&rt, "try_sendv");
    let pairs = wait_for(&rt, rx.stream().take(2).collect(rt.alloc())).expect(&rt, "wait_for");
    expect_equal(&rt, pairs.as_slice(), [(TEST, 3), (COMPILE, 2)].as_slice());
    expect_equal(&rt, rx.try_recv(), Ok((LINK, 1)));
}

#[test]
fn example_of_receiver_into_stream(rt: HostRuntime) {
    let (tx, rx) = bounded(&rt, rt.alloc(), 1).expect(&rt, "bounded");
    let stream = rx.into_stream();
    let counting = thread::spawn(&rt, move || block_on(&rt, stream.count())).expect(&rt, "spawn");
    tx.send_blocking(FOO, 0).expect(&rt, "send_blocking");
    tx.send_blocking(BAR, 2).expect(&rt, "send_blocking");
    drop(tx);
    expect_equal(&rt, counting.join(&rt).expect(&rt, "join"), 2);
}

#[test]
fn example_of_end_take_where(rt: HostRuntime) {
    let (tx, rx) = unbounded(&rt, rt.alloc()).expect(&rt, "unbounded");
    let jobs = [(COMPILE, 2), (LINK, 1), (TEST, 3)];
    tx.try_sendv(jobs.into_iter().peekable())
        .expect(&rt, "try_sendv");
    expect_equal(&rt, rx.take_where(|job, _| *job == LINK), Some((LINK, 1)));
    expect_equal(&rt, rx.take_where(|job, _| *job == LINK), None);
    expect_equal(&rt, rx.try_recv(), Ok((TEST, 3)));
}

#[test]
fn example_of_end_change_priority(rt: HostRuntime) {
    let (tx, rx) = unbounded(&rt, rt.alloc()).expect(&rt, "unbounded");
    let jobs = [(COMPILE, 2), (LINK, 1), (TEST, 3)];
    tx.try_sendv(jobs.into_iter().peekable())
        .expect(&rt, "try_sendv");
    expect_equal(&rt, rx.change_priority(|job, _| *job == LINK, 3), Some(1));
    expect_equal(&rt, rx.change_priority(|job, _| *job == DEPLOY, 9), None);
    expect_equal(&rt, rx.try_recv(), Ok((LINK, 3)));
    expect_equal(&rt, rx.try_recv(), Ok((TEST, 3)));
}

#[test]
fn example_of_end_count_where(rt: HostRuntime) {
    let (tx, rx) = unbounded(&rt, rt.alloc()).expect(&rt, "unbounded");
    tx.try_sendv([(FOO, 0), (BAR, 2), (BAZ, 5)].into_iter().peekable())
        .expect(&rt, "try_sendv");
    expect_equal(&rt, rx.count_where(|_, priority| *priority > 1), 2);
}

#[test]
fn example_of_end_fold_pending(rt: HostRuntime) {
    let (tx, rx) = unbounded(&rt, rt.alloc()).expect(&rt, "unbounded");
    tx.try_sendv([(FOO, 0), (BAR, 2), (BAZ, 5)].into_iter().peekable())
        .expect(&rt, "try_sendv");
    let most = rx.fold_pending(0, |most: u64, _, priority| most.max(*priority));
    expect_equal(&rt, most, 5);
}

#[test]
fn example_of_end_retain(rt: HostRuntime) {
    let (tx, rx) = unbounded(&rt, rt.alloc()).expect(&rt, "unbounded");
    let jobs = [(COMPILE, 2), (LINK, 1), (TEST, 3)];
    tx.try_sendv(jobs.into_iter().peekable())
        .expect(&rt, "try_sendv");
    let cancelled = rx.retain(|job, _| *job != LINK).expect(&rt, "retain");
    expect_equal(&rt, cancelled.as_slice(), [(LINK, 1)].as_slice());
    expect_equal(&rt, rx.try_recv(), Ok((TEST, 3)));
    expect_equal(&rt, rx.len(), 1);
}

#[test]
fn example_of_receiver_try_recv_where(rt: HostRuntime) {
    let (tx, rx) = unbounded(&rt, rt.alloc()).expect(&rt, "unbounded");
    let jobs = [(COMPILE, 2), (LINK, 1), (TEST, 3)];
    tx.try_sendv(jobs.into_iter().peekable())
        .expect(&rt, "try_sendv");
    let short = rx.try_recv_where(|job, _| *job != COMPILE);
    expect_equal(&rt, short, Ok(Some((TEST, 3))));
    expect_equal(&rt, rx.try_recv_where(|job, _| *job == DEPLOY), Ok(None));
    expect_equal(&rt, rx.len(), 2);
}

#[test]
fn example_of_receiver_try_recv_if(rt: HostRuntime) {
    let (tx, rx) = unbounded(&rt, rt.alloc()).expect(&rt, "unbounded");
    tx.try_send(REINDEX, 1).expect(&rt, "try_send");
    expect_equal(&rt, rx.try_recv_if(|_, priority| *priority > 5), Ok(None));
    tx.try_send(PAGE_THE_ADMIN, 9).expect(&rt, "try_send");
    let urgent = rx.try_recv_if(|_, priority| *priority > 5);
    expect_equal(&rt, urgent, Ok(Some((PAGE_THE_ADMIN, 9))));
    expect_equal(&rt, rx.len(), 1);
}

#[test]
fn example_of_weak_upgrade(rt: HostRuntime) {
    let (tx, rx) = unbounded::<u64, u64, _, _>(&rt, rt.alloc()).expect(&rt, "unbounded");
    let weak = tx.downgrade().expect(&rt, "downgrade");
    expect_true(&rt, weak.upgrade().is_some());
    drop(tx);
    expect_true(&rt, weak.upgrade().is_none() && rx.is_closed());
}

#[test]
fn example_of_weak_is_closed(rt: HostRuntime) {
    let (tx, rx) = unbounded::<u64, u64, _, _>(&rt, rt.alloc()).expect(&rt, "unbounded");
    let weak = rx.downgrade().expect(&rt, "downgrade");
    expect_true(&rt, !weak.is_closed());
    drop(tx);
    expect_true(&rt, weak.is_closed());
}

#[test]
fn example_of_end_downgrade(rt: HostRuntime) {
    let (tx, rx) = unbounded::<u64, u64, _, _>(&rt, rt.alloc()).expect(&rt, "unbounded");
    let weak = tx.downgrade().expect(&rt, "downgrade");
    expect_equal(&rt, rx.sender_count(), 1);
    drop(tx);
    expect_true(&rt, rx.is_closed() && weak.upgrade().is_none());
}

#[test]
fn example_of_due(rt: HostRuntime) {
    let (tx, rx) = unbounded(&rt, rt.alloc()).expect(&rt, "unbounded");
    tx.try_send(TEA, Reverse(Instant::now(&rt).expect(&rt, "now")))
        .expect(&rt, "try_send");
    let (ready, _) = rx
        .recv_when_blocking(|_, due| Due::At(due.0))
        .expect(&rt, "recv_when_blocking");
    expect_equal(&rt, ready, TEA);
}

#[test]
fn example_of_send_timeout_error(rt: HostRuntime) {
    let (tx, rx) = bounded(&rt, rt.alloc(), 1).expect(&rt, "bounded");
    drop(rx);
    let refused = tx.send_timeout(FOO, 0, Duration::from_millis(5));
    expect_true(&rt, refused.is_err_and(|error| error.is_closed()));
    expect_true(
        &rt,
        refused.is_err_and(|error| error.into_inner() == (FOO, 0)),
    );
}

#[test]
fn example_of_recv_timeout_error(rt: HostRuntime) {
    let (_tx, rx) = bounded::<u64, u64, _, _>(&rt, rt.alloc(), 1).expect(&rt, "bounded");
    let refused = rx.recv_timeout(Duration::from_millis(5));
    expect_true(&rt, refused.is_err_and(|error| error.is_timeout()));
}
