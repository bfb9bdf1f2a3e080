//! A thread beside a wait, which ends the test where the wait does not end.
use super::Threaded;
use refusing::watch::Watch;
use std::fmt::Debug;
use std::thread;

/// Waits for what another thread may have to bring, in milliseconds. The test fails where that
/// lasts too long, and tells what was waited for.
pub fn within<R, N, T, F>(rt: &R, what: N, wait: F) -> T
where
    R: Threaded,
    N: Debug + Drop + Send,
    F: FnOnce() -> T,
    requires { F.pre wait }
{
    over(rt, &Watch::brief(what), wait)
}

/// The same where the wait has many threads or many rounds of its own. On a busy machine these keep
/// each other from the processors, so that has more time.
pub fn under_load<R, N, T, F>(rt: &R, what: N, wait: F) -> T
where
    R: Threaded,
    N: Debug + Drop + Send,
    F: FnOnce() -> T,
    requires { F.pre wait }
{
    over(rt, &Watch::new(what), wait)
}

fn over<R, N, T, F>(rt: &R, watch: &Watch<N>, wait: F) -> T
where
    R: Threaded,
    N: Debug + Drop + Send,
    F: FnOnce() -> T,
    requires { F.pre wait }
{
    watch.over(rt, |what| panic!(rt; "waited too long for {what:?}"), wait)
}

/// As `within`, of two threads.
pub fn beside<R, N, F, G, X, Y>(rt: &R, what: N, first: F, second: G) -> (X, Y)
where
    R: Threaded,
    N: Debug + Drop + Send,
    F: FnOnce() -> X + Send,
    G: FnOnce() -> Y,
    X: Send,
    requires { F.pre first × G.pre second }
{
    let both = move ||
        requires { F.pre first × G.pre second }
    { thread::join(rt, first, second) };
    within(rt, what, both)
}
