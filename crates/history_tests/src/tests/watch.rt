//! A thread beside a wait, which ends the test if the wait does not end.
use super::Host;
use refusing::watch::Watch;

/// Waits, and fails if that lasts too long.
pub fn within<R: Host, T, F: FnOnce() -> T>(rt: &R, what: &str, wait: F) -> T
    requires { F.pre wait }
{
    Watch::new(what).over(rt, |what| panic!(rt; "waited too long for {what}"), wait)
}
