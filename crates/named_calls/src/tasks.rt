//! Tasks of a test, which polls futures by hand.
ghost use Rattle.std.specs.Prelude.{◌≡◌, true};

use futures::Future;
use futures::task::Poll;
use futures::test::MockTask;

/// None where it is pending.
pub fn ready<T>(polled: Poll<T>) -> Option<T> {
    match polled {
        Poll::Ready(answer) => Some(answer),
        Poll::Pending => None,
    }
}

/// Polls it in the task, and tells whether it is pending.
pub fn is_pending<F: Future<Output: Drop>>(task: &MockTask, future: &mut F) -> bool
    requires { F.can_poll future.old }
    ensures { result ≡ true → F.can_poll future.new }
{
    match task.poll(future) {
        Poll::Ready(_) => false,
        Poll::Pending => true,
    }
}

/// A waker wakes its task also as it is dropped. A poll of nothing lets the task rest again, so
/// that what wakes it afterwards shows.
pub fn rest(task: &MockTask) {
    task.enter(|_| {});
}
