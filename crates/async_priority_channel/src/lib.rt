//! A priority channel for many senders and receivers, on threads and in tasks. The pending message
//! of greatest priority (the most urgent one) is received first, and among equal priorities the one
//! that was accepted first.
//!
//! `bounded`, `bounded_reserved` and `unbounded` make a channel. `Sender` and `Receiver` are its
//! handles; `WeakSender` and `WeakReceiver` are handles that do not keep it open. `recorded` has
//! channels that keep a history of all calls, and whose contracts name it. The library
//! `priority_channel_witnessed` has channels whose history exists in contracts alone.
//! `docs/REFERENCE.md` lists all calls.
//!
//! # Kinds of channels
//!
//! `bounded` makes a channel with a limit on the number of pending messages, which is at least one.
//! While the channel is full, a send waits or is refused. `unbounded` has no limit but memory.
//! `bounded_reserved` reserves the memory for all of its messages when it is made. Each constructor
//! is given the permission to wait, which `main` has in `rt`, and an allocator.
//!
//! # Order
//!
//! A receive returns the message of greatest priority, and among equals the one that was accepted
//! first. The order is that of the priority's type, which may be any type that is `Ord`. Nothing
//! ages: a message waits as long as others of greater priority are pending.
//!
//! ```
//! let (tx, rx) = unbounded(&rt, rt.alloc())?;
//! let jobs = [("tidy up", 1), ("put out the fire", 9)];
//! tx.try_sendv(jobs.into_iter().peekable())?;
//! tx.try_send("call for help", 9)?;
//! assert_eq!(rt; rx.try_recv(), Ok(("put out the fire", 9)));
//! assert_eq!(rt; rx.try_recv(), Ok(("call for help", 9)));
//! assert_eq!(rt; rx.try_recv(), Ok(("tidy up", 1)));
//! ```
//!
//! `Reverse` reverses an order: the message that is due first is received first.
//!
//! ```
//! let (tx, rx) = unbounded(&rt, rt.alloc())?;
//! tx.try_send("lunch", Reverse(12))?;
//! tx.try_send("breakfast", Reverse(7))?;
//! assert_eq!(rt; rx.try_recv(), Ok(("breakfast", Reverse(7))));
//! ```
//!
//! # Sharing
//!
//! A handle can be cloned, lent, and moved to other threads. Each message goes to one receiver. A
//! clone can be refused for lack of memory, so it is a `Result`.
//!
//! ```
//! let (tx, rx) = bounded(&rt, rt.alloc(), 10)?;
//! let other = tx.clone()?;
//! let working = thread::spawn(&rt, move || rx.iter().count())?;
//! let sending = thread::spawn(&rt, move || other.send_blocking(3, 0))?;
//! tx.send_blocking(4, 2)?;
//! assert_eq!(rt; sending.join(&rt), Ok(()));
//! drop(tx);
//! assert_eq!(rt; working.join(&rt), 2);
//! ```
//!
//! A function over a handle is generic in the permission to wait. For the calls that have no time
//! limit and make no task it needs only `Wait` and `Clone`.
//!
//! ```
//! fn send_all<R: Wait + Clone>(tx: &Sender<u64, u64, R>, numbers: &[u64]) -> bool {
//!     numbers
//!         .iter()
//!         .all(|number| tx.send_blocking(*number, 0).is_ok())
//! }
//! ```
//!
//! # Closing
//!
//! A channel is closed by `close`, or when its last sender or its last receiver is dropped, and
//! stays closed. It accepts nothing more. Pending messages can still be received; `Closed` is
//! returned once none is left and no place is held.
//!
//! ```
//! let (tx, rx) = unbounded(&rt, rt.alloc())?;
//! tx.try_send("Foo", 0)?;
//! drop(tx);
//! assert!(rt; rx.is_closed());
//! assert_eq!(rt; rx.try_recv(), Ok(("Foo", 0)));
//! assert_eq!(rt; rx.try_recv(), Err(TryRecvError::Closed));
//! ```
//!
//! A task that awaits `closed`, or a thread in `closed_blocking` or `closed_timeout`, goes on as
//! soon as the channel is closed. So a producer stops when nobody listens any more, also while it
//! has nothing to send.
//!
//! A weak handle, which `downgrade` makes, does not keep the channel open. The guard that
//! `close_on_drop` makes closes its channel however a scope is left, so that no sender or receiver
//! waits for one that has failed.
//!
//! # Held places
//!
//! `try_lease` and its variants receive a message and keep its place held until it is finished. A
//! `Lease` that is dropped puts its message back, so a worker that leaves by a `?` loses no job,
//! and the bound counts what is pending and what is in hand. `for lease in rx.leases()` is the loop
//! of such a worker. `try_reserve` and its variants hold a place for a message still to come: a
//! `Permit`, whose `send` is never refused.
//!
//! A channel for which `close_when_done` was called closes once nothing is pending and no place is
//! held. So a pool ends whose workers also send.
//!
//! ```
//! let (tx, rx) = unbounded(&rt, rt.alloc())?;
//! tx.try_send(3, ())?;
//! tx.close_when_done();
//! for lease in rx.leases() {
//!     if *lease.message() > 0 {
//!         tx.try_send(*lease.message() - 1, ())?;
//!     }
//!     done.push(lease.finish().0)?;
//! }
//! assert_eq!(rt; done.as_slice(), [3, 2, 1, 0].as_slice());
//! ```
//!
//! # Blocking and not
//!
//! A call that begins with `try_` returns at once. One that ends in `_blocking` waits on its
//! thread, which sleeps meanwhile; an executor that runs there is blocked. The error of a send
//! holds what was not sent.
//!
//! # Time limits
//!
//! A call that ends in `_timeout` waits no longer than a given time, and one that ends in
//! `_deadline` no longer than until a given instant. `Timeout` is returned only once the time is
//! over, or if the clock cannot be read. Either the message was sent, or it comes back.
//!
//! ```
//! let (tx, rx) = bounded(&rt, rt.alloc(), 1)?;
//! let limit = Duration::from_millis(5);
//! assert_eq!(rt; rx.recv_timeout(limit), Err(RecvTimeoutError::Timeout));
//! tx.send_timeout("Foo", 0, limit)?;
//! if let Err(late) = tx.send_timeout("Bar", 2, limit) {
//!     assert_eq!(rt; late.into_inner(), ("Bar", 2));
//! }
//! ```
//!
//! # Conditions
//!
//! `try_recv_where` receives the most urgent message that passes a test, and `recv_where` and its
//! variants wait for one. `recv_when_blocking` and its variants receive the first message, once it
//! is due: with `Reverse(instant)` as its priority, a channel delays its messages. `lease_where`
//! and `lease_when_blocking` do the same and keep the place held. What waits until an instant is
//! no future, since a timer is the executor's. `fold_pending` looks at all that is pending.
//!
//! ```
//! let (tx, rx) = unbounded(&rt, rt.alloc())?;
//! let free = 4;
//! for (job, memory, urgency) in [("compile", 8, 2), ("test", 1, 1)] {
//!     tx.try_send((job, memory), urgency)?;
//! }
//! let (job, _) = rx.recv_where_blocking(|(_, memory), _| *memory <= free)?;
//! assert_eq!(rt; job, ("test", 1));
//! ```
//!
//! # Iterating
//!
//! A loop over `&rx` waits for each message, and ends when the channel is closed and empty. One
//! over `rx.try_iter()` ends when nothing is pending. A proof sees that such a loop ends. It does
//! not see this of `while let Ok(pair) = rx.recv_blocking()`.
//!
//! ```
//! let (tx, rx) = bounded(&rt, rt.alloc(), 1)?;
//! let sending = thread::spawn(&rt, move || tx.send_blocking("Foo", 0))?;
//! for (job, priority) in &rx {
//!     done.push((job, priority))?;
//! }
//! ```
//!
//! `sendv` and its variants send many messages, in each step as many as there is room for.
//! `recv_many` and its variants receive up to a limit.
//!
//! # Futures
//!
//! In a task, `send`, `sendv`, `recv`, `recv_many`, `reserve` and `lease` are futures, and `stream`
//! and `into_stream` are streams, of the kit's `futures`. They do nothing until they are polled.
//! One that is dropped before it has answered receives nothing, and sends no more: what it has not
//! sent is dropped with it. Threads and tasks may wait in one channel.
//!
//! ```
//! let (tx, rx) = bounded(&rt, rt.alloc(), 1)?;
//! let (received, sent) = block_on(&rt, join(rx.recv(), tx.send("Foo", 0)))?;
//! assert_eq!(rt; (received, sent), (Ok(("Foo", 0)), Ok(())));
//! drop(tx);
//! assert_eq!(rt; block_on(&rt, rx.stream().next())?, None);
//! ```
//!
//! A task that waits for two channels goes on with the first that has a message.
//!
//! ```
//! let (tx, jobs) = unbounded(&rt, rt.alloc())?;
//! let (_stop, stops) = unbounded::<(), (), _, _>(&rt, rt.alloc())?;
//! tx.try_send("Foo", 0)?;
//! let has_come = match block_on(&rt, select(jobs.recv(), stops.recv()))? {
//!     Either::Left((job, _)) => job == Ok(("Foo", 0)),
//!     Either::Right(_) => false,
//! };
//! ```
//!
//! # Memory
//!
//! A channel asks its allocator for memory as messages come and as tasks and threads wait. If
//! memory is refused, nothing is lost: the call returns `Memory`, and gives back what was to be
//! sent. A loop over `&rx` does not fail but tries again, and a stream asks to be polled again. A
//! channel of `bounded_reserved` does not return `Memory` to `try_send` and `try_sendv` before the
//! accepted messages and the held places come to 2^64 - 1.
//!
//! ```
//! let (tx, rx) = bounded_reserved(&rt, rt.alloc(), 100)?;
//! let sent = tx.try_send("Foo", 0);
//! assert!(rt; !sent.is_err_and(|error| error.is_memory()));
//! ```
//!
//! Pending messages stay in memory as long as there is a handle of the channel, also a weak one.
//! Once a guard of a receiver was dropped, they are dropped with the last receiver.
//!
//! # What is proved
//!
//! Every function is safe, and no number overflows. Each reply of the channel's core,
//! `priority_channel_core`, and the state after it, is one step of a state machine. From this
//! follows that no message is lost, made up or received twice, in which order messages come, and
//! that no waiter in the core's lists is forgotten. The handles add a lock and wakes, which are
//! tested where contracts do not reach. It is proved that a refused send gives back the caller's
//! own message:
//!
//! ```
//! fn offer<R: Wait + Clone>(tx: &Sender<u64, u64, R>, number: u64) -> Option<u64>
//!     ensures { IfSome result (λ unsent. unsent ≡ number) }
//! {
//!     match tx.try_send(number, 0) {
//!         Ok(()) => None,
//!         Err(refusal) => Some(refusal.into_inner().0),
//!     }
//! }
//! ```
#![tactic(auto)]

mod blocking;
mod channel;
mod close_on_drop;
mod closed;
mod end;
mod handle;
mod identity;
mod iter;
pub mod laws;
mod lease;
mod leasing;
mod lock;
mod many;
mod parked;
mod peek;
mod permit;
mod receiver;
mod selecting;
mod sender;
mod stream;
mod taking;
pub mod waiting;
mod weak;

pub use channel::{Ends, bounded, bounded_reserved, unbounded};
pub use close_on_drop::CloseOnDrop;
pub use end::{End, Role};
pub use iter::{IntoIter, Iter, TryIter};
pub use lease::{Lease, Leases};
pub use many::RecvMany;
pub use permit::Permit;
pub use priority_channel_core::errors::{
    RecvError, RecvFault, SendError, SendFault, TryRecvError, TryRecvManyError, TrySendError,
};
pub use priority_channel_recorded as recorded;
pub use priority_channel_waiting::seeking::Due;
pub use priority_channel_waiting::timeouts::{RecvTimeoutError, SendTimeoutError};
pub use receiver::{Receiver, Receiving};
pub use sender::{Sender, Sending};
pub use stream::{IntoStream, RecvStream};
pub use waiting::{Closed, LeaseNext, LeaseNextWhere, Recv, RecvWhere, Reserve, Send, Sendv};
pub use weak::{Weak, WeakReceiver, WeakSender};
