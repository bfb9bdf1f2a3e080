//! What errors print, what they tell, and which of them are equal.
use super::{expect_equal, expect_equal_at};
use async_priority_channel::{
    RecvError, RecvFault, SendError, SendFault, TryRecvError, TrySendError,
};
use std::alloc::AllocGlobal;
use std::error::Error;
use std::fmt::Debug;
use std::process::Abort;

// A message that can be neither printed nor compared.
#[derive(Drop)]
struct Opaque;

const SEND_FULL: &str = "sending into a full channel";

const SEND_CLOSED: &str = "sending into a closed channel";

const SEND_MEMORY: &str = "no memory for sending";

const RECV_EMPTY: &str = "receiving from an empty channel";

const RECV_CLOSED: &str = "receiving from an empty and closed channel";

const WAIT_MEMORY: &str = "no memory for waiting";

// What `{}` prints.
fn expect_text<R: Abort + AllocGlobal>(rt: &R, error: impl Error, wanted: &str) {
    let printed = format!(in rt.alloc(); "{error}").expect(rt, "memory");
    expect_equal(rt, printed.as_str(), wanted);
}

// What `{:?}` prints.
fn expect_debug<R: Abort + AllocGlobal>(rt: &R, error: impl Error, wanted: &str) {
    let printed = format!(in rt.alloc(); "{error:?}").expect(rt, "memory");
    expect_equal(rt, printed.as_str(), wanted);
}

#[test]
fn texts_of_the_errors(rt: HostRuntime) {
    expect_text(&rt, TryRecvError::Empty, RECV_EMPTY);
    expect_text(&rt, TryRecvError::Closed, RECV_CLOSED);
    expect_text(&rt, TrySendError::Full(1), SEND_FULL);
    expect_text(&rt, SendError(1), SEND_CLOSED);
    expect_text(&rt, RecvError, RECV_CLOSED);
    expect_text(&rt, SendError(Opaque), SEND_CLOSED);
    expect_text(&rt, TrySendError::Full(Opaque), SEND_FULL);
    expect_text(&rt, TrySendError::Closed(Opaque), SEND_CLOSED);
    expect_text(&rt, RecvFault::Closed(RecvError), RECV_CLOSED);
}

#[test]
fn texts_of_the_refusals_for_memory(rt: HostRuntime) {
    let closed = SendFault::Closed(SendError(1));
    expect_text(&rt, TrySendError::Memory(1), SEND_MEMORY);
    expect_text(&rt, SendFault::Memory(1), SEND_MEMORY);
    expect_text(&rt, closed, SEND_CLOSED);
    expect_text(&rt, RecvFault::Memory, WAIT_MEMORY);
    let closed = SendFault::Closed(SendError(Opaque));
    expect_text(&rt, TrySendError::Memory(Opaque), SEND_MEMORY);
    expect_text(&rt, SendFault::Memory(Opaque), SEND_MEMORY);
    expect_text(&rt, closed, SEND_CLOSED);
}

#[test]
fn debug_texts_of_the_errors(rt: HostRuntime) {
    expect_debug(&rt, SendError(1), "SendError(..)");
    expect_debug(&rt, TrySendError::Full(1), "Full(..)");
    expect_debug(&rt, TrySendError::Closed(1), "Closed(..)");
    expect_debug(&rt, TrySendError::Memory(1), "Memory(..)");
    expect_equal(&rt, TrySendError::Memory(1).is_full(), false);
    expect_equal(&rt, TrySendError::Memory(1).is_closed(), false);
    expect_debug(&rt, SendError(Opaque), "SendError(..)");
    expect_debug(&rt, TrySendError::Full(Opaque), "Full(..)");
    expect_debug(&rt, TrySendError::Closed(Opaque), "Closed(..)");
    expect_debug(&rt, TrySendError::Memory(Opaque), "Memory(..)");
    let closed = SendFault::Closed(SendError(Opaque));
    expect_debug(&rt, closed, "Closed(..)");
    expect_debug(&rt, SendFault::Memory(Opaque), "Memory(..)");
}

#[test]
fn debug_texts_that_are_derived(rt: HostRuntime) {
    expect_debug(&rt, RecvError, "RecvError");
    expect_debug(&rt, TryRecvError::Empty, "Empty");
    expect_debug(&rt, TryRecvError::Closed, "Closed");
}

const TRY_SEND_ERRORS: [(TrySendError<u64>, bool, bool); 3] = [
    (TrySendError::Full(1), true, false),
    (TrySendError::Closed(1), false, true),
    (TrySendError::Memory(1), false, false),
];

const TRY_RECV_ERRORS: [(TryRecvError, bool, bool); 2] = [
    (TryRecvError::Empty, true, false),
    (TryRecvError::Closed, false, true),
];

#[test]
fn errors_tell_their_variant(rt: HostRuntime) {
    for (error, is_full, is_closed) in &TRY_SEND_ERRORS {
        let told = (error.is_full(), error.is_closed());
        expect_equal_at(&rt, *error, told, (*is_full, *is_closed));
    }
    for (error, is_empty, is_closed) in &TRY_RECV_ERRORS {
        let told = (error.is_empty(), error.is_closed());
        expect_equal_at(&rt, *error, told, (*is_empty, *is_closed));
    }
}

// Each is equal to itself and its clone, and to no other of the list.
fn expect_all_differ<X: PartialEq + Clone + Debug + Drop>(rt: &impl Abort, errors: &[X]) {
    for (one, error) in errors.iter().enumerate() {
        expect_equal_at(rt, one, error.clone().expect(rt, "a clone") == *error, true);
        for (other, another) in errors.iter().enumerate() {
            expect_equal_at(rt, (one, other), *error == *another, one == other);
        }
    }
}

const CLOSED_SENDS: [SendError<u64>; 2] = [SendError(1), SendError(2)];

const TRIED_SENDS: [TrySendError<u64>; 6] = [
    TrySendError::Full(1),
    TrySendError::Full(2),
    TrySendError::Closed(1),
    TrySendError::Closed(2),
    TrySendError::Memory(1),
    TrySendError::Memory(2),
];

const WAITED_SENDS: [SendFault<u64>; 4] = [
    SendFault::Memory(1),
    SendFault::Memory(2),
    SendFault::Closed(SendError(1)),
    SendFault::Closed(SendError(2)),
];

#[test]
fn errors_are_equal_where_variant_and_content_are(rt: HostRuntime) {
    expect_all_differ(&rt, &CLOSED_SENDS);
    expect_all_differ(&rt, &TRIED_SENDS);
    expect_all_differ(&rt, &WAITED_SENDS);
    expect_all_differ(&rt, &[RecvError]);
    expect_all_differ(&rt, &[TryRecvError::Empty, TryRecvError::Closed]);
    expect_all_differ(&rt, &[RecvFault::Closed(RecvError), RecvFault::Memory]);
}
