//! Scripts of calls, and the player that makes them on the core or on handles.
//!
//! `# its title` begins an example, which has a channel of its own. There each line is a call, and
//! behind ` = ` stands its answer. A line without it answers nothing, as `bounded 2` does, which
//! makes a channel.
//!
//! - `(Foo,0)` is the message `Foo` of priority 0. `100 times (a,0)` is as many of it, and a line
//!   that begins with `20 times` makes its call as often.
//! - `tx len` asks a sender, and `rx len` a receiver. On the core `len` is enough.
//! - `tx is_printed`: whether `{:?}` prints anything of it.
//! - `send` and `recv` are `try_send` and `try_recv`, or futures that are waited for.
//! - `poll_once_and_drop send (y,2)` polls such a future once.
//! - `try_sendv the rest` sends the very iterator that came back.
//! - `poll_recv Some(0) w2` polls the core, with ticket 0 and the number 2 as waker.
//! - `A is send (2,2)` is the state of such a future, and `A poll w1` polls it on the core. What is
//!   pending shows its ticket; a state that is done has none.
//! - `Ok, handed (0,w2)`: the call handed out ticket 0 with waker 2. Behind those who waited for
//!   room stands `from the room side`. Where nothing is said nobody is handed out.
//! - `refuse_next`, `refuse_all` and `refuse_none` are for the channel's requests for memory.
use super::{Host, expect_true};
use refusing::Refusing;
use std::alloc::{Allocator, Global};
use std::sync::Wait;

mod answers;
mod asking;
mod ledger;
mod on_core;
mod on_handles;
mod states;
mod words;

use answers::text;
pub use answers::told;
use asking::Asking;
use on_core::CoreStage;
use on_handles::{HandleStage, Way};
use words::{Message, Text, split, times};

/// What a script is played on.
#[derive(Clone, Copy)]
pub enum Ground {
    Core,
    Handles,
    /// Handles, by futures wherever the script says `send` and `recv`.
    Futures,
}

#[derive(Drop)]
enum Stage<T: Message, W: Wait + Clone + Drop, A: Allocator + Copy> {
    Core(CoreStage<T, A>),
    Handles(HandleStage<T, W, A>),
}

impl<T: Message, W: Wait + Clone + Drop, A: Allocator + Copy> Stage<T, W, A> {
    fn new<R: Host>(rt: &R, (permission, alloc): (W, A), ground: Ground) -> Self {
        let way = match ground {
            Ground::Core => return Stage::Core(CoreStage::new(rt, alloc)),
            Ground::Handles => Way::AtOnce,
            Ground::Futures => Way::AsFuture,
        };
        Stage::Handles(HandleStage::new(rt, permission, alloc, way))
    }

    // What comes of one call.
    fn make<R: Host>(&mut self, rt: &R, memory: &Refusing<Global>, call: &[Text]) -> String {
        match call {
            ["refuse_next"] => memory.refuse_nth(1),
            ["refuse_all"] => memory.refuse_all(),
            ["refuse_none"] => {
                memory.refuse_none();
            }
            _ => {
                return match self {
                    Stage::Core(stage) => stage.make(rt, call),
                    Stage::Handles(stage) => stage.make(rt, call),
                };
            }
        }
        text(rt, "")
    }

    // Makes the calls of a line, and tells the first answer that is not as it says.
    fn find_other<R: Host>(
        &mut self,
        rt: &R,
        memory: &Refusing<Global>,
        line: Text,
    ) -> Option<String> {
        let (call, wanted) = line.split_once(" = ").unwrap_or((line, ""));
        let words = split(rt, call);
        let (count, call) = times(rt, words.as_slice());
        for _ in 0..count {
            let got = self.make(rt, memory, call);
            if !is_wanted(got.as_str(), wanted.trim()) {
                return Some(got);
            }
        }
        None
    }

    // Ends at the first call that is refused memory, where that may be, and tells whether there
    // was one.
    fn play<R: Host>(
        &mut self,
        rt: &R,
        memory: &Refusing<Global>,
        (title, calls): (Text, Text),
        is_scarce: bool,
    ) -> bool {
        for line in calls.lines() {
            if let Some(got) = self.find_other(rt, memory, line) {
                let is_refusal = got.as_str() == "AllocError" || got.contains("Memory");
                assert!(rt;
                    is_scarce && is_refusal,
                    "{title}: {line}: it answered {got}"
                );
                return true;
            }
        }
        false
    }

    // What was accepted is received, and what was not has come back.
    fn settle<R: Host>(&mut self, rt: &R) {
        match self {
            Stage::Core(stage) => stage.settle(rt),
            Stage::Handles(stage) => stage.settle(rt),
        }
    }
}

fn is_wanted(got: &str, wanted: &str) -> bool {
    got == wanted.strip_suffix(", handed nobody").unwrap_or(wanted)
}

/// Plays each example of a script, and fails at the first call that answers otherwise.
pub fn play<R: Host>(rt: &R, ground: Ground, script: Text) {
    for example in script.split("# ") {
        let example = example.split_once('\n').unwrap_or((example, ""));
        let memory = Refusing::new(rt.alloc());
        let permission = Asking { rt, alloc: &memory };
        play_example::<_, Text, _, _>(rt, &memory, (permission, &memory), ground, example);
    }
}

fn play_example<R: Host, T: Message, W: Wait + Clone + Drop, A: Allocator + Copy>(
    rt: &R,
    memory: &Refusing<Global>,
    handles_of: (W, A),
    ground: Ground,
    example: (Text, Text),
) {
    Stage::<T, W, A>::new(rt, handles_of, ground).play(rt, memory, example, false);
}

/// Plays one example again and again, each time with another request for memory refused, until none
/// is met. A call answers as the script says until the refusal, which it tells. Then the example
/// ends, and each pair has come out or back.
pub fn play_refused<R: Host>(rt: &R, ground: Ground, script: Text, title: Text) {
    let (_, behind) = script.split_once(title).expect(rt, title);
    let (calls, _) = behind.split_once("# ").unwrap_or((behind, ""));
    let memory = Refusing::new(rt.alloc());
    for round in memory.rounds() {
        let n = round.expect(rt, "a request");
        let permission = Asking { rt, alloc: &memory };
        play_refusal::<_, Text, _, _>(
            rt,
            &memory,
            (permission, &memory),
            ground,
            (title, calls),
            n,
        );
    }
}

// Plays an example of which the nth request for memory is refused.
fn play_refusal<R: Host, T: Message, W: Wait + Clone + Drop, A: Allocator + Copy>(
    rt: &R,
    memory: &Refusing<Global>,
    handles_of: (W, A),
    ground: Ground,
    example: (Text, Text),
    n: u64,
) {
    let mut stage = Stage::<T, W, A>::new(rt, handles_of, ground);
    memory.refuse_nth(n);
    let was_refused = stage.play(rt, memory, example, true);
    let met_none = memory.refuse_none();
    expect_true(rt, was_refused != met_none, example.0);
    stage.settle(rt);
}
