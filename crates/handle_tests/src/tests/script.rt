//! Scripts of calls on one thread. A step is `NAME CALL ARGUMENTS = ANSWER`, and `;` stands between
//! those of one line. The answer is as `{:?}` prints it; a bulk send that is refused tells how many
//! came back. A step without `=` answers nothing, or `Ok(())`.
//!
//! - `channel 2`, a reserved one, has the handles `tx` and `rx`.
//! - `t2 by tx clone` and `own by rx into_stream` name what a call makes.
//! - `drop t2` drops what has that name.
//! - `tx looks = 2 of 1+1 closed`: so many are pending, by so many senders and receivers.
//! - `lend tx rx`, a line of its own: from here on these two make futures and streams, as
//!   `s by tx send x 5` or `r by rx recv`, and are not dropped.
//! - `s poll task = Pending` polls in a task; `woken = task` names each task that was woken since
//!   it was last polled; `rest task` polls nothing in it.
//! - `refuse_nth 2`, `refuse_all` and `refuse_none = true` are for the channel's memory.
//! - `-- what it shows` begins a story, which has no names of those before.
use async_priority_channel::bounded_reserved;
use refusing::Refusing;
use refusing::watch::Watch;
use std::alloc::{Allocator, Global};
use std::collections::BTreeMap;

mod handles;
mod lasting;
mod stage;
mod words;

use handles::Handle;
use stage::{Handles, Stage, put};
pub use words::Host;
use words::{Text, number, told};

/// What a script is played on.
#[derive(Drop)]
struct Ground<'m, R: Host, A: Allocator + Copy> {
    rt: &'m R,
    memory: &'m Refusing<Global>,
    alloc: A,
    title: Text,
    // It stands at the step that is played.
    watch: Watch<Text>,
}

fn open<R: Host, A: Allocator + Copy>(
    ground: &Ground<'_, R, A>,
    stage: &mut Stage<'_, R, A>,
    capacity: u64,
) {
    let rt = ground.rt;
    if capacity == 0 || capacity > 9 {
        panic!(rt; "a channel for {capacity}");
    }
    let (tx, rx) = bounded_reserved(rt, ground.alloc, capacity).expect(rt, "a channel");
    put(rt, &mut stage.handles, "tx", Handle::Sender(tx));
    put(rt, &mut stage.handles, "rx", Handle::Receiver(rx));
}

// What came of the call.
fn play_call<R: Host, A: Allocator + Copy>(
    ground: &Ground<'_, R, A>,
    stage: &mut Stage<'_, R, A>,
    call: &[Text],
) -> String {
    let rt = ground.rt;
    match call {
        ["channel", capacity] => open(ground, stage, number(rt, *capacity)),
        ["drop", name] => stage.drop_named(rt, *name),
        ["woken"] => return stage.woken(rt),
        ["rest", task] => stage.rest(rt, *task),
        ["refuse_nth", nth] => ground.memory.refuse_nth(number(rt, *nth)),
        ["refuse_all"] => ground.memory.refuse_all(),
        ["refuse_none"] => return told(rt, ground.memory.refuse_none()),
        [name, "by", maker, call @ ..] => stage.make(rt, *name, *maker, call),
        [name, "poll", task] => return stage.poll(rt, *name, *task),
        [name, call @ ..] => return stage.ask(rt, *name, call),
        [] => {}
    }
    String::new(rt.alloc())
}

fn play<R: Host, A: Allocator + Copy>(
    ground: &Ground<'_, R, A>,
    stage: &mut Stage<'_, R, A>,
    script: Text,
) {
    for line in script.lines() {
        for step in line.split(';') {
            play_step(ground, stage, step);
        }
    }
}

fn play_step<R: Host, A: Allocator + Copy>(
    ground: &Ground<'_, R, A>,
    stage: &mut Stage<'_, R, A>,
    step: Text,
) {
    let rt = ground.rt;
    ground.watch.begin(rt, step);
    let (call, wanted) = step.split_once('=').unwrap_or((step, ""));
    let call: Vec<Text> = call
        .split_whitespace()
        .collect(rt.alloc())
        .expect(rt, "memory");
    let told = play_call(ground, stage, call.as_slice());
    let is_done = told.as_str() == "Ok(())" && !step.contains('=');
    if told.as_str() != wanted.trim() && !is_done {
        panic!(rt; "{}: {step}: it answered {told}", ground.title);
    }
}

fn play_story<R: Host, A: Allocator + Copy>(ground: &Ground<'_, R, A>, story: Text) {
    let rt = ground.rt;
    let (script, lending) = story.split_once("lend ").unwrap_or((story, ""));
    let nothing = BTreeMap::new(rt.alloc());
    let handles = BTreeMap::new(rt.alloc());
    let mut stage = Stage::new(rt, handles, &nothing, None);
    play(ground, &mut stage, script);
    play_lending(ground, stage.into_handles(), lending);
}

// Plays what stands behind the names of the first line.
fn play_lending<R: Host, A: Allocator + Copy>(
    ground: &Ground<'_, R, A>,
    mut handles: Handles<R, A>,
    lending: Text,
) {
    let rt = ground.rt;
    let (names, script) = lending.split_once('\n').unwrap_or((lending, ""));
    let mut lent = BTreeMap::new(rt.alloc());
    for name in names.split_whitespace() {
        let handle = handles.remove(name).expect(rt, "a handle to lend");
        put(rt, &mut lent, name, handle);
    }
    let mut batch = Vec::new(rt.alloc());
    let mut stage = Stage::new(rt, handles, &lent, Some(&mut batch));
    play(ground, &mut stage, script);
}

// A step that hangs fails soon, and is named.
fn watch_story<R: Host, A: Allocator + Copy>(ground: &Ground<'_, R, A>, steps: Text) {
    let (rt, title) = (ground.rt, ground.title);
    let fail = |step: &Text| panic!(rt; "{title}: it hangs at {step}");
    ground.watch.over(rt, fail, || play_story(ground, steps));
}

/// Plays a script, and ends with a failure at the first step whose answer is another, or that does
/// not end.
pub fn run<R: Host>(rt: &R, script: Text) {
    for story in script.split("--") {
        let memory = Refusing::new(rt.alloc());
        let (title, steps) = story.split_once('\n').unwrap_or((story, ""));
        let ground = Ground {
            rt,
            memory: &memory,
            alloc: &memory,
            title,
            watch: Watch::brief(title),
        };
        watch_story(&ground, steps);
    }
}
