//! What the names of a script stand for.
use super::handles::{Handle, ask, clone};
use super::lasting::{Lasting, begin, poll};
use super::words::{Host, Text};
use futures::test::MockTask;
use std::alloc::Allocator;
use std::collections::BTreeMap;

pub type Handles<R, A> = BTreeMap<Text, Handle<R, A>>;

#[derive(Drop)]
pub struct Stage<'a, R: Host, A: Allocator + Copy> {
    pub handles: Handles<R, A>,
    // Those that futures and streams borrow.
    lent: &'a Handles<R, A>,
    lasting: BTreeMap<Text, Lasting<'a, R, A>>,
    tasks: BTreeMap<Text, MockTask>,
    // What one future of a receive of many at once brings.
    batch: Option<&'a mut Vec<(char, u64)>>,
}

pub fn put<V: Drop>(rt: &impl Host, named: &mut BTreeMap<Text, V>, name: Text, value: V) {
    let before: Result<_, _> = named.insert(name, value);
    if before.is_err() {
        panic!(rt; "memory for {name}");
    }
}

impl<'a, R: Host, A: Allocator + Copy> Stage<'a, R, A> {
    pub fn new(
        rt: &R,
        handles: Handles<R, A>,
        lent: &'a Handles<R, A>,
        batch: Option<&'a mut Vec<(char, u64)>>,
    ) -> Self {
        Stage {
            handles,
            lent,
            lasting: BTreeMap::new(rt.alloc()),
            tasks: BTreeMap::new(rt.alloc()),
            batch,
        }
    }

    // What else it has is dropped.
    pub fn into_handles(self) -> Handles<R, A> {
        self.handles
    }

    fn find(&self, rt: &R, name: Text) -> &Handle<R, A> {
        match self.handles.get(name) {
            Some(handle) => handle,
            None => self.lent.get(name).expect(rt, "a handle of this name"),
        }
    }

    pub fn ask(&self, rt: &R, name: Text, call: &[Text]) -> String {
        ask(rt, self.find(rt, name), call)
    }

    pub fn make(&mut self, rt: &R, name: Text, by: Text, call: &[Text]) {
        match call {
            ["clone"] => {
                let other = clone(rt, self.find(rt, by));
                put(rt, &mut self.handles, name, other);
            }
            ["into_stream"] => match self.handles.remove(by) {
                Some(Handle::Receiver(rx)) => {
                    self.keep(rt, name, Lasting::IntoStream(rx.into_stream()));
                }
                _ => panic!(rt; "no receiver {by}"),
            },
            _ => {
                let lender = self.lent.get(by).expect(rt, "a handle that is lent");
                let lasting = begin(rt, lender, &mut self.batch, call);
                self.keep(rt, name, lasting);
            }
        }
    }

    fn keep(&mut self, rt: &R, name: Text, lasting: Lasting<'a, R, A>) {
        if self.lasting.insert(name, lasting).is_err() {
            panic!(rt; "memory for {name}");
        }
    }

    pub fn poll(&mut self, rt: &R, name: Text, task: Text) -> String {
        let lasting = self
            .lasting
            .get_mut(name)
            .expect(rt, "a future of this name");
        if !self.tasks.contains_key(task) {
            let new = MockTask::new(rt).expect(rt, "a task");
            put(rt, &mut self.tasks, task, new);
        }
        poll(rt, lasting, self.tasks.get(task).expect(rt, "the task"))
    }

    pub fn rest(&self, rt: &R, task: Text) {
        self.tasks.get(task).expect(rt, "a task").enter(|_| {});
    }

    pub fn woken(&self, rt: &R) -> String {
        let mut names = String::new(rt.alloc());
        for (name, task) in self.tasks.iter() {
            if task.is_woken() {
                names.push_str(*name).expect(rt, "memory");
                names.push(' ').expect(rt, "memory");
            }
        }
        let _ = names.pop();
        names
    }

    pub fn drop_named(&mut self, rt: &R, name: Text) {
        let handle = self.handles.remove(name);
        let lasting = self.lasting.remove(name);
        if handle.is_none() && lasting.is_none() {
            panic!(rt; "nothing has the name {name}");
        }
    }
}
