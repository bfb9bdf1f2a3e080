//! The targets, which of them depends on which, and how far their build is.
use anyhow::{Context, bail};
use std::alloc::{AllocError, Global};
use std::collections::BTreeMap;
use std::fmt;

/// What a worker has to know of a target.
#[derive(Clone, Copy, Drop)]
pub struct Job {
    pub id: usize,
    /// In milliseconds.
    pub cost: u64,
    pub fails: bool,
}

#[derive(Drop)]
pub struct Target {
    name: String,
    line: usize,
    job: Job,
    needs: Vec<usize>,
    // How many of these are not built.
    missing: usize,
    // How long the longest path from its start to an end takes.
    path: u64,
    pub is_built: bool,
}

#[derive(Drop)]
pub struct Graph {
    pub targets: Vec<Target>,
    // Of each target, those that need it.
    users: Vec<Vec<usize>>,
}

impl Graph {
    /// Reads `NAME COST NEED ..` from each line that is not empty and no comment, which begins with
    /// `#`. A `!` after the cost has the build fail. The error names the line that is wrong.
    pub fn parse(alloc: Global, text: &str) -> anyhow::Result<Self> {
        let (mut targets, mut users) = (Vec::new(alloc), Vec::new(alloc));
        let mut ids = BTreeMap::new(alloc);
        let mut needs = Vec::new(alloc);
        for (index, text) in text.lines().enumerate() {
            let line = index.saturating_add(1);
            let mut words = text.split_whitespace();
            let name = words.next().filter(|word| !word.starts_with('#'));
            let Some(name) = name else { continue };
            let cost = words.next().unwrap_or("");
            let fails = cost.ends_with('!');
            let cost = cost.strip_suffix('!').unwrap_or(cost).parse();
            let cost = cost.context(format_args!("line {line}: {name} has no cost"))?;
            let id = targets.len();
            if ids.insert(name, id)?.is_some() {
                bail!("line {line}: {name} is a target already");
            }
            needs.push(words)?;
            users.push(Vec::new(alloc))?;
            targets.push(Target {
                name: String::from_str(alloc, name)?,
                line,
                job: Job { id, cost, fails },
                needs: Vec::new(alloc),
                missing: 0,
                path: 0,
                is_built: false,
            })?;
        }
        for (target, words) in targets.iter_mut().zip(needs) {
            for word in words {
                let Some(need) = ids.get(word) else {
                    bail!("line {}: {word} is no target", target.line);
                };
                target.needs.push(*need)?;
                if let Some(users) = users.get_mut(*need) {
                    users.push(target.job.id)?;
                }
            }
            target.missing = target.needs.len();
        }
        Graph { targets, users }.with_paths(alloc)
    }

    // Plays a build in which none fails: its order has each target after its needs. What is never
    // built needs another that is never built, and so on, round a cycle.
    fn with_paths(mut self, alloc: Global) -> anyhow::Result<Self> {
        let count = self.targets.len();
        let mut order = self.first_jobs(alloc)?;
        for place in 0..count {
            if let Some((job, _)) = order.get(place).copied() {
                order.extend(self.finish(alloc, job.id)?)?;
            }
        }
        if let Some(target) = self.targets.iter().find(|it| !it.is_built) {
            let target = (0..count).fold(target, |it, _| self.obstacle(it).unwrap_or(it));
            bail!("line {}: {} depends on itself", target.line, target.name);
        }
        for (Job { id, cost, .. }, _) in order.into_iter().rev() {
            let users = self.users.get(id).into_iter().flatten();
            let paths = users.filter_map(|user| Some(self.targets.get(*user)?.path));
            let longest = paths.max().unwrap_or(0);
            if let Some(target) = self.targets.get_mut(id) {
                target.path = cost.saturating_add(longest);
                // From here on nothing is built.
                target.missing = target.needs.len();
                target.is_built = false;
            }
        }
        Ok(self)
    }

    // The first of its needs that is not built.
    fn obstacle(&self, target: &Target) -> Option<&Target> {
        let mut needs = target.needs.iter().filter_map(|id| self.targets.get(*id));
        needs.find(|need| !need.is_built)
    }

    /// The jobs that need nothing, each with its priority.
    pub fn first_jobs(&self, alloc: Global) -> Result<Vec<(Job, u64)>, AllocError> {
        let free = self.targets.iter().filter(|it| it.needs.is_empty());
        free.map(|it| (it.job, it.path)).collect(alloc)
    }

    /// The target is built: gives the jobs that wait for nothing any more. Else nothing changes.
    pub fn finish(&mut self, alloc: Global, id: usize) -> Result<Vec<(Job, u64)>, AllocError> {
        let users = self.users.get(id).map_or(&[][..], |users| users.as_slice());
        let mut ready = Vec::with_capacity(alloc, users.len())?;
        for user in users {
            if let Some(user) = self.targets.get_mut(*user) {
                user.missing = user.missing.saturating_sub(1);
                if user.missing == 0 {
                    ready.push((user.job, user.path))?;
                }
            }
        }
        if let Some(target) = self.targets.get_mut(id) {
            target.is_built = true;
        }
        Ok(ready)
    }
}

/// What came of a build: of each target that was not built, then the longest path, and the counts.
impl fmt::Display for Graph {
    fn fmt<W: fmt::Write>(&self, f: &mut fmt::Formatter<W>) -> fmt::Result {
        for target in self.targets.iter().filter(|it| !it.is_built) {
            match self.obstacle(target) {
                Some(need) => writeln!(f, "{}: stopped, {} was not built", target.name, need.name)?,
                None => writeln!(f, "{}: failed", target.name)?,
            }
        }
        let longest = self.targets.iter().map(|target| target.path).max();
        writeln!(f, "the longest path takes {} ms", longest.unwrap_or(0))?;
        let built = self.targets.iter().filter(|it| it.is_built).count();
        let stopped = self.targets.iter().filter(|it| self.obstacle(it).is_some());
        let stopped = stopped.count();
        let ended = built.saturating_add(stopped);
        let failed = self.targets.len().saturating_sub(ended);
        writeln!(f, "{built} built, {failed} failed, {stopped} stopped")
    }
}
