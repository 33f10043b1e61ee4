// Scripts that loops make, with the replies to them.
ghost use Rattle.std.specs.Prelude.{◌≡◌, false, IfOk};

use crate::tests::{Left, ran_quietly};
use std::alloc::Global;
use std::test::Fail;

/// A script, and the replies to it.
#[derive(Drop)]
pub(crate) struct Made {
    script: String,
    replies: String,
}

impl Made {
    /// Neither a command nor a reply.
    pub(crate) fn new(alloc: Global) -> Self {
        Made {
            script: String::new(alloc),
            replies: String::new(alloc),
        }
    }

    /// Adds a part of a script, and one of the replies.
    pub(crate) fn add(&mut self, script: &str, replies: &str) -> Result<(), Fail> {
        self.script.push_str(script)?;
        self.replies.push_str(replies)?;
        Ok(())
    }

    /// The same so many times.
    pub(crate) fn add_times(
        &mut self,
        script: &str,
        replies: &str,
        times: u32,
    ) -> Result<(), Fail> {
        for _ in 0..times {
            self.add(script, replies)?;
        }
        Ok(())
    }

    /// Adds so many commands, of which each has a number between two parts, from `first` on, and one reply.
    pub(crate) fn add_numbered(
        &mut self,
        alloc: Global,
        parts: (&str, &str),
        first: u64,
        count: u64,
        reply: &str,
    ) -> Result<(), Fail> {
        let (front, back) = parts;
        for place in 0..count {
            let number = first.saturating_add(place);
            let command = format!(in alloc; "{front}{number}{back}")?;
            self.add(command.as_str(), reply)?;
        }
        Ok(())
    }

    /// Adds so many users, each with a number as name, from 1 on.
    pub(crate) fn add_users(&mut self, alloc: Global, count: u64) -> Result<(), Fail> {
        self.add_numbered(alloc, ("create user '", "';\n"), 1, count, "ok\n")
    }

    /// Adds a path of so many users, of whom two take turns.
    pub(crate) fn add_path(&mut self, users: usize) -> Result<(), Fail> {
        for user in 0..users {
            let believer = if user % 2 == 0 {
                "BELIEF 'Alice' "
            } else {
                "BELIEF 'Bob' "
            };
            self.script.push_str(believer)?;
        }
        Ok(())
    }

    /// Adds a command with a path of so many users between two parts, and the replies to it.
    pub(crate) fn add_with_path(
        &mut self,
        parts: (&str, &str),
        users: usize,
        replies: &str,
    ) -> Result<(), Fail> {
        let (front, back) = parts;
        self.script.push_str(front)?;
        self.add_path(users)?;
        self.add(back, replies)
    }

    /// What the script leaves over a keeper without rows.
    pub(crate) fn ran(&self, alloc: Global) -> Result<Left, Fail>
        ensures idle { IfOk result (λ left. left.keeper.seen.running ≡ false) }
    {
        ran_quietly(alloc, &[self.script.as_str()])
    }

    /// Whether the script ends so, and is told the replies.
    pub(crate) fn is_told(&self, alloc: Global, status: u8) -> Result<bool, Fail> {
        Ok(self.ran(alloc)?.is_told(self.replies.as_str(), status))
    }

    /// Whether the script ends so, and is told the replies first and this at the end.
    pub(crate) fn is_told_first(&self, alloc: Global, end: &str, status: u8) -> Result<bool, Fail> {
        let left = self.ran(alloc)?;
        let bytes = left.out.bytes();
        Ok(
            left.status == status
                && bytes.starts_with(self.replies.as_bytes())
                && bytes.ends_with(end.as_bytes()),
        )
    }
}
