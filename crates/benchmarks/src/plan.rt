//! How many tries or steps are measured, and with which slack.

ghost use Rattle.std.specs.Prelude.{◌<◌};

/// So many tries or steps, and by how much the score may rise at the first of them.
#[derive(Clone, Copy, Debug, PartialEq, Eq)]
pub struct Plan {
    pub count: u32,
    pub slack: u32,
}

impl Plan {
    /// The slack of a try, from 0. It falls in a line, as a worker's does.
    pub fn slack_at(self, index: u32) -> u64
        requires { index < self.count }
    {
        let left = u64::from(self.count - index);
        u64::from(self.slack) * left / u64::from(self.count)
    }
}
