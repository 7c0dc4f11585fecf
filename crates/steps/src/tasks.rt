// The tasks of the thirty-two lines.
ghost use Rattle.division.specs.Judgement.{IsTask};

use numbers::task::{Claim, Mode, Rounding, Task};

// A task whose precision is from 1 to 64.
#[derive(Clone, Copy)]
pub(crate) struct LineTask {
    pub task: Task,
    ghost precise: { IsTask task },
}

pub(crate) const TRUNC_24: LineTask = LineTask {
    task: Task::Round(Rounding {
        mode: Mode::Trunc,
        precision: 24,
    }),
};

pub(crate) const AWAY_24: LineTask = LineTask {
    task: Task::Round(Rounding {
        mode: Mode::Away,
        precision: 24,
    }),
};

pub(crate) const TRUNC_32: LineTask = LineTask {
    task: Task::Round(Rounding {
        mode: Mode::Trunc,
        precision: 32,
    }),
};

pub(crate) const AWAY_32: LineTask = LineTask {
    task: Task::Round(Rounding {
        mode: Mode::Away,
        precision: 32,
    }),
};

pub(crate) const STICKY_64: LineTask = LineTask {
    task: Task::Round(Rounding {
        mode: Mode::Sticky,
        precision: 64,
    }),
};

pub(crate) const EXACT_32: LineTask = LineTask {
    task: Task::Exact(Claim { precision: 32 }),
};

pub(crate) const EXACT_64: LineTask = LineTask {
    task: Task::Exact(Claim { precision: 64 }),
};
