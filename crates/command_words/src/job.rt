//! The jobs that share what they read: what each kind of job can do with it.

/// What is done with a drawn network by searches.
#[derive(Clone, Copy)]
pub enum SearchJob {
    /// Job bounds: to bound the rows, and whether proofs are written. The budget is the cases that each search may close.
    Bounds { cert: bool },
    /// Job settle: to bound the rows whatever the choices of the design, and whether proofs are written. The budget is the turns
    /// that each search may take, in thousands.
    Settle { cert: bool },
    /// Job redraw: to draw a counterexample. The budget is the cases that each search may close.
    Redraw,
}

impl SearchJob {
    /// The name of the job.
    pub fn name(self) -> &'static str {
        match self {
            SearchJob::Bounds { .. } => "bounds",
            SearchJob::Settle { .. } => "settle",
            SearchJob::Redraw => "redraw",
        }
    }
}

/// What is done with a plan and the network that it draws. The budget is the cases that each search may close.
#[derive(Clone, Copy)]
pub enum PlanJob {
    /// Job why: to print which edges hold the bounds of the rows.
    Why,
    /// Job brief: to print each row on one line, and whether the lines are a table.
    Brief { csv: bool },
    /// Job lint: to print what may say something else than was meant.
    Lint,
}

impl PlanJob {
    /// The name of the job.
    pub fn name(self) -> &'static str {
        match self {
            PlanJob::Why => "why",
            PlanJob::Brief { .. } => "brief",
            PlanJob::Lint => "lint",
        }
    }
}

/// What is done with a drawn network and the bytes of a report.
#[derive(Clone, Copy)]
pub enum CheckJob {
    /// Job check: to check a report.
    Check,
    /// Job confirm: to check a text of job settle.
    Confirm,
}

impl CheckJob {
    /// The name of the job.
    pub fn name(self) -> &'static str {
        match self {
            CheckJob::Check => "check",
            CheckJob::Confirm => "confirm",
        }
    }
}
