//! What is said of a run whose budget ended a search.

use command_words::{SearchJob, Task};
use refusal_hints::Hint;

/// Puts that the budget left an answer open, to a question or to a requirement, and what may settle the answer.
pub fn put_open(hint: &mut Hint, task: Task<'_>) {
    hint.begin();
    hint.put("the budget left an answer open: ");
    hint.put(settles(task));
}

// What may settle an answer that a task left open.
fn settles(task: Task<'_>) -> &'static str {
    match task {
        Task::Fall { .. } => "a larger --budget may settle it, and so may --job settle",
        Task::Searched {
            job: SearchJob::Settle { .. },
            ..
        }
        | Task::Generated { .. }
        | Task::Whatif { .. }
        | Task::Margin { .. } => "a larger --budget may settle it",
        _ => "--job settle may settle it, and so may a larger --budget",
    }
}
