//! Callers of `run` over files and a sink in memory, proved from the clauses of `run` alone. Each caller says what one
//! clause gives, so that a weaker clause leaves its caller without a proof.

ghost use Rattle.std.specs.Prelude.{◌≡◌, ◌<◌, ◌⊎◌, ℕ, Bool, List, IfOk, IfSome};
ghost use Rattle.event_graph.specs.Bounds.{IsInconsistent};
ghost use Rattle.event_graph.specs.Edges.{cause_choices};
ghost use Rattle.falling.specs.Cap.{enough_turns};
ghost use Rattle.itv_base.specs.Memory.{shelf_state, sink_state};
ghost use Rattle.itv_base.specs.Outside.{FaultCounted};
ghost use Rattle.job_base.specs.declared.answer.Answer.TheVariants as answers;
ghost use Rattle.design_reading.specs.declared.refusal_place.RefusalPlace.{RefusalPlace};
ghost use Rattle.design_reading.specs.FileReading.{end_over};
ghost use Rattle.design_reading.specs.Refusal.{unread_text};
ghost use Rattle.drawn_networks.specs.Drawn.{Drawn};
ghost use Rattle.command_words.specs.declared.job.SearchJob.TheVariants.{Bounds, Redraw};
ghost use Rattle.command_words.specs.Task.{Task, bad_words, fall, help, searched, taken, task};
ghost use Rattle.itv_cli.specs.Job.{opening};
ghost use Rattle.itv_cli.specs.Run.{OutcomeBy};
ghost use Rattle.conformance.specs.Clients.{Asks, Draws, IsAnswerOf, IsFrontOf, IsFrontOfRight, IsRefusalOf, IsRightReportOf, IsUnreadOf};

use itv_base::{NoMemory, ShelfMem, SinkMem, Texts};
use itv_cli::{Outcome, run};
use std::alloc::Global;

/// The bytes that a run writes if it passes: what its job writes with this answer. For job bounds this is the text of a
/// right report.
pub fn report_of(
    alloc: Global,
    words: &Texts,
    shelf: &mut ShelfMem,
    room: u32,
) -> Result<Option<Vec<u8>>, NoMemory>
    ensures answer { IfOk result (λ report. IfSome report (λ bytes.
        (asked : Task) → Asks words.now asked → IsAnswerOf shelf.old.files asked answers.AllPass bytes.items)) }
    ensures right { IfOk result (λ report. IfSome report (λ bytes.
        (design : List ℕ) (budget : ℕ) (cert : Bool) → taken words.now ≡ task (searched design (Bounds cert) budget)
        → IsRightReportOf shelf.old.files design bytes.items)) }
{
    let mut sink = SinkMem::new(alloc, room)?;
    match run(alloc, words, shelf, &mut sink) {
        Outcome::AllPass => Ok(Some(Vec::from_slice(alloc, sink.bytes())?)),
        _ => Ok(None),
    }
}

/// The bytes that a run writes if its files are refused: the line of the first refusal. Job redraw alone may also
/// refuse a design for what its search found, with the line that it answers then.
pub fn refusal_of(
    alloc: Global,
    words: &Texts,
    shelf: &mut ShelfMem,
    room: u32,
) -> Result<Option<Vec<u8>>, NoMemory>
    ensures right { IfOk result (λ refusal. IfSome refusal (λ bytes.
        (asked : Task) → Asks words.now asked → IsRefusalOf shelf.old.files asked bytes.items
        ⊎ IsAnswerOf shelf.old.files asked answers.DesignRefused bytes.items)) }
    ensures others { IfOk result (λ refusal. IfSome refusal (λ bytes.
        (asked : Task) → Asks words.now asked → ((design : List ℕ) (budget : ℕ) → asked ≡ searched design Redraw budget → ⊥)
        → IsRefusalOf shelf.old.files asked bytes.items)) }
{
    let mut sink = SinkMem::new(alloc, room)?;
    match run(alloc, words, shelf, &mut sink) {
        Outcome::Refused => Ok(Some(Vec::from_slice(alloc, sink.bytes())?)),
        _ => Ok(None),
    }
}

/// The bytes that a run writes if its output fails and no fetch fails: a front of what it was to write. For job bounds
/// this is a front of the text of lines that begin a right report.
pub fn front_of(
    alloc: Global,
    words: &Texts,
    shelf: &mut ShelfMem,
    room: u32,
) -> Result<Option<Vec<u8>>, NoMemory>
    ensures begins { IfOk result (λ front. IfSome front (λ bytes.
        (asked : Task) → Asks words.now asked → ¬ (FaultCounted shelf.old.faults shelf.new.faults)
        → IsFrontOf shelf.old.files asked bytes.items)) }
    ensures right { IfOk result (λ front. IfSome front (λ bytes.
        (design : List ℕ) (budget : ℕ) (cert : Bool) (drawn : Drawn)
        → taken words.now ≡ task (searched design (Bounds cert) budget) → Draws shelf.old.files design drawn
        → ¬ (FaultCounted shelf.old.faults shelf.new.faults) → IsFrontOfRight drawn bytes.items)) }
{
    let mut sink = SinkMem::new(alloc, room)?;
    match run(alloc, words, shelf, &mut sink) {
        Outcome::WriteFault => Ok(Some(Vec::from_slice(alloc, sink.bytes())?)),
        _ => Ok(None),
    }
}

/// The bytes that a run writes if a file could not be read: the line for the place of that file. If the task reads the
/// files of the shelf, the name of the file is the last that failed.
pub fn unread_of(
    alloc: Global,
    words: &Texts,
    shelf: &mut ShelfMem,
    room: u32,
) -> Result<Option<Vec<u8>>, NoMemory>
    ensures line { IfOk result (λ unread. IfSome unread (λ bytes. (place : RefusalPlace) × (bytes.items ≡ unread_text place))) }
    ensures fetch { IfOk result (λ unread. IfSome unread (λ bytes.
        (asked : Task) → Asks words.now asked
        → IsUnreadOf (shelf_state shelf.old) (shelf_state shelf.new) asked bytes.items)) }
{
    let mut sink = SinkMem::new(alloc, room)?;
    match run(alloc, words, shelf, &mut sink) {
        Outcome::ReadFault => Ok(Some(Vec::from_slice(alloc, sink.bytes())?)),
        _ => Ok(None),
    }
}

/// A run that ends without memory has written nothing. It leaves what contracts see of the files and the output as
/// it was.
pub fn untouched_of(
    alloc: Global,
    words: &Texts,
    shelf: &mut ShelfMem,
    sink: &mut SinkMem,
) -> Outcome
    ensures output { result ≡ Outcome.NoMemory → sink_state sink.new ≡ sink_state sink.old }
    ensures files { result ≡ Outcome.NoMemory → shelf_state shelf.new ≡ shelf_state shelf.old }
{
    run(alloc, words, shelf, sink)
}

/// Two runs on the same words and files. If the first passes, the second is not refused, since a run leaves the files
/// as they are.
pub fn run_twice(
    alloc: Global,
    words: &Texts,
    shelf: &mut ShelfMem,
    first: &mut SinkMem,
    second: &mut SinkMem,
) -> (Outcome, Outcome)
    ensures same { (asked : Task) → Asks words.now asked → result.0 ≡ Outcome.AllPass → result.1 ≡ Outcome.Refused → ⊥ }
{
    let once = run(alloc, words, shelf, first);
    let again = run(alloc, words, shelf, second);
    (once, again)
}

/// A run in which nothing fails ends as its files say, unless memory runs out.
pub fn end_of(alloc: Global, words: &Texts, shelf: &mut ShelfMem, sink: &mut SinkMem) -> Outcome
    ensures ends { (asked : Task) → Asks words.now asked
        → ¬ (FaultCounted shelf.old.faults shelf.new.faults) → ¬ (FaultCounted sink.old.faults sink.new.faults)
        → (result ≡ Outcome.NoMemory) ⊎ OutcomeBy (end_over shelf.old.files (opening asked)) result }
    ensures bad_words { taken words.now ≡ bad_words → ¬ (FaultCounted sink.old.faults sink.new.faults)
        → (result ≡ Outcome.NoMemory) ⊎ (result ≡ Outcome.BadWords) }
    ensures help { taken words.now ≡ help → ¬ (FaultCounted sink.old.faults sink.new.faults)
        → (result ≡ Outcome.NoMemory) ⊎ (result ≡ Outcome.Help) }
    ensures faults { sink.old.faults < sink.new.faults → result ≡ Outcome.WriteFault }
    ensures fetches { shelf.old.faults < shelf.new.faults
        → (result ≡ Outcome.ReadFault) ⊎ (result ≡ Outcome.WriteFault) }
{
    run(alloc, words, shelf, sink)
}

/// A run of job bounds. It ends undecided only if its budget is below the number of cause choices.
pub fn bounds_of(alloc: Global, words: &Texts, shelf: &mut ShelfMem, sink: &mut SinkMem) -> Outcome
    ensures decides { (design : List ℕ) (budget : ℕ) (cert : Bool) (drawn : Drawn)
        → taken words.now ≡ task (searched design (Bounds cert) budget) → Draws shelf.old.files design drawn
        → result ≡ Outcome.Undecided → budget < cause_choices drawn.net.constraints }
{
    run(alloc, words, shelf, sink)
}

/// A run of job fall. It ends undecided only if its turns are fewer than are enough, and inconsistent only if no times
/// satisfy the network.
pub fn fall_of(alloc: Global, words: &Texts, shelf: &mut ShelfMem, sink: &mut SinkMem) -> Outcome
    ensures decides { (design : List ℕ) (budget : ℕ) (cert : Bool) (drawn : Drawn)
        → taken words.now ≡ task (fall design budget cert) → Draws shelf.old.files design drawn
        → result ≡ Outcome.Undecided → budget < enough_turns drawn.net }
    ensures none { (design : List ℕ) (budget : ℕ) (cert : Bool) (drawn : Drawn)
        → taken words.now ≡ task (fall design budget cert) → Draws shelf.old.files design drawn
        → result ≡ Outcome.Inconsistent → IsInconsistent drawn.net }
{
    run(alloc, words, shelf, sink)
}
