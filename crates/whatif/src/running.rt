//! A session along a list of edits.

ghost use Rattle.std.specs.Prelude.{◌≡◌, All, IfOk, OnOk};
ghost use Rattle.drawn_numbers.specs.Numbers.{IsCauseOf};
ghost use Rattle.drawn_numbers.specs.declared.cause_name.CauseName.{CauseName};
ghost use Rattle.range_edits.specs.Subject.{IsThere, causes_at};
ghost use Rattle.whatif.specs.Runs.{IsRun, note_of};
ghost use Rattle.whatif.specs.Session.{IsEdited, IsRight};

use crate::change::Change;
use crate::fault::EditFault;
use crate::session::Session;
use drawn_networks::DrawnNetwork;
use itv_base::NoMemory;
use range_edits::RangeEdit;
use requirements::{Bound, Consistency};
use std::alloc::Global;
use std::marker::Model;

/// What a session is after an edit: what the edit did, the finding, and the answers of all bounds, two for each
/// pair. There are no answers if the finding is not consistent.
#[derive(Drop)]
pub struct Note {
    pub change: Change,
    pub found: Consistency,
    pub answers: Vec<Bound>,
}

impl Model for Note {
    ghost use Rattle.whatif.specs.Runs.{Note};

    ghost Value = { Note };

    ghost view = { λ n. record { change = n.change; found = n.found; answers = n.answers.items } };
}

/// A note of a session in its present state.
pub fn note_session(alloc: Global, session: &Session, change: Change) -> Result<Note, NoMemory>
    ensures { IfOk result (λ n. n ≡ note_of change session.now) }
{
    Ok(Note {
        change,
        found: session.finding(),
        answers: session.answers(alloc)?,
    })
}

/// Makes the edits of a drawn network one after another, and notes the session after each. The session is of the network as it is drawn, and
/// what each edit names is there.
pub fn run_edits(
    alloc: Global,
    drawn: &DrawnNetwork,
    session: &mut Session,
    edits: &[RangeEdit],
) -> Result<Vec<Note>, NoMemory>
    requires net { session.old.net ≡ drawn.now.net }
    requires there { All (IsThere drawn.now) edits.now }
    ensures run { IfOk result (λ notes. IsRun drawn.now session.old edits.now session.new notes.items) }
{
    let mut notes = Vec::new(alloc);
    for k in 0..edits.len() {
        let note = note_edit(alloc, drawn, session, &edits[k])?;
        notes.push(note)?;
    }
    Ok(notes)
}

// Makes an edit of a drawn network, and notes the session after it. The session has each cause of the drawn network.
fn note_edit(
    alloc: Global,
    drawn: &DrawnNetwork,
    session: &mut Session,
    edit: &RangeEdit,
) -> Result<Note, NoMemory>
    requires stays { (name : CauseName) → IsCauseOf drawn.now.net name → IsCauseOf session.old.net name }
    requires there { IsThere drawn.now edit.now }
    ensures edited { IfOk result (λ n. IsEdited session.old (causes_at drawn.now edit.now.subject) edit.now.range session.new n.change) }
    ensures right { OnOk result (IsRight session.new) }
    ensures noted { IfOk result (λ n. n ≡ note_of n.change session.new) }
{
    let causes = edit.subject.causes(alloc, drawn)?;
    match session.edit(&causes, edit.range) {
        Ok(change) => note_session(alloc, session, change),
        Err(EditFault::NoMemory) => Err(NoMemory),
        Err(EditFault::NoSuch) => {
            // Each cause is there, and no edit takes one away.
            unreachable!()
        }
    }
}
