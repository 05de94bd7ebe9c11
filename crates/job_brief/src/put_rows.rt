//! Putting what is found of each row.

ghost use Rattle.std.specs.Prelude.{◌≡◌, ◌≤◌, All, length};
ghost use Rattle.itv_base.specs.Outside.{Puts};
ghost use Rattle.drawn_networks.specs.Drawn.{IsRowOf};
ghost use Rattle.explanations.specs.Answers.{HasRowTimes};
ghost use Rattle.job_brief.specs.Step.{numbered_rows, row_line_text, run_places};
ghost use Rattle.job_brief.specs.Text.{run_text, runs_text};

use crate::judged::judged_of;
use crate::line::{Line, RowLine};
use crate::put_line::put_line;
use crate::run_place::RunPlace;
use drawn_networks::{DrawnNetwork, Row};
use explanations::RowFound;
use itv_base::{PutFailed, Sink};
use job_base::row_at;
use job_why::{DrawnBy, both_of};
use line_words::LineBuffer;
use origin::Notes;

/// Puts a line for each run of rows of which something is found, in the order of their places: lines of a table or not.
pub fn put_rows<N: Notes, K: Sink>(
    csv: bool,
    notes: &N,
    drawn: &DrawnNetwork,
    found: &[RowFound],
    places: &[RunPlace],
    buffer: &mut LineBuffer,
    sink: &mut K,
) -> Result<(), PutFailed>
    requires count { length found.now ≤ length drawn.now.rows }
    requires times { All HasRowTimes found.now }
    requires places { places.now ≡ run_places drawn.now found.now }
    ensures puts { Puts (K.state sink.old) (K.state sink.new)
        (runs_text csv (N.noted notes.now) drawn.now (numbered_rows drawn.now found.now)) result }
{
    for at in 0..places.len() {
        let number = places[at].first.number;
        let row = row_at(drawn, number);
        let last = row_at(drawn, places[at].last);
        let line = line_of(
            csv,
            number,
            row,
            last,
            notes,
            drawn,
            &found[number as usize],
        );
        put_line(&Line::Row(line), buffer, sink)?;
    }
    Ok(())
}

// What the line of a run says, given its first row and its last one.
fn line_of<'a, N: Notes>(
    csv: bool,
    number: u32,
    row: &Row,
    last: &Row,
    notes: &'a N,
    drawn: &'a DrawnNetwork,
    found: &RowFound,
) -> RowLine<'a>
    requires row { IsRowOf drawn.now.net row.now }
    requires last { IsRowOf drawn.now.net last.now }
    requires times { HasRowTimes found.now }
    ensures text { row_line_text result.csv result ≡ run_text csv (N.noted notes.now) drawn.now (record {
      first = record { number = number; row = row.now; found = found.now };
      last = record { number = number; row = last.now; found = found.now };
    }) }
{
    let from = drawn.name(row.from);
    RowLine {
        csv,
        number,
        kind: row.kind,
        from,
        to: drawn.name(row.to),
        both: both_of(found),
        judged: judged_of(row.kind, found),
        by: DrawnBy {
            origin: row.origin,
            note: notes.note(from.part, row.origin),
            grade: notes.grade(from.part, row.origin),
        },
        rests_on_order: found.apart.is_some(),
        last_cycle: drawn.name(last.from).cycle,
    }
}
