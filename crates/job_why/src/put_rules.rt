//! Putting the rules that contradict each other.

ghost use Rattle.std.specs.Prelude.{◌≡◌, ◌<◌, if◌then◌else◌, [], length};
ghost use Rattle.itv_base.specs.Outside.{Puts};
ghost use Rattle.line_words.specs.Lines.{ended, line_of};
ghost use Rattle.job_why.specs.Step.{IsBetween, causes_at, rule_words};
ghost use Rattle.job_why.specs.Text.{rules_text};

use crate::drawn_by::DrawnBy;
use crate::drawn_cause::{DrawnCause, cause_count, rule_at};
use crate::line::Line;
use crate::put_line::put_line;
use drawn_networks::DrawnNetwork;
use itv_base::{PutFailed, Sink};
use line_words::LineBuffer;
use origin::Notes;

/// Puts the causes of the constraints of a set. The set has a flag for each constraint.
pub fn put_rules<N: Notes, K: Sink>(
    notes: &N,
    drawn: &DrawnNetwork,
    set: &[bool],
    buffer: &mut LineBuffer,
    sink: &mut K,
) -> Result<(), PutFailed>
    requires count { length set.now ≡ length drawn.now.net.constraints }
    ensures puts { Puts (K.state sink.old) (K.state sink.new)
        (rules_text (N.noted notes.now) drawn.now set.now drawn.now.net.constraints drawn.now.origins) result }
{
    // Each constraint has its origins.
    let _origins = drawn.origins();
    for number in 0..drawn.network().len() {
        put_flagged(notes, drawn, number, set[number as usize], buffer, sink)?;
    }
    Ok(())
}

// Puts the causes of a constraint, if it is in a set.
fn put_flagged<N: Notes, K: Sink>(
    notes: &N,
    drawn: &DrawnNetwork,
    number: u32,
    is_in: bool,
    buffer: &mut LineBuffer,
    sink: &mut K,
) -> Result<(), PutFailed>
    requires number { number < length drawn.now.net.constraints }
    ensures { Puts (K.state sink.old) (K.state sink.new)
        (if is_in then causes_at (N.noted notes.now) drawn.now number else []) result }
{
    if !is_in {
        return Ok(());
    }
    put_causes(notes, drawn, number, buffer, sink)
}

// Puts the causes of a constraint.
fn put_causes<N: Notes, K: Sink>(
    notes: &N,
    drawn: &DrawnNetwork,
    number: u32,
    buffer: &mut LineBuffer,
    sink: &mut K,
) -> Result<(), PutFailed>
    requires number { number < length drawn.now.net.constraints }
    ensures puts { Puts (K.state sink.old) (K.state sink.new) (causes_at (N.noted notes.now) drawn.now number) result }
{
    for cause in 0..cause_count(drawn, number) {
        let rule = rule_at(drawn, number, cause);
        put_rule(notes, drawn, &rule, buffer, sink)?;
    }
    Ok(())
}

// Puts a cause of a constraint, and what draws it.
fn put_rule<N: Notes, K: Sink>(
    notes: &N,
    drawn: &DrawnNetwork,
    rule: &DrawnCause,
    buffer: &mut LineBuffer,
    sink: &mut K,
) -> Result<(), PutFailed>
    requires between { IsBetween drawn.now.net.events rule.now }
    ensures puts { Puts (K.state sink.old) (K.state sink.new) (ended (line_of (rule_words (N.noted notes.now) drawn.now rule.now))) result }
{
    let to = drawn.name(rule.target);
    let line = Line::Rule {
        kind: rule.kind,
        from: drawn.name(rule.cause.event),
        to,
        range: rule.cause.range,
        by: DrawnBy::of(notes, to.part, rule.origin),
    };
    put_line(&line, buffer, sink)
}
