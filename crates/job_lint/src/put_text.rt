//! Putting the whole text.

ghost use Rattle.std.specs.Prelude.{◌≡◌};
ghost use Rattle.std.specs.List.{flat_map};
ghost use Rattle.itv_base.specs.Outside.{Puts};
ghost use Rattle.job_lint.specs.Lines.{is_clean};
ghost use Rattle.job_lint.specs.Text.{clean_word, end_text, lint_text, shown_text};

use crate::line::Line;
use crate::meant::{is_silenced, meant_count};
use crate::put_line::put_line;
use compose::Design;
use design_plan::Plan;
use drawn_networks::DrawnNetwork;
use itoa::Buffer;
use itv_base::{PutFailed, Sink, number_text};
use line_words::{LineBuffer, put_words};

/// Puts the whole text. `clean` says whether no line is to be printed.
pub fn put_text<K: Sink>(
    plan: &Plan,
    design: &Design<'_>,
    drawn: &DrawnNetwork,
    lines: &[Line],
    clean: bool,
    buffer: &mut LineBuffer,
    sink: &mut K,
) -> Result<(), PutFailed>
    requires clean { clean ≡ is_clean plan.now design.now drawn.now lines.now }
    ensures puts { Puts (K.state sink.old) (K.state sink.new) (lint_text plan.now design.now drawn.now lines.now) result }
{
    let meant = meant_count(plan, design, drawn, lines);
    sink.put(b"itv lint 1\n")?;
    put_lines(plan, design, drawn, lines, buffer, sink)?;
    put_end(clean, meant, sink)
}

// Puts the lines that are not silenced.
fn put_lines<K: Sink>(
    plan: &Plan,
    design: &Design<'_>,
    drawn: &DrawnNetwork,
    lines: &[Line],
    buffer: &mut LineBuffer,
    sink: &mut K,
) -> Result<(), PutFailed>
    ensures puts { Puts (K.state sink.old) (K.state sink.new) (flat_map (shown_text plan.now design.now drawn.now) lines.now) result }
{
    for line in lines {
        put_shown(plan, design, drawn, line, buffer, sink)?;
    }
    Ok(())
}

// Puts a line, if it is not silenced.
fn put_shown<K: Sink>(
    plan: &Plan,
    design: &Design<'_>,
    drawn: &DrawnNetwork,
    line: &Line,
    buffer: &mut LineBuffer,
    sink: &mut K,
) -> Result<(), PutFailed>
    ensures puts { Puts (K.state sink.old) (K.state sink.new) (shown_text plan.now design.now drawn.now line.now) result }
{
    if is_silenced(plan, design, drawn, line) {
        return Ok(());
    }
    put_line(plan, design, drawn, line, buffer, sink)
}

// Puts the last line.
fn put_end<K: Sink>(clean: bool, meant: u64, sink: &mut K) -> Result<(), PutFailed>
    ensures puts { Puts (K.state sink.old) (K.state sink.new) (end_text clean meant) result }
{
    let mut digits = Buffer::new();
    let word: &[u8] = clean_word(clean);
    if meant == 0 {
        return put_words(b"end", &[word], sink);
    }
    let meant = number_text(meant, &mut digits);
    put_words(b"end", &[word, meant.as_bytes(), b"meant"], sink)
}

// The word that says whether no line is to be printed.
fn clean_word(clean: bool) -> &'static [u8]
    ensures { result.now ≡ clean_word clean }
{
    if clean { b"clean" } else { b"noted" }
}
