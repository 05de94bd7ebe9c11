//! Checks of the texts of edges.

ghost use Rattle.std.specs.Prelude.{◌≡◌, ◌++◌, OnOk};
ghost use Rattle.label_grammar.specs.Edge.{edge_of};
ghost use Rattle.label_grammar.specs.Wire.{wire_of};
ghost use Rattle.lint.specs.Lists.{each_from};
ghost use Rattle.lint.specs.Step.{checked_warnings, edge_checked, is_edge_given, is_wire_given, sheet_checked, warning_at, wire_checked};

use crate::asked::part_count;
use crate::comments::{has_sign, is_edge_comment, is_wire_comment};
use crate::misplaced::is_note_misplaced;
use crate::push::push_where;
use crate::warning::{DrawnPlace, Warning};
use crate::warning_word::WarningWord;
use crate::words::{after_space, begins_with_kind};
use crate::written::{edge_written, wire_written};
use compose::Design;
use design_plan::Plan;
use itv_base::{NoMemory, Texts};
use origin::Origin;

/// What a text of an edge is checked for.
#[derive(Clone, Copy)]
pub enum TextCheck {
    /// A comment that has a sign of a label.
    Comment,
    /// A comment without a sign of a label whose first word is a kind of a label, or nearly is one.
    Word,
    /// A note that looks like what belongs before it.
    Note,
}

/// Puts the warnings of a check at the end, first for the sheets, and then for the netlist.
pub fn push_checked(
    warnings: &mut Vec<Warning>,
    check: TextCheck,
    plan: &Plan,
    design: &Design<'_>,
) -> Result<(), NoMemory>
    ensures pushed { OnOk result (warnings.new.items ≡ warnings.old.items ++ checked_warnings check plan.now design.now) }
{
    push_sheets(warnings, check, plan.netlist().version(), design)?;
    push_wires(warnings, check, plan.netlist().edges())
}

// Puts the warnings of the sheets at the end. Their labels are of this version.
fn push_sheets(
    warnings: &mut Vec<Warning>,
    check: TextCheck,
    version: u32,
    design: &Design<'_>,
) -> Result<(), NoMemory>
    ensures pushed { OnOk result (warnings.new.items ≡ warnings.old.items ++ each_from (sheet_checked check version) 0 design.now.sheets) }
{
    for part in 0..part_count(design) {
        let edges = design.sheet_of(part).edges();
        push_edges(warnings, check, version, part, edges)?;
    }
    Ok(())
}

// Puts the warnings of the edges of the sheet of a part at the end.
fn push_edges(
    warnings: &mut Vec<Warning>,
    check: TextCheck,
    version: u32,
    part: u32,
    edges: &Texts,
) -> Result<(), NoMemory>
    ensures pushed { OnOk result (warnings.new.items ≡ warnings.old.items ++ each_from (edge_checked check version part) 0 edges.now) }
{
    for n in 0..edges.len() {
        push_edge(warnings, check, version, part, n, edges.get(n).as_text())?;
    }
    Ok(())
}

// Puts the warning of an edge at the end, if the edge has one.
fn push_edge(
    warnings: &mut Vec<Warning>,
    check: TextCheck,
    version: u32,
    part: u32,
    n: u64,
    text: &str,
) -> Result<(), NoMemory>
    ensures pushed { OnOk result (warnings.new.items ≡ warnings.old.items ++ edge_checked check version part n text.now) }
{
    let origin = Origin::Edge(n);
    push_where(
        is_edge_given(check, version, text),
        warning_at(check, DrawnPlace { part, origin }),
        warnings,
    )
}

// Puts the warnings of the edges of the netlist at the end.
fn push_wires(warnings: &mut Vec<Warning>, check: TextCheck, edges: &Texts) -> Result<(), NoMemory>
    ensures pushed { OnOk result (warnings.new.items ≡ warnings.old.items ++ each_from (wire_checked check) 0 edges.now) }
{
    for n in 0..edges.len() {
        push_wire(warnings, check, n, edges.get(n).as_text())?;
    }
    Ok(())
}

// Puts the warning of an edge of the netlist at the end, if the edge has one.
fn push_wire(
    warnings: &mut Vec<Warning>,
    check: TextCheck,
    n: u64,
    text: &str,
) -> Result<(), NoMemory>
    ensures pushed { OnOk result (warnings.new.items ≡ warnings.old.items ++ wire_checked check n text.now) }
{
    push_where(
        is_wire_given(check, text),
        warning_at(check, DrawnPlace::wire(n)),
        warnings,
    )
}

// The warning that a check gives of an edge.
fn warning_at(check: TextCheck, place: DrawnPlace) -> Warning
    ensures { result ≡ warning_at check place }
{
    match check {
        TextCheck::Comment => Warning::at(WarningWord::Comment, place),
        TextCheck::Word => Warning::at(WarningWord::Word, place),
        TextCheck::Note => Warning::at(WarningWord::Note, place),
    }
}

// Whether a check gives a warning of the text of an edge of a sheet.
fn is_edge_given(check: TextCheck, version: u32, text: &str) -> bool
    ensures { result ≡ is_edge_given check version (edge_of text.now) text.now }
{
    match check {
        TextCheck::Comment => is_edge_comment(text) && has_sign(text.as_bytes()),
        TextCheck::Word => {
            is_edge_comment(text)
                && !has_sign(text.as_bytes())
                && begins_with_kind(after_space(text).as_bytes())
        }
        TextCheck::Note => is_note_misplaced(edge_written(version, text).as_bytes()),
    }
}

// Whether a check gives a warning of the text of an edge of the netlist.
fn is_wire_given(check: TextCheck, text: &str) -> bool
    ensures { result ≡ is_wire_given check (wire_of text.now) text.now }
{
    match check {
        TextCheck::Comment => is_wire_comment(text) && has_sign(text.as_bytes()),
        TextCheck::Word => {
            is_wire_comment(text)
                && !has_sign(text.as_bytes())
                && begins_with_kind(after_space(after_space(text)).as_bytes())
        }
        TextCheck::Note => is_note_misplaced(wire_written(text).as_bytes()),
    }
}
