//! What a line names.

ghost use Rattle.std.specs.Prelude.{◌≡◌, IfOk, option_map};
ghost use Rattle.range_edits.specs.EditLine.{cause_named, part_edge_named, net_named, number_of, subject_named, subject_of, wire_named};
ghost use Rattle.range_edits.specs.Step.Named.{subject_view};

use crate::edit::Subject;
use drawn_numbers::{CauseName, DrawnNumber};
use itv_base::{NoMemory, Text, is_name, split_digits, split_name, strip};
use line_words::short_in;
use std::alloc::Global;

/// What a line names, with the name of a part as it is written on the line.
#[derive(Clone, Copy)]
pub enum Named<'a> {
    /// A constraint and one of its causes.
    Cause { constraint: u32, cause: u32 },
    /// A part and an edge of its sheet.
    Edge { part: &'a str, edge: u32 },
    /// A net.
    Net(u32),
    /// An edge of the netlist.
    Wire(u32),
}

/// The subject of what a line names.
pub fn owned_subject(alloc: Global, named: Named<'_>) -> Result<Subject, NoMemory>
    ensures subject { IfOk result (λ subject. subject ≡ subject_view named.entry) }
{
    match named {
        Named::Cause { constraint, cause } => Ok(Subject::Cause(CauseName { constraint, cause })),
        Named::Edge { part, edge } => {
            let part = Text::from_text(alloc, part)?;
            let edge = u64::from(edge);
            Ok(Subject::Number(DrawnNumber::Edge { part, edge }))
        }
        Named::Net(net) => Ok(Subject::Number(DrawnNumber::Net(u64::from(net)))),
        Named::Wire(wire) => Ok(Subject::Number(DrawnNumber::Wire(u64::from(wire)))),
    }
}

/// What a line names, and the text after it, or `None` if the line does not begin as an edit does.
#[tactic(auto, unfolding(crate::specs::EditLine::subject_of))]
pub fn named_in(text: &str) -> Option<(Named<'_>, &str)>
    ensures named { option_map (λ x. (subject_view x.0, x.1.now)) result ≡ subject_of text.now }
{
    let text = strip(text, "set ")?;
    let (word, behind) = split_name(text);
    by_word(word, behind)
}

// What a text names, given its first word and the text after the word.
fn by_word<'a>(word: &'a str, behind: &'a str) -> Option<(Named<'a>, &'a str)>
    ensures { option_map (λ x. (subject_view x.0, x.1.now)) result ≡ subject_named word.now behind.now }
{
    if let Some(found) = net_in(word, behind) {
        return Some(found);
    }
    if let Some(found) = wire_in(word, behind) {
        return Some(found);
    }
    if let Some(found) = edge_in(word, behind) {
        return Some(found);
    }
    cause_in(word, behind)
}

fn net_in<'a>(word: &str, behind: &'a str) -> Option<(Named<'a>, &'a str)>
    ensures { option_map (λ x. (subject_view x.0, x.1.now)) result ≡ net_named word.now behind.now }
{
    if word != "net" {
        return None;
    }
    let (net, behind) = number_in(strip(behind, " ")?)?;
    Some((Named::Net(net), behind))
}

fn wire_in<'a>(word: &str, behind: &'a str) -> Option<(Named<'a>, &'a str)>
    ensures { option_map (λ x. (subject_view x.0, x.1.now)) result ≡ wire_named word.now behind.now }
{
    if word != "wire" {
        return None;
    }
    let (wire, behind) = number_in(strip(behind, " ")?)?;
    Some((Named::Wire(wire), behind))
}

fn edge_in<'a>(part: &'a str, behind: &'a str) -> Option<(Named<'a>, &'a str)>
    ensures { option_map (λ x. (subject_view x.0, x.1.now)) result ≡ part_edge_named part.now behind.now }
{
    if !is_name(part) {
        return None;
    }
    let (edge, behind) = number_in(strip(behind, " edge ")?)?;
    Some((Named::Edge { part, edge }, behind))
}

fn cause_in<'a>(word: &str, behind: &'a str) -> Option<(Named<'a>, &'a str)>
    ensures { option_map (λ x. (subject_view x.0, x.1.now)) result ≡ cause_named word.now behind.now }
{
    let constraint = short_in(word)?;
    let (cause, behind) = number_in(strip(behind, ".")?)?;
    Some((Named::Cause { constraint, cause }, behind))
}

// The number that a text begins with, and the text after it.
fn number_in(text: &str) -> Option<(u32, &str)>
    ensures { option_map (λ x. (x.0, x.1.now)) result ≡ number_of text.now }
{
    let (digits, behind) = split_digits(text);
    Some((short_in(digits)?, behind))
}
