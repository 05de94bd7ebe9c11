//! Names of parts and of marks, and keys that are not known.

ghost use Rattle.std.specs.Prelude.{◌≡◌, [], option_map, slice_get, unwrap_or};
ghost use Rattle.sheet.specs.declared.mark.Mark.{Mark};
ghost use Rattle.compose.specs.Nets.{marks_at};
ghost use Rattle.job_lint.specs.Lines.{event_part, part_word};
ghost use Rattle.job_lint.specs.Text.{sheet_key_word};

use compose::{Design, DesignMark};
use design_plan::Plan;
use drawn_networks::DrawnNetwork;
use itv_base::{EventId, Texts};
use json_tree::StrayKey;

/// The name of a part, or an empty text if there is no such part.
pub fn part_word<'a>(design: &'a Design<'_>, part: u64) -> &'a str
    ensures word { result.now ≡ part_word design.now part }
{
    let parts = design.parts();
    if part < parts.len() {
        parts.get(part).as_text()
    } else {
        ""
    }
}

/// The name of the part of an event, or an empty text if there is no such event.
pub fn event_part<'a>(drawn: &'a DrawnNetwork, event: EventId) -> &'a str
    ensures part { result.now ≡ event_part drawn.now event }
{
    // There is a name for each event.
    let net = drawn.network();
    if event.0 < net.events() {
        drawn.name(event).part
    } else {
        ""
    }
}

/// The name of a mark, if there is such a mark.
pub fn mark_name(design: &Design<'_>, mark: DesignMark) -> Option<u8>
    ensures name { result ≡ option_map (λ (m : Mark). m.name) (slice_get (marks_at design.now.sheets mark.part) mark.mark) }
{
    // Each part has a sheet.
    let _cycles = design.cycles();
    if design.parts().len() <= u64::from(mark.part) {
        return None;
    }
    let marks = design.sheet_of(mark.part).marks();
    if u64::from(mark.mark) < marks.len() {
        Some(marks.get(u64::from(mark.mark)).name)
    } else {
        None
    }
}

/// A near key of the sheet of a part, or an empty text if there is no such key.
pub fn sheet_key_word<'a>(design: &'a Design<'_>, part: u32, key: u64) -> &'a str
    ensures word { result.now ≡ sheet_key_word design.now part key }
{
    // Each part has a sheet.
    let _cycles = design.cycles();
    if design.parts().len() <= u64::from(part) {
        return "";
    }
    text_at(design.sheet_of(part).near(), key)
}

/// The key of a number of the netlist that is not known, if there is such a key.
pub fn stray_key(plan: &Plan, key: u64) -> Option<&StrayKey>
    ensures key { option_map (λ k. k.now) result ≡ slice_get plan.now.netlist.stray key }
{
    let stray = plan.netlist().stray();
    if key < stray.len() {
        Some(stray.get(key))
    } else {
        None
    }
}

/// The text with a number, or an empty text if there is no such text.
pub fn text_at(texts: &Texts, number: u64) -> &str
    ensures text { result.now ≡ unwrap_or (slice_get texts.now number) [] }
{
    if number < texts.len() {
        texts.get(number).as_text()
    } else {
        ""
    }
}
