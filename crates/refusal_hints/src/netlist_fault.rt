//! Why a tree is not a netlist.

use crate::edge::{Edge, element_at, put_no_text};
use crate::grades_fault::range_says;
use crate::hint::Hint;
use crate::part::put_lane_for_mark;
use crate::source::Source;
use crate::tree::{is_ends, put_about_key, put_ends_fault, put_value};
use itv_base::{Shelf, is_mark, is_name};
use json_places::Step;
use json_tree::{list_at, text_at};
use netlist::NetlistFault;
use serde_json::Value;

/// Why the tree of a design is not a netlist. The marks of a lane are looked for in the file of its sheet.
pub fn put_netlist_fault<H: Shelf>(
    hint: &mut Hint,
    source: Source<'_>,
    tree: &Value,
    fault: NetlistFault,
    shelf: &mut H,
) {
    match fault {
        NetlistFault::Part(n) => put_part_fault(hint, source, tree, n),
        NetlistFault::DoublePart(n) => put_double_part(hint, source, tree, n),
        NetlistFault::Net(n) => put_net_fault(hint, source, tree, n),
        NetlistFault::Delay(n, fault) => {
            let way = [Step::Key("nets"), Step::Item(n), Step::Key("delay")];
            source.begin_at_value(hint, &way);
            put_net(hint, tree, n);
            hint.put("in its \"delay\" ");
            hint.put(range_says(fault));
        }
        NetlistFault::Edge(n) => put_wire_fault(hint, source, tree, n, shelf),
        NetlistFault::Label(n, fault) => {
            Edge::of(source, tree, EDGES, n).put_label_refused(hint, 2, 1, fault)
        }
        NetlistFault::NoMemory => hint.cut(),
        _ => put_whole_fault(hint, source, tree, fault),
    }
}

// The key of the edges.
const EDGES: &str = "edges";

// Why a netlist as a whole is refused.
fn put_whole_fault(hint: &mut Hint, source: Source<'_>, tree: &Value, fault: NetlistFault) {
    match key_of(fault) {
        Some(key) => source.begin_at_value(hint, &[Step::Key(key)]),
        None => source.begin_at_value(hint, &[]),
    }
    match fault {
        NetlistFault::Version => put_about_key(hint, "itv", tree.get("itv"), version_rule(tree)),
        NetlistFault::Cycles => put_about_key(
            hint,
            "cycles",
            tree.get("cycles"),
            "expected a whole number from 1 to 256",
        ),
        NetlistFault::TooManyParts(count) => {
            put_too_many(hint, "it has ", count, " parts (limit 256)")
        }
        NetlistFault::TooManySheets(count) => {
            put_too_many(hint, "its parts name ", count, " sheets (limit 64)")
        }
        _ => hint.put(plain_fault(fault)),
    }
}

// The key of what is wrong with a netlist as a whole.
fn key_of(fault: NetlistFault) -> Option<&'static str> {
    match fault {
        NetlistFault::Version => Some("itv"),
        NetlistFault::Cycles => Some("cycles"),
        NetlistFault::PartsNotList
        | NetlistFault::TooManyParts(_)
        | NetlistFault::TooManySheets(_) => Some("parts"),
        NetlistFault::NetsNotList => Some("nets"),
        NetlistFault::EdgesNotList => Some(EDGES),
        _ => None,
    }
}

fn version_rule(tree: &Value) -> &'static str {
    match tree.get("itv") {
        Some(Value::String(_)) => "expected the number 1 or 2, without quotes",
        _ => "expected the whole number 1 or 2",
    }
}

fn put_too_many(hint: &mut Hint, front: &str, count: u64, back: &str) {
    hint.put(front);
    hint.put_number(count);
    hint.put(back);
}

fn plain_fault(fault: NetlistFault) -> &'static str {
    match fault {
        NetlistFault::NotObject => "a design is an object in { }",
        NetlistFault::PartsNotList => "\"parts\" is missing, or is not a list of parts",
        NetlistFault::NetsNotList => "\"nets\" is not a list: give it a list, or remove it",
        NetlistFault::EdgesNotList =>
            "\"edges\" is not a list: give it a list of texts, or remove it",
        _ => "",
    }
}

// ---- parts

fn put_part_fault(hint: &mut Hint, source: Source<'_>, tree: &Value, n: u64) {
    if let Some(part) = element_at(tree, "parts", n) {
        let (key, expected) = wrong_key(part);
        source.begin_at_value(hint, &[Step::Key("parts"), Step::Item(n), Step::Key(key)]);
        hint.put("part ");
        hint.put_number(n);
        hint.put(": ");
        if part.is_object() {
            put_about_key(hint, key, part.get(key), expected);
        } else {
            hint.put("it is not an object with a name and a sheet");
        }
    }
}

// The key of a part whose value is wrong, and what is expected of it.
fn wrong_key(part: &Value) -> (&'static str, &'static str) {
    if !has_name(part) {
        ("name", NAME)
    } else if text_at(part, "sheet").is_none() {
        ("sheet", "expected the name of a file")
    } else {
        ("grade", NAME)
    }
}

fn has_name(part: &Value) -> bool {
    match text_at(part, "name") {
        Some(name) => is_name(name),
        None => false,
    }
}

// What is expected of a name.
const NAME: &str = "expected 1 to 16 letters, digits or _";

fn put_double_part(hint: &mut Hint, source: Source<'_>, tree: &Value, n: u64) {
    source.begin_at_value(
        hint,
        &[Step::Key("parts"), Step::Item(n), Step::Key("name")],
    );
    hint.put("part ");
    hint.put_number(n);
    hint.put(" has the name ");
    hint.put_quoted(name_at(tree, "parts", n).unwrap_or(""));
    hint.put(" of an earlier part: rename one");
}

// The name of element n of the list under a key, if it has one.
fn name_at<'v>(tree: &'v Value, key: &str, n: u64) -> Option<&'v str> {
    text_at(element_at(tree, key, n)?, "name")
}

// ---- nets

// A net, with its name if it has one, before what is said of it.
fn put_net(hint: &mut Hint, tree: &Value, n: u64) {
    hint.put("net ");
    hint.put_number(n);
    if let Some(name) = name_at(tree, "nets", n) {
        hint.put(" ");
        hint.put_quoted(name);
    }
    hint.put(": ");
}

// What is wrong in a net.
fn put_net_fault(hint: &mut Hint, source: Source<'_>, tree: &Value, n: u64) {
    let Some(net) = element_at(tree, "nets", n) else {
        return;
    };
    let pins = list_at(net, "pins").unwrap_or(&[]);
    if pins.is_empty() {
        put_no_pins(hint, source, tree, n, net);
        return;
    }
    match pins.iter().position(|pin| !is_pin(pin)) {
        Some(k) => put_pin_fault(hint, source, tree, n, k as u64, &pins[k]),
        None => put_delay_fault(hint, source, tree, n, net),
    }
}

// A net has no pins.
fn put_no_pins(hint: &mut Hint, source: Source<'_>, tree: &Value, n: u64, net: &Value) {
    let way = [Step::Key("nets"), Step::Item(n), Step::Key("pins")];
    source.begin_at_value(hint, &way);
    put_net(hint, tree, n);
    if net.is_object() {
        let expected = "expected a list of texts PART.LANE";
        put_about_key(hint, "pins", net.get("pins"), expected);
    } else {
        hint.put("it is not an object with pins");
    }
}

fn is_pin(pin: &Value) -> bool {
    match pin.as_str().and_then(|text| text.split_once('.')) {
        Some((part, lane)) => is_name(part) && !lane.is_empty(),
        None => false,
    }
}

fn put_pin_fault(hint: &mut Hint, source: Source<'_>, tree: &Value, n: u64, k: u64, pin: &Value) {
    source.begin_at_value(
        hint,
        &[
            Step::Key("nets"),
            Step::Item(n),
            Step::Key("pins"),
            Step::Item(k),
        ],
    );
    put_net(hint, tree, n);
    hint.put("pin ");
    hint.put_number(k);
    hint.put(" is ");
    put_value(hint, pin);
    hint.put(": expected a text PART.LANE");
}

fn put_delay_fault(hint: &mut Hint, source: Source<'_>, tree: &Value, n: u64, net: &Value) {
    let Some(delay) = net.get("delay") else {
        return;
    };
    if !is_ends(delay) {
        let way = [Step::Key("nets"), Step::Item(n), Step::Key("delay")];
        source.begin_at_value(hint, &way);
        put_net(hint, tree, n);
        hint.put("its \"delay\" ");
        put_ends_fault(hint, delay);
    }
}

// ---- edges

fn put_wire_fault<H: Shelf>(
    hint: &mut Hint,
    source: Source<'_>,
    tree: &Value,
    n: u64,
    shelf: &mut H,
) {
    let edge = Edge::of(source, tree, EDGES, n);
    let Some((word, rest)) = first_no_mark(edge.text) else {
        put_no_text(hint, source, tree, EDGES, n);
        return;
    };
    edge.begin_at_rest(hint, rest);
    hint.put_quoted(word);
    hint.put(" is not a PART.MARK");
    if let Some((part, lane)) = word.split_once('.') {
        put_lane_for_mark(hint, tree, part, lane, shelf);
    }
}

// The first of the two words before a label that is not a mark of a part, and the text from there on.
fn first_no_mark(text: &str) -> Option<(&str, &str)> {
    let (from, rest) = text.split_once(' ')?;
    let (to, _) = rest.split_once(' ')?;
    if !is_part_mark(from) {
        Some((from, text))
    } else if !is_part_mark(to) {
        Some((to, rest))
    } else {
        None
    }
}

fn is_part_mark(word: &str) -> bool {
    match word.split_once('.') {
        Some((part, mark)) => {
            is_name(part) && mark.len() == 1 && mark.bytes().all(|byte| is_mark(byte))
        }
        None => false,
    }
}
