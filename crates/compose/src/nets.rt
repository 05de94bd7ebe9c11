//! The joins of nets.

ghost use Rattle.std.specs.Prelude.{◌≡◌, ◌+◌, ◌<◌, ◌≤◌, All, length, map};
ghost use Rattle.itv_base.specs.Reading.{AgreesWith, walk, walk_to};
ghost use Rattle.compose.specs.Fault.{is_memory};
ghost use Rattle.compose.specs.Nets.{joins_of, kind_at, kinds_fit, marks_at, pins_joined, same_count, with_net, with_pin, with_terminals};
ghost use Rattle.compose.specs.declared.terminal.Terminal.{Terminal as TerminalSeen};

use crate::fault::JoinFault;
use crate::joins::{Joins, PinJoins};
use crate::mark::DesignMark;
use crate::terminal::{Terminal, sheet_at, terminals_of};
use itv_base::{MAX_PARTS, Range};
use netlist::{Part, PinNet};
use origin::Origin;
use sheet::{MAX_MARKS, Mark, Sheet};
use std::alloc::Global;
use wave_string::{MarkKind, may_join};

/// The joins of nets, net by net and within a net pin by pin, or the first fault.
pub fn join_nets(
    alloc: Global,
    parts: &[Part],
    sheets: &[&Sheet],
    nets: &[PinNet],
) -> Result<Joins, JoinFault>
    requires parts { length parts.now ≡ length sheets.now }
    requires few { length parts.now ≤ MAX_PARTS }
    ensures { AgreesWith is_memory (λ joins. joins) result (joins_of parts.now (map (λ s. s.now) sheets.now) nets.now) }
{
    let mut joins = Joins::new(alloc);
    for (n, net) in nets.iter().enumerate() {
        push_net(alloc, &mut joins, parts, sheets, n as u64, net)?;
    }
    Ok(joins)
}

// Joins the pins of net n.
fn push_net(
    alloc: Global,
    joins: &mut Joins,
    parts: &[Part],
    sheets: &[&Sheet],
    n: u64,
    net: &PinNet,
) -> Result<(), JoinFault>
    requires parts { length parts.now ≡ length sheets.now }
    requires few { length parts.now ≤ MAX_PARTS }
    ensures { AgreesWith is_memory (λ _. joins.new) result
        (with_net parts.now (map (λ s. s.now) sheets.now) n joins.old net.now) }
{
    let terminals = terminals_of(alloc, parts, sheets, n, net.pins().as_slice())?;
    push_terminals(joins, sheets, net.delay(), n, &terminals)
}

// Joins the pins of net n. The first pin drives.
fn push_terminals(
    joins: &mut Joins,
    sheets: &[&Sheet],
    delay: Range,
    n: u64,
    terminals: &[Terminal],
) -> Result<(), JoinFault>
    requires { All (λ (t : TerminalSeen). t.first + t.count ≤ MAX_MARKS) terminals.now }
    ensures { AgreesWith is_memory (λ _. joins.new) result
        (with_terminals (map (λ s. s.now) sheets.now) delay n joins.old terminals.now) }
{
    let [driver, others @ ..] = terminals else {
        return Ok(());
    };
    check_counts(*driver, n, others)?;
    push_pins(joins, sheets, *driver, delay, n, others)
}

// Whether each pin from number 1 on has as many marks as the driver.
fn check_counts(driver: Terminal, n: u64, others: &[Terminal]) -> Result<(), JoinFault>
    ensures { AgreesWith is_memory (λ x. x) result (walk (same_count driver n) 1 tt others.now) }
{
    for (k, other) in others.iter().enumerate() {
        if other.count != driver.count {
            return Err(JoinFault::MarkCounts(n, k as u64 + 1, driver.count, other.count));
        }
    }
    Ok(())
}

// Joins the driver and the pins from number 1 on.
fn push_pins(
    joins: &mut Joins,
    sheets: &[&Sheet],
    driver: Terminal,
    delay: Range,
    n: u64,
    others: &[Terminal],
) -> Result<(), JoinFault>
    requires driver { driver.first + driver.count ≤ MAX_MARKS }
    requires others { All (λ (t : TerminalSeen). t.first + t.count ≤ MAX_MARKS) others.now }
    ensures { AgreesWith is_memory (λ _. joins.new) result
        (walk (with_pin (map (λ s. s.now) sheets.now) driver delay n) 1 joins.old others.now) }
{
    for (k, other) in others.iter().enumerate() {
        push_pin(joins, sheets, driver, delay, n, k as u64 + 1, *other)?;
    }
    Ok(())
}

// Joins the driver and pin k, if the kinds of their marks fit.
fn push_pin(
    joins: &mut Joins,
    sheets: &[&Sheet],
    driver: Terminal,
    delay: Range,
    n: u64,
    k: u64,
    other: Terminal,
) -> Result<(), JoinFault>
    requires driver { driver.first + driver.count ≤ MAX_MARKS }
    requires other { other.first ≤ MAX_MARKS }
    ensures { AgreesWith is_memory (λ _. joins.new) result
        (with_pin (map (λ s. s.now) sheets.now) driver delay n k joins.old other) }
{
    check_kinds(sheets, driver, other, n, k)?;
    joins.push(pins_joined(n, k, driver, delay, other))?;
    Ok(())
}

// The joins of the driver and pin k of net n.
fn pins_joined(n: u64, k: u64, driver: Terminal, delay: Range, other: Terminal) -> PinJoins
    ensures { result ≡ pins_joined n k driver delay other }
{
    PinJoins {
        driver: DesignMark {
            part: driver.part,
            mark: driver.first,
        },
        driven: DesignMark {
            part: other.part,
            mark: other.first,
        },
        marks: driver.count,
        delay,
        origin: Origin::Pin { net: n, pin: k },
    }
}

// Whether each mark of the driver may be joined to the mark of pin k with the same number.
fn check_kinds(
    sheets: &[&Sheet],
    driver: Terminal,
    other: Terminal,
    n: u64,
    k: u64,
) -> Result<(), JoinFault>
    requires driver { driver.first + driver.count ≤ MAX_MARKS }
    requires other { other.first ≤ MAX_MARKS }
    ensures { AgreesWith is_memory (λ x. x) result
        (walk_to (kinds_fit (map (λ s. s.now) sheets.now) driver other n k) 0 tt driver.count) }
{
    let driver_marks = marks_at(sheets, driver.part);
    let other_marks = marks_at(sheets, other.part);
    for m in 0..driver.count {
        let from = kind_at(driver_marks, driver.first + m);
        let to = kind_at(other_marks, other.first + m);
        if !may_join(from, to) {
            return Err(JoinFault::KindsDiffer(n, k, m));
        }
    }
    Ok(())
}

/// The marks on the sheet of a part, or no marks if there is no such part.
pub fn marks_at<'a, 'b>(sheets: &'b [&'a Sheet], part: u32) -> &'b [Mark]
    ensures marks { result.now ≡ marks_at (map (λ s. s.now) sheets.now) part }
    ensures few { length result.now ≤ MAX_MARKS }
{
    if part as usize >= sheets.len() {
        return &[];
    }
    sheet_at(sheets, part as usize).marks().as_slice()
}

// The kind of the mark with this number, or bare if there is no such mark.
fn kind_at(marks: &[Mark], m: u32) -> MarkKind
    ensures { result ≡ kind_at marks.now m }
{
    match marks.get(m as usize) {
        Some(mark) => mark.kind,
        None => MarkKind::Bare,
    }
}
