//! Lines of proofs by clauses: which lines a checker takes.

ghost use Rattle.std.specs.Prelude.{◌<◌};
ghost use Rattle.edge_clauses.specs.Checking.{IsChecking};

use crate::out::Out;
use clause_texts::read_clause_line;
use edge_clauses::{Claim, ClauseChecker};
use event_graph::Network;
use itv_base::EventId;
use line_words::long_in;
use std::alloc::Global;

/// Gives lines to a checker of the claim of the first row, as in `claim 740`: how far event 3 comes after event 0 at most. Writes of each line whether
/// it is taken, and in the end whether the lines are a proof.
pub fn clauses(alloc: Global, net: &Network, rows: &str, out: &mut Out) {
    match claim_of(rows) {
        Some((claim, rows)) if 3 < net.events() => take_all(alloc, net, claim, rows, out),
        _ => out.refuse(),
    }
}

// The claim of the first row, and the other rows.
fn claim_of(rows: &str) -> Option<(Claim, &str)> {
    let (claim, rows) = rows.split_once('\n')?;
    let value = long_in(claim.strip_prefix("claim ")?)?;
    Some((Claim { value }, rows))
}

// Gives the lines to a checker of the claim, and writes whether they are a proof.
fn take_all(alloc: Global, net: &Network, claim: Claim, rows: &str, out: &mut Out)
    requires events { 3 < net.now.events }
{
    match ClauseChecker::start(alloc, net, EventId(0), EventId(3), claim) {
        Ok(mut checker) => {
            take_each(alloc, net, &mut checker, rows, out);
            out.put_whether(checker.is_over());
            out.put("\n");
            drop(checker);
        }
        Err(_) => out.refuse(),
    }
}

fn take_each(alloc: Global, net: &Network, checker: &mut ClauseChecker, rows: &str, out: &mut Out)
    requires checking { IsChecking net.now checker.old }
    ensures checking { IsChecking net.now checker.new }
{
    for row in rows.lines() {
        take_row(alloc, net, checker, row, out);
    }
}

fn take_row(alloc: Global, net: &Network, checker: &mut ClauseChecker, row: &str, out: &mut Out)
    requires checking { IsChecking net.now checker.old }
    ensures checking { IsChecking net.now checker.new }
{
    match read_clause_line(alloc, row.as_bytes()) {
        Ok(line) => {
            match checker.take(alloc, net, &line) {
                Ok(is_taken) => out.put(if is_taken { "taken\n" } else { "refused\n" }),
                Err(_) => out.refuse(),
            }
            drop(line);
        }
        Err(_) => out.refuse(),
    }
}
