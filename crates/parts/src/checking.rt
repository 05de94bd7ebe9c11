//! Proofs line by line: which lines a checker takes, and the fault of each other line.

ghost use Rattle.cert_checker.specs.Checking.{IsProofCheckerFor};

use crate::out::Out;
use crate::writing::{asked_of, put_taken};
use cert_checker::{Checker, Goal};
use certificate::read_line;
use event_graph::Network;
use std::alloc::Global;

/// Gives lines to a checker. The row `nothing` begins a proof that no times satisfy, `bound 1 2 600` one of a bound of a pair, and `done` asks
/// whether the lines are a whole proof.
pub fn check(alloc: Global, net: &Network, rows: &str, out: &mut Out) {
    match Checker::new(alloc, net) {
        Ok(mut checker) => {
            out.put("at first ");
            put_done(&checker, out);
            checker.begin(net, Goal::Nothing);
            take_rows(alloc, net, &mut checker, rows, out);
            drop(checker);
        }
        Err(_) => out.refuse(),
    }
}

// Writes whether the lines are a whole proof.
fn put_done(checker: &Checker, out: &mut Out) {
    out.put_whether(checker.is_done());
    out.put("\n");
}

// Gives the checker the lines.
fn take_rows(alloc: Global, net: &Network, checker: &mut Checker, rows: &str, out: &mut Out)
    requires { IsProofCheckerFor net.now checker.old }
{
    for row in rows.lines() {
        take_row(alloc, net, checker, row, out);
    }
}

fn take_row(alloc: Global, net: &Network, checker: &mut Checker, row: &str, out: &mut Out)
    requires { IsProofCheckerFor net.now checker.old }
    ensures { IsProofCheckerFor net.now checker.new }
{
    match row {
        "nothing" => checker.begin(net, Goal::Nothing),
        "done" => put_done(checker, out),
        _ if row.starts_with("bound ") => match bound_of(row) {
            Some(goal) => checker.begin(net, goal),
            None => out.refuse(),
        },
        _ => take_line(alloc, net, checker, row, out),
    }
}

fn take_line(alloc: Global, net: &Network, checker: &mut Checker, row: &str, out: &mut Out)
    requires { IsProofCheckerFor net.now checker.old }
    ensures { IsProofCheckerFor net.now checker.new }
{
    match read_line(alloc, row.as_bytes()) {
        Ok(line) => {
            put_taken(checker.take(net, &line.line()), out);
            drop(line);
        }
        Err(_) => out.refuse(),
    }
}

fn bound_of(row: &str) -> Option<Goal> {
    let asked = asked_of(row)?;
    Some(Goal::Bound {
        from: asked.from,
        to: asked.to,
        value: asked.number,
    })
}
