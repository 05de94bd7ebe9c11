//! Calls of the parts of the program, one by one: standard input has cases, and each row of a case is a call whose answer is printed.
//! `docs/cases.md` has the form of the cases. Nothing here compares an answer: the file `stdout` of the crate has the expected answers.
//! The answer is `unfit` if a row does not have the form that its verb wants, or if memory runs out.
#![tactic(auto)]

mod bounds;
mod checking;
mod clause_lines;
mod closures;
mod commands;
mod drawings;
mod edit_files;
mod explaining;
mod falls;
mod labels;
mod measured;
mod networks;
mod out;
mod proof_lines;
mod reports;
mod satisfying;
mod searches;
mod sheets;
mod stacks;
mod unfit;
mod verdicts;
mod waves;
mod writing;

use event_graph::Network;
use networks::network;
use out::Out;
use std::alloc::Global;
use std::io;
use std::process::ExitCode;
use unfit::Unfit;

fn main(rt: HostRuntime) -> ExitCode {
    match run(&rt) {
        Ok(()) => ExitCode::SUCCESS,
        Err(Unfit) => ExitCode::FAILURE,
    }
}

// Answers the cases of standard input one after another.
fn run(rt: &(impl Input + Print + AllocGlobal)) -> Result<(), Unfit> {
    let text = io::read_to_string(rt.alloc(), rt.reader())?;
    for case in text.as_str().split("\n= ").skip(1) {
        let mut out = Out::new(rt.alloc());
        answer_case(rt.alloc(), case, &mut out);
        if out.is_unfit() {
            return Err(Unfit);
        }
        rt.print(out.as_str())?;
    }
    Ok(())
}

// Answers a case: its head again, and then its rows.
fn answer_case(alloc: Global, case: &str, out: &mut Out) {
    let (head, body) = case.split_once('\n').unwrap_or((case, ""));
    let verb = head.split(':').next().unwrap_or("");
    out.put("= ");
    out.put(head);
    out.put("\n");
    let subject = lines_of(alloc, body, true);
    let rows = lines_of(alloc, body, false);
    if subject.is_unfit() || rows.is_unfit() {
        out.refuse();
    }
    answer(alloc, verb, subject.as_str(), rows.as_str(), out);
    drop(subject);
    drop(rows);
    if out.is_unfit() {
        out.end_row();
        out.put("\n");
    }
}

// The lines of a case that begin with a bar, without it; or the other lines without the remarks.
fn lines_of(alloc: Global, body: &str, is_subject: bool) -> Out {
    let mut lines = Out::new(alloc);
    for line in body.lines() {
        let text = line.strip_prefix('|');
        if text.is_some() == is_subject && !line.starts_with('#') {
            lines.put(text.unwrap_or(line));
            lines.put("\n");
        }
    }
    lines
}

// Answers the rows of a case, together if each row goes on where the row before it ended.
fn answer(alloc: Global, verb: &str, subject: &str, rows: &str, out: &mut Out) {
    match verb {
        "trail" => stacks::trail(alloc, rows, out),
        "tree" => proof_lines::tree(alloc, rows, out),
        "lent" => proof_lines::lent(alloc, rows, out),
        "bounds" | "check" | "clauses" | "fall lines" | "marks" => {
            answer_over(alloc, verb, subject, rows, out)
        }
        _ => answer_each(alloc, verb, subject, rows, out),
    }
}

// Answers the rows of a verb about a network together.
fn answer_over(alloc: Global, verb: &str, subject: &str, rows: &str, out: &mut Out) {
    if let Some(net) = network(alloc, subject, out) {
        match verb {
            "bounds" => bounds::levels(alloc, &net, rows, out),
            "check" => checking::check(alloc, &net, rows, out),
            "clauses" => clause_lines::clauses(alloc, &net, rows, out),
            "fall lines" => falls::lines(alloc, &net, rows, out),
            _ => explaining::marks(alloc, &net, rows, out),
        }
        drop(net);
    }
}

// Answers rows one by one.
fn answer_each(alloc: Global, verb: &str, subject: &str, rows: &str, out: &mut Out) {
    for row in rows.lines() {
        answer_row(alloc, verb, subject, row, out);
        out.end_row();
        out.put("\n");
    }
}

// Answers a row of a verb that needs no network of a subject.
fn answer_row(alloc: Global, verb: &str, subject: &str, row: &str, out: &mut Out) {
    match verb {
        "kind" => waves::kind(row, out),
        "join" => waves::join(row, out),
        "wire" => labels::wire(row, out),
        "label" => labels::plain(row, out),
        "label 2" => labels::graded(row, out),
        "written" => labels::written(alloc, row, out),
        "drawing" => drawings::drawing(alloc, row, out),
        "sheet" => sheets::sheet(alloc, row, out),
        "words" => commands::words(alloc, row, out),
        "help" => commands::help(alloc, row, out),
        "files" => commands::files(alloc, row, out),
        "line" => proof_lines::line(alloc, row, out),
        "scribe" => proof_lines::scribe(alloc, subject, row, out),
        "report" => reports::report(alloc, subject, row, out),
        "verdict" => verdicts::verdict(row, out),
        "raise" => verdicts::raise(row, out),
        "lanes" => closures::lanes(alloc, row, out),
        "edits" => edit_files::edits(alloc, subject, row, out),
        "times" => measured::times(alloc, row, out),
        "measure" => measured::measure(alloc, subject, row, out),
        "no memory" => networks::no_memory(out),
        _ => answer_row_over(alloc, verb, subject, row, out),
    }
}

// Answers a row of a verb about a network.
fn answer_row_over(alloc: Global, verb: &str, subject: &str, row: &str, out: &mut Out) {
    if let Some(net) = network(alloc, subject, out) {
        answer_of(alloc, &net, verb, row, out);
        drop(net);
    }
}

// The same over the network that was read.
fn answer_of(alloc: Global, net: &Network, verb: &str, row: &str, out: &mut Out) {
    match verb {
        "broken" => satisfying::broken(alloc, net, row, out),
        "edge" => satisfying::edge(alloc, net, row, out),
        "choices" => satisfying::choices(net, row, out),
        "closure" => closures::matrix(alloc, net, out),
        "view" => falls::view(net, out),
        "fall" => falls::fall(alloc, net, row, out),
        "search" => searches::search(alloc, net, row, out),
        "settle" => searches::settle(alloc, net, row, out),
        "extremes" => searches::extremes(alloc, net, row, out),
        "chain" => explaining::chain(alloc, net, row, out),
        "along" => bounds::along(alloc, net, row, out),
        _ => out.refuse(),
    }
}
