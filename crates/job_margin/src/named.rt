//! Reading a list of numbers.

ghost use Rattle.std.specs.Prelude.{◌≡◌, ◌==◌, ◌<◌, ◌++◌, [], IfOk, Some, find, length, slice_get};
ghost use Rattle.std.specs.List.{list_any, slice_split};
ghost use Rattle.std.specs.Option.{option_copied};
ghost use Rattle.std.specs.Str.{bytes_eq};
ghost use Rattle.itv_base.specs.Numerals.{number_text};
ghost use Rattle.itv_base.specs.Reading.{walk};
ghost use Rattle.line_words.specs.Views.{texts};
ghost use Rattle.job_margin.specs.Named.{is_called, numbers_in, with_named};
ghost use Rattle.job_margin.specs.Step.{IsListRead};

use crate::list_fault::ListFault;
use drawn_networks::DrawnNetwork;
use drawn_numbers::DrawnNumber;
use itoa::Buffer;
use itv_base::{Listing, NoMemory, Text, number_text, strip};
use moves::{NumberSeen, all_numbers_of};
use std::alloc::{AllocError, Global};

/// The numbers of a list with commas between, as they are called in the lines of job margin. Each may stand there once. A number is there if it draws a
/// cause or a requirement.
pub fn read_numbers(
    alloc: Global,
    drawn: &DrawnNetwork,
    list: &str,
) -> Result<Listing<NumberSeen>, ListFault>
    ensures numbers { IsListRead (λ named. named) result (numbers_in drawn.now list.now) }
{
    let all = all_numbers_of(alloc, drawn)?;
    let texts = split_list(alloc, list)?;
    let named = named_numbers(alloc, &all, &texts)?;
    Ok(Listing::from(named))
}

// The texts of a list between its commas.
fn split_list(alloc: Global, list: &str) -> Result<Vec<&str>, NoMemory>
    ensures { IfOk result (λ v. texts v.items ≡ slice_split (λ b. b == 44) list.now) }
{
    Ok(collect_texts(alloc, list)?)
}

fn collect_texts(alloc: Global, list: &str) -> Result<Vec<&str>, AllocError>
    ensures { IfOk result (λ v. texts v.items ≡ slice_split (λ b. b == 44) list.now) }
{
    list.split(',').collect(alloc)
}

// The numbers that texts name, in order.
fn named_numbers(
    alloc: Global,
    all: &[NumberSeen],
    names: &[&str],
) -> Result<Vec<NumberSeen>, ListFault>
    ensures { IsListRead (λ named. named.items) result (walk (with_named all.now) 0 [] (texts names.now)) }
{
    let mut named = Vec::new(alloc);
    for k in 0..names.len() {
        add_named(alloc, all, k as u64, name_at(names, k), &mut named)?;
    }
    Ok(named)
}

// The text at a place of a list.
fn name_at<'a>(names: &[&'a str], k: usize) -> &'a str
    requires { k < length names.now }
    ensures { slice_get (texts names.now) k ≡ Some result.now }
{
    names[k]
}

// Adds the number that a text names, at this place of the list.
fn add_named(
    alloc: Global,
    all: &[NumberSeen],
    place: u64,
    text: &str,
    named: &mut Vec<NumberSeen>,
) -> Result<(), ListFault>
    ensures { IsListRead (λ _. named.new.items) result (with_named all.now place named.old.items text.now) }
{
    if has_named(named, text) {
        return Err(ListFault::NoNumber(place));
    }
    match number_called(all, text) {
        Some(seen) => Ok(named.push(copy_of(alloc, seen)?)?),
        None => Err(ListFault::NoNumber(place)),
    }
}

// Whether one of the numbers is called so.
fn has_named(named: &[NumberSeen], text: &str) -> bool
    ensures { result ≡ list_any (is_called text.now) named.now }
{
    named.iter().any(|seen| is_called(text, seen))
}

// The first number that is called so.
fn number_called<'a>(all: &'a [NumberSeen], text: &str) -> Option<&'a NumberSeen>
    ensures { option_copied result ≡ find (is_called text.now) all.now }
{
    all.iter().find(|seen| is_called(text, seen))
}

// Whether a number is called so.
fn is_called(text: &str, seen: &NumberSeen) -> bool
    ensures { result ≡ is_called text.now seen.now }
{
    match &seen.number {
        DrawnNumber::Edge { part, edge } => match strip(text, part.as_text()) {
            Some(rest) => is_spelled(rest, " edge ", *edge),
            None => false,
        },
        DrawnNumber::Net(net) => is_spelled(text, "net ", *net),
        DrawnNumber::Wire(wire) => is_spelled(text, "wire ", *wire),
    }
}

// Whether a text is a word and then a number.
fn is_spelled(text: &str, word: &str, number: u64) -> bool
    ensures { result ≡ bytes_eq text.now (word.now ++ number_text number) }
{
    let mut digits = Buffer::new();
    match strip(text, word) {
        Some(rest) => rest == number_text(number, &mut digits),
        None => false,
    }
}

// A copy of a number.
fn copy_of(alloc: Global, seen: &NumberSeen) -> Result<NumberSeen, NoMemory>
    ensures { IfOk result (λ copy. copy ≡ seen.now) }
{
    let number = match &seen.number {
        DrawnNumber::Edge { part, edge } => DrawnNumber::Edge {
            part: Text::from_text(alloc, part.as_text())?,
            edge: *edge,
        },
        DrawnNumber::Net(net) => DrawnNumber::Net(*net),
        DrawnNumber::Wire(wire) => DrawnNumber::Wire(*wire),
    };
    Ok(NumberSeen {
        number,
        range: seen.range,
    })
}
