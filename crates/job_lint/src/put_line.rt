//! Putting a line.

ghost use Rattle.std.specs.Prelude.{◌≡◌, ◌++◌, ◌∷◌, [], codes, map, slice_get};
ghost use Rattle.std.specs.List.{filter, flat_map};
ghost use Rattle.itv_base.specs.Outside.{Puts};
ghost use Rattle.line_words.specs.Lines.{spaced};
ghost use Rattle.itv_base.specs.Numerals.{number_text};
ghost use Rattle.design_plan.specs.Notes.{is_printed_byte};
ghost use Rattle.job_lint.specs.Lines.{event_part, part_word};
ghost use Rattle.job_lint.specs.Step.Put.{piece_word, told_by};
ghost use Rattle.lint.specs.Words.{word_text};
ghost use Rattle.job_lint.specs.Text.{about_words, at_told, driven_words, drivers_words, line_text, line_words, mark_word, narrow_words, net_told, netlist_key_words, pair_words, sheet_key_word, spot_told, spot_word, spot_words, stray_words, warning_words};

use crate::drawn_at::DrawnAt;
use crate::line::Line;
use crate::parts::{event_part, mark_name, part_word, sheet_key_word, stray_key};
use crate::piece::{PartPlace, Piece, Told};
use crate::put_piece::put_pieces;
use crate::put_told::put_told;
use compose::{Design, DesignMark};
use design_plan::Plan;
use drawn_networks::DrawnNetwork;
use itv_base::{PutFailed, Side, Sink};
use json_tree::{KeyPlace, StrayKey};
use line_words::LineBuffer;
use lint::{About, DrawnPlace, Warning};
use origin::Origin;

/// Puts a line and its end, by one put if it fits the buffer, and otherwise piece by piece. What the buffer held before is forgotten.
pub fn put_line<K: Sink>(
    plan: &Plan,
    design: &Design<'_>,
    drawn: &DrawnNetwork,
    line: &Line,
    buffer: &mut LineBuffer,
    sink: &mut K,
) -> Result<(), PutFailed>
    ensures puts { Puts (K.state sink.old) (K.state sink.new) (line_text plan.now design.now drawn.now line.now) result }
{
    buffer.clear();
    match put_whole(plan, design, drawn, line, buffer) {
        Ok(()) => buffer.put_into(sink),
        Err(PutFailed) => put_whole(plan, design, drawn, line, sink),
    }
}

// Puts a line piece by piece.
fn put_whole<K: Sink>(
    plan: &Plan,
    design: &Design<'_>,
    drawn: &DrawnNetwork,
    line: &Line,
    sink: &mut K,
) -> Result<(), PutFailed>
    ensures puts { Puts (K.state sink.old) (K.state sink.new) (line_text plan.now design.now drawn.now line.now) result }
{
    sink.put(b"warning")?;
    put_line_words(plan, design, drawn, line, sink)?;
    sink.put(b"\n")
}

// Puts a space and a word for each word of a line after its first word.
fn put_line_words<K: Sink>(
    plan: &Plan,
    design: &Design<'_>,
    drawn: &DrawnNetwork,
    line: &Line,
    sink: &mut K,
) -> Result<(), PutFailed>
    ensures puts { Puts (K.state sink.old) (K.state sink.new) (flat_map spaced (line_words plan.now design.now drawn.now line.now)) result }
{
    match line {
        Line::Drawing(warning) => put_warning(plan, design, warning, sink),
        Line::Never(spot) => put_spot(plan, design, b"never", spot, sink),
        Line::Narrow {
            at,
            side,
            weight,
            only,
        } => put_narrow(plan, drawn, *at, *side, *weight, *only, sink),
        Line::Order { number, at } => put_row(plan, drawn, b"order", *number, *at, sink),
        Line::OpenRow { number, at } => put_row(plan, drawn, b"open", *number, *at, sink),
        Line::Contradiction => sink.put(b" contradiction"),
        Line::OrderContradicts => sink.put(b" order"),
        Line::Open => sink.put(b" open"),
        Line::OpenEnds(count) => {
            put_pieces(
                &[
                    Piece::Key(b"open"),
                    Piece::Key(b"ends"),
                    Piece::Count(*count),
                ],
                sink,
            )
        }
    }
}

// Puts a space and a word for each piece, and for each word at the end of a line.
fn put_words<K: Sink>(
    plan: &Plan,
    pieces: &[Piece<'_>],
    told: Told<'_>,
    sink: &mut K,
) -> Result<(), PutFailed>
    ensures puts { Puts (K.state sink.old) (K.state sink.new) (flat_map spaced (map piece_word pieces.now ++ told_by plan.now told.entry)) result }
{
    put_pieces(pieces, sink)?;
    put_told(plan, told, sink)
}

// ---- rows and ends

fn put_row<'a, K: Sink>(
    plan: &Plan,
    drawn: &'a DrawnNetwork,
    key: &'a [u8],
    number: u64,
    at: DrawnAt,
    sink: &mut K,
) -> Result<(), PutFailed>
    ensures puts { Puts (K.state sink.old) (K.state sink.new) (flat_map spaced (key.now ∷ codes "row" ∷ number_text number ∷ at_told plan.now drawn.now at)) result }
{
    let place = place_at(drawn, at);
    put_words(
        plan,
        &[Piece::Key(key), Piece::Key(b"row"), Piece::Count(number)],
        Told::One(place),
        sink,
    )
}

// Puts the end of a range that no times attain.
fn put_narrow<K: Sink>(
    plan: &Plan,
    drawn: &DrawnNetwork,
    at: DrawnAt,
    side: Side,
    weight: i64,
    only: i64,
    sink: &mut K,
) -> Result<(), PutFailed>
    ensures puts { Puts (K.state sink.old) (K.state sink.new)
        (flat_map spaced (narrow_words plan.now drawn.now at side weight only)) result }
{
    let place = place_at(drawn, at);
    match side {
        Side::Upper => put_words(
            plan,
            &[
                Piece::Key(b"narrow"),
                Piece::Place(place),
                Piece::Key(b"high"),
                Piece::Time(weight),
                Piece::Key(b"only"),
                Piece::Time(only),
            ],
            Told::One(place),
            sink,
        ),
        Side::Lower => put_words(
            plan,
            &[
                Piece::Key(b"narrow"),
                Piece::Place(place),
                Piece::Key(b"low"),
                Piece::Minus(weight),
                Piece::Key(b"only"),
                Piece::Minus(only),
            ],
            Told::One(place),
            sink,
        ),
    }
}

// A place in a drawn network, with the name of its part.
fn place_at<'a>(drawn: &'a DrawnNetwork, at: DrawnAt) -> PartPlace<'a>
    ensures part { result.part.now ≡ event_part drawn.now at.event }
    ensures origin { result.origin ≡ at.origin }
{
    PartPlace {
        part: event_part(drawn, at.event),
        origin: at.origin,
    }
}

// ---- warnings of the drawing

// Puts a space and a word for each word of a warning.
fn put_warning<K: Sink>(
    plan: &Plan,
    design: &Design<'_>,
    warning: &Warning,
    sink: &mut K,
) -> Result<(), PutFailed>
    ensures puts { Puts (K.state sink.old) (K.state sink.new) (flat_map spaced (warning_words plan.now design.now warning.now)) result }
{
    let key = warning.word.text();
    match &warning.about {
        About::Nothing => put_pieces(&[Piece::Key(key)], sink),
        About::Place(spot) => put_spot(plan, design, key, spot, sink),
        About::Mark(mark) => put_pieces(&[Piece::Key(key), mark_piece(design, *mark)], sink),
        About::Two(first, other) => put_pair(plan, design, key, first, other, sink),
        About::Follows { mark, by } => put_follows(plan, design, key, *mark, by, sink),
        About::Driven { mark, by, edge } => {
            put_driven(plan, design, key, *mark, *by, *edge, sink)
        }
        About::Drivers { mark, first, other } => {
            put_drivers(plan, design, key, *mark, *first, *other, sink)
        }
        About::SheetKey { part, key: near } => put_sheet_key(design, key, *part, *near, sink),
        About::NetlistKey(stray) => put_netlist_key(plan, design, *stray, sink),
        About::Net(net) => put_net(plan, key, *net, sink),
        About::Count { part, count } => put_count(design, key, *part, *count, sink),
    }
}

// Puts a word, a place, and what the place is known by.
fn put_spot<'a, K: Sink>(
    plan: &Plan,
    design: &'a Design<'_>,
    key: &'a [u8],
    spot: &DrawnPlace,
    sink: &mut K,
) -> Result<(), PutFailed>
    ensures puts { Puts (K.state sink.old) (K.state sink.new) (flat_map spaced (spot_words plan.now design.now key.now spot.now)) result }
{
    let place = place_of(design, spot);
    put_words(
        plan,
        &[Piece::Key(key), Piece::Place(place)],
        Told::One(place),
        sink,
    )
}

// Puts a word, two places, and what they are known by.
fn put_pair<'a, K: Sink>(
    plan: &Plan,
    design: &'a Design<'_>,
    key: &'a [u8],
    first: &DrawnPlace,
    other: &DrawnPlace,
    sink: &mut K,
) -> Result<(), PutFailed>
    ensures puts { Puts (K.state sink.old) (K.state sink.new) (flat_map spaced (pair_words plan.now design.now key.now first.now other.now)) result }
{
    let first = place_of(design, first);
    let other = place_of(design, other);
    put_words(
        plan,
        &[Piece::Key(key), Piece::Place(first), Piece::Place(other)],
        Told::Two(first, other),
        sink,
    )
}

// Puts a word, a mark that follows something, and the place of what it follows.
fn put_follows<'a, K: Sink>(
    plan: &Plan,
    design: &'a Design<'_>,
    key: &'a [u8],
    mark: DesignMark,
    by: &DrawnPlace,
    sink: &mut K,
) -> Result<(), PutFailed>
    ensures puts { Puts (K.state sink.old) (K.state sink.new)
        (flat_map spaced (key.now ∷ mark_word design.now mark ∷ spot_word design.now by.now ∷ spot_told plan.now design.now by.now)) result }
{
    let place = place_of(design, by);
    put_words(
        plan,
        &[
            Piece::Key(key),
            mark_piece(design, mark),
            Piece::Place(place),
        ],
        Told::One(place),
        sink,
    )
}

// A place in a design, with the name of its part.
fn place_of<'a>(design: &'a Design<'_>, spot: &DrawnPlace) -> PartPlace<'a>
    ensures part { result.part.now ≡ part_word design.now spot.now.part }
    ensures origin { result.origin ≡ spot.now.origin }
{
    PartPlace {
        part: part_word(design, u64::from(spot.part)),
        origin: spot.origin,
    }
}

// Puts a mark that follows two drivers, through the pins.
fn put_drivers<'a, K: Sink>(
    plan: &Plan,
    design: &'a Design<'_>,
    key: &'a [u8],
    mark: DesignMark,
    first: Origin,
    other: Origin,
    sink: &mut K,
) -> Result<(), PutFailed>
    ensures puts { Puts (K.state sink.old) (K.state sink.new) (flat_map spaced (drivers_words plan.now design.now key.now mark first other)) result }
{
    put_words(
        plan,
        &[
            Piece::Key(key),
            mark_piece(design, mark),
            Piece::Drawn(first),
            Piece::Drawn(other),
        ],
        Told::Two(beside(design, mark, first), beside(design, mark, other)),
        sink,
    )
}

// Puts a word, a mark that follows something, what draws that, and an edge of the sheet of the mark.
fn put_driven<'a, K: Sink>(
    plan: &Plan,
    design: &'a Design<'_>,
    key: &'a [u8],
    mark: DesignMark,
    by: Origin,
    edge: Origin,
    sink: &mut K,
) -> Result<(), PutFailed>
    ensures puts { Puts (K.state sink.old) (K.state sink.new) (flat_map spaced (driven_words plan.now design.now key.now mark by edge)) result }
{
    put_words(
        plan,
        &[
            Piece::Key(key),
            mark_piece(design, mark),
            Piece::Drawn(by),
            Piece::Drawn(edge),
        ],
        Told::One(beside(design, mark, edge)),
        sink,
    )
}

// The piece of a mark.
fn mark_piece<'a>(design: &'a Design<'_>, mark: DesignMark) -> Piece<'a>
    ensures piece { piece_word result ≡ mark_word design.now mark }
{
    let part = part_word(design, u64::from(mark.part));
    Piece::Mark(part, mark_name(design, mark))
}

// What draws something of the part of a mark.
fn beside<'a>(design: &'a Design<'_>, mark: DesignMark, origin: Origin) -> PartPlace<'a>
    ensures part { result.part.now ≡ part_word design.now mark.part }
    ensures origin { result.origin ≡ origin }
{
    PartPlace {
        part: part_word(design, u64::from(mark.part)),
        origin,
    }
}

// Puts a word, and a near key of the sheet of a part.
fn put_sheet_key<'a, K: Sink>(
    design: &'a Design<'_>,
    key: &'a [u8],
    part: u32,
    near: u64,
    sink: &mut K,
) -> Result<(), PutFailed>
    ensures puts { Puts (K.state sink.old) (K.state sink.new)
        (flat_map spaced (key.now ∷ part_word design.now part ∷ sheet_key_word design.now part near ∷ [])) result }
{
    let name = part_word(design, u64::from(part)).as_bytes();
    let near = sheet_key_word(design, part, near).as_bytes();
    put_pieces(&[Piece::Key(key), Piece::Key(name), Piece::Key(near)], sink)
}

// Puts a word, a part, and how many things its sheet has.
fn put_count<'a, K: Sink>(
    design: &'a Design<'_>,
    key: &'a [u8],
    part: u32,
    count: u64,
    sink: &mut K,
) -> Result<(), PutFailed>
    ensures puts { Puts (K.state sink.old) (K.state sink.new)
        (flat_map spaced (key.now ∷ part_word design.now part ∷ number_text count ∷ [])) result }
{
    let name = part_word(design, u64::from(part)).as_bytes();
    put_pieces(
        &[Piece::Key(key), Piece::Key(name), Piece::Count(count)],
        sink,
    )
}

// ---- the netlist

// Puts a key of the netlist that is not known.
fn put_netlist_key<K: Sink>(
    plan: &Plan,
    design: &Design<'_>,
    key: u64,
    sink: &mut K,
) -> Result<(), PutFailed>
    ensures puts { Puts (K.state sink.old) (K.state sink.new)
        (flat_map spaced (netlist_key_words plan.now design.now (slice_get plan.now.netlist.stray key))) result }
{
    match stray_key(plan, key) {
        Some(stray) => put_stray(plan, design, stray, sink),
        None => sink.put(b" key"),
    }
}

fn put_stray<'a, K: Sink>(
    plan: &Plan,
    design: &'a Design<'_>,
    stray: &'a StrayKey,
    sink: &mut K,
) -> Result<(), PutFailed>
    ensures puts { Puts (K.state sink.old) (K.state sink.new)
        (flat_map spaced (stray_words plan.now design.now stray.now.place stray.now.key)) result }
{
    let key = stray.key.as_text().as_bytes();
    match stray.place {
        KeyPlace::Netlist => put_pieces(&[Piece::Key(b"key"), Piece::Printed(key)], sink),
        KeyPlace::Part(part) => put_part_key(design, part, key, sink),
        KeyPlace::Net(net) => put_words(
            plan,
            &[
                Piece::Key(b"key"),
                Piece::Key(b"net"),
                Piece::Count(net),
                Piece::Printed(key),
            ],
            Told::One(net_place(net)),
            sink,
        ),
    }
}

// Puts a key of a part of the netlist that is not known.
fn put_part_key<'a, K: Sink>(
    design: &'a Design<'_>,
    part: u64,
    key: &'a [u8],
    sink: &mut K,
) -> Result<(), PutFailed>
    ensures puts { Puts (K.state sink.old) (K.state sink.new)
        (flat_map spaced (codes "key" ∷ codes "part" ∷ number_text part ∷ filter is_printed_byte key.now ∷ part_word design.now part ∷ [])) result }
{
    let name = part_word(design, part).as_bytes();
    put_pieces(
        &[
            Piece::Key(b"key"),
            Piece::Key(b"part"),
            Piece::Count(part),
            Piece::Printed(key),
            Piece::Key(name),
        ],
        sink,
    )
}

// Puts a word and a net.
fn put_net<K: Sink>(plan: &Plan, key: &[u8], net: u64, sink: &mut K) -> Result<(), PutFailed>
    ensures puts { Puts (K.state sink.old) (K.state sink.new)
        (flat_map spaced (key.now ∷ codes "net" ∷ number_text net ∷ net_told plan.now net)) result }
{
    put_words(
        plan,
        &[Piece::Key(key), Piece::Key(b"net"), Piece::Count(net)],
        Told::One(net_place(net)),
        sink,
    )
}

// A net is known by what its pins are known by.
fn net_place(net: u64) -> PartPlace<'static>
    ensures part { result.part.now ≡ [] }
    ensures origin { result.origin ≡ Origin.Pin net 0 }
{
    PartPlace {
        part: "",
        origin: Origin::Pin { net, pin: 0 },
    }
}
