//! The netlist of the generated design.

ghost use Rattle.std.specs.Prelude.{◌≡◌, ◌++◌, IfOk, OnOk, map, string_bytes};
ghost use Rattle.serde_json.specs.Data.{string};
ghost use Rattle.serde_json.specs.View.{view};
ghost use Rattle.design_gen.specs.Trees.{bus, clock_pins, list, net, netlist, nets, part, parts, request_pins, slave_name, slave_part, slave_texts, wires};

use serde_json::{Map, Value, json, put};
use std::alloc::{AllocError, Global};

/// The netlist of a master, n slaves and a part that waits for their answers.
pub fn bus(alloc: Global, n: u32) -> Result<Value, AllocError>
    ensures tree { IfOk result (λ tree. view tree ≡ bus n) }
{
    let parts = listed(parts(alloc, n)?);
    let nets = nets(alloc, n)?;
    let edges = listed(wires(alloc, n)?);
    netlist(alloc, parts, nets, edges)
}

// A netlist of two cycles.
fn netlist(alloc: Global, parts: Value, nets: Value, edges: Value) -> Result<Value, AllocError>
    ensures { IfOk result (λ tree. view tree ≡ netlist (view parts) (view nets) (view edges)) }
{
    let mut members = Map::new(alloc);
    put(&mut members, alloc, "itv", Value::from(1u32))?;
    put(&mut members, alloc, "cycles", Value::from(2u32))?;
    put(&mut members, alloc, "parts", parts)?;
    put(&mut members, alloc, "nets", nets)?;
    put(&mut members, alloc, "edges", edges)?;
    Ok(Value::Object(members))
}

fn parts(alloc: Global, n: u32) -> Result<Vec<Value>, AllocError>
    ensures { IfOk result (λ made. map view made.items ≡ parts n) }
{
    let mut list = Vec::new(alloc);
    list.push(part(alloc, "M", "master.json")?)?;
    for slave in 0..n {
        list.push(slave_part(alloc, slave)?)?;
    }
    list.push(part(alloc, "Z", "merge.json")?)?;
    Ok(list)
}

fn slave_part(alloc: Global, slave: u32) -> Result<Value, AllocError>
    ensures { IfOk result (λ tree. view tree ≡ slave_part slave) }
{
    let name = slave_text(alloc, slave, "")?;
    part(alloc, name.as_str(), "slave.json")
}

fn part(alloc: Global, name: &str, sheet: &str) -> Result<Value, AllocError>
    ensures { IfOk result (λ tree. view tree ≡ part name.now sheet.now) }
{
    json!(in alloc; { "name": name, "sheet": sheet })
}

fn nets(alloc: Global, n: u32) -> Result<Value, AllocError>
    ensures { IfOk result (λ tree. view tree ≡ list (nets n)) }
{
    let clocks = net(alloc, clock_pins(alloc, n)?, 100, 300)?;
    let requests = net(alloc, request_pins(alloc, n)?, 100, 400)?;
    json!(in alloc; [clocks, requests])
}

// A net over pins, with the ends of its delay in picoseconds.
fn net(alloc: Global, pins: Vec<Value>, low: u32, high: u32) -> Result<Value, AllocError>
    ensures { IfOk result (λ tree. view tree ≡ net (map view pins.items) low high) }
{
    let pins = Value::Array(pins);
    json!(in alloc; { "pins": pins, "delay": [low, high] })
}

fn clock_pins(alloc: Global, n: u32) -> Result<Vec<Value>, AllocError>
    ensures { IfOk result (λ pins. map view pins.items ≡ clock_pins n) }
{
    let mut pins = Vec::new(alloc);
    pins.push(text(alloc, "M.clk")?)?;
    push_slave_texts(alloc, &mut pins, n, ".clk")?;
    pins.push(text(alloc, "Z.clk")?)?;
    Ok(pins)
}

fn request_pins(alloc: Global, n: u32) -> Result<Vec<Value>, AllocError>
    ensures { IfOk result (λ pins. map view pins.items ≡ request_pins n) }
{
    let mut pins = Vec::new(alloc);
    pins.push(text(alloc, "M.req")?)?;
    push_slave_texts(alloc, &mut pins, n, ".req")?;
    Ok(pins)
}

fn wires(alloc: Global, n: u32) -> Result<Vec<Value>, AllocError>
    ensures { IfOk result (λ edges. map view edges.items ≡ wires n) }
{
    let mut edges = Vec::new(alloc);
    push_slave_texts(alloc, &mut edges, n, ".a Z.d @late [0,1000]")?;
    Ok(edges)
}

// Appends a text that begins with the name of a slave, for each of n slaves.
fn push_slave_texts(
    alloc: Global,
    list: &mut Vec<Value>,
    n: u32,
    end: &str,
) -> Result<(), AllocError>
    ensures { OnOk result (map view list.new.items
        ≡ map view list.old.items ++ slave_texts n end.now) }
{
    for slave in 0..n {
        list.push(slave_tree(alloc, slave, end)?)?;
    }
    Ok(())
}

// A text that begins with the name of a slave, as a tree.
fn slave_tree(alloc: Global, slave: u32, end: &str) -> Result<Value, AllocError>
    ensures { IfOk result (λ tree. view tree ≡ string (slave_name slave ++ end.now)) }
{
    Ok(Value::String(slave_text(alloc, slave, end)?))
}

// A text that begins with the name of a slave.
fn slave_text(alloc: Global, slave: u32, end: &str) -> Result<String, AllocError>
    ensures { IfOk result (λ text. string_bytes text ≡ slave_name slave ++ end.now) }
{
    format!(in alloc; "S{slave}{end}")
}

// A list of trees, as a tree.
fn listed(trees: Vec<Value>) -> Value
    ensures { view result ≡ list (map view trees.items) }
{
    Value::Array(trees)
}

// A text, as a tree.
fn text(alloc: Global, text: &str) -> Result<Value, AllocError>
    ensures { IfOk result (λ tree. view tree ≡ string text.now) }
{
    Value::try_from_str(alloc, text)
}
