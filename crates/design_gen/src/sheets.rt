//! The sheets of the generated design.

ghost use Rattle.std.specs.Prelude.{◌≡◌, ◌∷◌, [], IfOk, codes};
ghost use Rattle.serde_json.specs.View.{view};
ghost use Rattle.design_gen.specs.Trees.{clock_lane, lane, list, master, merge, slave};

use serde_json::{Value, json};
use std::alloc::{AllocError, Global};

/// The sheet of the master, which asks.
pub fn master(alloc: Global) -> Result<Value, AllocError>
    ensures tree { IfOk result (λ tree. view tree ≡ master) }
{
    let clock = clock_lane(alloc)?;
    let request = lane(alloc, "req", "01", ".r")?;
    json!(in alloc; {
        "signal": [clock, request],
        "edge": ["c->c @lin+1 [100000,100000]", "c->r @lin [1000,8000]"]
    })
}

/// The sheet of each slave, which answers.
pub fn slave(alloc: Global) -> Result<Value, AllocError>
    ensures tree { IfOk result (λ tree. view tree ≡ slave) }
{
    let lanes = slave_lanes(alloc)?;
    json!(in alloc; {
        "signal": lanes,
        "edge": ["q->a @late [2000,9000]", "c->a @late [3000,7000]", "c->a @ask"]
    })
}

// The lanes of a slave, as a tree.
fn slave_lanes(alloc: Global) -> Result<Value, AllocError>
    ensures { IfOk result (λ tree. view tree
        ≡ list (clock_lane ∷ lane (codes "req") (codes "01") (codes ".q") ∷ lane (codes "ack") (codes "01") (codes ".a") ∷ [])) }
{
    let clock = clock_lane(alloc)?;
    let request = lane(alloc, "req", "01", ".q")?;
    let answer = lane(alloc, "ack", "01", ".a")?;
    json!(in alloc; [clock, request, answer])
}

/// The sheet of the part that waits for all answers.
pub fn merge(alloc: Global) -> Result<Value, AllocError>
    ensures tree { IfOk result (λ tree. view tree ≡ merge) }
{
    let clock = clock_lane(alloc)?;
    let done = lane(alloc, "done", "01", ".d")?;
    json!(in alloc; {
        "signal": [clock, done],
        "edge": ["d->c @req+1 [5000,*]"]
    })
}

fn clock_lane(alloc: Global) -> Result<Value, AllocError>
    ensures { IfOk result (λ tree. view tree ≡ clock_lane) }
{
    lane(alloc, "clk", "p", "c")
}

// A lane with a name, a wave and the marks on it.
fn lane(alloc: Global, name: &str, wave: &str, node: &str) -> Result<Value, AllocError>
    ensures { IfOk result (λ tree. view tree ≡ lane name.now wave.now node.now) }
{
    json!(in alloc; { "name": name, "wave": wave, "node": node })
}
