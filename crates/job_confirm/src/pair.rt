//! The pair of a bound.

ghost use Rattle.std.specs.Prelude.{◌≡◌};
ghost use Rattle.drawn_networks.specs.Drawn.{IsRowOf};
ghost use Rattle.event_graph.specs.Network.{Net};
ghost use Rattle.job_confirm.specs.Step.{IsPairOf, pair_of};

use drawn_networks::Row;
use event_graph::Pair;
use slack_report::Which;

/// The pair of a bound of a row: for a least bound the reversed pair.
pub fn pair_of(which: Which, row: &Row) -> Pair
    ensures pair { result ≡ pair_of which row.now }
    ensures within { (net : Net) → IsRowOf net row.now → IsPairOf net result }
{
    let Row { from, to, .. } = *row;
    match which {
        Which::Max => Pair { from, to },
        Which::Min => Pair { from: to, to: from },
    }
}
