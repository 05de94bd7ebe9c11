//! The drawn network.

ghost use Rattle.std.specs.Prelude.{◌≡◌, ◌<◌, ◌≤◌, All, length};
ghost use Rattle.itv_base.specs.Names.{name_view};
ghost use Rattle.itv_base.specs.declared.limits.TheConstants.{MAX_ROWS};
ghost use Rattle.drawn_networks.specs.Drawn.{IsRowOf, OriginsFit, name_of};
ghost use Rattle.drawn_networks.specs.Kept.{IsDrawn, drawn_by};

use crate::event_label::EventLabel;
use crate::origins::Origins;
use crate::row::Rows;
use event_graph::Network;
use itv_base::{EventId, EventName, Texts};
use std::marker::Model;

/// A drawn network: a network, the origins of the causes of its constraints, the names of its events, and the rows that are asked
/// for between them.
#[derive(Drop)]
pub struct DrawnNetwork {
    network: Network,
    origins: Origins,
    parts: Texts,
    labels: Vec<EventLabel>,
    rows: Rows,
}

impl Model for DrawnNetwork {
    ghost use Rattle.drawn_networks.specs.Drawn.{Drawn};
    ghost use Rattle.drawn_networks.specs.Kept.{IsDrawn, drawn_by};

    ghost Value = { Drawn };

    ghost view = { λ d. drawn_by d.network d.origins d.parts d.labels.items d.rows };

    ghost invariant = { λ d. IsDrawn d.network d.origins d.parts d.labels.items d.rows };
}

impl DrawnNetwork {
    /// The network with these origins of causes, these names of parts, a label for each event, and these rows.
    pub fn of(
        network: Network,
        origins: Origins,
        parts: Texts,
        labels: Vec<EventLabel>,
        rows: Rows,
    ) -> DrawnNetwork
        requires { IsDrawn network origins parts labels.items rows }
        ensures drawn { result ≡ drawn_by network origins parts labels.items rows }
    {
        DrawnNetwork {
            network,
            origins,
            parts,
            labels,
            rows,
        }
    }

    /// The network.
    pub fn network(&self) -> &Network
        ensures network { result.now ≡ self.now.net }
        ensures names { length self.now.names ≡ result.now.events }
    {
        &self.network
    }

    /// The origins of the causes: a list for each constraint of the network, with an origin for each cause.
    pub fn origins(&self) -> &Origins
        ensures origins { result.now ≡ self.now.origins }
        ensures fit { OriginsFit self.now.net result.now }
    {
        &self.origins
    }

    /// The rows in order. Each is between events of the network, and they are within the limit of a report.
    pub fn rows(&self) -> &Rows
        ensures rows { result.now ≡ self.now.rows }
        ensures within { All (IsRowOf self.now.net) result.now }
        ensures few { length result.now ≤ MAX_ROWS }
    {
        &self.rows
    }

    /// The name of an event of the network.
    pub fn name(&self, event: EventId) -> EventName<'_>
        requires { event.0 < self.now.net.events }
        ensures name { name_view result ≡ name_of self.now event }
    {
        let label = self.labels[event.0 as usize];
        EventName {
            part: self.parts.get(u64::from(label.part)).as_text(),
            mark: label.mark,
            cycle: label.cycle,
        }
    }
}
