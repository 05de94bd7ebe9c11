//! Drawn networks. The reading of a design ends with one, and each job starts from one: a network, the origins of its causes, the
//! names of its events, and the rows that are asked for between them. The contract: `name` gives each event the name by which
//! reports and drawings know it. `origins` gives each constraint an origin for each of its causes. Rows are between events, within
//! their limit.
#![tactic(auto)]

mod drawn_network;
mod event_label;
mod origins;
mod row;

pub use drawn_network::DrawnNetwork;
pub use event_label::EventLabel;
pub use origins::Origins;
pub use row::{Row, Rows};
