//! The closure of the always-edges.

ghost use Rattle.std.specs.Prelude.{◌≡◌, ◌<◌, ◌≤◌, ℤ, List, length, IfErr, IfOk, OnOk};
ghost use Rattle.itv_base.specs.declared.limits.TheConstants.{MAX_MATRIX_EVENTS};
ghost use Rattle.event_graph.specs.RootBound.{MeetsAlways};
ghost use Rattle.minplus.specs.Matrix.{AreRootBounds, IsMatrixFault};

use crate::closing::close;
use crate::edges::first_rows;
use crate::fault::MatrixFault;
use crate::matrix_row::{MatrixRow, entry};
use crate::rows::ABSENT;
use event_graph::Network;
use itv_base::{EventId, MAX_MATRIX_EVENTS};
use std::alloc::Global;
use std::marker::Model;

/// A number, or nothing, for each pair of events. Contracts see the list of its rows.
#[derive(Drop)]
pub struct Matrix {
    rows: Vec<MatrixRow>,
}

impl Model for Matrix {
    ghost use Rattle.std.specs.Prelude.{List, ℤ};

    ghost Value = { List (List ℤ) };

    ghost view = { λ matrix. matrix.rows.items };
}

impl Matrix {
    ghost use Rattle.std.specs.Prelude.{[], slice_index_or};
    ghost use Rattle.minplus.specs.Matrix.{entry_of};

    /// The number of a pair of events, in picoseconds, or none. The matrix must have both events.
    pub fn at(&self, from: EventId, to: EventId) -> Option<i64>
        requires from { from.0 < length self.now }
        requires to { to.0 < length (slice_index_or self.now from.0 []) }
        ensures entry { result ≡ entry_of self.now from to }
    {
        let number = entry(&self.rows, from.0 as usize, to.0 as usize);
        if number < ABSENT { Some(number) } else { None }
    }
}

/// The root bounds of all pairs of events of a network, in picoseconds: for each pair the greatest separation among all
/// times that meet the always-edges, or none where it is unbounded. The answer is `TooMany` with the number of events
/// if and only if there are more than [`MAX_MATRIX_EVENTS`]; then no memory is taken. Otherwise it is `Loop` if and
/// only if no times meet the always-edges, if there is memory for a number for each pair.
pub fn closure(alloc: Global, net: &Network) -> Result<Matrix, MatrixFault>
    ensures matrix { IfOk result (AreRootBounds net.now) }
    ensures few { OnOk result (net.now.events ≤ MAX_MATRIX_EVENTS) }
    ensures times { OnOk result ((times : List ℤ) × MeetsAlways times net.now) }
    ensures fault { IfErr result (IsMatrixFault net.now) }
{
    let events = net.events();
    if events > MAX_MATRIX_EVENTS {
        return Err(MatrixFault::TooMany(events));
    }
    let mut rows = first_rows(alloc, net)?;
    let mut through = vec![in alloc; ABSENT; events as usize]?;
    close(net, &mut rows, &mut through)?;
    Ok(Matrix { rows })
}
