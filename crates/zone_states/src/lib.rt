//! The shape of a zoned drive, the states of its zones, and one zone with its written blocks (Zoned Namespace Command
//! Set 1.1, section 2.1.1).
//!
//! # Example
//!
//! ```text
//! let geometry = Geometry { block: 512, zones: 4, size: 8, capacity: 6, transfer: 4, active: 2, open: 2 };
//! geometry.check()?;
//! let mut zone = Zone::new(alloc);
//! zone.append(&geometry, &[0xaa; 1024])?;
//! assert_eq!(zone.state(), ZoneState::ImplicitlyOpened);
//! assert_eq!(zone.blocks(&geometry), 2);
//! zone.apply(Action::Finish)?;
//! assert_eq!(zone.state(), ZoneState::Full);
//! ```
//!
//! # What is promised
//!
//! * `Geometry::check` names the first field out of range, and none exactly if all are in range
//!   (`specs/Geometry.antt`).
//! * `next_state` is the standard's table of states and actions (`specs/Transition.antt`).
//! * A Write or an Append is refused by the first check that fails, in a fixed order (`specs/Writing.antt`); else its
//!   blocks are after the zone's, which is Full where they reach its capacity (`specs/Zone.antt`). An action has the
//!   table's effect, or is refused. A refused call changes nothing.
//! * The limits on active and open zones concern all zones of a drive, and are not looked at here.
//!
//! Tests: the rows of `worked_runs`.
#![tactic(auto)]

mod geometry;
mod pieces;
mod refusal;
mod transition;
mod zone;

pub use geometry::{Geometry, GeometryFault};
pub use nvme_wire::{Action, Status, ZoneState};
pub use refusal::{append_refusal, write_refusal};
pub use transition::{is_active, is_open, next_state};
pub use zone::{Zone, ZoneFault, opened_by_write};
