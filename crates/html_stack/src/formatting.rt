//! The list of active formatting elements at work (HTML Standard, sections 13.2.4.3 and 13.2.6.4.7).

pub(crate) mod adopting;
mod agency;
pub(crate) mod copies;
pub(crate) mod listing;
pub(crate) mod moves;
pub(crate) mod opening;
pub(crate) mod placing;
pub(crate) mod positions;
mod removal;
pub(crate) mod turns;
