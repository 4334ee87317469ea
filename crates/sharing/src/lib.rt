// Who can come to have which right to what, worked out for a whole graph at once.
#![tactic(auto)]

mod sharing;
mod table;

pub use sharing::Sharing;
