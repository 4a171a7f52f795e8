// Finding a component at a path. One pass over the message reads all of it, and follows the path on the way.
#![tactic(auto)]

pub mod closing;
pub mod following;
pub mod opening;
pub mod passing;
pub mod places;
pub mod spot;
