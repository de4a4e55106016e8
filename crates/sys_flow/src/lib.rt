//! Which object's inputs may reach which object of a configuration, the report of it, and its picture: a box for each object, and
//! an arrow for each edge by which its inputs may reach another.
#![tactic(auto)]

mod closing;
mod edges;
mod laws;
mod layout;
mod objects;
mod parts;
mod relation;
mod reporting;
mod seats;
mod whole;

pub use closing::reach;
pub use edges::edge;
pub use laws::drawing_laws;
pub use objects::{Place, count, name, object_at};
pub use relation::Reach;
pub use reporting::report;
pub use whole::drawing;
