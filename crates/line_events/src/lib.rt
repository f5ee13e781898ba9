//! Line events: what happens on the lines of a gateway, which notes it raises, and which signals it stops
//! (ITU-T H.248.1 v1 / RFC 3525, 7.1.9 and 7.1.11, Annex E.6, E.7 and E.9). Each call on a `LineSet` changes the row of
//! the line that it names as the definition says, and no other row; on any fault nothing changes.
#![tactic(auto)]

mod collecting;
mod fault;
mod happening;
mod item;
mod lines;
mod list;
mod note;
mod raising;
mod row;
mod rows;
mod signals;

pub use fault::LineFault;
pub use item::ListItem;
pub use lines::LineSet;
pub use list::EventList;
pub use note::Note;
pub use row::LineRow;
