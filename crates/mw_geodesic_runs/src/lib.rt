//! The search for the components of a set by its runs (He, Chao and Suzuki 2008) and union-find (Tarjan 1975; halving of
//! paths, van Leeuwen and van der Weide 1977): the runs, the number of the component of each, and how many there are.
//! `mw_geodesic_labels` and `mw_geodesic_kept` make labels, regions and sets of them.
//!
//! ```text
//! let Spans { spans, starts, numbers, count } = spans_of(alloc, set.words(), Neighbours::Eight)?;
//! ```
//!
//! A set has fewer than 65,536 columns and 2^32 places, as all of a session have. A run takes 4 bytes as a span, which does not
//! tell its row, and its number in the forest 4. The runs are counted before memory is asked for, so that there is memory for no
//! more. A row has at most one run for two pixels, and one more where its columns are odd: so spans and numbers take no more than
//! 4 bytes a pixel, and as many bytes more a row of odd width. It is so much on a checkerboard, and mostly far less. Beside spans
//! two rows of runs are held, of 8 bytes each, and 4 bytes for each row.
#![tactic(auto)]

mod changes;
mod forest;
mod neighbours;
mod numbering;
mod runs;
mod scanning;
mod spans;
mod uniting;

pub use mw_geodesic::Neighbours;
pub use mw_model::NoMemory;
pub use runs::Run;
pub use scanning::next_place;
pub use spans::{Span, Spans, spans_of};
