//! How far each place of a set is from what is not in it, by city blocks, by the chessboard, and by the square of the straight
//! way. The contract is the definitions of `mw_geodesic`: how many erosions by the cross or the square a place outlives, and
//! the least of the squares.
//!
//! City blocks and the chessboard take two sweeps over the rows (Rosenfeld and Pfaltz, Sequential Operations in Digital Picture
//! Processing, 1966). The one from the top lowers each place to one more than those above it and to its left, the one from the
//! bottom to one more than those below it and to its right. Then none is over one more than any neighbour, since what the
//! second sweep lowers it leaves at most one under what is above and to the left. Each number that is neither 0 nor the top is
//! over that of some neighbour. Only the distance is so.
//!
//! The square of the straight way takes two sweeps within the columns. Then in each row a parabola stands at each column, on the
//! square of how far the column's nearest place outside is, and the lower envelope of the parabolas is drawn (Meijster,
//! Roerdink and Hesselink, A General Algorithm for Computing Distance Transforms in Linear Time, 2000; Felzenszwalb and
//! Huttenlocher, Distance Transforms of Sampled Functions, 2012). All numbers are integers, and none is rounded.
//!
//! ```text
//! let distances = distances_of(alloc, &set, Metric::Chessboard, 255)?;      // 0 outside the set, and at most 255
//! ```
//!
//! A number takes 4 bytes. Beside the result no more than one row of them is held for steps, and three for squares. All memory
//! is asked for before the work begins.
#![tactic(auto)]

mod beginning;
mod columns;
mod distances;
mod envelope;
mod frame;
mod metric;
mod neighbours;
mod parabolas;
mod rows;
mod steps;
mod sweeps;

pub use distances::distances_of;
pub use metric::Metric;
pub use mw_model::NoMemory;
