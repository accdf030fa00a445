// What a track's times come to by counting and adding alone: how many cells an interval has, how it weighs, how far off
// intervals and index times are, the median of index times, and the parts that a turn is cut into. No tape, and nothing
// that is fitted.
#![tactic(auto)]

mod cells;
mod index;
mod parts;

pub use cells::{
    Weighed, count_cells, count_off, is_off, nearest_cells, pulling_cells, pulling_squares, weigh,
};
pub use index::{TURN, index_squares, is_apart, median};
pub use parts::{PART, Part, part_at, part_count};
