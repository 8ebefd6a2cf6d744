//! Routes on a panel: why the lines of a request suffice for its least-cost paths, and what lawful routes keep clear of. There
//! is nothing to run here: each function's contract is a theorem.
#![tactic(auto)]

mod amounts;
mod cases;
mod clearance;
mod lines;
mod steps;

pub use amounts::{
    lines_suffice_for_maximum, lines_suffice_for_money, lines_suffice_for_vias_and_money,
};
pub use cases::worked_routes_hold;
pub use clearance::{
    clear_pieces_keep_clear, laid_pieces_keep_order, runs_keep_clear, vias_keep_clear,
    whole_runs_are_lawful,
};
pub use lines::{
    least_on_lines_is_least, lines_are_few, lines_lie_on_the_panel, lines_suffice,
    no_line_route_no_path, own_lines_are_enough,
};
pub use steps::{line_routes_are_unit_routes, routes_are_paths, straight_runs};
