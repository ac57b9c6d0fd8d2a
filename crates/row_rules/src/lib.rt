//! What rows tell: look-ups, sums and balances over the rows of a slice, the plan that they give, and
//! the parts that changes have in common.
#![tactic(auto)]

pub mod cards;
pub mod change_parts;
pub mod demands;
pub mod first_refusal;
pub mod goods_seen;
pub mod having;
pub mod in_order;
pub mod indexed;
pub mod list_parts;
pub mod loops;
pub mod lots;
pub mod open_lines;
pub mod orders_seen;
mod plan_difference;
pub mod plans;
pub mod replanning;
pub mod row_index;
pub mod row_search;
pub mod rows_by_key;
pub mod same;
mod slice;
mod sorted_rows;
pub mod stages;
pub mod status;
pub mod stock;
pub mod supplies;

pub use slice::{Change, Dropped, Put, Rows, RuleFault, Slice};
