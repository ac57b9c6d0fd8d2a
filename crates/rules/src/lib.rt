//! What a command changes, decided over rows: the rules of every command, and that they are the machine's.
#![tactic(auto)]

mod booking;
mod cancelling;
pub mod changes;
mod counts;
mod customer_orders;
mod deciding;
mod expiring;
mod goods;
mod holding;
pub mod laws;
mod least;
mod moves;
mod opening;
mod pick_seen;
mod picking;
pub mod posting;
mod returning;
mod setup;
pub mod shelf;
mod shipments;
mod urgent_orders;

pub use cancelling::{change_cancel, judge_cancel};
pub use counts::{change_adjust, change_count, judge_adjust, judge_count};
pub use customer_orders::{change_order, judge_order};
pub use deciding::decide;
pub use goods::{change_receive, judge_receive};
pub use holding::{
    change_hold, change_recall, change_release, judge_hold, judge_recall, judge_release,
};
pub use least::{change_least, judge_least};
pub use moves::{change_move, judge_move};
pub use opening::{change_day, judge_day};
pub use picking::{change_pick, change_unpick, judge_pick, judge_unpick};
pub use row_rules::{Change, Dropped, Put, Rows, RuleFault, Slice};
pub use setup::{change_bin, change_item, judge_bin, judge_item};
pub use shipments::{change_ship, judge_ship};
pub use urgent_orders::change_urgent;
