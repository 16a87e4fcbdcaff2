//! The domains that come with the solver, under one book, with all their boxes.
#![tactic(auto)]

mod book;
mod closures;
mod domains;
mod making;
mod parted;
mod rules;

pub use book::{Shipped, shipped_key, shipped_test, shipped_weight};
pub use closures::{Closures, ShippedKey, ShippedTest, ShippedWeigh};
pub use making::{Act, with_shipped_domains};
pub use plan_rules::{KeyBody, Row, TestBody, WeighBody};
pub use rules::shipped_rules_of;
