//! Changes on small plans, with what the rules of changes say of each.

mod cases;
mod given;
mod limits;
mod made;
mod performed;
mod refused;
mod seen;
mod undone;
