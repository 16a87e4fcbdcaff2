//! Facts: lists and texts, the schema of a domain, the plan of a problem, and numbered names.
#![tactic(auto)]

mod check;
mod fault;
mod list;
mod listed;
mod memory;
mod names;
mod names_of_class;
mod plan;
mod record;
mod schema;
mod table;
mod text;

pub use check::{FACT_LIMIT, FIELD_LIMIT, ID_LIMIT};
pub use fault::PlanFault;
pub use list::List;
pub use memory::Memory;
pub use names::Names;
pub use names_of_class::is_name;
pub use plan::Plan;
pub use plan::putting::Removal;
pub use record::{
    ClassDef, FieldDef, Kind, Raw, Rec, Value, VarDef, copy_planned, same_numbers, same_planned,
};
pub use schema::{Schema, SchemaFault};
pub use text::Text;
