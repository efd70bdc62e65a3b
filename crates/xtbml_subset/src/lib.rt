//! The reader of a mortality table file: this product's profile of the Society of Actuaries' XTbML.
#![tactic(auto)]

mod any;
mod attribute;
mod class;
mod element;
mod fault;
mod finder;
mod found;
mod issue;
mod nesting;
mod passing;
mod path;
mod period;
mod reader;
mod row;
mod search;
mod select;
mod state;
mod table;
mod text;
mod token;
mod ultimate;
mod worked;

pub use fault::{TableFault, TableKind};
pub use reader::{read_any, read_table};
pub use worked::{
    a_select_table_by_hand, a_table_by_hand, refused_select_tables_by_hand, refused_tables_by_hand,
};
