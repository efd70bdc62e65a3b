//! Requests for memory, and the evidence of one that was refused.
//!
//! `NoMemory` is made here and nowhere else: by a call that asked for memory and was refused it. What a call asks for is
//! bounded: it is at most 4 GiB, or at most some times what the caller holds already. So whoever has a `NoMemory` was
//! refused memory that he may ask for.
#![tactic(auto)]

mod boxes;
mod caches;
mod evidence;
mod lists;
mod maps;
mod rings;
mod rows;
mod tables;
mod words;

pub use boxes::{boxed, text_of};
pub use caches::sparse_cache;
pub use evidence::NoMemory;
pub use lists::{
    NotPushed, append, copied, extend, filled, push, push_first, reserve, reserve_exact, with_room,
};
pub use maps::{insert, map_with_room, reserve_keys};
pub use rings::{ring_ends, ruled_ring_ends};
pub use rows::{next_row, row_with_room, rows_of};
pub use tables::{NoTable, table_of};
pub use words::{NoMatches, matches_of, with_arg};
