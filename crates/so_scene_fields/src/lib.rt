//! What a scene's file may hold.
//!
//! Two tables say which fields each kind of object has, and which items each kind of act. What a value stands for, or what is
//! wrong with it, is said apart from where it stands. A walk takes a pass along the objects and fields of a file, in the order
//! of the table.
#![tactic(auto)]

pub mod act_table;
pub mod acts;
pub mod table;
pub mod values;
pub mod walk;
