//! The types of C: their table, their nodes, and when two of them count as one.
#![tactic(auto)]

mod c_type;
mod equal;
mod facts;
mod forms;
mod laws;
mod member;
mod node;
mod predeclared;
mod size;
mod table;
mod type_id;
mod type_ids;
mod walk;

pub use c_type::CType;
pub use laws::{
    equal_nodes_have_equal_ids, longer_is_transitive, no_path_stands_twice, older_walks_stay,
    pointers_have_room, pointers_to_pointers_have_room, predeclared_types_stay, sizes_are_of_parts,
    walks_are_of_parts,
};
pub use member::StructMember;
pub use node::{Base, NodeId, Sel};
pub use size::{MOST_TABLE_NODES, MOST_TABLE_STEPS, TypeSize};
pub use table::TypeTable;
pub use type_id::TypeId;
pub use type_ids::TypeIds;
