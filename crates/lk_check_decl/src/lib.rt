//! The checker of types and faults, its layer of declarations and statements: the rules of
//! specifiers, declarators, members, enumerators, declared names, initialisers and statements
//! over values (C99 6.7, 6.8, 6.9).
//!
//! A rule takes the table of types, what is known of the structs, and types by their numbers, a
//! type missing where something that it needs is faulty. It answers the least code of those that
//! hold, or the type that is made.
#![tactic(auto)]

mod arrays;
mod breaches;
mod case_values;
mod completing;
mod composite;
mod declarators;
mod enumerators;
mod fields;
mod initialisers;
mod making;
mod members;
mod names;
mod statements;
mod storages;
mod storing;
mod switches;
mod words;
mod written;

pub use arrays::{ArraySize, MOST_ELEMENTS, array_code, array_count};
pub use case_values::CaseValues;
pub use completing::{completed, given_code};
pub use composite::composite_if_equal;
pub use declarators::{
    definition_code, function_code, parameter_code, parameter_name_code, pointer_code,
};
pub use enumerators::{next_code, next_value, written_code, written_value};
pub use fields::Fields;
pub use initialisers::{
    Braces, Seen, Target, entry_target, entry_type, expression_code, is_text_for, list_code,
    list_size, size_code, text_size,
};
pub use making::{adjusted, array_of, function_of, pointer_to};
pub use members::{has_bit_field, member_code, with_member};
pub use names::{NameUse, meaning_of, named_code, object_code, use_code, waits_for_end};
pub use statements::{condition_code, dropped_code, return_code, return_value_code, switch_code};
pub use storages::{
    defines_of, has_extern, has_static, has_typedef, linkage_of, may_have, may_lack_size,
    specifier_code,
};
pub use storing::stored_pointer;
pub use switches::{Switch, break_code, case_code, case_value, continue_code, default_code};
pub use words::{Given, Holder, Scope};
pub use written::{braces_of, text_of};
