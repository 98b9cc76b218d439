//! Laws of the definitions, as contracts of functions that do nothing.
ghost use Rattle.lk_parse_expr.specs.Exact.{ExprsAreRead, OnlyExprsAreRead, TypeNamesAreRead, OnlyTypeNamesAreRead, DeclaratorsAreRead, OnlyDeclaratorsAreRead};

/// What the readers answer, by the grammar: a tree of their form behind which nothing goes on with it is read
/// where it is not too deep, and told to be too deep else; and what is read is such a tree.
pub fn exact_readers()
    ensures exprs { ExprsAreRead }
    ensures only_exprs { OnlyExprsAreRead }
    ensures type_names { TypeNamesAreRead }
    ensures only_type_names { OnlyTypeNamesAreRead }
    ensures declarators { DeclaratorsAreRead }
    ensures only_declarators { OnlyDeclaratorsAreRead }
{}
