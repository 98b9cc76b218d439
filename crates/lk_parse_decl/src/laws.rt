//! Laws of the definitions, as contracts of functions that do nothing.
ghost use Rattle.lk_parse_decl.specs.Exact.{InitialisersAreRead, OnlyInitialisersAreRead, DeclarationsAreRead, OnlyDeclarationsAreRead};

/// What the readers answer, by the grammar: an initialiser behind which nothing goes on with it, and a
/// declaration, is read where it is not too deep, and told to be too deep else; and what is read is one.
pub fn exact_declarations()
    ensures initialisers { InitialisersAreRead }
    ensures only_initialisers { OnlyInitialisersAreRead }
    ensures declarations { DeclarationsAreRead }
    ensures only_declarations { OnlyDeclarationsAreRead }
{}
