//! Laws of the numbers of nodes, and of their environments.
ghost use Rattle.lk_nodes.specs.Laws.{NodesAreToldApart, ExpressionsAreToldApart, TypeNamesAreToldApart, DeclaratorsAreToldApart, StatementsAreToldApart, InitialisersAreToldApart, ValuesAreToldApart, ListsAreToldApart, NamesAreThoseOfDeclarators, NamesAreToldApart, DeclaredNamesHaveTypes, DefinedNamesHaveTypes, PartsAreOfOneNode, PartsAreToldApart, ExternalsAreToldApart, NumbersRiseInside, PartsHaveGreaterNumbers, NumbersAreBounded, OutsideStays, KnownStructsStay, SourcesAreSettled};

/// Two nodes of one kind with one number are one, in one environment.
pub fn nodes_are_told_apart()
    ensures { NodesAreToldApart }
{}

/// Two expressions with one number are one, in one environment.
pub fn expressions_are_told_apart()
    ensures { ExpressionsAreToldApart }
{}

/// Two type names with one number are one, in one environment.
pub fn type_names_are_told_apart()
    ensures { TypeNamesAreToldApart }
{}

/// Two declarators with one number are one, in one environment, with the same on their left.
pub fn declarators_are_told_apart()
    ensures { DeclaratorsAreToldApart }
{}

/// Two statements with one number are one, in one environment, with the same round them.
pub fn statements_are_told_apart()
    ensures { StatementsAreToldApart }
{}

/// Two initialisers with one number are one, in one environment, of one object.
pub fn initialisers_are_told_apart()
    ensures { InitialisersAreToldApart }
{}

/// Two initialisers that are expressions with one number are one, in one environment, of one object.
pub fn values_are_told_apart()
    ensures { ValuesAreToldApart }
{}

/// Two initialisers that are lists with one number are one, in one environment, of one object.
pub fn lists_are_told_apart()
    ensures { ListsAreToldApart }
{}

/// A name that a node declares has the number and the place of a declarator in it.
pub fn names_are_those_of_declarators()
    ensures { NamesAreThoseOfDeclarators }
{}

/// Two declared names with one number are declared by one node, and are one.
pub fn names_are_told_apart()
    ensures { NamesAreToldApart }
{}

/// A declarator of a declaration with the number of a declared name has a type, that of the name.
pub fn declared_names_have_types()
    ensures { DeclaredNamesHaveTypes }
{}

/// A definition whose declarator has the number of a declared name has a type, that of the name.
pub fn defined_names_have_types()
    ensures { DefinedNamesHaveTypes }
{}

/// Two nodes of one kind with one number are parts of one node.
pub fn parts_are_of_one_node()
    ensures { PartsAreOfOneNode }
{}

/// Two parts of a node in which nodes with one number stand are one.
pub fn parts_are_told_apart()
    ensures { PartsAreToldApart }
{}

/// Nodes with one number stand in one external declaration.
pub fn externals_are_told_apart()
    ensures { ExternalsAreToldApart }
{}

/// What stands in a node has its number or a greater one.
pub fn numbers_rise_inside()
    ensures { NumbersRiseInside }
{}

/// What stands in the parts of a node has greater numbers, unless the node has the number of its part.
pub fn parts_have_greater_numbers()
    ensures { PartsHaveGreaterNumbers }
{}

/// Each number is less than the count of the nodes.
pub fn numbers_are_bounded()
    ensures { NumbersAreBounded }
{}

/// Each node is given the names from outside that the source is given.
pub fn outside_stays()
    ensures { OutsideStays }
{}

/// What is known of a struct behind an expression is known at the end of the source.
pub fn known_structs_stay()
    ensures { KnownStructsStay }
{}

/// Structs that an object with an initialiser holds have all their members there, in a source without fault.
pub fn sources_are_settled()
    ensures { SourcesAreSettled }
{}
