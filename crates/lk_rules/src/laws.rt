//! Laws of the rules of C.
ghost use Rattle.lk_rules.specs.Laws.{AWatchTellsFaults, BothAreAllOfANode, CodesAreKeptBeforeParts, CodesAreKeptBehindParts, CodesAreKeptFurther, CodesAreKeptInTurn, ExpressionsAreAsked, ExpressionsFollowTheirRules, HiddenCodesAreLeftOut, NodesAreBrokenInTurn, NodesAreKeptFurther, NodesAreKeptInTurn, NothingIsKept, NothingIsKeptOfBoth, TheFirstFaultIsKept, TheLeastCodeIsEnough, TheLesserIsKept};
ghost use Rattle.lk_rules.specs.LayerLaws.{AdditionsInAnyRole, LooksInAnyRole, DeclaratorsFollowTheirForms, ItemsFollowTheirParts, MemberDeclaratorsFollowTheirForms, MembersFollowTheirParts, ParametersFollowTheirParts, SpecifiersFollowTheirForms, TypeNamesFollowTheirParts};
ghost use Rattle.lk_rules.specs.NodeLaws.{DeclaratorsAreAsked, DefinitionsAreAsked, HidingPartsInTurn, ItemsAreAsked, MembersAreAsked, OnlyInitialisersHide, ParametersAreAsked, PartsOfSpecifiersHaveTypes, TypeNamesAreAsked, TypesOfPartsInTurn};

/// What is found of an expression is what the rule of its form says of its parts.
pub fn expressions_follow_their_rules()
    ensures { ExpressionsFollowTheirRules }
{}

/// The codes that hold at an expression are those of its form's rule.
pub fn expressions_are_asked()
    ensures { ExpressionsAreAsked }
{}

/// Of no node nothing is kept.
pub fn nothing_is_kept()
    ensures { NothingIsKept }
{}

/// Nodes, then others, are kept as all of them at once.
pub fn nodes_are_kept_in_turn()
    ensures { NodesAreKeptInTurn }
{}

/// Codes of one node in two turns are kept as all of them at once.
pub fn codes_are_kept_in_turn()
    ensures { CodesAreKeptInTurn }
{}

/// The least code of some at a node, with its name, is enough of them.
pub fn the_least_code_is_enough()
    ensures { TheLeastCodeIsEnough }
{}

/// The lesser one of two faults is kept.
pub fn the_lesser_is_kept()
    ensures { TheLesserIsKept }
{}

/// The nodes in a node, then its own codes, are kept as the node.
pub fn codes_are_kept_behind_parts()
    ensures { CodesAreKeptBehindParts }
{}

/// The codes of a node are left out where a fault in it hides them.
pub fn hidden_codes_are_left_out()
    ensures { HiddenCodesAreLeftOut }
{}

/// A walk that begins to watch for codes tells whether there were any.
pub fn a_watch_tells_faults()
    ensures { AWatchTellsFaults }
{}

/// Of no node and no code nothing is kept.
pub fn nothing_is_kept_of_both()
    ensures { NothingIsKeptOfBoth }
{}

/// Nodes are kept behind other nodes and codes of the node in which they stand.
pub fn nodes_are_kept_further()
    ensures { NodesAreKeptFurther }
{}

/// Codes of a node are kept behind other ones and nodes in it.
pub fn codes_are_kept_further()
    ensures { CodesAreKeptFurther }
{}

/// The codes of a node may be kept before the nodes in it.
pub fn codes_are_kept_before_parts()
    ensures { CodesAreKeptBeforeParts }
{}

/// All nodes in a node and its codes, in any order, are kept as the node.
pub fn both_are_all_of_a_node()
    ensures { BothAreAllOfANode }
{}

/// A code holds in nodes and others where it holds in one of both.
pub fn nodes_are_broken_in_turn()
    ensures { NodesAreBrokenInTurn }
{}

/// Behind all of a source its first fault is kept, or there is none.
pub fn the_first_fault_is_kept()
    ensures { TheFirstFaultIsKept }
{}

/// What a declarator tells is what the rule of its form says of its parts.
pub fn declarators_follow_their_forms()
    ensures { DeclaratorsFollowTheirForms }
{}

/// What a specifier tells is what the rule of its form says of its parts.
pub fn specifiers_follow_their_forms()
    ensures { SpecifiersFollowTheirForms }
{}

/// What a declarator of a member tells is what the rule of its form says of its parts.
pub fn member_declarators_follow_their_forms()
    ensures { MemberDeclaratorsFollowTheirForms }
{}

/// What a member tells, from what its specifiers and declarators tell.
pub fn members_follow_their_parts()
    ensures { MembersFollowTheirParts }
{}

/// What an enumerator tells, from what its value tells.
pub fn items_follow_their_parts()
    ensures { ItemsFollowTheirParts }
{}

/// What a parameter tells, from what its specifiers and its declarator tell.
pub fn parameters_follow_their_parts()
    ensures { ParametersFollowTheirParts }
{}

/// What a type name tells, from what its specifiers and its declarator tell.
pub fn type_names_follow_their_parts()
    ensures { TypeNamesFollowTheirParts }
{}

/// What an expression adds does not depend on what it stands as.
pub fn additions_in_any_role()
    ensures { AdditionsInAnyRole }
{}

/// How an expression is written does not depend on what it stands as.
pub fn looks_in_any_role()
    ensures { LooksInAnyRole }
{}

/// Parts of two lists have types where those of both have.
pub fn types_of_parts_in_turn()
    ensures { TypesOfPartsInTurn }
{}

/// Members and enumerators count as having types.
pub fn parts_of_specifiers_have_types()
    ensures { PartsOfSpecifiersHaveTypes }
{}

/// The codes of a type name are those of its rules.
pub fn type_names_are_asked()
    ensures { TypeNamesAreAsked }
{}

/// The codes of a parameter are those of its rules.
pub fn parameters_are_asked()
    ensures { ParametersAreAsked }
{}

/// The codes of a definition are those of its rules.
pub fn definitions_are_asked()
    ensures { DefinitionsAreAsked }
{}

/// The codes of a declarator are those of its rules, where the size has a type.
pub fn declarators_are_asked()
    ensures { DeclaratorsAreAsked }
{}

/// The codes of an enumerator are those of its rules, where its value has a type.
pub fn items_are_asked()
    ensures { ItemsAreAsked }
{}

/// The codes of a member are those of its rules, where the widths have types.
pub fn members_are_asked()
    ensures { MembersAreAsked }
{}

/// Parts of two lists hide codes where those of one do.
pub fn hiding_parts_in_turn()
    ensures { HidingPartsInTurn }
{}

/// A fault in an initialiser without a type hides the codes of its declaration, and no other one does.
pub fn only_initialisers_hide()
    ensures { OnlyInitialisersHide }
{}
