//! Laws over the definitions: these calls do nothing, and each says a law of the grammar.

ghost use Rattle.js_parser.specs.Laws as law;

/// An expression of a level is one of each lower level.
pub fn levels_go_down()
    ensures { law.LevelsGoDown }
{}

/// What can be assigned to is a LeftHandSideExpression, whatever it was read as.
pub fn targets_rise()
    ensures { law.TargetsRise }
{}

/// An expression that may stand where the operator `in` may not, may stand where it may.
pub fn in_may_be_allowed()
    ensures { law.InMayBeAllowed }
{}

/// Expressions, lists of arguments and of declarators, statements and declarations have tokens.
pub fn have_tokens()
    ensures expressions { law.ExpressionsHaveTokens }
    ensures argument_lists { law.ArgumentListsHaveTokens }
    ensures declarator_lists { law.DeclaratorListsHaveTokens }
    ensures statements { law.StatementsHaveTokens }
{}

/// One list of formals at most has given tokens.
pub fn one_list_of_formals()
    ensures { law.OneListOfFormals }
{}

/// No token of what begins a script is refused whatever stands around it, and no name stands
/// directly behind another on its line.
pub fn tokens_are_placed()
    ensures { law.TokensArePlaced }
{}

/// An `else` belongs to the nearest `if`.
pub fn else_is_of_the_nearest_if()
    ensures { law.ElseIsOfTheNearestIf }
{}

/// No semicolon is inserted before a bracket, a sign or a slash that goes on with the expression.
pub fn none_is_inserted_where_the_next_fits()
    ensures { law.NoneIsInsertedWhereTheNextFits }
{}

/// Where the operator `in` may not stand, an operation with it is in parentheses.
pub fn in_is_in_parentheses()
    ensures { law.InIsInParentheses }
{}

/// A script that is accepted without limits has no breaking token.
pub fn scripts_do_not_break()
    ensures { law.ScriptsDoNotBreak }
{}

/// At most one token of a list is the breaking one.
pub fn one_breaking_token()
    ensures { law.OneBreakingToken }
{}

/// A script has as many functions as words `function`.
pub fn functions_are_counted()
    ensures { law.FunctionsAreCounted }
{}

/// Each statement and each declaration of a script closes the brackets that it opens.
pub fn brackets_are_closed()
    ensures { law.BracketsAreClosed }
{}

/// An expression that is one token has one tree.
pub fn one_tree_of_a_token()
    ensures { law.OneTreeOfAToken }
{}

/// At most one tree is derived from a list of tokens.
pub fn one_tree()
    ensures { law.OneTree }
{}

/// Nothing is told of tokens that are an accepted script.
pub fn accepted_has_no_fault()
    ensures { law.AcceptedHasNoFault }
{}

/// Where a script breaks a limit, one of its statements and declarations is the first in which it
/// does.
pub fn limits_break_in_a_statement()
    ensures { law.LimitsBreakInAStatement }
{}

/// The machine of `specs/Machine.antt` reads each script to its end and finds its tree, where there
/// is room for it.
pub fn scripts_are_read()
    ensures within_limits { law.ScriptsAreRead }
    ensures without_limits { law.ScriptsAreReadUnbounded }
{}

/// What the machine reads of a list of tokens is a script of this tree, which keeps the limits of
/// depth and nesting.
pub fn what_is_read_is_a_script()
    ensures { law.WhatIsReadIsAScript }
{}

/// What the machine has read where it is stuck, or finds no room, is the front of a script.
pub fn what_is_read_begins_a_script()
    ensures { law.WhatIsReadBeginsAScript }
{}

/// The token at which the machine is stuck is the breaking one.
pub fn stuck_at_the_breaking_token()
    ensures { law.StuckAtTheBreakingToken }
{}

/// Where the machine has no room, what it has read is spent: each script that begins so breaks a
/// limit.
pub fn spent_where_there_is_no_room()
    ensures { law.SpentWhereThereIsNoRoom }
{}

/// Tokens that the end closes are an accepted script, or something may be told of them.
pub fn accepted_or_a_fault()
    ensures { law.AcceptedOrAFault }
{}

/// The end closes the tokens of every text, as `parse` asks.
pub fn tokens_of_texts_are_closed()
    ensures { law.TokensOfTextsAreClosed }
{}
