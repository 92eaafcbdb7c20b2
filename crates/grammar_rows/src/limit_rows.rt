//! How deep trees are, what is counted, and what is told: these calls do nothing, and each says
//! what is computed.

ghost use Rattle.std.specs.Prelude.{◌≡◌, true, false, [], ◌∷◌, codes, replicate, map};
ghost use Rattle.js_lexer.specs.declared.mark.Mark.TheVariants as m;
ghost use Rattle.js_lexer.specs.declared.word.Word.TheVariants as w;
ghost use Rattle.js_lexer.specs.declared.token.TokenKind.TheVariants as k;
ghost use Rattle.js_tree.specs.TreeRows as small;
ghost use Rattle.js_parser.specs.declared.form.Construct.TheVariants as c;
ghost use Rattle.js_parser.specs.declared.form.Form.TheVariants.{Source, Written};
ghost use Rattle.js_parser.specs.Bounds.{in_site, in_source, source_limits};
ghost use Rattle.js_parser.specs.Symbols.{is_in_decimal};
ghost use Rattle.js_tree.specs.Heights.{expr_height, stmt_height};
ghost use Rattle.js_tree.specs.Depth.{by_functions, by_nodes, depth, nesting};
ghost use Rattle.js_parser.specs.Fault.{Refused, Syntax, TooMany, is_too_many};
ghost use Rattle.grammar_rows.specs.HeightRows as height;
ghost use Rattle.grammar_rows.specs.FaultRows as row;
ghost use Rattle.grammar_rows.specs.RefusedRows.{place};
ghost use Rattle.grammar_rows.specs.TextRows.{tokens};
ghost use Rattle.js_tree.specs.Numbering.{is_function_number};
ghost use Rattle.js_tree.specs.Tree.{NoStmts};

/// How deep a node is, by the depth of one of its parts.
pub fn depths()
    ensures of_leaves { map (expr_height by_nodes) small.leaves ≡ replicate 7 1 }
    ensures of_bare_statements { map (stmt_height by_nodes) small.bare_statements ≡ replicate 7 1 }
    ensures by_first { height.depths height.high height.low height.low ≡ height.depths_by_first }
    ensures by_second { height.depths height.low height.high height.low ≡ height.depths_by_second }
    ensures by_third { height.depths height.low height.low height.high ≡ height.depths_by_third }
    ensures statements_by_first { height.statement_depths height.high height.low height.low
        height.low ≡ height.statements_by_first }
    ensures statements_by_second { height.statement_depths height.low height.high height.low
        height.low ≡ height.statements_by_second }
    ensures statements_by_third { height.statement_depths height.low height.low height.high
        height.low ≡ height.statements_by_third }
    ensures statements_by_fourth { height.statement_depths height.low height.low height.low
        height.high ≡ height.statements_by_fourth }
    ensures of_nothing { depth NoStmts ≡ 0 }
    ensures of_a_text { depth row.tree ≡ 3 }
{}

/// How many functions stand in one another in a node, by one of its parts that is a function.
pub fn nestings()
    ensures of_leaves { map (expr_height by_functions) small.leaves ≡ replicate 7 0 }
    ensures of_bare_statements { map (stmt_height by_functions) small.bare_statements
        ≡ replicate 7 0 }
    ensures by_first { height.nestings height.nested height.flat height.flat
        ≡ height.nestings_by_first }
    ensures by_second { height.nestings height.flat height.nested height.flat
        ≡ height.nestings_by_second }
    ensures by_third { height.nestings height.flat height.flat height.nested
        ≡ height.nestings_by_third }
    ensures statements_by_first { height.statement_nestings height.nested height.flat height.flat
        height.flat ≡ height.nested_by_first }
    ensures statements_by_second { height.statement_nestings height.flat height.nested height.flat
        height.flat ≡ height.nested_by_second }
    ensures statements_by_third { height.statement_nestings height.flat height.flat height.nested
        height.flat ≡ height.nested_by_third }
    ensures statements_by_fourth { height.statement_nestings height.flat height.flat height.flat
        height.nested ≡ height.nested_by_fourth }
    ensures of_nothing { nesting NoStmts ≡ 0 }
    ensures of_a_text { nesting row.tree ≡ 2 }
{}

/// The bounds of scripts.
pub fn bounds()
    ensures of_a_source { in_source
        ≡ record { depth = 400; nesting = 64; brackets = 400; functions = 65535 } }
    ensures of_a_site { in_site
        ≡ record { depth = 800; nesting = 66; brackets = 800; functions = 196605 } }
    ensures of_what_is_left { source_limits 3
        ≡ record { depth = 400; nesting = 64; brackets = 400; functions = 3 } }
    ensures no_function_zero { is_function_number 0 ≡ false }
    ensures a_first_function { is_function_number 1 ≡ true }
    ensures a_last_function { is_function_number 65535 ≡ true }
    ensures no_further_function { is_function_number 65536 ≡ false }
{}

/// A script keeps its limits where it is at each at most.
pub fn limits()
    ensures at_each { row.IsKept (row.limits 3 2 3) }
    ensures below_each { row.IsKept (row.limits 4 3 4) }
    ensures too_deep { row.IsKept (row.limits 2 2 3) → ⊥ }
    ensures too_nested { row.IsKept (row.limits 3 1 3) → ⊥ }
    ensures too_many_open { row.IsKept (row.limits 3 2 2) → ⊥ }
{}

/// Functions and open brackets are counted by their tokens.
pub fn counted_tokens()
    ensures no_function { row.functions_of (codes "a ( ) ; functions ( )") ≡ 0 }
    ensures two_functions { row.functions_of (codes "function f ( ) { x = function ( ) { } }") ≡ 2 }
    ensures no_bracket { row.brackets_of (codes "a . b ; c < d > e") ≡ 0 }
    ensures one_bracket { row.brackets_of (codes "a ( ) ; b [ c ] ; { } ( )") ≡ 1 }
    ensures three_brackets { row.brackets_of (codes "( [ { } ] ) ; ( )") ≡ 3 }
    ensures three_at_the_end { row.brackets_of (codes "( [ {") ≡ 3 }
    ensures closed_without_opening { row.brackets_of (codes ") ( (") ≡ 2 }
    ensures by_text { row.brackets_of row.text ≡ 3 }
    ensures one_too_many { is_too_many 1 (tokens (codes "function f (")) (k.Word w.Function)
        ≡ true }
    ensures none_allowed { is_too_many 0 (tokens (codes "a ;")) (k.Word w.Function) ≡ true }
    ensures not_too_many { is_too_many 2 (tokens (codes "function f (")) (k.Word w.Function)
        ≡ false }
    ensures no_function_more { is_too_many 1 (tokens (codes "function f (")) k.End ≡ false }
{}

/// What is told of a formal, and of a function, by the tokens before it.
pub fn told_by_tokens()
    ensures repeated { row.told (codes "function f ( a , b ,") (k.Name (codes "a"))
        ≡ Refused (place 1 1) c.RepeatedFormal }
    ensures repeated_without_name { row.told (codes "x = function ( a ,") (k.Name (codes "a"))
        ≡ Refused (place 1 1) c.RepeatedFormal }
    ensures repeated_at_once { row.told (codes "function f ( a") (k.Name (codes "a"))
        ≡ Refused (place 1 1) c.RepeatedFormal }
    ensures repeated_inside { row.told (codes "function f ( a ) { function g ( b ,")
        (k.Name (codes "b")) ≡ Refused (place 1 1) c.RepeatedFormal }
    ensures not_its_name { row.told (codes "function a ( b ,") (k.Name (codes "a"))
        ≡ Syntax (place 1 1) }
    ensures not_behind_the_list { row.told (codes "function f ( a )") (k.Name (codes "a"))
        ≡ Syntax (place 1 1) }
    ensures not_in_the_body { row.told (codes "function f ( a ) { a") (k.Name (codes "a"))
        ≡ Syntax (place 1 1) }
    ensures not_of_another { row.told (codes "function f ( a ) { function g ( b ,")
        (k.Name (codes "a")) ≡ Syntax (place 1 1) }
    ensures not_of_a_call { row.told (codes "f ( a ,") (k.Name (codes "a")) ≡ Syntax (place 1 1) }
    ensures not_behind_a_number { row.told (codes "function f ( a , 1") (k.Name (codes "a"))
        ≡ Syntax (place 1 1) }
    ensures not_behind_two_names { row.told (codes "function f g ( a") (k.Name (codes "a"))
        ≡ Syntax (place 1 1) }
    ensures not_its_name_alone { row.told (codes "function a") (k.Name (codes "a"))
        ≡ Syntax (place 1 1) }
    ensures too_many { row.told (codes "function f ( ) { } x = function ( ) {") (k.Word w.Function)
        ≡ TooMany (place 1 1) }
    ensures at_its_place { row.told (codes "function f (") (k.Word w.Function)
        ≡ Refused (place 1 1) c.FunctionPlace }
    ensures other_text { row.told (codes "a") (k.Str (codes "x$dl_")) ≡ Syntax (place 1 1) }
    ensures other_mark { row.told (codes "a") (k.Mark m.CloseBrace) ≡ Syntax (place 1 1) }
    ensures a_number { row.told (codes "a") (k.Number 1) ≡ Syntax (place 1 1) }
    ensures a_name_like_it { row.told (codes "a") (k.Name (codes "evals")) ≡ Syntax (place 1 1) }
{}

/// Which words the grammar has, and where names stand.
pub fn placed_tokens()
    ensures used_words { row.used_words
        ≡ w.Break ∷ w.Case ∷ w.Catch ∷ w.Continue ∷ w.Default ∷ w.Delete ∷ w.Do ∷ w.Else ∷
        w.Finally ∷ w.For ∷ w.Function ∷ w.If ∷ w.In ∷ w.InstanceOf ∷ w.New ∷ w.Return ∷
        w.Switch ∷ w.This ∷ w.Throw ∷ w.Try ∷ w.TypeOf ∷ w.Var ∷ w.Void ∷ w.While ∷
        w.Null ∷ w.True ∷ w.False ∷ [] }
    ensures name_behind_a_name { row.are_placed_in Source (codes "a b") ≡ false }
    ensures name_on_a_line { row.are_placed_in Source (codes "a\nb") ≡ true }
    ensures name_behind_a_mark { row.are_placed_in Source (codes "a . b ; c") ≡ true }
    ensures no_later_word { row.are_placed_in Written (codes "a ; class") ≡ false }
    ensures no_own_name { row.are_placed_in Source (codes "$dl_x") ≡ false }
    ensures own_name_written { row.are_placed_in Written (codes "$dl_x") ≡ true }
    ensures own_text { row.are_placed_in Source (codes "\"$dl_x\"") ≡ true }
{}

/// A number is in decimal where it has as many characters as its decimal.
pub fn in_decimal()
    ensures one_digit { is_in_decimal (k.Number 2) 1 ≡ true }
    ensures five_digits { is_in_decimal (k.Number 65535) 5 ≡ true }
    ensures hexadecimal { is_in_decimal (k.Number 2) 3 ≡ false }
    ensures wide_hexadecimal { is_in_decimal (k.Number 65535) 6 ≡ false }
    ensures a_name { is_in_decimal (k.Name (codes "ab")) 1 ≡ true }
{}
