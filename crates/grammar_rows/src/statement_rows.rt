//! Texts of statements: which are accepted, and which are not.
//! These calls do nothing, and each says what holds of its texts.

ghost use Rattle.std.specs.Prelude.{◌++◌, codes};
ghost use Rattle.js_parser.specs.declared.form.Form.TheVariants.{Source};
ghost use Rattle.grammar_rows.specs.TextRows as row;

/// Statements, each as it is printed (ES3 12).
pub fn statements()
    ensures blocks { row.Reads Source (codes "{ } { a ; { b } }") (codes "{}{a;{b;}}\n") }
    ensures variables { row.Reads Source (codes "var a ; var b , c = 1 , d = e , f")
        (codes "var a;var b,c=1,d=e,f;\n") }
    ensures initialisers { row.Same Source (codes "var a = b = c , d = e ? f : g")
        (codes "var a = ( b = c ) , d = ( e ? f : g )") }
    ensures empty { row.Reads Source (codes ";") (codes ";\n") }
    ensures choices { row.Reads Source
        (codes "if ( a ) b ; if ( a , b ) c ; else d ; if ( a ) { } else if ( b ) { } else { }")
        (codes "if(a)b;if(a,b)c;else d;if(a){}else if(b){}else{}\n") }
    ensures loops { row.Reads Source
        (codes "do a ; while ( b ) ; do { } while ( a , b ) ; while ( a ) b ; while ( a , b ) { }")
        (codes "do a;while(b);do{}while(a,b);while(a)b;while(a,b){}\n") }
    ensures for_loops { row.Reads Source
        (codes "for ( ; ; ) ; for ( a , b ; c ; d , e ) f ; for ( var a , b = 1 ; ; ) { }")
        (codes "for(;;);for(a,b;c;d,e)f;for(var a,b=1;;){}\n") }
    ensures for_in_loops { row.Reads Source
        (codes "for ( a in b ) ; for ( a . b in c , d ) ; for ( a [ b ] in c ) ; for ( "
        ++ codes "( a ) in b ) ;")
        (codes "for(a in b);for(a.b in c,d);for(a[b]in c);for(a in b);\n") }
    ensures for_var_in_loops { row.Reads Source
        (codes "for ( var a in b , c ) ; for ( var a = 1 in b ) ;")
        (codes "for(var a in b,c);for(var a=1 in b);\n") }
    ensures switches { row.Reads Source
        (codes "switch ( a , b ) { } switch ( a ) { case b , c : d ; e ; case f : "
        ++ codes "default : g ; case h : }")
        (codes "switch(a,b){}switch(a){case b,c:d;e;case f:default:g;case h:}\n") }
    ensures throws { row.Reads Source (codes "throw a , b ;") (codes "throw a,b;\n") }
    ensures tries { row.Reads Source
        (codes "try { } catch ( a ) { b } try { } finally { c } try { d } catch ( e ) "
        ++ codes "{ } finally { }")
        (codes "try{}catch(a){b;}try{}finally{c;}try{d;}catch(e){}finally{}\n") }
    ensures labels { row.Reads Source (codes "a : ; b : c : { } a : d")
        (codes "a:;b:c:{}a:d;\n") }
    ensures one_default { row.BreaksAt Source (codes "switch ( a ) { default : case 1 :")
        (codes "default") }
    ensures clause_first { row.BreaksAt Source (codes "switch ( a ) {") (codes "b") }
    ensures clause_has_a_colon { row.BreaksAt Source (codes "switch ( a ) { case b") (codes ";") }
    ensures no_clause_outside { row.BreaksAt Source (codes "{") (codes "case") }
    ensures try_alone { row.BreaksAt Source (codes "try { }") (codes ";") }
    ensures try_needs_a_block { row.BreaksAt Source (codes "try") (codes "a") }
    ensures catch_needs_a_block { row.BreaksAt Source (codes "try { } catch ( a )") (codes ";") }
    ensures finally_needs_a_block { row.BreaksAt Source (codes "try { } finally") (codes ";") }
    ensures catch_has_a_name { row.BreaksAt Source (codes "try { } catch") (codes "{") }
    ensures one_catch { row.BreaksAt Source (codes "try { } catch ( a ) { }") (codes "catch") }
    ensures else_alone { row.BreaksAt Source (codes "a ;") (codes "else") }
    ensures one_else { row.BreaksAt Source (codes "if ( a ) ; else ;") (codes "else") }
    ensures throws_something { row.BreaksAt Source (codes "throw") (codes ";") }
    ensures do_has_a_test { row.BreaksAt Source (codes "do ;") (codes ";") }
    ensures header_has_two { row.BreaksAt Source (codes "for ( a ; b") (codes ")") }
    ensures header_has_no_more { row.BreaksAt Source (codes "for ( a ; b ; c") (codes ";") }
    ensures no_var_in_next { row.BreaksAt Source (codes "for ( ; ;") (codes "var") }
    ensures one_name_in { row.BreaksAt Source (codes "for ( var a , b") (codes "in") }
    ensures no_closing_brace { row.BreaksAt Source (codes "a ;") (codes "}") }
{}

/// With what an expression statement begins, and where functions stand.
pub fn expression_statements()
    ensures in_parentheses { row.Reads Source
        (codes "( { } ) . a ; ( function ( ) { } ) ; ( function ( ) { } , a )")
        (codes "({}.a);(function(){});(function(){},a);\n") }
    ensures inside { row.Reads Source (codes "a = { } ; ! function ( ) { } ; a , { }")
        (codes "a={};!function(){};a,{};\n") }
    ensures brace_is_a_block { row.BreaksAt Source (codes "{ a : 1 , b") (codes ":") }
    ensures function_is_declared { row.BreaksAt Source (codes "function") (codes "(") }
    ensures declared { row.Reads Source
        (codes "function f ( ) { function g ( ) { } } a ; function h ( ) { }")
        (codes "function f(){function g(){}}a;function h(){}\n") }
    ensures none_in_blocks { row.BreaksAt Source (codes "{") (codes "function") }
    ensures none_in_choices { row.BreaksAt Source (codes "if ( a )") (codes "function") }
    ensures none_in_else { row.BreaksAt Source (codes "if ( a ) ; else") (codes "function") }
    ensures none_in_loops { row.BreaksAt Source (codes "while ( a )") (codes "function") }
    ensures none_behind_labels { row.BreaksAt Source (codes "a :") (codes "function") }
    ensures none_in_clauses { row.BreaksAt Source (codes "switch ( a ) { case b :")
        (codes "function") }
    ensures none_in_tries { row.BreaksAt Source (codes "try {") (codes "function") }
    ensures none_in_do { row.BreaksAt Source (codes "do") (codes "function") }
    ensures none_in_for { row.BreaksAt Source (codes "for ( ; ; )") (codes "function") }
{}

/// Where `return`, `continue` and `break` stand (ES3 12.7 to 12.9).
pub fn jumps()
    ensures returns { row.Reads Source
        (codes "function f ( ) { return ; return a , b ; { return } } x = function ( ) "
        ++ codes "{ if ( a ) return ; }")
        (codes "function f(){return;return a,b;{return;}}x=function(){if(a)return;};\n") }
    ensures no_return { row.BreaksAt Source (codes "") (codes "return") }
    ensures no_return_in_blocks { row.BreaksAt Source (codes "{") (codes "return") }
    ensures no_return_behind { row.BreaksAt Source (codes "function f ( ) { }") (codes "return") }
    ensures continues { row.Reads Source
        (codes "do continue ; while ( a ) ; while ( a ) continue ; for ( ; ; ) "
        ++ codes "continue ; for ( a in b ) continue ; for ( var a in b ) continue ;")
        (codes "do continue;while(a);while(a)continue;for(;;)continue;for(a in "
        ++ codes "b)continue;for(var a in b)continue;\n") }
    ensures continues_inside { row.Reads Source
        (codes "while ( a ) { if ( b ) continue ; else continue ; c : continue ; "
        ++ codes "switch ( d ) { case 1 : continue ; default : continue } }")
        (codes "while(a){if(b)continue;else continue;c:continue;switch(d){case "
        ++ codes "1:continue;default:continue;}}\n") }
    ensures continues_in_tries { row.Reads Source
        (codes "while ( a ) try { continue } catch ( b ) { continue } finally { continue }")
        (codes "while(a)try{continue;}catch(b){continue;}finally{continue;}\n") }
    ensures no_continue { row.BreaksAt Source (codes "") (codes "continue") }
    ensures no_continue_in_switches { row.BreaksAt Source (codes "switch ( a ) { case b :")
        (codes "continue") }
    ensures no_continue_in_functions { row.BreaksAt Source (codes "while ( a ) x = function ( ) {")
        (codes "continue") }
    ensures no_continue_behind { row.BreaksAt Source (codes "while ( a ) ;") (codes "continue") }
    ensures no_continue_in_header { row.BreaksAt Source (codes "while (") (codes "continue") }
    ensures breaks { row.Reads Source
        (codes "do break ; while ( a ) ; while ( a ) break ; for ( ; ; ) break ; for ( "
        ++ codes "a in b ) break ; switch ( a ) { case 1 : break ; default : break }")
        (codes "do break;while(a);while(a)break;for(;;)break;for(a in "
        ++ codes "b)break;switch(a){case 1:break;default:break;}\n") }
    ensures breaks_inside { row.Reads Source
        (codes "switch ( a ) { case 1 : { if ( b ) break ; try { break } finally { "
        ++ codes "break } c : break } }")
        (codes "switch(a){case 1:{if(b)break;try{break;}finally{break;}c:break;}}\n") }
    ensures no_break { row.BreaksAt Source (codes "") (codes "break") }
    ensures no_break_in_choices { row.BreaksAt Source (codes "if ( a )") (codes "break") }
    ensures no_break_in_functions { row.BreaksAt Source
        (codes "switch ( a ) { case b : x = function ( ) {")
        (codes "break") }
    ensures no_break_behind { row.BreaksAt Source (codes "switch ( a ) { }") (codes "break") }
{}

/// Labels (ES3 12.7, 12.8, 12.12).
pub fn labels()
    ensures broken { row.Reads Source
        (codes "a : { break a ; { break a } } a : break a ; a : if ( b ) break a ; else break a")
        (codes "a:{break a;{break a;}}a:break a;a:if(b)break a;else break a;\n") }
    ensures broken_inside { row.Reads Source
        (codes "a : switch ( b ) { case c : break a ; default : while ( d ) break a }")
        (codes "a:switch(b){case c:break a;default:while(d)break a;}\n") }
    ensures broken_in_tries { row.Reads Source
        (codes "a : try { break a } catch ( b ) { break a } finally { break a }")
        (codes "a:try{break a;}catch(b){break a;}finally{break a;}\n") }
    ensures every_label { row.Reads Source
        (codes "a : b : c : while ( d ) { break a ; break b ; break c ; continue a ; "
        ++ codes "continue b ; continue c }")
        (codes "a:b:c:while(d){break a;break b;break c;continue a;continue b;continue c;}\n") }
    ensures each_loop { row.Reads Source
        (codes "a : do continue a ; while ( b ) ; a : while ( b ) continue a ; a : for "
        ++ codes "( ; ; ) continue a ; a : for ( b in c ) continue a")
        (codes "a:do continue a;while(b);a:while(b)continue a;a:for(;;)continue "
        ++ codes "a;a:for(b in c)continue a;\n") }
    ensures outer_loops { row.Reads Source
        (codes "a : while ( b ) { c : for ( ; ; ) { if ( d ) continue a ; switch ( e ) "
        ++ codes "{ default : continue c } } }")
        (codes "a:while(b){c:for(;;){if(d)continue a;switch(e){default:continue c;}}}\n") }
    ensures outer_labels { row.Reads Source (codes "a : { b : { break a ; break b } break a }")
        (codes "a:{b:{break a;break b;}break a;}\n") }
    ensures beside { row.Reads Source (codes "a : ; a : { } a : b") (codes "a:;a:{}a:b;\n") }
    ensures in_functions { row.Reads Source
        (codes "a : x = function ( ) { a : while ( b ) continue a } ;")
        (codes "a:x=function(){a:while(b)continue a;};\n") }
    ensures no_label { row.BreaksAt Source (codes "while ( a ) break") (codes "b") }
    ensures no_label_behind { row.BreaksAt Source (codes "a : ; while ( b ) break") (codes "a") }
    ensures no_label_out_of_functions { row.BreaksAt Source
        (codes "a : while ( b ) x = function ( ) { while ( c ) break")
        (codes "a") }
    ensures no_loop_out_of_functions { row.BreaksAt Source
        (codes "a : while ( b ) x = function ( ) { while ( c ) continue")
        (codes "a") }
    ensures block_is_no_loop { row.BreaksAt Source (codes "a : { while ( b ) continue")
        (codes "a") }
    ensures choice_is_no_loop { row.BreaksAt Source (codes "a : if ( b ) while ( c ) continue")
        (codes "a") }
    ensures else_is_no_loop { row.BreaksAt Source (codes "a : if ( b ) ; else while ( c ) continue")
        (codes "a") }
    ensures switch_is_no_loop { row.BreaksAt Source
        (codes "a : switch ( b ) { case c : while ( d ) continue")
        (codes "a") }
    ensures try_is_no_loop { row.BreaksAt Source (codes "a : try { while ( b ) continue")
        (codes "a") }
    ensures catch_is_no_loop { row.BreaksAt Source
        (codes "a : try { } catch ( b ) { while ( c ) continue")
        (codes "a") }
    ensures finally_is_no_loop { row.BreaksAt Source
        (codes "a : try { } finally { while ( b ) continue")
        (codes "a") }
    ensures inner_block_is_no_loop { row.BreaksAt Source (codes "a : { b : while ( c ) continue")
        (codes "a") }
    ensures twice { row.BreaksAt Source (codes "a : a") (codes ":") }
    ensures twice_inside { row.BreaksAt Source (codes "a : { b : while ( c ) { a") (codes ":") }
    ensures twice_behind_another { row.BreaksAt Source (codes "a : b : a") (codes ":") }
    ensures twice_in_a_loop { row.BreaksAt Source (codes "a : while ( b ) a") (codes ":") }
    ensures no_number { row.BreaksAt Source (codes "a ; 1") (codes ":") }
    ensures not_in_parentheses { row.BreaksAt Source (codes "a ; ( b )") (codes ":") }
{}

/// Inserted semicolons (ES3 7.9).
pub fn semicolons()
    ensures before_a_brace { row.Reads Source
        (codes "{ a } { var b } { throw c } { do ; while ( d ) }")
        (codes "{a;}{var b;}{throw c;}{do;while(d);}\n") }
    ensures before_the_end { row.Reads Source (codes "a") (codes "a;\n") }
    ensures on_a_line { row.Reads Source (codes "a\nb\nvar c\nd\nthrow e\nf")
        (codes "a;b;var c;d;throw e;f;\n") }
    ensures signs_go_on { row.Reads Source (codes "a\n+ b\n- c") (codes "a+b-c;\n") }
    ensures brackets_go_on { row.Reads Source (codes "a\n[ b ]\n( c )\n. d")
        (codes "a[b](c).d;\n") }
    ensures operators_go_on { row.Reads Source
        (codes "a\n= b\n? c\n: d\n, e\n|| f\nin g\ninstanceof h")
        (codes "a=b?c:d,e||f in g instanceof h;\n") }
    ensures changes_do_not { row.Reads Source (codes "a\n++ b\n-- c") (codes "a;++b;--c;\n") }
    ensures behind_a_change { row.Reads Source (codes "a ++\n( b )\na --\n[ c ]")
        (codes "a++;b;a--;[c];\n") }
    ensures signs_behind_a_change { row.Reads Source (codes "a ++\n+ b") (codes "a+++b;\n") }
    ensures behind_a_name { row.Reads Source (codes "var a\n( b )\nvar c\n+ d\nvar e\n[ f ]")
        (codes "var a;b;var c;+d;var e;[f];\n") }
    ensures names_go_on { row.Reads Source (codes "var a\n= b\n, c\n, d = e")
        (codes "var a=b,c,d=e;\n") }
    ensures values_go_on { row.Reads Source (codes "var a = b\n( c )\n, d = e\n+ f")
        (codes "var a=b(c),d=e+f;\n") }
    ensures behind_do { row.Reads Source (codes "do ; while ( a )\n( b )\ndo ; while ( c )\n+ d")
        (codes "do;while(a);b;do;while(c);+d;\n") }
    ensures behind_labels { row.Reads Source
        (codes "a : while ( b ) { continue a\n( c )\nbreak a\n[ d ] }")
        (codes "a:while(b){continue a;c;break a;[d];}\n") }
    ensures written_on_the_next_line { row.Reads Source (codes "a\n; b") (codes "a;b;\n") }
    ensures written_behind_labels { row.Reads Source (codes "a : { break a\n; }")
        (codes "a:{break a;}\n") }
    ensures written_behind_do { row.Reads Source (codes "do ; while ( a )\n;")
        (codes "do;while(a);\n") }
    ensures written_behind_names { row.Reads Source (codes "var a\n;") (codes "var a;\n") }
    ensures jumps_end_at_once { row.Reads Source (codes "while ( a ) { continue\n; break\n; }")
        (codes "while(a){continue;;break;;}\n") }
    ensures jumps_have_labels_on_their_line { row.Reads Source
        (codes "b : while ( a ) { continue\nb ; break\nb ; }")
        (codes "b:while(a){continue;b;break;b;}\n") }
    ensures returns_end_at_once { row.Reads Source
        (codes "function f ( ) { return\n; return\na ; return\n( b ) }")
        (codes "function f(){return;;return;a;return;b;}\n") }
    ensures returned_on_two_lines { row.Reads Source (codes "function f ( ) { return a\n+ b }")
        (codes "function f(){return a+b;}\n") }
    ensures jumps_on_their_line { row.Reads Source (codes "while ( a ) { continue ; break ; }")
        (codes "while(a){continue;break;}\n") }
    ensures do_on_two_lines { row.Reads Source (codes "do a\nwhile ( b )")
        (codes "do a;while(b);\n") }
    ensures else_on_the_next_line { row.Reads Source (codes "if ( a ) b\nelse c")
        (codes "if(a)b;else c;\n") }
    ensures names_on_a_line { row.BreaksAt Source (codes "a") (codes "b") }
    ensures numbers_on_a_line { row.BreaksAt Source (codes "a") (codes "1") }
    ensures items_on_a_line { row.BreaksAt Source (codes "var a") (codes "b") }
    ensures values_on_a_line { row.BreaksAt Source (codes "var a = 1") (codes "2") }
    ensures do_on_a_line { row.BreaksAt Source (codes "do ; while ( a )") (codes "b") }
    ensures do_body_on_a_line { row.BreaksAt Source (codes "do a") (codes "while") }
    ensures then_on_a_line { row.BreaksAt Source (codes "if ( a ) b") (codes "else") }
    ensures returned_on_a_line { row.BreaksAt Source (codes "function f ( ) { return a")
        (codes "b") }
    ensures thrown_on_a_line { row.BreaksAt Source (codes "throw a") (codes "b") }
    ensures labels_on_a_line { row.BreaksAt Source (codes "a : break a") (codes "b") }
    ensures jumps_on_a_line { row.BreaksAt Source (codes "while ( a ) break") (codes "1") }
    ensures thrown_on_the_next_line { row.BreaksAt Source (codes "throw") (codes "\na") }
    ensures empty_before_a_brace { row.BreaksAt Source (codes "{ if ( a )") (codes "}") }
    ensures empty_before_else { row.BreaksAt Source (codes "if ( a )") (codes "\nelse") }
    ensures empty_loop_before_a_brace { row.BreaksAt Source (codes "{ while ( a )") (codes "}") }
    ensures none_in_the_header { row.BreaksAt Source (codes "for ( a") (codes "\nb") }
    ensures none_at_the_headers_end { row.BreaksAt Source (codes "for ( a ; b") (codes "\n)") }
    ensures no_operand_inserted { row.BreaksAt Source (codes "a +") (codes "\n;") }
{}
