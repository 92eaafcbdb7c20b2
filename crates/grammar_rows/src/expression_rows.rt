//! Texts of expressions, names and formals: which are accepted, with which tree, and which are not.
//! These calls do nothing, and each says what holds of its texts.

ghost use Rattle.std.specs.Prelude.{◌++◌, codes};
ghost use Rattle.js_parser.specs.declared.form.Form.TheVariants.{Source, Written};
ghost use Rattle.grammar_rows.specs.TextRows as row;

/// Operators between two operands: what binds closer, and that they group to the left.
pub fn operators()
    ensures or { row.Same Source (codes "a || b || c") (codes "( a || b ) || c") }
    ensures or_below { row.Same Source (codes "a || b && c ; a && b || c")
        (codes "a || ( b && c ) ; ( a && b ) || c") }
    ensures and { row.Same Source (codes "a && b && c ; a || b && c ; a && b || c")
        (codes "( a && b ) && c ; a || ( b && c ) ; ( a && b ) || c") }
    ensures and_below { row.Same Source (codes "a && b | c ; a | b && c")
        (codes "a && ( b | c ) ; ( a | b ) && c") }
    ensures bit_or { row.Same Source (codes "a | b | c ; a && b | c ; a | b && c")
        (codes "( a | b ) | c ; a && ( b | c ) ; ( a | b ) && c") }
    ensures bit_or_below { row.Same Source (codes "a | b ^ c ; a ^ b | c")
        (codes "a | ( b ^ c ) ; ( a ^ b ) | c") }
    ensures bit_xor { row.Same Source (codes "a ^ b ^ c ; a | b ^ c ; a ^ b | c")
        (codes "( a ^ b ) ^ c ; a | ( b ^ c ) ; ( a ^ b ) | c") }
    ensures bit_xor_below { row.Same Source (codes "a ^ b & c ; a & b ^ c")
        (codes "a ^ ( b & c ) ; ( a & b ) ^ c") }
    ensures bit_and { row.Same Source (codes "a & b & c ; a ^ b & c ; a & b ^ c")
        (codes "( a & b ) & c ; a ^ ( b & c ) ; ( a & b ) ^ c") }
    ensures bit_and_below { row.Same Source (codes "a & b == c ; a == b & c")
        (codes "a & ( b == c ) ; ( a == b ) & c") }
    ensures equal { row.Same Source (codes "a == b == c ; a & b == c ; a == b & c")
        (codes "( a == b ) == c ; a & ( b == c ) ; ( a == b ) & c") }
    ensures equal_below { row.Same Source (codes "a == b < c ; a < b == c")
        (codes "a == ( b < c ) ; ( a < b ) == c") }
    ensures not_equal { row.Same Source (codes "a != b != c ; a & b != c ; a != b & c")
        (codes "( a != b ) != c ; a & ( b != c ) ; ( a != b ) & c") }
    ensures not_equal_below { row.Same Source (codes "a != b < c ; a < b != c")
        (codes "a != ( b < c ) ; ( a < b ) != c") }
    ensures strict_equal { row.Same Source (codes "a === b === c ; a & b === c ; a === b & c")
        (codes "( a === b ) === c ; a & ( b === c ) ; ( a === b ) & c") }
    ensures strict_equal_below { row.Same Source (codes "a === b < c ; a < b === c")
        (codes "a === ( b < c ) ; ( a < b ) === c") }
    ensures strict_not_equal { row.Same Source (codes "a !== b !== c ; a & b !== c ; a !== b & c")
        (codes "( a !== b ) !== c ; a & ( b !== c ) ; ( a !== b ) & c") }
    ensures strict_not_equal_below { row.Same Source (codes "a !== b < c ; a < b !== c")
        (codes "a !== ( b < c ) ; ( a < b ) !== c") }
    ensures less { row.Same Source (codes "a < b < c ; a == b < c ; a < b == c")
        (codes "( a < b ) < c ; a == ( b < c ) ; ( a < b ) == c") }
    ensures less_below { row.Same Source (codes "a < b << c ; a << b < c")
        (codes "a < ( b << c ) ; ( a << b ) < c") }
    ensures greater { row.Same Source (codes "a > b > c ; a == b > c ; a > b == c")
        (codes "( a > b ) > c ; a == ( b > c ) ; ( a > b ) == c") }
    ensures greater_below { row.Same Source (codes "a > b << c ; a << b > c")
        (codes "a > ( b << c ) ; ( a << b ) > c") }
    ensures less_equal { row.Same Source (codes "a <= b <= c ; a == b <= c ; a <= b == c")
        (codes "( a <= b ) <= c ; a == ( b <= c ) ; ( a <= b ) == c") }
    ensures less_equal_below { row.Same Source (codes "a <= b << c ; a << b <= c")
        (codes "a <= ( b << c ) ; ( a << b ) <= c") }
    ensures greater_equal { row.Same Source (codes "a >= b >= c ; a == b >= c ; a >= b == c")
        (codes "( a >= b ) >= c ; a == ( b >= c ) ; ( a >= b ) == c") }
    ensures greater_equal_below { row.Same Source (codes "a >= b << c ; a << b >= c")
        (codes "a >= ( b << c ) ; ( a << b ) >= c") }
    ensures instance_of { row.Same Source
        (codes "a instanceof b instanceof c ; a == b instanceof c ; a instanceof b == c")
        (codes "( a instanceof b ) instanceof c ; a == ( b instanceof c ) ; ( a "
        ++ codes "instanceof b ) == c") }
    ensures instance_of_below { row.Same Source (codes "a instanceof b << c ; a << b instanceof c")
        (codes "a instanceof ( b << c ) ; ( a << b ) instanceof c") }
    ensures within { row.Same Source (codes "a in b in c ; a == b in c ; a in b == c")
        (codes "( a in b ) in c ; a == ( b in c ) ; ( a in b ) == c") }
    ensures within_below { row.Same Source (codes "a in b << c ; a << b in c")
        (codes "a in ( b << c ) ; ( a << b ) in c") }
    ensures shift_left { row.Same Source (codes "a << b << c ; a < b << c ; a << b < c")
        (codes "( a << b ) << c ; a < ( b << c ) ; ( a << b ) < c") }
    ensures shift_left_below { row.Same Source (codes "a << b + c ; a + b << c")
        (codes "a << ( b + c ) ; ( a + b ) << c") }
    ensures shift_right { row.Same Source (codes "a >> b >> c ; a < b >> c ; a >> b < c")
        (codes "( a >> b ) >> c ; a < ( b >> c ) ; ( a >> b ) < c") }
    ensures shift_right_below { row.Same Source (codes "a >> b + c ; a + b >> c")
        (codes "a >> ( b + c ) ; ( a + b ) >> c") }
    ensures shift_right_unsigned { row.Same Source
        (codes "a >>> b >>> c ; a < b >>> c ; a >>> b < c")
        (codes "( a >>> b ) >>> c ; a < ( b >>> c ) ; ( a >>> b ) < c") }
    ensures shift_right_unsigned_below { row.Same Source (codes "a >>> b + c ; a + b >>> c")
        (codes "a >>> ( b + c ) ; ( a + b ) >>> c") }
    ensures plus { row.Same Source (codes "a + b + c ; a << b + c ; a + b << c")
        (codes "( a + b ) + c ; a << ( b + c ) ; ( a + b ) << c") }
    ensures plus_below { row.Same Source (codes "a + b * c ; a * b + c")
        (codes "a + ( b * c ) ; ( a * b ) + c") }
    ensures minus { row.Same Source (codes "a - b - c ; a << b - c ; a - b << c")
        (codes "( a - b ) - c ; a << ( b - c ) ; ( a - b ) << c") }
    ensures minus_below { row.Same Source (codes "a - b * c ; a * b - c")
        (codes "a - ( b * c ) ; ( a * b ) - c") }
    ensures times { row.Same Source (codes "a * b * c ; a + b * c ; a * b + c")
        (codes "( a * b ) * c ; a + ( b * c ) ; ( a * b ) + c") }
    ensures slash { row.Same Source (codes "a / b / c ; a + b / c ; a / b + c")
        (codes "( a / b ) / c ; a + ( b / c ) ; ( a / b ) + c") }
    ensures percent { row.Same Source (codes "a % b % c ; a + b % c ; a % b + c")
        (codes "( a % b ) % c ; a + ( b % c ) ; ( a % b ) + c") }
{}

/// Assignments, `?:` and the comma (ES3 11.12 to 11.14).
pub fn assignments()
    ensures assigned { row.Reads Source (codes "a = b ; a *= b ; a /= b ; a %= b ; a += b ; a -= b")
        (codes "a=b;a*=b;a/=b;a%=b;a+=b;a-=b;\n") }
    ensures shifted { row.Reads Source
        (codes "a <<= b ; a >>= b ; a >>>= b ; a &= b ; a ^= b ; a |= b")
        (codes "a<<=b;a>>=b;a>>>=b;a&=b;a^=b;a|=b;\n") }
    ensures to_the_right { row.Same Source (codes "a = b += c") (codes "a = ( b += c )") }
    ensures above_conditional { row.Same Source (codes "a = b ? c : d")
        (codes "a = ( b ? c : d )") }
    ensures in_conditional { row.Same Source (codes "a ? b = c : d = e")
        (codes "a ? ( b = c ) : ( d = e )") }
    ensures conditionals { row.Same Source (codes "a ? b : c ? d : e")
        (codes "a ? b : ( c ? d : e )") }
    ensures above_or { row.Same Source (codes "a || b ? c || d : e || f")
        (codes "( a || b ) ? ( c || d ) : ( e || f )") }
    ensures commas { row.Same Source (codes "a , b , c") (codes "( a , b ) , c") }
    ensures above_comma { row.Same Source (codes "a = b , c = d ? e : f , g")
        (codes "( ( a = b ) , ( c = ( d ? e : f ) ) ) , g") }
    ensures targets { row.Reads Source
        (codes "( a ) = b ; a . b = c ; ( ( a [ b ] ) ) = c ; a ( ) . b = c")
        (codes "a=b;a.b=c;a[b]=c;a().b=c;\n") }
    ensures no_number { row.BreaksAt Source (codes "1") (codes "=") }
    ensures no_call { row.BreaksAt Source (codes "a ( )") (codes "=") }
    ensures no_sum { row.BreaksAt Source (codes "a + b") (codes "=") }
    ensures no_conditional { row.BreaksAt Source (codes "a ? b : c + d") (codes "=") }
    ensures no_negation { row.BreaksAt Source (codes "! a") (codes "=") }
    ensures no_parenthesised_sum { row.BreaksAt Source (codes "( a + b )") (codes "+=") }
    ensures no_new { row.BreaksAt Source (codes "new a ( )") (codes "=") }
    ensures no_postfix { row.BreaksAt Source (codes "a ++") (codes "=") }
    ensures no_assignment { row.BreaksAt Source (codes "( a = b )") (codes "=") }
    ensures no_this { row.BreaksAt Source (codes "this") (codes "=") }
    ensures middle_without_comma { row.BreaksAt Source (codes "a ? b") (codes ",") }
    ensures middle_without_end { row.BreaksAt Source (codes "a ? b") (codes ";") }
    ensures other_is_needed { row.BreaksAt Source (codes "a ? b :") (codes ";") }
{}

/// Operators before and behind one operand (ES3 11.3, 11.4).
pub fn prefixes()
    ensures words { row.Same Source (codes "delete a . b ; void typeof a ; typeof a * b")
        (codes "delete ( a . b ) ; void ( typeof a ) ; ( typeof a ) * b") }
    ensures signs { row.Same Source (codes "- + ~ ! a ; ! a + b ; - a ++")
        (codes "- ( + ( ~ ( ! a ) ) ) ; ( ! a ) + b ; - ( a ++ )") }
    ensures changes { row.Reads Source (codes "++ a ; -- a . b ; a [ 1 ] ++ ; ( a ) -- ; ++ ( a )")
        (codes "++a;--a.b;a[1]++;a--;++a;\n") }
    ensures above_times { row.Reads Source (codes "a * - b ; a * ++ b ; a ++ * b")
        (codes "a*-b;a*++b;a++*b;\n") }
    ensures no_number_behind { row.BreaksAt Source (codes "1") (codes "++") }
    ensures no_call_behind { row.BreaksAt Source (codes "a ( )") (codes "--") }
    ensures no_change_behind { row.BreaksAt Source (codes "a ++") (codes "++") }
    ensures no_new_behind { row.BreaksAt Source (codes "new a") (codes "++") }
    ensures no_number_before { row.BreaksAt Source (codes "++ 1") (codes ";") }
    ensures no_call_before { row.BreaksAt Source (codes "-- a ( )") (codes ";") }
    ensures no_prefix_before { row.BreaksAt Source (codes "++") (codes "!") }
    ensures no_change_before { row.BreaksAt Source (codes "++") (codes "++") }
    ensures not_on_the_next_line { row.BreaksAt Source (codes "a\n++") (codes ";") }
{}

/// Members, calls and `new` (ES3 11.2).
pub fn calls()
    ensures members { row.Same Source (codes "a . b [ c ] ( d ) . e")
        (codes "( ( ( a . b ) [ c ] ) ( d ) ) . e") }
    ensures arguments { row.Same Source (codes "a ( ) ; a ( b ) ; a ( b , c = d )")
        (codes "( a ) ( ) ; a ( ( b ) ) ; a ( b , ( c = d ) )") }
    ensures new_takes_the_first { row.Same Source (codes "new a ( b ) ( c ) ; new a . b ( c ) . d")
        (codes "( new a ( b ) ) ( c ) ; ( new ( a . b ) ( c ) ) . d") }
    ensures new_without_arguments { row.Same Source (codes "new a ; new a . b ; new a [ b ]")
        (codes "new a ( ) ; new ( a . b ) ( ) ; new ( a [ b ] ) ( )") }
    ensures new_twice { row.Same Source
        (codes "new new a ; new new a ( b ) ; new new a ( b ) ( c )")
        (codes "new ( new a ) ; new ( new a ( b ) ) ; new ( new a ( b ) ) ( c )") }
    ensures new_in_operations { row.Same Source (codes "- new a + b ; new a ? b : c")
        (codes "( - ( new a ) ) + b ; ( new a ) ? b : c") }
    ensures argument_list_ends { row.BreaksAt Source (codes "a ( b ,") (codes ")") }
    ensures argument_is_needed { row.BreaksAt Source (codes "a (") (codes ",") }
    ensures number_is_no_member { row.BreaksAt Source (codes "a .") (codes "1") }
    ensures word_is_no_member { row.BreaksAt Source (codes "a .") (codes "if") }
    ensures index_is_needed { row.BreaksAt Source (codes "a [") (codes "]") }
    ensures callee_is_needed { row.BreaksAt Source (codes "new") (codes "!") }
    ensures operand_is_needed { row.BreaksAt Source (codes "a +") (codes ";") }
    ensures empty_parentheses { row.BreaksAt Source (codes "(") (codes ")") }
{}

/// Literals (ES3 11.1).
pub fn literals()
    ensures primaries { row.Reads Source (codes "this ; null ; true ; false ; 1 ; 0x1F ; \"b\"")
        (codes "this;null;true;false;1;31;\"b\";\n") }
    ensures arrays { row.Reads Source
        (codes "[ ] ; [ 1 ] ; [ 1 , ] ; [ , ] ; [ 1 , , 2 , ] ; [ , , 1 ]")
        (codes "[];[1];[1];[,];[1,,2];[,,1];\n") }
    ensures objects { row.Reads Source
        (codes "( { } ) ; ( { a : 1 } ) ; ( { a : 1 , } ) ; ( { \"b\" : 1 , 2 : 3 , 0x1F : 4 } )")
        (codes "({});({a:1});({a:1});({b:1,\"2\":3,\"31\":4});\n") }
    ensures elements { row.Same Source (codes "[ a = b , c ] ; ( { a : b = c , d : e } )")
        (codes "[ ( a = b ) , ( c ) ] ; ( { a : ( b = c ) , d : ( e ) } )") }
    ensures array_ends { row.BreaksAt Source (codes "[ 1") (codes ";") }
    ensures object_begins { row.BreaksAt Source (codes "x = {") (codes ",") }
    ensures one_comma_ends { row.BreaksAt Source (codes "x = { a : 1 ,") (codes ",") }
    ensures key_is_no_word { row.BreaksAt Source (codes "x = {") (codes "if") }
    ensures key_has_a_value { row.BreaksAt Source (codes "x = { a") (codes ",") }
    ensures key_is_no_list { row.BreaksAt Source (codes "x = {") (codes "[") }
{}

/// The operator `in` in the first part of a `for` header.
pub fn headers()
    ensures in_brackets { row.Reads Source
        (codes "for ( a [ 1 in x ] ; ; ) ; for ( f ( 1 in x ) ; ; ) ; for ( [ 1 in x ] ; ; ) ;")
        (codes "for(a[1 in x];;);for(f(1 in x);;);for([1 in x];;);\n") }
    ensures in_parentheses { row.Reads Source
        (codes "for ( ( 1 in x ) ; ; ) ; for ( ( ( 1 in x ) , 2 ) ; ; ) ;")
        (codes "for((1 in x);;);for((1 in x),2;;);\n") }
    ensures in_the_middle { row.Reads Source (codes "for ( a ? 1 in x : b ; ; ) ;")
        (codes "for(a?(1 in x):b;;);\n") }
    ensures in_a_function { row.Reads Source (codes "for ( a = function ( ) { 1 in x ; } ; ; ) ;")
        (codes "for(a=function(){1 in x;};;);\n") }
    ensures behind_the_first { row.Reads Source (codes "for ( ; a in b ; c in d ) e in f ;")
        (codes "for(;a in b;c in d)e in f;\n") }
    ensures elsewhere { row.Reads Source (codes "a in b ; var a = b in c ; if ( a in b ) ;")
        (codes "a in b;var a=b in c;if(a in b);\n") }
    ensures in_assigned { row.BreaksAt Source (codes "for ( i = 1") (codes "in") }
    ensures in_second_item { row.BreaksAt Source (codes "for ( var i = 1 , j = 2") (codes "in") }
    ensures in_second_name { row.BreaksAt Source (codes "for ( var i , j") (codes "in") }
    ensures in_disjunction { row.BreaksAt Source (codes "for ( a || 1") (codes "in") }
    ensures in_other { row.BreaksAt Source (codes "for ( a ? b : 1") (codes "in") }
    ensures in_negation { row.BreaksAt Source (codes "for ( ! a") (codes "in") }
    ensures in_comma { row.BreaksAt Source (codes "for ( a , b") (codes "in") }
    ensures in_call { row.BreaksAt Source (codes "for ( a ( )") (codes "in") }
{}

/// What the form Written adds.
pub fn written_form()
    ensures late { row.Reads Written
        (codes "x = eval ( $dl_get ( 1 ) ) ; eval ( $dl_get ( 65535 ) ) . apply ( a )")
        (codes "x=eval($dl_get(1));eval($dl_get(65535)).apply(a);\n") }
    ensures new_late { row.Reads Written (codes "new eval ( $dl_get ( 2 ) ) ( 3 )")
        (codes "new eval($dl_get(2))(3);\n") }
    ensures no_zero { row.BreaksAt Written (codes "x = eval ( $dl_get (") (codes "0") }
    ensures no_wider { row.BreaksAt Written (codes "x = eval ( $dl_get (") (codes "65536") }
    ensures in_hexadecimal { row.BreaksAt Written (codes "x = eval ( $dl_get (") (codes "0x2") }
    ensures no_name { row.BreaksAt Written (codes "x = eval ( $dl_get (") (codes "a") }
    ensures one_number { row.BreaksAt Written (codes "x = eval ( $dl_get ( 1") (codes ",") }
    ensures only_get { row.BreaksAt Written (codes "x = eval (") (codes "a") }
    ensures only_called { row.BreaksAt Written (codes "x = eval") (codes ".") }
    ensures no_text { row.BreaksAt Written (codes "x = eval (") (codes "\"a\"") }
    ensures get_is_called { row.BreaksAt Written (codes "x = eval ( $dl_get") (codes ")") }
    ensures both_closed { row.BreaksAt Written (codes "x = eval ( $dl_get ( 1 )") (codes ";") }
    ensures no_target { row.BreaksAt Written (codes "x = eval ( $dl_get ( 1 ) )") (codes "=") }
    ensures no_get_alone { row.BreaksAt Written (codes "x =") (codes "$dl_get") }
    ensures not_in_source { row.BreaksAt Source (codes "x =") (codes "eval") }
    ensures cells { row.Reads Written
        (codes "$dl_r1 = 2 ; a . $dl_r65535 ; $dl_r3 : ; x = { $dl_r4 : 1 } ; var $dl_r5")
        (codes "$dl_r1=2;a.$dl_r65535;$dl_r3:;x={$dl_r4:1};var $dl_r5;\n") }
    ensures bound_cells { row.Reads Written
        (codes "function $dl_r1 ( $dl_r2 ) { } try { } catch ( $dl_r3 ) { }")
        (codes "function $dl_r1($dl_r2){}try{}catch($dl_r3){}\n") }
    ensures cell_zero { row.BreaksAt Written (codes "x =") (codes "$dl_r0") }
    ensures cell_with_zero { row.BreaksAt Written (codes "x =") (codes "$dl_r01") }
    ensures wider_cell { row.BreaksAt Written (codes "x =") (codes "$dl_r65536") }
    ensures cell_without_number { row.BreaksAt Written (codes "x =") (codes "$dl_r") }
    ensures cell_with_letter { row.BreaksAt Written (codes "x =") (codes "$dl_r1a") }
    ensures other_own_name { row.BreaksAt Written (codes "x =") (codes "$dl_x1") }
    ensures own_member { row.BreaksAt Written (codes "a .") (codes "$dl_get") }
    ensures own_key { row.BreaksAt Written (codes "x = {") (codes "$dl_use") }
    ensures own_text_as_key { row.BreaksAt Written (codes "x = {") (codes "\"$dl_r1\"") }
    ensures cell_in_source { row.BreaksAt Source (codes "x =") (codes "$dl_r1") }
    ensures cell_member_in_source { row.BreaksAt Source (codes "a .") (codes "$dl_r1") }
    ensures cell_key_in_source { row.BreaksAt Source (codes "x = {") (codes "$dl_r1") }
    ensures text_key_in_source { row.BreaksAt Source (codes "x = {") (codes "\"$dl_x\"") }
    ensures own_text { row.Reads Source (codes "x = \"$dl_x\" ; a [ \"$dl_x\" ]")
        (codes "x=\"$dl_x\";a[\"$dl_x\"];\n") }
{}

/// Which names may stand where.
pub fn names()
    ensures members { row.Reads Source
        (codes "a . eval ; a . Function ; a . Infinity ; a . arguments")
        (codes "a.eval;a.Function;a.Infinity;a.arguments;\n") }
    ensures keys { row.Reads Source
        (codes "x = { eval : 1 , Function : 2 , Infinity : 3 , arguments : 4 , callee "
        ++ codes ": 5 , caller : 6 }")
        (codes "x={eval:1,Function:2,Infinity:3,arguments:4,callee:5,caller:6};\n") }
    ensures as_names { row.Reads Source
        (codes "callee ; caller ; arguments ; arguments : ; arguments = 1 ; a . $dl")
        (codes "callee;caller;arguments;arguments:;arguments=1;a.$dl;\n") }
    ensures bound { row.Reads Source
        (codes "var callee ; function caller ( evals , Functions , $dl ) { }")
        (codes "var callee;function caller(evals,Functions,$dl){}\n") }
    ensures no_eval { row.BreaksAt Source (codes "x =") (codes "eval") }
    ensures no_function_name { row.BreaksAt Source (codes "x =") (codes "Function") }
    ensures no_infinity { row.BreaksAt Source (codes "x =") (codes "Infinity") }
    ensures no_own_name { row.BreaksAt Source (codes "x =") (codes "$dl_x") }
    ensures no_callee { row.BreaksAt Source (codes "a .") (codes "callee") }
    ensures no_caller { row.BreaksAt Source (codes "a .") (codes "caller") }
    ensures no_own_member { row.BreaksAt Source (codes "a .") (codes "$dl_x") }
    ensures no_own_key { row.BreaksAt Source (codes "x = {") (codes "$dl_x") }
    ensures no_eval_item { row.BreaksAt Source (codes "var") (codes "eval") }
    ensures no_function_item { row.BreaksAt Source (codes "var") (codes "Function") }
    ensures no_infinity_item { row.BreaksAt Source (codes "var") (codes "Infinity") }
    ensures no_arguments_item { row.BreaksAt Source (codes "var") (codes "arguments") }
    ensures no_own_item { row.BreaksAt Source (codes "var") (codes "$dl_x") }
    ensures no_eval_function { row.BreaksAt Source (codes "function") (codes "eval") }
    ensures no_arguments_function { row.BreaksAt Source (codes "function") (codes "arguments") }
    ensures no_infinity_expression { row.BreaksAt Source (codes "x = function")
        (codes "Infinity") }
    ensures no_arguments_expression { row.BreaksAt Source (codes "x = function")
        (codes "arguments") }
    ensures no_function_formal { row.BreaksAt Source (codes "function f (") (codes "Function") }
    ensures no_arguments_formal { row.BreaksAt Source (codes "function f ( a ,")
        (codes "arguments") }
    ensures no_eval_catch { row.BreaksAt Source (codes "try { } catch (") (codes "eval") }
    ensures no_arguments_catch { row.BreaksAt Source (codes "try { } catch (")
        (codes "arguments") }
    ensures no_eval_header { row.BreaksAt Source (codes "for ( var") (codes "eval") }
    ensures no_eval_label { row.BreaksAt Source (codes "a : break") (codes "eval") }
    ensures no_infinity_label { row.BreaksAt Source (codes "a : while ( b ) continue")
        (codes "Infinity") }
{}

/// Formals (ES3 13).
pub fn formals()
    ensures none { row.Reads Source (codes "function f ( ) { }") (codes "function f(){}\n") }
    ensures some { row.Reads Source (codes "function f ( a , b , c ) { } x = function ( a ) { }")
        (codes "function f(a,b,c){}x=function(a){};\n") }
    ensures of_two_functions { row.Reads Source (codes "function f ( a ) { function g ( a ) { } }")
        (codes "function f(a){function g(a){}}\n") }
    ensures as_its_name { row.Reads Source (codes "function f ( f , a ) { var a ; }")
        (codes "function f(f,a){var a;}\n") }
    ensures no_comma_ends { row.BreaksAt Source (codes "function f ( a ,") (codes ")") }
    ensures no_comma_begins { row.BreaksAt Source (codes "function f (") (codes ",") }
    ensures no_repeated { row.BreaksAt Source (codes "function f ( a ,") (codes "a") }
    ensures no_repeated_later { row.BreaksAt Source (codes "function f ( a , b , c ,")
        (codes "b") }
    ensures no_repeated_in_expression { row.BreaksAt Source (codes "x = function ( a ,")
        (codes "a") }
    ensures no_number { row.BreaksAt Source (codes "function f (") (codes "1") }
    ensures no_body { row.BreaksAt Source (codes "function f ( a )") (codes ";") }
    ensures no_name { row.BreaksAt Source (codes "function") (codes "(") }
    ensures open_body { row.BreaksAt Source (codes "function f ( ) {") (codes ")") }
{}
