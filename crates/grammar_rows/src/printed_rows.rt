//! Texts and what their trees are written as.
//! These calls do nothing, and each says what holds of its texts.

ghost use Rattle.std.specs.Prelude.{◌++◌, codes};
ghost use Rattle.js_parser.specs.declared.form.Form.TheVariants.{Source};
ghost use Rattle.grammar_rows.specs.TextRows as row;

/// Where operands are in parentheses.
pub fn parentheses()
    ensures below_a_level { row.Reads Source
        (codes "( a = b ) + c ; ( a , b ) + c ; ( a ? b : c ) + d ; a + ( b = c )")
        (codes "(a=b)+c;(a,b)+c;(a?b:c)+d;a+(b=c);\n") }
    ensures at_a_level { row.Reads Source
        (codes "( a + b ) + c ; a + ( b + c ) ; ( a * b ) + c ; a * ( b + c ) ; ( a + b ) * c")
        (codes "a+b+c;a+(b+c);a*b+c;a*(b+c);(a+b)*c;\n") }
    ensures logical { row.Reads Source
        (codes "( a || b ) || c ; a || ( b || c ) ; ( a && b ) || c ; a && ( b || c ) "
        ++ codes "; a && ( b && c ) ; ( a || b ) && c")
        (codes "a||b||c;a||(b||c);a&&b||c;a&&(b||c);a&&(b&&c);(a||b)&&c;\n") }
    ensures commas { row.Reads Source
        (codes "( a , b ) , c ; a , ( b , c ) ; a = ( b , c ) ; a ( ( b , c ) ) ; [ ( "
        ++ codes "a , b ) ] ; ( { a : ( b , c ) } )")
        (codes "a,b,c;a,(b,c);a=(b,c);a((b,c));[(a,b)];({a:(b,c)});\n") }
    ensures more_commas { row.Reads Source
        (codes "a ( b , ( c , d ) ) ; [ a , ( b , c ) ] ; ( { a : b , c : ( d , e ) } "
        ++ codes ") ; var a = ( b , c ) , d = ( e , f )")
        (codes "a(b,(c,d));[a,(b,c)];({a:b,c:(d,e)});var a=(b,c),d=(e,f);\n") }
    ensures conditionals { row.Reads Source
        (codes "( a ? b : c ) ? d : e ; ( a = b ) ? c : d ; a ? ( b , c ) : ( d , e ) "
        ++ codes "; a ? ( b = c ) : ( d = e ) ; ( a || b ) ? c : d")
        (codes "(a?b:c)?d:e;(a=b)?c:d;a?(b,c):(d,e);a?b=c:d=e;a||b?c:d;\n") }
    ensures prefixes { row.Reads Source
        (codes "! ( a + b ) ; ! ( a ++ ) ; ( ! a ) + b ; - ( - a ) ; ! ( a = b ) ; ++ ( a . b )")
        (codes "!(a+b);!a++;!a+b;- -a;!(a=b);++a.b;\n") }
    ensures members { row.Reads Source
        (codes "( ! a ) . b ; ( a ++ ) . b ; ( a + b ) [ c ] ; ( a , b ) ( c ) ; a [ ( "
        ++ codes "b , c ) ] ; ( a = b ) . c")
        (codes "(!a).b;(a++).b;(a+b)[c];(a,b)(c);a[b,c];(a=b).c;\n") }
    ensures numbers { row.Reads Source
        (codes "( 1 ) . a ; 1 [ a ] ; 1 ( ) ; \"a\" . b ; ( 1 + 2 ) . a")
        (codes "(1).a;1[a];1();\"a\".b;(1+2).a;\n") }
    ensures functions { row.Reads Source
        (codes "( function ( ) { } ) . a ; ( function ( ) { } ) [ a ] ; ( function ( ) "
        ++ codes "{ } ) ( a ) ; new ( function ( ) { } ) ( a )")
        (codes "(function(){}).a;(function(){})[a];(function(){})(a);new(function(){})(a);\n") }
    ensures functions_elsewhere { row.Reads Source
        (codes "a ( function ( ) { } ) ; a = function ( ) { } ; [ function ( ) { } ] ; "
        ++ codes "! function ( ) { }")
        (codes "a(function(){});a=function(){};[function(){}];!function(){};\n") }
    ensures callees { row.Reads Source
        (codes "new ( a ( ) ) ; new ( a ( ) . b ) ; new ( a ( ) [ b ] ) ; new ( a . b "
        ++ codes "( ) . c ) ( d ) ; new ( a [ b ( ) ] )")
        (codes "new(a())();new(a().b)();new(a()[b])();new(a.b().c)(d);new a[b()]();\n") }
    ensures new_callees { row.Reads Source
        (codes "new ( new a ) ; new ( new a ( b ) ) ( c ) ; ( new a ) . b ; ( new a ) "
        ++ codes "( b ) ; new ( ! a ) ; new ( ( a ( ) ) + b ) ; new ( 1 )")
        (codes "new new a()();new new a(b)(c);new a().b;new "
        ++ codes "a()(b);new(!a)();new(a()+b)();new 1();\n") }
    ensures objects_and_arrays { row.Reads Source
        (codes "[ ] . a ; ( { } . a ) ; [ ] ( ) ; a . b . c")
        (codes "[].a;({}.a);[]();a.b.c;\n") }
    ensures headers { row.Reads Source
        (codes "for ( ( 1 in x ) ; ; ) ; for ( var a = ( 1 in x ) , b = ( 2 in y ) ; ; "
        ++ codes ") ; for ( ( a , b ) ; ; ) ;")
        (codes "for((1 in x);;);for(var a=(1 in x),b=(2 in y);;);for(a,b;;);\n") }
    ensures header_brackets { row.Reads Source
        (codes "for ( [ 1 in x ] ; ; ) ; for ( a [ 1 in x ] ; ; ) ; for ( a ( 1 in x ) "
        ++ codes "; ; ) ; for ( ( { a : 1 in x } ) ; ; ) ;")
        (codes "for([1 in x];;);for(a[1 in x];;);for(a(1 in x);;);for({a:1 in x};;);\n") }
    ensures header_parentheses { row.Reads Source
        (codes "for ( ( ( 1 in x ) , 2 ) * 3 ; ; ) ; for ( a ? 1 in x : ( 2 in y ) ; ; "
        ++ codes ") ; for ( var a = ( 1 in x ) in b ) ;")
        (codes "for((1 in x,2)*3;;);for(a?(1 in x):(2 in y);;);for(var a=(1 in x)in b);\n") }
    ensures header_operands { row.Reads Source
        (codes "for ( ( 1 in x ) + 2 ; ; ) ; for ( ! ( 1 in x ) ; ; ) ; for ( a = ( 1 "
        ++ codes "in x ) ; ; ) ; for ( ( 1 in x ) ? a : b ; ; ) ;")
        (codes "for((1 in x)+2;;);for(!(1 in x);;);for(a=(1 in x);;);for((1 in x)?a:b;;);\n") }
    ensures header_function { row.Reads Source
        (codes "for ( a = function ( ) { 1 in x ; for ( ( 2 in y ) ; ; ) ; } ; ; ) ;")
        (codes "for(a=function(){1 in x;for((2 in y);;);};;);\n") }
    ensures parts { row.Reads Source
        (codes "if ( ( a , b ) ) ; throw ( a , b ) ; switch ( ( a , b ) ) { case ( c , "
        ++ codes "d ) : } while ( ( a = b ) ) ;")
        (codes "if(a,b);throw a,b;switch(a,b){case c,d:}while(a=b);\n") }
    ensures statements_begin { row.Reads Source
        (codes "( { } ) ; ( { } ) . a ; ( { } ) + 1 ; ( function ( ) { } ) ; ( "
        ++ codes "function ( ) { } , a ) ; ( function ( ) { } ) ( )")
        (codes "({});({}.a);({}+1);(function(){});(function(){},a);(function(){})();\n") }
{}

/// Where a space stands between two tokens.
pub fn spaces()
    ensures words { row.Reads Source
        (codes "typeof a ; a in b ; a instanceof b ; delete a ; void 0 ; new a")
        (codes "typeof a;a in b;a instanceof b;delete a;void 0;new a();\n") }
    ensures no_word { row.Reads Source
        (codes "typeof ( a + b ) ; ! a ; a [ 0 ] in b ; 1 in [ ] ; \"a\" in b")
        (codes "typeof(a+b);!a;a[0]in b;1 in[];\"a\"in b;\n") }
    ensures statements { row.Reads Source
        (codes "if ( a ) b ; else c ; do d ; while ( e ) ; throw f ; var g ; for ( var h in i ) ;")
        (codes "if(a)b;else c;do d;while(e);throw f;var g;for(var h in i);\n") }
    ensures statements_without { row.Reads Source
        (codes "if ( a ) b ; else { } do { } while ( a ) ; throw [ ] ; throw \"a\" ; throw - a")
        (codes "if(a)b;else{}do{}while(a);throw[];throw\"a\";throw-a;\n") }
    ensures returns { row.Reads Source
        (codes "function f ( ) { return a ; return ( { } ) ; return - a ; return ! a ; return 1 }")
        (codes "function f(){return a;return{};return-a;return!a;return 1;}\n") }
    ensures clauses { row.Reads Source (codes "switch ( a ) { case b : case \"c\" : case ( 1 ) : }")
        (codes "switch(a){case b:case\"c\":case 1:}\n") }
    ensures plus { row.Reads Source
        (codes "a + + b ; a + ++ b ; a ++ + b ; a ++ + ++ b ; + + a ; + ++ a ; + - a")
        (codes "a+ +b;a+ ++b;a+++b;a+++ ++b;+ +a;+ ++a;+-a;\n") }
    ensures minus { row.Reads Source
        (codes "a - - b ; a - -- b ; a -- - b ; a -- - -- b ; - - a ; - -- a ; - + a")
        (codes "a- -b;a- --b;a---b;a--- --b;- -a;- --a;-+a;\n") }
    ensures outside_ascii { row.Reads Source (codes "é in ü ; typeof é ; é . ü ; var é")
        (codes "é in ü;typeof é;é.ü;var é;\n") }
    ensures dollars { row.Reads Source (codes "typeof $ ; _ in $a ; a1 in b2")
        (codes "typeof $;_ in $a;a1 in b2;\n") }
{}

/// What tokens are written as.
pub fn tokens_written()
    ensures numbers { row.Reads Source (codes "0 ; 10 ; 0xff ; 9007199254740991")
        (codes "0;10;255;9007199254740991;\n") }
    ensures strings { row.Reads Source (codes "\"\" ; \"a'b\" ; \"é\" ; \"~!\"")
        (codes "\"\";\"a'b\";\"\\u00e9\";\"~!\";\n") }
    ensures keys { row.Reads Source
        (codes "( { a1 : 1 , \"b\" : 2 , \"if\" : 3 , \"\" : 4 , \"1a\" : 5 , é : 6 , "
        ++ codes "7 : 8 , \"a-b\" : 9 } )")
        (codes "({a1:1,b:2,\"if\":3,\"\":4,\"1a\":5,\"\\u00e9\":6,\"7\":8,\"a-b\":9});\n") }
    ensures holes { row.Reads Source (codes "[ , ] ; [ 1 , , ] ; [ , 1 ] ; [ , , ]")
        (codes "[,];[1,,];[,1];[,,];\n") }
    ensures jumps { row.Reads Source (codes "a : while ( b ) { break a ; continue a }")
        (codes "a:while(b){break a;continue a;}\n") }
{}
