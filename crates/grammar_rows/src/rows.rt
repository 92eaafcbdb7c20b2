//! Worked texts: these calls do nothing, and each says the tokens of a text, its tree and what the
//! tree is written as.

ghost use Rattle.std.specs.Prelude.{◌≡◌, codes};
ghost use Rattle.js_lexer.specs.declared.mark.Mark.TheVariants as m;
ghost use Rattle.js_lexer.specs.declared.word.Word.TheVariants as w;
ghost use Rattle.js_lexer.specs.declared.token.TokenKind.TheVariants as k;
ghost use Rattle.js_parser.specs.declared.form.Form.TheVariants.{Source, Written};
ghost use Rattle.js_parser.specs.Bounds.{in_source, in_site, source_limits};
ghost use Rattle.js_parser.specs.Accepted.{Accepted};
ghost use Rattle.js_parser.specs.Symbols.{symbols};
ghost use Rattle.js_parser.specs.declared.form.Construct.TheVariants as c;
ghost use Rattle.js_parser.specs.Fault.{Fault, Syntax, Refused, TooDeep, TooMany};
ghost use Rattle.js_printer.specs.PrintedText.{body_text, entry_text, func_text};
ghost use Rattle.grammar_rows.specs.Rows as rows;
ghost use Rattle.grammar_rows.specs.RefusedRows as refused;
ghost use Rattle.grammar_rows.specs.RefusedRows.{place};

/// Texts that are accepted, and what they are written as.
pub fn accepted_texts()
    ensures three_lines { rows.IsWorked Source in_source rows.three_lines rows.three_lines_tree
        (codes "a;++b;\n") }
    ensures returned_line { rows.IsWorked Source in_source rows.returned_line
        rows.returned_line_tree (codes "function f(){return;x;}\n") }
    ensures called_line { rows.IsWorked Source in_source rows.called_line rows.called_line_tree
        (codes "a(b);\n") }
    ensures signs { rows.IsWorked Source in_source rows.signs rows.signs_tree
        (codes "x=- -a+ +31;\n") }
    ensures signs_apart { rows.IsWorked Source in_source rows.signs_apart rows.signs_apart_tree
        (codes "a+ ++b- --c;d+++e;\n") }
    ensures new_called { rows.IsWorked Source in_source rows.new_called rows.new_called_tree
        (codes "new(a().b)(1);\n") }
    ensures literals { rows.IsWorked Source in_source rows.literals rows.literals_tree
        (codes "var a=[1,,2],o={\"if\":1,b:2};\n") }
    ensures in_header { rows.IsWorked Source in_source rows.in_header rows.in_header_tree
        (codes "for(var i=(1 in x);;);\n") }
    ensures nearest_if { rows.IsWorked Source in_source rows.nearest_if rows.nearest_if_tree
        (codes "if(a)if(b)c;else d;\n") }
    ensures labelled_loop { rows.IsWorked Source in_source rows.labelled_loop
        rows.labelled_loop_tree (codes "l:while(a){if(b)continue l;else break;}c;\n") }
    ensures do_line { rows.IsWorked Source in_source rows.do_line rows.do_line_tree
        (codes "do;while(a);b;\n") }
    ensures clauses { rows.IsWorked Source in_source rows.clauses rows.clauses_tree
        (codes "switch(a){case 1:b;case 2:default:break;}\n") }
    ensures handlers { rows.IsWorked Source in_source rows.handlers rows.handlers_tree
        (codes "try{throw a;}catch(e){}finally{}\n") }
    ensures properties { rows.IsWorked Source in_source rows.properties rows.properties_tree
        (codes "for(var k in o)r[k]=o[k]||!k;\n") }
    ensures news { rows.IsWorked Source in_source rows.news rows.news_tree
        (codes "new new a()();new b().c;\n") }
    ensures functions { rows.IsWorked Source in_source rows.functions rows.functions_tree
        (codes "(function(){})();(function f(a,b){}).c;\n") }
    ensures groups { rows.IsWorked Source in_source rows.groups rows.groups_tree
        (codes "a-b-c;a-(b-c);a?b:c?d:e;a=b=c;(a,b)?c:d;\n") }
    ensures stub { rows.IsWorked Written in_site rows.stub rows.stub_tree
        (codes "function g(){return eval($dl_get(2)).apply(this,arguments);}\n") }
{}

/// Texts that are refused, and what may be told of them.
pub fn refused_texts()
    ensures with_statement { Fault Source in_source refused.with_statement
        (Refused (place 3 5) c.With) }
    ensures two_names { Fault Source in_source refused.two_names (Syntax (place 1 3)) }
    ensures own_name { Fault Source in_source refused.own_name (Refused (place 1 3) c.DlName) }
    ensures two_functions { Fault Source (source_limits 1) refused.two_functions
        (TooMany (place 1 15)) }
    ensures nots_accepted { Accepted Source in_source (symbols (refused.nots 398 0))
        (refused.nots_tree 398) }
    ensures nots_refused { Fault Source in_source (refused.nots 399 0) (TooDeep (place 1 1)) }
    ensures spent { Fault Source refused.one_bracket refused.brackets (TooDeep (place 1 1)) }
    ensures not_only_spent { Fault Source refused.one_bracket refused.brackets
        (Refused (place 1 3) c.With) }
    ensures regular_expression { Fault Source in_source refused.regular_expression
        (Refused (place 1 3) c.RegExp) }
    ensures function_in_if { Fault Source in_source refused.function_in_if
        (Refused (place 1 6) c.FunctionPlace) }
    ensures eval_called { Fault Source in_source refused.eval_called (Refused (place 1 3) c.Eval) }
    ensures callee_read { Fault Source in_source refused.callee_read
        (Refused (place 1 3) c.Callee) }
    ensures arguments_declared { Fault Source in_source refused.arguments_declared
        (Refused (place 1 5) c.Arguments) }
    ensures late_in_hexadecimal { Fault Written in_site refused.late_in_hexadecimal
        (Syntax (place 1 16)) }
{}

/// What is told of a token behind `function f(a`, where it is the breaking one.
pub fn told_tokens()
    ensures with_is { refused.told (k.Word w.With) ≡ Refused (place 1 1) c.With }
    ensures debugger_is { refused.told (k.Word w.Debugger) ≡ Refused (place 1 1) c.Debugger }
    ensures slash_is { refused.told (k.Mark m.Slash) ≡ Refused (place 1 1) c.RegExp }
    ensures slash_assign_is { refused.told (k.Mark m.SlashAssign) ≡ Refused (place 1 1) c.RegExp }
    ensures own_text_is { refused.told (k.Str (codes "$dl_x")) ≡ Refused (place 1 1) c.DlName }
    ensures own_is { refused.told (k.Name (codes "$dl_x")) ≡ Refused (place 1 1) c.DlName }
    ensures eval_is { refused.told (k.Name (codes "eval")) ≡ Refused (place 1 1) c.Eval }
    ensures function_name_is { refused.told (k.Name (codes "Function"))
        ≡ Refused (place 1 1) c.FunctionName }
    ensures infinity_is { refused.told (k.Name (codes "Infinity"))
        ≡ Refused (place 1 1) c.InfinityName }
    ensures arguments_is { refused.told (k.Name (codes "arguments"))
        ≡ Refused (place 1 1) c.Arguments }
    ensures callee_is { refused.told (k.Name (codes "callee")) ≡ Refused (place 1 1) c.Callee }
    ensures caller_is { refused.told (k.Name (codes "caller")) ≡ Refused (place 1 1) c.Caller }
    ensures function_is { refused.told (k.Word w.Function) ≡ Refused (place 1 1) c.FunctionPlace }
    ensures earlier_formal_is { refused.told (k.Name (codes "a"))
        ≡ Refused (place 1 1) c.RepeatedFormal }
    ensures later_word_is { refused.told (k.Word w.Class) ≡ Syntax (place 1 1) }
    ensures other_name_is { refused.told (k.Name (codes "b")) ≡ Syntax (place 1 1) }
    ensures end_is { refused.told k.End ≡ Syntax (place 1 1) }
{}

/// What a function, its body and its entry are written as.
pub fn written_parts()
    ensures function_text { func_text rows.entry ≡ codes "function(){host.out(\"two\");}" }
    ensures of_body { body_text rows.entry_body ≡ codes "host.out(\"two\");" }
    ensures of_entry { entry_text rows.entry ≡ codes "(function(){host.out(\"two\");})" }
{}
