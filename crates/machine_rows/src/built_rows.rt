//! What of the language the machine runs so far, and where it stops since something is not built
//! yet: these calls do nothing.

ghost use Rattle.std.specs.Prelude.{◌≡◌, ◌∷◌, [], ◌++◌, ℕ, List, map, replicate, codes};
ghost use Rattle.std.specs.Prelude.{Some, None, true, false};
ghost use Rattle.js_tree.specs.declared.tree.BinaryOp.TheVariants as op;
ghost use Rattle.js_tree.specs.declared.tree.Expr.{Expr};
ghost use Rattle.js_tree.specs.declared.tree.PostfixOp.TheVariants as postfix;
ghost use Rattle.js_tree.specs.declared.tree.PrefixOp.TheVariants as prefix;
ghost use Rattle.js_tree.specs.declared.tree.Stmt.{Stmt};
ghost use Rattle.js_tree.specs.declared.tree.VarItem.{VarItem};
ghost use Rattle.js_tree.specs.Plain as view;
ghost use Rattle.js_tree.specs.Tree.{MoreStmts, NoStmts};
ghost use Rattle.js_tree.specs.Tree as tree;
ghost use Rattle.js_values.specs.declared.value.ObjectId.{ObjectId};
ghost use Rattle.js_values.specs.declared.value.Value.{Value};
ghost use Rattle.object_heap.specs.Start.{heap_at_start};
ghost use Rattle.js_machine.specs.declared.frame.Control.TheVariants as control;
ghost use Rattle.js_machine.specs.declared.frame.End.{End};
ghost use Rattle.js_machine.specs.declared.frame.Frame.TheVariants as frame;
ghost use Rattle.js_machine.specs.declared.frame.Unbuilt.TheVariants as unbuilt;
ghost use Rattle.js_machine.specs.declared.machine.Machine.{Machine};
ghost use Rattle.js_machine.specs.Built.{is_begun, is_built_expression, is_built_prefix};
ghost use Rattle.js_machine.specs.Built.{is_built_statement, is_dot, is_name, is_plain_jump};
ghost use Rattle.js_machine.specs.Built.{is_plain_prefix, is_target};
ghost use Rattle.js_machine.specs.Members.{is_member};
ghost use Rattle.js_machine.specs.NotBuilt.{IsNotBuilt, StopsRightly, goes_on_built};
ghost use Rattle.js_machine.specs.NotBuilt.{has_functions, holds_entered, names_entered};
ghost use Rattle.machine_rows.specs.Alone.{hosts, more_objects, with_x};
ghost use Rattle.machine_rows.specs.Converting.{Looks};
ghost use Rattle.machine_rows.specs.Nodes as node;
ghost use Rattle.machine_rows.specs.Samples.{nothing, null, object, text, whole, yes};
ghost use Rattle.machine_rows.specs.Writing.{a, to_string, x};

/// Expressions: all but functions, `new`, and calls of what is no dot.
pub fn built_expressions()
    ensures each_kind { map is_built_expression node.expressions
        ≡ replicate 8 true ++ false ∷ true ∷ true ∷ true ∷ false ∷ replicate 8 true ++ false
        ∷ [] }
    ensures numbers { map (λ n. is_built_expression (tree.Num n))
        (0 ∷ 9007199254740991 ∷ 9007199254740992 ∷ []) ≡ true ∷ true ∷ false ∷ [] }
    ensures truths { map (λ b. is_built_expression (tree.Truth b)) (true ∷ false ∷ [])
        ≡ true ∷ true ∷ [] }
    ensures calls { map is_built_expression node.calls ≡ true ∷ false ∷ false ∷ true ∷ [] }
    ensures postfix { map (λ e. is_built_expression (tree.Postfix e postfix.Decrement)) node.targets
        ≡ true ∷ true ∷ true ∷ false ∷ [] }
    ensures assignments { map (λ e. is_built_expression (tree.Assign None e node.dot)) node.targets
        ≡ true ∷ true ∷ true ∷ false ∷ [] }
    ensures compound_assignments { map (λ e. is_built_expression (tree.Assign (Some op.Add) e
        node.dot)) node.targets ≡ true ∷ true ∷ true ∷ false ∷ [] }
    ensures prefixes { map (λ op. map (is_built_prefix op) node.targets) node.prefixes
        ≡ replicate 3 (replicate 4 true) ++ (true ∷ true ∷ true ∷ false ∷ [])
        ∷ (true ∷ true ∷ true ∷ false ∷ []) ∷ replicate 4 (replicate 4 true) }
    ensures plain_prefixes { map (λ op. map (is_plain_prefix op) node.targets) node.prefixes
        ≡ (true ∷ false ∷ false ∷ true ∷ []) ∷ replicate 4 true
        ∷ (true ∷ false ∷ false ∷ true ∷ []) ∷ (true ∷ false ∷ false ∷ false ∷ [])
        ∷ (true ∷ false ∷ false ∷ false ∷ []) ∷ replicate 4 (replicate 4 true) }
    ensures targets { map is_target node.targets ≡ true ∷ true ∷ true ∷ false ∷ [] }
    ensures prefixed { map (λ op. map (λ e. is_built_expression (tree.Prefix op e)) node.targets)
        node.prefixes ≡ map (λ op. map (is_built_prefix op) node.targets) node.prefixes }
    ensures names { map is_name node.expressions ≡ replicate 5 false ++ true ∷ replicate 16 false }
    ensures members { map is_member node.expressions
        ≡ replicate 9 false ++ true ∷ true ∷ replicate 11 false }
    ensures dots { map is_dot node.expressions ≡ replicate 9 false ++ true ∷ replicate 12 false }
{}

/// Statements: those of 12.1 to 12.6, and jumps without labels. All but declarations and the
/// notes of a use are begun.
pub fn built_statements()
    ensures each_kind { map is_built_statement node.statements
        ≡ replicate 11 true ++ replicate 7 false }
    ensures far_jumps { map is_built_statement node.far_jumps ≡ false ∷ false ∷ [] }
    ensures plain_jumps { map is_plain_jump (None ∷ Some a ∷ []) ≡ true ∷ false ∷ [] }
    ensures begun { map is_begun node.statements ≡ replicate 16 true ++ false ∷ false ∷ [] }
    ensures begins { map (λ s. goes_on_built (MoreStmts s NoStmts)) node.statements
        ≡ replicate 16 true ++ false ∷ false ∷ [] }
    ensures ends { goes_on_built NoStmts ≡ true }
    ensures first_of_two { goes_on_built (MoreStmts tree.Empty (MoreStmts (tree.Used 3) NoStmts))
        ≡ true }
    ensures declares { map has_functions ([] ∷ (node.declared ∷ [])
        ∷ (node.declared ∷ node.other_declared ∷ []) ∷ []) ≡ false ∷ true ∷ true ∷ [] }
{}

/// An operator looks into an object where the newest value, or with its left operand that below, is
/// one whose conversion enters a function, by its frame. The left operand is the one below.
pub fn frames_that_look_inside()
    ensures no_frame { Looks [] (object 67 ∷ object 67 ∷ []) → ⊥ }
    ensures right { Looks (frame.Right op.Add ∷ []) (object 67 ∷ whole 1 ∷ []) }
    ensures left { Looks (frame.Right op.Add ∷ []) (whole 1 ∷ object 67 ∷ []) }
    ensures by_its_operator { Looks (frame.Right op.Equal ∷ []) (object 71 ∷ object 67 ∷ [])
        → ⊥ }
    ensures no_objects { Looks (frame.Right op.Add ∷ []) (whole 1 ∷ text a ∷ []) → ⊥ }
    ensures not_deeper { Looks (frame.Right op.Add ∷ []) (whole 1 ∷ whole 1 ∷ object 67 ∷ [])
        → ⊥ }
    ensures left_operand_first { Looks (frame.Right op.Subtract ∷ [])
        (object 67 ∷ text (codes "1.5") ∷ []) → ⊥ }
    ensures tests { Looks (frame.Right op.In ∷ []) (whole 1 ∷ whole 1 ∷ []) }
    ensures stores { (e : Expr) → Looks (frame.StoreWith op.Add e ∷ [])
        (object 67 ∷ whole 1 ∷ []) }
    ensures stores_left { (e : Expr) → Looks (frame.StoreWith op.Add e ∷ [])
        (whole 1 ∷ object 67 ∷ []) }
    ensures stores_plainly { (e : Expr) → Looks (frame.StoreWith op.Add e ∷ [])
        (whole 1 ∷ text a ∷ []) → ⊥ }
    ensures stores_in_order { (e : Expr) → Looks (frame.StoreWith op.Subtract e ∷ [])
        (object 67 ∷ text (codes "1.5") ∷ []) → ⊥ }
    ensures unary { Looks (frame.Unary prefix.Plus ∷ []) (object 67 ∷ []) }
    ensures newest { Looks (frame.Unary prefix.Plus ∷ []) (whole 1 ∷ object 67 ∷ []) → ⊥ }
    ensures unary_of_all { Looks (frame.Unary prefix.Not ∷ []) (object 67 ∷ []) → ⊥ }
    ensures key { (e : Expr) → Looks (frame.Key e ∷ []) (object 67 ∷ whole 1 ∷ []) }
    ensures plain_key { (e : Expr) → Looks (frame.Key e ∷ []) (text a ∷ object 67 ∷ []) → ⊥ }
    ensures visit_key { (s : Stmt) → Looks (frame.VisitKey 0 s ∷ [])
        (object 67 ∷ whole 1 ∷ []) }
    ensures plain_visit_key { (s : Stmt) → Looks (frame.VisitKey 0 s ∷ [])
        (text a ∷ object 67 ∷ []) → ⊥ }
    ensures visit_key_throws { (s : Stmt) → Looks (frame.VisitKey 0 s ∷ [])
        (object 70 ∷ object 67 ∷ []) → ⊥ }
    ensures no_visit_base { (s : Stmt) → Looks (frame.VisitKey 0 s ∷ [])
        (object 67 ∷ null ∷ []) → ⊥ }
    ensures puts { Looks (frame.PutWith op.Add ∷ []) (object 67 ∷ whole 1 ∷ []) }
    ensures puts_left { Looks (frame.PutWith op.Add ∷ []) (whole 1 ∷ object 67 ∷ []) }
    ensures puts_plainly { Looks (frame.PutWith op.Add ∷ [])
        (whole 1 ∷ text a ∷ object 67 ∷ []) → ⊥ }
    ensures changes { Looks (frame.Changed postfix.Increment true ∷ []) (object 67 ∷ []) }
    ensures changes_plainly { Looks (frame.Changed postfix.Increment true ∷ [])
        (text a ∷ object 67 ∷ []) → ⊥ }
    ensures in_object { Looks (frame.In ∷ []) (object 67 ∷ object 67 ∷ []) }
    ensures in_plainly { Looks (frame.In ∷ []) (object 67 ∷ text a ∷ []) → ⊥ }
    ensures right_throws { Looks (frame.Right op.Add ∷ []) (whole 1 ∷ object 70 ∷ []) → ⊥ }
    ensures right_operand { Looks (frame.Right op.Greater ∷ []) (object 70 ∷ object 67 ∷ []) → ⊥ }
    ensures store_throws { (e : Expr) → Looks (frame.StoreWith op.Add e ∷ [])
        (whole 1 ∷ object 70 ∷ []) → ⊥ }
    ensures unary_throws { Looks (frame.Unary prefix.Plus ∷ []) (object 70 ∷ []) → ⊥ }
    ensures key_throws { (e : Expr) → Looks (frame.Key e ∷ []) (object 70 ∷ object 67 ∷ []) → ⊥ }
    ensures no_base { (e : Expr) → Looks (frame.Key e ∷ []) (object 67 ∷ null ∷ []) → ⊥ }
    ensures put_throws { Looks (frame.PutWith op.Add ∷ []) (whole 1 ∷ object 70 ∷ []) → ⊥ }
    ensures change_throws { Looks (frame.Changed postfix.Increment true ∷ []) (object 70 ∷ [])
        → ⊥ }
    ensures in_throws { Looks (frame.In ∷ []) (object 67 ∷ object 70 ∷ []) → ⊥ }
    ensures in_no_object { Looks (frame.In ∷ []) (whole 1 ∷ object 67 ∷ []) → ⊥ }
    ensures behind { Looks (frame.Do ∷ frame.Unary prefix.Plus ∷ []) (object 67 ∷ []) → ⊥ }
{}

/// What waits for other values looks into none.
pub fn frames_that_look_at_no_object()
    ensures left { (e : Expr) (vs : List Value) → Looks (frame.Left op.Add e ∷ []) vs → ⊥ }
    ensures and { (e : Expr) (vs : List Value) → Looks (frame.And e ∷ []) vs → ⊥ }
    ensures or { (e : Expr) (vs : List Value) → Looks (frame.Or e ∷ []) vs → ⊥ }
    ensures comma { (e : Expr) (vs : List Value) → Looks (frame.Comma e ∷ []) vs → ⊥ }
    ensures cond { (e f : Expr) (vs : List Value) → Looks (frame.Cond e f ∷ []) vs → ⊥ }
    ensures does { (vs : List Value) → Looks (frame.Do ∷ []) vs → ⊥ }
    ensures next { (ss : List Stmt) (i : ℕ) (vs : List Value)
        → Looks (frame.Next ss i ∷ []) vs → ⊥ }
    ensures branches { (s : Stmt) (vs : List Value) → Looks (frame.If s ∷ []) vs → ⊥ }
    ensures test { (s : Stmt) (vs : List Value) → Looks (frame.Test s ∷ []) vs → ⊥ }
    ensures turn { (s : Stmt) (vs : List Value) → Looks (frame.Turn s ∷ []) vs → ⊥ }
    ensures again { (s : Stmt) (vs : List Value) → Looks (frame.Again s ∷ []) vs → ⊥ }
    ensures store { (e : Expr) (vs : List Value) → Looks (frame.Store e ∷ []) vs → ⊥ }
    ensures type_of { (vs : List Value) → Looks (frame.Type ∷ []) vs → ⊥ }
    ensures var { (i : ℕ) (items : List VarItem) (vs : List Value)
        → Looks (frame.Var i items ∷ []) vs → ⊥ }
    ensures for_var { (i : ℕ) (items : List VarItem) (s : Stmt) (vs : List Value)
        → Looks (frame.ForVar i items s ∷ []) vs → ⊥ }
    ensures callee { (e : Expr) (es : List Expr) (vs : List Value)
        → Looks (frame.Callee e es ∷ []) vs → ⊥ }
    ensures argument { (i : ℕ) (e : Expr) (es : List Expr) (vs : List Value)
        → Looks (frame.Argument i e es ∷ []) vs → ⊥ }
    ensures base { (e : Expr) (vs : List Value) → Looks (frame.Base e ∷ []) vs → ⊥ }
    ensures put { (vs : List Value) → Looks (frame.Put ∷ []) vs → ⊥ }
    ensures visits_from { (s : Stmt) (vs : List Value) → Looks (frame.VisitsFrom s ∷ []) vs → ⊥ }
    ensures visits { (s : Stmt) (vs : List Value) → Looks (frame.Visits s ∷ []) vs → ⊥ }
    ensures visit { (i : ℕ) (s : Stmt) (vs : List Value) → Looks (frame.Visit i s ∷ []) vs → ⊥ }
    ensures visit_base { (i : ℕ) (s : Stmt) (vs : List Value)
        → Looks (frame.VisitBase i s ∷ []) vs → ⊥ }
{}

/// Names that are not built, as they hold an object whose conversion enters a function.
pub fn unbuilt_names()
    ensures holds { map (holds_entered more_objects hosts) (None ∷ map Some (nothing ∷ null ∷ yes
        ∷ whole 1 ∷ text a ∷ object 67 ∷ object 70 ∷ []))
        ≡ replicate 6 false ++ true ∷ false ∷ [] }
    ensures names { map (λ v. names_entered (with_x v) hosts (Some x)) (whole 1 ∷ object 2
        ∷ object 70 ∷ []) ≡ false ∷ true ∷ false ∷ [] }
    ensures unbound { names_entered heap_at_start hosts (Some x) ≡ false }
    ensures inherited { names_entered heap_at_start hosts (Some to_string) ≡ true }
    ensures no_name { names_entered (with_x (object 2)) hosts None ≡ false }
{}

/// Where the machine says that something is not built, it is not.
pub fn unbuilt_places()
    ensures expression { (e : Expr) (m : Machine) → view.expr e ≡ node.late
        → IsNotBuilt (unbuilt.Expr e) m }
    ensures built_expression { (e : Expr) (m : Machine) → view.expr e ≡ node.name
        → IsNotBuilt (unbuilt.Expr e) m → ⊥ }
    ensures statement { (s : Stmt) (m : Machine) → view.stmt s ≡ tree.Throw node.name
        → IsNotBuilt (unbuilt.Stmt s) m }
    ensures built_statement { (s : Stmt) (m : Machine) → view.stmt s ≡ tree.Empty
        → IsNotBuilt (unbuilt.Stmt s) m → ⊥ }
    ensures body { (s : Stmt) (m : Machine) → view.stmt s ≡ tree.Throw node.name
        → IsNotBuilt (unbuilt.Body s) m }
    ensures built_body { (s : Stmt) (m : Machine) → view.stmt s ≡ tree.Empty
        → IsNotBuilt (unbuilt.Body s) m → ⊥ }
    ensures give { (m : Machine) → IsNotBuilt unbuilt.Give (record m {
      heap = more_objects;
      frames = frame.Unary prefix.Plus ∷ [];
      values = object 67 ∷ [];
    }) }
    ensures thrown_give { (m : Machine) → IsNotBuilt unbuilt.Give (record m {
      heap = more_objects;
      frames = frame.Unary prefix.Plus ∷ [];
      values = object 70 ∷ [];
    }) → ⊥ }
    ensures built_give { (m : Machine) → IsNotBuilt unbuilt.Give (record m {
      frames = frame.Unary prefix.Plus ∷ [];
      values = whole 5 ∷ [];
    }) → ⊥ }
    ensures list { (s : Stmt) (m : Machine) → view.stmt s ≡ tree.Used 3
        → IsNotBuilt (unbuilt.List (s ∷ []) 0) m }
    ensures list_goes_on { (s t : Stmt) (m : Machine) → view.stmt t ≡ tree.Declare node.declared
        → IsNotBuilt (unbuilt.List (s ∷ t ∷ []) 1) m }
    ensures built_list { (s t : Stmt) (m : Machine) → view.stmt s ≡ tree.Empty
        → IsNotBuilt (unbuilt.List (s ∷ t ∷ []) 0) m → ⊥ }
    ensures script { (s : Stmt) (m : Machine) → view.stmt s ≡ tree.Declare node.declared
        → IsNotBuilt (unbuilt.Script (s ∷ [])) m }
    ensures built_script { (s : Stmt) (m : Machine) → view.stmt s ≡ tree.Empty
        → IsNotBuilt (unbuilt.Script (s ∷ [])) m → ⊥ }
    ensures end_of_list { (m : Machine) → IsNotBuilt (unbuilt.List [] 0) m → ⊥ }
    ensures empty_script { (m : Machine) → IsNotBuilt (unbuilt.Script []) m → ⊥ }
    ensures change { (e : Expr) (m : Machine) → view.expr e ≡ node.name
        → IsNotBuilt (unbuilt.Change postfix.Increment true e)
        (record m { heap = with_x (object 2) }) }
    ensures built_change { (e : Expr) (m : Machine) → view.expr e ≡ node.name
        → IsNotBuilt (unbuilt.Change postfix.Increment true e)
        (record m { heap = with_x (whole 2) }) → ⊥ }
    ensures thrown_change { (e : Expr) (m : Machine) → view.expr e ≡ node.name
        → IsNotBuilt (unbuilt.Change postfix.Increment true e)
        (record m { heap = with_x (object 70) }) → ⊥ }
    ensures enter { (m : Machine) → IsNotBuilt (unbuilt.Enter 0 (record { 0 = 13 }))
        (record m { heap = more_objects }) }
    ensures built_enter { (m : Machine) → IsNotBuilt (unbuilt.Enter 13 (record { 0 = 65 }))
        (record m { heap = more_objects }) → ⊥ }
    ensures stops { (m : Machine) → StopsRightly (control.Unbuilt (unbuilt.Enter 0 (record {
      0 = 13;
    }))) (record m { heap = more_objects }) }
    ensures stops_wrongly { (m : Machine) → StopsRightly (control.Unbuilt (unbuilt.Enter 0 (record {
      0 = 65;
    }))) (record m { heap = more_objects }) → ⊥ }
{}

/// Where it goes on, or is over, it says nothing of that kind.
pub fn other_controls()
    ensures expression { (e : Expr) (m : Machine) → StopsRightly (control.Expr e) m }
    ensures statement { (s : Stmt) (m : Machine) → StopsRightly (control.Stmt s) m }
    ensures body { (s : Stmt) (m : Machine) → StopsRightly (control.Body s) m }
    ensures call { (n : ℕ) (e : Expr) (m : Machine) → StopsRightly (control.Call n e) m }
    ensures enter { (n : ℕ) (o : ObjectId) (m : Machine) → StopsRightly (control.Enter n o) m }
    ensures give { (m : Machine) → StopsRightly control.Give m }
    ensures done { (m : Machine) → StopsRightly control.Done m }
    ensures jumps_out { (m : Machine) → StopsRightly control.Break m }
    ensures jumps_on { (m : Machine) → StopsRightly control.Continue m }
    ensures throws { (m : Machine) → StopsRightly control.Throw m }
    ensures ends { (e : End) (m : Machine) → StopsRightly (control.End e) m }
{}
