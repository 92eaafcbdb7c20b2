//! Calls of properties (ES3 11.2.3), and the stack on which their arguments stand above their base:
//! these calls do nothing.

ghost use Rattle.std.specs.Prelude.{◌≡◌, ◌∷◌, [], ◌++◌, codes, map, replicate};
ghost use Rattle.std.specs.Prelude.{Some, None, true, false};
ghost use Rattle.js_values.specs.declared.shown.Shown.TheVariants as shown;
ghost use Rattle.js_tree.specs.declared.tree.PostfixOp.TheVariants as postfix;
ghost use Rattle.js_tree.specs.declared.tree.PrefixOp.TheVariants as prefix;
ghost use Rattle.object_heap.specs.declared.built_in.BuiltIn.TheVariants as built;
ghost use Rattle.object_heap.specs.declared.object.Class.TheVariants as class;
ghost use Rattle.object_heap.specs.BuiltIns.{number_of};
ghost use Rattle.object_heap.specs.Changes.{defined};
ghost use Rattle.object_heap.specs.Objects.{prototype_of};
ghost use Rattle.object_heap.specs.Start.{heap_at_start};
ghost use Rattle.js_tree.specs.Tree as plain;
ghost use Rattle.js_machine.specs.Asks.{Gives};
ghost use Rattle.js_machine.specs.Frames.{done};
ghost use Rattle.js_machine.specs.HostCalls.{heap_with_host};
ghost use Rattle.js_machine.specs.Logs.{last_state, marks_of};
ghost use Rattle.js_machine.specs.Literals.{object_number};
ghost use Rattle.js_machine.specs.Members.{arguments_on, base_on, deletes, dot_name, has_member};
ghost use Rattle.js_machine.specs.Members.{heap_deleted, heap_put, is_base, is_index, is_member};
ghost use Rattle.js_machine.specs.Members.{is_native, is_native_by, is_put, member_called};
ghost use Rattle.js_machine.specs.Members.{property_in, target_of, text_in};
ghost use Rattle.js_machine.specs.Primary.{new_array};
ghost use Rattle.js_machine.specs.Rest.{thrown};
ghost use Rattle.js_machine.specs.Run.{Call};
ghost use Rattle.js_machine.specs.Stacks.{below, top, without};
ghost use Rattle.machine_rows.specs.Alone.{fixed, global, more_objects, outcome_of, run_in};
ghost use Rattle.machine_rows.specs.Members.{called, three_above};
ghost use Rattle.machine_rows.specs.Nodes as node;
ghost use Rattle.machine_rows.specs.Samples.{minus, nan, no, nothing, null, object, text, whole};
ghost use Rattle.machine_rows.specs.Samples.{whole_number, yes};
ghost use Rattle.machine_rows.specs.Writing as tree;

/// The stack of values, and of a call its arguments, in order, above its base.
pub fn stacks_of_values()
    ensures top { map top ([] ∷ (whole 1 ∷ []) ∷ (whole 2 ∷ whole 1 ∷ []) ∷ [])
        ≡ nothing ∷ whole 1 ∷ whole 2 ∷ [] }
    ensures below { map below ([] ∷ (whole 1 ∷ []) ∷ (whole 2 ∷ whole 1 ∷ []) ∷ [])
        ≡ [] ∷ [] ∷ (whole 1 ∷ []) ∷ [] }
    ensures without { map (λ n. without n (whole 2 ∷ whole 1 ∷ [])) (0 ∷ 1 ∷ 2 ∷ 3 ∷ [])
        ≡ (whole 2 ∷ whole 1 ∷ []) ∷ (whole 1 ∷ []) ∷ [] ∷ [] ∷ [] }
    ensures arguments { map (λ n. arguments_on n three_above) (0 ∷ 1 ∷ 2 ∷ 3 ∷ [])
        ≡ [] ∷ (whole 3 ∷ []) ∷ (whole 2 ∷ whole 3 ∷ [])
        ∷ (whole 1 ∷ whole 2 ∷ whole 3 ∷ []) ∷ [] }
    ensures bases { map (λ n. base_on n three_above) (0 ∷ 1 ∷ 2 ∷ 3 ∷ 4 ∷ 5 ∷ [])
        ≡ whole 3 ∷ whole 2 ∷ whole 1 ∷ text tree.a ∷ yes ∷ nothing ∷ [] }
{}

/// What is read of a property: the value of the first on the chain that has it, and undefined where
/// none has (ES3 8.6.2.1); of a text its `length` (15.5.5.1), and of a primitive value what its
/// prototype has (8.7.1).
pub fn members_of_values()
    ensures dots { map dot_name node.expressions
        ≡ replicate 9 None ++ Some tree.a ∷ replicate 12 None }
    ensures indices { map is_index node.expressions
        ≡ replicate 10 false ++ true ∷ replicate 11 false }
    ensures bases { map is_base (nothing ∷ null ∷ yes ∷ no ∷ whole 5 ∷ nan ∷ text [] ∷ object 70
        ∷ []) ≡ false ∷ false ∷ replicate 6 true }
    ensures of_the_global_object { map (property_in heap_at_start (object 12)) (codes "Math"
        ∷ tree.to_string ∷ codes "NaN" ∷ codes "undefined" ∷ codes "nope" ∷ [])
        ≡ object 10 ∷ object 24 ∷ nan ∷ nothing ∷ nothing ∷ [] }
    ensures own_first { property_in (defined global tree.to_string (whole 7) fixed heap_at_start)
        (object 12) tree.to_string ≡ whole 7 }
    ensures along_prototypes { map (property_in more_objects (object 67)) (codes "push"
        ∷ tree.to_string ∷ codes "hasOwnProperty" ∷ codes "nope" ∷ [])
        ≡ object 36 ∷ object 32 ∷ object 26 ∷ nothing ∷ [] }
    ensures of_a_primitive_value { map (λ v. property_in heap_at_start v tree.to_string)
        (nothing ∷ null ∷ yes ∷ whole 5 ∷ text tree.a ∷ [])
        ≡ nothing ∷ nothing ∷ map (λ b. object (number_of b)) (built.BooleanToString
        ∷ built.NumberToString ∷ built.StringToString ∷ []) }
    ensures of_a_text { map (property_in heap_at_start (text (codes "abc"))) (codes "length"
        ∷ codes "0" ∷ codes "nope" ∷ []) ≡ whole 3 ∷ nothing ∷ nothing ∷ [] }
    ensures length_of_a_number { property_in heap_at_start (whole 5) (codes "length") ≡ nothing }
    ensures natives { map (is_native more_objects) (1 ∷ 13 ∷ 64 ∷ []) ≡ replicate 3 true }
    ensures no_natives { map (is_native more_objects) (0 ∷ 2 ∷ 10 ∷ 12 ∷ 65 ∷ 66 ∷ 67 ∷ 68 ∷ 69
        ∷ []) ≡ replicate 9 false }
    ensures by_class { map (λ c. is_native_by c (Some built.Object)) (None ∷ map Some (class.Plain
        ∷ class.Function ∷ class.Array ∷ class.Arguments ∷ class.Error ∷ class.Math ∷ []))
        ≡ false ∷ false ∷ true ∷ replicate 4 false }
    ensures made_later { is_native_by (Some class.Function) None ≡ false }
{}

/// Which nodes have a member for their target, and the parts of it (ES3 11.2.1, 11.3, 11.4, 11.13).
pub fn targets_of_nodes()
    ensures members { map is_member node.targets ≡ false ∷ true ∷ true ∷ false ∷ [] }
    ensures assigned { map (λ e. has_member (plain.Assign None e node.one)) node.targets
        ≡ false ∷ true ∷ true ∷ false ∷ [] }
    ensures incremented { map (λ e. has_member (plain.Postfix e postfix.Increment)) node.targets
        ≡ false ∷ true ∷ true ∷ false ∷ [] }
    ensures by_operator { map (λ op. has_member (plain.Prefix op node.dot)) node.prefixes
        ≡ true ∷ false ∷ true ∷ true ∷ true ∷ replicate 4 false }
    ensures of_a_name { map (λ op. has_member (plain.Prefix op node.name)) node.prefixes
        ≡ replicate 9 false }
    ensures themselves { map has_member node.targets ≡ replicate 4 false }
    ensures targets { map target_of (plain.Assign None node.dot node.one
        ∷ plain.Postfix node.index postfix.Increment ∷ plain.Prefix prefix.Delete node.dot
        ∷ node.dot ∷ []) ≡ node.dot ∷ node.index ∷ node.dot ∷ node.dot ∷ [] }
{}

/// What is left of a member that is deleted or written to: of a primitive value nothing changes,
/// and the `length` of a text is fixed (ES3 8.6.2.5, 8.7.2, 15.5.5.1).
pub fn changes_of_members()
    ensures deletes { map (λ name. deletes heap_at_start (object 12) name) (codes "NaN"
        ∷ codes "Math" ∷ codes "nope" ∷ []) ≡ false ∷ true ∷ true ∷ [] }
    ensures of_a_text { map (λ name. deletes heap_at_start (text tree.a) name) (codes "length"
        ∷ codes "0" ∷ []) ≡ false ∷ true ∷ [] }
    ensures of_others { map (λ v. deletes heap_at_start v (codes "length")) (nothing ∷ null ∷ yes
        ∷ whole 5 ∷ []) ≡ replicate 4 true }
    ensures deleted { property_in (heap_deleted heap_at_start (object 12) (codes "Math"))
        (object 12) (codes "Math") ≡ nothing }
    ensures fixed_stays { property_in (heap_deleted heap_at_start (object 12) (codes "NaN"))
        (object 12) (codes "NaN") ≡ nan }
    ensures written { property_in (heap_put heap_at_start (object 12) tree.x (whole 5))
        (object 12) tree.x ≡ whole 5 }
    ensures is_put { is_put heap_at_start (object 12) tree.x (whole 5) ≡ true }
    ensures bad_length { map (is_put (heap_at_start ++ new_array ∷ []) (object 65)
        (codes "length")) (minus 1 ∷ text tree.a ∷ whole 3 ∷ []) ≡ false ∷ false ∷ true ∷ [] }
    ensures on_a_primitive_value { map (λ v. is_put heap_at_start v (codes "length") (minus 1))
        (nothing ∷ null ∷ yes ∷ whole 5 ∷ text tree.a ∷ []) ≡ replicate 5 true }
    ensures names { map text_in (text tree.a ∷ whole 5 ∷ object 12 ∷ []) ≡ tree.a ∷ [] ∷ [] ∷ [] }
    ensures numbers { map object_number (object 12 ∷ whole 5 ∷ text tree.a ∷ [])
        ≡ 12 ∷ 0 ∷ 0 ∷ [] }
{}

/// The call of a property with `this` and its arguments (ES3 11.2.3); what is no function throws a
/// TypeError (7).
pub fn calls_of_members()
    ensures no_name { member_called None (object 10) (whole 5 ∷ []) ≡ done }
    ensures arguments { called (codes "abs") (object 10) (minus 5 ∷ []) ≡ Some (Gives (whole 5)) }
    ensures this { called (codes "valueOf") (object 10) [] ≡ Some (Gives (object 10)) }
    ensures order { called (codes "concat") (text tree.a) (text tree.b ∷ text tree.x ∷ [])
        ≡ Some (Gives (text (codes "abx"))) }
    ensures unbound { called (codes "nope") (object 10) [] ≡ Some (thrown (object 65)) }
    ensures no_function { called (codes "NaN") (object 12) [] ≡ Some (thrown (object 65)) }
    ensures no_function_object { called (codes "Math") (object 12) [] ≡ Some (thrown (object 65)) }
    ensures type_error { prototype_of (last_state (run_in heap_at_start
        (member_called (Some (codes "nope")) (object 10) []))).heap 65 ≡ Some 7 }
    ensures host_call { marks_of (run_in (heap_with_host tree.a heap_at_start)
        (member_called (Some tree.a) (object 11) (whole 5 ∷ object 70 ∷ [])))
        ≡ Call (codes "out") (shown.Num (whole_number 5) ∷ shown.Object 1 ∷ []) ∷ [] }
    ensures unanswered { outcome_of (run_in (heap_with_host tree.a heap_at_start)
        (member_called (Some tree.a) (object 11) [])) ≡ Some (Gives nothing) }
{}
