//! Worked expressions (ES3 11.1 to 11.4 and 11.11 to 11.14): these calls do nothing, and each says
//! what the host sees.

ghost use Rattle.std.specs.Prelude.{◌≡◌, ◌∷◌, [], codes, true, false, replicate, ◌++◌};
ghost use Rattle.js_values.specs.declared.number.Num.TheVariants.{NaN};
ghost use Rattle.js_values.specs.declared.shown.Shown.TheVariants as shown;
ghost use Rattle.machine_rows.specs.ExpressionScripts as small;
ghost use Rattle.machine_rows.specs.Rows.{behind, caught, lines, minus, number, numbers, out, text};
ghost use Rattle.machine_rows.specs.Rows.{texts, truth, values};
ghost use Rattle.machine_rows.specs.StatementScripts as statement;
ghost use Rattle.machine_rows.specs.Writing as tree;

/// Primary expressions.
pub fn primary_expressions()
    ensures literals { values small.literals ≡ out (number 1 ∷ text tree.a ∷ truth true
        ∷ truth false ∷ shown.Null ∷ shown.Undefined ∷ []) ∷ [] }
    ensures arrays { values small.arrays ≡ out (number 3 ∷ number 2 ∷ truth false ∷ truth true
        ∷ number 2 ∷ number 0 ∷ []) ∷ [] }
    ensures objects { values small.objects ≡ out (number 3 ∷ shown.Undefined ∷ truth true ∷ [])
        ∷ [] }
    ensures identities { values small.identities ≡ out (truth true ∷ text (codes "object")
        ∷ truth true ∷ truth false ∷ []) ∷ [] }
    ensures nowhere { caught (tree.does small.nope ∷ []) ≡ texts (codes "ReferenceError") ∷ [] }
{}

/// Property accessors, calls and `new`.
pub fn accesses_and_calls()
    ensures of_primitives { values small.of_primitives ≡ out (number 2 ∷ shown.Undefined
        ∷ shown.Undefined ∷ truth true ∷ truth true ∷ truth true ∷ []) ∷ [] }
    ensures of_null { caught small.reads_of_null ≡ numbers 1 ∷ texts (codes "TypeError") ∷ [] }
    ensures of_null_by_object { caught small.reads_of_null_by_object
        ≡ texts (codes "TypeError") ∷ [] }
    ensures of_undefined { caught statement.reads_of_undefined
        ≡ texts (codes "TypeError") ∷ [] }
    ensures by_keys { values small.by_keys
        ≡ texts tree.k ∷ out (number 2 ∷ number 3 ∷ []) ∷ [] }
    ensures callee_last { lines small.changes_its_callee ≡ texts tree.g ∷ [] }
    ensures constructor_first { lines small.changes_its_constructor ≡ texts tree.f ∷ [] }
    ensures nothing_called { caught small.calls_nothing
        ≡ numbers 1 ∷ texts (codes "ReferenceError") ∷ [] }
    ensures bound_late { caught small.calls_what_is_bound_late
        ≡ texts (codes "ReferenceError") ∷ [] }
    ensures deleted_meanwhile { caught small.calls_what_is_deleted
        ≡ texts (codes "TypeError") ∷ [] }
    ensures nothing_constructed { caught small.constructs_nothing
        ≡ numbers 2 ∷ texts (codes "TypeError") ∷ [] }
    ensures this_of_calls { lines small.this_of_calls
        ≡ out (truth true ∷ truth true ∷ truth false ∷ []) ∷ [] }
{}

/// Postfix and unary operators.
pub fn unary_operators()
    ensures steps { behind (tree.var tree.i (tree.number 5) ∷ []) small.steps_of_i
        ≡ out (number 5 ∷ number 6 ∷ number 7 ∷ number 7 ∷ number 5 ∷ []) ∷ [] }
    ensures steps_of_text { behind (tree.var tree.i (tree.text (codes "5")) ∷ [])
        small.steps_of_text ≡ out (number 5 ∷ number 6 ∷ []) ∷ [] }
    ensures types { values small.types ≡ out (text (codes "undefined") ∷ text (codes "object")
        ∷ text (codes "boolean") ∷ text (codes "number") ∷ text (codes "string")
        ∷ text (codes "object") ∷ text (codes "function") ∷ text (codes "function")
        ∷ text (codes "function") ∷ text (codes "undefined") ∷ []) ∷ [] }
    ensures deletes { behind small.before_deletes small.deletes ≡ out (truth false ∷ truth true
        ∷ truth true ∷ truth false ∷ truth true ∷ truth true ∷ truth false ∷ truth true
        ∷ text (codes "undefined") ∷ []) ∷ [] }
    ensures others { values small.unary_values ≡ out (shown.Undefined ∷ number 12 ∷ minus 3
        ∷ shown.Num NaN ∷ minus 6 ∷ number 0 ∷ truth true ∷ truth false ∷ number 0
        ∷ shown.Num NaN ∷ number 1 ∷ []) ∷ [] }
{}

/// Choices, assignments and the comma.
pub fn choices_and_assignments()
    ensures choices { values small.choices ≡ numbers 8 ∷ out (number 0 ∷ number 3 ∷ number 4
        ∷ number 5 ∷ number 6 ∷ number 7 ∷ number 9 ∷ []) ∷ [] }
    ensures assignments { behind (tree.var tree.x (tree.number 1) ∷ []) small.assignments
        ≡ out (number 11 ∷ number 11 ∷ number 3 ∷ number 3 ∷ []) ∷ [] }
    ensures makes_a_global { lines small.makes_a_global ≡ numbers 1 ∷ [] }
    ensures order { lines small.order_of_assignment
        ≡ texts tree.o ∷ texts tree.k ∷ texts (codes "v") ∷ [] }
    ensures refused { behind small.writes small.behind_writes
        ≡ out (number 1 ∷ shown.Undefined ∷ number 1 ∷ []) ∷ [] }
    ensures negative_length { caught (small.sets_length (small.minus 1))
        ≡ texts (codes "RangeError") ∷ [] }
    ensures length_of_text { caught (small.sets_length (tree.text (codes "2")))
        ≡ texts (codes "RangeError") ∷ [] }
    ensures great_length { caught (small.sets_length (tree.number 4294967295)) ≡ [] }
    ensures too_great_length { caught (small.sets_length (tree.number 4294967296))
        ≡ texts (codes "RangeError") ∷ [] }
{}
