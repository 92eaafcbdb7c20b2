//! Worked operators (ES3 11.5 to 11.10) and conversions of objects (8.6.2.6): these calls do
//! nothing, and each says what the host sees.

ghost use Rattle.std.specs.Prelude.{◌≡◌, ◌∷◌, [], codes, true, false, map, replicate};
ghost use Rattle.js_tree.specs.declared.tree.BinaryOp.TheVariants as op;
ghost use Rattle.js_values.specs.declared.number.Num.TheVariants.{NaN};
ghost use Rattle.js_values.specs.declared.shown.Shown.TheVariants as shown;
ghost use Rattle.machine_rows.specs.ExpressionScripts.{binary, empty, one, nothing};
ghost use Rattle.machine_rows.specs.OperatorScripts as small;
ghost use Rattle.machine_rows.specs.Rows.{behind, caught, minus, number, out, text, texts, truth};
ghost use Rattle.machine_rows.specs.Rows.{values};
ghost use Rattle.machine_rows.specs.Writing as tree;

/// Sums, products, shifts and bits.
pub fn numbers_and_texts()
    ensures sums { values small.sums ≡ out (number 42 ∷ number 4 ∷ number 1 ∷ minus 1 ∷ number 3
        ∷ number 3 ∷ text (codes "a1") ∷ text (codes "1a") ∷ number 12 ∷ number 1 ∷ shown.Num NaN
        ∷ text (codes "aundefined") ∷ text (codes "1,2") ∷ []) ∷ [] }
    ensures bits { values small.bits ≡ out (number 2 ∷ minus 1 ∷ number 15 ∷ number 2 ∷ number 7
        ∷ number 5 ∷ number 255 ∷ number 1 ∷ []) ∷ [] }
{}

/// Orders, of which `>` and `<=` convert their right operand first.
pub fn orders()
    ensures values { values small.orders ≡ out (map truth (true ∷ true ∷ true ∷ false ∷ false
        ∷ false ∷ true ∷ false ∷ true ∷ true ∷ false ∷ true ∷ false ∷ [])) ∷ [] }
    ensures less { values (small.compares op.Less)
        ≡ texts tree.a ∷ texts tree.b ∷ out (truth true ∷ []) ∷ [] }
    ensures greater { values (small.compares op.Greater)
        ≡ texts tree.b ∷ texts tree.a ∷ out (truth false ∷ []) ∷ [] }
    ensures less_equal { values (small.compares op.LessEqual)
        ≡ texts tree.b ∷ texts tree.a ∷ out (truth true ∷ []) ∷ [] }
    ensures greater_equal { values (small.compares op.GreaterEqual)
        ≡ texts tree.a ∷ texts tree.b ∷ out (truth false ∷ []) ∷ [] }
    ensures subtract { values (small.compares op.Subtract)
        ≡ texts tree.a ∷ texts tree.b ∷ out (minus 1 ∷ []) ∷ [] }
{}

/// Equalities and tests of objects.
pub fn equalities()
    ensures equal { values small.equalities ≡ out (map truth (true ∷ true ∷ false ∷ false ∷ true
        ∷ true ∷ false ∷ true ∷ [])) ∷ [] }
    ensures same { values small.identities ≡ out (map truth (true ∷ false ∷ false ∷ false ∷ true
        ∷ false ∷ false ∷ [])) ∷ [] }
    ensures with_objects { behind (tree.var tree.o empty ∷ []) small.with_objects
        ≡ out (map truth (true ∷ true ∷ false ∷ false ∷ true ∷ true ∷ true
        ∷ true ∷ [])) ∷ [] }
    ensures tests { values small.tests ≡ out (map truth (true ∷ false ∷ true ∷ true ∷ true
        ∷ false ∷ [])) ∷ [] }
    ensures instance_of_number { caught (small.only (binary op.InstanceOf empty one))
        ≡ texts (codes "TypeError") ∷ [] }
    ensures instance_of_object { caught (small.only (binary op.InstanceOf empty empty))
        ≡ texts (codes "TypeError") ∷ [] }
    ensures in_a_text { caught (small.only (binary op.In one (tree.text tree.a)))
        ≡ texts (codes "TypeError") ∷ [] }
{}

/// Conversions of objects, by their hints.
pub fn conversions()
    ensures no_hint { values (small.added (small.both one (tree.text tree.x)) ∷ [])
        ≡ texts (codes "v") ∷ texts (codes "1") ∷ [] }
    ensures to_number { values (small.number_of (small.both one (tree.text tree.x)) ∷ [])
        ≡ texts (codes "v") ∷ out (number 1 ∷ []) ∷ [] }
    ensures to_text { values (small.read_by (small.both one (tree.text tree.x)) ∷ [])
        ≡ texts (codes "s") ∷ out (shown.Undefined ∷ []) ∷ [] }
    ensures second_method { values (small.added (small.both empty (tree.text tree.x)) ∷ [])
        ≡ texts (codes "v") ∷ texts (codes "s") ∷ texts tree.x ∷ [] }
    ensures second_for_text { values (small.read_by (small.both one empty) ∷ [])
        ≡ texts (codes "s") ∷ texts (codes "v") ∷ out (shown.Undefined ∷ []) ∷ [] }
    ensures no_primitive { caught (small.only (small.added (small.both empty empty)))
        ≡ texts (codes "v") ∷ texts (codes "s") ∷ texts (codes "TypeError") ∷ [] }
    ensures object_method { caught (small.only (small.added small.with_object_method))
        ≡ texts (codes "TypeError") ∷ [] }
    ensures number_method { values (small.added small.with_number_method ∷ [])
        ≡ texts (codes "s") ∷ [] }
{}
