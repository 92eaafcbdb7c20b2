//! Worked arrays: these calls do nothing, and each says what a definition gives.

ghost use Rattle.std.specs.Prelude.{◌≡◌, ◌∷◌, [], ◌++◌, Some, None, map, true, false, codes};
ghost use Rattle.std.specs.Prelude.{neg_ℤ, pos, replicate};
ghost use Rattle.js_values.specs.declared.number.Num.TheVariants as number;
ghost use Rattle.js_values.specs.declared.value.Value.TheVariants as value;
ghost use Rattle.object_heap.specs.declared.object.Class.TheVariants as class;
ghost use Rattle.object_heap.specs.Arrays.{length_in, no_attributes, whole};
ghost use Rattle.object_heap.specs.Changes.{can_delete, deleted, hidden_and_fixed, made};
ghost use Rattle.object_heap.specs.Names.{decimal, index_of, length_name};
ghost use Rattle.object_heap.specs.Objects.{Holds, attributes_of, properties_of};
ghost use Rattle.object_heap.specs.Put.{BadLength, put, written};
ghost use Rattle.object_heap.specs.Rows.{a, contents, one_array};
ghost use Rattle.object_heap.specs.Visited.{keys};

/// Which names are indices.
pub fn indices()
    ensures first { index_of (codes "0") ≡ Some 0 }
    ensures another { index_of (codes "1207") ≡ Some 1207 }
    ensures greatest { index_of (codes "4294967294") ≡ Some 4294967294 }
    ensures above { index_of (codes "4294967295") ≡ None }
    ensures of_decimals { map (λ k. index_of (decimal k)) (0 ∷ 7 ∷ 10 ∷ 207 ∷ [])
        ≡ Some 0 ∷ Some 7 ∷ Some 10 ∷ Some 207 ∷ [] }
    ensures others { map index_of ([] ∷ codes "00" ∷ codes "01" ∷ codes "-0" ∷ codes "-1"
        ∷ codes "1." ∷ codes "1e1" ∷ codes " 1" ∷ codes "a" ∷ codes "length" ∷ [])
        ≡ replicate 10 None }
{}

/// Arrays, and elements that are written.
pub fn elements()
    ensures at_first { contents (made class.Array None []) 0 ≡ (length_name, Holds (whole 0)) ∷ [] }
    ensures attributes_of_length { attributes_of one_array 0 length_name ≡ Some hidden_and_fixed }
    ensures grown { contents one_array 0 ≡ (length_name, Holds (whole 6))
        ∷ (codes "0", Holds (whole 7)) ∷ (codes "1", Holds (whole 8))
        ∷ (codes "5", Holds (whole 9)) ∷ [] }
    ensures below { contents (written one_array 0 (codes "3") (whole 2)) 0
        ≡ contents one_array 0 ++ (codes "3", Holds (whole 2)) ∷ [] }
    ensures again { contents (written one_array 0 (codes "1") (whole 2)) 0
        ≡ (length_name, Holds (whole 6)) ∷ (codes "0", Holds (whole 7))
        ∷ (codes "1", Holds (whole 2)) ∷ (codes "5", Holds (whole 9)) ∷ [] }
    ensures at_length { length_in (properties_of (written one_array 0 (codes "6") (whole 2)) 0)
        ≡ 7 }
    ensures at_the_top { length_in (properties_of (written one_array 0 (codes "4294967294")
        (whole 2)) 0) ≡ 4294967295 }
    ensures above { length_in (properties_of (written one_array 0 (codes "4294967295") (whole 2)) 0)
        ≡ 6 }
    ensures no_index { contents (written one_array 0 (codes "06") (whole 2)) 0
        ≡ contents one_array 0 ++ (codes "06", Holds (whole 2)) ∷ [] }
    ensures no_attributes_of_one { attributes_of one_array 0 (codes "5") ≡ Some no_attributes }
    ensures visited { keys one_array 0 ≡ codes "0" ∷ codes "1" ∷ codes "5" ∷ [] }
    ensures deleted_one { contents (deleted 0 (codes "5") one_array) 0
        ≡ (length_name, Holds (whole 6)) ∷ (codes "0", Holds (whole 7))
        ∷ (codes "1", Holds (whole 8)) ∷ [] }
    ensures of_no_array { contents (written (made class.Plain None []) 0 (codes "5") (whole 9)) 0
        ≡ (codes "5", Holds (whole 9)) ∷ [] }
    ensures behind_an_array { contents (written (made class.Plain (Some 0) one_array) 1 (codes "9")
        (whole 2)) 1 ≡ (codes "9", Holds (whole 2)) ∷ [] }
{}

/// Lengths that are written.
pub fn lengths()
    ensures cut { contents (written one_array 0 length_name (whole 1)) 0
        ≡ (length_name, Holds (whole 1)) ∷ (codes "0", Holds (whole 7)) ∷ [] }
    ensures cut_to_none { contents (written one_array 0 length_name (whole 0)) 0
        ≡ (length_name, Holds (whole 0)) ∷ [] }
    ensures cut_before_the_last { contents (written one_array 0 length_name (whole 5)) 0
        ≡ (length_name, Holds (whole 5)) ∷ (codes "0", Holds (whole 7))
        ∷ (codes "1", Holds (whole 8)) ∷ [] }
    ensures same { written one_array 0 length_name (whole 6) ≡ one_array }
    ensures longer { contents (written one_array 0 length_name (whole 4294967295)) 0
        ≡ (length_name, Holds (whole 4294967295)) ∷ (codes "0", Holds (whole 7))
        ∷ (codes "1", Holds (whole 8)) ∷ (codes "5", Holds (whole 9)) ∷ [] }
    ensures other_names_stay { contents (written (written one_array 0 a (whole 2)) 0 length_name
        (whole 0)) 0 ≡ (length_name, Holds (whole 0)) ∷ (a, Holds (whole 2)) ∷ [] }
    ensures bad { map (put one_array 0 length_name) (whole 4294967296
        ∷ value.Num (number.Whole (neg_ℤ (pos 1))) ∷ value.Num number.NaN ∷ value.Undefined
        ∷ value.Null ∷ value.Bool true ∷ value.Str (codes "1")
        ∷ value.Object (record { 0 = 0 }) ∷ []) ≡ replicate 8 BadLength }
    ensures not_deleted { can_delete one_array 0 length_name ≡ false }
    ensures behind_an_array { contents (written (made class.Plain (Some 0) one_array) 1 length_name
        value.Null) 1 ≡ (length_name, Holds value.Null) ∷ [] }
{}
