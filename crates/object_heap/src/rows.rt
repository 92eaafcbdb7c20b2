//! Worked objects: these calls do nothing, and each says what a definition gives.

ghost use Rattle.std.specs.Prelude.{◌≡◌, ◌∷◌, [], ◌++◌, Some, None, map, true, false, codes};
ghost use Rattle.std.specs.Prelude.{replicate};
ghost use Rattle.js_values.specs.declared.value.Value.TheVariants as value;
ghost use Rattle.object_heap.specs.declared.object.Class.TheVariants as class;
ghost use Rattle.object_heap.specs.Arrays.{no_attributes, whole};
ghost use Rattle.object_heap.specs.Changes.{can_delete, defined, deleted, hidden_only, made};
ghost use Rattle.object_heap.specs.Changes.{shared};
ghost use Rattle.object_heap.specs.Get.{can_put, get, has_property};
ghost use Rattle.object_heap.specs.Names.{length_name};
ghost use Rattle.object_heap.specs.Objects as objects;
ghost use Rattle.object_heap.specs.Objects.{Holds, Shares, attributes_of};
ghost use Rattle.object_heap.specs.Put.{Ignored, Shared, put, written};
ghost use Rattle.object_heap.specs.Rows.{a, b, c, contents, fixed, read_only, three_objects};
ghost use Rattle.object_heap.specs.Rows.{two_arguments};
ghost use Rattle.object_heap.specs.Visited.{is_still_there, keys, visits};

/// Reads, and the walk along prototypes.
pub fn reads()
    ensures own { get three_objects 0 a ≡ Some (Holds (whole 1)) }
    ensures own_first { get three_objects 2 a ≡ Some (Holds (whole 4)) }
    ensures inherited { get three_objects 1 a ≡ Some (Holds (whole 1)) }
    ensures of_the_last { get three_objects 2 b ≡ Some (Holds (whole 2)) }
    ensures hidden { get three_objects 2 c ≡ Some (Holds (whole 3)) }
    ensures nowhere { get three_objects 0 c ≡ None }
    ensures whole_names { get three_objects 0 (codes "ab") ≡ None }
    ensures no_object { get three_objects 3 a ≡ None }
    ensures shares { get two_arguments 0 (codes "0") ≡ Some (Shares 5 2) }
    ensures has { map (λ o. has_property three_objects o c) (0 ∷ 1 ∷ 2 ∷ 3 ∷ [])
        ≡ false ∷ true ∷ true ∷ false ∷ [] }
    ensures attributes { attributes_of three_objects 2 a ≡ Some fixed }
    ensures own_attributes { attributes_of three_objects 2 b ≡ None }
    ensures chains { map (objects.chain_of three_objects) (0 ∷ 1 ∷ 2 ∷ [])
        ≡ (0 ∷ []) ∷ (1 ∷ 0 ∷ []) ∷ (2 ∷ 1 ∷ 0 ∷ []) ∷ [] }
    ensures behind { map (objects.is_behind three_objects 2) (0 ∷ 1 ∷ 2 ∷ 3 ∷ [])
        ≡ true ∷ true ∷ false ∷ false ∷ [] }
    ensures not_before { map (objects.is_behind three_objects 0) (0 ∷ 1 ∷ 2 ∷ [])
        ≡ false ∷ false ∷ false ∷ [] }
{}

/// Writes that are done.
pub fn writes()
    ensures new_one { contents (written three_objects 0 c (whole 9)) 0
        ≡ (a, Holds (whole 1)) ∷ (b, Holds (whole 2)) ∷ (c, Holds (whole 9)) ∷ [] }
    ensures without_attributes { attributes_of (written three_objects 0 c (whole 9)) 0 c
        ≡ Some no_attributes }
    ensures in_its_place { contents (written three_objects 0 a (whole 9)) 0
        ≡ (a, Holds (whole 9)) ∷ (b, Holds (whole 2)) ∷ [] }
    ensures fixed_is_written { contents (written three_objects 2 a (whole 9)) 2
        ≡ (a, Holds (whole 9)) ∷ [] }
    ensures stays_fixed { attributes_of (written three_objects 2 a (whole 9)) 2 a ≡ Some fixed }
    ensures own_in_place_of_inherited { contents (written three_objects 2 c (whole 9)) 2
        ≡ (a, Holds (whole 4)) ∷ (c, Holds (whole 9)) ∷ [] }
    ensures not_hidden_then { attributes_of (written three_objects 2 c (whole 9)) 2 c
        ≡ Some no_attributes }
    ensures inherited_stays { contents (written three_objects 2 c (whole 9)) 1
        ≡ (c, Holds (whole 3)) ∷ [] }
    ensures before_a_read_only_one { contents (written (defined 2 b (whole 5) no_attributes
        three_objects) 2 b (whole 9)) 2 ≡ (a, Holds (whole 4)) ∷ (b, Holds (whole 9)) ∷ [] }
    ensures unshared_index { contents (written two_arguments 0 (codes "1") (whole 9)) 0
        ≡ (codes "0", Shares 5 2) ∷ (codes "1", Holds (whole 9)) ∷ [] }
    ensures inherited_share { contents (written (made class.Plain (Some 0) two_arguments) 1
        (codes "0") (whole 9)) 1 ≡ (codes "0", Holds (whole 9)) ∷ [] }
    ensures length_of_no_array { contents (written two_arguments 0 length_name (value.Str [])) 0
        ≡ (codes "0", Shares 5 2) ∷ (codes "1", Holds (whole 8))
        ∷ (length_name, Holds (value.Str [])) ∷ [] }
{}

/// Writes that change no object.
pub fn refused_writes()
    ensures own { put three_objects 0 b (whole 9) ≡ Ignored }
    ensures inherited { put three_objects 2 b (whole 9) ≡ Ignored }
    ensures no_object { put three_objects 3 a (whole 9) ≡ Ignored }
    ensures share { put two_arguments 0 (codes "0") (whole 9) ≡ Shared 5 2 }
    ensures heap_stays { written two_arguments 0 (codes "0") (whole 9) ≡ two_arguments }
    ensures can { map (λ o. can_put three_objects o b) (0 ∷ 1 ∷ 2 ∷ []) ≡ replicate 3 false }
    ensures can_where_none { can_put three_objects 0 c ≡ true }
    ensures can_where_hidden { can_put three_objects 2 c ≡ true }
{}

/// Properties that are deleted.
pub fn deletions()
    ensures gone { contents (deleted 0 a three_objects) 0 ≡ (b, Holds (whole 2)) ∷ [] }
    ensures others_stay { contents (deleted 0 a three_objects) 2 ≡ (a, Holds (whole 4)) ∷ [] }
    ensures read_only_too { contents (deleted 0 b three_objects) 0
        ≡ (a, Holds (whole 1)) ∷ [] }
    ensures hidden_too { contents (deleted 1 c three_objects) 1 ≡ [] }
    ensures not_fixed { deleted 2 a three_objects ≡ three_objects }
    ensures no_inherited { deleted 2 b three_objects ≡ three_objects }
    ensures no_object { deleted 3 b three_objects ≡ three_objects }
    ensures results { map (can_delete three_objects 2) (a ∷ b ∷ codes "x" ∷ [])
        ≡ false ∷ true ∷ true ∷ [] }
    ensures no_share { contents (deleted 0 (codes "0") two_arguments) 0
        ≡ (codes "1", Holds (whole 8)) ∷ [] }
    ensures again_last { contents (written (deleted 0 a three_objects) 0 a (whole 9)) 0
        ≡ (b, Holds (whole 2)) ∷ (a, Holds (whole 9)) ∷ [] }
    ensures uncovered { get (deleted 1 c (written three_objects 0 c (whole 9))) 2 c
        ≡ Some (Holds (whole 9)) }
{}

/// Properties that are defined, and shared ones.
pub fn definitions()
    ensures in_its_place { contents (defined 0 a (whole 9) hidden_only three_objects) 0
        ≡ (a, Holds (whole 9)) ∷ (b, Holds (whole 2)) ∷ [] }
    ensures with_new_attributes { attributes_of (defined 0 a (whole 9) hidden_only three_objects)
        0 a ≡ Some hidden_only }
    ensures of_read_only { contents (defined 0 b (whole 9) no_attributes three_objects) 0
        ≡ (a, Holds (whole 1)) ∷ (b, Holds (whole 9)) ∷ [] }
    ensures last { contents (defined 0 c (whole 9) read_only three_objects) 0
        ≡ (a, Holds (whole 1)) ∷ (b, Holds (whole 2)) ∷ (c, Holds (whole 9)) ∷ [] }
    ensures no_object { defined 3 c (whole 9) read_only three_objects ≡ three_objects }
    ensures share { contents (shared 0 12 7 3 two_arguments) 0 ≡ (codes "0", Shares 5 2)
        ∷ (codes "1", Holds (whole 8)) ∷ (codes "12", Shares 7 3) ∷ [] }
    ensures share_is_hidden { attributes_of two_arguments 0 (codes "0") ≡ Some hidden_only }
    ensures new_objects { map (objects.class_of (made class.Math (Some 0) two_arguments))
        (0 ∷ 1 ∷ 2 ∷ []) ≡ Some class.Arguments ∷ Some class.Math ∷ None ∷ [] }
    ensures new_prototypes { map (objects.prototype_of (made class.Math (Some 0) two_arguments))
        (0 ∷ 1 ∷ 2 ∷ []) ≡ None ∷ Some 0 ∷ None ∷ [] }
    ensures new_ones_are_empty { map (λ which. contents (made which None []) 0) (class.Plain
        ∷ class.Function ∷ class.Arguments ∷ class.Error ∷ class.Math ∷ []) ≡ replicate 5 [] }
{}

/// Names that a `for-in` visits.
pub fn visited_names()
    ensures own { keys three_objects 0 ≡ a ∷ b ∷ [] }
    ensures hidden { keys three_objects 1 ≡ [] }
    ensures in_order { keys (written (deleted 0 a three_objects) 0 a (whole 9)) 0 ≡ b ∷ a ∷ [] }
    ensures reserved { keys (defined 0 (codes "$dl_x") (whole 9) no_attributes three_objects) 0
        ≡ a ∷ b ∷ [] }
    ensures not_reserved { keys (defined 0 (codes "$dl") (whole 9) no_attributes three_objects) 0
        ≡ a ∷ b ∷ codes "$dl" ∷ [] }
    ensures along { visits three_objects 2 ≡ (2, a) ∷ (0, b) ∷ [] }
    ensures of_prototypes { visits three_objects 1 ≡ (0, a) ∷ (0, b) ∷ [] }
    ensures behind_hidden { visits (defined 1 a (whole 9) hidden_only three_objects) 1
        ≡ (0, b) ∷ [] }
    ensures of_no_object { visits three_objects 3 ≡ [] }
    ensures still { is_still_there three_objects (0, b) ≡ true }
    ensures no_more { is_still_there (deleted 0 b three_objects) (0, b) ≡ false }
    ensures not_of_another { is_still_there three_objects (2, b) ≡ false }
{}
