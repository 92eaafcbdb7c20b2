//! Host calls: their objects at the start, their names, and what a run asks of the world and tells
//! of it. These calls do nothing.

ghost use Rattle.std.specs.Prelude.{◌≡◌, ◌∷◌, [], ◌++◌, codes, length, map, replicate};
ghost use Rattle.std.specs.Prelude.{Some, None, true, false};
ghost use Rattle.js_values.specs.declared.shown.Shown.TheVariants as shown;
ghost use Rattle.object_heap.specs.declared.built_in.BuiltIn.TheVariants as built;
ghost use Rattle.object_heap.specs.declared.object.Class.TheVariants as class;
ghost use Rattle.object_heap.specs.Changes.{all_three, hidden_only, holding, sharing};
ghost use Rattle.object_heap.specs.Names.{length_name};
ghost use Rattle.object_heap.specs.Objects.{Holds, class_of, prototype_of};
ghost use Rattle.object_heap.specs.Start.{heap_at_start};
ghost use Rattle.js_machine.specs.declared.frame.Control.{Control};
ghost use Rattle.js_machine.specs.declared.frame.Control.TheVariants as control;
ghost use Rattle.js_machine.specs.declared.machine.Machine.{Machine};
ghost use Rattle.js_values.specs.declared.value.Value.{Value};
ghost use Rattle.js_machine.specs.Frames.{gives};
ghost use Rattle.js_machine.specs.Asks.{Gives, Ret, TellCall, TellNeed};
ghost use Rattle.js_machine.specs.Rest.{rest, running};
ghost use Rattle.js_machine.specs.Given.{Answers, Called, Entered, Goes, GrowsTo, LeadsTo, Needed};
ghost use Rattle.js_machine.specs.Given.{Tells};
ghost use Rattle.js_machine.specs.Given.{after, mark_of};
ghost use Rattle.js_machine.specs.HostCalls.{AllHold, HostHolds, heap_with_host, host_call_by};
ghost use Rattle.js_machine.specs.HostCalls.{host_call_in, host_name, state_with};
ghost use Rattle.js_machine.specs.Page.{bare_state, with_host_call};
ghost use Rattle.js_machine.specs.Run.{Call, Entry, Need, Say, Trace};
ghost use Rattle.js_machine.specs.State.{OfHost};
ghost use Rattle.machine_rows.specs.Alone.{hosts, more_objects, names_of, own_attributes, own_slot};
ghost use Rattle.machine_rows.specs.Asking.{answered, fresh, host_calls, seen, silence};
ghost use Rattle.machine_rows.specs.Nodes as node;
ghost use Rattle.machine_rows.specs.Samples.{nothing, object, text, whole, whole_number};
ghost use Rattle.machine_rows.specs.Writing.{a, b, x};

/// A host call is a property of `host` (11), and a function without a `prototype`, as those of the
/// standard are (ES3 15).
pub fn host_calls_at_the_start()
    ensures of_the_meaning { heap_with_host a heap_at_start ≡ (with_host_call a bare_state).heap }
    ensures state { state_with (heap_with_host a heap_at_start) ((65, OfHost a) ∷ [])
        ≡ with_host_call a bare_state }
    ensures names { names_of (heap_with_host a heap_at_start) 11 ≡ codes "on" ∷ a ∷ [] }
    ensures value { own_slot (heap_with_host a heap_at_start) 11 a ≡ Some (Holds (object 65)) }
    ensures hidden { own_attributes (heap_with_host a heap_at_start) 11 a ≡ Some hidden_only }
    ensures class { class_of (heap_with_host a heap_at_start) 65 ≡ Some class.Function }
    ensures prototype { prototype_of (heap_with_host a heap_at_start) 65 ≡ Some 1 }
    ensures properties { names_of (heap_with_host a heap_at_start) 65 ≡ length_name ∷ [] }
    ensures length { own_slot (heap_with_host a heap_at_start) 65 length_name
        ≡ Some (Holds (whole 0)) }
    ensures fixed_length { own_attributes (heap_with_host a heap_at_start) 65 length_name
        ≡ Some all_three }
    ensures one_object_more { length (heap_with_host a heap_at_start) ≡ 66 }
    ensures two { map (own_slot (heap_with_host b (heap_with_host a heap_at_start)) 11) (a ∷ b ∷ [])
        ≡ Some (Holds (object 65)) ∷ Some (Holds (object 66)) ∷ [] }
    ensures twice { names_of (heap_with_host a (heap_with_host a heap_at_start)) 11
        ≡ codes "on" ∷ a ∷ [] }
    ensures the_last_of_two { own_slot (heap_with_host a (heap_with_host a heap_at_start)) 11 a
        ≡ Some (Holds (object 66)) }
    ensures in_place_of_on { own_slot (heap_with_host (codes "on") heap_at_start) 11 (codes "on")
        ≡ Some (Holds (object 65)) }
    ensures holds_values { HostHolds heap_at_start }
    ensures holds_two_values { AllHold (holding a (whole 5) hidden_only
        ∷ holding b (object 7) all_three ∷ []) }
    ensures shares { AllHold (sharing 0 5 2 ∷ holding b (object 7) all_three ∷ []) → ⊥ }
    ensures shares_behind { AllHold (holding a (whole 5) hidden_only ∷ sharing 0 5 2 ∷ []) → ⊥ }
{}

/// The names of host calls by their objects; only a function that was not there at the start is
/// one.
pub fn names_of_host_calls()
    ensures names { map (host_name host_calls) (65 ∷ 66 ∷ 67 ∷ []) ≡ Some a ∷ Some b ∷ None ∷ [] }
    ensures no_names { host_name [] 65 ≡ None }
    ensures by_class { map (λ c. host_call_by c None host_calls 65) (None ∷ map Some (class.Plain
        ∷ class.Function ∷ class.Array ∷ class.Arguments ∷ class.Error ∷ class.Math ∷ []))
        ≡ None ∷ None ∷ Some a ∷ replicate 4 None }
    ensures of_the_start { host_call_by (Some class.Function) (Some built.Object) host_calls 65
        ≡ None }
    ensures of_another { host_call_by (Some class.Function) None host_calls 64 ≡ None }
    ensures in_a_heap { map (host_call_in more_objects hosts) (65 ∷ 66 ∷ 0 ∷ 13 ∷ 67 ∷ 68 ∷ 69 ∷ [])
        ≡ Some (codes "out") ∷ replicate 6 None }
    ensures second_of_a_heap { map (host_call_in more_objects host_calls) (65 ∷ 66 ∷ [])
        ≡ Some a ∷ Some b ∷ [] }
{}

/// The answers of the host: the k-th call of a name is answered with its k-th reply, and with
/// undefined where none is left.
pub fn answers_of_the_host()
    ensures nothing_asked { Answers [] fresh }
    ensures first { Answers (answered a (whole 1) ∷ []) fresh }
    ensures each_name { Answers (answered a (whole 1) ∷ answered b (text x) ∷ answered a (whole 2)
        ∷ answered a nothing ∷ answered b nothing ∷ []) fresh }
    ensures no_replies { Answers (answered x nothing ∷ []) fresh }
    ensures behind_a_call { Answers (answered a (whole 2) ∷ []) (seen (a ∷ b ∷ []) []) }
    ensures not_second { Answers (answered a (whole 2) ∷ []) fresh → ⊥ }
    ensures not_undefined { Answers (answered a nothing ∷ []) fresh → ⊥ }
    ensures not_twice { Answers (answered a (whole 1) ∷ answered a (whole 1) ∷ []) fresh → ⊥ }
    ensures not_of_another { Answers (answered a (whole 1) ∷ answered b (whole 2) ∷ []) fresh → ⊥ }
    ensures not_invented { Answers (answered x (whole 1) ∷ []) fresh → ⊥ }
    ensures not_first { Answers (answered a (whole 1) ∷ []) (seen (a ∷ []) []) → ⊥ }
    ensures arguments { Answers (Called a (whole 7 ∷ object 70 ∷ []) (whole 1) ∷ []) fresh }
    ensures entered { Answers (Entered 3 1 true ∷ Entered 8 1 false ∷ answered a (whole 1)
        ∷ []) fresh }
    ensures not_behind_entered { Answers (Entered 3 1 true ∷ answered a (whole 2) ∷ []) fresh → ⊥ }
    ensures needed { Answers (Needed 7 true ∷ Needed 8 false ∷ answered a (whole 1) ∷ []) fresh }
    ensures not_there { Answers (Needed 8 true ∷ []) fresh → ⊥ }
    ensures there { Answers (Needed 7 false ∷ []) fresh → ⊥ }
    ensures not_behind_needed { Answers (Needed 7 true ∷ answered a (whole 2) ∷ []) fresh → ⊥ }
{}

/// What the host has seen: the names of the calls in order, and the objects that passed, each once.
pub fn seen_by_the_host()
    ensures nothing_asked { after [] (seen (a ∷ []) (70 ∷ [])) ≡ seen (a ∷ []) (70 ∷ []) }
    ensures calls { after (Called a (object 70 ∷ object 71 ∷ []) (whole 1) ∷ Called b (object 71
        ∷ whole 72 ∷ object 73 ∷ object 70 ∷ []) (text x) ∷ answered a (whole 2) ∷ []) fresh
        ≡ seen (a ∷ b ∷ a ∷ []) (70 ∷ 71 ∷ 73 ∷ []) }
    ensures behind_others { after (Called b (object 70 ∷ object 71 ∷ []) nothing ∷ [])
        (seen (a ∷ []) (71 ∷ [])) ≡ seen (a ∷ b ∷ []) (71 ∷ 70 ∷ []) }
    ensures no_answer_passes { after (answered a (object 70) ∷ []) fresh ≡ seen (a ∷ []) [] }
    ensures no_calls { after (Entered 3 1 true ∷ Needed 7 true ∷ Entered 3 2 false ∷ []) fresh
        ≡ fresh }
    ensures marks { map (λ asked. mark_of asked (seen (a ∷ []) (71 ∷ []))) (Called a (whole 5
        ∷ object 70 ∷ object 71 ∷ nothing ∷ object 70 ∷ []) (whole 1) ∷ Entered 3 9 true
        ∷ Entered 4 8 false ∷ Needed 7 true ∷ Needed 8 false ∷ [])
        ≡ Call a (shown.Num (whole_number 5) ∷ shown.Object 2 ∷ shown.Object 1 ∷ shown.Undefined
        ∷ shown.Object 2 ∷ []) ∷ Entry 3 9 ∷ Entry 4 8 ∷ Need 7 ∷ Need 8 ∷ [] }
{}

/// A run tells what was asked, in order, and goes on; the steps of a mark are its own.
pub fn told_of_the_host()
    ensures tells { (t : Trace) → Tells (Need 7) (Say (Need 7) 12 t) t }
    ensures tells_another { Tells (Need 7) (Say (Need 8) 12 silence) silence → ⊥ }
    ensures tells_nothing { Tells (Need 7) silence silence → ⊥ }
    ensures goes_otherwise { Tells (Need 7) (Say (Need 7) 12 silence) (Say (Need 7) 12 silence)
        → ⊥ }
    ensures nothing_asked { (t : Trace) → Goes [] fresh t t }
    ensures goes_not { Goes [] fresh (Say (Need 7) 12 silence) silence → ⊥ }
    ensures one { (t : Trace) → Goes (Called a (object 70 ∷ []) (whole 1) ∷ []) fresh
        (Say (Call a (shown.Object 1 ∷ [])) 12 t) t }
    ensures two { (t : Trace) → Goes (Called a (object 70 ∷ []) (whole 1)
        ∷ Called b (object 71 ∷ object 70 ∷ []) (whole 1) ∷ []) fresh
        (Say (Call a (shown.Object 1 ∷ [])) 12
        (Say (Call b (shown.Object 2 ∷ shown.Object 1 ∷ [])) 30 t)) t }
    ensures entries { (t : Trace) → Goes (Entered 3 9 true ∷ Needed 7 true ∷ []) fresh
        (Say (Entry 3 9) 12 (Say (Need 7) 13 t)) t }
    ensures not_its_name { Goes (answered a (whole 1) ∷ []) fresh
        (Say (Call b []) 12 silence) silence → ⊥ }
    ensures not_its_rank { Goes (Called a (object 70 ∷ []) (whole 1) ∷ []) fresh
        (Say (Call a (shown.Object 2 ∷ [])) 12 silence) silence → ⊥ }
    ensures not_in_order { Goes (Entered 3 9 true ∷ Needed 7 true ∷ []) fresh
        (Say (Need 7) 12 (Say (Entry 3 9) 13 silence)) silence → ⊥ }
    ensures not_only_one { Goes (Entered 3 9 true ∷ Needed 7 true ∷ []) fresh
        (Say (Entry 3 9) 12 silence) silence → ⊥ }
    ensures no_more { Goes (Entered 3 9 true ∷ []) fresh
        (Say (Entry 3 9) 12 (Say (Need 7) 13 silence)) silence → ⊥ }
    ensures new_rank { Goes (Called a (object 70 ∷ []) (whole 1) ∷ Called a (object 71 ∷ [])
        (whole 1) ∷ []) fresh (Say (Call a (shown.Object 1 ∷ [])) 12 (Say (Call a (shown.Object 1
        ∷ [])) 30 silence)) silence → ⊥ }
{}

/// The functions that are there only grow in number, behind the others.
pub fn bodies_that_grow()
    ensures stays { GrowsTo ((1, node.declared) ∷ []) ((1, node.declared) ∷ []) }
    ensures grows { GrowsTo ((1, node.declared) ∷ []) ((1, node.declared)
        ∷ (2, node.other_declared) ∷ []) }
    ensures of_none { GrowsTo [] ((1, node.declared) ∷ []) }
    ensures shrinks { GrowsTo ((1, node.declared) ∷ []) [] → ⊥ }
    ensures loses_the_last { GrowsTo ((1, node.declared) ∷ (2, node.other_declared) ∷ [])
        ((1, node.declared) ∷ []) → ⊥ }
    ensures before { GrowsTo ((1, node.declared) ∷ [])
        ((2, node.other_declared) ∷ (1, node.declared) ∷ []) → ⊥ }
    ensures changes { GrowsTo ((1, node.declared) ∷ []) ((1, node.other_declared) ∷ []) → ⊥ }
{}

/// The machine leads to a place where the rest of the run is the same, behind what was asked.
pub fn leads()
    ensures stays { (c : Control) (m : Machine) → LeadsTo (rest c) m [] c m [] }
    ensures keeps { (c : Control) (m : Machine)
        → LeadsTo (rest c) m (Needed 7 true ∷ []) c m (Needed 7 true ∷ []) }
    ensures forgets { (c : Control) (m : Machine)
        → LeadsTo (rest c) m (Needed 7 true ∷ []) c m [] → ⊥ }
    ensures need { (m : Machine) → LeadsTo (running (TellNeed 7 (λ f. Ret (Gives nothing)))) m []
        control.Give (record m { values = nothing ∷ m.values }) (Needed 7 true ∷ []) }
    ensures call { (v : Value) (m : Machine) → LeadsTo (running (TellCall a (whole 7
        ∷ []) gives)) m [] control.Give (record m { values = v ∷ m.values }) (Called a (whole 7
        ∷ []) v ∷ []) }
{}
