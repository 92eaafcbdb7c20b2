//! Worked completions: these calls do nothing, and each says what a frame does, and where a
//! completion lands.

ghost use Rattle.std.specs.Prelude.{◌≡◌, ◌∷◌, [], Some, None, replicate};
ghost use Rattle.exceptions_core.specs.declared.completion.Completion.TheVariants as c;
ghost use Rattle.exceptions_core.specs.declared.completion.Frame.TheVariants as frame;
ghost use Rattle.exceptions_core.specs.declared.completion.Landing.TheVariants as landing;
ghost use Rattle.exceptions_core.specs.Rows.{a, b, x, five, bare_loop, breaks, continues, ends};
ghost use Rattle.exceptions_core.specs.Rows.{all_taken, labelled_block, labelled_loop};
ghost use Rattle.exceptions_core.specs.Rows.{labelled_switch};
ghost use Rattle.exceptions_core.specs.Table.{Goes, Passes, Stays};
ghost use Rattle.exceptions_core.specs.Unwind.{unwind};

/// `break` and `continue`, without a label, with the frame's first, its second and another.
pub fn jumps()
    ensures break_loop { all_taken labelled_loop breaks
        ≡ Goes landing.Left ∷ Goes landing.Left ∷ Goes landing.Left ∷ Passes ∷ [] }
    ensures continue_loop { all_taken labelled_loop continues
        ≡ Stays landing.Next ∷ Stays landing.Next ∷ Stays landing.Next ∷ Passes ∷ [] }
    ensures break_bare_loop { all_taken bare_loop breaks
        ≡ Goes landing.Left ∷ Passes ∷ Passes ∷ Passes ∷ [] }
    ensures continue_bare_loop { all_taken bare_loop continues
        ≡ Stays landing.Next ∷ Passes ∷ Passes ∷ Passes ∷ [] }
    ensures break_switch { all_taken labelled_switch breaks
        ≡ Goes landing.Left ∷ Goes landing.Left ∷ Goes landing.Left ∷ Passes ∷ [] }
    ensures continue_switch { all_taken labelled_switch continues ≡ replicate 4 Passes }
    ensures break_block { all_taken labelled_block breaks
        ≡ Passes ∷ Goes landing.Left ∷ Goes landing.Left ∷ Passes ∷ [] }
    ensures continue_block { all_taken labelled_block continues ≡ replicate 4 Passes }
{}

/// A statement that ended, `return` and `throw`.
pub fn calls_and_statements()
    ensures of_loop { all_taken labelled_loop ends ≡ Stays landing.Next ∷ Passes ∷ Passes ∷ [] }
    ensures of_switch { all_taken labelled_switch ends ≡ Goes landing.Left ∷ Passes ∷ Passes ∷ [] }
    ensures of_block { all_taken labelled_block ends ≡ Goes landing.Left ∷ Passes ∷ Passes ∷ [] }
    ensures of_call { all_taken frame.Call ends ≡ Goes (landing.Caller c.Normal)
        ∷ Goes (landing.Caller (c.Return five)) ∷ Goes (landing.Caller (c.Throw five)) ∷ [] }
{}

/// `catch` takes what is thrown, and `finally` all.
pub fn handlers()
    ensures of_catch { all_taken frame.Catch ends
        ≡ Goes landing.Left ∷ Passes ∷ Goes (landing.Catch five) ∷ [] }
    ensures break_catch { all_taken frame.Catch breaks ≡ replicate 4 Passes }
    ensures continue_catch { all_taken frame.Catch continues ≡ replicate 4 Passes }
    ensures of_finally { all_taken frame.Finally ends ≡ Goes (landing.Finally c.Normal)
        ∷ Goes (landing.Finally (c.Return five)) ∷ Goes (landing.Finally (c.Throw five)) ∷ [] }
    ensures break_finally { all_taken frame.Finally (c.Break None ∷ c.Break (Some a) ∷ [])
        ≡ Goes (landing.Finally (c.Break None)) ∷ Goes (landing.Finally (c.Break (Some a))) ∷ [] }
    ensures continue_finally { all_taken frame.Finally (c.Continue None ∷ c.Continue (Some x) ∷ [])
        ≡ Goes (landing.Finally (c.Continue None)) ∷ Goes (landing.Finally (c.Continue (Some x)))
        ∷ [] }
{}

/// Where completions land.
pub fn landings()
    ensures nowhere { unwind [] (c.Return five) ≡ (landing.Bottom (c.Return five), []) }
    ensures at_the_bottom { unwind (labelled_loop ∷ labelled_switch ∷ labelled_block ∷ frame.Catch
        ∷ []) (c.Return five) ≡ (landing.Bottom (c.Return five), []) }
    ensures next_turn { unwind (labelled_loop ∷ frame.Call ∷ []) c.Normal
        ≡ (landing.Next, labelled_loop ∷ frame.Call ∷ []) }
    ensures out_of_a_switch { unwind (frame.Switch [] ∷ bare_loop ∷ []) (c.Break None)
        ≡ (landing.Left, bare_loop ∷ []) }
    ensures on_in_the_loop { unwind (frame.Switch [] ∷ bare_loop ∷ []) (c.Continue None)
        ≡ (landing.Next, bare_loop ∷ []) }
    ensures to_the_outer_loop { unwind (bare_loop ∷ labelled_loop ∷ frame.Call ∷ [])
        (c.Continue (Some b)) ≡ (landing.Next, labelled_loop ∷ frame.Call ∷ []) }
    ensures out_of_the_outer_loop { unwind (bare_loop ∷ labelled_loop ∷ frame.Call ∷ [])
        (c.Break (Some b)) ≡ (landing.Left, frame.Call ∷ []) }
    ensures to_the_inner_catch { unwind (labelled_block ∷ frame.Catch ∷ frame.Catch ∷ [])
        (c.Throw five) ≡ (landing.Catch five, frame.Catch ∷ []) }
    ensures to_the_caller { unwind (frame.Call ∷ frame.Catch ∷ []) (c.Throw five)
        ≡ (landing.Caller (c.Throw five), frame.Catch ∷ []) }
    ensures through_finally { unwind (frame.Catch ∷ frame.Finally ∷ frame.Call ∷ [])
        (c.Return five) ≡ (landing.Finally (c.Return five), frame.Call ∷ []) }
{}
