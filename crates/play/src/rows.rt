//! Worked rows: these calls do nothing, and each says what definitions come to at given values, of
//! what holds and of what does not.

ghost use Rattle.std.specs.Prelude.{◌≡◌, ℕ, List, [], ◌∷◌, ◌++◌, Option, Some, None, true, false, codes};
ghost use Rattle.first_grammar.specs.declared.script.FirstStatement.TheVariants.{Call, Out};
ghost use Rattle.js_tree.specs.Tree.{Script, MoreStmts, Declare, Do, NoExpr, Return, This};
ghost use Rattle.js_tree.specs.declared.tree.Role.TheVariants.{Wrapper, Late};
ghost use Rattle.play.specs.declared.outcome.End.TheVariants as end;
ghost use Rattle.play.specs.declared.outcome.FirstFile.TheVariants as file;
ghost use Rattle.play.specs.Headline.{original_calls, calls, marked_calls, end_text, EndsWithin, PutsBackTo};
ghost use Rattle.play.specs.Laziness.{lazy_lines};
ghost use Rattle.play.specs.Laws.{IsCut, IsPrefix, NeedsFollow, ending, seen, times};
ghost use Rattle.play.specs.Laws as laws;
ghost use Rattle.play.specs.Loader.{Absent, Asked, Here, Need, Arrive, Lose, Cut, fresh, step};
ghost use Rattle.play.specs.Loader as loader;
ghost use Rattle.play.specs.ManifestReader.{read_manifest};
ghost use Rattle.play.specs.Page.{no_entries, original, start, written};
ghost use Rattle.play.specs.Played.{Gives, Lacks, Refuses, cluster_of, is_page, played, played_page};
ghost use Rattle.play.specs.PutBack.{back, PutsBack};
ghost use Rattle.play.specs.Report.{CallLine, UncaughtLine, IdleLine, EventLine, WaitLine, AskLine, HereLine, LostLine, CutLine, line_text, lines_text};
ghost use Rattle.play.specs.Rows as rows;
ghost use Rattle.play.specs.Rows.{answered, at, out_line, out_mark};
ghost use Rattle.play.specs.RowsHeadline as headline;
ghost use Rattle.play.specs.RowsLoader as load;
ghost use Rattle.play.specs.RowsPutBack as put_back;
ghost use Rattle.play.specs.RowsSite as site;
ghost use Rattle.play.specs.RowsTree as tree;
ghost use Rattle.play.specs.RowsValue as value;
ghost use Rattle.play.specs.Run.{Uncaught, Idle, Entered, Needed, OutOfSteps, IsStuck};
ghost use Rattle.play.specs.Site.{Accepted, is_listed, cluster_file, cluster_name, entries, entry_among, late_function, line_of, manifest_name, read_script_file, script_name, site_tree, stub_numbers};
ghost use Rattle.play.specs.Site as site_file;
ghost use Rattle.play.specs.Value.{Error, Text, Undefined, all_passed, all_shown, ShownUndefined, ShownText, ShownObject};
ghost use Rattle.play.specs.Walk.{Ended, RanOut, Broke, end_of, walk};

/// The files of `examples/first/site` are read as these values.
pub fn example_files()
    ensures manifest { read_manifest rows.manifest_bytes ≡ Some rows.manifest }
    ensures script { read_script_file rows.manifest rows.script_bytes ≡ Some rows.items }
    ensures cluster { cluster_file rows.files rows.folder
        (record { cluster = 1; bytes = 33; entries = 2 ∷ [] }) ≡ Accepted (rows.entry ∷ []) }
    ensures entry { entries rows.files rows.folder rows.manifest 2 ≡ rows.entry_two 2 }
    ensures no_entry { entries rows.files rows.folder rows.manifest 1 ≡ None }
{}

/// The runs of the example: its marks with their steps, its end under each budget, and its lines.
pub fn example_runs()
    ensures written_marks { rows.marks (written rows.entry_two rows.script 100)
        ≡ at (Entered 1 1) 5 ∷ at (out_mark (codes "one")) 11
        ∷ at (Entered 2 2) 15 ∷ at (Needed 2) 19 ∷ at (out_mark (codes "two")) 29
        ∷ at (out_mark (codes "three")) 35 ∷ at (Idle 2) 35 ∷ [] }
    ensures written_end { end_of (written rows.entry_two rows.script 35) ≡ Ended 35 }
    ensures written_cut { end_of (written rows.entry_two rows.script 34) ≡ RanOut 34 }
    ensures written_at_once { end_of (written rows.entry_two rows.script 0) ≡ RanOut 0 }
    ensures written_marks_cut { rows.marks (written rows.entry_two rows.script 34)
        ≡ at (Entered 1 1) 5 ∷ at (out_mark (codes "one")) 11
        ∷ at (Entered 2 2) 15 ∷ at (Needed 2) 19 ∷ at (out_mark (codes "two")) 29 ∷ [] }
    ensures original_marks { rows.marks (original rows.original_script 100)
        ≡ at (Entered 1 1) 5 ∷ at (out_mark (codes "one")) 11
        ∷ at (Entered 2 2) 15 ∷ at (out_mark (codes "two")) 21
        ∷ at (out_mark (codes "three")) 27 ∷ at (Idle 2) 27 ∷ [] }
    ensures original_end { end_of (original rows.original_script 27) ≡ Ended 27 }
    ensures original_cut { end_of (original rows.original_script 26) ≡ RanOut 26 }
    ensures stub_alone { end_of (original rows.script 100) ≡ Broke }
    ensures lines { walk (cluster_of rows.manifest) (fresh (1 ∷ []))
        (written rows.entry_two rows.script 100) ≡ rows.lines }
    ensures lazy { lazy_lines (cluster_of rows.manifest) []
        (seen (original rows.original_script 100)) ≡ rows.lines }
{}

/// What is played for the example, and the names that are asked.
pub fn example_played()
    ensures whole { played rows.files rows.folder headline.page 10000000 ≡ answered
        (Gives headline.report end.Ended)
        (codes "site/site.txt" ∷ codes "site/s1.js" ∷ codes "site/c1.txt" ∷ []) }
    ensures before_the_cluster { played rows.files rows.folder headline.page 14 ≡ answered
        (Gives (codes "call out \"one\"\nend out-of-steps 14\n") end.OutOfSteps)
        (codes "site/site.txt" ∷ codes "site/s1.js" ∷ []) }
    ensures no_cluster { played rows.without_cluster rows.folder headline.page 100 ≡ answered
        (Lacks (codes "site/c1.txt"))
        (codes "site/site.txt" ∷ codes "site/s1.js" ∷ codes "site/c1.txt" ∷ []) }
{}

/// The original that the example puts back to, its calls, and its end.
pub fn example_puts_back()
    ensures put_back { PutsBackTo rows.files rows.folder rows.original_script }
    ensures calls { original_calls rows.original_script 10000000 ≡ headline.three_calls }
    ensures two_calls { original_calls rows.original_script 26
        ≡ out_line (codes "one") ∷ out_line (codes "two") ∷ [] }
    ensures no_call { original_calls rows.original_script 10 ≡ [] }
    ensures ends { EndsWithin rows.original_script 27 }
    ensures not_sooner { EndsWithin rows.original_script 26 → ⊥ }
{}

/// Which reports show the example's original, and which do not.
pub fn example_reports()
    ensures shown { headline.Shows headline.report end.Ended 10000000 }
    ensures call_more { headline.ShowsNot headline.call_more end.Ended 100 }
    ensures call_less { headline.ShowsNot headline.call_less end.Ended 100 }
    ensures other_order { headline.ShowsNot headline.other_order end.Ended 100 }
    ensures uncaught_more { headline.ShowsNot headline.uncaught_more end.Ended 100 }
    ensures not_a_front { headline.ShowsNot
        (codes "call out \"two\"\nend out-of-steps 100\n") end.OutOfSteps 100 }
    ensures no_call_yet { headline.ShowsNot
        (codes "end out-of-steps 384\n") end.OutOfSteps 384 }
    ensures out_of_steps { headline.ShowsNot headline.all_but_the_end end.OutOfSteps 896 }
{}

/// Which reports show the example's fetches, and which do not.
pub fn example_loads()
    ensures shown { headline.Loads headline.report end.Ended 10000000 }
    ensures early_wait { headline.LoadsNot headline.early_wait end.Ended 100 }
    ensures late_wait { headline.LoadsNot headline.late_wait end.Ended 100 }
    ensures no_wait { headline.LoadsNot headline.no_wait end.Ended 100 }
    ensures second_wait { headline.LoadsNot headline.second_wait end.Ended 100 }
    ensures not_a_front { headline.LoadsNot
        (codes "wait 1\nend out-of-steps 100\n") end.OutOfSteps 100 }
    ensures no_line_yet { headline.LoadsNot
        (codes "end out-of-steps 384\n") end.OutOfSteps 384 }
    ensures out_of_steps { headline.LoadsNot headline.all_but_the_end end.OutOfSteps 896 }
{}

/// Sites that put back, and those that do not.
pub fn put_back_sites()
    ensures stub { back (put_back.only 2 (put_back.entry []))
        (put_back.script_of (put_back.stub []))
        ≡ Some (put_back.script_of (put_back.plain [])) }
    ensures formals { back (put_back.only 2 (put_back.entry (put_back.a ∷ put_back.b ∷ [])))
        (put_back.script_of (put_back.stub (put_back.a ∷ put_back.b ∷ [])))
        ≡ Some (put_back.script_of (put_back.plain (put_back.a ∷ put_back.b ∷ []))) }
    ensures other_formal { back (put_back.only 2 (put_back.entry (put_back.a ∷ [])))
        (put_back.script_of (put_back.stub (put_back.b ∷ []))) ≡ None }
    ensures formal_more { back (put_back.only 2 (put_back.entry (put_back.a ∷ put_back.b ∷ [])))
        (put_back.script_of (put_back.stub (put_back.a ∷ []))) ≡ None }
    ensures formal_less { back (put_back.only 2 (put_back.entry (put_back.a ∷ [])))
        (put_back.script_of (put_back.stub (put_back.a ∷ put_back.b ∷ []))) ≡ None }
    ensures other_number { back (put_back.only 3 (put_back.entry []))
        (put_back.script_of (put_back.stub [])) ≡ None }
    ensures plain_function { back put_back.none (put_back.script_of (put_back.plain []))
        ≡ Some (put_back.script_of (put_back.plain [])) }
    ensures wrapper { back put_back.none (put_back.script_of (put_back.role_of Wrapper)) ≡ None }
    ensures late { back put_back.none (put_back.script_of (put_back.role_of Late)) ≡ None }
    ensures statements { back put_back.none put_back.body ≡ Some put_back.body }
    ensures none_after { back put_back.none
        (MoreStmts (Declare (put_back.plain [])) (put_back.script_of (put_back.stub []))) ≡ None }
{}

/// What it takes to put back: each listed entry has one stub, and the numbers are the original's.
pub fn put_back_numbers()
    ensures example { PutsBack rows.entry_two (2 ∷ []) (2 ∷ []) rows.script rows.original_script }
    ensures none_listed { PutsBack rows.entry_two [] (2 ∷ []) rows.script rows.original_script }
    ensures two_stubs { put_back.PutsNotBack (2 ∷ []) (2 ∷ 2 ∷ []) rows.script }
    ensures no_stub { put_back.PutsNotBack (2 ∷ []) [] rows.script }
    ensures later_without_stub { put_back.PutsNotBack (2 ∷ 3 ∷ []) (2 ∷ []) rows.script }
    ensures other_number { put_back.PutsNotBack (2 ∷ []) (2 ∷ []) (site_tree (3 ∷ []) rows.items) }
    ensures number_again { put_back.PutsNotBack (2 ∷ []) (2 ∷ []) (site_tree (2 ∷ []) rows.items) }
    ensures other_order { put_back.PutsNotBack (2 ∷ []) (2 ∷ []) put_back.turned }
    ensures stub_without_entry { (original : Script)
        → PutsBack put_back.none [] (2 ∷ []) rows.script original → ⊥ }
{}

/// What each event does to a cluster that is absent (1), asked for (2) and here (3), without the
/// background.
pub fn loader_events()
    ensures fresh { fresh (1 ∷ 2 ∷ 3 ∷ [])
        ≡ load.loader (load.table Absent Absent Absent) None false }
    ensures need_absent { step 9 (load.idle_not None) (Need 1)
        ≡ load.after (load.table Asked Asked Here) (Some 1) (WaitLine 1 ∷ AskLine 1 ∷ []) }
    ensures need_asked { step 9 (load.idle_not None) (Need 2)
        ≡ load.after load.each (Some 2) (WaitLine 2 ∷ []) }
    ensures need_here { step 9 (load.idle_not None) (Need 3) ≡ load.after load.each None [] }
    ensures arrive_absent { step 9 (load.idle_not None) (Arrive 1) ≡ load.after load.each None [] }
    ensures arrive_asked { step 9 (load.idle_not None) (Arrive 2)
        ≡ load.after (load.table Absent Here Here) None (HereLine 2 ∷ []) }
    ensures arrive_waited { step 9 (load.idle_not (Some 2)) (Arrive 2)
        ≡ load.after (load.table Absent Here Here) None (HereLine 2 ∷ []) }
    ensures arrive_other { step 9 (load.idle_not (Some 1)) (Arrive 2)
        ≡ load.after (load.table Absent Here Here) (Some 1) (HereLine 2 ∷ []) }
    ensures arrive_here { step 9 (load.idle_not None) (Arrive 3) ≡ load.after load.each None [] }
    ensures lose_absent { step 9 (load.idle_not None) (Lose 1) ≡ load.after load.each None [] }
    ensures lose_asked { step 9 (load.idle_not None) (Lose 2)
        ≡ load.after (load.table Absent Absent Here) None (LostLine 2 ∷ []) }
    ensures lose_waited { step 9 (load.idle_not (Some 2)) (Lose 2)
        ≡ load.after load.each (Some 2) (LostLine 2 ∷ AskLine 2 ∷ []) }
    ensures lose_other { step 9 (load.idle_not (Some 1)) (Lose 2)
        ≡ load.after (load.table Absent Absent Here) (Some 1) (LostLine 2 ∷ []) }
    ensures lose_here { step 9 (load.idle_not None) (Lose 3) ≡ load.after load.each None [] }
    ensures cut_absent { step 9 (load.idle_not None) (Cut 1) ≡ load.after load.each None [] }
    ensures cut_asked { step 9 (load.idle_not None) (Cut 2)
        ≡ load.after (load.table Absent Absent Here) None (CutLine 2 ∷ []) }
    ensures cut_waited { step 9 (load.idle_not (Some 2)) (Cut 2)
        ≡ load.after load.each (Some 2) (CutLine 2 ∷ AskLine 2 ∷ []) }
    ensures cut_here { step 9 (load.idle_not None) (Cut 3) ≡ load.after load.each None [] }
    ensures idle { step 0 (load.idle_not (Some 2)) loader.Idle ≡ load.later load.each (Some 2) [] }
{}

/// What the background asks for: the least absent clusters, as far as the window has room beside
/// those that were asked.
pub fn loader_background()
    ensures without { step 9 (load.round false) (Need 2)
        ≡ load.after (load.table Absent Asked Absent) (Some 2) (WaitLine 2 ∷ []) }
    ensures no_window { step 0 (load.round true) loader.Idle
        ≡ load.later (load.table Absent Asked Absent) None [] }
    ensures full_window { step 1 (load.round false) loader.Idle
        ≡ load.later (load.table Absent Asked Absent) None [] }
    ensures room_for_one { step 2 (load.round false) loader.Idle
        ≡ load.later (load.table Asked Asked Absent) None (AskLine 1 ∷ []) }
    ensures room_for_all { step 3 (load.round false) loader.Idle
        ≡ load.later (load.table Asked Asked Asked) None (AskLine 1 ∷ AskLine 3 ∷ []) }
    ensures after_arrival { step 1 (load.round true) (Arrive 2)
        ≡ load.later (load.table Asked Here Absent) None (HereLine 2 ∷ AskLine 1 ∷ []) }
    ensures after_loss { step 2 (load.round true) (Lose 2)
        ≡ load.later (load.table Asked Asked Absent) None
        (LostLine 2 ∷ AskLine 1 ∷ AskLine 2 ∷ []) }
    ensures beside_a_need { step 2 (load.round true) (Need 3)
        ≡ load.later (load.table Absent Asked Asked) (Some 3) (WaitLine 3 ∷ AskLine 3 ∷ []) }
    ensures over_the_window { step 1 (load.round true) (Need 3)
        ≡ load.later (load.table Absent Asked Asked) (Some 3) (WaitLine 3 ∷ AskLine 3 ∷ []) }
{}

/// The lines of marks: a cluster is fetched at the first entry of a function of it, once.
pub fn walked_marks()
    ensures fetched_once { walk load.cluster (fresh (1 ∷ 2 ∷ [])) (load.run_of
        (Entered 1 1 ∷ Entered 2 2 ∷ Needed 2 ∷ Entered 3 3 ∷ Needed 3 ∷ Entered 4 4 ∷ []))
        ≡ WaitLine 1 ∷ AskLine 1 ∷ HereLine 1 ∷ WaitLine 2 ∷ AskLine 2 ∷ HereLine 2 ∷ [] }
    ensures told { walk load.cluster (fresh (1 ∷ 2 ∷ [])) (load.run_of
        (out_mark (codes "a") ∷ Uncaught (ShownObject 1) ∷ Idle 7 ∷ out_mark (codes "b") ∷ []))
        ≡ out_line (codes "a") ∷ UncaughtLine (ShownObject 1)
        ∷ IdleLine ∷ out_line (codes "b") ∷ [] }
    ensures needed_alone { walk load.cluster (fresh (1 ∷ 2 ∷ [])) (load.run_of (Needed 2 ∷ []))
        ≡ WaitLine 1 ∷ AskLine 1 ∷ HereLine 1 ∷ [] }
    ensures asked_before { walk load.cluster (load.round false) (load.run_of (Entered 4 1 ∷ []))
        ≡ WaitLine 2 ∷ HereLine 2 ∷ [] }
    ensures here_before { walk load.cluster
        (load.loader (load.table Absent Here Absent) None false) (load.run_of (Entered 4 1 ∷ []))
        ≡ [] }
    ensures after_idle { walk load.cluster (fresh (1 ∷ 2 ∷ []))
        (load.run_of (Idle 1 ∷ Entered 4 2 ∷ Entered 2 3 ∷ []))
        ≡ IdleLine ∷ WaitLine 2 ∷ AskLine 2 ∷ HereLine 2
        ∷ WaitLine 1 ∷ AskLine 1 ∷ HereLine 1 ∷ [] }
    ensures lazily_once { lazy_lines load.cluster []
        (Entered 1 1 ∷ Entered 2 2 ∷ Entered 3 3 ∷ Entered 4 4 ∷ Entered 2 5 ∷ [])
        ≡ WaitLine 1 ∷ AskLine 1 ∷ HereLine 1 ∷ WaitLine 2 ∷ AskLine 2 ∷ HereLine 2 ∷ [] }
    ensures lazily_told { lazy_lines load.cluster [] (out_mark (codes "a")
        ∷ Uncaught (ShownObject 1) ∷ Needed 2 ∷ Idle 7 ∷ out_mark (codes "b") ∷ [])
        ≡ out_line (codes "a") ∷ UncaughtLine (ShownObject 1)
        ∷ IdleLine ∷ out_line (codes "b") ∷ [] }
    ensures lazily_here { lazy_lines load.cluster (2 ∷ []) (Entered 4 1 ∷ []) ≡ [] }
{}

/// The calls among a report's lines, and among marks; the marks that are seen, with their steps.
pub fn told_calls()
    ensures of_lines { calls (IdleLine ∷ out_line (codes "a") ∷ EventLine 1 ∷ WaitLine 1 ∷ AskLine 1
        ∷ UncaughtLine ShownUndefined ∷ HereLine 1 ∷ LostLine 1 ∷ CutLine 1
        ∷ out_line (codes "b") ∷ [])
        ≡ out_line (codes "a") ∷ UncaughtLine ShownUndefined ∷ out_line (codes "b") ∷ [] }
    ensures of_marks { marked_calls (Entered 1 1 ∷ out_mark (codes "a") ∷ Idle 1 ∷ Needed 1
        ∷ Uncaught ShownUndefined ∷ out_mark (codes "b") ∷ [])
        ≡ out_line (codes "a") ∷ UncaughtLine ShownUndefined ∷ out_line (codes "b") ∷ [] }
    ensures seen_marks { seen (load.run_of (Entered 1 1 ∷ Needed 1 ∷ out_mark (codes "a")
        ∷ Uncaught ShownUndefined ∷ Idle 1 ∷ []))
        ≡ Entered 1 1 ∷ out_mark (codes "a") ∷ Uncaught ShownUndefined ∷ Idle 1 ∷ [] }
    ensures their_steps { times (load.run_of (Entered 1 1 ∷ Needed 1 ∷ out_mark (codes "a")
        ∷ Uncaught ShownUndefined ∷ Idle 1 ∷ []))
        ≡ 1 ∷ 3 ∷ 4 ∷ 5 ∷ [] }
{}

/// The text of each line of a report.
pub fn report_lines()
    ensures call { line_text (CallLine (codes "out") (ShownText (codes "a") ∷ ShownUndefined
        ∷ ShownObject 12 ∷ [])) ≡ codes "call out \"a\" undefined #12\n" }
    ensures call_of_nothing { line_text (CallLine (codes "out") []) ≡ codes "call out\n" }
    ensures quoted { line_text (CallLine (codes "out") (ShownText (34 ∷ 92 ∷ 31 ∷ 32 ∷ 126
        ∷ 127 ∷ 55357 ∷ []) ∷ [])) ≡ codes "call out \"\\\"\\\\\\u001f ~\\u007f\\ud83d\"\n" }
    ensures uncaught { line_text (UncaughtLine (ShownObject 1)) ≡ codes "uncaught #1\n" }
    ensures uncaught_text { line_text (UncaughtLine (ShownText [])) ≡ codes "uncaught \"\"\n" }
    ensures idle { line_text IdleLine ≡ codes "idle\n" }
    ensures event { line_text (EventLine 7) ≡ codes "event 7\n" }
    ensures wait { line_text (WaitLine 10) ≡ codes "wait 10\n" }
    ensures ask { line_text (AskLine 4294967295) ≡ codes "ask 4294967295\n" }
    ensures here { line_text (HereLine 1) ≡ codes "here 1\n" }
    ensures lost { line_text (LostLine 1) ≡ codes "lost 1\n" }
    ensures cut { line_text (CutLine 1) ≡ codes "cut 1\n" }
    ensures ended { end_text end.Ended 35 ≡ codes "end ended 35\n" }
    ensures out_of_steps { end_text end.OutOfSteps 10000000 ≡ codes "end out-of-steps 10000000\n" }
    ensures in_order { lines_text (WaitLine 1 ∷ IdleLine ∷ []) ≡ codes "wait 1\nidle\n" }
{}

/// Values as the host sees them: an object by its rank, in the order of first passing.
pub fn shown_values()
    ensures ranks { all_shown [] (Error 5 ∷ Error 3 ∷ Text (codes "a") ∷ Undefined ∷ Error 5 ∷ [])
        ≡ ShownObject 1 ∷ ShownObject 2 ∷ ShownText (codes "a") ∷ ShownUndefined
        ∷ ShownObject 1 ∷ [] }
    ensures passed_before { all_shown (3 ∷ []) (Error 5 ∷ Error 3 ∷ [])
        ≡ ShownObject 2 ∷ ShownObject 1 ∷ [] }
    ensures passed_after { all_passed (3 ∷ [])
        (Error 5 ∷ Text (codes "a") ∷ Error 3 ∷ Undefined ∷ Error 7 ∷ []) ≡ 3 ∷ 5 ∷ 7 ∷ [] }
    ensures second_first { value.marks_of value.second_first
        ≡ at (value.shows (ShownObject 1 ∷ [])) 0
        ∷ at (value.shows (ShownObject 2 ∷ ShownObject 1 ∷ [])) 0
        ∷ at (Uncaught (ShownObject 2)) 0 ∷ [] }
    ensures thrown_first { value.marks_of value.thrown_first
        ≡ at (Uncaught (ShownObject 1)) 0
        ∷ at (value.shows (ShownObject 2 ∷ ShownObject 1 ∷ [])) 0 ∷ [] }
{}

/// Runs of small scripts: the later function counts, an exception ends the script, and beats and
/// needs of stubs.
pub fn small_scripts()
    ensures later_counts { rows.marks (value.run_with [] (value.function 102 []
        ∷ value.function 102 (Out (codes "two") ∷ []) ∷ value.calls 102 ∷ []) 100)
        ≡ at (Entered 3 1) 5 ∷ at (out_mark (codes "two")) 11 ∷ at (Idle 1) 11 ∷ [] }
    ensures declared_below { rows.marks (value.run_with [] (value.calls 102 ∷ value.function 102 []
        ∷ []) 100) ≡ at (Entered 1 1) 5 ∷ at (Idle 1) 5 ∷ [] }
    ensures exception { rows.marks (value.run_with [] (value.outs (codes "a") ∷ value.calls 113
        ∷ value.outs (codes "b") ∷ []) 100)
        ≡ at (out_mark (codes "a")) 7 ∷ at (Uncaught (ShownObject 1)) 10 ∷ at (Idle 0) 10 ∷ [] }
    ensures exception_ends { end_of (value.run_with [] (value.calls 113 ∷ []) 4) ≡ Ended 4 }
    ensures exception_cut { end_of (value.run_with [] (value.calls 113 ∷ []) 3) ≡ RanOut 3 }
    ensures in_an_entry { rows.marks (value.run_with (Call 113 ∷ Out (codes "a") ∷ [])
        (value.stub 103 2 ∷ value.calls 103 ∷ value.outs (codes "b") ∷ []) 100)
        ≡ at (Entered 2 1) 5 ∷ at (Needed 2) 9 ∷ at (Uncaught (ShownObject 1)) 16
        ∷ at (Idle 1) 16 ∷ [] }
    ensures called_twice { rows.marks (value.run_with (Call 102 ∷ [])
        (value.function 102 [] ∷ value.stub 103 2 ∷ value.calls 103 ∷ value.calls 103 ∷ []) 100)
        ≡ at (Entered 2 1) 5 ∷ at (Needed 2) 9 ∷ at (Entered 1 2) 17
        ∷ at (Entered 2 3) 21 ∷ at (Needed 2) 25 ∷ at (Entered 1 4) 33 ∷ at (Idle 4) 33 ∷ [] }
    ensures host_call { end_of (value.run_with [] (value.outs (codes "a") ∷ []) 7) ≡ Ended 7 }
    ensures host_call_cut { rows.marks (value.run_with [] (value.outs (codes "a") ∷ []) 6) ≡ [] }
    ensures no_entry { end_of (written no_entries (site_tree [] (value.stub 103 2
        ∷ value.calls 103 ∷ [])) 100) ≡ Broke }
    ensures nothing { end_of (value.run_with [] [] 1) ≡ Ended 1 }
{}

/// Cuts, fronts and ends, and where a need may stand.
pub fn trace_relations()
    ensures a_front { IsPrefix {A = ℕ} (1 ∷ 2 ∷ []) (1 ∷ 2 ∷ 3 ∷ []) }
    ensures no_back { IsPrefix {A = ℕ} (2 ∷ 3 ∷ []) (1 ∷ 2 ∷ 3 ∷ []) → ⊥ }
    ensures not_longer { IsPrefix {A = ℕ} (1 ∷ 2 ∷ []) (1 ∷ []) → ⊥ }
    ensures ended { ending (value.entered 1 value.ended) ≡ laws.Ended }
    ensures ran_out { ending (value.entered 1 (OutOfSteps start)) ≡ laws.RanOut }
    ensures broke { ending (value.entered 1 (IsStuck start)) ≡ laws.Broke }
    ensures cut { IsCut (value.entered 1 (OutOfSteps start)) (value.entered 1 value.ended) }
    ensures cut_end { IsCut value.ended (OutOfSteps start) → ⊥ }
    ensures cut_stuck { IsCut (IsStuck start) value.ended → ⊥ }
    ensures cut_mark { IsCut (value.entered 1 value.ended) (value.entered 2 value.ended) → ⊥ }
    ensures cut_behind { IsCut (value.entered 1 (value.entered 2 value.ended))
        (value.entered 1 value.ended) → ⊥ }
    ensures need_follows { NeedsFollow (value.entered 1 (value.needed 1 value.ended)) }
    ensures need_of_another { NeedsFollow (value.entered 1 (value.needed 2 value.ended)) → ⊥ }
    ensures need_first { NeedsFollow (value.needed 1 value.ended) → ⊥ }
    ensures need_twice { NeedsFollow (value.entered 1 (value.needed 1 (value.needed 1 value.ended)))
        → ⊥ }
{}

/// The page, with a line feed and without.
pub fn pages()
    ensures page { is_page (codes "{\"host\":[\"out\"]}") ≡ true }
    ensures with_line_feed { is_page (codes "{\"host\":[\"out\"]}\n") ≡ true }
    ensures two_line_feeds { is_page (codes "{\"host\":[\"out\"]}\n\n") ≡ false }
    ensures line_feed_first { is_page (codes "\n{\"host\":[\"out\"]}") ≡ false }
    ensures space { is_page (codes "{\"host\": [\"out\"]}") ≡ false }
    ensures empty { is_page [] ≡ false }
{}

/// The text of a manifest: which are read, as what, and which are refused.
pub fn manifest_texts()
    ensures least { site.Reads (codes "script 1 0 -\nend\n") (site.manifest 0 [] []) }
    ensures numbers { site.Reads (codes "script 1 65535 9,65535,1\nend\n")
        (site.manifest 65535 (9 ∷ 65535 ∷ 1 ∷ []) []) }
    ensures clusters { site.Reads
        (codes "script 1 5 -\ncluster 2 0\nentry 2 -\nentry 7 -\n"
        ++ codes "cluster 4294967295 2147483648\nentry 3 -\nend\n")
        (site.manifest 5 [] (site.line 2 0 (2 ∷ 7 ∷ [])
        ∷ site.line 4294967295 2147483648 (3 ∷ []) ∷ [])) }
    ensures long_script { site.Refuses (codes "script 1 65536 -\nend\n") }
    ensures number_zero { site.Refuses (codes "script 1 5 0\nend\n") }
    ensures great_number { site.Refuses (codes "script 1 5 65536\nend\n") }
    ensures no_numbers { site.Refuses (codes "script 1 5 \nend\n") }
    ensures comma_last { site.Refuses (codes "script 1 5 1,\nend\n") }
    ensures spaced { site.Refuses (codes "script 1 5 1, 2\nend\n") }
    ensures zero_before { site.Refuses (codes "script 1 05 -\nend\n") }
    ensures sign { site.Refuses (codes "script 1 5 +1\nend\n") }
    ensures other_script { site.Refuses (codes "script 2 5 -\nend\n") }
    ensures no_end { site.Refuses (codes "script 1 5 -\n") }
    ensures cut_end { site.Refuses (codes "script 1 5 -\nend") }
    ensures behind_the_end { site.Refuses (codes "script 1 5 -\nend\n\n") }
    ensures carriage_return { site.Refuses (codes "script 1 5 -\r\nend\n") }
    ensures other_form { read_manifest (codes "doloto site 1\nform 2\nscript 1 5 -\nend\n") ≡ None }
    ensures other_site { read_manifest (codes "doloto site 2\nform 1\nscript 1 5 -\nend\n") ≡ None }
    ensures empty { read_manifest [] ≡ None }
{}

/// Clusters and entries in the text of a manifest.
pub fn manifest_clusters()
    ensures no_entry { site.Refuses (codes "script 1 5 -\ncluster 1 5\nend\n") }
    ensures cluster_zero { site.Refuses (codes "script 1 5 -\ncluster 0 5\nentry 2 -\nend\n") }
    ensures great_cluster { site.Refuses
        (codes "script 1 5 -\ncluster 4294967296 5\nentry 2 -\nend\n") }
    ensures long_cluster { site.Refuses
        (codes "script 1 5 -\ncluster 1 2147483649\nentry 2 -\nend\n") }
    ensures entry_zero { site.Refuses (codes "script 1 5 -\ncluster 1 5\nentry 0 -\nend\n") }
    ensures greatest_entry { site.Reads (codes "script 1 5 1\ncluster 1 5\nentry 65535 -\nend\n")
        (site.manifest 5 (1 ∷ []) (site.line 1 5 (65535 ∷ []) ∷ [])) }
    ensures great_entry { site.Refuses (codes "script 1 5 -\ncluster 1 5\nentry 65536 -\nend\n") }
    ensures entries_fall { site.Refuses
        (codes "script 1 5 -\ncluster 1 5\nentry 3 -\nentry 2 -\nend\n") }
    ensures clusters_fall { site.Refuses
        (codes "script 1 5 -\ncluster 2 5\nentry 2 -\ncluster 1 5\nentry 3 -\nend\n") }
    ensures cluster_again { site.Refuses
        (codes "script 1 5 -\ncluster 2 5\nentry 2 -\ncluster 2 5\nentry 3 -\nend\n") }
    ensures entry_again { site.Refuses
        (codes "script 1 5 -\ncluster 1 5\nentry 2 -\ncluster 2 5\nentry 2 -\nend\n") }
    ensures plain_again { site.Refuses (codes "script 1 5 2\ncluster 1 5\nentry 2 -\nend\n") }
    ensures number_again { site.Refuses (codes "script 1 5 2,3,2\nend\n") }
    ensures entry_first { site.Refuses (codes "script 1 5 -\nentry 2 -\ncluster 1 5\nend\n") }
    ensures other_mark { site.Refuses (codes "script 1 5 -\ncluster 1 5\nentry 2 1\nend\n") }
{}

/// The names of a site's files.
pub fn file_names()
    ensures manifest { manifest_name (codes "site") ≡ codes "site/site.txt" }
    ensures with_slash { manifest_name (codes "site/") ≡ codes "site//site.txt" }
    ensures script { script_name (codes "a b") ≡ codes "a b/s1.js" }
    ensures cluster { cluster_name (codes "site") 12 ≡ codes "site/c12.txt" }
    ensures last_cluster { cluster_name (codes ".") 4294967295 ≡ codes "./c4294967295.txt" }
{}

/// Which scripts fit a manifest, and the numbers of their functions.
pub fn script_files()
    ensures fits { site.read_by 117 (1 ∷ []) (site.line 1 33 (2 ∷ []) ∷ []) ≡ Some rows.items }
    ensures listed_later { site.read_by 117 (9 ∷ [])
        (site.line 1 33 (3 ∷ 4 ∷ []) ∷ site.line 5 0 (1 ∷ 2 ∷ 7 ∷ []) ∷ []) ≡ Some rows.items }
    ensures shorter { site.read_by 116 (1 ∷ []) (site.line 1 33 (2 ∷ []) ∷ []) ≡ None }
    ensures longer { site.read_by 118 (1 ∷ []) (site.line 1 33 (2 ∷ []) ∷ []) ≡ None }
    ensures number_less { site.read_by 117 [] (site.line 1 33 (2 ∷ []) ∷ []) ≡ None }
    ensures number_more { site.read_by 117 (1 ∷ 3 ∷ []) (site.line 1 33 (2 ∷ []) ∷ []) ≡ None }
    ensures not_listed { site.read_by 117 (1 ∷ []) (site.line 1 33 (3 ∷ []) ∷ []) ≡ None }
    ensures no_cluster { site.read_by 117 (1 ∷ []) [] ≡ None }
    ensures not_of_grammar { read_script_file (site.manifest 5 [] []) (codes "f() ;") ≡ None }
    ensures stubs_in_order { stub_numbers (value.stub 103 7 ∷ value.calls 103
        ∷ value.function 102 [] ∷ value.stub 104 2 ∷ value.stub 105 7 ∷ []) ≡ 7 ∷ 2 ∷ 7 ∷ [] }
    ensures numbers_in_order { site.numbers (4 ∷ 9 ∷ []) (value.function 102 [] ∷ value.stub 103 2
        ∷ value.calls 102 ∷ value.function 104 [] ∷ []) ≡ 4 ∷ 2 ∷ 9 ∷ [] }
{}

/// The cluster that lists an entry, which cluster files are accepted, and the function of an entry.
pub fn cluster_files()
    ensures first_line { line_of (site.line 1 5 (2 ∷ 4 ∷ []) ∷ site.line 3 6 (5 ∷ []) ∷ []) 4
        ≡ Some (site.line 1 5 (2 ∷ 4 ∷ [])) }
    ensures later_line { line_of (site.line 1 5 (2 ∷ 4 ∷ []) ∷ site.line 3 6 (5 ∷ []) ∷ []) 5
        ≡ Some (site.line 3 6 (5 ∷ [])) }
    ensures no_line { line_of (site.line 1 5 (2 ∷ 4 ∷ []) ∷ site.line 3 6 (5 ∷ []) ∷ []) 3 ≡ None }
    ensures missing { cluster_file rows.no_files rows.folder (site.line 1 33 (2 ∷ []))
        ≡ site_file.Absent }
    ensures of_another { cluster_file rows.files rows.folder (site.line 2 33 (2 ∷ []))
        ≡ site_file.Absent }
    ensures accepted { site.read_cluster_file rows.cluster_bytes (site.line 1 33 (2 ∷ []))
        ≡ Accepted (rows.entry ∷ []) }
    ensures shorter { site.read_cluster_file rows.cluster_bytes (site.line 1 32 (2 ∷ []))
        ≡ site_file.Refused }
    ensures longer { site.read_cluster_file rows.cluster_bytes (site.line 1 34 (2 ∷ []))
        ≡ site_file.Refused }
    ensures other_entry { site.read_cluster_file rows.cluster_bytes (site.line 1 33 (3 ∷ []))
        ≡ site_file.Refused }
    ensures entry_less { site.read_cluster_file rows.cluster_bytes (site.line 1 33 (2 ∷ 3 ∷ []))
        ≡ site_file.Refused }
    ensures not_of_grammar { site.read_cluster_file (codes "2 (function(){}) \n")
        (site.line 1 18 (2 ∷ [])) ≡ site_file.Refused }
    ensures second_entry { entry_among (record { number = 2; body = Call 102 ∷ [] }
        ∷ record { number = 3; body = Call 103 ∷ [] } ∷ []) 3
        ≡ Some (late_function 3 (record { number = 3; body = Call 103 ∷ [] })) }
    ensures of_no_entry { entry_among (record { number = 2; body = [] } ∷ []) 3 ≡ None }
{}

/// What is played for files that are lacking or refused, and the names that are asked.
pub fn played_files()
    ensures both { played (site.two_files (site.fifth_file site.fifth_cluster
        (site.first_file site.first_cluster rows.no_files))) rows.folder headline.page 100
        ≡ answered (Gives (codes "wait 5\nask 5\nhere 5\ncall out \"b\"\nwait 1\nask 1\nhere 1\n"
        ++ codes "call out \"b\"\nidle\nend ended 49\n") end.Ended)
        (site.asked_script (codes "site/c5.txt" ∷ codes "site/c1.txt" ∷ [])) }
    ensures not_needed { played (site.two_files (site.fifth_file site.fifth_cluster rows.no_files))
        rows.folder headline.page 19
        ≡ answered (Gives (codes "wait 5\nask 5\nhere 5\ncall out \"b\"\nend out-of-steps 19\n")
        end.OutOfSteps)
        (site.asked_script (codes "site/c5.txt" ∷ [])) }
    ensures none { played (site.two_files rows.no_files) rows.folder headline.page 100
        ≡ answered (Lacks (codes "site/c5.txt")) (site.asked_script (codes "site/c5.txt" ∷ [])) }
    ensures second_lacks { played (site.two_files (site.fifth_file site.fifth_cluster
        rows.no_files)) rows.folder headline.page 100 ≡ answered (Lacks (codes "site/c1.txt"))
        (site.asked_script (codes "site/c5.txt" ∷ codes "site/c1.txt" ∷ [])) }
    ensures cluster_refused { played (site.two_files (site.fifth_file site.first_cluster
        (site.first_file site.first_cluster rows.no_files))) rows.folder headline.page 100
        ≡ answered (Refuses (file.Cluster 5)) (site.asked_script (codes "site/c5.txt" ∷ [])) }
    ensures second_refused { played (site.two_files (site.fifth_file site.fifth_cluster
        (site.first_file site.fifth_cluster rows.no_files))) rows.folder headline.page 100
        ≡ answered (Refuses (file.Cluster 1))
        (site.asked_script (codes "site/c5.txt" ∷ codes "site/c1.txt" ∷ [])) }
    ensures script_refused { played (rows.with_file (codes "site/s1.js") rows.script_bytes
        (site.two_files rows.no_files)) rows.folder headline.page 100
        ≡ answered (Refuses file.Script) (site.asked_script []) }
    ensures no_script { played (rows.with_file (codes "site/site.txt") site.two_manifest
        rows.no_files) rows.folder headline.page 100
        ≡ answered (Lacks (codes "site/s1.js")) (site.asked_script []) }
    ensures manifest_refused { played (rows.with_file (codes "site/site.txt") site.two_script
        rows.no_files) rows.folder headline.page 100
        ≡ answered (Refuses file.Manifest) (codes "site/site.txt" ∷ []) }
    ensures no_manifest { played rows.no_files rows.folder headline.page 100
        ≡ answered (Lacks (codes "site/site.txt")) (codes "site/site.txt" ∷ []) }
    ensures page_refused { played rows.files rows.folder (codes "{}") 100
        ≡ answered (Refuses file.Page) [] }
    ensures no_page { played_page rows.files rows.folder (codes "page.json") 100
        ≡ answered (Lacks (codes "page.json")) (codes "page.json" ∷ []) }
    ensures page_first { played_page (rows.with_file (codes "p") headline.page rows.no_files)
        rows.folder (codes "p") 100
        ≡ answered (Lacks (codes "site/site.txt")) (codes "p" ∷ codes "site/site.txt" ∷ []) }
    ensures page_refused_first { played_page (rows.with_file (codes "p") [] rows.files)
        rows.folder (codes "p") 100 ≡ answered (Refuses file.Page) (codes "p" ∷ []) }
{}

/// Runs of scripts past the first grammar: what a call gives, a property that is not there, and
/// `apply`.
pub fn tree_scripts()
    ensures returned { tree.marks_of (tree.shows_value tree.returns_a)
        ≡ at (Entered 1 1) 8 ∷ at (out_mark (codes "a")) 11 ∷ at (Idle 1) 11 ∷ [] }
    ensures not_returned { tree.marks_of (tree.shows_value (Do (tree.text (codes "a")) ∷ []))
        ≡ at (Entered 1 1) 8 ∷ at (value.shows (ShownUndefined ∷ [])) 11 ∷ at (Idle 1) 11 ∷ [] }
    ensures returned_nothing { tree.marks_of (tree.shows_value (Return NoExpr ∷ []))
        ≡ at (Entered 1 1) 8 ∷ at (value.shows (ShownUndefined ∷ [])) 10 ∷ at (Idle 1) 10 ∷ [] }
    ensures other_property { tree.marks_of
        (Do (tree.host_call (codes "no") (tree.text (codes "a") ∷ [])) ∷ [])
        ≡ at (Uncaught (ShownObject 1)) 6 ∷ at (Idle 0) 6 ∷ [] }
    ensures apply_alone { tree.marks_of (tree.applies [])
        ≡ at (Entered 1 1) 7 ∷ at (Idle 1) 7 ∷ [] }
    ensures apply_this { tree.marks_of (tree.applies (This ∷ []))
        ≡ at (Entered 1 1) 8 ∷ at (Idle 1) 8 ∷ [] }
    ensures apply_text { tree.marks_of (tree.applies (This ∷ tree.text (codes "x") ∷ []))
        ≡ at (Uncaught (ShownObject 1)) 8 ∷ at (Idle 0) 8 ∷ [] }
    ensures handed_on { tree.marks_of tree.hands_on
        ≡ at (Entered 2 1) 7 ∷ at (Entered 1 2) 17 ∷ at (Idle 2) 17 ∷ [] }
{}

/// A manifest and a script that fit each other, and those that do not.
pub fn fitting_scripts()
    ensures fits { site.FitsBy (1 ∷ []) (2 ∷ []) }
    ensures not_listed { site.FitsBy (1 ∷ []) (3 ∷ []) → ⊥ }
    ensures number_less { site.FitsBy [] (2 ∷ []) → ⊥ }
    ensures number_more { site.FitsBy (1 ∷ 3 ∷ []) (2 ∷ []) → ⊥ }
    ensures without_number { site.numbers [] (value.function 102 [] ∷ []) ≡ 0 ∷ [] }
    ensures listed { is_listed (site.line 1 33 (3 ∷ []) ∷ site.line 2 0 (2 ∷ []) ∷ []) 2 ≡ true }
    ensures listed_not { is_listed (site.line 1 33 (3 ∷ []) ∷ []) 2 ≡ false }
{}
