//! Laws over the definitions that runs are played by: functions with empty bodies, whose contracts
//! are the laws.

ghost use Rattle.std.specs.Prelude.{◌≡◌, ◌+◌, ◌≤◌, ℕ, List, [], Option};
ghost use Rattle.dl_ports.specs.Files.{Files};
ghost use Rattle.first_grammar.specs.declared.script.FirstItem.{FirstItem};
ghost use Rattle.js_tree.specs.Tree.{Func, Script};
ghost use Rattle.play.specs.declared.manifest.Manifest.{Manifest};
ghost use Rattle.play.specs.declared.outcome.End.{End};
ghost use Rattle.play.specs.Headline.{PutsBackTo, ShowsOriginal};
ghost use Rattle.play.specs.Laziness.{ShowsLoads, lazy_lines, original_lines};
ghost use Rattle.play.specs.Played.{Gives, cluster_of, played};
ghost use Rattle.play.specs.Value.{Env};
ghost use Rattle.play.specs.Program.{Node, Program, program};
ghost use Rattle.play.specs.Run.{State, Stack, due, run};
ghost use Rattle.play.specs.Laws.{IsCut, IsLate, Joined, mean, resume, seen};
ghost use Rattle.play.specs.Page.{original};
ghost use Rattle.play.specs.PutBack.{PutsBack};
ghost use Rattle.play.specs.Site.{entries as site_entries, site_tree, stub_numbers};

/// A run under fewer steps is the run under more, up to where it ran out of steps.
pub fn runs_grow()
    ensures { (entries : ℕ → Option Func) (n m : ℕ) → n ≤ m
        → (p : Program) (ks : Stack) (s : State)
        → IsCut (run entries n p ks s) (run entries m p ks s) }
{}

/// Under a stack a node runs as it does alone, and what waits goes on from its end with the steps
/// that are left.
pub fn parts()
    ensures { (entries : ℕ → Option Func) (node : Node) (env : Env) (s : State) (n : ℕ) (ks : Stack)
        → due entries n (program entries node env) ks s
        ≡ resume entries (n + s.steps) ks (mean entries node env s n) }
{}

/// The entries that a site's files give are late functions, as `written_runs` wants them.
pub fn entries_are_late()
    ensures { (files : Files) (folder : List ℕ) (m : Manifest)
        → IsLate (site_entries files folder m) }
{}

/// The written run of a site's script shows the marks of its original: a prefix of them under the
/// same steps, all of them under 32 times the steps and 32 more, and each in time.
pub fn written_runs()
    ensures { (entries : ℕ → Option Func) → IsLate entries
        → (items : List FirstItem) (ns listed : List ℕ) (original_script : Script)
        → PutsBack entries listed (stub_numbers items) (site_tree ns items) original_script
        → Joined entries (site_tree ns items) original_script }
{}

/// The headline: what is played for a site whose files put back to a script shows that script's
/// host calls and uncaught exceptions.
///
/// Where the run ended they are the original's under the same steps, and otherwise a front of them;
/// and those of the original under m steps are a front of them, where 32 m + 32 steps were allowed.
/// Where the original ends within m steps, so does the run within 32 m + 32.
pub fn played_shows_original()
    ensures { (files : Files) (folder page : List ℕ) (n : ℕ) (original_script : Script)
        → PutsBackTo files folder original_script
        → (report : List ℕ) (e : End) → (played files folder page n).answer ≡ Gives report e
        → ShowsOriginal report e original_script n }
{}

/// Laziness: the lines of what is played for such a site are those of the marks of the original's
/// run, as clusters come.
///
/// They are all of them where the run ended, and otherwise a front of them; and those of the
/// original under m steps are a front of them, where 32 m + 32 steps were allowed.
pub fn played_loads_lazily()
    ensures { (files : Files) (folder page : List ℕ) (n : ℕ) (original_script : Script)
        (back : PutsBackTo files folder original_script)
        (report : List ℕ) (e : End) → (played files folder page n).answer ≡ Gives report e
        → ShowsLoads back.manifest report e original_script n }
{}

/// The lines of an original's marks, without a loader: the page waits for a cluster exactly where
/// the original enters a function whose entry is in it, while it has not come.
pub fn waits_at_first_entries()
    ensures { (files : Files) (folder : List ℕ) (original_script : Script)
        (back : PutsBackTo files folder original_script) (n : ℕ)
        → original_lines back.manifest original_script n
        ≡ lazy_lines (cluster_of back.manifest) [] (seen (original original_script n)) }
{}
