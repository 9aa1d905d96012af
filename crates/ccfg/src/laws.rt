//! What follows of the promises of commands, as the contracts of functions that do nothing.

ghost use Rattle.std.specs.Prelude.{◌≡◌, ◌⊎◌, ◌≤◌, ◌<◌, ◌+◌, ℕ, List, All, AllPairs, IsTrue};
ghost use Rattle.gl_commands.specs.declared.task.Asked.{Asked as Commands};
ghost use Rattle.gl_entry.specs.SourceBytes.{OfBytes};
ghost use Rattle.gl_hss.specs.declared.types.Types.{Types};
ghost use Rattle.gl_journal.specs.declared.key.Key.{Key};
ghost use Rattle.gl_journal.specs.declared.key.KeyKind.{KeyKind};
ghost use Rattle.gl_outside.specs.Disk.{Leaves, Step};
ghost use Rattle.ccfg.specs.Commands.{Does};
ghost use Rattle.ccfg.specs.Exits.{Exits};
ghost use Rattle.ccfg.specs.ExpectedOutput.{Output};
ghost use Rattle.ccfg.specs.KeyLife.{Follow, GoesOnFrom, HoldsKey, KeyRun, LeavesKey, MayServe, steps_after, told_by_all};
ghost use Rattle.ccfg.specs.KeygenCommand.{KeygenDoes};
ghost use Rattle.ccfg.specs.Run.{LinkRun, Run};
ghost use Rattle.ccfg.specs.declared.ending.Ending.{Ending as Endings};
ghost use Rattle.ccfg.specs.declared.ending.Ending.TheVariants.{DiskFailed, Done, Memory, SinkFailed, SourceFailed};

/// A run ends as is due, or its source, its sink or its disk failed, or memory ran out.
pub fn law_of_endings<S, D>()
    ensures { (r : Run S D) (e : Endings) (output : Output) → Exits r e output
        → (e ≡ output.ending) ⊎ (e ≡ SourceFailed) ⊎ (e ≡ SinkFailed) ⊎ (e ≡ DiskFailed)
        ⊎ (e ≡ Memory) }
{}

/// No leaf of a key file signs twice. `keygen` leaves a file of its key. From then on, through any
/// runs of the program that follow one another, each on what a stop may have left of the one
/// before, whatever they were asked, what failed and where they stopped: a stop leaves a file of
/// the key at every moment, each leaf by which a signature may have been told is above those before
/// it, and it is spent in whatever a stop leaves then. The snapshot behind which a node begins, its
/// file's or its source's, if there is one, is to stand for a ledger.
pub fn law_of_leaves<S, D, L>()
    ensures begins { (kind : KeyKind) (types : Types) (r : Run S D) → KeygenDoes kind types r Done
        → IsTrue r.disk.honest → OfBytes r.source.given (λ seed.
        LeavesKey (record { kind = kind; types = types; seed = seed }) 0
        (r.disk.past r.disk.after)) }
    ensures any_moment { (key : Key) (spent : ℕ) (past : List Step) (asked : Commands)
        (r : Run S D) (link : LinkRun L) (e : Endings) → LeavesKey key spent past
        → GoesOnFrom past r.disk → MayServe asked r → Does asked r link e
        → Leaves (HoldsKey key spent) (r.disk.past r.disk.before) (r.disk.past r.disk.after) }
    ensures once { (key : Key) (spent : ℕ) (past : List Step) (runs : List (KeyRun S D L))
        → LeavesKey key spent past → Follow past runs
        → AllPairs (λ leaf later. leaf < later) (told_by_all runs) }
    ensures spent { (key : Key) (spent : ℕ) (past : List Step) (runs : List (KeyRun S D L))
        → LeavesKey key spent past → Follow past runs
        → All (λ leaf. (spent ≤ leaf) × LeavesKey key (leaf + 1) (steps_after past runs))
        (told_by_all runs) }
{}
