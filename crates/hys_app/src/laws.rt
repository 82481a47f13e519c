//! What follows from how an outcome is carried out, whatever the command, as a call that does nothing.

ghost use Rattle.std.specs.Prelude.{◌≡◌, ◌≢◌, ◌≤◌, ◌⊎◌};
ghost use Rattle.hys_io.specs.Outside.{Rose};
ghost use Rattle.hys_app.specs.Ends.{HasFailedRead, IfCarriedOut, IfEndsWith, IsDone, IsPut, IsUnprinted};
ghost use Rattle.hys_app.specs.declared.status.Status.TheVariants.{Write, Memory};

/// Where an outcome with a status other than 4 and 10 is carried out, and `old` and `new` are what
/// the files and the sink tell before and after it:
///
/// - A status other than 4 and 10 is the outcome's own, its file is put and its line is printed
///   (`done`).
/// - Status 4 comes only where a put or a write failed (`write`). Where the sink didn't fail nothing
///   was printed (`silent`). Where no put failed the file stands whole (`standing`).
/// - No count of failures falls (`counted`).
/// - Where a put failed nothing is printed, and the status is 4 (`failed_put`).
/// - Where a read failed before it nothing is put (`failed_read`).
/// - After want of memory nothing is put, or the whole file (`memory`).
#[tactic(auto, using(crate::proofs::Consequences::done, crate::proofs::Consequences::write, crate::proofs::Consequences::silent, crate::proofs::Consequences::standing, crate::proofs::Consequences::counted, crate::proofs::Consequences::failed_put, crate::proofs::Consequences::failed_read, crate::proofs::Consequences::memory))]
pub fn carrying_out()
    ensures done { IfCarriedOut (λ o result old new. result ≢ Write → result ≢ Memory → IsDone o result old new) }
    ensures write { IfEndsWith Write (λ o old new.
        Rose old.put_faults new.put_faults ⊎ Rose old.faults new.faults) }
    ensures silent { IfEndsWith Write (λ o old new. Rose old.faults new.faults ⊎ (new.written ≡ old.written)) }
    ensures standing { IfEndsWith Write (λ o old new.
        Rose old.put_faults new.put_faults ⊎ IsPut o.file old.held new.held) }
    ensures counted { IfCarriedOut (λ o result old new.
        (old.put_faults ≤ new.put_faults) × (old.faults ≤ new.faults)) }
    ensures failed_put { IfCarriedOut (λ o result old new.
        new.put_faults ≢ old.put_faults → IsUnprinted result old new) }
    ensures failed_read { IfCarriedOut (λ o result old new. HasFailedRead o old new → new.held ≡ old.held) }
    ensures memory { IfEndsWith Memory (λ o old new. (new.held ≡ old.held) ⊎ IsPut o.file old.held new.held) }
{}
