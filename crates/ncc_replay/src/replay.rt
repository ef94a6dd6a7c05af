//! The top call: a script in, a report out.

ghost use Rattle.std.specs.Prelude.{◌≡◌, ◌≢◌, ◌↔◌, ◌⊎◌, ◌≤◌, ◌<◌, ◌++◌, ℕ, List, length, take, Option, IfOk, OnOk, IsErrOf, IsTrue, Some};
ghost use Rattle.std.specs.Io.KnownBytes.{Appends};
ghost use Rattle.ncc_base.specs.Faults.{Rose};
ghost use Rattle.ncc_base.specs.Flushing.{IsAllFlushed};
ghost use Rattle.ncc_clients.specs.Laws.{PlacesAreApart, AllAreServed};
ghost use Rattle.ncc_clients.specs.Reads.{SessionsReadTheirWrites};
ghost use Rattle.ncc_world.specs.declared.error.Which.{Which as Limits};
ghost use Rattle.ncc_world.specs.Happening.{WorldRun};
ghost use Rattle.ncc_world.specs.Headline.{MembersAgree, FactsAreLawful, AllGoOn, AfterEach};
ghost use Rattle.ncc_world.specs.Setting.{cluster_of};
ghost use Rattle.ncc_replay.specs.Report.{report_text};
ghost use Rattle.ncc_replay.specs.Script.{Script, IsText, whole, refused, limited};
ghost use Rattle.ncc_replay.specs.Progress.{IsRunOf};
ghost use Rattle.ncc_replay.specs.Replay.{Reads, ReadsUpTo, Passes, IsGiven, OfRun, MayEnd};
ghost use Rattle.ncc_replay.specs.Replay.{most_bytes, run_words, status_of_read_error, status_of_script_error};
ghost use Rattle.ncc_replay.specs.declared.status.Cause.{Cause as Causes};

use crate::input::{ReadError, read_all};
use crate::laws::one_end;
use crate::report::report;
use crate::script::{ScriptError, run_script};
use crate::status::Status;
use ncc_base::{Sink, SinkError, Source};
use ncc_pack::{Bytes, Words};
use ncc_world::{Which, World, every_run_keeps};
use std::alloc::{AllocError, Global};

// The words are those that run a script.
fn are_run_words(words: &Words) -> bool
    ensures { IsTrue result ↔ (words.now ≡ run_words) }
{
    match words.as_slice() {
        [word] => word.as_str() == "run",
        _ => false,
    }
}

// The report of a run, or of none.
fn append_report(world: &Option<World>, into: &mut Bytes) -> Result<(), AllocError>
    ensures { (s : Script) (t : Option WorldRun) → IsRunOf world.now s t → OnOk result (into.new ≡ into.old ++ report_text s t) }
{
    match world {
        Some(world) => report(world, into),
        None => into.extend(b"ncc-report 1\nhistory 0\nend\n"),
    }
}

// The report of a script.
fn report_script(alloc: Global, text: &[u8]) -> Result<Bytes, ScriptError>
    ensures ok { IfOk result (λ bytes. (s : Script) × (t : Option WorldRun) × IsText text.now s t whole × (bytes ≡ report_text s t)) }
    ensures bad { (line : ℕ) (cause : Causes) → IsErrOf result (ScriptError.Bad line cause) →
        (s : Script) × (t : Option WorldRun) × IsText text.now s t (refused line cause) }
    ensures limit { (which : Limits) → IsErrOf result (ScriptError.Limit which) →
        (s : Script) × (t : Option WorldRun) × IsText text.now s t (limited which) }
{
    let world = match run_script(alloc, text) {
        Ok(world) => world,
        Err(error) => return Err(error),
    };
    let mut bytes = Bytes::new(alloc);
    match append_report(&world, &mut bytes) {
        Ok(()) => Ok(bytes),
        Err(_) => Err(ScriptError::Memory),
    }
}

// Writes a report, and says how that ended.
fn write_report<K: Sink>(report: &[u8], output: &mut K) -> Status
    ensures done { result ≡ Status.Done → Appends (K.held output.old) (K.held output.new) report.now }
    ensures flushed { result ≡ Status.Done → IsAllFlushed (K.held output.new) (K.flushed output.new) }
    ensures prefix { result ≡ Status.WriteFault → (n : ℕ) × Appends (K.held output.old) (K.held output.new) (take n report.now) }
    ensures fault { result ≡ Status.WriteFault → Rose (K.faults output.old) (K.faults output.new) }
    ensures memory { result ≡ Status.Memory → K.held output.new ≡ K.held output.old }
    ensures only { (result ≡ Status.Done) ⊎ ((result ≡ Status.WriteFault) ⊎ (result ≡ Status.Memory)) }
{
    match output.write(report) {
        Ok(()) => {}
        Err(SinkError::Failed) => return Status::WriteFault,
        Err(SinkError::Memory) => return Status::Memory,
    }
    match output.flush() {
        Ok(()) => Status::Done,
        Err(_) => Status::WriteFault,
    }
}

// How a replay ends whose input is not read.
fn status_of_read_error(error: ReadError) -> Status
    ensures { result ≡ status_of_read_error error }
{
    match error {
        ReadError::Fault => Status::ReadFault,
        ReadError::TooLong => Status::Limit {
            which: Which::Script,
        },
        ReadError::Memory => Status::Memory,
    }
}

// How a replay ends whose input gives no run.
fn status_of_script_error(error: ScriptError) -> Status
    ensures { result ≡ status_of_script_error error }
{
    match error {
        ScriptError::Bad { line, cause } => Status::BadScript { line, cause },
        ScriptError::Limit { which } => Status::Limit { which },
        ScriptError::Memory => Status::Memory,
    }
}

/// Runs the script that the input holds, and writes its report. The words are those of the command line, and
/// `run` alone is right. The whole input is read first, then the script is run, then the report is written.
pub fn replay<S: Source, K: Sink>(
    alloc: Global,
    words: &Words,
    input: &mut S,
    output: &mut K,
) -> Status
    // The whole input was read, and exactly the report of the script's run was written.
    ensures done { result ≡ Status.Done → (s : Script) × (t : Option WorldRun) × Reads (S.left input.old) (S.left input.new) s t
        × Appends (K.held output.old) (K.held output.new) (report_text s t) }

    // All that the sink holds was flushed, where it tells what was.
    ensures flushed { result ≡ Status.Done → IsAllFlushed (K.held output.new) (K.flushed output.new) }

    // The promise, of the script that was read and its run.
    ensures members_agree { result ≡ Status.Done → (s : Script) (t : Option WorldRun) → Reads (S.left input.old) (S.left input.new) s t →
        OfRun MembersAgree s t }
    ensures facts_are_lawful { result ≡ Status.Done → (s : Script) (t : Option WorldRun) → Reads (S.left input.old) (S.left input.new) s t →
        OfRun FactsAreLawful s t }
    ensures places_are_apart { result ≡ Status.Done → (s : Script) (t : Option WorldRun) → Reads (S.left input.old) (S.left input.new) s t →
        OfRun (λ setup events run. PlacesAreApart run) s t }
    ensures all_are_served { result ≡ Status.Done → (s : Script) (t : Option WorldRun) → Reads (S.left input.old) (S.left input.new) s t →
        OfRun (λ setup events run. AllAreServed (cluster_of setup) run) s t }
    ensures nobody_vanishes { result ≡ Status.Done → (s : Script) (t : Option WorldRun) → Reads (S.left input.old) (S.left input.new) s t →
        OfRun AllGoOn s t }
    ensures nobody_is_forgotten { result ≡ Status.Done → (s : Script) (t : Option WorldRun) → Reads (S.left input.old)
        (S.left input.new) s t →
        OfRun (λ setup events run. AfterEach setup events) s t }
    ensures sessions_read_their_writes { result ≡ Status.Done → (s : Script) (t : Option WorldRun) → Reads (S.left input.old)
        (S.left input.new) s t →
        OfRun (λ setup events run. SessionsReadTheirWrites run) s t }

    // When each other answer comes.
    ensures bad_words { (result ≡ Status.BadWords) ↔ (words.now ≢ run_words) }
    ensures bad_script { (line : ℕ) (cause : Causes) → result ≡ Status.BadScript line cause →
        ReadsUpTo (S.left input.old) (S.left input.new) (refused line cause) }
    ensures limit { (which : Limits) → result ≡ Status.Limit which → Passes (S.left input.old) (S.left input.new) which }
    ensures read_fault { result ≡ Status.ReadFault → Rose (S.faults input.old) (S.faults input.new) }
    ensures write_fault { result ≡ Status.WriteFault → Rose (K.faults output.old) (K.faults output.new) }

    // Where source and sink do not fail and memory does not run out, the input decides.
    ensures completes { (text : List ℕ) (s : Script) (t : Option WorldRun) → IsGiven words.now (S.left input.old) text →
        length text ≤ most_bytes → IsText text s t whole → MayEnd result Status.Done }
    ensures refuses { (text : List ℕ) (s : Script) (t : Option WorldRun) (line : ℕ) (cause : Causes) →
        IsGiven words.now (S.left input.old) text → length text ≤ most_bytes → IsText text s t (refused line cause) →
        MayEnd result (Status.BadScript line cause) }
    ensures limited { (text : List ℕ) (s : Script) (t : Option WorldRun) (which : Limits) →
        IsGiven words.now (S.left input.old) text → length text ≤ most_bytes → IsText text s t (limited which) →
        MayEnd result (Status.Limit which) }
    ensures too_long { (text : List ℕ) → IsGiven words.now (S.left input.old) text → most_bytes < length text →
        MayEnd result (Status.Limit Which.Script) }

    // What is written otherwise.
    ensures nothing_written { result ≢ Status.Done → result ≢ Status.WriteFault → K.held output.new ≡ K.held output.old }
    ensures prefix { result ≡ Status.WriteFault → (s : Script) × (t : Option WorldRun) × (n : ℕ)
        × Reads (S.left input.old) (S.left input.new) s t × Appends (K.held output.old) (K.held output.new) (take n (report_text s t)) }
    ensures nothing_read { result ≡ Status.BadWords → S.left input.new ≡ S.left input.old }
{
    every_run_keeps();
    one_end();
    if !are_run_words(words) {
        return Status::BadWords;
    }
    let text = match read_all(alloc, input) {
        Ok(text) => text,
        Err(error) => return status_of_read_error(error),
    };
    let report = match report_script(alloc, text.as_slice()) {
        Ok(report) => report,
        Err(error) => return status_of_script_error(error),
    };
    write_report(report.as_slice(), output)
}
