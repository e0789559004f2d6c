// The top call: words to a command, and what it answers.
ghost use Rattle.std.specs.Prelude.{◌≡◌, ◌≢◌, ◌≤◌, ◌<◌, ◌⊎◌, ◌↔◌, ℕ, List, ◌∷◌, false, map, length, string_bytes, IfOk, Some, None, Ok, Err};
ghost use Rattle.std.specs.Option.{option_map};
ghost use Rattle.std.specs.Io.KnownBytes.{Appends};
ghost use Rattle.io_edge.specs.Outside.{Held, held_at, Rose, AppendsPart};
ghost use Rattle.machine_model.specs.Safe.{Safe};
ghost use Rattle.py_syntax.specs.declared.Module.{Module};
ghost use Rattle.py_syntax.specs.Findings.{Finding};
ghost use Rattle.py_syntax.specs.SmallLocal.{IsLocalFault, HasNoLocalFault};
ghost use Rattle.py_front.specs.Answers.{IsFront};
ghost use Rattle.py_front.specs.declared.FrontFault.{FrontFault};
ghost use Rattle.nagini_cli.specs.Allowed.{Allowed, AsksFor};
ghost use Rattle.nagini_cli.specs.Answers.{IsAnswer};
ghost use Rattle.nagini_cli.specs.Commands as commands;
ghost use Rattle.nagini_cli.specs.Commands.{Check, Names, command_of};
ghost use Rattle.nagini_cli.specs.Refusals.{refusal_status, refusal_text};
ghost use Rattle.nagini_cli.specs.Replies.{Says};
ghost use Rattle.nagini_cli.specs.Reports.{AreLocalFaults, report_text};
ghost use Rattle.nagini_cli.specs.RunTold.{ReadsInOrder, RunIsTold};
ghost use Rattle.nagini_cli.specs.Statuses.{IsAnswered, IsCutShort, IsQuiet};
ghost use Rattle.nagini_cli.specs.Texts as texts;

use crate::check::{FILE_LIMIT, check};
use crate::laws::a_run_has_one_answer;
use crate::reply::{Reply, finish};
use crate::run::run_files;
use crate::status::{ACCEPTED, LIMIT, NOT_PROVED, READ_FAULT, REFUSED, USAGE, WRITE_FAULT};
use crate::texts::usage_line;
use crate::words::{Command, read_command};
use io_edge::{Files, Sink};
use perm_sound::no_local_fault_is_safe;
use py_base::OutOfMemory;
use py_front::a_spelled_module_is_small;
use std::alloc::Global;

/// Does what the words ask for, and answers the status. Each line of output is one write. Want of
/// memory may come in place of any answer.
pub fn nagini<F: Files, O: Sink>(alloc: Global, words: &[String], files: &mut F, out: &mut O) -> u8
    // What is answered is allowed for the words and the files that are held. Where memory is missing
    // or a write fails, nothing is written or a front of such a text, and the text of a read fault
    // only where a read failed.
    ensures whole { IsQuiet result → (text : List ℕ)
        × Allowed (map string_bytes words.now) (F.held files.old) result text
        × Appends (O.written out.old) (O.written out.new) text }
    ensures part { IsCutShort result → (O.written out.new ≡ O.written out.old)
        ⊎ ((status : ℕ) × (text : List ℕ)
        × Allowed (map string_bytes words.now) (F.held files.old) status text
        × AppendsPart (O.written out.old) (O.written out.new) text
        × (status ≡ READ_FAULT → Rose (F.faults files.old) (F.faults files.new))) }

    // Words that are no command, and no others, are answered by the usage line.
    ensures usage { result ≡ USAGE → command_of (map string_bytes words.now) ≡ None }
    ensures no_command { command_of (map string_bytes words.now) ≡ None → IsQuiet result →
        (result ≡ USAGE) × Appends (O.written out.old) (O.written out.new) texts.usage_line }
    ensures unread { command_of (map string_bytes words.now) ≡ None → files.new ≡ files.old }

    // A read fault is told where the read of a file of the command failed, and only there.
    ensures read_fault { result ≡ READ_FAULT → (command : commands.Command) × (file : List ℕ)
        × (command_of (map string_bytes words.now) ≡ Some command)
        × Names command file
        × Rose (F.faults files.old) (F.faults files.new)
        × (F.failed files.new ≡ Some file)
        × Appends (O.written out.old) (O.written out.new) (texts.read_fault_line file) }
    ensures no_read_fault { IsAnswered result → F.faults files.new ≡ F.faults files.old }
    ensures no_failed_name { IsAnswered result → F.failed files.new ≡ F.failed files.old }
    ensures not_held { (file : List ℕ) (held : Held) →
        command_of (map string_bytes words.now) ≡ Some (Check file) →
        F.held files.old ≡ Some held → held_at held file ≡ None →
        IsQuiet result → result ≡ READ_FAULT }

    // Else the answer is the one that there is to the bytes of the file, where these are told.
    ensures told { (bytes : List ℕ) →
        AsksFor (map string_bytes words.now) (F.held files.old) bytes →
        IsAnswered result → (text : List ℕ)
        × IsAnswer bytes result text
        × Appends (O.written out.old) (O.written out.new) text }

    // What each status says of the bytes, and when it comes.
    ensures limit { (bytes : List ℕ) →
        AsksFor (map string_bytes words.now) (F.held files.old) bytes →
        IsAnswered result → (result ≡ LIMIT) ↔ ((FILE_LIMIT < length bytes)
        ⊎ ((f : FrontFault) × IsFront bytes (Err f) × (refusal_status f ≡ LIMIT))) }
    ensures only_refused { (bytes : List ℕ) →
        AsksFor (map string_bytes words.now) (F.held files.old) bytes →
        result ≡ REFUSED → (f : FrontFault)
        × IsFront bytes (Err f) × (refusal_status f ≡ REFUSED) }
    ensures refused { (bytes : List ℕ) (f : FrontFault) →
        AsksFor (map string_bytes words.now) (F.held files.old) bytes →
        IsAnswered result → length bytes ≤ FILE_LIMIT → IsFront bytes (Err f) →
        (result ≡ refusal_status f)
        × Appends (O.written out.old) (O.written out.new) (refusal_text f) }
    // An accepted file's module has no local fault, and each of its runs is safe. A report has exactly
    // the local faults, in order.
    ensures accepted { (bytes : List ℕ) →
        AsksFor (map string_bytes words.now) (F.held files.old) bytes →
        result ≡ ACCEPTED → (m : Module)
        × IsFront bytes (Ok m) × HasNoLocalFault m × ((list : List ℕ) → Safe m list) }
    ensures accepts { (bytes : List ℕ) (m : Module) →
        AsksFor (map string_bytes words.now) (F.held files.old) bytes →
        IsAnswered result → length bytes ≤ FILE_LIMIT → IsFront bytes (Ok m) → HasNoLocalFault m →
        (result ≡ ACCEPTED)
        × Appends (O.written out.old) (O.written out.new)
        (texts.accepted_line (length m.methods)) }
    ensures not_proved { (bytes : List ℕ) →
        AsksFor (map string_bytes words.now) (F.held files.old) bytes →
        result ≡ NOT_PROVED → (m : Module) × (f : Finding) × (faults : List Finding)
        × IsFront bytes (Ok m) × AreLocalFaults m (f ∷ faults)
        × Appends (O.written out.old) (O.written out.new) (report_text m (f ∷ faults)) }
    ensures reports { (bytes : List ℕ) (m : Module) (f : Finding) →
        AsksFor (map string_bytes words.now) (F.held files.old) bytes →
        IsAnswered result → length bytes ≤ FILE_LIMIT → IsFront bytes (Ok m) → IsLocalFault m f →
        (result ≡ NOT_PROVED)
        × ((faults : List Finding) × AreLocalFaults m faults
        × Appends (O.written out.old) (O.written out.new) (report_text m faults)) }

    // A run reads both files in their order, and its answer is the one that there is to their bytes:
    // the output of the module under the schedule, and the status of its end.
    ensures reads_in_order { ReadsInOrder (map string_bytes words.now) (F.held files.old) result
        (O.written out.old) (O.written out.new) }
    ensures run_told { RunIsTold (map string_bytes words.now) (F.held files.old) result
        (O.written out.old) (O.written out.new) }

    // A write that fails is the last one, and gives its own status.
    ensures write_fault { result ≡ WRITE_FAULT → Rose (O.faults out.old) (O.faults out.new) }
    ensures no_write_fault { result ≢ WRITE_FAULT → O.faults out.new ≡ O.faults out.old }
    ensures no_late_read { F.faults files.old ≡ 0 → F.late files.old ≡ false →
        F.late files.new ≡ false }
    ensures no_late_write { O.faults out.old ≡ 0 → O.late out.old ≡ false →
        O.late out.new ≡ false }
    ensures held { F.held files.new ≡ F.held files.old }
{
    match read_command(words) {
        Some(Command::Check(file)) => {
            no_local_fault_is_safe();
            a_spelled_module_is_small();
            finish(check(alloc, file, files), out)
        }
        Some(Command::Run(file, schedule)) => {
            a_run_has_one_answer();
            run_files(alloc, file, schedule, files, out)
        }
        None => finish(usage(alloc), out),
    }
}

fn usage(alloc: Global) -> Result<Reply, OutOfMemory>
    ensures { IfOk result (λ r. Says r USAGE texts.usage_line) }
{
    Ok(Reply::one(alloc, USAGE, usage_line(alloc)?)?)
}
