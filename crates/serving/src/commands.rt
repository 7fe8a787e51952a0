//! What the commands of an executable are to `serve`.

ghost use Rattle.std.specs.Prelude.{◌≡◌, Some, IfOk, IfErr, Ok, Err, false, map, true};
ghost use denote.Param.Send.{IsSync};
ghost use Rattle.command_line.specs.Asked.{MayDecline};
ghost use Rattle.serving.specs.CommandSet.{CommandSet, fault_line, fault_status};

use command_line::{Declined, Executable};
use reports::FaultReport;
use std::alloc::{AllocError, Global};
use std::sync::Wait;
use std::thread::Threads;

/// The commands of an executable: what its words ask for, and what is answered to the bytes of an input.
pub trait Commands {
    /// What words may ask for.
    type Request: Copy;

    /// Why an input has no answer.
    type Fault;

    /// The executable, what its words ask for, and what may be answered.
    ghost commands: { CommandSet Self.Request Self.Fault };

    /// The requests of which the options are in range.
    ghost can_answer: { Self.Request → Type 0 };

    /// The executable.
    fn executable() -> Executable
        ensures { result ≡ commands.executable };

    /// What the words ask for; the first is the executable's name, and is not looked at.
    ///
    /// # Errors
    /// `Help` or `Refused` if they ask for nothing. Any call may instead fail with `Memory`.
    fn parse<'a>(alloc: Global, words: &'a [&'a str]) -> Result<Self::Request, Declined>
        ensures ok { IfOk result
            (λ request. commands.request_of (map (λ word. word.now) words.entry.now) ≡ Some request) }
        ensures in_range { IfOk result can_answer }
        ensures err { IfErr result (MayDecline commands.executable
            (commands.request_of (map (λ word. word.now) words.entry.now)) (map (λ word. word.now) words.entry.now)) };

    /// The line and the status with which a program of a name reports a fault.
    ///
    /// # Errors
    /// If there is no memory for the line.
    fn fault_report(
        alloc: Global,
        name: &str,
        fault: Self::Fault,
    ) -> Result<FaultReport, AllocError>
        ensures line { IfOk result (λ report. report.line.items ≡ fault_line commands name.now fault) }
        ensures status { IfOk result (λ report. report.status ≡ fault_status commands fault) };

    /// Whether what is asked for starts worker threads.
    fn starts_threads(request: Self::Request) -> bool
        ensures { result ≡ commands.starts_threads request };

    /// The answer of a command that starts no threads to its input. The call returns: it has no runtime to wait with.
    ///
    /// # Errors
    /// The fault of the input, or of memory.
    fn answer_alone(
        alloc: Global,
        request: Self::Request,
        input: &[u8],
    ) -> Result<Vec<u8>, Self::Fault>
        requires in_range { can_answer request }
        requires alone { commands.starts_threads request ≡ false }
        ensures ok { IfOk result (λ bytes. commands.MayAnswer request input.now (Ok bytes.items)) }
        ensures fault { IfErr result (λ fault. commands.MayAnswer request input.now (Err fault)) };

    /// The answer of a command that starts threads to its input. It isn't promised that the call returns. The clause
    /// `shared` says of `rt` what the bound `Sync` does, since an `impl` doesn't know that bound of its method.
    ///
    /// # Errors
    /// The fault of the input, of the run, or of memory.
    fn answer_by_threads<T: Threads + Wait + Sync>(
        rt: &T,
        alloc: Global,
        request: Self::Request,
        input: &[u8],
    ) -> Result<Vec<u8>, Self::Fault>
        requires in_range { can_answer request }
        requires threads { commands.starts_threads request ≡ true }
        requires shared { IsSync T.row }
        ensures ok { IfOk result (λ bytes. commands.MayAnswer request input.now (Ok bytes.items)) }
        ensures fault { IfErr result (λ fault. commands.MayAnswer request input.now (Err fault)) };
}
