//! The commands of `forestplay`.

use crate::playing::named_bytes;
use crate::running::named_run_bytes;
use command_line::{Declined, Executable, Play, PlayRequest, parse_play};
use play_inputs::{PlayFault, fault_report};
use reports::FaultReport;
use serving::Commands;
use std::alloc::{AllocError, Global};
use std::sync::Wait;
use std::thread::Threads;

/// The commands of `forestplay`. `Play::Run` starts threads.
pub struct ForestplayCommands;

impl Commands for ForestplayCommands {
    ghost use Rattle.command_line.specs.Asked.{IsPlayInRange};
    ghost use Rattle.play_commands.specs.Commands.{forestplay_commands};

    type Request = PlayRequest;

    type Fault = PlayFault;

    ghost commands = { forestplay_commands };

    ghost can_answer = { λ request. IsPlayInRange request.play };

    fn executable() -> Executable {
        Executable::Forestplay
    }

    fn parse<'a>(alloc: Global, words: &'a [&'a str]) -> Result<PlayRequest, Declined> {
        parse_play(alloc, words)
    }

    fn fault_report(
        alloc: Global,
        name: &str,
        fault: PlayFault,
    ) -> Result<FaultReport, AllocError> {
        fault_report(alloc, name, fault)
    }

    fn starts_threads(request: PlayRequest) -> bool {
        match request.play {
            Play::Run(_, _) => true,
            Play::Events | Play::Replay | Play::Rounds | Play::Alone(_) | Play::Ends => false,
        }
    }

    fn answer_alone(
        alloc: Global,
        request: PlayRequest,
        input: &[u8],
    ) -> Result<Vec<u8>, PlayFault> {
        named_bytes(alloc, request.program, request.play, input)
    }

    fn answer_by_threads<T: Threads + Wait + Sync>(
        rt: &T,
        alloc: Global,
        request: PlayRequest,
        input: &[u8],
    ) -> Result<Vec<u8>, PlayFault> {
        match request.play {
            Play::Run(options, shown) => {
                named_run_bytes(rt, alloc, request.program, options, shown, input)
            }
            Play::Events | Play::Replay | Play::Rounds | Play::Alone(_) | Play::Ends => {
                unreachable!()
            }
        }
    }
}
