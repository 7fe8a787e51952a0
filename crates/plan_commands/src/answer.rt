//! The commands of `forestplan`, and the answer of each to the bytes of its input.

use command_line::{Declined, Executable, Request, parse};
use plan_answers::{PlanFault, check_bytes, fault_report, forest_bytes, plain_bytes};
use plan_runs::{plan_bytes, transcript_bytes};
use reports::FaultReport;
use serving::Commands;
use std::alloc::{AllocError, Global};
use std::sync::Wait;
use std::thread::Threads;
use wired_nodes::OpenGate;

/// The commands of `forestplan`; each is a line of `answer_alone` or, if it starts threads, of `answer_by_threads`.
pub struct ForestplanCommands;

impl Commands for ForestplanCommands {
    ghost use Rattle.command_line.specs.Asked.{IsInRange};
    ghost use Rattle.plan_commands.specs.Commands.{forestplan_commands};

    type Request = Request;

    type Fault = PlanFault;

    ghost commands = { forestplan_commands };

    ghost can_answer = { IsInRange };

    fn executable() -> Executable {
        Executable::Forestplan
    }

    fn parse<'a>(alloc: Global, words: &'a [&'a str]) -> Result<Request, Declined> {
        parse(alloc, words)
    }

    fn fault_report(
        alloc: Global,
        name: &str,
        fault: PlanFault,
    ) -> Result<FaultReport, AllocError> {
        fault_report(alloc, name, fault)
    }

    fn starts_threads(request: Request) -> bool {
        match request {
            Request::Plan(_) | Request::Transcript(_, _) => true,
            Request::Forests | Request::Plain | Request::Check => false,
        }
    }

    fn answer_alone(alloc: Global, request: Request, input: &[u8]) -> Result<Vec<u8>, PlanFault> {
        match request {
            Request::Forests => forest_bytes(alloc, input),
            Request::Plain => plain_bytes(alloc, input),
            Request::Check => check_bytes(alloc, input),
            Request::Plan(_) | Request::Transcript(_, _) => unreachable!(),
        }
    }

    fn answer_by_threads<T: Threads + Wait + Sync>(
        rt: &T,
        alloc: Global,
        request: Request,
        input: &[u8],
    ) -> Result<Vec<u8>, PlanFault> {
        match request {
            Request::Plan(options) => plan_bytes(rt, alloc, input, options, &OpenGate),
            Request::Transcript(options, edition) => {
                transcript_bytes(rt, alloc, input, options, edition, &OpenGate)
            }
            Request::Forests | Request::Plain | Request::Check => unreachable!(),
        }
    }
}
