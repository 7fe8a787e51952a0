//! The colouring's texts: the first line of its rounds, its phases, colours and choices, and the channel of a node.

ghost use Rattle.std.specs.Prelude.{◌≡◌, ◌<◌, ◌++◌, IfOk};
ghost use Rattle.colour_rules.specs.Node.{IsPhase};
ghost use Rattle.colour_program.specs.ColoursText.{choice_text, colour_text, colours_text, node_text, phase_text};
ghost use Rattle.colour_program.specs.ColoursText.{reduction_text};

use crate::colouring::Colouring;
use colour_rules::{ColourNode, Phase, Reduction, Schedule};
use interference::Network;
use node_api::NodeProgram;
use number_rows::{push_numbered, push_row};
use program_texts::ProgramText;
use std::alloc::AllocError;

fn push_reduction(text: &mut Vec<u8>, reduction: Reduction) -> Result<(), AllocError>
    ensures { IfOk result (λ _. text.new.items ≡ text.old.items ++ reduction_text reduction) }
{
    match reduction {
        Reduction::Step(_) => text.extend_from_slice(b" step"),
        Reduction::Shift(_) => text.extend_from_slice(b" shift"),
        Reduction::Drop(_) => text.extend_from_slice(b" drop"),
    }
}

// Appends the words of a phase, a space before each.
fn push_words(text: &mut Vec<u8>, schedule: &Schedule, phase: Phase) -> Result<(), AllocError>
    ensures { IfOk result (λ _. text.new.items ≡ text.old.items ++ phase_text schedule.now phase) }
{
    match phase {
        Phase::Greet => text.extend_from_slice(b" greet"),
        Phase::Orient => text.extend_from_slice(b" orient"),
        Phase::Seed => text.extend_from_slice(b" seed"),
        Phase::Work(reduction) => push_reduction(text, reduction),
        Phase::Merge(forest, step) => {
            let (three, old) = schedule.pair(step);
            push_numbered(text, b" merge ", u128::from(forest))?;
            push_numbered(text, b" ", u128::from(three))?;
            push_numbered(text, b" ", u128::from(old))
        }
        Phase::Halted => text.extend_from_slice(b" halted"),
    }
}

fn push_colour(text: &mut Vec<u8>, v: u32, node: &ColourNode, forest: u16) -> Result<(), AllocError>
    requires forest { forest < node.now.sizes.forests }
    ensures { IfOk result (λ _. text.new.items ≡ text.old.items ++ colour_text v node.now forest) }
{
    push_numbered(text, b"", u128::from(v))?;
    push_numbered(text, b" colour ", u128::from(forest))?;
    push_numbered(text, b" ", node.forest_colour(forest))?;
    text.push(b'\n')?;
    Ok(())
}

fn push_colours(text: &mut Vec<u8>, v: u32, node: &ColourNode) -> Result<(), AllocError>
    ensures { IfOk result (λ _. text.new.items ≡ text.old.items ++ colours_text v node.now) }
{
    for forest in 0..node.forests() {
        push_colour(text, v, node, forest)?;
    }
    Ok(())
}

fn push_choice(text: &mut Vec<u8>, v: u32, node: &ColourNode) -> Result<(), AllocError>
    ensures { IfOk result (λ _. text.new.items ≡ text.old.items ++ choice_text v node.now) }
{
    push_numbered(text, b"", u128::from(v))?;
    push_numbered(text, b" chose ", u128::from(node.colour()))?;
    text.push(b'\n')?;
    Ok(())
}

// Appends what is said of a node after a pulse of this phase.
fn push_node(text: &mut Vec<u8>, phase: Phase, v: u32, node: &ColourNode) -> Result<(), AllocError>
    requires real { IsPhase node.now.sizes phase }
    ensures { IfOk result (λ _. text.new.items ≡ text.old.items ++ node_text phase v node.now) }
{
    match phase {
        Phase::Seed | Phase::Work(_) => push_colours(text, v, node),
        Phase::Merge(forest, step) if node.chose_at(forest, step) => push_choice(text, v, node),
        _ => Ok(()),
    }
}

impl ProgramText for Colouring {
    ghost use Rattle.colour_program.specs.ColoursText.{colouring_texts};
    ghost use Rattle.colour_program.specs.ColoursTextLaws.{colouring_lined};

    ghost texts = { colouring_texts };

    ghost lined = { colouring_lined };

    fn rounds_solve() {}

    fn name() -> &'static str {
        "colouring"
    }

    fn is_named() -> bool {
        false
    }

    // The edition is 2 where a vertex has a bar, for the merging then goes by Δ and the bars.
    fn push_head(text: &mut Vec<u8>, net: &Network) -> Result<(), AllocError> {
        text.extend_from_slice(b"rounds ")?;
        let nodes = u64::from(net.nodes());
        let degree = u64::from(net.greatest_degree());
        let bars = u64::from(net.greatest_bars());
        let forests = u64::from(net.forest_count());
        let last = u64::from(Colouring::last_pulse(net));
        if bars == 0 {
            push_row(text, &[1, nodes, degree, forests, last])
        } else {
            push_row(text, &[2, nodes, degree, bars, forests, last])
        }
    }

    fn push_phase(text: &mut Vec<u8>, net: &Network, pulse: u32) -> Result<(), AllocError> {
        let schedule = Schedule::of(net);
        push_words(text, &schedule, schedule.phase(pulse))
    }

    fn push_lines(
        &self,
        text: &mut Vec<u8>,
        _net: &Network,
        pulse: u32,
        v: u32,
    ) -> Result<(), AllocError> {
        let node = self.node();
        push_node(text, node.phase(pulse), v, node)
    }

    fn push_result(&self, text: &mut Vec<u8>, _net: &Network, _v: u32) -> Result<(), AllocError> {
        push_numbered(text, b" channel ", u128::from(self.colour()) + 1)
    }
}
