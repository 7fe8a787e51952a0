//! Reading, network, forests, and the steps of colours.

ghost use Rattle.std.specs.Prelude.{◌<◌};

use cole_vishkin::bit_step;
use dimacs_col::{ColFault, ColFile, read};
use forest_merge::{ChosenSet, has_free, least_free, step_of};
use forests::{Role, decompose, number_up};
use interference::{Memory, NetFault, Network, bars_fit, edges_fit};
use shift_down::{drop_class, shift};
use std::alloc::Global;

pub fn reading(file: &ColFile) {
    let _: fn(Global, &[u8]) -> Result<ColFile, ColFault> = read;
    let ColFile {
        nodes,
        edges,
        ids,
        bars,
    } = file;
    let _: u32 = *nodes;
    let _: &Vec<(u32, u32)> = edges;
    let _: &Vec<(u32, u128)> = ids;
    let _: &Vec<(u32, u16)> = bars;
}

pub fn network() {
    let _: fn(u32, &[(u32, u32)]) -> bool = edges_fit;
    let _: fn(u32, &[(u32, u16)]) -> bool = bars_fit;
    let _: fn(Global, u32, &[u128], &[(u32, u32)], &[(u32, u16)]) -> Result<Network, NetFault> =
        Network::new;
    let _: fn(&Network) -> u32 = Network::nodes;
    let _: fn(&Network, u32) -> u128 = Network::id;
    let _: fn(&Network, u32) -> u32 = Network::degree;
    let _: fn(&Network, u32, u32) -> u32 = Network::neighbour;
    let _: fn(&Network, u32, u32) -> u32 = Network::back_port;
    let _: fn(&Network, u32, u16) -> bool = Network::is_barred;
    let _: fn(&Network) -> u32 = Network::greatest_degree;
    let _: fn(&Network) -> u32 = Network::greatest_bars;
    let _: fn(&Network) -> u32 = Network::forest_count;
    let _: fn(&Network, Global) -> Result<Network, Memory> = Network::copy;
}

pub fn forests(role: Role) -> Option<u16> {
    let _: fn(u128, &[u128], &mut [Role]) = number_up;
    let _: fn(Global, &Network) -> Result<Vec<(u16, u32, u32)>, Memory> = decompose;
    match role {
        Role::Unknown => None,
        Role::Up(forest) | Role::Down(forest) => Some(forest),
    }
}

pub fn steps() {
    let _: fn(u128, Option<u128>) -> u128 = bit_step;
    let _: fn(u8, Option<u8>) -> u8 = shift;
    let _: fn(u8, u8, u8, Option<u8>) -> u8 = drop_class;
    let _: fn(u32, u16) -> (u32, u8, u16) = step_of;
}

pub fn no_colours() -> ChosenSet {
    ChosenSet::new()
}

pub fn colours(chosen: &mut ChosenSet, barred: &ChosenSet, colour: u16, span: u16) -> Option<u16>
    requires { colour < 2048 }
{
    chosen.clear();
    chosen.add(colour);
    let _: bool = chosen.has(colour);
    if has_free(chosen, barred, span) {
        Some(least_free(chosen, barred, span))
    } else {
        None
    }
}
