//! The words of the layers in texts.

ghost use Rattle.std.specs.Prelude.{◌≡◌, ◌++◌, IfOk};
ghost use Rattle.interference.specs.Net.{IsVertex};
ghost use Rattle.layers.specs.Texts.{layer_text, to_text};

use crate::laws::rounds_end_with_the_distances;
use crate::layer::Layer;
use crate::node::Layers;
use interference::Network;
use number_rows::push_numbered;
use program_texts::NamedText;
use std::alloc::AllocError;

// Appends a distance, and the port that leads closer.
fn push_layer(text: &mut Vec<u8>, layer: Layer) -> Result<(), AllocError>
    ensures { IfOk result (λ _. text.new.items ≡ text.old.items ++ layer_text layer) }
{
    match layer {
        Layer::Unreached => text.extend_from_slice(b" layer none"),
        Layer::Root => text.extend_from_slice(b" layer 0"),
        Layer::Away(hops, port) => {
            push_numbered(text, b" layer ", u128::from(hops))?;
            push_numbered(text, b" by ", u128::from(port))
        }
    }
}

// Appends the neighbour at a port of a vertex.
fn push_to(text: &mut Vec<u8>, net: &Network, v: u32, port: u32) -> Result<(), AllocError>
    requires vertex { IsVertex net.now v }
    ensures { IfOk result (λ _. text.new.items ≡ text.old.items ++ to_text net.now v port) }
{
    if port < net.degree(v) {
        push_numbered(text, b" to ", u128::from(net.neighbour(v, port)))?;
    }
    Ok(())
}

impl NamedText for Layers {
    ghost use Rattle.layers.specs.Texts.{layers_words};
    ghost use Rattle.layers.specs.TextsLaws.{layers_named};

    ghost words = { layers_words };

    ghost are_named = { layers_named };

    fn rounds_end() {
        rounds_end_with_the_distances();
    }

    fn program_name() -> &'static str {
        "layers"
    }

    fn push_found(&self, text: &mut Vec<u8>) -> Result<(), AllocError> {
        push_layer(text, self.layer())
    }

    fn push_more(&self, text: &mut Vec<u8>, net: &Network, v: u32) -> Result<(), AllocError> {
        match self.layer() {
            Layer::Away(_, port) => push_to(text, net, v, port),
            _ => Ok(()),
        }
    }
}
