//! The colours that are taken for a node: chosen by neighbours, or barred. They are in two sets, which are the
//! smallest of three that have room for them.
ghost use Rattle.std.specs.Prelude.{◌≡◌, ◌+◌, ◌<◌, ◌≤◌, ◌*◌, ◌↔◌, ◌||◌, ℕ, IfOk, IsTrue, Some, length};
ghost use Rattle.std.specs.FinSet.{contains, empty, insert};
ghost use Rattle.forest_merge.specs.Free.{HasFree, least_free_colour};
ghost use Rattle.forest_merge.specs.declared.chosen.TheConstants.{COLOURS, WORDS};
ghost use Rattle.node_api.specs.Boxes.{at_port};
ghost use Rattle.colour_rules.specs.declared.payload.Payload.TheVariants.{Chosen};
ghost use Rattle.colour_rules.specs.Choice.{with_chosen};
ghost use Rattle.colour_rules.specs.Node.{up_to};
ghost use Rattle.colour_rules.specs.Taken.{barred_in, chosen_in, is_taken_in, room_of, set_in};

use crate::merge::add_chosen;
use crate::payload::Payload;
use forest_merge::{COLOURS, ChosenSet, ColourSet, WORDS, has_free, least_free};
use interference::Memory;
use node_api::Inbox;
use std::alloc::Global;

// How many words the smallest set has.
const FEW_WORDS: usize = 2;

// For how many colours the smallest set has room.
const FEW_COLOURS: u16 = FEW_WORDS as u16 * 64;

// The same of the next larger set, which has room for the colours of each network without bars. Each node has room for
// the greatest degree of its network, so one node of some hundred neighbours makes the sets of all larger.
const MORE_WORDS: usize = 16;

const MORE_COLOURS: u16 = MORE_WORDS as u16 * 64;

// The barred colours of a node; none takes no memory.
type Barred<const N: usize> = Option<Box<ColourSet<N>>>;

// The set of the chosen colours, and that of the barred ones, which is never changed. Colours are mostly few, and
// mostly none is barred. Only `make` takes memory.
#[derive(Drop)]
pub(crate) enum TakenColours {
    Few(ColourSet<FEW_WORDS>, Barred<FEW_WORDS>),
    More(Box<ColourSet<MORE_WORDS>>, Barred<MORE_WORDS>),
    Many(Box<ChosenSet>, Barred<WORDS>),
}

/// The set of those bars that are 0 to `greatest`.
pub fn barred_set<const N: usize>(bars: &[u16], greatest: u16) -> ColourSet<N>
    requires room { N ≤ WORDS }
    requires greatest { greatest < 64 * N }
    ensures { result ≡ up_to greatest bars.now }
{
    let mut barred = ColourSet::new();
    for i in 0..bars.len() {
        if bars[i] <= greatest {
            barred.add(bars[i]);
        }
    }
    barred
}

// The same set in memory of its own, or none if nothing is barred.
fn boxed_bars<const N: usize>(
    alloc: Global,
    bars: &[u16],
    greatest: u16,
) -> Result<Barred<N>, Memory>
    requires room { N ≤ WORDS }
    requires greatest { greatest < 64 * N }
    ensures { IfOk result (λ barred. set_in barred ≡ up_to greatest bars.now) }
{
    if bars.is_empty() {
        return Ok(None);
    }
    let barred = Box::new(alloc, barred_set(bars, greatest))?;
    Ok(Some(barred))
}

impl TakenColours {
    // Nothing chosen, and those bars that are 0 to `greatest`, with room for the colours 0 to `greatest`.
    pub(crate) fn make(alloc: Global, bars: &[u16], greatest: u16) -> Result<TakenColours, Memory>
        requires { greatest < COLOURS }
        ensures chosen { IfOk result (λ taken. chosen_in taken ≡ empty) }
        ensures barred { IfOk result (λ taken. barred_in taken ≡ up_to greatest bars.now) }
        ensures room { IfOk result (λ taken. greatest < room_of taken) }
    {
        if greatest < FEW_COLOURS {
            let barred = boxed_bars(alloc, bars, greatest)?;
            Ok(TakenColours::Few(ColourSet::new(), barred))
        } else if greatest < MORE_COLOURS {
            let chosen = Box::new(alloc, ColourSet::new())?;
            let barred = boxed_bars(alloc, bars, greatest)?;
            Ok(TakenColours::More(chosen, barred))
        } else {
            let chosen = Box::new(alloc, ColourSet::new())?;
            let barred = boxed_bars(alloc, bars, greatest)?;
            Ok(TakenColours::Many(chosen, barred))
        }
    }

    // Forgets what was chosen.
    pub(crate) fn clear(&mut self)
        ensures chosen { chosen_in self.new ≡ empty }
        ensures barred { barred_in self.new ≡ barred_in self.old }
        ensures room { room_of self.new ≡ room_of self.old }
    {
        match self {
            TakenColours::Few(chosen, _) => chosen.clear(),
            TakenColours::More(chosen, _) => chosen.clear(),
            TakenColours::Many(chosen, _) => chosen.clear(),
        }
    }

    // Puts a colour among the chosen ones; one that is there already stays.
    pub(crate) fn add(&mut self, colour: u16)
        requires { colour < room_of self.old }
        ensures chosen { chosen_in self.new ≡ insert (chosen_in self.old) colour }
        ensures barred { barred_in self.new ≡ barred_in self.old }
        ensures room { room_of self.new ≡ room_of self.old }
    {
        match self {
            TakenColours::Few(chosen, _) => chosen.add(colour),
            TakenColours::More(chosen, _) => chosen.add(colour),
            TakenColours::Many(chosen, _) => chosen.add(colour),
        }
    }

    // Puts the colours that came as chosen among the chosen ones.
    pub(crate) fn add_all(&mut self, inbox: &Inbox<Payload>)
        requires colours { (port c : ℕ) → at_port inbox.now.slots port ≡ Some (Chosen c) → c < room_of self.old }
        ensures chosen { chosen_in self.new ≡ with_chosen (chosen_in self.old) inbox.now.slots }
        ensures barred { barred_in self.new ≡ barred_in self.old }
        ensures room { room_of self.new ≡ room_of self.old }
    {
        match self {
            TakenColours::Few(chosen, _) => add_chosen(chosen, inbox),
            TakenColours::More(chosen, _) => add_chosen(chosen, inbox),
            TakenColours::Many(chosen, _) => add_chosen(chosen, inbox),
        }
    }

    // The least colour that isn't taken; one of 0 to `greatest` isn't.
    pub(crate) fn least_free(&self, greatest: u16) -> u16
        requires { HasFree greatest (is_taken_in self.now) }
        ensures { result ≡ least_free_colour greatest (is_taken_in self.now) }
    {
        match self {
            TakenColours::Few(chosen, barred) => least_outside(chosen, barred, greatest),
            TakenColours::More(chosen, barred) => least_outside(chosen, barred, greatest),
            TakenColours::Many(chosen, barred) => least_outside(chosen, barred, greatest),
        }
    }

    // Whether one of the colours 0 to `greatest` is neither taken nor came as chosen.
    pub(crate) fn has_free_with(&self, greatest: u16, inbox: &Inbox<Payload>) -> bool
        requires colours { (port c : ℕ) → at_port inbox.now.slots port ≡ Some (Chosen c) → c < room_of self.now }
        ensures free { let chosen = with_chosen (chosen_in self.now) inbox.now.slots in
            IsTrue result ↔ HasFree greatest (λ c. contains chosen c || contains (barred_in self.now) c) }
    {
        match self {
            TakenColours::Few(chosen, barred) => {
                has_free_among(chosen.copy(), barred, greatest, inbox)
            }
            TakenColours::More(chosen, barred) => {
                has_free_among(chosen.copy(), barred, greatest, inbox)
            }
            TakenColours::Many(chosen, barred) => {
                has_free_among(chosen.copy(), barred, greatest, inbox)
            }
        }
    }
}

// The same, for a set of chosen colours that is used up.
fn has_free_among<const N: usize>(
    mut chosen: ColourSet<N>,
    barred: &Barred<N>,
    greatest: u16,
    inbox: &Inbox<Payload>,
) -> bool
    requires room { N ≤ WORDS }
    requires colours { (port c : ℕ) → at_port inbox.now.slots port ≡ Some (Chosen c) → c < 64 * N }
    ensures free { let chosen = with_chosen chosen.entry inbox.now.slots in
        IsTrue result ↔ HasFree greatest (λ c. contains chosen c || contains (set_in barred.now) c) }
{
    add_chosen(&mut chosen, inbox);
    has_outside(&chosen, barred, greatest)
}

// Whether one of the colours 0 to `greatest` is neither chosen nor barred.
fn has_outside<const N: usize>(chosen: &ColourSet<N>, barred: &Barred<N>, greatest: u16) -> bool
    requires room { N ≤ WORDS }
    ensures { IsTrue result ↔ HasFree greatest (λ c. contains chosen.now c || contains (set_in barred.now) c) }
{
    match barred {
        Some(barred) => has_free(chosen, barred, greatest),
        None => has_free(chosen, &ColourSet::<N>::new(), greatest),
    }
}

// The least colour that is neither chosen nor barred; one of 0 to `greatest` isn't.
fn least_outside<const N: usize>(chosen: &ColourSet<N>, barred: &Barred<N>, greatest: u16) -> u16
    requires room { N ≤ WORDS }
    requires free { HasFree greatest (λ c. contains chosen.now c || contains (set_in barred.now) c) }
    ensures { result ≡ least_free_colour greatest (λ c. contains chosen.now c || contains (set_in barred.now) c) }
{
    match barred {
        Some(barred) => least_free(chosen, barred, greatest),
        None => least_free(chosen, &ColourSet::<N>::new(), greatest),
    }
}
