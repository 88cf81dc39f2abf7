// Relaxing the edges from a run that is settled: the runs that they lead onto get their labels. What is still to find at a node is noted, so that a node
// is looked over once: the first run to arrive from which every movement is within the tolerance labels every exit but the leg of its own arrival. If
// nothing is to find where that run came from, the run back there is of no use: it is labelled as if the bicycle could turn back, and never queued. Else
// the next such arrival labels it. After that no arrival there finds anything, and a run that leads there need not be queued.
ghost use Rattle.std.specs.Prelude.{Some, ◌≡◌, ◌+◌, ◌≤◌, ◌<◌, leb, length};
ghost use Rattle.lists.specs.Lists.{at};
ghost use Rattle.routes.specs.Steps.Labels.{unlabelled};
ghost use Rattle.frames.specs.Steps.Sizes.{county_feet};
ghost use Rattle.network.specs.Network.{nodes_of};
ghost use Rattle.streets.specs.Runs.{start, feet_of};
ghost use Rattle.search_relaxing.specs.Steps.Counted.{network_in};
ghost use Rattle.search_relaxing.specs.Steps.Unfound.{nothing, to_find, note_of, Noteable};
ghost use Rattle.search_relaxing.specs.Steps.Choice.{right_leg, every_leg, Reaches, Chooses, Relaxable, Visitable, Visited, Offerable, LegRelaxed, EdgesRelaxed};
ghost use Rattle.search_relaxing.specs.Steps.Choice.{LabelRoom, BackLabelled, Spreads};

use crate::Ask;
use crate::usable::is_usable;
use network::corners::run_leaving;
use search_labels::{NONE, write_label};
use streets::exits::right_hand_exit;

// A node's note tells in one byte what is to find there. From NOTHING on nothing is; below it any leg may be at 0, else one may: the note is 1 + that leg.
pub const NOTHING: u8 = 9;

// The legs of a node but for the leg of arrival.
const OTHERS: usize = 7;

// A run that is being settled: its label, and the node and the leg where it arrives.
#[derive(Clone, Copy)]
pub struct Reached {
    pub run: usize,
    pub label: u32,
    pub node: usize,
    pub leg: usize,
}

// What is to find at a node: a run without a label by any of its legs, or by one at most, or by none.
#[derive(Clone, Copy)]
pub enum ToFind {
    Any,
    Leg(usize),
    Nothing,
}

// What a note tells.
fn to_find(note: u8) -> ToFind
    ensures { result ≡ to_find note }
{
    match note {
        0 => ToFind::Any,
        NOTHING.. => ToFind::Nothing,
        next => ToFind::Leg(usize::from(next - 1)),
    }
}

// The note that tells it.
fn note_of(rest: ToFind) -> u8
    requires { Noteable rest }
    ensures { result ≡ note_of rest }
{
    match rest {
        ToFind::Any => 0,
        ToFind::Leg(leg) => 1 + leg as u8,
        ToFind::Nothing => NOTHING,
    }
}

// Onto which legs of the node edges are offered: so many from the first on, going round; whether the way back is labelled too; and what is to find at the
// node then.
#[derive(Clone, Copy)]
pub struct Choice {
    pub first: usize,
    pub count: usize,
    pub back: bool,
    pub rest: ToFind,
}

// Where only the movement onto the right-hand exit is within the tolerance. (Where no other leg is used, the exit is the leg of arrival itself, and there is
// no movement.)
#[tactic(auto, unfolding(crate::specs::Steps::Choice::right_leg))]
fn right_leg(exit: usize, leg: usize, rest: ToFind) -> Option<Choice>
    ensures { result ≡ right_leg exit leg rest }
{
    if exit == leg {
        return None;
    }
    Some(Choice {
        first: exit,
        count: 1,
        back: false,
        rest,
    })
}

// Where every movement is within the tolerance: onto the seven legs that are not the leg of arrival, or onto the one that is to find.
#[tactic(auto, unfolding(crate::specs::Steps::Choice::every_leg))]
fn every_leg(ask: &Ask, here: Reached, rest: ToFind, unfound: &[u8]) -> Option<Choice>
    requires { (here.run < ask.now.runs) × (here.leg < 8) × (nodes_of (network_in ask.now) ≤ length unfound.now) }
    ensures { result ≡ every_leg here.leg rest (leb nothing (at unfound.now (start (network_in ask.now) here.run))) }
{
    let leg = here.leg;
    match rest {
        ToFind::Any if NOTHING <= unfound[ask.streets.net.start_of(here.run)] => Some(Choice {
            first: leg + 1,
            count: OTHERS,
            back: true,
            rest: ToFind::Nothing,
        }),
        ToFind::Any => Some(Choice {
            first: leg + 1,
            count: OTHERS,
            back: false,
            rest: ToFind::Leg(leg),
        }),
        ToFind::Leg(last) if last != leg => Some(Choice {
            first: last,
            count: 1,
            back: false,
            rest: ToFind::Nothing,
        }),
        ToFind::Leg(_) | ToFind::Nothing => None,
    }
}

// Onto which legs the edges from a run lead that may find a run without a label; none where no edge does.
fn choose(ask: &Ask, here: Reached, unfound: &[u8]) -> Option<Choice>
    requires { Reaches ask.now here × (nodes_of (network_in ask.now) ≤ length unfound.now) }
    ensures { Chooses ask.now here unfound.now result }
{
    let rest = to_find(unfound[here.node]);
    if let ToFind::Nothing = rest {
        return None;
    }
    let approach = ask.streets.net.approach_of(here.run);
    if approach.across <= ask.tolerance {
        return every_leg(ask, here, rest, unfound);
    }
    if approach.turn <= ask.tolerance {
        return right_leg(
            right_hand_exit(ask.streets.legs[here.node], here.leg),
            here.leg,
            rest,
        );
    }
    None
}

// The label of a run by way of the run that was reached.
#[tactic(auto, using(crate::proofs::CountedLaws::feet_asked))]
fn label_by(ask: &Ask, here: Reached, run: usize) -> u32
    requires { (run < ask.now.runs) × (here.label + county_feet < unlabelled) }
    ensures { result ≡ here.label + feet_of (network_in ask.now) run }
{
    here.label + (ask.streets.net.feet_of(run) as u32)
}

// Visits a run: a usable run that has no label yet gets the one by way of the run that was reached. It is queued unless it leads where nothing is to find.
fn visit(
    ask: &Ask,
    here: Reached,
    run: usize,
    best: &mut [u32],
    previous: &mut [u32],
    tree: &mut [u64],
    unfound: &[u8],
)
    requires { Visitable ask.now here run best.old previous.old tree.old unfound.now }
    ensures { Visited ask.now here run unfound.now best.old previous.old
        best.new previous.new tree.new }
{
    if best[run] < NONE {
        return;
    }
    if !is_usable(&ask.streets.net, ask.tolerance, run) {
        return;
    }
    let label = label_by(ask, here, run);
    if NOTHING <= unfound[ask.streets.net.finish_of(run)] {
        best[run] = label;
        previous[run] = here.run as u32;
        return;
    }
    write_label(ask.runs, run, label, here.run as u32, best, previous, tree);
}

// Visits the run behind an entry of the index, where there is one.
fn relax_leg(
    ask: &Ask,
    here: Reached,
    entry: u16,
    best: &mut [u32],
    previous: &mut [u32],
    tree: &mut [u64],
    unfound: &[u8],
)
    requires { Offerable ask.now here entry best.old previous.old tree.old unfound.now }
    ensures { LegRelaxed ask.now here entry unfound.now best.old previous.old
        best.new previous.new tree.new }
{
    if let Some(run) = run_leaving(entry) {
        visit(ask, here, run, best, previous, tree, unfound);
    }
}

// Offers the legs that were chosen, one after the other.
fn offer(
    ask: &Ask,
    here: Reached,
    choice: Choice,
    best: &mut [u32],
    previous: &mut [u32],
    tree: &mut [u64],
    unfound: &[u8],
)
    requires { Relaxable ask.now here best.old previous.old tree.old unfound.now
        × Chooses ask.now here unfound.now (Some choice) }
    ensures { EdgesRelaxed ask.now here unfound.now best.old previous.old
        best.new previous.new tree.new }
{
    let place = here.node * 8;
    for k in 0..choice.count {
        let entry = ask.index[place + (choice.first + k) % 8];
        relax_leg(ask, here, entry, best, previous, tree, unfound);
    }
}

// Labels the way back, where it has no label, whether it may be ridden or not: nothing comes of its label, and it is never queued.
#[tactic(auto, using(crate::proofs::UnfoundLaws::back_inside))]
fn label_back(ask: &Ask, here: Reached, best: &mut [u32], previous: &mut [u32])
    requires { Reaches ask.now here × LabelRoom ask.now here best.old previous.old }
    ensures { BackLabelled ask.now here best.old previous.old
        best.new previous.new }
{
    if let Some(back) = run_leaving(ask.index[here.node * 8 + here.leg]) {
        if NONE <= best[back] {
            best[back] = label_by(ask, here, back);
            previous[back] = here.run as u32;
        }
    }
}

// Relaxes every edge from a run, and notes what is to find at the node where it arrives.
pub fn relax(
    ask: &Ask,
    here: Reached,
    best: &mut [u32],
    previous: &mut [u32],
    tree: &mut [u64],
    unfound: &mut [u8],
)
    requires { Relaxable ask.now here best.old previous.old tree.old unfound.old }
    ensures { Spreads ask.now here best.old previous.old unfound.old
        best.new previous.new tree.new unfound.new }
{
    let Some(choice) = choose(ask, here, unfound) else {
        return;
    };
    offer(ask, here, choice, best, previous, tree, unfound);
    if choice.back {
        label_back(ask, here, best, previous);
    }
    unfound[here.node] = note_of(choice.rest);
}
