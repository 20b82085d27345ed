// One turn, the record after it, and silent turns that are taken at once, on input that has been checked.
#![tactic(auto)]

ghost use Rattle.std.specs.Prelude.{◌≡◌, ◌+◌, ◌≤◌, ◌<◌, ◌++◌, length, take, drop, replicate};
ghost use Rattle.model.specs.Limits.{max_time, max_budget, max_slot_ticks, not_begun};
ghost use Rattle.model.specs.Sheet.{slot_ticks, budget};
ghost use Rattle.model.specs.Idle.{idle_bus, silent_turns, SilentBefore};
ghost use Rattle.model.specs.Protocol.{taken_by, begins_from, serve_turn, next_node, next_bus, releases};
ghost use Rattle.queue.specs.Queue.{ValidNode, RisingFrom, Arrived, FirstUnbegun};
ghost use Rattle.turns.specs.Turns.{header_as, AllBelow, NextEvent};

use model::Bus;
use queue::look;

// The sheet's first three words, read once for the clock and the order of nodes: n, TMS and TPR.
#[derive(Clone, Copy)]
pub struct Header {
    pub nodes: u32,
    pub message: u32,
    pub slot: u32,
}

// The header of a sheet.
pub fn header_of(sheet: &[u32]) -> Header
    ensures { result ≡ header_as sheet.now }
{
    Header {
        nodes: layout::word_at(sheet, 0),
        message: layout::word_at(sheet, 1),
        slot: layout::word_at(sheet, 2),
    }
}

// The messages at the first `count` places begin one after the other, the first of them at a tick.
fn begin_messages(message: u32, tick: u32, places: &[usize], count: usize, room: &mut [u32])
    requires count_le_max_budget { (count ≤ max_budget) × (count ≤ length places.now) × (message ≤ max_slot_ticks) × (tick ≤ max_time) }
    requires all_below { AllBelow (length room.old) (take count places.now) }
    ensures { room.new ≡ begins_from message tick (take count places.now) room.old }
{
    let mut begin = tick;
    for at in &places[..count] {
        room[*at] = begin;
        begin += message;
    }
}

// The record's turn, where all releases that are due are among the first `to` and the first one that has not begun is at `from`: looks once
// at the queue and writes the begin ticks of the messages that it takes. Answers how many those are; they stand in `found`.
pub fn run_turn(
    sheet: &[u32],
    header: Header,
    log: &[u32],
    bus: Bus,
    from: usize,
    to: usize,
    found: &mut [usize],
    room: &mut [u32],
) -> u32
    requires valid_node { ValidNode sheet.now bus.node × (bus.tick ≤ max_time) × (releases log.now ≤ length room.old) × (max_budget ≤ length found.old) }
    requires header_value { (header ≡ header_as sheet.now) × FirstUnbegun log.now room.old from × Arrived log.now bus.tick to }
    ensures taken { result ≡ (serve_turn sheet.now log.now bus room.old).taken }
    ensures begins { room.new ≡ (serve_turn sheet.now log.now bus room.old).begins }
    ensures found { take result found.new ≡ taken_by sheet.now log.now bus.node bus.tick (budget sheet.now bus.node) room.old }
{
    let taken = look(sheet, log, bus.node, bus.tick, from, to, &room[..], found);
    begin_messages(header.message, bus.tick, &found[..], taken, room);
    taken as u32
}

// The node after k.
fn next_node(sheet: &[u32], header: Header, k: u32) -> u32
    requires { ValidNode sheet.now k × (header ≡ header_as sheet.now) }
    ensures { result ≡ next_node sheet.now k }
{
    if k == header.nodes {
        return 1;
    }
    k + 1
}

// The record after a turn that took so many messages.
pub fn next_bus(sheet: &[u32], header: Header, bus: Bus, taken: u32) -> Bus
    requires valid_node { ValidNode sheet.now bus.node × (header ≡ header_as sheet.now) }
    requires tick_le_max_time { (bus.tick ≤ max_time) × (bus.turns ≤ max_time + bus.tick) × (taken ≤ max_budget) }
    ensures { result ≡ next_bus sheet.now bus taken }
{
    let node = next_node(sheet, header, bus.node);
    Bus {
        tick: bus.tick + taken * header.message + header.slot,
        node,
        turns: bus.turns + 1,
    }
}

// Marks the first `count` releases as not begun.
pub fn clear(room: &mut [u32], count: usize)
    requires { count ≤ length room.old }
    ensures { room.new ≡ replicate count not_begun ++ drop count room.old }
{
    room[..count].fill(u32::MAX);
}

// The next tick at which one of the releases from `to` on can be due, where none of them is at a tick: the first of them, or the horizon.
pub fn next_event(log: &[u32], horizon: u32, tick: u32, to: usize) -> u32
    requires { RisingFrom log.now to × Arrived log.now tick to × (tick < horizon) }
    ensures { NextEvent log.now horizon tick to result }
{
    if log.len() / 2 <= to {
        return horizon;
    }
    let next = log[2 * to];
    next.min(horizon)
}

// How many turns start before a tick, if all of them are silent.
fn silent_turns(slot: u32, tick: u32, until: u32) -> u32
    requires { (1 ≤ slot) × (slot ≤ max_slot_ticks) × (tick < until) × (until ≤ max_time) }
    ensures count { result ≡ silent_turns slot tick until }
    ensures before { SilentBefore slot tick until result }
{
    // Kept: `div_ceil` needs a step more after the division, with which a replay of few messages took 3% longer.
    (until - tick + slot - 1) / slot
}

// The silent turns that start before a tick, taken at once: the record after them.
pub fn pass_idle(sheet: &[u32], header: Header, bus: Bus, until: u32) -> Bus
    requires valid_node { ValidNode sheet.now bus.node × (header ≡ header_as sheet.now) }
    requires tick_lt_until { (bus.tick < until) × (until ≤ max_time) × (bus.turns ≤ max_time + bus.tick) }
    ensures { result ≡ idle_bus sheet.now bus (silent_turns (slot_ticks sheet.now) bus.tick until) }
{
    let turns = silent_turns(header.slot, bus.tick, until);
    Bus {
        tick: bus.tick + turns * header.slot,
        node: (bus.node - 1 + turns) % header.nodes + 1,
        turns: bus.turns + turns,
    }
}
