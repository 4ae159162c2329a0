// The replay of a recording that is lent whole (R14.1 to R14.7), and its report as numbers (R14.9).
#![tactic(auto)]

ghost use Rattle.std.specs.Prelude.{ℕ, ◌≡◌, List, length};
ghost use Rattle.machine.specs.State.{lent_state};
ghost use Rattle.recording.specs.Replay.{step_of, differs, replay_from, replay};
ghost use Rattle.recording.specs.Report.{reported};
ghost use Rattle.replayer.specs.Work.{IsItem};

use destination::{are_other, shown_bytes};
use item::{Item, find};
use machine::Machine;
use recording::{Report, Reported};

mod destination;
mod item;
pub mod line;

// R14.4, R14.6: the step of an item, and whether it differs from what the item expects.
fn differs(machine: &mut Machine<'_>, item: &Item<'_>) -> bool
    ensures state_after { (bytes : List ℕ) → IsItem bytes item.now
        → lent_state machine.new ≡ (step_of (lent_state machine.old) bytes).state }
    ensures value { (bytes : List ℕ) → IsItem bytes item.now
        → result ≡ differs (step_of (lent_state machine.old) bytes) bytes }
{
    let answer = step::machine_step(machine, item.code, item.memory);
    let shown = shown_bytes(item.code, answer.number, machine.vectors, machine.masks);
    (answer.number != u32::from(item.number))
        | (u64::from(*machine.control) != item.control)
        | are_other(&shown, item.destination)
}

// R14.7: item after item, from a state that is not looked at again.
fn replay_items(mut machine: Machine<'_>, items: &[u8]) -> Report
    ensures { result ≡ replay_from (length items.now) (lent_state machine.entry) items.now 0 }
{
    let mut rest = items;
    // How many items are behind, for the report.
    let mut count = 0;
    while !rest.is_empty() {
        let Some(item) = find(rest) else {
            return Report::BadItem(count);
        };
        if differs(&mut machine, &item) {
            return Report::Differs(count);
        }
        rest = item.rest;
        count += 1;
    }
    Report::Same(count)
}

// R14.1: the saved form in front is loaded into a state of our own, and the items stand behind it.
pub fn replay(recording: &[u8]) -> Report
    ensures { result ≡ replay recording.now }
{
    let Some((front, items)) = recording.split_at_checked(saved::size_at(recording)) else {
        return Report::BadState;
    };
    // In place: what `saved::loaded` hands back by value would lie on the stack twice more.
    let mut own = saved::zeroed();
    let Ok(()) = saved::load_own(front, &mut own) else {
        return Report::BadState;
    };
    let machine = Machine {
        vectors: &mut own.vectors,
        masks: &mut own.masks,
        general: &own.general,
        control: &mut own.control,
        pointer: &mut own.pointer,
    };
    replay_items(machine, items)
}

// R14.9: the report as C is handed it.
pub fn reported(recording: &[u8]) -> Reported
    ensures { result ≡ reported (replay recording.now) }
{
    Reported::from(replay(recording))
}
