//! One end: a panel's.
ghost use Rattle.std.specs.Prelude.{◌≤◌, ◌<◌, ◌+◌, vec_len};
ghost use Rattle.std.specs.List.{All};
ghost use Rattle.std.specs.Option.{ForSome};
ghost use Rattle.points.specs.declared.numbered_row.TheConstants.{LAST_NUMBER};

use crate::moves::Move;
use crate::press_fault::PressFault;
use crate::replies::{ended_by, find_entry, reach_after, remove_entry, skip_after};
use deliveries::{Delivery, Reply};
use points::{Content, Name};
use std::alloc::{AllocError, Global};
use window::{LAST_NUMBER, NumberedContent, WINDOW};

/// How many commands a panel has in flight at most.
pub const MOST_IN_FLIGHT: usize = 64;

/// One panel's end: the number of its next press, the commands that have not heard their last, and what it gave up.
#[derive(Drop)]
pub struct PanelEnd {
    name: Name,
    next: u64,
    // The journal has each press below this number.
    kept_below: u64,
    // By rising number.
    in_flight: Vec<NumberedContent>,
    // What is given up below this number, the desk has not said that it is.
    skip: Option<u64>,
    // How far a skip goes at once.
    reach: u64,
    ghost at_most_64: { vec_len in_flight ≤ 64 },
    ghost in_range: { next ≤ LAST_NUMBER + 1 },
    ghost numbers: { All (λ entry. entry.number < next) in_flight.items },
    ghost skip_in_range: { ForSome skip (λ upto. upto ≤ LAST_NUMBER + 1) },
}

impl PanelEnd {
    ghost use Rattle.std.specs.Prelude.{◌≡◌, ◌-◌, ◌++◌, ◌==◌, ◌&&◌, nat_lt, if◌then◌else◌, map, length, is_none, true, IfOk, ◌↔◌};
    ghost use Rattle.std.specs.Prelude.{IfErr, IfSome, IsErrOf, IsOk, OnErr, OnOk};
    ghost use Rattle.panel.specs.Ran.{Ran};
    ghost use Rattle.panel.specs.Replayed.{IsRefused, Refuses, moved, replayed};
    ghost use Rattle.panel.specs.Run.{Run, Began, Pressed, Kept, Heard, GaveUp, behind, entry_of, least_of, life, next_number};
    ghost use Rattle.std.specs.List.{filter};
    ghost use Rattle.panel.specs.Due.{command_of, due, is_kept};
    ghost use Rattle.panel.specs.Upheld.{AllIsDone, IsTrueOf, IsUpheld, LiesWithin};
    ghost use Rattle.panel.specs.Life.{WereSent};
    ghost use Rattle.panel.specs.Means.{ended_by};

    /// The end of a panel of this name that never pressed anything.
    pub fn new(alloc: Global, name: Name) -> Self
        ensures ran { Ran (Began 1) result }
        ensures name { result.name ≡ name }
    {
        PanelEnd {
            name,
            next: 1,
            kept_below: 1,
            in_flight: Vec::new(alloc),
            skip: None,
            reach: 1,
        }
    }

    /// The end of a panel that lost its journal, where the desk says `next`: it numbers on from `next` + 64, which no
    /// command of an earlier life reached (`in_flight`, clause `within`), and gives up all below. `NoNumberLeft` where
    /// that lies past the last number.
    pub fn resume(alloc: Global, name: Name, next: u64) -> Result<Self, PressFault>
        ensures ran { IfOk result (λ panel. Ran (Began (next + WINDOW)) panel) }
        ensures name { IfOk result (λ panel. panel.name ≡ name) }
        ensures used_up { IsErrOf result PressFault.NoNumberLeft ↔ (LAST_NUMBER < next + WINDOW) }
        ensures otherwise { IsOk result ↔ (next + WINDOW ≤ LAST_NUMBER) }
    {
        if LAST_NUMBER - WINDOW < next {
            return Err(PressFault::NoNumberLeft);
        }
        let first = next + WINDOW;
        Ok(PanelEnd {
            name,
            next: first,
            kept_below: first,
            in_flight: Vec::new(alloc),
            skip: Some(first),
            reach: first,
        })
    }

    /// Presses a content, and answers the number that it got. It is sent once the journal has it (`keep`).
    pub fn press(&mut self, content: &Content) -> Result<u64, PressFault>
        ensures ran { (run : Run) → Ran run self.old
            → IfOk result (λ number. (number ≡ next_number run) × Ran (Pressed run content.now) self.new) }
        ensures refused { (run : Run) → Ran run self.old → OnErr result (Ran run self.new) }
        ensures full { IsErrOf result PressFault.Full ↔ (MOST_IN_FLIGHT ≤ length self.old.in_flight.items) }
        ensures used_up { IsErrOf result PressFault.NoNumberLeft
            ↔ (length self.old.in_flight.items < MOST_IN_FLIGHT) × (LAST_NUMBER < self.old.next) }
        ensures name { self.new.name ≡ self.old.name }
    {
        if MOST_IN_FLIGHT <= self.in_flight.len() {
            return Err(PressFault::Full);
        }
        if LAST_NUMBER < self.next {
            return Err(PressFault::NoNumberLeft);
        }
        let number = self.next;
        self.in_flight.push(NumberedContent {
            number,
            content: *content,
        })?;
        self.next = number + 1;
        Ok(number)
    }

    // The number behind this one, and at most that of the next press.
    fn behind(&self, number: u64) -> u64
        ensures { result ≡ behind number self.now.next }
    {
        if number < self.next {
            number + 1
        } else {
            self.next
        }
    }

    /// The journal has each press up to this number: from now on they are due.
    pub fn keep(&mut self, number: u64)
        ensures ran { (run : Run) → Ran run self.old → Ran (Kept run number) self.new }
        ensures name { self.new.name ≡ self.old.name }
    {
        self.kept_below = self.kept_below.max(self.behind(number));
    }

    /// Hears a reply of the desk, and answers the command that has heard its last with it: it is in flight no more. A
    /// reply to a number that is not in flight ends nothing.
    pub fn hear(&mut self, reply: &Reply) -> Option<NumberedContent>
        ensures ran { (run : Run) → Ran run self.old → Ran (Heard run reply.now) self.new }
        ensures ended { result ≡ entry_of (ended_by reply.now) self.old.in_flight.items }
        ensures means { (run : Run) → Ran run self.old → IfSome result (λ command. IsTrueOf self.old.name run reply.now command) }
        ensures name { self.new.name ≡ self.old.name }
    {
        self.skip = skip_after(reply, self.skip);
        self.reach = reach_after(reply, self.reach);
        let number = ended_by(reply)?;
        let ended = find_entry(&self.in_flight, number);
        remove_entry(&mut self.in_flight, number);
        ended
    }

    /// Gives up what was pressed up to this number: a skip is due until the desk has said that it is done, and then
    /// each of these commands once more, for what became of it.
    pub fn give_up(&mut self, number: u64)
        ensures ran { (run : Run) → Ran run self.old → Ran (GaveUp run number) self.new }
        ensures name { self.new.name ≡ self.old.name }
    {
        let upto = self.behind(number);
        let upto = self.skip.map_or(upto, |other| other.max(upto));
        self.skip = Some(upto);
        self.reach = upto;
    }

    // The least number in flight, or that of the next press.
    fn least(&self) -> u64
        ensures { result ≡ least_of self.now.next self.now.in_flight.items }
    {
        self.in_flight
            .first()
            .map_or(self.next, |entry| entry.number)
    }

    /// The desk says `next`, and may have been restored from a backup: what it no longer knows and this end no longer
    /// has in flight is given up, and the rest is sent again. Nothing is to be done where `next` is not below that.
    pub fn desk_restored(&mut self, next: u64)
        ensures ran { (run : Run) → Ran run self.old → let least = least_of self.old.next self.old.in_flight.items in
            Ran (if nat_lt next least then GaveUp run (least - 1) else run) self.new }
        ensures name { self.new.name ≡ self.old.name }
    {
        let least = self.least();
        if next < least {
            self.give_up(least - 1);
        }
    }

    fn repeat(&mut self, made: &Move) -> Result<(), PressFault>
        ensures ran { (run : Run) → Ran run self.old → OnOk result (Ran (moved run made.now) self.new) }
        ensures faults { (run : Run) → Ran run self.old → IfErr result (λ fault. Refuses fault run made.now) }
        ensures name { self.new.name ≡ self.old.name }
    {
        match made {
            Move::Press { content } => {
                let number = self.press(content)?;
                self.keep(number);
            }
            Move::Hear { reply } => {
                let _ended = self.hear(reply);
            }
            Move::GiveUp { number } => self.give_up(*number),
        }
        Ok(())
    }

    /// Takes up what a journal has: after a restart, over the end that the journal began with (`new` or `resume`). A
    /// fault comes where the journal is not one of such an end, or where memory is refused.
    pub fn replay(&mut self, moves: &[Move]) -> Result<(), PressFault>
        ensures ran { (run : Run) → Ran run self.old → OnOk result (Ran (replayed run moves.now) self.new) }
        ensures faults { (run : Run) → Ran run self.old → IfErr result (λ fault. IsRefused fault run moves.now) }
        ensures name { self.new.name ≡ self.old.name }
    {
        for made in moves {
            if let Err(fault) = self.repeat(made) {
                return Err(fault);
            }
        }
        Ok(())
    }

    // The delivery of a command.
    fn command_of(&self, entry: &NumberedContent) -> Delivery
        requires { entry.now.number ≤ LAST_NUMBER }
        ensures { result ≡ command_of self.now.name entry.now }
    {
        Delivery::Command {
            panel: self.name,
            number: entry.number as i64,
            content: entry.content,
        }
    }

    fn push_commands(&self, named: &mut Vec<Delivery>) -> Result<(), AllocError>
        ensures { OnOk result (named.new.items ≡ named.old.items
            ++ map (command_of self.now.name) (filter (is_kept self.now.kept_below) self.now.in_flight.items)) }
    {
        for entry in &self.in_flight {
            if entry.number < self.kept_below {
                named.push(self.command_of(entry))?;
            }
        }
        Ok(())
    }

    /// What is to be sent now, or again: a skip alone, as long as the desk has not said that it is done; then each
    /// command that is in the journal and has not heard its last, by rising number.
    pub fn due(&self, alloc: Global) -> Result<Vec<Delivery>, AllocError>
        ensures due { (run : Run) → Ran run self.now → IfOk result (λ named. named.items ≡ due self.now.name run) }
        ensures sent { (run : Run) → Ran run self.now → IfOk result (λ named. WereSent (life run) self.now.name named.items) }
    {
        let mut named = Vec::new(alloc);
        if let Some(upto) = self.skip {
            named.push(Delivery::Skip {
                panel: self.name,
                upto: upto.min(self.reach) as i64,
            })?;
            return Ok(named);
        }
        self.push_commands(&mut named)?;
        Ok(named)
    }

    /// The commands that have not heard their last, by rising number. Whatever the network loses, repeats and reorders:
    /// what the desk acts on is a part of what was pressed, each once, in order; what is missing was given up, or is
    /// one of these.
    pub fn in_flight(&self) -> &[NumberedContent]
        ensures in_flight { result.now ≡ self.now.in_flight.items }
        ensures at_most_64 { length result.now ≤ MOST_IN_FLIGHT }
        ensures upheld { (run : Run) → Ran run self.now → IsUpheld self.now.name run result.now }
        ensures within { (run : Run) → Ran run self.now → LiesWithin self.now.name run }
    {
        self.in_flight.as_slice()
    }

    /// Whether each command has heard its last and each skip is done. If nothing was given up, what the desk acted on
    /// is then what was pressed.
    pub fn is_at_rest(&self) -> bool
        ensures result { result ≡ ((length self.now.in_flight.items == 0) && is_none self.now.skip) }
        ensures all_is_done { (run : Run) → Ran run self.now → result ≡ true → AllIsDone self.now.name run }
    {
        self.in_flight.is_empty() && self.skip.is_none()
    }

    /// The number of the next press.
    pub fn next_number(&self) -> u64
        ensures { result ≡ self.now.next }
    {
        self.next
    }

    /// The panel's name.
    pub fn name(&self) -> &Name
        ensures { result.now ≡ self.now.name }
    {
        &self.name
    }
}
