//! A panel's end, its journal and its desk.
use crate::exchange::exchange;
use crate::fault::Fault;
use crate::journal::{self, append, keep};
use crate::progress::{Progress, Standing};
use deliveries::{Delivery, Reply};
use delivery_json::ReplyText;
use panel::{Entry, MOST_IN_FLIGHT, PanelEnd, content_of};
use points::{Content, Name};
use std::fs::File;
use std::io::{self, Write};
use std::thread;
use std::time::Duration;

// A last reply that is not printed yet.
#[derive(Clone, Copy)]
struct Answer {
    number: u64,
    reply: Reply,
}

/// A panel's end over its journal and its desk. Each answer is printed once, in the order of the presses.
#[derive(Drop)]
pub struct Sender<'a> {
    rt: &'a HostRuntime,
    address: &'a str,
    end: PanelEnd,
    journal: File,
    answers: Vec<Answer>,
    // The number whose answer is printed next.
    printed_below: u64,
    // How many of this run's answers were printed.
    answered: u64,
    // How many passes brought nothing, one after another.
    idle: u32,
    progress: Progress<'a>,
}

// How long to wait after so many passes that brought nothing: from a tenth of a second to some six.
fn pause_after(idle: u32) -> Duration {
    match idle {
        0 | 1 => Duration::from_millis(100),
        2 => Duration::from_millis(200),
        3 => Duration::from_millis(400),
        4 => Duration::from_millis(800),
        5 => Duration::from_millis(1_600),
        6 => Duration::from_millis(3_200),
        _ => Duration::from_millis(6_400),
    }
}

// The desk's next number, as its reply to a command past every window says it.
fn ask_next(rt: &HostRuntime, address: &str, name: &Name) -> Result<u64, Fault> {
    let content = Content {
        point: *name,
        priority: 16,
        value: None,
    };
    let delivery = Delivery::Command {
        panel: *name,
        number: 1_000_000_000_000,
        content,
    };
    let mut idle = 0u32;
    for _ in 0..u64::MAX {
        match exchange(rt, address, name, &delivery)? {
            Some(Reply::TooFar { next, .. }) => return Ok(next),
            Some(Reply::NoPanel) => return Err(Fault::NoPanel),
            Some(_) => return Err(Fault::NoNumberLeft),
            None => {}
        }
        idle = idle.saturating_add(1);
        thread::sleep(rt, pause_after(idle));
    }
    Err(Fault::NoNumberLeft)
}

// The end of an empty journal: it numbers on behind what any earlier life of the panel used.
fn begin_anew(
    rt: &HostRuntime,
    address: &str,
    name: Name,
    file: &mut File,
) -> Result<PanelEnd, Fault> {
    let next = ask_next(rt, address, &name)?;
    let end = PanelEnd::resume(rt.alloc(), name, next)?;
    let first = end.next_number();
    keep(rt.alloc(), file, &Entry::Began { panel: name, first })?;
    Ok(end)
}

// The next number in a reply to a command that waits.
fn next_in_reply(delivery: &Delivery, reply: &Reply) -> Option<u64> {
    match (delivery, reply) {
        (Delivery::Command { .. }, Reply::Parked { next, .. }) => Some(*next),
        (Delivery::Command { .. }, Reply::TooFar { next, .. }) => Some(*next),
        _ => None,
    }
}

fn is_skip(delivery: &Delivery) -> bool {
    matches!(delivery, Delivery::Skip { .. })
}

fn first_waiting(end: &PanelEnd) -> u64 {
    end.in_flight()
        .first()
        .map_or(end.next_number(), |entry| entry.number)
}

impl<'a> Sender<'a> {
    /// Takes up the journal of a path, or begins one.
    pub fn begin(
        rt: &'a HostRuntime,
        address: &'a str,
        name: Name,
        path: &str,
    ) -> Result<Self, Fault> {
        let opened = journal::open(rt, name, path)?;
        let mut journal = opened.file;
        let mut progress = Progress::new(rt);
        let end = match opened.end {
            Some(end) => end,
            None => {
                progress.tell(Standing::Asks);
                let begun = begin_anew(rt, address, name, &mut journal);
                progress.clear();
                begun?
            }
        };
        let printed_below = first_waiting(&end);
        Ok(Sender {
            rt,
            address,
            end,
            journal,
            answers: Vec::new(rt.alloc()),
            printed_below,
            answered: 0,
            idle: 0,
            progress,
        })
    }

    /// Presses what a line says; false where it is no command.
    pub fn press_line(&mut self, line: &str) -> Result<bool, Fault> {
        let Some(content) = content_of(self.rt.alloc(), line.as_bytes())? else {
            return Ok(false);
        };
        self.make_room()?;
        let number = self.end.press(&content)?;
        keep(
            self.rt.alloc(),
            &mut self.journal,
            &Entry::Pressed { number, content },
        )?;
        self.end.keep(number);
        self.pass()?;
        Ok(true)
    }

    /// Gives up what is in flight.
    pub fn give_up(&mut self) -> Result<(), Fault> {
        if self.end.in_flight().is_empty() {
            return Ok(());
        }
        let number = self.end.next_number().saturating_sub(1);
        keep(
            self.rt.alloc(),
            &mut self.journal,
            &Entry::GaveUp { number },
        )?;
        self.end.give_up(number);
        Ok(())
    }

    /// Sends what is due again and again, until each command has heard its last.
    pub fn finish(&mut self) -> Result<(), Fault> {
        for _ in 0..u64::MAX {
            if self.end.is_at_rest() {
                break;
            }
            self.pass_or_pause()?;
        }
        Ok(())
    }

    // Waits until one more may be in flight.
    fn make_room(&mut self) -> Result<(), Fault> {
        for _ in 0..u64::MAX {
            if self.end.in_flight().len() < MOST_IN_FLIGHT {
                break;
            }
            self.pass_or_pause()?;
        }
        Ok(())
    }

    fn pass_or_pause(&mut self) -> Result<(), Fault> {
        self.pass()?;
        if 0 < self.idle {
            thread::sleep(self.rt, pause_after(self.idle));
        }
        Ok(())
    }

    // Sends what is due, up to the first that gets no reply.
    fn pass(&mut self) -> Result<(), Fault> {
        let due = self.end.due(self.rt.alloc())?;
        let mut brought = false;
        for delivery in &due {
            match exchange(self.rt, self.address, self.end.name(), delivery)? {
                Some(reply) => brought = self.hear(delivery, &reply)? || brought,
                None => break,
            }
        }
        self.idle = if brought {
            0
        } else {
            self.idle.saturating_add(1)
        };
        self.show_progress();
        Ok(())
    }

    fn show_progress(&mut self) {
        let (answered, in_flight) = (self.answered, self.end.in_flight().len());
        self.progress.tell(if self.idle < 2 {
            Standing::Sends {
                answered,
                in_flight,
            }
        } else {
            Standing::Waits {
                answered,
                in_flight,
            }
        });
    }

    /// Takes the line of progress away.
    pub fn clear_progress(&mut self) {
        self.progress.clear();
    }

    // Hears the reply to a delivery, and answers whether it brought anything.
    fn hear(&mut self, delivery: &Delivery, reply: &Reply) -> Result<bool, Fault> {
        if let Reply::NoPanel = reply {
            return Err(Fault::NoPanel);
        }
        if let Some(next) = next_in_reply(delivery, reply) {
            self.follow(next)?;
        }
        if is_skip(delivery) {
            append(
                self.rt.alloc(),
                &mut self.journal,
                &Entry::Heard { reply: *reply },
            )?;
        }
        match self.end.hear(reply) {
            Some(command) => {
                self.answers.push(Answer {
                    number: command.number,
                    reply: *reply,
                })?;
                self.print_answers()?;
                Ok(true)
            }
            None => Ok(is_skip(delivery)),
        }
    }

    // A desk that says a next number below all that is in flight was restored from a backup.
    fn follow(&mut self, next: u64) -> Result<(), Fault> {
        let least = first_waiting(&self.end);
        if next < least {
            let number = least.saturating_sub(1);
            keep(
                self.rt.alloc(),
                &mut self.journal,
                &Entry::GaveUp { number },
            )?;
            self.end.desk_restored(next);
        }
        Ok(())
    }

    // Prints each answer whose turn has come. The journal has it afterwards: a stop in between prints it again.
    fn print_answers(&mut self) -> Result<(), Fault> {
        for _ in 0..u64::MAX {
            let turn = self.printed_below;
            let Some(index) = self.answers.iter().position(|answer| answer.number == turn) else {
                break;
            };
            let answer = self.answers.remove(index);
            let text = ReplyText(answer.reply);
            self.progress.clear();
            println!(self.rt; "{text}")?;
            append(
                self.rt.alloc(),
                &mut self.journal,
                &Entry::Heard {
                    reply: answer.reply,
                },
            )?;
            self.printed_below = turn.saturating_add(1);
            self.answered = self.answered.saturating_add(1);
        }
        Ok(())
    }
}
