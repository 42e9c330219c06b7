//! What does a panel send, what may it conclude from what it hears, and what does it keep in its journal?
//!
//! A `PanelEnd` numbers what is pressed, keeps at most 64 commands in flight, and repeats each until it has heard its
//! last. `press` gives a number, and the caller puts the press in its journal; `keep` says that it is there, and from
//! then on `due` names it. Each reply of the desk goes to `hear`. It does no input and no output.
//!
//! A run of it is defined by `specs/Run.antt`, and what it holds after a run by `specs/Ran.antt`: each call says what
//! it adds to the run. That whatever the network loses, repeats and reorders, what was pressed is what is done, once,
//! in order, is the contract of `in_flight` (`specs/Upheld.antt`); that `due` names nothing else is that of `due`.
//!
//! A life (`specs/Life.antt`) is what one run of a panel's end does: it numbers from a first number on, presses, and
//! gives up. Of any list of deliveries in which each of its panel's was sent by that life, or by an earlier one below the
//! first number, with whatever is lost, repeated, reordered, or comes from others in between, `specs/Laws.antt` says
//! what the definitions of `deliveries` act on, and what each reply means (`specs/Means.antt`; `life_laws`).
//!
//! A journal is a text of lines, each one JSON object (`Entry`): the panel's name and its first number, then what was
//! pressed, what was heard, and what was given up, in the order in which it was done. `line_of` writes an entry, and
//! `entry_of` reads one. `reply_of` reads the body of a response: anything that is no answer of the desk to a panel is
//! none. `content_of` reads a command without a number.
#![tactic(auto)]

pub use entry::Entry;
pub use entry_laws::entries_read_back;
pub use laws::{named_is_sent, sent_stays_sent};
pub use life_laws::{commands_are_pressed, life_goes_on, replies_are_true};
pub use moves::Move;
pub use panel_end::{MOST_IN_FLIGHT, PanelEnd};
pub use press_fault::PressFault;
pub use reading::{content_of, entry_of, reply_of};
pub use writing::line_of;

mod entry;
mod entry_laws;
mod entry_reading;
mod laws;
mod life_laws;
mod moves;
mod panel_end;
mod press_fault;
mod reading;
mod replies;
mod reply_reading;
mod writing;
