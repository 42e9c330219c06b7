//! What put this value there, since when, and what comes next?
//!
//! The definition goes over the events of a record's deliveries, beside the machine (`specs/Settling.antt`,
//! `specs/Authors.antt`): of a place the last event that wrote it, which is a panel's command, or a tick or an import
//! at which a schedule was due; where none did, what was put there before the record. That a place's author gives the
//! value that the machine has there is a law (`laws`).
//!
//! `Authors` is a table of what the places of a building's points hold, carried along while deliveries are made to a store
//! in memory, which has the tables where the record begins (`authors`, `specs/AuthorsTable.antt`): a command or a skip
//! writes the places that the commands name which its panel's next number passed (`steps`, `commands`), a tick or an
//! import those of the schedules that leave them or are due (`desk_settling`, `settling`).
//!
//! `point_at_end` makes a list of deliveries so. At the end the table has the sixteen places of a point, and the store
//! holds what was imported and the last tick: from them come the next changes of the schedules that target the point
//! (`scheduled`, `specs/NextChanges.antt`).
//!
//! `why_text` tells it: the line of the point as a replay prints it, a line for each of its places that has a value,
//! with what put it there (`author_texts`), its relinquish default (`place_lines`), and a line for each next change of a
//! schedule that targets it (`next_lines`). It is the text of `specs/WhyLines.antt`, byte for byte.
#![tactic(auto)]

pub use author::{Author, Held, Place, Settling};
pub use author_texts::{author_text, moment_text, source_text};
pub use authors::Authors;
pub use laws::place_has_its_authors_value;
pub use place_lines::why_text;
pub use scheduled::ScheduledChange;
pub use walking::{PointAtEnd, point_at_end, point_now};
pub use words::{left_in, right_in};

mod author;
mod author_texts;
mod authors;
mod commands;
mod laws;
mod next_lines;
mod place_lines;
mod scheduled;
mod settling;
mod steps;
mod walking;
mod words;
